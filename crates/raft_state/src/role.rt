//! The role of a node, and the leader to which it forwards requests, according to its vote and its
//! effective membership.
ghost use Rattle.std.specs.Prelude.{◌≡◌, ◌&&◌, IfOk, IsOk, None, Some};
ghost use Rattle.std.specs.Set.{ClonesAreEqual};
ghost use Rattle.raft_members.specs.quorum.Majority.{is_voter_of};
ghost use Rattle.raft_state.specs.raft_state.Role.{is_leading, server_state_of, known_leader, ForwardsTo};
ghost use Rattle.raft_state.specs.membership_state.Memberships.{in_effect};
ghost use Rattle.raft_state.specs.raft_state.VoteAndLog.{vote_of};

use crate::raft_state::RaftStateIn;
use raft_base::{Instant, LeaderIdentity, Node, NodeId, ServerState};
use raft_members::ForwardToLeader;
use std::alloc::AllocError;

impl<
    NID: NodeId,
    N: Node,
    I: Instant,
    C: Ord + Copy + Default + Drop + 'static,
    L: LeaderIdentity<Id = NID, Committed = C> + Drop,
> RaftStateIn<NID, N, I, L, C> {
    /// Returns the role of the node of an id, according to the vote and the effective membership.
    pub fn calc_server_state(&self, id: &NID) -> ServerState
        ensures { result ≡ server_state_of NID.eq NID.cmp L.voted
            (in_effect self.now.membership_state) (vote_of self.now) id.now }
    {
        if self.is_leader(id) {
            ServerState::Leader
        } else if self.is_leading(id) {
            ServerState::Candidate
        } else if self.is_voter(id) {
            ServerState::Follower
        } else {
            ServerState::Learner
        }
    }

    /// Whether the id is a voter of the effective membership.
    pub fn is_voter(&self, id: &NID) -> bool
        ensures { result ≡ is_voter_of NID.eq
            (in_effect self.now.membership_state).configs id.now }
    {
        self.membership_state.is_voter(id)
    }

    /// Whether the node of an id leads or asks to lead: it has a node in the effective membership,
    /// and the vote is for it. It need not be a voter. A leader that a change keeps as a learner
    /// continues to lead until another vote, or a membership without it, takes its place.
    pub fn is_leading(&self, id: &NID) -> bool
        ensures { result ≡ is_leading NID.eq NID.cmp L.voted
            (in_effect self.now.membership_state) (vote_of self.now) id.now }
    {
        self.membership_state.contains(id) && L::voted_for(self.vote.get().leader_id()) == Some(*id)
    }

    /// Whether the node of an id is the leader: it is leading, and the vote is committed.
    pub fn is_leader(&self, id: &NID) -> bool
        ensures { result ≡ (is_leading NID.eq NID.cmp L.voted
            (in_effect self.now.membership_state) (vote_of self.now) id.now
            && (vote_of self.now).committed) }
    {
        self.is_leading(id) && self.vote.get().is_committed()
    }

    /// Returns the node that a committed vote is for, if the effective membership has it. Requests
    /// for the leader are forwarded to it. If there is no such node, nothing is allocated.
    pub fn forward_to_leader(&self) -> Result<ForwardToLeader<NID, N>, AllocError>
        requires clones_are_equal { ClonesAreEqual N.eq N.is_clone }
        ensures node { IfOk result (ForwardsTo N.eq (known_leader NID.cmp L.voted
            (in_effect self.now.membership_state) (vote_of self.now))) }
        ensures no_memory { known_leader NID.cmp L.voted
            (in_effect self.now.membership_state) (vote_of self.now)
            ≡ None → IsOk result }
    {
        let vote = self.vote.get();
        if !vote.is_committed() {
            return Ok(ForwardToLeader::empty());
        }
        self.membership_state
            .forward_to(L::voted_for(vote.leader_id()))
    }
}
