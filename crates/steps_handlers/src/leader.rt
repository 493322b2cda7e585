//! A leader: what it knows of the members, and what it sends, commits and proposes.
ghost use Rattle.std.specs.Prelude.{◌≡◌, IfErr, IfOk, IsTrue, OnErr};
ghost use Rattle.std.specs.Option.{option_copied};
ghost use Rattle.std.specs.Set.{ClonesAreEqual};
ghost use Rattle.steps_handlers.specs.Campaign.{IsElectionRefusal};
ghost use Rattle.steps_handlers.specs.Compared.{compared};
ghost use Rattle.steps_handlers.specs.Leadership.{BecomesLeader, BeginsToLead, IsResumeRefusal, entry_of, is_leading};
ghost use Rattle.raft_progress.specs.tracked.Tracked.{tracked_view};
ghost use Rattle.raft_state.specs.log_id_list.FullLog.{end_index, full_log};
ghost use Rattle.raft_state.specs.raft_state.Sound.{IsSound};
ghost use Rattle.raft_state.specs.raft_state.VoteAndLog.{vote_of};

mod change;
mod commit;
mod followers;
mod propose;
mod show;
mod step_down;

use crate::candidate::Candidate;
use crate::error::{LeadError, ResumeError};
use crate::state::State;
pub use change::ChangeError;
use raft_base::{Instant, LeaderIdentity, LogIdOf, LogIdOptionExt, LogStateReader, Node, NodeId};
use raft_progress::{Progress, ProgressEntryOf, ProgressPart, Tracked};
use raft_state::{RaftStateIn, VoteStateReader};
use std::alloc::AllocError;
use std::marker::Model;

/// A leader, which a quorum has elected.
///
/// It counts by a membership what each voter has of its log, itself among them.
#[derive(Debug, Drop)]
pub struct Leader<NID: NodeId, N: Node, C: Ord + Copy>
where
    Option<LogIdOf<C>>: Ord,
    ProgressEntryOf<C>: ProgressPart<Option<LogIdOf<C>>>,
{
    id: NID,
    leader_id: C,
    followers: Tracked<NID, N, ProgressEntryOf<C>, Option<LogIdOf<C>>>,
    /// The log id of the membership that it counts by.
    members_at: Option<LogIdOf<C>>,
    /// The greatest number that was used for a request. The requests to a member that is added are
    /// numbered after it, so a response to an earlier request to the same node is refused.
    last_request: u64,
}

impl<NID: NodeId, N: Node, C: Ord + Copy> Model for Leader<NID, N, C>
where
    Option<LogIdOf<C>>: Ord,
    ProgressEntryOf<C>: ProgressPart<Option<LogIdOf<C>>>,
{
    ghost use Rattle.std.specs.Prelude.{◌≡◌, None};
    ghost use Rattle.steps_handlers.specs.Leadership.{Leadership};
    ghost use Rattle.raft_progress.specs.tracked.Tracked.{tracked_view};

    ghost Value = { Leadership NID N C };

    ghost view = { λ a. record {
      id = a.id;
      leader_id = a.leader_id;
      followers = tracked_view a.followers;
      members_at = a.members_at;
      last_request = a.last_request;
    } };

    ghost invariant = { λ a. (tracked_view a.followers).progress.default_part ≡ None };
}

impl<NID: NodeId, N: Node, C: Ord + Copy + Drop> Leader<NID, N, C> {
    /// Makes an elected candidate the leader: the state's vote, which is the candidate's, is
    /// committed now. Nothing is known of the members yet, but that no log matches the leader's
    /// from its end on.
    ///
    /// Write the vote to disk before any message leaves, and propose a blank entry. After a refusal
    /// the state is as it was.
    pub fn new<I: Instant, L: LeaderIdentity<Id = NID, Committed = C> + Drop>(
        state: &mut State<NID, N, I, L>,
        candidate: &Candidate<NID, N, L, C>,
    ) -> Result<Self, LeadError>
    where
        C: Default + 'static,
        requires clones_are_equal { ClonesAreEqual N.eq N.is_clone }
        ensures leads { let by = compared NID.Ord N.eq L.LeaderIdentity C.Ord in
            IfOk result (BecomesLeader by candidate.now state.old state.new) }
        ensures refused { IfErr result
            (IsElectionRefusal NID.eq L.eq candidate.now state.old) }
        ensures err { OnErr result (state.new ≡ state.old) }
        ensures sound { IsSound C.eq C.cmp state.old → IsSound C.eq C.cmp state.new }
    {
        if !candidate.is_elected() {
            return Err(LeadError::NotElected);
        }
        if *state.vote_ref() != candidate.vote() {
            return Err(LeadError::NotLeader);
        }
        let last = state.last_log_id().copied();
        if !last.has_next_index() {
            return Err(LeadError::NoNextIndex);
        }
        let leader_id = L::to_committed(state.vote_ref().leader_id());
        let end = last.next_index();
        let leader = Leader::with_unknown_members(candidate.id(), leader_id, 0, end, state)?;
        state.vote.get_mut().commit();
        Ok(leader)
    }

    /// Makes the node of a committed vote the leader anew, as after a restart.
    ///
    /// Call it only if the log has every entry that the node has sent in this term. Otherwise the
    /// leader could write another entry under a log id that a follower has already.
    ///
    /// A leadership has one value: drop the former `Leader` of this term before the call.
    ///
    /// Requests are numbered after `last_request`, and a heartbeat before the first of them has
    /// this number. So pass a number that is greater than each one that the node has used in this
    /// term: then each late response is refused. A clock in microseconds gives such a number, or a
    /// count of restarts on the disk, times 2^32. The state does not show what was sent, so none of
    /// these conditions is tested.
    pub fn resume<I: Instant, L: LeaderIdentity<Id = NID, Committed = C> + Drop>(
        id: NID,
        state: &State<NID, N, I, L>,
        last_request: u64,
    ) -> Result<Self, ResumeError>
    where
        C: Default + 'static,
        requires clones_are_equal { ClonesAreEqual N.eq N.is_clone }
        ensures leads { let by = compared NID.Ord N.eq L.LeaderIdentity C.Ord in
            IfOk result (λ made. IsTrue (is_leading by made state.now)) }
        ensures begins { IfOk result (BeginsToLead NID.eq NID.cmp N.eq id
            (L.committed (vote_of state.now).leader_id) last_request state.now) }
        ensures refused { let by = compared NID.Ord N.eq L.LeaderIdentity C.Ord in
            IfErr result (IsResumeRefusal by id state.now) }
    {
        let vote = state.vote_ref();
        if !vote.is_committed() || L::voted_for(vote.leader_id()) != Some(id) {
            return Err(ResumeError::NotLeader);
        }
        let last = state.last_log_id().copied();
        if !last.has_next_index() {
            return Err(ResumeError::NoNextIndex);
        }
        let leader_id = L::to_committed(vote.leader_id());
        let end = last.next_index();
        let leader = Leader::with_unknown_members(id, leader_id, last_request, end, state)?;
        Ok(leader)
    }

    /// Returns a leader that knows nothing of the members of a state, whose log has this end, and
    /// numbers its requests after a number.
    fn with_unknown_members<I: Instant, L: Drop>(
        id: NID,
        leader_id: C,
        last_request: u64,
        end: u64,
        state: &RaftStateIn<NID, N, I, L, C>,
    ) -> Result<Self, AllocError>
        requires clones_are_equal { ClonesAreEqual N.eq N.is_clone }
        requires end { end ≡ end_index (full_log state.now.log_ids) }
        ensures begins { IfOk result
            (BeginsToLead NID.eq NID.cmp N.eq id leader_id last_request state.now) }
    {
        let effective = state.membership_state.effective();
        let members = effective.membership().try_clone()?;
        let unknown = ProgressEntryOf::<C>::empty(end);
        let unknown = unknown.with_curr_inflight_id(last_request);
        let followers = Tracked::new(members, unknown)?;
        Ok(Leader {
            id,
            leader_id,
            followers,
            members_at: *effective.log_id(),
            last_request,
        })
    }

    /// Returns the id of the node that leads.
    pub fn id(&self) -> NID
        ensures { result ≡ self.now.id }
    {
        self.id
    }

    /// Returns the committed leader id, which the leader's own entries have in their log ids.
    pub fn leader_id(&self) -> C
        ensures { result ≡ self.now.leader_id }
    {
        self.leader_id
    }

    /// Returns the members that the leader counts by, with what is known of each. The `iter` of its
    /// `progress()` goes over them: the voters, then the learners.
    pub fn followers(&self) -> &Tracked<NID, N, ProgressEntryOf<C>, Option<LogIdOf<C>>>
        ensures { tracked_view result.now ≡ self.now.followers }
    {
        &self.followers
    }

    /// Returns what is known of a member: up to which log id it matches, what is in flight to it,
    /// and the end of the search for its last match. The result is `None` for an id of no member.
    ///
    /// What is in flight is entries after a log id, a probe, which is an empty range of them, or a
    /// snapshot.
    pub fn member(&self, id: &NID) -> Option<&ProgressEntryOf<C>>
        ensures { option_copied result ≡ entry_of NID.eq self.now id.now }
    {
        self.followers.progress().try_get(id)
    }
}
