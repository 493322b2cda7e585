//! A voter: the answer to a candidate that asks for a vote, and the vote for a leader.
ghost use Rattle.std.specs.Prelude.{◌≡◌, IfSome, is_some, not};
ghost use Rattle.steps_handlers.specs.Campaign.{same_vote};
ghost use Rattle.steps_handlers.specs.Follow.{is_followed, vote_heard};
ghost use Rattle.steps_handlers.specs.Vote.{Grants};
ghost use Rattle.raft_state.specs.raft_state.Sound.{IsSound};
ghost use Rattle.raft_state.specs.raft_state.VoteAndLog.{vote_of};

use crate::message::{VoteRequest, VoteResponse};
use crate::state::State;
use raft_base::order::log_id_at_most;
use raft_base::{Instant, LeaderIdentity, LogStateReader, Node, NodeId, VoteIn};
use raft_state::VoteStateReader;

/// Handles a candidate's request for a vote. The vote is granted exactly if it is not committed, it
/// is at least the voter's own vote, and the candidate's log is at least as up to date as the
/// voter's. A committed vote is one that a quorum has granted, so no candidate asks for it, and a
/// request for it is refused.
///
/// A vote that is granted becomes the voter's own; write it to disk before any message leaves.
/// Otherwise nothing changes. The moment of the vote's last update stays: you have the clock.
pub fn handle_vote_request<NID: NodeId, N: Node, I: Instant, L: LeaderIdentity<Id = NID> + Drop>(
    state: &mut State<NID, N, I, L>,
    request: &VoteRequest<L, L::Committed>,
) -> VoteResponse<L>
    ensures answers { Grants L.order L.Committed.cmp request.now state.old result state.new }
    ensures sound { IsSound L.Committed.eq L.Committed.cmp state.old →
        IsSound L.Committed.eq L.Committed.cmp state.new }
{
    let is_up_to_date = log_id_at_most(state.last_log_id().copied(), request.last_log_id);
    let may_grant = is_up_to_date && !request.vote.committed;
    let granted = may_grant && state.promise(request.vote);
    VoteResponse {
        vote: *state.vote_ref(),
        granted,
    }
}

/// Promises the vote of a leader that has sent a request, if the leader is followed: if its vote,
/// which is committed, is at least the present one. Returns whether the vote is new, or `None` if
/// the leader is not followed. Then nothing changes.
pub(crate) fn follow<NID: NodeId, N: Node, I: Instant, L: LeaderIdentity<Id = NID> + Drop>(
    state: &mut State<NID, N, I, L>,
    leader_id: L,
) -> Option<bool>
    ensures follows { is_some result ≡ is_followed L.order leader_id state.old }
    ensures answer { IfSome result (λ is_new.
        is_new ≡ not (same_vote L.eq (vote_of state.new) (vote_of state.old))) }
    ensures heard { state.new ≡ record state.old {
      vote = vote_heard L.order leader_id state.old;
    } }
    ensures sound { IsSound L.Committed.eq L.Committed.cmp state.old →
        IsSound L.Committed.eq L.Committed.cmp state.new }
{
    let vote = VoteIn {
        leader_id,
        committed: true,
    };
    // Most requests are of a leader that is followed already.
    if vote == *state.vote_ref() {
        *state.vote.get_mut() = vote;
        return Some(false);
    }
    state.promise(vote).then_some(true)
}
