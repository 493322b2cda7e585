//! Votes, and a caller that grants them over any kind of leader ids. Their order is in `order.rt`.
ghost use Rattle.raft_base.specs.LogId.{log_id_cmp};
ghost use Rattle.raft_base.specs.Vote.{vote_cmp};
ghost use Rattle.std.specs.Option.{option_cmp};
ghost use Rattle.std.specs.Ordering.{is_ge, partial_ge};
ghost use Rattle.std.specs.Prelude.{◌&&◌, ◌≡◌, IsTrue, false};

use crate::asserts::assert_row;
use raft_base::{CommittedLeaderId, LeaderAdv, LeaderKind, LogId, LogIdOf, NodeId, Vote, VoteOf};

/// What a node has promised, over any kind of leader ids.
#[derive(Drop)]
struct Promise<NID: NodeId, K: LeaderKind<NID>> {
    vote: VoteOf<NID, K>,
    last_log_id: Option<LogIdOf<K::Committed>>,
}

/// Raft's rule of voting: a vote is granted that is not below the one given before, to a node whose
/// log reaches at least as far.
fn grant<NID: NodeId, K: LeaderKind<NID>>(
    promise: &mut Promise<NID, K>,
    vote: VoteOf<NID, K>,
    last_log_id: Option<LogIdOf<K::Committed>>,
) -> bool
    ensures rule { result ≡ (partial_ge (vote_cmp K.Leader.order) vote promise.old.vote
        && is_ge (option_cmp (log_id_cmp K.Committed.cmp) last_log_id promise.old.last_log_id)) }
    ensures granted { IsTrue result → promise.new ≡ record promise.old { vote = vote } }
    ensures refused { result ≡ false → promise.new ≡ promise.old }
{
    if vote >= promise.vote && last_log_id >= promise.last_log_id {
        promise.vote = vote;
        true
    } else {
        false
    }
}

/// Whether a greater vote is granted, and then a lesser one refused.
fn is_granted_once() -> bool {
    let last_log_id = Some(LogId::new(CommittedLeaderId::new(1, 1u64), 4));
    let mut promise = Promise::<u64, LeaderAdv> {
        vote: Vote::new(2, 1),
        last_log_id,
    };
    let granted = grant(&mut promise, Vote::new(2, 2), last_log_id);
    let late = grant(&mut promise, Vote::new_committed(2, 1), last_log_id);
    granted && !late
}

#[test]
fn a_vote_is_granted_once(rt: HostRuntime) {
    assert_row(&rt, "a promise", is_granted_once());
}
