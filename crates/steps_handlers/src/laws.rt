//! Laws: functions whose contracts are statements for callers.
ghost use Rattle.std.specs.Prelude.{IsTrue};
ghost use Rattle.steps_handlers.specs.Append.{may_take};
ghost use Rattle.steps_handlers.specs.Honest.{IsHonest};
ghost use Rattle.steps_handlers.specs.Compared.{compared};
ghost use Rattle.steps_handlers.specs.Written.{EntryIsWritten, JoinedAreWritten, VoteIsWritten};
ghost use Rattle.raft_state.specs.raft_state.Sound.{IsSound};

use crate::message::AppendEntries;
use raft_base::{Instant, LeaderIdentity, Node, NodeId};
use raft_state::RaftStateIn;

/// An honest request to append entries may be taken by a server whose state is sound: the entries
/// and the memberships among them are in order, nothing that is committed is truncated, and the log
/// has what is to be committed.
pub fn honest_request_may_be_taken<
    NID: NodeId,
    N: Node,
    I: Instant,
    L: Drop,
    C: Ord + Copy + Drop,
    M,
    D,
>(state: &RaftStateIn<NID, N, I, L, C>, request: &AppendEntries<M, C, NID, N, D>)
    ensures { IsSound C.eq C.cmp state.now →
        IsHonest C.eq C.cmp request.now.prev request.now.entries.items request.now.committed
        state.now → IsTrue (may_take C.eq C.cmp request.now.prev request.now.entries.items
        request.now.committed state.now) }
{
    // Read for the proof alone: by its contract the keys are in order.
    let _keys = state.log_ids.key_log_ids();
    let _prev = request.prev;
}

/// What the steps have changed that return no `Changes`: `Changes::of_vote(true)` is what a step
/// has changed that changes the vote alone, and `Changes::of_entries` what a leader has changed
/// that has appended an entry of its own.
pub fn steps_are_written<NID: NodeId, N: Node, I: Instant, L: LeaderIdentity<Id = NID>, D>()
    ensures vote { VoteIsWritten NID N I L L.Committed L.eq L.Committed.eq }
    ensures entry { EntryIsWritten I D
        (compared NID.Ord N.eq L.LeaderIdentity L.Committed.Ord) }
{}

/// A disk that follows the joined changes of two steps, and is written once, has the vote and the
/// log that the server has after both. So an engine may collect the changes of several steps.
pub fn joined_changes_are_written<NID: NodeId, N: Node, I: Instant, L: LeaderIdentity<Id = NID>>()
    ensures { JoinedAreWritten NID N I L L.Committed L.eq L.Committed.eq }
{}
