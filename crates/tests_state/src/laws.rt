//! Callers of the laws of `raft_state`, each as an engine has the need.
ghost use Rattle.raft_base.specs.LogId.{id_le, same_ids};
ghost use Rattle.raft_state.specs.log_id_list.FullLog.{first_index, full_log, same_log};
ghost use Rattle.raft_state.specs.log_id_list.LogConditions.{follows};
ghost use Rattle.raft_state.specs.log_id_list.LogEdits.{log_after_append};
ghost use Rattle.raft_state.specs.log_id_list.LogReads.{first_id, id_at, last_id};
ghost use Rattle.raft_state.specs.raft_state.Purge.{may_purge};
ghost use Rattle.raft_state.specs.raft_state.Sending.{FromLog};
ghost use Rattle.raft_state.specs.raft_state.VoteAndLog.{log_view_of};
ghost use Rattle.std.specs.Prelude.{◌≡◌, IsTrue, OnOk, Some, ℕ};

use raft_base::order::log_id_at_most;
use raft_base::{Instant, LogIdOf, Node, NodeId, Validate};
use raft_progress::ProgressEntryOf;
use raft_state::laws::sends_from_log;
use raft_state::log_id_list::laws::{
    have_equal_keys, log_is_in_order, purged_log_begins, same_logs_read_same, same_logs_stay_same,
};
use raft_state::{LogIdListOf, RaftStateIn};
use std::alloc::AllocError;

/// Whether a candidate's log is up to date, as a voter finds by the last log ids alone: where it
/// is, none of the voter's own log ids is above the candidate's last one, at no index.
pub fn is_up_to_date<C: Ord + Copy>(own: &LogIdListOf<C>, last: Option<LogIdOf<C>>) -> bool
    ensures { IsTrue result → (index : ℕ) →
        IsTrue (id_le C.cmp (id_at (full_log own.now) index) last) }
{
    log_is_in_order(own);
    log_id_at_most(own.last().copied(), last)
}

/// Purges a node's log up to a log id: what is left of it begins there, since it may not be purged
/// to below its first index.
pub fn purge_to<NID: NodeId, N: Node, I: Instant, L: Drop, C: Ord + Copy + Drop>(
    state: &mut RaftStateIn<NID, N, I, L, C>,
    upto: &LogIdOf<C>,
) -> Result<(), AllocError>
    requires { IsTrue (may_purge C.cmp (full_log state.old.log_ids) upto.now) }
    ensures { OnOk result (first_index (full_log state.new.log_ids) ≡ upto.now.index) }
{
    purged_log_begins(&state.log_ids, upto);
    state.purge_log(upto)
}

/// Whether two nodes have the same log, as their keys tell: where they have, they read alike at
/// each index, and both begin and end alike.
pub fn logs_are_same<C: Ord + Copy>(one: &LogIdListOf<C>, other: &LogIdListOf<C>) -> bool
    ensures at_index { IsTrue result → (index : ℕ) → IsTrue (same_ids C.eq
        (id_at (full_log one.now) index) (id_at (full_log other.now) index)) }
    ensures first { IsTrue result →
        IsTrue (same_ids C.eq (first_id (full_log one.now)) (first_id (full_log other.now))) }
    ensures last { IsTrue result →
        IsTrue (same_ids C.eq (last_id (full_log one.now)) (last_id (full_log other.now))) }
{
    same_logs_read_same::<C>();
    have_equal_keys(one, other)
}

/// A follower takes two log ids of a leader, the one after the other.
pub fn take_both<C: Ord + Copy>(
    list: &mut LogIdListOf<C>,
    first: LogIdOf<C>,
    second: LogIdOf<C>,
) -> Result<(), AllocError>
    requires first { IsTrue (follows C.cmp (last_id (full_log list.old)) first) }
    requires second { IsTrue (follows C.cmp (Some first) second) }
    ensures both { OnOk result (IsTrue (same_log C.eq (full_log list.new)
        (log_after_append (log_after_append (full_log list.old) first) second))) }
    ensures last { OnOk result (last_id (full_log list.new) ≡ Some second) }
{
    same_logs_stay_same::<C>();
    list.append(first)?;
    list.append(second)
}

/// A leader with a valid state, whose purge point is in its log, sends to a follower to which
/// nothing is in flight. What is sent is from the full log.
pub fn send<NID: NodeId, N: Node, I: Instant, L: Drop, C: Ord + Copy + Drop>(
    state: &RaftStateIn<NID, N, I, L, C>,
    follower: &mut ProgressEntryOf<C>,
    max_entries: u64,
) -> bool
    ensures { IsTrue result →
        FromLog (log_view_of state.now) max_entries follower.old follower.new.inflight }
{
    sends_from_log::<C>();
    if state.validate().is_err() {
        return false;
    }
    if !state.purge_upto_is_logged() {
        return false;
    }
    if !follower.inflight.is_none() {
        return false;
    }
    if !follower.can_send(state) {
        return false;
    }
    follower.next_send(state, max_entries).is_ok()
}
