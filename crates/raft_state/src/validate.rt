//! Valid states, and what a valid state has in its log.
ghost use Rattle.std.specs.Prelude.{◌≡◌, ℕ, true, IsTrue, None, Some};
ghost use Rattle.raft_base.specs.Logged.{Logged};
ghost use Rattle.raft_base.specs.LogId.{id_le, index_of};
ghost use Rattle.raft_base.specs.LogIndex.{index_lt};
ghost use Rattle.raft_state.specs.log_id_list.FullLog.{full_log};
ghost use Rattle.raft_state.specs.log_id_list.LogEdits.{front};
ghost use Rattle.raft_state.specs.log_id_list.LogReads.{last_id};
ghost use Rattle.raft_state.specs.raft_state.VoteAndLog.{log_view_of};
ghost use Rattle.raft_state.specs.raft_state.Valid.{broken_relation, fits_purged_next, none_or_logged, upto_relation};

use crate::raft_state::RaftStateIn;
use raft_base::order::log_id_at_most;
use raft_base::{Instant, Invalid, LogIdOf, LogStateReader, Node, NodeId, Validate};

/// The relations between the log ids of a state are tested in turn, and then those of its
/// memberships.
impl<NID: NodeId, N: Node, I: Instant, L: Drop, C: Ord + Copy + Drop> Validate
    for RaftStateIn<NID, N, I, L, C> {
    ghost broken = { broken_relation C.cmp };

    fn validate(&self) -> Result<(), Invalid> {
        if !fits_purged_next(self.purged_next, self.log_ids.first().copied()) {
            return Err(Invalid::PurgedNext);
        }
        if !log_id_at_most(self.last_purged_log_id().copied(), self.purge_upto) {
            return Err(Invalid::LastPurgedPastUpto);
        }
        let snapshot = self.snapshot_meta.last_log_id;
        let (holds, case) = upto_relation(self.purge_upto, self.committed, snapshot);
        if !holds {
            return Err(case);
        }
        if !log_id_at_most(snapshot, self.committed) {
            return Err(Invalid::SnapshotPastCommitted);
        }
        if !log_id_at_most(self.committed, self.log_ids.last().copied()) {
            return Err(Invalid::CommittedPastLast);
        }
        self.membership_state.validate()
    }
}

impl<NID: NodeId, N: Node, I: Instant, L: Drop, C: Ord + Copy + Drop> RaftStateIn<NID, N, I, L, C> {
    /// Whether the purge point is absent or the log id at its index. In a valid state the log then
    /// has each log id from there on.
    ///
    /// A valid state may have a purge point that is not in its log, because its relations compare
    /// log ids by their leaders first.
    pub fn purge_upto_is_logged(&self) -> bool
        ensures exact { result ≡ none_or_logged C.eq (log_view_of self.now) self.now.purge_upto }
        ensures logged { broken_relation C.cmp self.now ≡ None → IsTrue result →
            Logged C.cmp (log_view_of self.now) }
    {
        // This read is for the proof: by its contract the keys are in order.
        let _keys = self.log_ids.key_log_ids();
        self.is_logged(&self.purge_upto)
    }

    /// Whether the committed log id is absent, or the log has it. If so, `can_truncate_log` is true
    /// of each index that is past the committed log id and past the committed membership.
    ///
    /// A valid state may have committed a log id that is not in its log, because its relations
    /// compare log ids by their leaders first.
    pub fn committed_is_logged(&self) -> bool
        ensures exact { result ≡ none_or_logged C.eq (log_view_of self.now) self.now.committed }
        ensures cut { IsTrue result → (since : ℕ) →
            IsTrue (index_lt (index_of self.now.committed) (Some since)) → IsTrue (id_le C.cmp
            self.now.committed (last_id (front (full_log self.now.log_ids) since))) }
    {
        // This read is for the proof: by its contract the keys are in order.
        let _keys = self.log_ids.key_log_ids();
        self.is_logged(&self.committed)
    }
}

/// Whether the log begins at the last purged index, or at index 0 if nothing was purged.
fn fits_purged_next<C: Copy>(next: u64, first: Option<LogIdOf<C>>) -> bool
    ensures { result ≡ fits_purged_next next first }
{
    match first {
        None => next == 0,
        Some(first) => {
            if next == 0 {
                first.index == 0
            } else {
                first.index == next - 1
            }
        }
    }
}

/// Returns whether the relation of the purge point holds, and the case of `Invalid` if it does not.
fn upto_relation<C: Ord + Copy>(
    upto: Option<LogIdOf<C>>,
    committed: Option<LogIdOf<C>>,
    snapshot: Option<LogIdOf<C>>,
) -> (bool, Invalid)
    ensures { result ≡ upto_relation C.cmp upto committed snapshot }
{
    match snapshot {
        None => (log_id_at_most(upto, committed), Invalid::UptoPastCommitted),
        Some(snapshot) => (
            log_id_at_most(upto, Some(snapshot)),
            Invalid::UptoPastSnapshot,
        ),
    }
}
