//! The log as its readers see it.
ghost use Rattle.std.specs.Prelude.{◌≡◌, ℕ, IfSome, IsTrue};
ghost use Rattle.std.specs.Option.{option_copied};
ghost use Rattle.raft_base.specs.LogView.{LogView, has_id, may_ask, prev_id};

use super::LogIdOf;

/// A log as its readers see it: the ids of its entries, and the ids up to which it is committed,
/// applied, in a snapshot and purged.
pub trait LogStateReader<C: Ord + Copy> {
    /// All that readers see of the log.
    ghost log_view: { Self → LogView C };

    /// Returns the log id before an index, or `None` before 0.
    fn prev_log_id(&self, index: u64) -> Option<LogIdOf<C>>
        ensures { result ≡ prev_id (log_view self.now).id_at index }
    {
        if index == 0 {
            None
        } else {
            self.get_log_id(index - 1)
        }
    }

    /// Whether the precondition of `has_log_id` holds: a log id up to the committed index is not
    /// above the committed log id.
    fn can_ask(&self, log_id: &LogIdOf<C>) -> bool
        ensures { result ≡ may_ask C.cmp (log_view self.now) log_id.now }
    {
        match self.committed() {
            None => true,
            Some(committed) => committed.index < log_id.index || *log_id <= *committed,
        }
    }

    /// Whether the log has a log id. It requires `can_ask`. Up to the committed index the log has
    /// each such id.
    fn has_log_id(&self, log_id: &LogIdOf<C>) -> bool
        requires { IsTrue (may_ask C.cmp (log_view self.now) log_id.now) }
        ensures { result ≡ has_id C.eq (log_view self.now) log_id.now }
    {
        if let Some(committed) = self.committed() {
            if log_id.index <= committed.index {
                return true;
            }
        }
        self.get_log_id(log_id.index) == Some(*log_id)
    }

    /// Returns the log id at an index, if the log still has it.
    fn get_log_id(&self, index: u64) -> Option<LogIdOf<C>>
        ensures { result ≡ (log_view self.now).id_at index };

    /// Returns the last log id.
    fn last_log_id(&self) -> Option<&LogIdOf<C>>
        ensures { option_copied result ≡ (log_view self.now).last };

    /// Returns the last log id that is known to be committed.
    fn committed(&self) -> Option<&LogIdOf<C>>
        ensures { option_copied result ≡ (log_view self.now).committed };

    /// Returns the last log id that was applied. It may be behind the committed one.
    fn io_applied(&self) -> Option<&LogIdOf<C>>
        ensures { option_copied result ≡ (log_view self.now).io_applied };

    /// Returns the last log id of the snapshot that was written. It may be behind
    /// `snapshot_last_log_id`.
    fn io_snapshot_last_log_id(&self) -> Option<&LogIdOf<C>>
        ensures { option_copied result ≡ (log_view self.now).io_snapshot };

    /// Returns the last log id that was purged from storage. It may be behind `last_purged_log_id`.
    fn io_purged(&self) -> Option<&LogIdOf<C>>
        ensures { option_copied result ≡ (log_view self.now).io_purged };

    /// Returns the last log id that the snapshot has.
    fn snapshot_last_log_id(&self) -> Option<&LogIdOf<C>>
        ensures { option_copied result ≡ (log_view self.now).snapshot };

    /// Returns the log id up to which the log is to be purged. It may be ahead of what was purged.
    fn purge_upto(&self) -> Option<&LogIdOf<C>>
        ensures { option_copied result ≡ (log_view self.now).purge_upto };

    /// Returns the last log id that was purged, which is the first one that the log still has.
    fn last_purged_log_id(&self) -> Option<&LogIdOf<C>>
        ensures { option_copied result ≡ (log_view self.now).last_purged };

    /// The log id at an index is absent, or has that index.
    ghost indexed: { (log : Self) (i : ℕ) → IfSome ((log_view log).id_at i) (λ id. id.index ≡ i) };
}
