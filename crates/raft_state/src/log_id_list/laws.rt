//! Laws of lists of log ids. A caller that needs one in a proof calls its function. Only
//! `truncate_twice` has an effect.
ghost use Rattle.std.specs.Prelude.{◌≡◌, ℕ, List, max};
ghost use Rattle.std.specs.Cmp.{IsEquivalence};
ghost use Rattle.raft_base.specs.declared.log_id.LogIdOf.{LogIdOf};
ghost use Rattle.raft_state.specs.log_id_list.FullLog.{full_log, first_index, same_log};
ghost use Rattle.raft_state.specs.log_id_list.LogEdits.{log_after_append, log_after_extend, front, log_after_purge};
ghost use Rattle.raft_state.specs.log_id_list.LogReads.{first_id, id_at, last_id};
ghost use Rattle.raft_state.specs.log_id_list.SameLog.{FindsSame, KeepsSame};
ghost use Rattle.raft_state.specs.log_id_list.LogOrder.{AreConsecutive, AreFound, LeadersNeverFall, LeadersNeverFallByIndex, NoneAboveLast};

use super::LogIdListOf;
use raft_base::LogIdOf;

/// Whether two lists have equal keys, which is exactly if their full logs are equal.
pub fn have_equal_keys<C: Ord + Copy>(a: &LogIdListOf<C>, b: &LogIdListOf<C>) -> bool
    ensures keys { result ≡ same_log C.eq a.now b.now }
    ensures logs { result ≡ same_log C.eq (full_log a.now) (full_log b.now) }
{
    a.key_log_ids() == b.key_log_ids()
}

/// Truncates twice at one index, which is the same as truncating once.
pub fn truncate_twice<C: Ord + Copy>(list: &mut LogIdListOf<C>, at: u64)
    ensures { full_log list.new ≡ front (full_log list.old) at }
{
    list.truncate(at);
    list.truncate(at);
}

/// The indexes of a list's log are consecutive, so the log id at each position is the one at its
/// index. Its leaders never fall, and none of its log ids is above the last one.
pub fn log_is_in_order<C: Ord + Copy>(list: &LogIdListOf<C>)
    ensures indexes { AreConsecutive (full_log list.now) }
    ensures found { AreFound (full_log list.now) }
    ensures leaders { LeadersNeverFall C.cmp (full_log list.now) }
    ensures leaders_by_index { LeadersNeverFallByIndex C.cmp (full_log list.now) }
    ensures last { NoneAboveLast C.cmp (full_log list.now) }
{
    // This read is for the proof: by its contract the keys are in order.
    let _keys = list.key_log_ids();
}

/// What a purge leaves of a list's log begins at the greater one of its first index and the index
/// of `upto`.
pub fn purged_log_begins<C: Ord + Copy>(list: &LogIdListOf<C>, upto: &LogIdOf<C>)
    ensures { first_index (log_after_purge (full_log list.now) upto.now)
        ≡ max (first_index (full_log list.now)) upto.now.index }
{
    // These reads are for the proof: by the contract of the first the keys are in order, and the
    // clause mentions the second.
    let _keys = list.key_log_ids();
    let _upto = *upto;
}

/// Equal logs stay equal under each operation of a list.
///
/// So the contracts of operations one after another compose.
pub fn same_logs_stay_same<C: Ord + Copy>()
    ensures equality { IsEquivalence (same_log C.eq) }
    ensures appended { (id : LogIdOf C) → KeepsSame C.eq (λ log. log_after_append log id) }
    ensures extended { (ids : List (LogIdOf C)) → KeepsSame C.eq (λ log. log_after_extend log ids) }
    ensures front { (at : ℕ) → KeepsSame C.eq (λ log. front log at) }
    ensures purged { (upto : LogIdOf C) → KeepsSame C.eq (λ log. log_after_purge log upto) }
{}

/// Equal logs have equal log ids at each index, first and last.
pub fn same_logs_read_same<C: Ord + Copy>()
    ensures at_index { (index : ℕ) → FindsSame C.eq (λ log. id_at log index) }
    ensures first { FindsSame C.eq first_id }
    ensures last { FindsSame C.eq last_id }
{}
