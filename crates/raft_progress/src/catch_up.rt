//! Catching up a follower that responds honestly: sends until it has all logs.
ghost use Rattle.std.specs.Prelude.{◌≡◌, ◌+◌, ◌-◌, ◌*◌, ◌/◌, ◌^◌, ◌<◌, ◌≤◌, ℕ, nat_lt, IsTrue, Some, None, if◌then◌else◌};
ghost use Rattle.raft_base.specs.LogId.{id_le, next_index};
ghost use Rattle.raft_base.specs.Logged.{Logged};
ghost use Rattle.raft_progress.specs.catch_up.CatchUp.{MatchesAll, can_catch_up};
ghost use Rattle.raft_progress.specs.catch_up.HonestRun.{HonestRunEnds, run_after_logs};
ghost use Rattle.raft_progress.specs.search.Search.{stretch};
ghost use Rattle.raft_progress.specs.Inner.Turns.{IsBetweenTurns, TurnDone};
ghost use Rattle.raft_progress.specs.declared.entry.ProgressEntryOf.{ProgressEntryOf};

use crate::entry::ProgressEntryOf;
use crate::inflight::InflightOf;
use raft_base::order::{log_id_at_most, same_optional_log_ids};
use raft_base::{LogIdOf, LogIdOptionExt, LogIdRangeOf, LogStateReader};

/// Whether the preconditions of `catch_up_entry` hold, for a log that has all its log ids from the
/// purge point on.
///
/// They are: nothing is in flight and `can_send` holds; `agree` is at least the indexes after
/// matching and after the purge point, and at most the searching end; a send takes at least one
/// entry; and indexes and request ids are left for the whole run. Also, matching is the last log
/// id, or the log has entries past matching and past the purge point, and matching is at most the
/// log id before the index from which the run goes on.
pub fn can_catch_up_entry<C: Ord + Copy, L: LogStateReader<C>>(
    log: &L,
    entry: &ProgressEntryOf<C>,
    agree: u64,
    max_entries: u64,
) -> bool
    ensures { result ≡ can_catch_up C.eq C.cmp (L.log_view log.now) entry.now agree max_entries }
{
    if !entry.inflight.is_none() || !entry.can_send(log) || max_entries == 0 {
        return false;
    }
    let last = log.last_log_id().copied();
    let matched = entry.matching.next_index();
    let purged = log.purge_upto().copied().next_index();
    let logged = last.next_index();
    if !(matched <= agree && agree <= entry.searching_end && purged <= agree) {
        return false;
    }
    if !(logged < u64::MAX - 64 && entry.curr_inflight_id < u64::MAX - 64 - logged) {
        return false;
    }
    if same_optional_log_ids(entry.matching, last) {
        return true;
    }
    matched < logged
        && purged < logged
        && log_id_at_most(entry.matching, log.prev_log_id(matched.max(purged)))
}

/// Sends to a follower whose log agrees with the leader's log below the index `agree`, and takes
/// its responses, until nothing is left to send. Returns the number of conflicts and the number of
/// acks.
///
/// The follower responds honestly: with a conflict if its log does not agree before the logs that
/// were sent, and otherwise with an ack of all of them. At the end it has all logs. There are at
/// most k conflicts if a sixteenth of the stretch from matching to the searching end is less than
/// 2^k. There are at most as many acks as the number of remaining logs divided by `max_entries`,
/// rounded up.
///
/// It requires `can_catch_up_entry`, and a log that has all its log ids from the purge point on.
pub fn catch_up_entry<C: Ord + Copy, L: LogStateReader<C>>(
    log: &L,
    entry: &mut ProgressEntryOf<C>,
    agree: u64,
    max_entries: u64,
) -> (u64, u64)
    requires logged { Logged C.cmp (L.log_view log.now) }
    requires can { IsTrue
        (can_catch_up C.eq C.cmp (L.log_view log.now) entry.old agree max_entries) }
    ensures run { HonestRunEnds C.cmp (L.log_view log.now) max_entries
        entry.old agree entry.new result.0 result.1 }
    ensures caught_up { MatchesAll C.eq (L.log_view log.now) entry.new }
    ensures monotone { IsTrue (id_le C.cmp entry.old.matching entry.new.matching) }
    ensures conflicts { (k : ℕ) → stretch entry.old / 16 < 2 ^ k → result.0 ≤ k }
    ensures acks { let left =
        next_index (L.log_view log.now).last - next_index entry.old.matching in
        result.1 * max_entries < left + max_entries }
{
    let mut agreed = agree;
    let mut conflicts = 0;
    let mut acks = 0;
    'turns: loop {
        match take_turn(log, entry, &mut agreed, max_entries) {
            TurnOutcome::Ended => return (conflicts, acks),
            TurnOutcome::Refused => conflicts += 1,
            TurnOutcome::Acked => acks += 1,
        }
    }
}

/// The result of a turn.
enum TurnOutcome {
    /// Nothing was sent.
    Ended,
    /// The response was a conflict.
    Refused,
    /// The response was an ack.
    Acked,
}

/// Sends once, takes the response, and returns which one it was.
fn take_turn<C: Ord + Copy, L: LogStateReader<C>>(
    log: &L,
    entry: &mut ProgressEntryOf<C>,
    agree: &mut u64,
    max_entries: u64,
) -> TurnOutcome
    requires logged { Logged C.cmp (L.log_view log.now) }
    requires ready { IsBetweenTurns C.eq C.cmp (L.log_view log.now) max_entries entry.old
        agree.old }
    requires id { entry.old.curr_inflight_id + 1 < 2 ^ 64 }
    ensures { TurnDone C.eq C.cmp (L.log_view log.now) max_entries
        entry.old agree.old result entry.new agree.new }
{
    if entry.next_send(log, max_entries).is_err() {
        return TurnOutcome::Ended;
    }
    match entry.inflight {
        InflightOf::Logs { id, log_id_range } => {
            if take_response(entry, id, log_id_range, agree) {
                TurnOutcome::Acked
            } else {
                TurnOutcome::Refused
            }
        }
        InflightOf::None => TurnOutcome::Ended,
        InflightOf::Snapshot { .. } => TurnOutcome::Ended,
    }
}

/// Takes the honest response to logs, and returns whether it is an ack.
fn take_response<C: Ord + Copy>(
    entry: &mut ProgressEntryOf<C>,
    id: u64,
    range: LogIdRangeOf<C>,
    agree: &mut u64,
) -> bool
    requires { next_index range.last < 2 ^ 64 }
    ensures { (old : ProgressEntryOf C) (c k : ℕ) →
        run_after_logs C.cmp
        (record { entry = old; agree = agree.old; conflicts = c; acks = k }) entry.old id range
        ≡ (if result
        then record { entry = entry.new; agree = agree.new; conflicts = c; acks = k + 1 }
        else record { entry = entry.new; agree = agree.new; conflicts = c + 1; acks = k }) }
{
    let LogIdRangeOf { prev, last } = range;
    match refused_at(prev, *agree) {
        Some(index) => {
            // If the response were refused, the entry would stay as it was, and the run would still
            // count it.
            let _ = entry.update_conflicting(Some(id), index);
            false
        }
        None => {
            // If the ack were refused, the entry would stay as it was, and the run would still
            // count it.
            let _ = entry.update_matching(id, last);
            *agree = (*agree).max(last.next_index());
            true
        }
    }
}

/// Returns the index of the log before those that were sent, if the follower does not agree there.
fn refused_at<C: Copy>(prev: Option<LogIdOf<C>>, agree: u64) -> Option<u64>
    ensures { result ≡
        (if nat_lt agree (next_index prev) then Some (next_index prev - 1) else None) }
{
    match prev {
        Some(prev) if prev.index >= agree => Some(prev.index),
        _ => None,
    }
}
