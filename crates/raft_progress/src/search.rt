//! The search for the last log that a leader and a follower share, over whole lists of events.
ghost use Rattle.std.specs.Prelude.{◌≡◌, ◌+◌, ◌/◌, ◌^◌, ◌<◌, ◌≤◌, ℕ};
ghost use Rattle.raft_base.specs.LogId.{next_index};
ghost use Rattle.raft_base.specs.LogIndex.{next_index_of};
ghost use Rattle.raft_progress.specs.search.Search.{CanSearch, NonePurgedPast, after_event, after_events, new_search, stretch};

use crate::entry::ProgressEntryOf;
use raft_base::{LogIdOptionExt, LogStateReader};

/// An event of a search.
#[derive(Drop)]
pub enum SearchEvent<'a, L> {
    /// The leader sends what is to be sent next.
    Send {
        /// The leader's log.
        log: &'a L,
        /// The greatest number of entries in a request.
        max_entries: u64,
    },
    /// The follower responds that it does not have the log before those in flight.
    Conflict {
        /// The request that it responds to.
        request_id: u64,
        /// The index of the log that it does not have.
        conflict: u64,
    },
    /// The follower responds to a heartbeat that it does not match at an index.
    Heartbeat {
        /// The index at which it does not match.
        conflict: u64,
    },
}

/// Takes events one after another, and returns the number of accepted conflicts.
///
/// Matching stays, and the searching end never grows and never falls below the index after
/// matching. A send is skipped if `can_send` is false, or if its purge point is before the purge
/// point of an earlier send that was not skipped. A refused response changes nothing.
///
/// If nothing is in flight at first, and matching is below the searching end, there are few
/// accepted conflicts, because each probe halves the remaining stretch: at most k if the stretch
/// from matching to the searching end is less than 2^k. There are also at most k if a sixteenth of
/// the stretch is less than 2^k, and one more if a send that was not skipped had its purge point
/// past matching.
pub fn search_run<C: Ord + Copy, L: LogStateReader<C>>(
    entry: &mut ProgressEntryOf<C>,
    events: &[SearchEvent<'_, L>],
) -> u64
    ensures run { let search = after_events C.cmp L.log_view (new_search entry.old) events.now in
        (result ≡ search.accepted) × (entry.new ≡ search.entry) }
    ensures matching { entry.new.matching ≡ entry.old.matching }
    ensures end { entry.new.searching_end ≤ entry.old.searching_end }
    ensures within { next_index entry.old.matching ≤ entry.old.searching_end →
        next_index entry.new.matching ≤ entry.new.searching_end }
    ensures digits { CanSearch entry.old → (k : ℕ) → stretch entry.old < 2 ^ k → result ≤ k }
    ensures near_digits { CanSearch entry.old
        → NonePurgedPast (after_events C.cmp L.log_view (new_search entry.old) events.now)
        (next_index entry.old.matching)
        → (k : ℕ) → stretch entry.old / 16 < 2 ^ k → result ≤ k }
    ensures one_more { CanSearch entry.old
        → (k : ℕ) → stretch entry.old / 16 < 2 ^ k → result ≤ k + 1 }
{
    let mut purged = None;
    let mut accepted = 0;
    for event in events {
        run_event(entry, event, &mut purged, &mut accepted);
    }
    accepted
}

/// Takes an event, and counts it if it is an accepted conflict.
fn run_event<C: Ord + Copy, L: LogStateReader<C>>(
    entry: &mut ProgressEntryOf<C>,
    event: &SearchEvent<'_, L>,
    purged: &mut Option<u64>,
    accepted: &mut u64,
)
    requires { accepted.old + 1 < 2 ^ 64 }
    ensures taken { after_event C.cmp L.log_view
        (record { entry = entry.old; purged = next_index_of purged.old; accepted = accepted.old })
        event.now
        ≡ record {
          entry = entry.new;
          purged = next_index_of purged.new;
          accepted = accepted.new;
        } }
    ensures one_at_most { accepted.new ≤ accepted.old + 1 }
{
    match event {
        SearchEvent::Send { log, max_entries } => {
            let purge_upto = log.purge_upto().copied().index();
            if entry.can_send(*log) && *purged <= purge_upto {
                *purged = purge_upto;
                // The result is in the entry too: what is in flight now, or that nothing is.
                let _ = entry.next_send(*log, *max_entries);
            }
        }
        SearchEvent::Conflict {
            request_id,
            conflict,
        } => {
            if entry
                .update_conflicting(Some(*request_id), *conflict)
                .is_ok()
            {
                *accepted += 1;
            }
        }
        SearchEvent::Heartbeat { conflict } => {
            // This response is never counted, and a refusal leaves the entry as it was.
            let _ = entry.update_conflicting(None, *conflict);
        }
    }
}
