//! What a progress, entries, and what is in flight with its refusals print.

use crate::support::asserts::{assert_right, assert_row};
use crate::support::entry_rows::{entry, in_flight, taken};
use crate::support::progress_rows::lived;
use raft_base::LeaderId;
use raft_progress::entry::ProgressEntry;
use std::alloc::Global;
use std::test::Fail;
use tests_support::memory::{is_yes, with_made};
use tests_support::printing::{debugs, displays};
use tests_support::words::{number, words};

/// The words of entries and of what is in flight, and what they display.
const TEXTS: &str = "
1.4 5 0 -|{[T1-N0-4, 5), inflight:None}
- 3 0 2:-|{[None, 3), inflight:Snapshot(id=2):None}
-|None
7:->1.3|Logs(id=7):(None, T1-N0-3]
7:1.3|Snapshot(id=7):T1-N0-3
7:-|Snapshot(id=7):None
";

/// Returns the first text that is wrong, if there is one.
fn wrong_text(alloc: Global) -> Option<&'static str> {
    for row in TEXTS.trim().lines() {
        let (value, text) = row.split_once('|').unwrap_or((row, ""));
        let is_right = if value.contains(' ') {
            displays(alloc, &entry::<LeaderId<u64>>(value), text)
        } else {
            displays(alloc, &in_flight::<LeaderId<u64>>(value), text)
        };
        if !is_right {
            return Some(row);
        }
    }
    None
}

/// A request, a refusal of a response to it, and what the refusal displays.
const REFUSALS: &str = "
1 AckOutOfRange|ack out of range
1 SnapshotAckRegress|snapshot ack regresses
1 MatchingRegress|matching regresses
1 ConflictNotAtPrev|conflict is not at prev
1 ConflictOnSnapshot|conflict on a snapshot
1 ConflictBelowMatching|conflict below matching
1 IndexTooLarge|index too large
9 mine:1|got invalid request id, mine=Some(1), received=9
0 mine:-|got invalid request id, mine=None, received=0
";

/// Returns the first text of a refusal that is wrong, if there is one.
fn wrong_refusal(alloc: Global) -> Option<&'static str> {
    for row in REFUSALS.trim().lines() {
        let (value, text) = row.split_once('|').unwrap_or((row, ""));
        let [request, refusal, ..] = words(value);
        match taken(refusal, number(request)) {
            Err(refusal) if displays(alloc, &refusal, text) => {}
            _ => return Some(row),
        }
    }
    None
}

/// Example progress 22. The texts of a progress, of entries, of what is in flight and of its
/// refusals.
#[test]
fn values_print(rt: HostRuntime) -> Result<(), Fail> {
    let alloc = rt.alloc();
    let made = lived(alloc, "0,1 6 0; update 1 3 0");
    let is_right = with_made(made, |it| Ok(displays(alloc, it, "{1: 3, 0: 0, 6: 0}")));
    assert_row(&rt, "a progress", is_yes(is_right));
    assert_right(&rt, "texts", wrong_text(alloc));
    assert_right(&rt, "refusals", wrong_refusal(alloc));
    let snapshot = in_flight::<LeaderId<u64>>("2:-");
    let text = "Snapshot { id: 2, last_log_id: None }";
    assert_row(&rt, "debug of a snapshot", debugs(alloc, &snapshot, text));
    let text =
        "ProgressEntry { matching: None, curr_inflight_id: 0, inflight: None, searching_end: 0 }";
    let is_right = debugs(alloc, &ProgressEntry::<u64>::empty(0), text);
    assert_row(&rt, "debug of an entry", is_right);
    Ok(())
}
