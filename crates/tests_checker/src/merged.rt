//! Lists of events, one of each server: those that have an allowed order, and those that have none.

use crate::recorded::{Recorded, events_of, three};
use std::alloc::{AllocError, Global};
use std::test::Fail;
use tests_support::memory::both_made;
use tests_support::printing::debugs;
use trace_checker::merge::check_each;

/// Server 1 votes for server 0 in term 1, takes its entry, and applies it. Server 0 is elected, and
/// commits and applies the entry.
pub const TWO_LISTS: &str = "\
granted 1 1 0; appended 1 1 0 0 1.10; acked 1 1 0 1; applied 1 1 0 1 \
    | campaigned 0 1; wrote 0 1 1.10; appended 0 1 0 0 1.10; acked 0 1 0 1; committed 0 1 1 1; \
    applied 0 1 0 1";

/// Lists, and what is expected: that all events are placed, or which are not. The follower's list
/// is first, so it waits for the leader's events again and again. Without the vote, the follower's
/// acknowledgement, the campaign, the written entry or the commit not all events are placed.
const EARLY: &str = "\
granted 1 1 0; appended 1 1 0 0 1.10; acked 1 1 0 1; applied 1 1 0 1 \
    | campaigned 0 1; wrote 0 1 1.10; appended 0 1 0 0 1.10; acked 0 1 0 1; committed 0 1 1 1; \
    applied 0 1 0 1 = ok
| campaigned 0 1; wrote 0 1 1.10; appended 0 1 0 0 1.10; acked 0 1 0 1; committed 0 1 1 1; \
    applied 0 1 0 1 \
    = Unplaced { placed: [0, 1], list: 1, violation: Rule(NotElected) }
granted 1 1 0; appended 1 1 0 0 1.10 \
    | campaigned 0 1; wrote 0 1 1.10; appended 0 1 0 0 1.10; acked 0 1 0 1; committed 0 1 1 1; \
    applied 0 1 0 1 \
    = Unplaced { placed: [2, 4], list: 1, violation: Rule(NoQuorum) }
granted 1 1 0; appended 1 1 0 0 1.10; acked 1 1 0 1; applied 1 1 0 1 | \
    = Unplaced { placed: [0, 0], list: 0, violation: Rule(NoCampaign) }
granted 1 1 0; appended 1 1 0 0 1.10; acked 1 1 0 1; applied 1 1 0 1 | campaigned 0 1 \
    = Unplaced { placed: [1, 1], list: 0, violation: Rule(ForeignEntries) }
granted 1 1 0; appended 1 1 0 0 1.10; acked 1 1 0 1; applied 1 1 0 1 \
    | campaigned 0 1; wrote 0 1 1.10; appended 0 1 0 0 1.10; acked 0 1 0 1 \
    = Unplaced { placed: [3, 4], list: 0, violation: Rule(NotCommitted) }";

/// The last list waits for no other. Server 0 leads in term 1, and commits the first of its two
/// entries. Server 1 leads in term 2, and commits another second entry. Server 2 takes both entries
/// of server 0, and applies the first, or both.
const LATE: &str = "\
campaigned 0 1; wrote 0 1 1.10; appended 0 1 0 0 1.10; acked 0 1 0 1; committed 0 1 1 1; \
    applied 0 1 0 1; wrote 0 1 1.11; granted 0 2 1; appended 0 2 1 1 2.20; acked 0 2 1 2 \
    | granted 1 1 0; appended 1 1 0 0 1.10; acked 1 1 0 1; applied 1 1 0 1; campaigned 1 2; \
    wrote 1 2 2.20; appended 1 2 1 1 2.20; acked 1 2 1 2; committed 1 2 2 2 \
    | appended 2 1 0 0 1.10; appended 2 1 0 1 1.11; applied 2 1 0 1 = ok
campaigned 0 1; wrote 0 1 1.10; appended 0 1 0 0 1.10; acked 0 1 0 1; committed 0 1 1 1; \
    applied 0 1 0 1; wrote 0 1 1.11; granted 0 2 1; appended 0 2 1 1 2.20; acked 0 2 1 2 \
    | granted 1 1 0; appended 1 1 0 0 1.10; acked 1 1 0 1; applied 1 1 0 1; campaigned 1 2; \
    wrote 1 2 2.20; appended 1 2 1 1 2.20; acked 1 2 1 2; committed 1 2 2 2 \
    | appended 2 1 0 0 1.10; appended 2 1 0 1 1.11; applied 2 1 0 2 \
    = Unplaced { placed: [10, 9, 2], list: 2, violation: Rule(NotCommitted) }";

/// Returns the lists of a text. A `|` ends each list.
pub fn lists_of(alloc: Global, text: &str) -> Result<Vec<Vec<Recorded>>, AllocError> {
    let mut lists = Vec::new(alloc);
    for list in text.split('|') {
        lists.extend(Some(events_of(alloc, &[list])?))?;
    }
    Ok(lists)
}

/// Whether the events of a row are placed, or are not, as expected.
fn are_placed(alloc: Global, row: &str) -> Result<bool, AllocError> {
    let (text, expected) = row.split_once(" = ").unwrap_or((row, ""));
    let (lists, configs) = both_made(lists_of(alloc, text), three(alloc))?;
    match check_each(alloc, configs, &lists) {
        Ok(()) => Ok(expected == "ok"),
        Err(unplaced) => Ok(debugs(alloc, &unplaced, expected)),
    }
}

/// Returns the first row of which the answer is wrong.
fn wrong_row(alloc: Global, rows: &'static str) -> Result<Option<&'static str>, AllocError> {
    for row in rows.lines() {
        if !are_placed(alloc, row)? {
            return Ok(Some(row));
        }
    }
    Ok(None)
}

#[test]
fn places_events_until_none_is_allowed(rt: HostRuntime) -> Result<(), Fail> {
    for rows in [EARLY, LATE] {
        let wrong = wrong_row(rt.alloc(), rows)?;
        assert!(rt; wrong.is_none(), "{}", wrong.unwrap_or(""));
    }
    Ok(())
}
