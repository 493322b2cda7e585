//! Debug texts of events, entries and memberships.

use crate::recorded::Recorded;
use std::alloc::{AllocError, Global};
use std::test::Fail;
use tests_support::printing::debugs;
use trace_checker::entry::Entry;
use trace_checker::event::Event;
use trace_checker::held::Held;
use trace_checker::memberships::Memberships;

/// Whether memberships with one that an entry of content 7 holds have their text.
fn memberships_print(alloc: Global) -> Result<bool, AllocError> {
    let initial = vec![in alloc; (1..=3).collect(alloc)?]?;
    let joint = vec![in alloc; (1..=2).collect(alloc)?]?;
    let mut held = Held::new(alloc);
    held.push(7, joint)?;
    let memberships = Memberships::<u64, u64> { initial, held };
    let text = "Memberships { initial: [[1, 2, 3]], held: [(7, [[1, 2]])] }";
    Ok(debugs(alloc, &memberships, text))
}

/// Whether an event with entries has its text.
fn appended_prints(alloc: Global) -> Result<bool, AllocError> {
    let entry = Entry {
        term: 2,
        content: 9,
    };
    let event: Recorded = Event::Appended {
        server: 1,
        term: 2,
        leader: 3,
        keep: 4,
        entries: vec![in alloc; entry]?,
    };
    let text = "Appended { server: 1, term: 2, leader: 3, keep: 4, \
        entries: [Entry { term: 2, content: 9 }] }";
    Ok(debugs(alloc, &event, text))
}

/// Whether an event with an entry has its text.
fn wrote_prints(alloc: Global) -> bool {
    let event: Recorded = Event::Wrote {
        leader: 1,
        term: 2,
        entry: Entry {
            term: 2,
            content: 9,
        },
    };
    let text = "Wrote { leader: 1, term: 2, entry: Entry { term: 2, content: 9 } }";
    debugs(alloc, &event, text)
}

#[test]
fn events_and_memberships_print(rt: HostRuntime) -> Result<(), Fail> {
    let alloc = rt.alloc();
    let are_right = [
        wrote_prints(alloc),
        appended_prints(alloc)?,
        memberships_print(alloc)?,
    ];
    assert!(rt; are_right == [true; 3]);
    Ok(())
}
