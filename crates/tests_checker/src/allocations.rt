//! The checker with each allocation refused in turn, or all of them.

use crate::merged::{TWO_LISTS, lists_of};
use crate::recorded::{Checked, Recorded, events_of, record_all, three};
use safety_laws::counting::ConfigsCount;
use std::alloc::{AllocError, Global};
use std::io;
use std::test::Fail;
use tests_support::allocations::{Allocation, is_free_on, is_swept};
use tests_support::memory::both_made;
use trace_checker::check::check;
use trace_checker::checker::{Checker, LearnError, Violation};
use trace_checker::event::Event;
use trace_checker::memberships::Memberships;
use trace_checker::merge::check_each;

/// The calls that allocate. A record is one of an event of `HISTORY`, at this position.
const CALLS: [(&str, usize); 12] = [
    ("Checker::record, Restarted", 0),
    ("Checker::record, Campaigned", 1),
    ("Checker::record, Granted", 2),
    ("Checker::record, Wrote", 3),
    ("Checker::record, Appended", 4),
    ("Checker::record, Acked", 6),
    ("Checker::record, Committed", 9),
    ("Checker::record, Committed, of applied configs", 9),
    ("Checker::record, a later Campaigned", 10),
    ("Checker::learn", 0),
    ("check", 0),
    ("check_each", 0),
];

/// The position of the last event of `HISTORY`, which does not allocate.
const LAST: usize = 11;

/// Server 3 restarts. Server 0 is elected in term 1 by server 1. Servers 2, 0 and 1 take its entry,
/// which it commits. Server 2 campaigns in term 2. Server 0 applies the entry.
const HISTORY: &str = "restarted 3 0; campaigned 0 1; granted 1 1 0; wrote 0 1 1.10; \
    appended 2 1 0 0 1.10; appended 0 1 0 0 1.10; acked 0 1 0 1; appended 1 1 0 0 1.10; \
    acked 1 1 0 1; committed 0 1 1 1; campaigned 2 2; applied 0 1 0 1;";

/// Returns the events of `HISTORY`.
fn history(alloc: Global) -> Result<Vec<Recorded>, AllocError> {
    events_of(alloc, &[HISTORY])
}

/// Records events, and returns whether all are allowed.
fn records(checker: &mut Checked, events: &[Recorded]) -> Result<bool, AllocError> {
    match record_all(checker, events) {
        Ok(()) => Ok(true),
        Err((_, Violation::OutOfMemory)) => Err(AllocError),
        Err((_, Violation::Rule(_))) => Ok(false),
    }
}

/// A checker that has recorded these events, if configs count in this way.
fn checked(
    alloc: Global,
    counting: ConfigsCount,
    events: &[Recorded],
) -> Result<Checked, AllocError> {
    let Ok(mut checker) = Checker::counting(alloc, counting, three(alloc)?) else {
        return Err(AllocError);
    };
    if records(&mut checker, events)? {
        Ok(checker)
    } else {
        Err(AllocError)
    }
}

/// Records the event of `HISTORY` at a position after those before it, with an allocation refused.
/// If memory was out, the checker has to take this event and all later ones afterwards.
fn record(
    allocation: Allocation,
    counting: ConfigsCount,
    position: usize,
) -> Result<bool, AllocError> {
    let events = history(allocation.alloc)?;
    let (before, rest) = events.split_at(position.min(events.len()));
    let mut checker = checked(allocation.alloc, counting, before)?;
    let Some(event) = rest.first() else {
        return Err(AllocError);
    };
    allocation.refuse();
    match checker.record(event) {
        Ok(()) => Ok(true),
        Err(Violation::Rule(_)) => allocation.made(false),
        Err(Violation::OutOfMemory) => {
            if records(&mut checker, rest)? {
                Err(AllocError)
            } else {
                Ok(false)
            }
        }
    }
}

/// Whether events were allowed, or the allocation error.
fn is_allowed(allocation: Allocation, refused: Option<Violation>) -> Result<bool, AllocError> {
    match refused {
        None => Ok(true),
        Some(Violation::OutOfMemory) => Err(AllocError),
        Some(Violation::Rule(_)) => allocation.made(false),
    }
}

/// Checks all of `HISTORY`, or lists of events of a leader and of a follower, with an allocation
/// refused.
fn check_all(allocation: Allocation, has_lists: bool) -> Result<bool, AllocError> {
    let alloc = allocation.alloc;
    let (events, lists) = both_made(history(alloc), lists_of(alloc, TWO_LISTS))?;
    let configs = three(alloc)?;
    allocation.refuse();
    let refused = if has_lists {
        check_each(alloc, configs, &lists)
            .err()
            .map(|refused| refused.violation)
    } else {
        check(alloc, configs, &events)
            .err()
            .map(|refused| refused.violation)
    };
    is_allowed(allocation, refused)
}

/// Learns of a membership after the events of `HISTORY`, with an allocation refused. If memory was
/// out, the checker has to learn of it afterwards.
fn learn(allocation: Allocation) -> Result<bool, AllocError> {
    let alloc = allocation.alloc;
    let (mut checker, configs) = both_made(
        checked(alloc, ConfigsCount::WhenAppended, &history(alloc)?),
        Ok(Vec::new(alloc)),
    )?;
    allocation.refuse();
    match checker.learn(104, configs) {
        Ok(()) => Ok(true),
        Err(LearnError::OutOfMemory) => match checker.learn(104, Vec::new(alloc)) {
            Ok(()) => Err(AllocError),
            Err(_) => Ok(false),
        },
        Err(_) => allocation.made(false),
    }
}

/// Makes a call with an allocation refused.
fn call(allocation: Allocation, name: &str, position: usize) -> Result<bool, AllocError> {
    match name {
        "Checker::learn" => learn(allocation),
        "check" => check_all(allocation, false),
        "check_each" => check_all(allocation, true),
        "Checker::record, Committed, of applied configs" => {
            record(allocation, ConfigsCount::WhenApplied, position)
        }
        _ => record(allocation, ConfigsCount::WhenAppended, position),
    }
}

/// Whether the calls of the checker are right with each allocation refused in turn.
fn is_checker_swept(rt: &impl Print, alloc: Global) -> io::Result<bool> {
    let mut is_right = true;
    for (name, position) in CALLS {
        let calls = |allocation: Allocation, _nothing: &mut ()| call(allocation, name, position);
        is_right &= is_swept(rt, alloc, name, |_alloc| Ok(()), calls)?;
    }
    Ok(is_right)
}

#[test]
fn allocations_of_the_checker(rt: HostRuntime) -> Result<(), Fail> {
    assert!(rt; is_checker_swept(&rt, rt.alloc())?);
    Ok(())
}

/// Memberships for a new checker, and a checker that has recorded all of `HISTORY` but the last
/// event.
type Held = (Option<Memberships<u64, u64>>, Checked);

/// Makes these.
fn held(alloc: Global) -> Result<Held, AllocError> {
    let events = history(alloc)?;
    let (before, _) = events.split_at(LAST.min(events.len()));
    let (configs, checker) = both_made(
        three(alloc),
        checked(alloc, ConfigsCount::WhenAppended, before),
    )?;
    Ok((Some(configs), checker))
}

/// Whether a checker is made, and another one records that a server applies an entry.
fn is_new_and_applies(alloc: Global, held: &mut Held) -> bool {
    let is_new = match held.0.take() {
        Some(configs) => Checker::<u64, u64, u64, _>::new(alloc, configs).is_ok(),
        None => false,
    };
    let event = Event::Applied {
        server: 0,
        term: 1,
        leader: 0,
        len: 1,
    };
    is_new && held.1.record(&event) == Ok(())
}

#[test]
fn no_allocations(rt: HostRuntime) -> Result<(), Fail> {
    let alloc = rt.alloc();
    let name = "Checker::{new, record}, Applied";
    let applies = |held: &mut Held| is_new_and_applies(alloc, held);
    assert!(rt; is_free_on(&rt, alloc, name, held(alloc), applies)?);
    Ok(())
}
