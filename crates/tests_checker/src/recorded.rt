//! Recorded events as rows of words, and the memberships that they speak of.

use safety_laws::counting::ConfigsCount;
use std::alloc::{AllocError, Global};
use tests_support::memory::both_made;
use tests_support::printing::debugs;
use tests_support::words::{lists, number, words};
use trace_checker::check::check_counting;
use trace_checker::checker::{Checker, Violation};
use trace_checker::entry::Entry;
use trace_checker::event::Event;
use trace_checker::held::Held;
use trace_checker::memberships::Memberships;

pub type Recorded = Event<u64, u64, u64>;

/// A checker of recorded events.
pub type Checked = Checker<u64, u64, u64, Memberships<u64, u64>>;

/// The contents that hold a membership in `three`, each with its configs.
const HELD: [(u64, &str); 4] = [
    (100, "0,1,2/2,3,4"),
    (101, "2,3,4"),
    (102, "0,1,2,3"),
    (103, "0,1,2,3,4"),
];

/// Returns the entry of a word, `TERM.CONTENT`.
fn entry(word: &str) -> Entry<u64, u64> {
    let (term, content) = word.split_once('.').unwrap_or((word, ""));
    Entry {
        term: number(term),
        content: number(content),
    }
}

/// Returns the entries of a word, each of which ends with a comma.
fn entries(alloc: Global, word: &str) -> Result<Vec<Entry<u64, u64>>, AllocError> {
    let mut entries = Vec::new(alloc);
    for word in word.split_terminator(',') {
        entries.extend(Some(entry(word)))?;
    }
    Ok(entries)
}

/// Returns the event of a row: its name, and the values of its fields in their order.
fn event_of(alloc: Global, row: &str) -> Result<Recorded, AllocError> {
    let row = words(row);
    let ids = [number(row[1]), number(row[2]), number(row[3])];
    let lens = [number(row[3]) as usize, number(row[4]) as usize];
    match row[0] {
        "campaigned" => Ok(Event::Campaigned {
            server: ids[0],
            term: ids[1],
        }),
        "granted" => Ok(Event::Granted {
            server: ids[0],
            term: ids[1],
            candidate: ids[2],
        }),
        "appended" => Ok(Event::Appended {
            server: ids[0],
            term: ids[1],
            leader: ids[2],
            keep: lens[1],
            entries: entries(alloc, row[5])?,
        }),
        "acked" => Ok(Event::Acked {
            server: ids[0],
            term: ids[1],
            leader: ids[2],
            len: lens[1],
        }),
        "restarted" => Ok(Event::Restarted {
            server: ids[0],
            len: ids[1] as usize,
        }),
        "wrote" => Ok(Event::Wrote {
            leader: ids[0],
            term: ids[1],
            entry: entry(row[3]),
        }),
        "committed" => Ok(Event::Committed {
            leader: ids[0],
            term: ids[1],
            len: lens[0],
            counted_at: lens[1],
        }),
        "applied" => Ok(Event::Applied {
            server: ids[0],
            term: ids[1],
            leader: ids[2],
            len: lens[1],
        }),
        _ => Err(AllocError),
    }
}

/// Returns the events of texts, each after the other. A `;` ends each event.
pub fn events_of(alloc: Global, texts: &[&str]) -> Result<Vec<Recorded>, AllocError> {
    let mut events = Vec::new(alloc);
    for text in texts {
        for row in text.split_terminator(';') {
            if !row.trim().is_empty() {
                events.extend(Some(event_of(alloc, row)?))?;
            }
        }
    }
    Ok(events)
}

/// Records events until one is refused, and returns how many events were allowed before it.
pub fn record_all(checker: &mut Checked, events: &[Recorded]) -> Result<(), (usize, Violation)> {
    for (i, event) in events.iter().enumerate() {
        match checker.record(event) {
            Ok(()) => {}
            Err(violation) => return Err((i, violation)),
        }
    }
    Ok(())
}

/// Whether the violation is one of the rule of this name.
pub fn is_rule(alloc: Global, violation: Violation, name: &str) -> bool {
    match violation {
        Violation::Rule(rule) => debugs(alloc, &rule, name),
        Violation::OutOfMemory => false,
    }
}

/// Returns the memberships of the contents of `HELD`.
fn held(alloc: Global) -> Result<Held<u64, u64>, AllocError> {
    let mut held = Held::new(alloc);
    for (content, configs) in HELD {
        held.push(content, lists(alloc, configs)?)?;
    }
    Ok(held)
}

/// Quorums of servers 0, 1 and 2; content 100 holds the joint membership with 2, 3 and 4, and
/// content 101 the membership of these alone. Contents 102 and 103 hold the configs of servers 0 to
/// 3 and of servers 0 to 4.
pub fn three(alloc: Global) -> Result<Memberships<u64, u64>, AllocError> {
    let (initial, held) = both_made(lists(alloc, "0,1,2"), held(alloc))?;
    Ok(Memberships { initial, held })
}

/// Whether the checker takes these events after those of a history, or refuses the last one for the
/// rule of this name.
fn is_answered(
    alloc: Global,
    counting: ConfigsCount,
    history: &[&'static str],
    row: &'static str,
) -> Result<bool, AllocError> {
    let (text, name) = row.split_once(" = ").unwrap_or((row, ""));
    let mut texts = history.to_vec(alloc)?;
    texts.extend(Some(text))?;
    let (events, configs) = both_made(events_of(alloc, &texts), three(alloc))?;
    match check_counting(alloc, counting, configs, &events) {
        Ok(()) => Ok(name == "ok"),
        Err(refused) => Ok(
            refused.event.saturating_add(1) == events.len()
                && is_rule(alloc, refused.violation, name),
        ),
    }
}

/// Returns the first row of which the answer is wrong. Each row has events that follow those of a
/// history, and the rule that the last one breaks, or `ok`.
pub fn wrong_row(
    alloc: Global,
    counting: ConfigsCount,
    history: &[&'static str],
    rows: &'static str,
) -> Result<Option<&'static str>, AllocError> {
    for row in rows.lines() {
        if !is_answered(alloc, counting, history, row)? {
            return Ok(Some(row));
        }
    }
    Ok(None)
}
