//! Rows of calls of an entry, and what their words mean beside those of `tests_support::words`.
//!
//! | value | its word | example |
//! |---|---|---|
//! | logs in flight | a request, and the log ids before the first and of the last | `1:1.4>1.7` |
//! | a snapshot in flight | a request, and the last log id | `2:1.6` |
//! | nothing in flight | `-` | `-` |
//!
//! An entry is four words: its match, the end of the search, the last request, and what is in
//! flight, as `1.4 5 0 -`. A refusal is the name of its error. If it names the request in flight,
//! it is `mine` with that request, as `mine:1` or `mine:-`.

use crate::support::asserts::assert_right;
use crate::support::entry_calls::{Answer, Call, answer_of};
use crate::support::values::{at, logs, snapshot, wrong_id};
use raft_base::{Invalid, Validate};
use raft_progress::entry::ProgressEntryOf;
use raft_progress::inflight::{InflightError, InflightOf};
use std::alloc::AllocError;
use std::process::Abort;
use tests_support::plain_log::{Numbered, PlainLog};
use tests_support::words::{log_id, number, words};

/// What is in flight.
pub fn in_flight<C: Numbered>(word: &str) -> InflightOf<C> {
    match word.split_once(':') {
        None => InflightOf::None,
        Some((request, ids)) => match ids.split_once('>') {
            Some((prev, last)) => logs(number(request), log_id(prev), log_id(last)),
            None => snapshot(number(request), log_id(ids)),
        },
    }
}

/// An entry by its four words.
pub fn entry<C: Numbered>(text: &str) -> ProgressEntryOf<C> {
    let [matching, searching_end, request, inflight, ..] = words(text);
    at(
        log_id(matching),
        number(searching_end),
        number(request),
        in_flight(inflight),
    )
}

/// The request of a word, if it has one.
fn request(word: &str) -> Option<u64> {
    if word == "-" {
        None
    } else {
        Some(number(word))
    }
}

/// What a response to a request is answered.
pub fn taken(word: &str, received: u64) -> Result<(), InflightError> {
    let refusal = match word {
        "ok" => return Ok(()),
        "AckOutOfRange" => InflightError::AckOutOfRange,
        "SnapshotAckRegress" => InflightError::SnapshotAckRegress,
        "MatchingRegress" => InflightError::MatchingRegress,
        "ConflictNotAtPrev" => InflightError::ConflictNotAtPrev,
        "ConflictOnSnapshot" => InflightError::ConflictOnSnapshot,
        "ConflictBelowMatching" => InflightError::ConflictBelowMatching,
        "IndexTooLarge" => InflightError::IndexTooLarge,
        _ => {
            let (_, mine) = word.split_once(':').unwrap_or(("", "-"));
            return wrong_id(request(mine), received);
        }
    };
    Err(refusal)
}

/// The name of the first relation that a value breaks.
pub fn relation(checked: Result<(), Invalid>) -> &'static str {
    match checked {
        Ok(()) => "valid",
        Err(Invalid::RangeOrder) => "RangeOrder",
        Err(Invalid::MatchingPastEnd) => "MatchingPastEnd",
        Err(Invalid::MatchingPastPrev) => "MatchingPastPrev",
        Err(Invalid::PrevPastEnd) => "PrevPastEnd",
        Err(Invalid::SnapshotNotPastMatching) => "SnapshotNotPastMatching",
        Err(_) => "another",
    }
}

/// The send or the response of a name, a request and an argument. A conflict of no request is a
/// heartbeat's.
fn call<C: Numbered>(name: &str, request_word: &str, argument: &str) -> Call<C> {
    match name {
        "send" => Call::Send(number(argument)),
        "ack" => Call::Ack(number(request_word), log_id(argument)),
        _ => Call::Conflict(request(request_word), number(argument)),
    }
}

/// What a send or a response is answered that leaves this in flight.
fn answer<C: Numbered>(word: &str, received: u64, left: InflightOf<C>) -> Answer<C> {
    match word {
        "no" => Answer::NotAllowed,
        "sent" => Answer::Sent(Ok(left)),
        "unsent" => Answer::Sent(Err(left)),
        _ => Answer::Taken(taken(word, received)),
    }
}

/// Whether a call of an entry, which is to leave another one, is answered as its last word says.
fn is_answered<C: Numbered>(
    entry: &mut ProgressEntryOf<C>,
    log: &PlainLog<C>,
    row: &str,
    left: ProgressEntryOf<C>,
) -> bool {
    let [name, first, second, want, ..] = words(row);
    match name {
        "give-up" => entry.give_up(),
        "validate" => return relation(entry.validate()) == first,
        "start" if entry.can_start() => {
            return entry.sending_start() == (number(first), number(second));
        }
        "start" => return first == "no",
        _ => {
            let want = answer(want, number(first), left.inflight);
            return answer_of(entry, log, call(name, first, second)) == want;
        }
    }
    true
}

/// Returns the first row of an entry's life that is wrong, if there is one.
fn wrong_in_life<'a, C: Numbered>(log: &PlainLog<C>, life: &'a str) -> Option<&'a str> {
    let (first, rows) = life.split_once(';').unwrap_or((life, ""));
    let mut current = entry(first);
    for row in rows.split(';') {
        let (call, left) = row.split_once('|').unwrap_or((row, ""));
        let left = if left.is_empty() {
            current
        } else {
            entry(left)
        };
        if !is_answered(&mut current, log, call, left) || current != left {
            return Some(row);
        }
    }
    None
}

/// Returns the first row of lives that is wrong, if there is one. A life is a line of rows with `;`
/// between. Its first row is an entry. The rows after that have a call, its arguments and its
/// answer, and behind a `|` the entry that it leaves, unless that is the one before. The calls are:
///
/// | call | its arguments | its answer |
/// |---|---|---|
/// | `send` | `-`, and the greatest number of logs | `sent`, `unsent`, or `no` if it may not be |
/// | `ack` | a request, and the log id up to which all is acknowledged | `ok` or the refusal |
/// | `conflict` | a request, or `-` for a heartbeat, and an index | `ok` or the refusal |
/// | `give-up` | none | none |
/// | `validate` | none | the first relation that the entry breaks, or `valid` |
/// | `start` | none | where the next probe starts and the searching end, or `no` if none may |
pub fn wrong_row<'a, C: Numbered>(log: &PlainLog<C>, lives: &'a str) -> Option<&'a str> {
    for life in lives.trim().lines() {
        if let Some(row) = wrong_in_life(log, life) {
            return Some(row);
        }
    }
    None
}

/// Stops the test at the first row of a table that is wrong, and prints it.
pub fn compare<C: Numbered>(rt: &impl Abort, log: Result<PlainLog<C>, AllocError>, table: &str) {
    let wrong = match &log {
        Ok(log) => wrong_row(log, table),
        Err(_) => Some("a log"),
    };
    assert_right(rt, "an entry", wrong);
}
