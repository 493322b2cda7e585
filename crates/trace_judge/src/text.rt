//! The texts of answers.
ghost use Rattle.std.specs.Prelude.{◌<◌, IfOk};

use crate::fault::Fault;
use crate::field::{event_name, number, value_of};
use crate::judge::Judge;
use crate::names::push_value;
use crate::reason::push_reason;
use serde_json::Value;
use std::alloc::{AllocError, Global};
use trace_checker::checker::Violation;

/// Writes the answer that a run is safe, and what was left out or filled in, if anything was.
pub fn push_safe(alloc: Global, answer: &mut String, judge: &Judge) -> Result<(), AllocError> {
    let counts = &judge.counts;
    let held = judge.checker.configs().held.as_slice();
    let servers = counts.server_count(alloc, held)? as u64;
    let terms = counts.leaders.len() as u64;
    let changes = held.len() as u64;
    answer.push_str("safe: ")?;
    push_count(answer, counts.events, "event", "events")?;
    push_next(answer, servers, "server", "servers")?;
    push_next(answer, terms, "term with a leader", "terms with a leader")?;
    push_next(answer, counts.committed as u64, "committed", "committed")?;
    push_next(answer, changes, "membership change", "membership changes")?;
    push_more(answer, counts.left_out, "vote left out", "votes left out")?;
    push_more(
        answer,
        counts.commits,
        "commit inferred",
        "commits inferred",
    )?;
    push_more(
        answer,
        counts.acks,
        "acknowledgement inferred",
        "acknowledgements inferred",
    )?;
    push_more(
        answer,
        counts.appends,
        "append inferred",
        "appends inferred",
    )?;
    answer.push('\n')
}

/// Writes a comma and how many things were left out or filled in, if any were.
fn push_more(answer: &mut String, count: u64, one: &str, many: &str) -> Result<(), AllocError> {
    if count == 0 {
        return Ok(());
    }
    push_next(answer, count, one, many)
}

/// Writes a comma and how many things there are.
fn push_next(answer: &mut String, count: u64, one: &str, many: &str) -> Result<(), AllocError> {
    answer.push_str(", ")?;
    push_count(answer, count, one, many)
}

/// Writes how many things there are, by the word for one or for many.
fn push_count(answer: &mut String, count: u64, one: &str, many: &str) -> Result<(), AllocError> {
    push_number(answer, count)?;
    answer.push(' ')?;
    answer.push_str(if count == 1 { one } else { many })
}

/// Writes a number with commas between thousands.
fn push_number(answer: &mut String, number: u64) -> Result<(), AllocError> {
    if number < 1000 {
        write!(answer, "{number}")?;
        return Ok(());
    }
    push_number(answer, number / 1000)?;
    write!(answer, ",{:03}", number % 1000)?;
    Ok(())
}

/// Writes why a line is not taken, which may be the first line of the run. `first` is the index of
/// the first entry. Returns the exit status.
pub fn push_fault(
    alloc: Global,
    answer: &mut String,
    line: &[u8],
    is_first: bool,
    first: u64,
    fault: Fault,
) -> Result<u8, AllocError>
    ensures { IfOk result (λ status. 1 < status) }
{
    match fault {
        // The line is not read again.
        Fault::Refused(Violation::OutOfMemory) => answer.push_str("out of memory\n")?,
        Fault::Malformed => push_reason(alloc, answer, line, is_first, first)?,
        Fault::Skips(last) => push_skip(alloc, answer, &value_or_null(alloc, line)?, last)?,
        Fault::Refused(Violation::Rule(rule)) => {
            let value = value_or_null(alloc, line)?;
            push_words(alloc, answer, &value, event_words(&value))?;
            writeln!(answer, ": {rule}")?;
        }
    }
    Ok(fault.status())
}

/// Returns the value of a line, null if the line is no JSON.
fn value_or_null(alloc: Global, line: &[u8]) -> Result<Value, AllocError> {
    Ok(value_of(alloc, line)?.unwrap_or(Value::Null))
}

/// Writes that an entry has not the index after that of the last entry of its leader.
fn push_skip(
    alloc: Global,
    answer: &mut String,
    value: &Value,
    last: u64,
) -> Result<(), AllocError> {
    let index = number(value, "index").unwrap_or(0);
    let reason = if last < index {
        "so a line is missing"
    } else {
        "so the leader has it already"
    };
    let words = "leader {leader} writes index {index} in term {term}: ";
    push_words(alloc, answer, value, words)?;
    writeln!(answer, "its last entry has index {last}, {reason}")?;
    Ok(())
}

/// Writes words, with the field of a line in place of each name in braces.
fn push_words(
    alloc: Global,
    answer: &mut String,
    value: &Value,
    words: &str,
) -> Result<(), AllocError> {
    for part in words.split('{') {
        match part.split_once('}') {
            Some((name, rest)) => {
                push_value(alloc, answer, value.get(name).unwrap_or(&Value::Null))?;
                answer.push_str(rest)?;
            }
            None => answer.push_str(part)?,
        }
    }
    Ok(())
}

/// Returns what an event says, with the names of fields in braces.
fn event_words(value: &Value) -> &'static str {
    match event_name(value).unwrap_or("") {
        "campaigned" => "server {server} campaigns in term {term}",
        "granted" => "server {server} votes in term {term} for {candidate}",
        "appended" if value.get("entries").is_none() => {
            "server {server} installs a snapshot up to index {index} of {leader} in term {term}"
        }
        "appended" => {
            "server {server} takes entries after index {prev} from {leader} in term {term}"
        }
        "acked" => "server {server} acknowledges index {index} to {leader} in term {term}",
        "restarted" => "server {server} restarts with index {index}",
        "wrote" => "leader {leader} writes an entry in term {term}",
        "committed" => "leader {leader} commits index {index} in term {term}",
        "applied" => "server {server} applies up to index {index}",
        _ => "the cluster starts",
    }
}
