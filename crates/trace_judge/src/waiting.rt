//! The lines that lists wait with.
ghost use Rattle.std.specs.Prelude.{◌<◌, IfOk};

use crate::fault::Fault;
use crate::field::value_of;
use crate::input::{Lines, Wait};
use crate::judge::Judge;
use crate::missing::Missing;
use crate::text::push_fault;
use crate::why::RefusedLine;
use serde_json::Value;
use std::alloc::{AllocError, Global};
use trace_checker::checker::Violation;

/// A line that a list waits with.
#[derive(Clone, Copy)]
struct Waiting {
    /// The place of the list.
    list: usize,
    /// How many events had been taken when the line began to wait.
    since: u64,
    /// The server that the line is of.
    actor: Option<u64>,
    /// The event that the line waits for.
    missing: Missing,
}

/// Writes the line that each list waits with, why, and which line it contradicts or which event is
/// missing. First come lines that nothing helps which others may still say, then lines that wait for
/// an event, and then those whose event is of a server that waits itself. Returns the exit status.
pub fn push_waiting<B>(
    alloc: Global,
    answer: &mut String,
    lists: &[Lines<B>],
    judge: &Judge,
) -> Result<u8, AllocError>
    ensures { IfOk result (λ status. 0 < status) }
{
    let mut waits = Vec::new(alloc);
    for (i, list) in lists.iter().enumerate() {
        if let Some(wait) = list.wait {
            waits.push(wait_of(alloc, lists, judge, i, list, wait)?)?;
        }
    }
    let mut order = Vec::new(alloc);
    for wait in &waits {
        order.push((rank(&waits, wait), wait.since, wait.list))?;
    }
    order.sort()?;
    for (_, _, place) in &order {
        if let Some(list) = lists.get(*place)
            && let Some(wait) = list.wait
        {
            push_wait(alloc, answer, lists, judge, list, wait.fault)?;
        }
    }
    Ok(1)
}

/// Returns a line that a list waits with.
fn wait_of<B>(
    alloc: Global,
    lists: &[Lines<B>],
    judge: &Judge,
    place: usize,
    list: &Lines<B>,
    wait: Wait,
) -> Result<Waiting, AllocError> {
    let value = value_of(alloc, list.line())?.unwrap_or(Value::Null);
    let refused = RefusedLine {
        lists,
        judge,
        value: &value,
    };
    Ok(Waiting {
        list: place,
        since: wait.since,
        actor: refused.actor(),
        missing: match wait.fault {
            Fault::Refused(Violation::Rule(rule)) => refused.missing(alloc, rule)?,
            _ => Missing::Nothing,
        },
    })
}

/// Returns 0 if no event is missing for a line, 2 if one is missing of another server that waits
/// itself, and 1 otherwise.
fn rank(waits: &[Waiting], wait: &Waiting) -> u8 {
    if matches!(wait.missing, Missing::Nothing) {
        return 0;
    }
    let server = wait.missing.server();
    if server.is_none() || server == wait.actor {
        return 1;
    }
    for other in waits {
        if other.actor == server {
            return 2;
        }
    }
    1
}

/// Writes the line that a list waits with, why, and which line it contradicts or which event is
/// missing.
fn push_wait<B>(
    alloc: Global,
    answer: &mut String,
    lists: &[Lines<B>],
    judge: &Judge,
    list: &Lines<B>,
    fault: Fault,
) -> Result<(), AllocError> {
    list.push_place(answer)?;
    push_fault(alloc, answer, list.line(), false, judge.first, fault)?;
    let Fault::Refused(Violation::Rule(rule)) = fault else {
        return Ok(());
    };
    let value = value_of(alloc, list.line())?.unwrap_or(Value::Null);
    let refused = RefusedLine {
        lists,
        judge,
        value: &value,
    };
    refused.push_contradicted(alloc, answer, rule)?;
    refused.missing(alloc, rule)?.push(answer, judge)
}
