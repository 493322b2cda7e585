//! Commits of a leader that counts by the config before the last one.
ghost use Rattle.std.specs.Prelude.{IfSome};
ghost use Rattle.trace_checker.specs.Checker.{event_of as trace_event};
ghost use Rattle.serde_json.specs.View.{view};
ghost use Rattle.trace_judge.specs.Inner.Taken.{SaysToo};

use crate::event::{Act, Checking};
use safety_laws::counting::ConfigsCount;
use serde_json::Value;
use trace_checker::event::Event;

/// Returns by how many of its first entries a leader may count that commits so many, if it does not
/// count by the last config among them: those up to the config before.
pub fn counted_before(checker: &Checking, term: u64, leader: u64, len: usize) -> Option<usize> {
    match checker.configs_count() {
        ConfigsCount::WhenAppended => None,
        ConfigsCount::WhenApplied => {
            let (last, before) = checker.config_lens(term, leader, len)?;
            if before < last { Some(before) } else { None }
        }
    }
}

/// Returns the commit of an event, counted by the config before, if the line does not say by which
/// one the leader counts.
pub fn counted_otherwise(checker: &Checking, value: &Value, event: &Act) -> Option<Act>
    ensures { IfSome result (λ other.
        SaysToo (view value.now) (trace_event event.now) (trace_event other)) }
{
    let Event::Committed {
        leader,
        term,
        len,
        ..
    } = event
    else {
        return None;
    };
    if value.get("counted_at").is_some() {
        return None;
    }
    let counted_at = counted_before(checker, *term, *leader, *len)?;
    Some(Event::Committed {
        leader: *leader,
        term: *term,
        len: *len,
        counted_at,
    })
}
