//! The events of lines.
ghost use Rattle.std.specs.Prelude.{◌≡◌, ℕ, IfOk, IfSome, IsSome, None, codes};
ghost use Rattle.trace_checker.specs.Checker.{OfAll, configs_of, counting_of, event_of as trace_event, kept_by};
ghost use Rattle.serde_json.specs.Find.{get};
ghost use Rattle.serde_json.specs.View.{view};
ghost use Rattle.trace_judge.specs.Inner.Reading.{IsMissing, IsTaken, TakesUpTo};
ghost use Rattle.trace_judge.specs.Inner.Table.{numbering};
ghost use Rattle.trace_judge.specs.Line.{Says};
ghost use Rattle.trace_judge.specs.Numbers.{number_tests};

use crate::field::{entries, event_name, id, is_named, len, number};
use crate::names::Names;
use safety_laws::counting::ConfigsCount;
use serde_json::Value;
use std::alloc::{AllocError, Global};
use trace_checker::checker::Checker;
use trace_checker::entry::Entry;
use trace_checker::event::Event;
use trace_checker::memberships::Memberships;

/// An event of a trace.
pub type Act = Event<u64, u64, u64>;

/// The checker of a trace.
pub type Checking = Checker<u64, u64, u64, Memberships<u64, u64>>;

/// Returns the event that a line says. `first` is the index of the first entry, `committed_by` the
/// greatest term of which a leader has committed entries, with this leader, and `checker` knows
/// what leaders have written.
pub fn event_of(
    alloc: Global,
    names: &Names,
    value: &Value,
    first: u64,
    committed_by: Option<(u64, u64)>,
    checker: &Checking,
) -> Result<Option<Act>, AllocError>
    ensures { IfOk result (λ o. IfSome o (λ e.
        Says (numbering names.now) first (view value.now) (trace_event e))) }
{
    if is_named(value, "appended") {
        return appended(alloc, names, value, first);
    }
    Ok(match event_name(value).unwrap_or("") {
        "campaigned" => campaigned(names, value),
        "granted" => granted(names, value),
        "acked" => acked(names, value, first),
        "restarted" => restarted(names, value, first),
        "wrote" => wrote(names, value),
        "committed" => committed(names, value, first, checker),
        "applied" => applied(names, value, first, committed_by),
        _ => None,
    })
}

/// Returns the event that a server starts a campaign.
fn campaigned(names: &Names, value: &Value) -> Option<Act>
    ensures { IfSome result (λ e. (first : ℕ) →
        Says (numbering names.now) first (view value.now) (trace_event e)) }
{
    if !is_named(value, "campaigned") {
        return None;
    }
    Some(Event::Campaigned {
        server: id(names, value, "server")?,
        term: number(value, "term")?,
    })
}

/// Returns the event that a server grants its vote.
fn granted(names: &Names, value: &Value) -> Option<Act>
    ensures { IfSome result (λ e. (first : ℕ) →
        Says (numbering names.now) first (view value.now) (trace_event e)) }
{
    if !is_named(value, "granted") {
        return None;
    }
    Some(Event::Granted {
        server: id(names, value, "server")?,
        term: number(value, "term")?,
        candidate: id(names, value, "candidate")?,
    })
}

/// Returns the event that a server takes entries. It keeps those up to the index `prev`.
fn appended(
    alloc: Global,
    names: &Names,
    value: &Value,
    first: u64,
) -> Result<Option<Act>, AllocError>
    ensures { IfOk result (λ o. IfSome o (λ e.
        Says (numbering names.now) first (view value.now) (trace_event e))) }
{
    let Some((server, term, leader, keep)) = taken(names, value, "prev", first) else {
        return Ok(None);
    };
    match entries(alloc, names, value)? {
        Some(entries) => Ok(Some(Event::Appended {
            server,
            term,
            leader,
            keep,
            entries,
        })),
        None => Ok(None),
    }
}

/// Returns the server that installs a snapshot, the term, its leader, and how many entries the
/// snapshot has, if the line is of one: it has no field `entries`.
pub fn installed(names: &Names, value: &Value, first: u64) -> Option<(u64, u64, u64, usize)>
    ensures taken { IfSome result (λ t.
        IsTaken (numbering names.now) (codes "index") first (view value.now) t) }
    ensures none { IsSome result → get (codes "entries") (view value.now) ≡ None }
{
    if value.get("entries").is_some() {
        return None;
    }
    taken(names, value, "index", first)
}

/// Returns the server that takes entries, the term, its leader, and the number of entries up to the
/// index of a field.
fn taken(names: &Names, value: &Value, name: &str, first: u64) -> Option<(u64, u64, u64, usize)>
    ensures { IfSome result (λ t.
        IsTaken (numbering names.now) name.now first (view value.now) t) }
{
    if !is_named(value, "appended") {
        return None;
    }
    Some((
        id(names, value, "server")?,
        number(value, "term")?,
        id(names, value, "leader")?,
        len(value, name, first)?,
    ))
}

/// Returns the event that a server takes so many first entries of the leader of a term, if the
/// leader has so many. The server keeps those that it has already, and only the others are sent.
pub fn taken_from(
    alloc: Global,
    checker: &Checking,
    server: u64,
    term: u64,
    leader: u64,
    len: usize,
) -> Result<Option<Act>, AllocError>
    ensures up_to { IfOk result
        (λ o. IfSome o (λ e. TakesUpTo server term leader len (trace_event e))) }
    ensures missing { let k = number_tests (counting_of checker.now) (configs_of checker.now) in
        OfAll k (kept_by checker.now) (λ es. IfOk result
        (λ o. IfSome o (λ e. IsMissing es (trace_event e)))) }
{
    let keep = checker.common_len(server, term, leader).min(len);
    match checker.leader_entries(alloc, term, leader, keep, len)? {
        Some(entries) => Ok(Some(Event::Appended {
            server,
            term,
            leader,
            keep,
            entries,
        })),
        None => Ok(None),
    }
}

/// Returns the event that a server acknowledges its entries up to an index.
fn acked(names: &Names, value: &Value, first: u64) -> Option<Act>
    ensures { IfSome result (λ e.
        Says (numbering names.now) first (view value.now) (trace_event e)) }
{
    if !is_named(value, "acked") {
        return None;
    }
    Some(Event::Acked {
        server: id(names, value, "server")?,
        term: number(value, "term")?,
        leader: id(names, value, "leader")?,
        len: len(value, "index", first)?,
    })
}

/// Returns the event that a server restarts, with its entries up to an index.
fn restarted(names: &Names, value: &Value, first: u64) -> Option<Act>
    ensures { IfSome result (λ e.
        Says (numbering names.now) first (view value.now) (trace_event e)) }
{
    if !is_named(value, "restarted") {
        return None;
    }
    Some(Event::Restarted {
        server: id(names, value, "server")?,
        len: len(value, "index", first)?,
    })
}

/// Returns the event that a leader writes an entry.
fn wrote(names: &Names, value: &Value) -> Option<Act>
    ensures { IfSome result (λ e. (first : ℕ) →
        Says (numbering names.now) first (view value.now) (trace_event e)) }
{
    if !is_named(value, "wrote") {
        return None;
    }
    let term = number(value, "term")?;
    Some(Event::Wrote {
        leader: id(names, value, "leader")?,
        term,
        entry: Entry {
            term,
            content: id(names, value, "content")?,
        },
    })
}

/// Returns the event that a leader commits entries up to an index. If the line does not say by
/// which of its entries the leader counted, the checker does.
fn committed(names: &Names, value: &Value, first: u64, checker: &Checking) -> Option<Act>
    ensures { IfSome result (λ e.
        Says (numbering names.now) first (view value.now) (trace_event e)) }
{
    if !is_named(value, "committed") {
        return None;
    }
    let leader = id(names, value, "leader")?;
    let term = number(value, "term")?;
    let index_len = len(value, "index", first)?;
    let place = if value.get("counted_at").is_none() {
        counted_at(checker, term, leader, index_len).unwrap_or(index_len)
    } else {
        len(value, "counted_at", first)?
    };
    Some(Event::Committed {
        leader,
        term,
        len: index_len,
        counted_at: place,
    })
}

/// Returns the event that a server applies entries up to an index. All that is committed is in the
/// log of the leader with the greatest term that has committed entries, so the event names this
/// leader. The judge refuses the event before if no leader has.
fn applied(
    names: &Names,
    value: &Value,
    first: u64,
    committed_by: Option<(u64, u64)>,
) -> Option<Act>
    ensures { IfSome result (λ e.
        Says (numbering names.now) first (view value.now) (trace_event e)) }
{
    if !is_named(value, "applied") {
        return None;
    }
    let (term, leader) = committed_by.unwrap_or((0, 0));
    Some(Event::Applied {
        server: id(names, value, "server")?,
        term,
        leader,
        len: len(value, "index", first)?,
    })
}

/// Returns by how many of its first entries a leader counts that commits so many, if no line says
/// so. If configs count from their append on, these are all that it has written. If configs count
/// once they are applied, these are the ones up to the last config that it commits.
pub fn counted_at(checker: &Checking, term: u64, leader: u64, len: usize) -> Option<usize> {
    match checker.configs_count() {
        ConfigsCount::WhenAppended => checker.leader_len(term, leader),
        ConfigsCount::WhenApplied => {
            let (last, _before) = checker.config_lens(term, leader, len)?;
            Some(last)
        }
    }
}
