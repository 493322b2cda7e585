//! Why a line is no event.

use crate::field::{event_name, len};
use crate::names::{push_text, push_value};
use serde_json::Value;
use std::alloc::{AllocError, Global};
use std::str;

/// What some editors and libraries write before a text.
const BYTE_ORDER_MARK: &[u8] = b"\xef\xbb\xbf";

/// What a field has to be.
#[derive(Clone, Copy)]
enum Kind {
    /// The name of a server or of a command.
    Name,
    /// A number, such as a term.
    Number,
    /// The index of an entry, or the one before the first index.
    Index,
    /// A list of entries.
    Entries,
    /// A list of configs.
    Voters,
    /// When configs count.
    Counting,
}

/// A field of an event: its name, what it has to be, and whether it may be missing.
type Field = (&'static str, Kind, bool);

const SERVER: Field = ("server", Kind::Name, false);

const LEADER: Field = ("leader", Kind::Name, false);

const CANDIDATE: Field = ("candidate", Kind::Name, false);

const CONTENT: Field = ("content", Kind::Name, false);

const TERM: Field = ("term", Kind::Number, false);

const INDEX: Field = ("index", Kind::Index, false);

/// Returns the fields of an event. If `appended` has neither `entries` nor `prev`, it is of a
/// snapshot.
fn fields(value: &Value) -> &'static [Field] {
    let is_snapshot = value.get("entries").is_none() && value.get("prev").is_none();
    match event_name(value).unwrap_or("") {
        "started" => &[
            ("voters", Kind::Voters, false),
            ("first", Kind::Number, true),
            ("configs", Kind::Counting, true),
        ],
        "campaigned" => &[SERVER, TERM],
        "granted" => &[SERVER, TERM, CANDIDATE],
        "appended" if is_snapshot => &[SERVER, TERM, LEADER, INDEX],
        "appended" => &[
            SERVER,
            TERM,
            LEADER,
            ("prev", Kind::Index, false),
            ("entries", Kind::Entries, false),
        ],
        "acked" => &[SERVER, TERM, LEADER, INDEX],
        "restarted" => &[SERVER, INDEX, ("last_term", Kind::Number, true)],
        "wrote" => &[
            LEADER,
            TERM,
            CONTENT,
            ("index", Kind::Number, true),
            ("voters", Kind::Voters, true),
        ],
        "committed" => &[LEADER, TERM, INDEX, ("counted_at", Kind::Index, true)],
        "applied" => &[SERVER, INDEX],
        _ => &[],
    }
}

/// Returns what a field of a kind has to be.
fn kind_words(kind: Kind) -> &'static str {
    match kind {
        Kind::Name => "a text, or a number below 2^64",
        Kind::Number => "a number below 2^64",
        Kind::Index => "a number from `first - 1` on, and below 2^64 - 1",
        Kind::Entries => "a list of pairs, each of a term and a content",
        Kind::Voters => "a list of one config or two, each a list of servers that is not empty",
        Kind::Counting => "`appended` or `applied`",
    }
}

/// Whether a field is of a kind. `first` is the index of the first entry.
fn is_of_kind(value: &Value, name: &str, kind: Kind, first: u64) -> bool {
    let Some(field) = value.get(name) else {
        return false;
    };
    match kind {
        Kind::Name => is_name(field),
        Kind::Number => field.as_u64().is_some(),
        Kind::Index => len(value, name, first).is_some(),
        Kind::Entries => are_entries(field),
        Kind::Voters => are_configs(field),
        Kind::Counting => matches!(field.as_str(), Some("appended" | "applied")),
    }
}

/// Whether a value is a name.
fn is_name(value: &Value) -> bool {
    value.as_str().is_some() || value.as_u64().is_some()
}

/// Whether a value is a list of entries.
fn are_entries(value: &Value) -> bool {
    let Some(list) = value.as_array() else {
        return false;
    };
    for entry in list {
        let term = entry.get(0).and_then(Value::as_u64);
        if term.is_none() || !entry.get(1).is_some_and(is_name) {
            return false;
        }
    }
    true
}

/// Whether a value is a list of one config or two.
fn are_configs(value: &Value) -> bool {
    let Some(list) = value.as_array() else {
        return false;
    };
    for config in list {
        if !is_config(config) {
            return false;
        }
    }
    matches!(list.len(), 1 | 2)
}

/// Whether a value is a list of servers that is not empty.
fn is_config(value: &Value) -> bool {
    let Some(list) = value.as_array() else {
        return false;
    };
    for server in list {
        if !is_name(server) {
            return false;
        }
    }
    !list.is_empty()
}

/// Writes why a line, which may be the first one of the run, is no event.
pub fn push_reason(
    alloc: Global,
    answer: &mut String,
    line: &[u8],
    is_first: bool,
    first: u64,
) -> Result<(), AllocError> {
    if line.starts_with(BYTE_ORDER_MARK) {
        return answer.push_str("it begins with a byte order mark, which is no JSON\n");
    }
    let text = match str::from_utf8(line) {
        Ok(text) => text,
        Err(error) => {
            let column = error.valid_up_to().saturating_add(1);
            writeln!(answer, "it is no UTF-8 at column {column}")?;
            return Ok(());
        }
    };
    if is_first && text.trim().is_empty() {
        return answer.push_str("it is empty, and the first line has to be `started`\n");
    }
    match Value::from_str(alloc, text) {
        Ok(value) => push_value_reason(alloc, answer, &value, is_first, first),
        Err(error) => {
            if error.is_memory() {
                return Err(AllocError);
            }
            push_broken(alloc, answer, &error)
        }
    }
}

/// Writes why a line is no JSON, and at which column.
fn push_broken(
    alloc: Global,
    answer: &mut String,
    error: &serde_json::Error,
) -> Result<(), AllocError> {
    let column = error.column();
    let words = error.to_string(alloc)?;
    let reason = if error.is_eof() {
        "the line ends too early"
    } else if words.as_str().starts_with("number") {
        "the number is too large"
    } else {
        "this may not follow in JSON, or it is nested deeper than 127"
    };
    writeln!(answer, "it is no JSON at column {column}: {reason}")?;
    Ok(())
}

/// Writes why the value of a line is no event: the first field that is missing or wrong, or what is
/// wrong otherwise.
fn push_value_reason(
    alloc: Global,
    answer: &mut String,
    value: &Value,
    is_first: bool,
    first: u64,
) -> Result<(), AllocError> {
    let Some(event) = event_name(value) else {
        return answer.push_str("it is no JSON object with a text `event`\n");
    };
    if is_first && event != "started" {
        return answer.push_str("the first line has to be `started`\n");
    }
    for (name, kind, may_miss) in fields(value) {
        let is_left_out = *may_miss && value.get(*name).is_none();
        if !is_left_out && !is_of_kind(value, *name, *kind, first) {
            return push_field(alloc, answer, value, *name, *kind);
        }
    }
    match event {
        "started" => answer.push_str(
            "only the first line says how the cluster starts, and this one says another start\n",
        ),
        "wrote" => answer.push_str(
            "an earlier line has the `content` with other `voters` or none\n",
        ),
        _ => {
            answer.push_str("there is no event ")?;
            push_text(alloc, answer, event)?;
            answer.push('\n')
        }
    }
}

/// Writes what a field has to be, which is missing or wrong.
fn push_field(
    alloc: Global,
    answer: &mut String,
    value: &Value,
    name: &str,
    kind: Kind,
) -> Result<(), AllocError> {
    let words = kind_words(kind);
    let event = event_name(value).unwrap_or("");
    match value.get(name) {
        None => writeln!(answer, "`{event}` lacks `{name}`, which is {words}")?,
        Some(field) => {
            write!(answer, "`{name}` of `{event}` is ")?;
            push_value(alloc, answer, field)?;
            writeln!(answer, ", and has to be {words}")?;
        }
    }
    Ok(())
}
