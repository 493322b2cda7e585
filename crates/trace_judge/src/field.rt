//! The fields of a line.
ghost use Rattle.std.specs.Prelude.{◌≡◌, Some, IfOk, IfSome, IsFalse, IsTrue, option_map};
ghost use Rattle.serde_json.specs.Read.{read};
ghost use Rattle.serde_json.specs.View.{items_view, view};
ghost use Rattle.trace_judge.specs.Fields.{HasConfigs, HasEntries, IsConfig, IsCounting, IsEntry, IsFirst, IsId, IsLen, IsNamed, list_in, number_in, text_in};
ghost use Rattle.trace_judge.specs.Inner.Table.{numbering};

use crate::names::Names;
use safety_laws::counting::ConfigsCount;
use serde_json::Value;
use std::alloc::{AllocError, Global};
use std::str;
use trace_checker::entry::Entry;

/// Returns the value of a line, if the line is JSON.
pub fn value_of(alloc: Global, line: &[u8]) -> Result<Option<Value>, AllocError>
    ensures { IfOk result (λ o. IfSome o (λ v. read line.now ≡ Some (view v))) }
{
    let Ok(text) = str::from_utf8(line) else {
        return Ok(None);
    };
    match Value::from_str(alloc, text) {
        Ok(value) => Ok(Some(value)),
        Err(error) => {
            if error.is_memory() {
                Err(AllocError)
            } else {
                Ok(None)
            }
        }
    }
}

/// Returns the name of an event.
pub fn event_name(value: &Value) -> Option<&str> {
    value.get("event").and_then(Value::as_str)
}

/// Whether the event has this name.
pub fn is_named(value: &Value, name: &str) -> bool
    ensures yes { IsTrue result → IsNamed name.now (view value.now) }
    ensures no { IsFalse result → IsNamed name.now (view value.now) → ⊥ }
{
    match value.get("event").and_then(Value::as_str) {
        Some(text) => text == name,
        None => false,
    }
}

/// Returns a field that is a number.
pub fn number(value: &Value, name: &str) -> Option<u64>
    ensures { result ≡ number_in name.now (view value.now) }
{
    value.get(name).and_then(Value::as_u64)
}

/// Returns the number of a field that is a name.
pub fn id(names: &Names, value: &Value, name: &str) -> Option<u64>
    ensures { IfSome result (λ n. IsId (numbering names.now) name.now n (view value.now)) }
{
    names.number_of(value.get(name)?)
}

/// Returns the index of the first entry, 1 if the line does not say it.
pub fn first_index(value: &Value) -> Option<u64>
    ensures { IfSome result (λ first. IsFirst first (view value.now)) }
{
    match value.get("first") {
        Some(first) => first.as_u64(),
        None => Some(1),
    }
}

/// Whether a field is this text.
fn has_text(value: &Value, name: &str, text: &str) -> bool
    ensures { IsTrue result → text_in name.now (view value.now) ≡ Some text.now }
{
    match value.get(name).and_then(Value::as_str) {
        Some(field) => field == text,
        None => false,
    }
}

/// Returns when configs count, which is from their append on if the line does not say it.
pub fn configs_count(value: &Value) -> Option<ConfigsCount>
    ensures { IfSome result (λ counting. IsCounting counting (view value.now)) }
{
    if value.get("configs").is_none() || has_text(value, "configs", "appended") {
        return Some(ConfigsCount::WhenAppended);
    }
    if has_text(value, "configs", "applied") {
        return Some(ConfigsCount::WhenApplied);
    }
    None
}

/// Returns the length of a log whose last entry has the index that a field has. `first` is the
/// index of the first entry.
pub fn len(value: &Value, name: &str, first: u64) -> Option<usize>
    ensures { IfSome result (λ n. IsLen name.now first n (view value.now)) }
{
    let index = number(value, name)?;
    let end = index.checked_add(1)?;
    let len = end.checked_sub(first)?;
    Some(len as usize)
}

/// Returns a field that is a list.
fn list<'a>(value: &'a Value, name: &str) -> Option<&'a Vec<Value>>
    ensures { option_map (λ v. items_view v.now.items) result ≡ list_in name.now (view value.now) }
{
    value.get(name).and_then(Value::as_array)
}

/// Returns a list of voters, if it is not empty.
fn config(alloc: Global, names: &Names, value: &Value) -> Result<Option<Vec<u64>>, AllocError>
    ensures { IfOk result
        (λ o. IfSome o (λ v. IsConfig (numbering names.now) (view value.now) v)) }
{
    let Some(list) = value.as_array() else {
        return Ok(None);
    };
    if list.is_empty() {
        return Ok(None);
    }
    let mut voters = Vec::new(alloc);
    for item in list {
        let Some(voter) = names.number_of(item) else {
            return Ok(None);
        };
        voters.push(voter)?;
    }
    Ok(Some(voters))
}

/// Returns the configs of a line, each a list of voters: one, or the two of a joint config.
pub fn configs(
    alloc: Global,
    names: &Names,
    value: &Value,
) -> Result<Option<Vec<Vec<u64>>>, AllocError>
    ensures { IfOk result
        (λ o. IfSome o (λ v. HasConfigs (numbering names.now) (view value.now) v.items)) }
{
    let Some(list) = list(value, "voters") else {
        return Ok(None);
    };
    if !matches!(list.len(), 1 | 2) {
        return Ok(None);
    }
    let mut configs = Vec::new(alloc);
    for item in list {
        let Some(config) = config(alloc, names, item)? else {
            return Ok(None);
        };
        configs.push(config)?;
    }
    Ok(Some(configs))
}

/// Returns an entry, which is a list of its term and its content.
fn entry(names: &Names, value: &Value) -> Option<Entry<u64, u64>>
    ensures { IfSome result (λ e. IsEntry (numbering names.now) (view value.now) e) }
{
    Some(Entry {
        term: value.get(0).and_then(Value::as_u64)?,
        content: names.number_of(value.get(1)?)?,
    })
}

/// Returns the entries of a line.
pub fn entries(
    alloc: Global,
    names: &Names,
    value: &Value,
) -> Result<Option<Vec<Entry<u64, u64>>>, AllocError>
    ensures { IfOk result
        (λ o. IfSome o (λ v. HasEntries (numbering names.now) (view value.now) v.items)) }
{
    let Some(list) = list(value, "entries") else {
        return Ok(None);
    };
    let mut entries = Vec::new(alloc);
    for item in list {
        let Some(entry) = entry(names, item) else {
            return Ok(None);
        };
        entries.push(entry)?;
    }
    Ok(Some(entries))
}
