//! The line that says how the cluster starts.
ghost use Rattle.std.specs.Prelude.{◌≡◌, ℕ, List, IfOk, IfSome, IsTrue, OnOk, Some};
ghost use Rattle.serde_json.specs.Read.{read};
ghost use Rattle.serde_json.specs.View.{view};
ghost use Rattle.trace_judge.specs.Inner.Table.{Learns, numbering};
ghost use Rattle.trace_judge.specs.Run.{SayOneStart, SaysStart};

use crate::field::{configs, configs_count, first_index, is_named, value_of};
use crate::names::Names;
use safety_laws::counting::ConfigsCount;
use serde_json::Value;
use std::alloc::{AllocError, Global};

/// The configs of the voters, the index of the first entry, and when configs count.
pub type Start = (Vec<Vec<u64>>, u64, ConfigsCount);

/// Returns how the cluster starts, if a line says so. The voters get numbers.
pub fn start_of(alloc: Global, names: &mut Names, line: &[u8]) -> Result<Option<Start>, AllocError>
    ensures says { IfOk result (λ o. IfSome o (λ s.
        SaysStart (numbering names.new) line.now s.0.items s.1 s.2)) }
    ensures learns { OnOk result (Learns names.old names.new) }
{
    match value_of(alloc, line)? {
        Some(value) => start_in(alloc, names, &value),
        None => Ok(None),
    }
}

/// Returns how the cluster starts, if the value of a line says so. The voters get numbers.
fn start_in(alloc: Global, names: &mut Names, value: &Value) -> Result<Option<Start>, AllocError>
    ensures says { IfOk result (λ o. IfSome o (λ s. (line : List ℕ) →
        read line ≡ Some (view value.now) →
        SaysStart (numbering names.new) line s.0.items s.1 s.2)) }
    ensures learns { OnOk result (Learns names.old names.new) }
{
    if !is_named(value, "started") {
        return Ok(None);
    }
    let Some(first) = first_index(value) else {
        return Ok(None);
    };
    let Some(counting) = configs_count(value) else {
        return Ok(None);
    };
    names.learn(value)?;
    match configs(alloc, names, value)? {
        Some(voters) => Ok(Some((voters, first, counting))),
        None => Ok(None),
    }
}

/// Whether two lines say that the cluster starts, with the same configs and the same first index,
/// and configs count in the same way.
pub fn say_one_start(alloc: Global, line: &[u8], other: &[u8]) -> Result<bool, AllocError>
    ensures { IfOk result (λ say. IsTrue say → SayOneStart line.now other.now) }
{
    let mut names = Names::new(alloc);
    let Some((configs, first, counting)) = start_of(alloc, &mut names, line)? else {
        return Ok(false);
    };
    let Some((others, other_first, other_counting)) = start_of(alloc, &mut names, other)? else {
        return Ok(false);
    };
    if first != other_first {
        return Ok(false);
    }
    if counting != other_counting {
        return Ok(false);
    }
    Ok(configs == others)
}
