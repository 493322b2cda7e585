//! Sets of ids, copied id by id. A copy has the order of its set, so ids need only be `Copy`.
ghost use Rattle.std.specs.Prelude.{◌≡◌, IfOk};
ghost use Rattle.std.specs.BTreeMap.{keys};
ghost use Rattle.std.specs.List.Sorted.{IsStrictlySortedBy};
ghost use Rattle.std.specs.Set.{is_member};

use std::alloc::{AllocError, Global};
use std::collections::{BTreeMap, BTreeSet};

/// Returns a set with these ids.
// The last id is inserted first, so each id finds its position before all others by one comparison.
pub fn copy<ID: Copy + Ord>(alloc: Global, ids: &BTreeSet<ID>) -> Result<BTreeSet<ID>, AllocError>
    ensures { IfOk result (λ set. set.keys ≡ ids.now.keys) }
{
    let mut set = BTreeSet::new(alloc);
    for id in ids.iter().rev() {
        set.insert(*id)?;
    }
    Ok(set)
}

/// Returns the set of the ids that have nodes.
pub fn key_set<ID: Copy + Ord, N>(
    alloc: Global,
    nodes: &BTreeMap<ID, N>,
) -> Result<BTreeSet<ID>, AllocError>
    ensures { IfOk result (λ set. set.keys ≡ keys nodes.now) }
{
    let mut set = BTreeSet::new(alloc);
    for id in nodes.keys() {
        set.insert(*id)?;
    }
    Ok(set)
}

/// Returns the set of these ids.
pub fn set_of<ID: Copy + Ord>(alloc: Global, ids: &[ID]) -> Result<BTreeSet<ID>, AllocError>
    ensures ascending { IfOk result (λ set. IsStrictlySortedBy ID.cmp set.keys) }
    ensures members { IfOk result (λ set. (id : ID) →
        is_member ID.eq set.keys id ≡ is_member ID.eq ids.now id) }
{
    ids.iter().copied().collect(alloc)
}

/// Returns the ids of a set, in order.
pub fn list_of<ID: Copy + Ord>(alloc: Global, ids: &BTreeSet<ID>) -> Result<Vec<ID>, AllocError>
    ensures { IfOk result (λ list. list.items ≡ ids.now.keys) }
{
    let mut list = Vec::with_capacity(alloc, ids.len())?;
    for id in ids.iter() {
        list.push(*id)?;
    }
    Ok(list)
}
