//! Lists of configs.
ghost use Rattle.std.specs.Prelude.{◌≡◌, IfOk, map};
ghost use Rattle.std.specs.List.{list_any};
ghost use Rattle.std.specs.List.Sorted.{IsStrictlySortedBy};
ghost use Rattle.std.specs.Set.{is_member};
ghost use Rattle.std.specs.Cmp.Lexicographic.{pointwise};
ghost use Rattle.std.specs.BTreeSet.{contains};
ghost use Rattle.raft_members.specs.quorum.Majority.{is_voter_of};
ghost use Rattle.raft_members.specs.quorum.Coherence.{next_configs};
ghost use Rattle.raft_members.specs.membership.Valid.{is_empty_config, has_empty_config};
ghost use Rattle.raft_members.specs.Inner.Configs.{ids_of_configs};
ghost use Rattle.raft_members.specs.membership.Change.{last_config, union_of, without};

use super::ids;
use crate::quorum::ids_of_each;
use std::alloc::{AllocError, Global};
use std::collections::BTreeSet;

/// Whether a config has the id.
pub fn has_id<ID: Copy + Ord>(configs: &[BTreeSet<ID>], id: &ID) -> bool
    ensures { result ≡ is_voter_of ID.eq (ids_of_configs configs.now) id.now }
{
    any_contains(configs, id)
}

/// Whether a config contains the id. Ids are compared by their order here, and by their `==` in
/// `has_id`.
fn any_contains<ID: Copy + Ord>(configs: &[BTreeSet<ID>], id: &ID) -> bool
    ensures { result ≡ list_any (λ c. contains ID.cmp c id.now) configs.now }
{
    configs.iter().any(|config| config.contains(id))
}

/// Whether a config equals `goal`.
fn has_config<ID: Copy + Ord>(configs: &[BTreeSet<ID>], goal: &BTreeSet<ID>) -> bool
    ensures { result ≡ list_any (λ c. pointwise ID.eq c.keys goal.now.keys) configs.now }
{
    configs.iter().any(|config| config == goal)
}

/// Whether a config has no ids.
pub fn has_empty<ID: Copy + Ord>(configs: &[BTreeSet<ID>]) -> bool
    ensures { result ≡ has_empty_config (ids_of_configs configs.now) }
{
    any_empty(configs)
}

/// Whether a config is empty. The contract speaks of the configs as sets here, and as lists of ids
/// in `has_empty`.
fn any_empty<ID: Copy + Ord>(configs: &[BTreeSet<ID>]) -> bool
    ensures { result ≡ list_any (λ c. is_empty_config c.keys) configs.now }
{
    configs.iter().any(|config| config.is_empty())
}

/// Returns the given ids and the ids of the last config, if there is one.
pub fn last_with<ID: Copy + Ord>(
    alloc: Global,
    configs: &[BTreeSet<ID>],
    ids: BTreeSet<ID>,
) -> Result<BTreeSet<ID>, AllocError>
    ensures { IfOk result (λ set.
        set.keys ≡ union_of ID.cmp (last_config (ids_of_configs configs.now)) ids.keys) }
{
    match configs.last() {
        None => Ok(ids),
        Some(last) => union(alloc, last, &ids),
    }
}

/// Returns the ids of the last config, if there is one, without the given ones.
pub fn last_without<ID: Copy + Ord>(
    alloc: Global,
    configs: &[BTreeSet<ID>],
    ids: &BTreeSet<ID>,
) -> Result<BTreeSet<ID>, AllocError>
    ensures { IfOk result (λ set.
        set.keys ≡ without ID.eq (last_config (ids_of_configs configs.now)) ids.now.keys) }
{
    match configs.last() {
        None => Ok(BTreeSet::new(alloc)),
        Some(last) => difference(alloc, last, ids),
    }
}

/// Returns the next configs on the way to `goal`.
pub fn next<ID: Copy + Ord>(
    alloc: Global,
    configs: &[BTreeSet<ID>],
    goal: BTreeSet<ID>,
) -> Result<Vec<BTreeSet<ID>>, AllocError>
    ensures { IfOk result (λ next.
        ids_of_configs next.items ≡ next_configs ID.eq (ids_of_configs configs.now) goal.keys) }
{
    match configs.last() {
        Some(last) if !has_config(configs, &goal) => {
            let last = ids::copy(alloc, last)?;
            Ok(vec![in alloc; last, goal]?)
        }
        _ => Ok(vec![in alloc; goal]?),
    }
}

/// Returns the ids that are in either set.
fn union<ID: Copy + Ord>(
    alloc: Global,
    these: &BTreeSet<ID>,
    others: &BTreeSet<ID>,
) -> Result<BTreeSet<ID>, AllocError>
    ensures { IfOk result (λ set. set.keys ≡ union_of ID.cmp these.now.keys others.now.keys) }
{
    let mut set = BTreeSet::new(alloc);
    for id in these.union(others) {
        set.insert(*id)?;
    }
    Ok(set)
}

/// Returns the ids of the first set that are not in the second.
fn difference<ID: Copy + Ord>(
    alloc: Global,
    these: &BTreeSet<ID>,
    others: &BTreeSet<ID>,
) -> Result<BTreeSet<ID>, AllocError>
    ensures { IfOk result (λ set. set.keys ≡ without ID.eq these.now.keys others.now.keys) }
{
    let mut set = BTreeSet::new(alloc);
    for id in these.difference(others) {
        set.insert(*id)?;
    }
    Ok(set)
}

/// Returns copies of the configs.
pub fn copy<ID: Copy + Ord>(
    alloc: Global,
    configs: &[BTreeSet<ID>],
) -> Result<Vec<BTreeSet<ID>>, AllocError>
    ensures { IfOk result (λ copies. ids_of_configs copies.items ≡ ids_of_configs configs.now) }
{
    let mut copies = Vec::with_capacity(alloc, configs.len())?;
    for config in configs {
        copies.push(ids::copy(alloc, config)?)?;
    }
    Ok(copies)
}

/// Returns the voters of all configs, each once, ascending.
pub fn voters<ID: Copy + Ord>(
    alloc: Global,
    configs: &[BTreeSet<ID>],
) -> Result<Vec<ID>, AllocError>
    ensures ascending { IfOk result (λ ids. IsStrictlySortedBy ID.cmp ids.items) }
    ensures voters { IfOk result (λ ids. (x : ID) →
        is_member ID.eq ids.items x ≡ is_voter_of ID.eq (ids_of_configs configs.now) x) }
{
    ids_of_each(alloc, configs)
}

/// Returns the configs, each as the list of its ids in order.
pub fn lists_of<ID: Copy + Ord>(
    alloc: Global,
    configs: &[BTreeSet<ID>],
) -> Result<Vec<Vec<ID>>, AllocError>
    ensures { IfOk result (λ lists. map (λ c. c.items) lists.items ≡ ids_of_configs configs.now) }
{
    let mut lists = Vec::with_capacity(alloc, configs.len())?;
    for config in configs {
        lists.push(ids::list_of(alloc, config)?)?;
    }
    Ok(lists)
}
