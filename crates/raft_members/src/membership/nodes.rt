//! The nodes of a membership, by their ids.
ghost use Rattle.std.specs.Prelude.{◌≡◌, IfOk, IsOk, IsTrue, OnOk, cond, not, None, is_some};
ghost use Rattle.std.specs.Option.{option_or};
ghost use Rattle.std.specs.List.{find, filter};
ghost use Rattle.raft_members.specs.membership.Members.{AddsNoId, HasNodes, same_nodes};
ghost use Rattle.raft_members.specs.Inner.Configs.{ids_of_configs};
ghost use Rattle.raft_members.specs.Inner.Nodes.{PutsEqual, lesser};
ghost use Rattle.std.specs.List.Sorted.{IsStrictlySortedBy};
ghost use Rattle.std.specs.Set.{ClonesAreEqual};
ghost use Rattle.std.specs.BTreeMap.{get, keys};
ghost use Rattle.std.specs.Cmp.Lexicographic.{pointwise};
ghost use Rattle.std.specs.BTreeSet.{contains};
ghost use Rattle.raft_members.specs.membership.Valid.{FirstWithoutNode};
ghost use Rattle.raft_members.specs.membership.Change.{keeps_node};

use super::configs::has_id;
use std::alloc::{AllocError, Global};
use std::collections::{BTreeMap, BTreeSet};

/// Returns the nodes, without the nodes of voters that are in no new config, unless `retain` is
/// set.
pub fn kept<NID: Copy + Ord, N: Eq + Clone + Drop>(
    alloc: Global,
    nodes: &BTreeMap<NID, N>,
    old: &[BTreeSet<NID>],
    new: &[BTreeSet<NID>],
    retain: bool,
) -> Result<BTreeMap<NID, N>, AllocError>
    requires clones_are_equal { ClonesAreEqual N.eq N.is_clone }
    ensures nodes { IfOk result (λ n. HasNodes N.eq NID.cmp n.entries (λ q.
        cond (keeps_node NID.eq (ids_of_configs old.now) (ids_of_configs new.now) retain q)
        (get NID.cmp nodes.now q) None)) }
    ensures entries { IfOk result (λ n. IsTrue (same_nodes NID.eq N.eq
        (filter (λ e. keeps_node NID.eq (ids_of_configs old.now)
        (ids_of_configs new.now) retain e.0)
        nodes.now.entries) n.entries)) }
{
    let mut kept = BTreeMap::new(alloc);
    for (id, node) in nodes.iter() {
        if is_kept(old, new, retain, id) {
            put_copy(&mut kept, *id, node)?;
        }
    }
    Ok(kept)
}

/// Whether the node at an id stays.
fn is_kept<NID: Copy + Ord>(
    old: &[BTreeSet<NID>],
    new: &[BTreeSet<NID>],
    retain: bool,
    id: &NID,
) -> bool
    ensures { result ≡
        keeps_node NID.eq (ids_of_configs old.now) (ids_of_configs new.now) retain id.now }
{
    let was = has_id(old, id);
    let is = has_id(new, id);
    retain || !was || is
}

/// Inserts a copy of the node at the id.
fn put_copy<NID: Copy + Ord, N: Eq + Clone + Drop>(
    kept: &mut BTreeMap<NID, N>,
    id: NID,
    node: &N,
) -> Result<(), AllocError>
    requires clones_are_equal { ClonesAreEqual N.eq N.is_clone }
    ensures { OnOk result (PutsEqual N.eq NID.cmp kept.old.entries kept.new.entries id node.now) }
{
    let copy = node.clone()?;
    let _old = kept.insert(id, copy)?;
    Ok(())
}

/// Returns copies of the nodes.
// A clone of the map takes fewer instructions than an insertion of each node. It is compared with
// the nodes, because a clone of an id need not equal the id.
pub fn copy<NID: Copy + Ord, N: Eq + Clone + Drop>(
    alloc: Global,
    nodes: &BTreeMap<NID, N>,
) -> Result<BTreeMap<NID, N>, AllocError>
    requires clones_are_equal { ClonesAreEqual N.eq N.is_clone }
    ensures nodes { IfOk result (λ n. HasNodes N.eq NID.cmp n.entries (get NID.cmp nodes.now)) }
    ensures entries { IfOk result (λ n.
        IsTrue (same_nodes NID.eq N.eq nodes.now.entries n.entries)) }
{
    let clones = nodes.clone()?;
    if have_equal_ids(nodes, &clones) {
        return Ok(clones);
    }
    copy_each(alloc, nodes)
}

/// Whether two maps have equal ids, one by one, from the last id to the first.
// `==` of the maps would compare the nodes too.
fn have_equal_ids<NID: Copy + Ord, N>(nodes: &BTreeMap<NID, N>, clones: &BTreeMap<NID, N>) -> bool
    ensures { IsTrue result → IsTrue (pointwise NID.eq (keys nodes.now) (keys clones.now)) }
{
    if nodes.len() != clones.len() {
        return false;
    }
    let mut rest = clones.keys().rev();
    for id in nodes.keys().rev() {
        let Some(other) = rest.next() else {
            return false;
        };
        if id != other {
            return false;
        }
    }
    true
}

/// Returns copies of the nodes, inserted one by one.
// The last one is inserted first, as in `ids::copy`.
fn copy_each<NID: Copy + Ord, N: Eq + Clone + Drop>(
    alloc: Global,
    nodes: &BTreeMap<NID, N>,
) -> Result<BTreeMap<NID, N>, AllocError>
    requires clones_are_equal { ClonesAreEqual N.eq N.is_clone }
    ensures nodes { IfOk result (λ n. HasNodes N.eq NID.cmp n.entries (get NID.cmp nodes.now)) }
    ensures entries { IfOk result (λ n.
        IsTrue (same_nodes NID.eq N.eq nodes.now.entries n.entries)) }
{
    let mut copies = BTreeMap::new(alloc);
    for (id, node) in nodes.iter().rev() {
        put_copy(&mut copies, *id, node)?;
    }
    Ok(copies)
}

/// Returns the nodes, with copies of the nodes of `more` whose ids have none.
pub fn added<NID: Copy + Ord, N: Eq + Clone + Drop>(
    nodes: BTreeMap<NID, N>,
    more: &BTreeMap<NID, N>,
) -> Result<BTreeMap<NID, N>, AllocError>
    requires clones_are_equal { ClonesAreEqual N.eq N.is_clone }
    ensures nodes { IfOk result (λ n. HasNodes N.eq NID.cmp n.entries
        (λ q. option_or (get NID.cmp nodes q) (get NID.cmp more.now q))) }
    ensures no_memory { AddsNoId NID.cmp nodes.entries more.now.entries → IsOk result }
{
    let mut added = nodes;
    for (id, node) in more.iter() {
        if !added.contains_key(id) {
            put_copy(&mut added, *id, node)?;
        }
    }
    Ok(added)
}

/// Returns the nodes of the first map, with the nodes of the second map whose ids have none in the
/// first. No node is cloned.
pub fn merged<NID: Copy + Ord, N: Drop>(
    mut first: BTreeMap<NID, N>,
    mut second: BTreeMap<NID, N>,
) -> Result<BTreeMap<NID, N>, AllocError>
    ensures { IfOk result (λ nodes.
        (id : NID) → get NID.cmp nodes id ≡
        option_or (get NID.cmp first id) (get NID.cmp second id)) }
{
    second.append(&mut first)?;
    Ok(second)
}

/// Removes the nodes at the ids.
pub fn remove_all<NID: Copy + Ord, N: Drop>(nodes: &mut BTreeMap<NID, N>, ids: &BTreeSet<NID>)
    ensures { (q : NID) →
        get NID.cmp nodes.new q ≡ cond (contains NID.cmp ids.now q) None (get NID.cmp nodes.old q) }
{
    for id in ids.iter() {
        let _gone = nodes.remove(id);
    }
}

/// Returns the lesser of two ids, or the one that there is.
fn lesser<ID: Copy + Ord>(a: Option<ID>, b: Option<ID>) -> Option<ID>
    ensures { result ≡ lesser ID.cmp a b }
{
    match (a, b) {
        (None, b) => b,
        (Some(x), None) => Some(x),
        (Some(x), Some(y)) => if y < x { Some(y) } else { Some(x) },
    }
}

/// Returns the first id of a config that has no node.
fn first_missing<NID: Copy + Ord, N: Drop>(
    config: &BTreeSet<NID>,
    nodes: &BTreeMap<NID, N>,
) -> Option<NID>
    ensures found { result ≡
        find (λ q. not (is_some (get NID.cmp nodes.now q))) config.now.keys }
    ensures ordered { IsStrictlySortedBy NID.cmp config.now.keys }
{
    config.iter().copied().find(|id| !nodes.contains_key(id))
}

/// Returns the least voter that has no node.
pub fn least_missing<NID: Copy + Ord, N: Drop>(
    configs: &[BTreeSet<NID>],
    nodes: &BTreeMap<NID, N>,
) -> Option<NID>
    ensures { FirstWithoutNode NID.eq NID.cmp
        (record { configs = ids_of_configs configs.now; node = get NID.cmp nodes.now }) result }
{
    let mut least = None;
    for c in configs {
        least = lesser(least, first_missing(c, nodes));
    }
    least
}
