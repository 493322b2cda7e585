//! Default nodes for ids that have none.
ghost use Rattle.std.specs.Prelude.{◌≡◌, IfOk, OnOk, cond, Some};
ghost use Rattle.std.specs.BTreeMap.{get, is_at};
ghost use Rattle.std.specs.Set.{is_member};
ghost use Rattle.raft_members.specs.quorum.Majority.{is_voter_of};
ghost use Rattle.raft_members.specs.Inner.Configs.{ids_of_configs};
ghost use Rattle.raft_members.specs.membership.Defaults.{HasDefaults};

use super::configs;
use raft_base::NodeDefault;
use std::alloc::{AllocError, Global};
use std::collections::{BTreeMap, BTreeSet};

/// Returns the nodes, with the default one at each voter that has none.
pub fn with_voters<NID: Copy + Ord, N: NodeDefault + Drop>(
    nodes: BTreeMap<NID, N>,
    alloc: Global,
    configs: &[BTreeSet<NID>],
) -> Result<BTreeMap<NID, N>, AllocError>
    ensures { IfOk result (λ full. HasDefaults N.is_default_node NID.cmp nodes.entries
        (is_voter_of NID.eq (ids_of_configs configs.now)) full.entries) }
{
    let voters = configs::voters(alloc, configs)?;
    let full = with_defaults(nodes, alloc, &voters)?;
    Ok(full)
}

/// Returns the nodes, with the default one at each of the ids that has none.
pub fn with_defaults<NID: Copy + Ord, N: NodeDefault + Drop>(
    nodes: BTreeMap<NID, N>,
    alloc: Global,
    ids: &[NID],
) -> Result<BTreeMap<NID, N>, AllocError>
    ensures { IfOk result (λ full. HasDefaults N.is_default_node NID.cmp nodes.entries
        (is_member NID.eq ids.now) full.entries) }
{
    let mut full = nodes;
    for id in ids {
        if full.contains_key(id) {
            continue;
        }
        put_default(&mut full, alloc, *id)?;
    }
    Ok(full)
}

/// Inserts the default node at the id.
fn put_default<NID: Copy + Ord, N: NodeDefault + Drop>(
    nodes: &mut BTreeMap<NID, N>,
    alloc: Global,
    id: NID,
) -> Result<(), AllocError>
    ensures { OnOk result ((made : N) × N.is_default_node made × ((q : NID) →
        get NID.cmp nodes.new q ≡
        cond (is_at (NID.cmp id) q) (Some made) (get NID.cmp nodes.old q))) }
{
    let node = N::default_node(alloc)?;
    let _old = nodes.insert(id, node)?;
    Ok(())
}
