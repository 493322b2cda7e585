//! The first caller, as it is printed on the page for callers.

use raft_members::quorum::QuorumSet;
use raft_members::{ChangeMembers, ChangeMembershipError, Membership};
use std::alloc::Global;
use std::collections::BTreeMap;

/// Adds learner 3, and then replaces voters 1 and 2 by 2 and 3 in two changes. Between these two a
/// quorum needs both configs.
fn replace_voters(alloc: Global) -> Result<bool, ChangeMembershipError<u64>> {
    let nodes: BTreeMap<u64, u64> = [(1, 10), (2, 20)].iter().copied().collect(alloc)?;
    let voters = Membership::from_nodes(alloc, nodes)?;
    let third: BTreeMap<u64, u64> = [(3, 30)].iter().copied().collect(alloc)?;
    let joint = voters.change(ChangeMembers::AddNodes(third), true)?;
    let joint = joint.change(ChangeMembers::replace_all(alloc, &[2, 3])?, false)?;
    let last = joint.change(ChangeMembers::replace_all(alloc, &[2, 3])?, false)?;
    Ok(joint.is_in_joint_consensus() && last.to_quorum_set()?.is_quorum(&[2, 3]))
}

#[test]
fn voters_are_replaced(rt: HostRuntime) {
    assert!(rt; replace_voters(rt.alloc()) == Ok(true));
}
