//! Changes of a membership.
ghost use Rattle.std.specs.Prelude.{IfOk};
ghost use Rattle.std.specs.Set.{ClonesAreEqual};

use crate::membership::{ids, nodes};
use raft_base::{Node, NodeId};
use std::alloc::{AllocError, Global};
use std::collections::{BTreeMap, BTreeSet};

/// A change of the voters or of the nodes of a membership.
///
/// A change of voters starts from the last config and leads to a goal, in one step or in two.
#[derive(Debug, Clone, PartialEq, Eq, Drop)]
pub enum ChangeMembers<NID: NodeId, N: Node> {
    /// Makes learners voters. Each of them must have a node.
    AddVoterIds(BTreeSet<NID>),
    /// Makes nodes voters, and adds the nodes whose ids have none.
    AddVoters(BTreeMap<NID, N>),
    /// Removes voters. Ids that are not voters are ignored.
    RemoveVoters(BTreeSet<NID>),
    /// Makes these ids the voters, in place of all others.
    ReplaceAllVoters(BTreeSet<NID>),
    /// Adds nodes as learners. If an id has a node, that node stays.
    AddNodes(BTreeMap<NID, N>),
    /// Adds nodes, or replaces the nodes that these ids have.
    SetNodes(BTreeMap<NID, N>),
    /// Removes nodes. They must not be voters.
    RemoveNodes(BTreeSet<NID>),
    /// Makes these the nodes, in place of all others.
    ReplaceAllNodes(BTreeMap<NID, N>),
}

impl<NID: NodeId, N: Node> ChangeMembers<NID, N> {
    ghost use Rattle.raft_members.specs.membership.ReplaceAll.{ReplacesAllBy};
    ghost use Rattle.raft_members.specs.membership.SameChange.{IsSameChange};

    /// Returns the change that makes these ids the voters in place of all others, or an allocation
    /// error. Repeated ids count once.
    pub fn replace_all(alloc: Global, voters: &[NID]) -> Result<Self, AllocError>
        ensures { IfOk result (λ change. ReplacesAllBy NID.eq voters.now change) }
    {
        let ids = ids::set_of(alloc, voters)?;
        Ok(ChangeMembers::ReplaceAllVoters(ids))
    }

    /// Returns an equal change with clones of the nodes, or an allocation error.
    pub fn try_clone(&self, alloc: Global) -> Result<Self, AllocError>
        requires clones_are_equal { ClonesAreEqual N.eq N.is_clone }
        ensures { IfOk result (IsSameChange NID.eq N.eq self.now) }
    {
        match self {
            ChangeMembers::AddVoterIds(ids) => {
                Ok(ChangeMembers::AddVoterIds(ids::copy(alloc, ids)?))
            }
            ChangeMembers::AddVoters(nodes) => {
                Ok(ChangeMembers::AddVoters(nodes::copy(alloc, nodes)?))
            }
            ChangeMembers::RemoveVoters(ids) => {
                Ok(ChangeMembers::RemoveVoters(ids::copy(alloc, ids)?))
            }
            ChangeMembers::ReplaceAllVoters(ids) => {
                Ok(ChangeMembers::ReplaceAllVoters(ids::copy(alloc, ids)?))
            }
            ChangeMembers::AddNodes(nodes) => {
                Ok(ChangeMembers::AddNodes(nodes::copy(alloc, nodes)?))
            }
            ChangeMembers::SetNodes(nodes) => {
                Ok(ChangeMembers::SetNodes(nodes::copy(alloc, nodes)?))
            }
            ChangeMembers::RemoveNodes(ids) => {
                Ok(ChangeMembers::RemoveNodes(ids::copy(alloc, ids)?))
            }
            ChangeMembers::ReplaceAllNodes(nodes) => {
                Ok(ChangeMembers::ReplaceAllNodes(nodes::copy(alloc, nodes)?))
            }
        }
    }
}
