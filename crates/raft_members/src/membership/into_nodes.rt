//! Sources of the nodes of a membership.
ghost use Rattle.std.specs.Prelude.{◌≡◌, List, [], IfOk, IsOk, IsNone, MatchOption};
ghost use Rattle.std.specs.Set.{is_member};
ghost use Rattle.raft_members.specs.membership.Defaults.{HasDefaults};

use super::defaults::with_defaults;
use super::ids::list_of;
use raft_base::{Node, NodeId};
use std::alloc::{AllocError, Global};
use std::collections::{BTreeMap, BTreeSet};

/// A source of nodes: `()` for none, a `BTreeSet` of ids with default nodes, which may be optional,
/// or a `BTreeMap` of the nodes themselves.
pub trait IntoNodes<NID: NodeId, N: Node>: Sized {
    /// Whether these are the nodes, as entries in the order of their ids.
    ghost gives: { Self → List (NID × N) → Type 0 };

    /// If this holds, `into_nodes` does not allocate and succeeds.
    ghost takes_no_memory: { Self → Type 0 };

    /// Returns the nodes, or an allocation error.
    fn into_nodes(self, alloc: Global) -> Result<BTreeMap<NID, N>, AllocError>
        ensures nodes { IfOk result (λ nodes. gives self nodes.entries) }
        ensures made { takes_no_memory self → IsOk result };
}

/// No nodes.
impl<NID: NodeId, N: Node> IntoNodes<NID, N> for () {
    ghost gives = { λ _ nodes. nodes ≡ [] };

    ghost takes_no_memory = { λ _. Unit {0} };

    fn into_nodes(self, alloc: Global) -> Result<BTreeMap<NID, N>, AllocError> {
        Ok(BTreeMap::new(alloc))
    }
}

/// A default node at each id.
impl<NID: NodeId, N: Node> IntoNodes<NID, N> for BTreeSet<NID> {
    ghost gives = { λ ids nodes.
        HasDefaults N.is_default_node NID.cmp [] (is_member NID.eq ids.keys) nodes };

    ghost takes_no_memory = { λ _. ⊥ };

    fn into_nodes(self, alloc: Global) -> Result<BTreeMap<NID, N>, AllocError> {
        let ids = list_of(alloc, &self)?;
        with_defaults(BTreeMap::new(alloc), alloc, &ids)
    }
}

/// A default node at each id, if there is a set.
impl<NID: NodeId, N: Node> IntoNodes<NID, N> for Option<BTreeSet<NID>> {
    ghost gives = { λ given nodes. MatchOption given (nodes ≡ [])
        (λ ids. HasDefaults N.is_default_node NID.cmp [] (is_member NID.eq ids.keys) nodes) };

    ghost takes_no_memory = { λ given. IsNone given };

    fn into_nodes(self, alloc: Global) -> Result<BTreeMap<NID, N>, AllocError> {
        match self {
            None => Ok(BTreeMap::new(alloc)),
            Some(ids) => ids.into_nodes(alloc),
        }
    }
}

/// The nodes themselves.
impl<NID: NodeId, N: Node> IntoNodes<NID, N> for BTreeMap<NID, N> {
    ghost gives = { λ given nodes. nodes ≡ given.entries };

    ghost takes_no_memory = { λ _. Unit {0} };

    fn into_nodes(self, _alloc: Global) -> Result<BTreeMap<NID, N>, AllocError> {
        Ok(self)
    }
}
