//! Why a node may not start a new cluster.
ghost use Rattle.std.specs.Prelude.{◌≡◌, IfOk, IsOk, IsTrue};
ghost use Rattle.std.specs.Set.{ClonesAreEqual};
ghost use Rattle.raft_members.specs.membership.Members.{same_members};
ghost use Rattle.raft_members.specs.membership.InitializeError.{IsCopyOf, is_not_allowed};

use super::Membership;
use crate::error::NotAllowedIn;
use raft_base::{LeaderAdv, LeaderKind, Node, NodeId};
use std::alloc::AllocError;
use std::fmt::{Debug, Display};
use thiserror::Error;

/// Why a node may not start a new cluster.
#[derive(Debug, Clone, PartialEq, Eq, Drop, Error)]
pub enum InitializeErrorIn<
    L: Eq + Copy + Debug + Display,
    C: Ord + Copy + Default + Debug,
    NID: NodeId,
    N: Node,
> {
    /// The node has a log or has voted, so it belongs to a cluster.
    #[error(transparent)]
    NotAllowed(NotAllowedIn<L, C>),
    /// The node is not a member of the new cluster.
    #[error(transparent)]
    NotInMembers(NotInMembers<NID, N>),
}

/// Why a node may not start a new cluster, for a kind of leader ids.
pub type InitializeErrorOf<NID, N, K> = InitializeErrorIn<
    <K as LeaderKind<NID>>::Leader,
    <K as LeaderKind<NID>>::Committed,
    NID,
    N,
>;

/// Why a node may not start a new cluster, with the default leader ids.
pub type InitializeError<NID, N> = InitializeErrorOf<NID, N, LeaderAdv>;

/// A node may not start a new cluster of which it is not a member.
#[derive(Debug, Clone, PartialEq, Eq, Drop, Error)]
#[error("node {node_id} has to be a member. membership:{membership:?}")]
pub struct NotInMembers<NID: NodeId, N: Node> {
    /// The node.
    pub node_id: NID,
    /// The membership of the new cluster.
    pub membership: Membership<NID, N>,
}

impl<NID: NodeId, N: Node> NotInMembers<NID, N> {
    /// Returns an equal error with clones of the nodes, or an allocation error.
    pub fn try_clone(&self) -> Result<Self, AllocError>
        requires clones_are_equal { ClonesAreEqual N.eq N.is_clone }
        ensures node_id { IfOk result (λ copy. copy.node_id ≡ self.now.node_id) }
        ensures membership { IfOk result (λ copy.
            IsTrue (same_members NID.eq N.eq self.now.membership copy.membership)) }
    {
        Ok(NotInMembers {
            node_id: self.node_id,
            membership: self.membership.try_clone()?,
        })
    }
}

impl<
    L: Eq + Copy + Debug + Display,
    C: Ord + Copy + Default + Debug,
    NID: NodeId,
    N: Node,
> InitializeErrorIn<L, C, NID, N> {
    /// Returns an equal error with clones of the nodes, or an allocation error. If the error has no
    /// membership, it does not allocate.
    pub fn try_clone(&self) -> Result<Self, AllocError>
        requires clones_are_equal { ClonesAreEqual N.eq N.is_clone }
        ensures equal { IfOk result (IsCopyOf NID.eq N.eq self.now) }
        ensures no_memory { IsTrue (is_not_allowed self.now) → IsOk result }
    {
        Ok(match self {
            InitializeErrorIn::NotAllowed(refused) => {
                InitializeErrorIn::NotAllowed(NotAllowedIn {
                    last_log_id: refused.last_log_id,
                    vote: refused.vote,
                })
            }
            InitializeErrorIn::NotInMembers(refused) => {
                InitializeErrorIn::NotInMembers(refused.try_clone()?)
            }
        })
    }
}

impl<L: Eq + Copy + Debug + Display, C: Ord + Copy + Default + Debug, NID: NodeId, N: Node> From<
    NotAllowedIn<L, C>,
> for InitializeErrorIn<L, C, NID, N> {
    ghost use Rattle.raft_members.specs.declared.membership.initialize_error.InitializeErrorIn.TheVariants.{NotAllowed};

    ghost from_gives = { λ refused e. e ≡ NotAllowed refused };

    fn from(refused: NotAllowedIn<L, C>) -> Self {
        InitializeErrorIn::NotAllowed(refused)
    }
}

impl<L: Eq + Copy + Debug + Display, C: Ord + Copy + Default + Debug, NID: NodeId, N: Node> From<
    NotInMembers<NID, N>,
> for InitializeErrorIn<L, C, NID, N> {
    ghost use Rattle.raft_members.specs.declared.membership.initialize_error.InitializeErrorIn.TheVariants.{NotInMembers};

    ghost from_gives = { λ refused e. e ≡ NotInMembers refused };

    fn from(refused: NotInMembers<NID, N>) -> Self {
        InitializeErrorIn::NotInMembers(refused)
    }
}
