//! The errors of a node's operations: a refused change of the membership, a refused start of a
//! cluster, a missing log entry, and a request that only the leader serves.
ghost use Rattle.std.specs.Prelude.{◌≡◌, Some, None, IfOk, IsOk, IsTrue};
ghost use Rattle.std.specs.Option.{option_eq};
ghost use Rattle.std.specs.Set.{ClonesAreEqual};

use raft_base::{CommittedLeaderId, LeaderAdv, LeaderKind, LogIdOf, Node, NodeId, VoteIn};
use std::alloc::AllocError;
use std::collections::BTreeSet;
use std::fmt;
use std::fmt::{Debug, Display};
use thiserror::Error;

/// Why a change of a membership is refused.
#[derive(Debug, Clone, PartialEq, Eq, Drop, Error)]
pub enum ChangeMembershipErrorOf<C: Ord + Copy + Default + Debug, NID: NodeId> {
    /// An earlier change is not committed yet.
    #[error(transparent)]
    InProgress(InProgressOf<C>),
    /// A config would be empty.
    #[error(transparent)]
    EmptyMembership(EmptyMembership),
    /// A voter would have no node.
    #[error(transparent)]
    LearnerNotFound(LearnerNotFound<NID>),
    /// An allocation failed.
    #[error("out of memory")]
    OutOfMemory,
}

/// Why a change of a membership is refused, with the default leader ids.
pub type ChangeMembershipError<NID> = ChangeMembershipErrorOf<CommittedLeaderId<NID>, NID>;

/// An earlier change of the membership is not committed yet.
#[derive(Clone, PartialEq, Eq, Drop, Error)]
#[error("the cluster is already undergoing a configuration change at log {membership_log_id:?}, last committed membership log id: {committed:?}")]
pub struct InProgressOf<C: Ord + Copy + Default + Debug> {
    /// The log id of the last committed membership.
    pub committed: Option<LogIdOf<C>>,
    /// The log id of the membership that is not committed yet.
    pub membership_log_id: Option<LogIdOf<C>>,
}

/// An earlier change is not committed yet, with the default leader ids.
pub type InProgress<NID> = InProgressOf<CommittedLeaderId<NID>>;

impl<C: Ord + Copy + Default + Debug> Debug for InProgressOf<C> {
    fn fmt<W: fmt::Write>(&self, f: &mut fmt::Formatter<W>) -> fmt::Result {
        f.debug_struct("InProgress")
            .field("committed", &self.committed)
            .field("membership_log_id", &self.membership_log_id)
            .finish()
    }
}

/// A config would have no voters.
#[derive(Debug, Clone, PartialEq, Eq, Drop, Error)]
#[error("new membership can not be empty")]
pub struct EmptyMembership {}

/// A voter would have no node: it has to be a learner first.
#[derive(Debug, Clone, PartialEq, Eq, Drop, Error)]
#[error("Learner {node_id} not found: add it as learner before adding it as a voter")]
pub struct LearnerNotFound<NID: NodeId> {
    /// The least such voter.
    pub node_id: NID,
}

impl<C: Ord + Copy + Default + Debug, NID: NodeId> From<InProgressOf<C>>
    for ChangeMembershipErrorOf<C, NID> {
    ghost use Rattle.raft_members.specs.declared.error.ChangeMembershipErrorOf.TheVariants.{InProgress};

    ghost from_gives = { λ refused e. e ≡ InProgress refused };

    fn from(refused: InProgressOf<C>) -> Self {
        ChangeMembershipErrorOf::InProgress(refused)
    }
}

impl<C: Ord + Copy + Default + Debug, NID: NodeId> From<EmptyMembership>
    for ChangeMembershipErrorOf<C, NID> {
    ghost use Rattle.raft_members.specs.declared.error.ChangeMembershipErrorOf.TheVariants.{EmptyMembership};

    ghost from_gives = { λ refused e. e ≡ EmptyMembership refused };

    fn from(refused: EmptyMembership) -> Self {
        ChangeMembershipErrorOf::EmptyMembership(refused)
    }
}

impl<C: Ord + Copy + Default + Debug, NID: NodeId> From<LearnerNotFound<NID>>
    for ChangeMembershipErrorOf<C, NID> {
    ghost use Rattle.raft_members.specs.declared.error.ChangeMembershipErrorOf.TheVariants.{LearnerNotFound};

    ghost from_gives = { λ refused e. e ≡ LearnerNotFound refused };

    fn from(refused: LearnerNotFound<NID>) -> Self {
        ChangeMembershipErrorOf::LearnerNotFound(refused)
    }
}

impl<C: Ord + Copy + Default + Debug, NID: NodeId> From<AllocError>
    for ChangeMembershipErrorOf<C, NID> {
    ghost use Rattle.raft_members.specs.declared.error.ChangeMembershipErrorOf.TheVariants.{OutOfMemory};

    ghost from_gives = { λ _ e. e ≡ OutOfMemory };

    fn from(_refused: AllocError) -> Self {
        ChangeMembershipErrorOf::OutOfMemory
    }
}

/// Only the leader serves the request. It names the leader, if the leader is known.
#[derive(Debug, Clone, PartialEq, Eq, Drop, Error)]
#[error("has to forward request to: {leader_id:?}, {leader_node:?}")]
pub struct ForwardToLeader<NID: NodeId, N: Node> {
    /// The leader's id.
    pub leader_id: Option<NID>,
    /// The leader.
    pub leader_node: Option<N>,
}

impl<NID: NodeId, N: Node> ForwardToLeader<NID, N> {
    /// Returns the error for an unknown leader.
    pub fn empty() -> Self
        ensures { result ≡ record { leader_id = None; leader_node = None } }
    {
        ForwardToLeader {
            leader_id: None,
            leader_node: None,
        }
    }

    /// Returns the error that names this leader.
    pub fn new(leader_id: NID, node: N) -> Self
        ensures { result ≡ record { leader_id = Some leader_id; leader_node = Some node } }
    {
        ForwardToLeader {
            leader_id: Some(leader_id),
            leader_node: Some(node),
        }
    }

    /// Returns an equal error with a clone of the node, or an allocation error. It does not
    /// allocate if there is no node.
    pub fn try_clone(&self) -> Result<Self, AllocError>
        requires clones_are_equal { ClonesAreEqual N.eq N.is_clone }
        ensures leader_id { IfOk result (λ copy. copy.leader_id ≡ self.now.leader_id) }
        ensures leader_node { IfOk result (λ copy.
            IsTrue (option_eq N.eq self.now.leader_node copy.leader_node)) }
        ensures no_memory { self.now.leader_node ≡ None → IsOk result }
    {
        Ok(ForwardToLeader {
            leader_id: self.leader_id,
            leader_node: self.leader_node.clone()?,
        })
    }
}

/// A log has no entry at an index: it is purged, or not written yet.
#[derive(Clone, PartialEq, Eq, Drop, Error)]
#[error("store has no log at: {index:?}, last purged: {last_purged_log_id:?}")]
pub struct LackEntryOf<C: Ord + Copy + Default + Debug> {
    /// The index, if it is known.
    pub index: Option<u64>,
    /// The last log id that is purged.
    pub last_purged_log_id: Option<LogIdOf<C>>,
}

/// A log has no entry at an index, with the default leader ids.
pub type LackEntry<NID> = LackEntryOf<CommittedLeaderId<NID>>;

// Handwritten, because the text has the name `LackEntry` and not `LackEntryOf`.
impl<C: Ord + Copy + Default + Debug> Debug for LackEntryOf<C> {
    fn fmt<W: fmt::Write>(&self, f: &mut fmt::Formatter<W>) -> fmt::Result {
        f.debug_struct("LackEntry")
            .field("index", &self.index)
            .field("last_purged_log_id", &self.last_purged_log_id)
            .finish()
    }
}

/// The nodes that responded are not a quorum of the cluster.
#[derive(Debug, Clone, PartialEq, Eq, Drop, Error)]
#[error("not enough for a quorum, cluster: {cluster}, got: {got:?}")]
pub struct QuorumNotEnough<NID: NodeId> {
    /// The cluster's membership, as a text.
    pub cluster: String,
    /// The nodes that responded.
    pub got: BTreeSet<NID>,
}

/// A node may not start a new cluster, because it has a log or has voted.
#[derive(Clone, PartialEq, Eq, Drop, Error)]
#[error("not allowed to initialize due to current raft state: last_log_id: {last_log_id:?} vote: {vote}")]
pub struct NotAllowedIn<L: Eq + Copy + Debug + Display, C: Ord + Copy + Default + Debug> {
    /// The log id of the node's last log entry.
    pub last_log_id: Option<LogIdOf<C>>,
    /// The node's vote.
    pub vote: VoteIn<L>,
}

/// A node may not start a new cluster, for a kind of leader ids.
pub type NotAllowedOf<NID, K> = NotAllowedIn<
    <K as LeaderKind<NID>>::Leader,
    <K as LeaderKind<NID>>::Committed,
>;

/// A node may not start a new cluster, with the default leader ids.
pub type NotAllowed<NID> = NotAllowedOf<NID, LeaderAdv>;

// Handwritten, because the text has the name `NotAllowed` and not `NotAllowedIn`.
impl<L: Eq + Copy + Debug + Display, C: Ord + Copy + Default + Debug> Debug for NotAllowedIn<L, C> {
    fn fmt<W: fmt::Write>(&self, f: &mut fmt::Formatter<W>) -> fmt::Result {
        f.debug_struct("NotAllowed")
            .field("last_log_id", &self.last_log_id)
            .field("vote", &self.vote)
            .finish()
    }
}
