//! The metadata of a snapshot.
ghost use Rattle.std.specs.Prelude.{IfOk, IsOkAnd};
ghost use Rattle.std.specs.Set.{ClonesAreEqual};

use raft_base::{CommittedLeaderId, LogIdOf, Node, NodeId};
use raft_members::StoredMembershipOf;
use std::alloc::{AllocError, Global};
use std::fmt;

/// The metadata of a snapshot of the state machine: its last log id, and the membership there.
#[derive(Clone, PartialEq, Eq, Drop)]
pub struct SnapshotMetaOf<C, NID: NodeId, N: Node> {
    /// The last log id that is in the snapshot.
    pub last_log_id: Option<LogIdOf<C>>,
    /// The last membership that is in the snapshot.
    pub last_membership: StoredMembershipOf<C, NID, N>,
    /// The name of the snapshot. Snapshots with different names may have different bytes.
    pub snapshot_id: String,
}

/// The metadata of a snapshot, with the default leader ids.
pub type SnapshotMeta<NID, N> = SnapshotMetaOf<CommittedLeaderId<NID>, NID, N>;

impl<C: Copy, NID: NodeId, N: Node> SnapshotMetaOf<C, NID, N> {
    ghost use Rattle.raft_state.specs.SnapshotMeta.{IsNoSnapshot, IsSnapshotCopy};

    /// Returns the metadata of no snapshot. It replaces `Default`, which has no allocator. It never
    /// allocates, so the result is always `Ok`.
    pub fn try_default(alloc: Global) -> Result<Self, AllocError>
        ensures { IsOkAnd result IsNoSnapshot }
    {
        Ok(SnapshotMetaOf {
            last_log_id: None,
            last_membership: StoredMembershipOf::try_default(alloc)?,
            snapshot_id: String::new(alloc),
        })
    }

    /// Returns equal metadata with clones of the nodes, or an allocation error.
    pub fn try_clone(&self) -> Result<Self, AllocError>
        requires clones_are_equal { ClonesAreEqual N.eq N.is_clone }
        ensures { IfOk result (IsSnapshotCopy NID.eq N.eq self.now) }
    {
        Ok(SnapshotMetaOf {
            last_log_id: self.last_log_id,
            last_membership: self.last_membership.try_clone()?,
            snapshot_id: self.snapshot_id.clone()?,
        })
    }
}

// Handwritten, because the text has the name `SnapshotMeta` and not `SnapshotMetaOf`.
impl<C: fmt::Debug, NID: NodeId, N: Node> fmt::Debug for SnapshotMetaOf<C, NID, N> {
    fn fmt<W: fmt::Write>(&self, f: &mut fmt::Formatter<W>) -> fmt::Result {
        f.debug_struct("SnapshotMeta")
            .field("last_log_id", &self.last_log_id)
            .field("last_membership", &self.last_membership)
            .field("snapshot_id", &self.snapshot_id)
            .finish()
    }
}
