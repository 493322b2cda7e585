//! Recording a snapshot that the node has built itself, and scheduling how far its log may be
//! purged then.
ghost use Rattle.std.specs.Prelude.{◌≡◌, None, Some, IsTrue};
ghost use Rattle.raft_state.specs.raft_state.BuiltSnapshot.{may_build_snapshot, may_schedule_purge};
ghost use Rattle.raft_state.specs.raft_state.Sound.{IsSound};
ghost use Rattle.raft_state.specs.raft_state.Valid.{broken_relation};

use crate::raft_state::RaftStateIn;
use crate::snapshot_meta::SnapshotMetaOf;
use raft_base::order::{index_at_most, log_id_at_most, log_id_below};
use raft_base::{Instant, LogIdOf, LogIdOptionExt, Node, NodeId};

impl<NID: NodeId, N: Node, I: Instant, L: Drop, C: Ord + Copy + Drop> RaftStateIn<NID, N, I, L, C> {
    /// Whether the precondition of `build_snapshot` holds: the snapshot's last log id is past the
    /// last snapshot's, at most the committed log id and at least the purge point, and its
    /// membership is not past it, by log id and by index.
    pub fn can_build_snapshot(&self, meta: &SnapshotMetaOf<C, NID, N>) -> bool
        ensures { result ≡ may_build_snapshot C.cmp meta.now self.now }
    {
        let upto = meta.last_log_id;
        let membership = *meta.last_membership.log_id();
        log_id_below(self.snapshot_meta.last_log_id, upto)
            && log_id_at_most(upto, self.committed)
            && log_id_at_most(self.purge_upto, upto)
            && log_id_at_most(membership, upto)
            && index_at_most(membership.index(), upto.index())
    }

    /// Records a snapshot that the node has built itself from what it has applied. It requires
    /// `can_build_snapshot`. Nothing is purged yet: call `schedule_purge` to set how far the log is
    /// to be purged. A valid state stays valid, and a sound one sound.
    pub fn build_snapshot(&mut self, meta: SnapshotMetaOf<C, NID, N>)
        requires { IsTrue (may_build_snapshot C.cmp meta self.old) }
        ensures recorded { self.new ≡ record self.old { snapshot_meta = meta } }
        ensures valid { broken_relation C.cmp self.old ≡ None →
            broken_relation C.cmp self.new ≡ None }
        ensures sound { IsSound C.eq C.cmp self.old → IsSound C.eq C.cmp self.new }
    {
        self.snapshot_meta = meta;
    }

    /// Whether the precondition of `schedule_purge` holds: the log has the log id, and it is not
    /// below the purge point and not past the last snapshot.
    pub fn can_schedule_purge(&self, upto: &LogIdOf<C>) -> bool
        ensures { result ≡ may_schedule_purge C.eq C.cmp upto.now self.now }
    {
        self.is_logged(&Some(*upto))
            && log_id_at_most(self.purge_upto, Some(*upto))
            && log_id_at_most(Some(*upto), self.snapshot_meta.last_log_id)
    }

    /// Makes a log id the purge point: the log is to be purged up to it, by `purge_log`, when
    /// nobody reads it any more. It requires `can_schedule_purge`. A valid state stays valid, and a
    /// sound one sound.
    pub fn schedule_purge(&mut self, upto: &LogIdOf<C>)
        requires { IsTrue (may_schedule_purge C.eq C.cmp upto.now self.old) }
        ensures scheduled { self.new ≡ record self.old { purge_upto = Some upto.now } }
        ensures valid { broken_relation C.cmp self.old ≡ None →
            broken_relation C.cmp self.new ≡ None }
        ensures sound { IsSound C.eq C.cmp self.old → IsSound C.eq C.cmp self.new }
    {
        self.purge_upto = Some(*upto);
    }
}
