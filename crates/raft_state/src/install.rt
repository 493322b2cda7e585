//! Installing a leader's snapshot in place of the log up to its last log id.
ghost use Rattle.std.specs.Prelude.{◌≡◌, ◌&&◌, None, Some, IsTrue, IfOk, IfSome, OnOk, OnErr};
ghost use Rattle.std.specs.Set.{ClonesAreEqual};
ghost use Rattle.raft_state.specs.log_id_list.FullLog.{full_log};
ghost use Rattle.raft_base.specs.LogId.{id_le, same_ids};
ghost use Rattle.raft_base.specs.LogIndex.{index_le};
ghost use Rattle.raft_members.specs.membership.Stored.{log_id_of};
ghost use Rattle.raft_state.specs.raft_state.Install.{is_logged, is_not_past, is_past_committed, keeps_committed, keeps_effective, may_install, log_to_keep, log_after_install, memberships_after_install, state_after_install};
ghost use Rattle.raft_state.specs.log_id_list.LogConditions.{can_purge};
ghost use Rattle.raft_state.specs.log_id_list.LogReads.{last_id};
ghost use Rattle.raft_state.specs.membership_state.Memberships.{index_at};
ghost use Rattle.raft_state.specs.SnapshotMeta.{IsSnapshotCopy};
ghost use Rattle.raft_state.specs.raft_state.Sound.{IsSound};
ghost use Rattle.raft_state.specs.raft_state.VoteAndLog.{log_view_of};
ghost use Rattle.raft_state.specs.raft_state.Valid.{broken_relation, none_or_logged};

use crate::log_id_list::LogIdListOf;
use crate::membership_state::MembershipStateOf;
use crate::raft_state::RaftStateIn;
use crate::snapshot_meta::SnapshotMetaOf;
use raft_base::order::{index_at_most, index_below, log_id_at_most, log_id_below};
use raft_base::{Instant, LeaderIdentity, LogIdOf, LogIdOptionExt, Node, NodeId};
use raft_members::{EffectiveMembershipOf, StoredMembershipOf};
use std::alloc::{AllocError, Global};
use std::rc::Rc;

impl<
    NID: NodeId,
    N: Node,
    I: Instant,
    C: Ord + Copy + Default + Drop + 'static,
    L: LeaderIdentity<Id = NID, Committed = C> + Drop,
> RaftStateIn<NID, N, I, L, C> {
    /// Whether the preconditions of `install_snapshot` hold:
    ///
    /// - Its last log id is past what is committed, by log id and by index, and an index is after
    ///   it.
    /// - Its membership is not past its last log id, by log id and by index.
    /// - `can_accept` is true.
    /// - The committed membership is not above the snapshot's, by log id and by index, unless the
    ///   log has the snapshot's last log id and the committed membership is in the log past it.
    /// - If the log has the snapshot's last log id and the effective membership is past it, the
    ///   effective membership is not below the snapshot's.
    ///
    /// A snapshot that is not past what is committed contains nothing new.
    pub fn can_install_snapshot(&self, meta: &SnapshotMetaOf<C, NID, N>) -> bool
        ensures { result ≡ may_install L.order C.cmp C.eq meta.now self.now }
    {
        match meta.last_log_id {
            None => false,
            Some(upto) => {
                self.is_past_committed(upto)
                    && is_not_past(&meta.last_membership, upto)
                    && self.can_accept()
                    && self.keeps_committed(upto, &meta.last_membership)
                    && self.keeps_effective(upto, &meta.last_membership)
            }
        }
    }

    /// Installs a leader's snapshot in place of the log up to its last log id. It requires
    /// `can_install_snapshot`. That log id is then committed, accepted from the vote's leader, and
    /// the purge point, and the log is purged to it. The snapshot's membership is the committed
    /// one, unless one past it in the log is already known to be committed. If the log does not
    /// have that log id, all of the log is dropped, with its memberships, because the snapshot has
    /// all that was committed. A valid state stays valid, and a sound one sound.
    ///
    /// The progress of storage is left as it is. When storage has the snapshot, the caller writes
    /// to `io_state_mut`, by `update_applied` and `update_snapshot` if its log id is above theirs,
    /// and by `update_purged`.
    ///
    /// After an error nothing has changed.
    pub fn install_snapshot(&mut self, meta: SnapshotMetaOf<C, NID, N>) -> Result<(), AllocError>
        requires clones_are_equal { ClonesAreEqual N.eq N.is_clone }
        requires may { IsTrue (may_install L.order C.cmp C.eq meta self.old) }
        ensures log { OnOk result (IfSome meta.last_log_id (λ upto.
            full_log self.new.log_ids ≡ log_after_install C.eq upto self.old)) }
        ensures snapshot { OnOk result
            (IsSnapshotCopy NID.eq N.eq meta self.new.snapshot_meta) }
        ensures ok { OnOk result (IfSome meta.last_log_id (λ upto. self.new ≡ record
            (state_after_install L.eq C.cmp C.eq upto meta.last_membership self.old) {
              log_ids = self.new.log_ids;
              snapshot_meta = self.new.snapshot_meta;
            })) }
        ensures err { OnErr result (self.new ≡ self.old) }
        ensures valid { broken_relation C.cmp self.old ≡ None →
            broken_relation C.cmp self.new ≡ None }
        ensures sound { IsSound C.eq C.cmp self.old → IsSound C.eq C.cmp self.new }
        ensures committed { OnOk result (self.new.committed ≡ meta.last_log_id) }
        ensures purge_point { OnOk result (self.new.purge_upto ≡ meta.last_log_id) }
        ensures logged { OnOk result
            (IsTrue (none_or_logged C.eq (log_view_of self.new) meta.last_log_id)) }
        ensures own_membership { OnOk result (IfSome meta.last_log_id (λ upto. IsTrue
            (index_le (index_at self.old.membership_state.committed) (Some upto.index)) →
            IsTrue (same_ids C.eq (log_id_of self.new.membership_state.committed)
            (log_id_of meta.last_membership)))) }
        ensures monotone { OnOk result (broken_relation C.cmp self.old ≡ None →
            IsTrue (id_le C.cmp (log_id_of self.old.membership_state.committed)
            (log_id_of self.new.membership_state.committed))) }
    {
        let SnapshotMetaOf {
            last_log_id,
            last_membership,
            snapshot_id,
        } = meta;
        let Some(upto) = last_log_id else {
            return Ok(());
        };
        // This read is for the proof: by its contract the keys are in order.
        let _keys = self.log_ids.key_log_ids();
        let copy = last_membership.try_clone()?;
        let alloc = *last_membership.membership().get_joint_config().allocator();
        let log_ids = self.log_after_install(alloc, upto)?;
        let membership_state = self.memberships_after_install(upto, last_membership)?;
        self.update_accepted(Some(upto));
        self.committed = Some(upto);
        self.purged_next = upto.index + 1;
        self.log_ids = log_ids;
        self.accepted.keep_upto(self.log_ids.last().copied());
        self.membership_state = membership_state;
        self.snapshot_meta = SnapshotMetaOf {
            last_log_id: Some(upto),
            last_membership: copy,
            snapshot_id,
        };
        self.purge_upto = Some(upto);
        Ok(())
    }
}

impl<NID: NodeId, N: Node, I: Instant, L: Drop, C: Ord + Copy + Drop> RaftStateIn<NID, N, I, L, C> {
    /// Whether a log id is past what is committed, and has an index after it.
    fn is_past_committed(&self, upto: LogIdOf<C>) -> bool
        ensures { result ≡ is_past_committed C.cmp upto self.now }
    {
        log_id_below(self.committed, Some(upto))
            && index_below(self.committed.index(), Some(upto.index))
            && upto.index != u64::MAX
    }

    /// Whether a snapshot with this membership loses no committed membership.
    fn keeps_committed(&self, upto: LogIdOf<C>, stored: &StoredMembershipOf<C, NID, N>) -> bool
        ensures { result ≡ keeps_committed C.cmp C.eq upto stored.now self.now }
    {
        let committed = *self.membership_state.committed().log_id();
        let new = *stored.log_id();
        (log_id_at_most(committed, new) && index_at_most(committed.index(), new.index()))
            || (self.is_logged(&Some(upto)) && index_below(Some(upto.index), committed.index()))
    }

    /// Whether the effective membership is not below a snapshot's, if it is in the log past the
    /// snapshot.
    fn keeps_effective(&self, upto: LogIdOf<C>, stored: &StoredMembershipOf<C, NID, N>) -> bool
        ensures { result ≡ keeps_effective C.cmp C.eq upto stored.now self.now }
    {
        let effective = *self.membership_state.effective().log_id();
        !self.is_logged(&Some(upto))
            || index_at_most(effective.index(), Some(upto.index))
            || log_id_at_most(*stored.log_id(), effective)
    }

    /// Returns the log ids after a snapshot is installed. If the log has the snapshot's last log
    /// id, the log is purged to it, and what is past it stays. Otherwise nothing of the log stays.
    fn log_after_install(
        &self,
        alloc: Global,
        upto: LogIdOf<C>,
    ) -> Result<LogIdListOf<C>, AllocError>
        requires { IsTrue (can_purge C.cmp (last_id (log_to_keep C.eq upto self.now)) upto) }
        ensures { IfOk result (λ log. full_log log ≡ log_after_install C.eq upto self.now) }
    {
        let mut log_ids = if self.is_logged(&Some(upto)) {
            self.log_ids.try_clone()?
        } else {
            LogIdListOf::try_default(alloc)?
        };
        log_ids.purge(&upto)?;
        Ok(log_ids)
    }

    /// Returns the memberships after a snapshot with this membership is installed. If the log has
    /// the snapshot's last log id, the membership is taken over. Otherwise no other one stays.
    fn memberships_after_install(
        &self,
        upto: LogIdOf<C>,
        stored: StoredMembershipOf<C, NID, N>,
    ) -> Result<MembershipStateOf<C, NID, N>, AllocError>
        ensures { IfOk result (λ m. m ≡ memberships_after_install C.cmp C.eq upto stored self.now) }
    {
        let alloc = *stored.membership().get_joint_config().allocator();
        let effective = EffectiveMembershipOf::new_from_stored_membership(stored)?;
        let membership = Rc::new(alloc, effective)?;
        if !self.is_logged(&Some(upto)) {
            return Ok(MembershipStateOf::new(membership.clone()?, membership));
        }
        let mut memberships = self.membership_state.try_clone()?;
        memberships.take_over(membership, upto.index)?;
        Ok(memberships)
    }
}

/// Whether a membership is not past a log id, by log id and by index.
fn is_not_past<C: Ord + Copy, NID: NodeId, N: Node>(
    stored: &StoredMembershipOf<C, NID, N>,
    upto: LogIdOf<C>,
) -> bool
    ensures { result ≡ is_not_past C.cmp upto stored.now }
{
    let log_id = *stored.log_id();
    log_id_at_most(log_id, Some(upto)) && index_at_most(log_id.index(), Some(upto.index))
}
