//! The progress of a membership's voters and learners, with the membership kept apart from it.
ghost use Rattle.std.specs.Prelude.{◌≡◌, ◌↔◌, IfOk, IsTrue};
ghost use Rattle.raft_members.specs.membership.Learners.{learners_of};
ghost use Rattle.raft_members.specs.quorum.Majority.{is_voter_of};
ghost use Rattle.raft_progress.specs.progress.InOrder.{IsInOrder};
ghost use Rattle.raft_progress.specs.progress.ProgressView.{state};
ghost use Rattle.raft_progress.specs.progress.Upgrade.{CanUpgrade, IsUpgraded};
ghost use Rattle.raft_progress.specs.progress.UpgradeFold.{IsUpgradeFold};
ghost use Rattle.raft_progress.specs.progress.VecProgress.{view};
ghost use Rattle.raft_progress.specs.tracked.Over.{over};
ghost use Rattle.raft_progress.specs.tracked.TrackedNew.{BeginsOver};
ghost use Rattle.raft_progress.specs.tracked.TrackedState.{IsReady, has_quorum, is_voter};

use super::{learners_of, sides_of};
use crate::progress::{Progress, ProgressPart, VecProgress};
use raft_base::{Node, NodeId};
use raft_members::membership::{Configs, Membership};
use std::alloc::AllocError;

/// The functions of a `MembershipProgress` beside those of any progress. Voters and learners are
/// those of one membership, so they fit.
impl<NID: NodeId, V: ProgressPart<P>, P: Copy + Ord> VecProgress<NID, V, P, Configs<NID>> {
    /// Returns a new progress of a membership's voters, with the quorums of its configs, and of its
    /// learners, ascending, or an allocation error. Each id has a clone of the default.
    pub fn of<N: Node>(membership: &Membership<NID, N>, default: V) -> Result<Self, AllocError>
    where
        V: Clone,
        requires clones_have_the_part { (w : V) → V.is_clone default w →
            V.part_of w ≡ V.part_of default }
        ensures begins { IfOk result (λ made.
            BeginsOver NID.eq NID.cmp P.cmp V.part_of V.is_clone default
            (over membership.now (view made))) }
        ensures ready { IfOk result (λ made.
            IsReady NID.eq NID.cmp P.cmp V.part_of (over membership.now (view made))) }
    {
        let alloc = *membership.get_joint_config().allocator();
        let configs = membership.to_quorum_set()?;
        let learners = learners_of(alloc, membership)?;
        VecProgress::new(alloc, configs, &learners, default)
    }

    /// Whether no value that `upgraded_to` would inherit is below the new default.
    ///
    /// This is a precondition of `upgraded_to`. The test returns an error if an allocation fails.
    pub fn can_upgrade_to<N: Node>(
        &self,
        membership: &Membership<NID, N>,
        default: &V,
    ) -> Result<bool, AllocError>
        ensures { IfOk result (λ can. IsTrue can ↔ CanUpgrade NID.eq P.cmp V.part_of
            (is_voter_of NID.eq membership.now.configs) (learners_of NID.eq membership.now)
            default.now (state NID.eq (view self.now)).value) }
    {
        let alloc = *membership.get_joint_config().allocator();
        let configs = membership.to_quorum_set()?;
        let learners = learners_of(alloc, membership)?;
        self.can_upgrade(&configs, &learners, default)
    }

    /// Returns a progress with another membership that inherits the values of the ids that stay, or
    /// an allocation error. All others have a clone of the default. `self` stays as it is.
    pub fn upgraded_to<N: Node>(
        &self,
        membership: &Membership<NID, N>,
        default: V,
    ) -> Result<Self, AllocError>
    where
        V: Clone,
        requires ordered { IsInOrder NID.eq P.cmp V.part_of (has_quorum NID.eq) (view self.now) }
        requires clones_have_the_part { (v w : V) → V.is_clone v w → V.part_of w ≡ V.part_of v }
        requires can_upgrade { CanUpgrade NID.eq P.cmp V.part_of
            (is_voter_of NID.eq membership.now.configs) (learners_of NID.eq membership.now)
            default (state NID.eq (view self.now)).value }
        ensures made { IfOk result (λ made. IsUpgraded NID.eq V.is_clone V.part_of
            (is_voter NID.eq (view made).quorum_set) (view made).quorum_set
            (learners_of NID.eq membership.now) default (state NID.eq (view self.now)).value
            (state NID.eq (view made))) }
        ensures fold { IfOk result (λ made. IsUpgradeFold NID.eq NID.cmp P.cmp V.part_of V.is_clone
            (has_quorum NID.eq) (is_voter NID.eq) (view self.now) (view made).quorum_set
            (learners_of NID.eq membership.now) default (view made)) }
        ensures ready { IfOk result (λ made.
            IsReady NID.eq NID.cmp P.cmp V.part_of (over membership.now (view made))) }
    {
        let alloc = *membership.get_joint_config().allocator();
        let configs = membership.to_quorum_set()?;
        let learners = learners_of(alloc, membership)?;
        let mut made = VecProgress::new(alloc, configs, &learners, default)?;
        let sides = sides_of(membership, &made)?;
        made.take_over(self, sides.as_ref())?;
        Ok(made)
    }
}
