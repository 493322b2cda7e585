//! How the membership changes, and the progress with it. The methods are in the order of their
//! calls.
ghost use Rattle.std.specs.Prelude.{◌≡◌, IfErr, IfOk, None, Ok, OnErr, Some};
ghost use Rattle.std.specs.Option.{ForSome};
ghost use Rattle.std.specs.Set.{ClonesAreEqual};
ghost use Rattle.raft_members.specs.membership.Learners.{learners_of};
ghost use Rattle.raft_members.specs.quorum.Majority.{is_voter_of};
ghost use Rattle.raft_members.specs.membership.Members.{members_of};
ghost use Rattle.raft_progress.specs.Inner.Refusal.{refusal_reply};
ghost use Rattle.raft_progress.specs.Inner.ViewAnswers.{IsViewChange};
ghost use Rattle.raft_progress.specs.progress.ProgressView.{state};
ghost use Rattle.raft_progress.specs.progress.Upgrade.{CanUpgrade, IsLeastBelow};
ghost use Rattle.raft_progress.specs.tracked.SingleSteps.{IsTrackedChangeTo};
ghost use Rattle.raft_progress.specs.tracked.Tracked.{ChangedQuorumsHaveGranted, GrantedIsCounted, QuorumsHaveGranted, TrackedIsReady, tracked_view};
ghost use Rattle.raft_progress.specs.tracked.TrackedState.{AreLearners, HasConfigs, is_voter};
ghost use Rattle.raft_progress.specs.declared.progress.steps.Reply.TheVariants.{BelowDefault};

use super::{Tracked, learners_of, sides_of};
use crate::progress::{Progress, ProgressPart, Reply, VecProgress};
use raft_base::{Node, NodeId};
use raft_members::change_members::ChangeMembers;
use raft_members::error::ChangeMembershipError;
use raft_members::membership::{Configs, Membership};
use std::alloc::AllocError;

impl<NID: NodeId, N: Node, V: ProgressPart<P> + Clone, P: Copy + Ord> Tracked<NID, N, V, P> {
    /// Changes the membership and upgrades the progress to the changed one, or leaves both as they
    /// are. Returns the reply.
    pub(super) fn change_members(
        &mut self,
        change: ChangeMembers<NID, N>,
        retain: bool,
        default: V,
    ) -> Reply<NID, P>
        requires clones_have_the_part { (v w : V) → V.is_clone v w → V.part_of w ≡ V.part_of v }
        requires clones_are_equal { ClonesAreEqual N.eq N.is_clone }
        ensures { IsViewChange NID.eq NID.cmp N.eq P.cmp V.part_of V.is_clone
            (tracked_view self.old) change retain default result (tracked_view self.new) }
    {
        let made = self.membership.change(change, retain);
        self.answer_change(made, default)
    }

    /// Upgrades to the changed membership, unless the change was refused. Returns the refusal, or
    /// granted after the upgrade.
    // A separate function, so that a clause states that the refusal is returned. The clauses of
    // `change_members` allow an allocation failure in place of any refusal.
    fn answer_change(
        &mut self,
        made: Result<Membership<NID, N>, ChangeMembershipError<NID>>,
        default: V,
    ) -> Reply<NID, P>
        requires clones_have_the_part { (v w : V) → V.is_clone v w → V.part_of w ≡ V.part_of v }
        ensures refused { IfErr made (λ e. (result ≡ refusal_reply e)
            × (tracked_view self.new ≡ tracked_view self.old)) }
        ensures changed { IfOk made (λ next. IsTrackedChangeTo NID.eq NID.cmp P.cmp V.part_of
            V.is_clone
            (tracked_view self.old) next default result (tracked_view self.new)) }
    {
        match made {
            Ok(next) => self.change_to(next, default),
            Err(ChangeMembershipError::EmptyMembership(_)) => Reply::Refused(None),
            Err(ChangeMembershipError::LearnerNotFound(missing)) => Reply::Refused(Some(
                missing.node_id,
            )),
            // A change of a membership alone is never in progress.
            Err(ChangeMembershipError::InProgress(_) | ChangeMembershipError::OutOfMemory) => {
                Reply::OutOfMemory
            }
        }
    }

    /// Switches to the given membership, for example one that came through a leader's log, and to
    /// its voters and learners. Ids that stay keep their values, and all others have the default.
    ///
    /// The reply is `Granted`. Otherwise it is `BelowDefault` with the least id that stays and
    /// whose value is below the default, or `OutOfMemory`, and all is as it was.
    pub fn change_to(&mut self, membership: Membership<NID, N>, default: V) -> Reply<NID, P>
        requires clones_have_the_part { (v w : V) → V.is_clone v w → V.part_of w ≡ V.part_of v }
        ensures step { IsTrackedChangeTo NID.eq NID.cmp P.cmp V.part_of V.is_clone
            (tracked_view self.old) membership default result (tracked_view self.new) }
        ensures ready { TrackedIsReady self.new }
        ensures granted { GrantedIsCounted self.new }
        ensures quorums { QuorumsHaveGranted self.new }
        ensures changed_quorums { ChangedQuorumsHaveGranted self.new }
    {
        self.upgrade_to(membership, default)
            .unwrap_or(Reply::OutOfMemory)
    }

    /// Replaces the membership, and upgrades the progress to it, unless an inherited value is below
    /// the new default. Returns the reply, or an allocation error.
    fn upgrade_to(
        &mut self,
        next: Membership<NID, N>,
        default: V,
    ) -> Result<Reply<NID, P>, AllocError>
        requires clones_have_the_part { (v w : V) → V.is_clone v w → V.part_of w ≡ V.part_of v }
        ensures step { IfOk result (λ reply. IsTrackedChangeTo NID.eq NID.cmp P.cmp V.part_of
            V.is_clone
            (tracked_view self.old) next default reply (tracked_view self.new)) }
        ensures err { OnErr result (tracked_view self.new ≡ tracked_view self.old) }
    {
        let alloc = *next.get_joint_config().allocator();
        let configs = next.to_quorum_set()?;
        let learners = learners_of(alloc, &next)?;
        let below = self.progress.least_below(&configs, &learners, &default)?;
        self.upgrade_unless_below(below, next, configs, &learners, default)
    }

    /// Upgrades to a membership, by its configs and its learners, unless an id is given whose
    /// inherited value is below the new default. Returns `BelowDefault` with that id, or granted
    /// after the upgrade.
    // A separate function, so that a clause states that `BelowDefault` is returned. The clauses of
    // `upgrade_to` allow an allocation failure in its place.
    fn upgrade_unless_below(
        &mut self,
        below: Option<NID>,
        next: Membership<NID, N>,
        configs: Configs<NID>,
        learners: &[NID],
        default: V,
    ) -> Result<Reply<NID, P>, AllocError>
        requires clones_have_the_part { (v w : V) → V.is_clone v w → V.part_of w ≡ V.part_of v }
        requires configs { HasConfigs (members_of NID.cmp next) configs }
        requires voters { (id : NID) → is_voter NID.eq configs id ≡ is_voter_of NID.eq next.configs
            id }
        requires learners { learners.now ≡ learners_of NID.eq next }
        requires are_learners { AreLearners NID.eq (members_of NID.cmp next) learners.now }
        requires none { below ≡ None → CanUpgrade NID.eq P.cmp V.part_of (is_voter NID.eq configs)
            learners.now default (state NID.eq (tracked_view self.old).progress).value }
        requires some { ForSome below (IsLeastBelow NID.eq NID.cmp P.cmp V.part_of
            (is_voter NID.eq configs) learners.now default
            (state NID.eq (tracked_view self.old).progress).value) }
        ensures below { (id : NID) → below ≡ Some id → result ≡ Ok (BelowDefault id) }
        ensures step { IfOk result (λ reply. IsTrackedChangeTo NID.eq NID.cmp P.cmp V.part_of
            V.is_clone
            (tracked_view self.old) next default reply (tracked_view self.new)) }
        ensures err { OnErr result (tracked_view self.new ≡ tracked_view self.old) }
    {
        match below {
            Some(id) => Ok(Reply::BelowDefault(id)),
            None => {
                let alloc = self.progress.allocator();
                let mut upgraded = VecProgress::new(alloc, configs, learners, default)?;
                let sides = sides_of(&next, &upgraded)?;
                upgraded.take_over(&self.progress, sides.as_ref())?;
                self.progress = upgraded;
                self.sides = sides;
                self.membership = next;
                Ok(Reply::Granted(*self.progress.granted()))
            }
        }
    }
}
