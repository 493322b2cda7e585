//! A membership and the progress that counts by it.
ghost use Rattle.std.specs.Prelude.{◌≡◌, ◌||◌, IfOk, is_some};
ghost use Rattle.std.specs.Option.{ForSome};
ghost use Rattle.std.proofs.Props.{props};
ghost use Rattle.raft_members.specs.membership.Learners.{learners_of};
ghost use Rattle.raft_members.specs.membership.Members.{members_of, node_at};
ghost use Rattle.raft_members.specs.quorum.Majority.{is_voter_of};
ghost use Rattle.raft_progress.specs.Inner.Sides.{AreSidesOfMembers};
ghost use Rattle.raft_progress.specs.progress.ProgressView.{state};
ghost use Rattle.raft_progress.specs.tracked.TrackedState.{AreLearners, IsReady};
ghost use Rattle.raft_progress.specs.progress.VecProgress.{view};

mod change;
mod followers;
mod membership_progress;
mod replay_steps;
mod step;

use crate::progress::sides::Sides;
use crate::progress::{ProgressPart, Reply, VecProgress};
use raft_base::{Node, NodeId};
use raft_members::membership::{Configs, Membership};
pub use replay_steps::replay;
use std::alloc::{AllocError, Global};
use std::fmt;
pub use step::Step;

/// The progress of a membership's voters, by the quorums of its configs, and of its learners.
pub type MembershipProgress<NID, V, P> = VecProgress<NID, V, P, Configs<NID>>;

/// A membership, and the progress of its voters and learners.
///
/// A quorum of the progress is a quorum of the membership, and the learners of the progress are
/// those of the membership. The membership changes only by `replay` and `change_to`, which upgrade
/// the progress with it. Values also change by `update`, and for a leader's followers by
/// `next_send`, `acknowledge` and `conflict`. So the progress is always in order, and counts by the
/// membership.
#[derive(PartialEq, Eq, Drop)]
pub struct Tracked<NID: NodeId, N: Node, V: ProgressPart<P>, P: Copy + Ord> {
    membership: Membership<NID, N>,
    progress: MembershipProgress<NID, V, P>,
    /// The voters of each config, if there are two. They are determined by the membership.
    sides: Option<Sides>,
    pub ghost ready: { ∥ IsReady NID.eq NID.cmp P.cmp V.part_of
        (record { membership = membership; progress = view progress }) ∥₁ },
    ghost sides_fit: { ForSome sides (AreSidesOfMembers NID.eq NID.cmp membership) } by { Prim.hlevel props },
}

impl<NID: NodeId, N: Node, V: ProgressPart<P>, P: Copy + Ord> Tracked<NID, N, V, P> {
    ghost use Rattle.std.specs.Prelude.{◌≡◌, IfOk};
    ghost use Rattle.raft_progress.specs.progress.CountedValue.{AtMost};
    ghost use Rattle.raft_progress.specs.tracked.SingleSteps.{IsTrackedUpdate};
    ghost use Rattle.raft_progress.specs.tracked.Tracked.{ChangedQuorumsHaveGranted, GrantedIsCounted, QuorumsHaveGranted, TrackedIsReady, tracked_view};
    ghost use Rattle.raft_progress.specs.tracked.TrackedNew.{BeginsOver};
    ghost use Rattle.raft_progress.specs.progress.VecProgress.{view};

    /// Returns the membership with a progress in which each voter and each learner has a clone of
    /// the default, or an allocation error.
    pub fn new(membership: Membership<NID, N>, default: V) -> Result<Self, AllocError>
    where
        V: Clone,
        requires clones_have_the_part { (w : V) → V.is_clone default w →
            V.part_of w ≡ V.part_of default }
        ensures membership { IfOk result (λ made. (tracked_view made).membership ≡ membership) }
        ensures progress { IfOk result (λ made.
            BeginsOver NID.eq NID.cmp P.cmp V.part_of V.is_clone default (tracked_view made)) }
        ensures granted { IfOk result (λ made.
            (tracked_view made).progress.granted ≡ V.part_of default) }
        ensures ready { IfOk result (λ made. TrackedIsReady made) }
    {
        let progress = MembershipProgress::of(&membership, default)?;
        let sides = sides_of(&membership, &progress)?;
        Ok(Tracked {
            membership,
            progress,
            sides,
        })
    }

    /// Returns the membership.
    pub fn membership(&self) -> &Membership<NID, N>
        ensures { result.now ≡ (tracked_view self.now).membership }
    {
        &self.membership
    }

    /// Returns the progress of its voters and learners.
    pub fn progress(&self) -> &MembershipProgress<NID, V, P>
        ensures { view result.now ≡ (tracked_view self.now).progress }
    {
        &self.progress
    }

    /// Writes the value of an id, as a replay does at `Step::Update`, without a list of steps. It
    /// never allocates.
    ///
    /// The reply is `Unknown` for an unknown id, and `WouldFall` if the part would fall. To change
    /// what a value contains beside its part, change a copy from `progress` and update with it. A
    /// leader's entries are changed in place by `next_send`, `acknowledge` and `conflict`.
    // Inlined, because a call passes the value over the stack: of an entry these are 120 bytes.
    #[inline(always)]
    pub fn update(&mut self, id: &NID, value: V) -> Reply<NID, P>
        ensures step { IsTrackedUpdate NID.eq P.cmp V.part_of
            (tracked_view self.old) id.now value result (tracked_view self.new) }
        ensures ready { TrackedIsReady self.new }
        ensures granted { GrantedIsCounted self.new }
        ensures monotone { AtMost P.cmp (tracked_view self.old).progress.granted
            (tracked_view self.new).progress.granted }
        ensures quorums { QuorumsHaveGranted self.new }
        ensures changed_quorums { ChangedQuorumsHaveGranted self.new }
    {
        // Each voter of the membership's progress is one of its configs, so voters are counted.
        self.progress.write(id, value, true, self.sides.as_ref())
    }
}

impl<NID: NodeId, N: Node, V: ProgressPart<P> + Clone, P: Copy + Ord> Tracked<NID, N, V, P> {
    ghost use Rattle.std.specs.Prelude.{◌≡◌, IfOk, IsTrue};
    ghost use Rattle.std.specs.Set.{ClonesAreEqual};
    ghost use Rattle.raft_members.specs.membership.Members.{same_members};
    ghost use Rattle.raft_progress.specs.progress.Equal.{IsCloned};
    ghost use Rattle.raft_progress.specs.tracked.Tracked.{tracked_view};
    ghost use Rattle.raft_progress.specs.tracked.TrackedState.{HasSameConfigs};

    /// Returns an equal membership with a progress that has a clone of each value and is otherwise
    /// unchanged, or an allocation error.
    pub fn try_clone(&self) -> Result<Self, AllocError>
        requires clones_have_the_part { (v w : V) → V.is_clone v w → V.part_of w ≡ V.part_of v }
        requires clones_are_equal { ClonesAreEqual N.eq N.is_clone }
        ensures membership { IfOk result (λ made. IsTrue (same_members NID.eq N.eq
            (tracked_view self.now).membership (tracked_view made).membership)) }
        ensures progress { IfOk result (λ made. IsCloned V.is_clone HasSameConfigs
            (tracked_view self.now).progress (tracked_view made).progress) }
    {
        let membership = self.membership.try_clone()?;
        let configs = membership.to_quorum_set()?;
        let progress = self.progress.clone_over(configs)?;
        let sides = sides_of(&membership, &progress)?;
        Ok(Tracked {
            membership,
            progress,
            sides,
        })
    }
}

/// The text has the membership and its progress, and no more.
impl<NID: NodeId, N: Node, V: ProgressPart<P> + fmt::Debug, P: Copy + Ord + fmt::Debug> fmt::Debug
    for Tracked<NID, N, V, P> {
    fn fmt<W: fmt::Write>(&self, f: &mut fmt::Formatter<W>) -> fmt::Result {
        f.debug_struct("Tracked")
            .field("membership", &self.membership)
            .field("progress", &self.progress)
            .finish()
    }
}

/// Returns the voters of each config of a membership that has two, and `None` for any other one, or
/// an allocation error.
// A stale list of positions is not asked, because it may have other ids. That of a membership's
// progress is never stale.
fn sides_of<NID: NodeId, N: Node, V: ProgressPart<P>, P: Copy + Ord>(
    membership: &Membership<NID, N>,
    progress: &MembershipProgress<NID, V, P>,
) -> Result<Option<Sides>, AllocError>
    requires known { (id : NID) → is_some ((state NID.eq (view progress.now)).value id)
        ≡ (is_voter_of NID.eq membership.now.configs id
        || is_some (node_at NID.cmp membership.now.nodes id)) }
    ensures { IfOk result (λ sides.
        ForSome sides (AreSidesOfMembers NID.eq NID.cmp membership.now)) }
{
    let Some(sorted) = progress.sorted() else {
        return Ok(None);
    };
    if let [first, second] = membership.get_joint_config().as_slice() {
        let sides = Sides::of_two(progress.allocator(), sorted, first, second)?;
        return Ok(Some(sides));
    }
    Ok(None)
}

/// Returns the learners of a membership, ascending.
fn learners_of<NID: NodeId, N: Node>(
    alloc: Global,
    membership: &Membership<NID, N>,
) -> Result<Vec<NID>, AllocError>
    ensures same { IfOk result (λ ids. ids.items ≡ learners_of NID.eq membership.now) }
    ensures learners { IfOk result (λ ids.
        AreLearners NID.eq (members_of NID.cmp membership.now) ids.items) }
{
    let mut ids = Vec::new(alloc);
    // The ids are pushed and not collected. If an allocation fails, `collect` of std tries a
    // smaller one, so the step would not return out of memory.
    for id in membership.learner_ids() {
        ids.push(id)?;
    }
    Ok(ids)
}
