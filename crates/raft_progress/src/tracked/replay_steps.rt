//! A replay of steps on a membership and its progress.
ghost use Rattle.std.specs.Prelude.{◌≡◌, false, IfOk, OnErr};
ghost use Rattle.std.specs.List.{list_any};
ghost use Rattle.std.specs.Set.{ClonesAreEqual};
ghost use Rattle.raft_progress.specs.progress.Comparisons.{comparisons};
ghost use Rattle.raft_progress.specs.progress.CountedValue.{AtMost};
ghost use Rattle.raft_progress.specs.tracked.Tracked.{ChangedQuorumsHaveGranted, GrantedIsCounted, QuorumsHaveGranted, TrackedIsReady, tracked_view};
ghost use Rattle.raft_progress.specs.tracked.TrackedViewSteps.{IsTrackedViewRun, IsTrackedViewStep, is_change};
ghost use Rattle.raft_progress.specs.tracked.TrackedState.{tracked_state};
ghost use Rattle.raft_progress.specs.tracked.TrackedSteps.{IsTrackedRun};

use super::Tracked;
use super::step::Step;
use crate::progress::{ProgressPart, Reply};
use raft_base::{Node, NodeId};
use std::alloc::{AllocError, Global};

impl<NID: NodeId, N: Node, V: ProgressPart<P> + PartialOrd + Clone, P: Copy + Ord> Tracked<
    NID,
    N,
    V,
    P,
> {
    /// Makes one step, and returns its reply.
    fn answer(&mut self, step: Step<NID, N, V>) -> Reply<NID, P>
        requires clones_have_the_part { (v w : V) → V.is_clone v w → V.part_of w ≡ V.part_of v }
        requires clones_are_equal { ClonesAreEqual N.eq N.is_clone }
        ensures { let by = comparisons NID.Ord P.Ord V.PartialOrd V.ProgressPart V.Clone in
            IsTrackedViewStep by N.eq (tracked_view self.old) step result (tracked_view self.new) }
    {
        match step {
            Step::Update(id, value) => self.update(&id, value),
            Step::IncreaseTo(id, value) => self.progress.increase(&id, value),
            Step::Change {
                change,
                retain,
                default,
            } => self.change_members(change, retain, default),
        }
    }
}

/// Makes the steps in order. Returns a reply for each step, or an allocation error.
///
/// The replies are allocated first, so an allocation error leaves all as it was. A refused step
/// changes nothing either, and the next one is made.
///
/// After any list of steps, granted is the greatest of its last default and of those current voter
/// values that a quorum of its voters has reached, recomputed from all values. If the membership
/// has a config, every quorum of it, and every quorum of any membership that one change makes of
/// it, has a voter whose value is at least granted.
///
/// Values are compared by their parts. Granted never falls if no step is a change.
pub fn replay<NID: NodeId, N: Node, V: ProgressPart<P> + PartialOrd + Clone, P: Copy + Ord>(
    alloc: Global,
    cluster: &mut Tracked<NID, N, V, P>,
    steps: Vec<Step<NID, N, V>>,
) -> Result<Vec<Reply<NID, P>>, AllocError>
    requires clones_have_the_part { (v w : V) → V.is_clone v w → V.part_of w ≡ V.part_of v }
    requires clones_are_equal { ClonesAreEqual N.eq N.is_clone }
    ensures run { let by = comparisons NID.Ord P.Ord V.PartialOrd V.ProgressPart V.Clone in
        IfOk result (λ replies. IsTrackedRun by N.eq
        (tracked_state NID.eq (tracked_view cluster.old)) steps.items replies.items
        (tracked_state NID.eq (tracked_view cluster.new))) }
    ensures view_run { let by = comparisons NID.Ord P.Ord V.PartialOrd V.ProgressPart V.Clone in
        IfOk result (λ replies.
        IsTrackedViewRun by N.eq (tracked_view cluster.old) steps.items replies.items
        (tracked_view cluster.new)) }
    ensures ready { TrackedIsReady cluster.new }
    ensures granted { GrantedIsCounted cluster.new }
    ensures monotone { list_any is_change steps.items ≡ false →
        AtMost P.cmp (tracked_view cluster.old).progress.granted
        (tracked_view cluster.new).progress.granted }
    ensures quorums { QuorumsHaveGranted cluster.new }
    ensures changed_quorums { ChangedQuorumsHaveGranted cluster.new }
    ensures err { OnErr result (tracked_view cluster.new ≡ tracked_view cluster.old) }
{
    let mut replies = Vec::with_capacity(alloc, steps.len())?;
    for step in steps {
        let reply = cluster.answer(step);
        replies.push_reserved(reply);
    }
    Ok(replies)
}
