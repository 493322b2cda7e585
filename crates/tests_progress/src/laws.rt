//! Callers of the laws of progresses, each as an engine has the need.
ghost use Rattle.raft_base.specs.LogId.{next_index};
ghost use Rattle.raft_members.specs.quorum.Coherence.{is_coherent};
ghost use Rattle.raft_progress.specs.declared.progress.steps.AnyStep.TheVariants.{Update};
ghost use Rattle.raft_progress.specs.declared.progress.steps.Reply.TheVariants.{Granted};
ghost use Rattle.raft_progress.specs.declared.progress.steps.Reply.{Reply};
ghost use Rattle.raft_progress.specs.declared.tracked.step.Step.TheVariants.{Change};
ghost use Rattle.raft_progress.specs.progress.Comparisons.{comparisons_ordered};
ghost use Rattle.raft_progress.specs.progress.CountedValue.{AtMost};
ghost use Rattle.raft_progress.specs.progress.InOrder.{IsInOrder};
ghost use Rattle.raft_progress.specs.progress.ProgressState.{IsSame};
ghost use Rattle.raft_progress.specs.progress.ProgressView.{state};
ghost use Rattle.raft_progress.specs.progress.ViewSteps.{IsViewStep};
ghost use Rattle.raft_progress.specs.progress.Threshold.{QuorumsHavePart, QuorumsShareVoter};
ghost use Rattle.raft_progress.specs.progress.Updated.{IsNotLower};
ghost use Rattle.raft_progress.specs.progress.VecProgress.{view};
ghost use Rattle.raft_progress.specs.search.Purged.{IsPurgedWithin};
ghost use Rattle.raft_progress.specs.search.Search.{CanSearch, stretch};
ghost use Rattle.raft_progress.specs.tracked.Elected.{NoneVotedPast};
ghost use Rattle.raft_progress.specs.tracked.Known.{QuorumsKnow};
ghost use Rattle.raft_progress.specs.tracked.Tracked.{tracked_view};
ghost use Rattle.raft_progress.specs.tracked.TrackedViewSteps.{IsTrackedViewStep};
ghost use Rattle.std.specs.List.{AllByRecursion};
ghost use Rattle.std.specs.Ordering.{bool_cmp, nat_cmp};
ghost use Rattle.std.specs.declared.cmp.Ordering.{Ordering};
ghost use Rattle.std.specs.Prelude.{◌/◌, ◌<◌, ◌^◌, ◌≡◌, ◌≤◌, Bool, IfOk, IsTrue, Option, Some, false, length, true, ℕ};
ghost use Rattle.std.specs.Set.{ClonesAreEqual};

use raft_base::{LogStateReader, Node, NodeId};
use raft_members::quorum::QuorumSet;
use raft_members::{ChangeMembers, ChangeMembershipError};
use raft_progress::entry::ProgressEntryOf;
use raft_progress::laws::{
    calls_are_runs, change_keeps_granted, clones_keep_order, counted_values_tie, granted_meet,
    kept_parts_keep_order, known_stays, meeting_quorums_know_granted, none_purged_past,
    quorums_know_granted, tracked_calls_are_runs,
};
use raft_progress::progress::{Progress, ProgressPart, Reply, VecProgress};
use raft_progress::search::{SearchEvent, search_run};
use raft_progress::tracked::{Step, Tracked, replay};
use std::alloc::{AllocError, Global};

/// Takes an ack, which is a step of a run: also of a follower, whose values have no order.
pub fn acked<ID: Copy + Ord, V: ProgressPart<P> + Clone, P: Copy + Ord, QS: QuorumSet<ID>>(
    progress: &mut VecProgress<ID, V, P, QS>,
    id: &ID,
    value: V,
)
    requires ordered { IsInOrder ID.eq P.cmp V.part_of QS.has_quorum (view progress.old) }
    requires monotone { IsNotLower ID.eq P.cmp V.part_of (view progress.old) id.now value }
    ensures { (order : V → V → Option Ordering) →
        let by = comparisons_ordered ID.Ord P.Ord order V.ProgressPart V.Clone in
        (reply : Reply ID P) × IsViewStep by QS.has_quorum QS.is_voter (view progress.old)
        (Update id.now value) reply (view progress.new) }
{
    calls_are_runs::<ID, V, P, QS>();
    let _ = progress.update(id, value);
}

/// Goes over to what a change makes of the members, once it has come through the log, which is a
/// step of a replay.
fn gone_over_to<NID: NodeId, N: Node, V: ProgressPart<P> + Clone, P: Copy + Ord>(
    cluster: &mut Tracked<NID, N, V, P>,
    change: ChangeMembers<NID, N>,
    retain: bool,
    default: V,
) -> Result<Reply<NID, P>, ChangeMembershipError<NID>>
    requires clones_are_equal { ClonesAreEqual N.eq N.is_clone }
    requires clones_have_the_part { (v w : V) → V.is_clone v w → V.part_of w ≡ V.part_of v }
    ensures { (order : V → V → Option Ordering) →
        let by = comparisons_ordered NID.Ord P.Ord order V.ProgressPart V.Clone in
        IfOk result (λ reply. IsTrackedViewStep by N.eq (tracked_view cluster.old)
        (Change change retain default) reply (tracked_view cluster.new)) }
{
    tracked_calls_are_runs::<NID, N, V, P>();
    let next = cluster.membership().change(change, retain)?;
    Ok(cluster.change_to(next, default))
}

/// Goes over to what a change makes of the members: where it is made, each quorum of the new
/// members has a voter that has what was granted before, also where less is granted now.
fn gone_over_known<NID: NodeId, N: Node, V: ProgressPart<P> + Clone, P: Copy + Ord>(
    cluster: &mut Tracked<NID, N, V, P>,
    change: ChangeMembers<NID, N>,
    retain: bool,
    default: V,
) -> Result<Reply<NID, P>, ChangeMembershipError<NID>>
    requires clones_are_equal { ClonesAreEqual N.eq N.is_clone }
    requires clones_have_the_part { (v w : V) → V.is_clone v w → V.part_of w ≡ V.part_of v }
    ensures { IfOk result (λ reply. (granted : P) → reply ≡ Granted granted →
        0 < length (tracked_view cluster.old).membership.configs →
        QuorumsKnow NID.eq P.cmp V.part_of (tracked_view cluster.new)
        (tracked_view cluster.old).progress.granted) }
{
    quorums_know_granted(cluster);
    change_keeps_granted::<NID, N, V, P>();
    gone_over_to(cluster, change, retain, default)
}

/// What is granted over quorums that share voters, of whatever kind: each of them knows it.
fn granted_of<ID: Copy + Ord, V: ProgressPart<P>, P: Copy + Ord, QS: QuorumSet<ID>>(
    progress: &VecProgress<ID, V, P, QS>,
) -> P
    requires ordered { IsInOrder ID.eq P.cmp V.part_of QS.has_quorum (view progress.now) }
    requires share { QuorumsShareVoter P.cmp V.part_of QS.has_quorum
        (state ID.eq (view progress.now)) }
    ensures { QuorumsHavePart P.cmp V.part_of QS.has_quorum
        (state ID.eq (view progress.now)) result }
{
    meeting_quorums_know_granted::<ID, V, P, QS>();
    *progress.granted()
}

/// Whether two progresses of the same voters and values grant the same, however they came to be.
fn grant_alike<ID: Copy + Ord, V: ProgressPart<P>, P: Copy + Ord, QS: QuorumSet<ID>>(
    one: &VecProgress<ID, V, P, QS>,
    other: &VecProgress<ID, V, P, QS>,
) -> bool
    requires one { IsInOrder ID.eq P.cmp V.part_of QS.has_quorum (view one.now) }
    requires other { IsInOrder ID.eq P.cmp V.part_of QS.has_quorum (view other.now) }
    requires same { IsSame (state ID.eq (view one.now)) (state ID.eq (view other.now)) }
    ensures { IsTrue result }
{
    counted_values_tie::<ID, V, P, QS>();
    one.granted().cmp(other.granted()).is_eq()
}

/// A clone that may go on with updates, without a test of its order.
fn copy_of<ID: Copy + Ord, V: ProgressPart<P> + Clone, P: Copy + Ord, QS: QuorumSet<ID> + Clone>(
    progress: &VecProgress<ID, V, P, QS>,
) -> Result<VecProgress<ID, V, P, QS>, AllocError>
    requires ordered { IsInOrder ID.eq P.cmp V.part_of QS.has_quorum (view progress.now) }
    requires clones_have_the_part { (v w : V) → V.is_clone v w → V.part_of w ≡ V.part_of v }
    requires quorum_sets { (c d : QS) → QS.is_clone c d → (set : ID → Bool) →
        QS.has_quorum d set ≡ QS.has_quorum c set }
    ensures { IfOk result (λ copy.
        IsInOrder ID.eq P.cmp V.part_of QS.has_quorum (view copy)) }
{
    clones_keep_order::<ID, V, P, QS>();
    progress.clone()
}

/// Makes a step, a change of the members say, if a match is granted: then each quorum of the
/// members that there are now still has a voter that matches it, though less may be granted.
fn step_once_granted<NID: NodeId, N: Node>(
    alloc: Global,
    cluster: &mut Tracked<NID, N, u64, u64>,
    matched: u64,
    step: Vec<Step<NID, N, u64>>,
) -> Result<bool, AllocError>
    requires clones_are_equal { ClonesAreEqual N.eq N.is_clone }
    requires one { length step.items ≡ 1 }
    ensures { 0 < length (tracked_view cluster.old).membership.configs →
        QuorumsKnow NID.eq nat_cmp (λ (v : ℕ). v) (tracked_view cluster.old) matched →
        IfOk result (λ _. (0 < length (tracked_view cluster.new).membership.configs)
        × QuorumsKnow NID.eq nat_cmp (λ (v : ℕ). v) (tracked_view cluster.new) matched) }
{
    if *cluster.progress().granted() < matched {
        return Ok(false);
    }
    quorums_know_granted(cluster);
    known_stays::<NID, N, u64, u64>();
    let _replies = replay(alloc, cluster, step)?;
    Ok(true)
}

/// Whether a candidate has won, whose log ends at an index that is at least the match of each who
/// voted for it. Where it has, no more than that is committed: it lacks nothing.
fn has_won<NID: NodeId, N: Node>(
    matches: &Tracked<NID, N, u64, u64>,
    votes: &Tracked<NID, N, bool, bool>,
    last: u64,
) -> bool
    requires one_change { is_coherent NID.eq (tracked_view matches.now).membership.configs
        (tracked_view votes.now).membership.configs ≡ true }
    requires from_false { (tracked_view votes.now).progress.default_part ≡ false }
    requires up_to_date { NoneVotedPast NID.eq NID.cmp nat_cmp (λ (v : ℕ). v) bool_cmp
        (λ (v : Bool). v) (tracked_view matches.now) (tracked_view votes.now) last }
    ensures { IsTrue result → AtMost nat_cmp (tracked_view matches.now).progress.granted last }
{
    quorums_know_granted(matches);
    quorums_know_granted(votes);
    granted_meet::<NID, N, N, u64, u64, bool, bool>();
    *votes.progress().granted()
}

/// Runs a search over logs that are not purged past the match: the sharper bound holds.
fn conflicts_of<C: Ord + Copy, L: LogStateReader<C>>(
    entry: &mut ProgressEntryOf<C>,
    events: &[SearchEvent<'_, L>],
) -> u64
    requires can { CanSearch entry.old }
    requires purged { AllByRecursion (IsPurgedWithin L.log_view (next_index entry.old.matching))
        events.now }
    ensures { (k : ℕ) → stretch entry.old / 16 < 2 ^ k → result ≤ k }
{
    none_purged_past::<C, L>();
    search_run(entry, events)
}

/// Writes another value at an id, of the same part where it is a voter, and answers whether the id
/// is known. The progress stays in order, so that updates may follow.
pub fn replaced<ID: Copy + Ord, V: ProgressPart<P>, P: Copy + Ord, QS: QuorumSet<ID>>(
    progress: &mut VecProgress<ID, V, P, QS>,
    id: &ID,
    value: V,
) -> bool
    requires ordered { IsInOrder ID.eq P.cmp V.part_of QS.has_quorum (view progress.old) }
    requires same_part { (v : V) → (state ID.eq (view progress.old)).value id.now ≡ Some v →
        (state ID.eq (view progress.old)).is_voter id.now ≡ true →
        V.part_of value ≡ V.part_of v }
    ensures { IsInOrder ID.eq P.cmp V.part_of QS.has_quorum (view progress.new) }
{
    kept_parts_keep_order::<ID, V, P, QS>();
    match progress.get_mut(id) {
        Some(current) => {
            *current = value;
            true
        }
        None => false,
    }
}
