//! A caller of replays over any progress. Examples are in `stat`.
ghost use Rattle.raft_progress.specs.progress.Comparisons.{comparisons};
ghost use Rattle.raft_progress.specs.progress.CountedValue.{IsCounted};
ghost use Rattle.raft_progress.specs.progress.NewProgress.{IsNew};
ghost use Rattle.raft_progress.specs.progress.ProgressState.{ProgressState};
ghost use Rattle.raft_progress.specs.progress.Steps.{IsRun};
ghost use Rattle.std.specs.Prelude.{◌≡◌, IfOk, IfSome, List, None, Ok, Some};

use raft_members::quorum::QuorumSet;
use raft_progress::{AnyStep, Progress, ProgressPart, Reply, VecProgress, replay_any};
use std::alloc::{AllocError, Global};

/// What is granted after some steps from a new progress, or nothing where the learners don't fit.
pub fn granted_after<
    ID: Copy + Ord,
    V: ProgressPart<P> + PartialOrd + Clone,
    P: Copy + Ord,
    QS: QuorumSet<ID>,
>(
    alloc: Global,
    quorum_set: QS,
    learners: &[ID],
    default: V,
    steps: Vec<AnyStep<ID, V, QS>>,
) -> Result<Option<P>, AllocError>
    requires clones_have_the_part { (v w : V) → V.is_clone v w → V.part_of w ≡ V.part_of v }
    ensures { let by = comparisons ID.Ord P.Ord V.PartialOrd V.ProgressPart V.Clone in
        IfOk result (λ answer. IfSome answer (λ granted.
        (first last : ProgressState ID V P QS) × (replies : List (Reply ID P))
        × IsNew ID.eq V.is_clone V.part_of (QS.is_voter quorum_set) quorum_set learners.now default
        first
        × IsRun by QS.has_quorum QS.is_voter first steps.items replies last
        × IsCounted P.cmp V.part_of QS.has_quorum last granted)) }
{
    if !VecProgress::<ID, V, P, QS>::learners_fit(alloc, &quorum_set, learners)? {
        return Ok(None);
    }
    let mut progress = VecProgress::new(alloc, quorum_set, learners, default)?;
    let _replies = replay_any(alloc, &mut progress, steps)?;
    Ok(Some(*progress.granted()))
}
