//! A progress of any values, in order: how one is made and moved.
ghost use Rattle.raft_progress.specs.progress.InOrder.{IsInOrder};
ghost use Rattle.raft_progress.specs.progress.VecProgress.{view};
ghost use Rattle.std.specs.Prelude.{◌≡◌, IfOk};

use raft_members::quorum::QuorumSet;
use raft_progress::progress::{Progress, ProgressPart, VecProgress};
use std::alloc::{AllocError, Global};
use std::process::Abort;

/// A progress whose learners fit.
pub fn made<ID: Copy + Ord, V: ProgressPart<P> + Clone, P: Copy + Ord, QS: QuorumSet<ID>>(
    rt: &impl Abort,
    alloc: Global,
    quorum_set: QS,
    learners: &[ID],
    default: V,
) -> Result<VecProgress<ID, V, P, QS>, AllocError>
    requires clones_have_the_part { (w : V) → V.is_clone default w →
        V.part_of w ≡ V.part_of default }
    ensures { IfOk result (λ made. IsInOrder ID.eq P.cmp V.part_of QS.has_quorum (view made)) }
{
    let fits = VecProgress::<ID, V, P, QS>::learners_fit(alloc, &quorum_set, learners)?;
    assert!(rt; fits);
    VecProgress::new(alloc, quorum_set, learners, default)
}

/// An update of a progress in order that doesn't lower the value.
pub fn updated<ID: Copy + Ord, V: ProgressPart<P>, P: Copy + Ord, QS: QuorumSet<ID>>(
    rt: &impl Abort,
    progress: &mut VecProgress<ID, V, P, QS>,
    id: ID,
    value: V,
) -> Result<P, P> {
    let ordered = progress.is_in_order();
    assert!(rt; ordered);
    let falls = progress.would_fall(&id, &value);
    assert!(rt; !falls);
    match progress.update(&id, value) {
        Ok(granted) => Ok(*granted),
        Err(granted) => Err(*granted),
    }
}
