//! Steps of a progress, and their replies.
ghost use Rattle.std.specs.Prelude.{◌≡◌, false, IfOk, None, Ok, OnErr, Some};
ghost use Rattle.std.specs.List.{list_any};
ghost use Rattle.std.specs.Option.{ForSome, option_copied};
ghost use Rattle.raft_progress.specs.progress.Comparisons.{comparisons};
ghost use Rattle.raft_progress.specs.progress.CountedValue.{AtMost, IsCounted};
ghost use Rattle.raft_progress.specs.progress.InOrder.{IsInOrder};
ghost use Rattle.raft_progress.specs.progress.NewProgress.{LearnersFit};
ghost use Rattle.raft_progress.specs.progress.Upgrade.{CanUpgrade};
ghost use Rattle.raft_progress.specs.Inner.Refusal.{RefusesUpgrade};
ghost use Rattle.raft_progress.specs.Inner.ViewAnswers.{IsViewIncrease, IsViewUpgrade};
ghost use Rattle.raft_progress.specs.progress.ProgressView.{state};
ghost use Rattle.raft_progress.specs.progress.ViewSteps.{IsViewRun, IsViewStep, is_upgrade};
ghost use Rattle.raft_progress.specs.progress.VecProgress.{view};
ghost use Rattle.raft_progress.specs.progress.Steps.{IsRun, falls, stays};

use super::Progress;
use super::conditions::would_fall;
use super::part::ProgressPart;
use super::steps::{AnyStep, Reply};
use super::vec_progress::VecProgress;
use raft_members::quorum::QuorumSet;
use std::alloc::{AllocError, Global};

impl<
    ID: Copy + Ord,
    V: ProgressPart<P> + PartialOrd + Clone,
    P: Copy + Ord,
    QS: QuorumSet<ID>,
> VecProgress<ID, V, P, QS> {
    /// Makes one step, and returns its reply.
    fn answer(&mut self, step: AnyStep<ID, V, QS>) -> Reply<ID, P>
        requires ordered { IsInOrder ID.eq P.cmp V.part_of QS.has_quorum (view self.old) }
        requires clones_have_the_part { (v w : V) → V.is_clone v w → V.part_of w ≡ V.part_of v }
        ensures step { let by = comparisons ID.Ord P.Ord V.PartialOrd V.ProgressPart V.Clone in
            IsViewStep by QS.has_quorum QS.is_voter (view self.old) step result
            (view self.new) }
        ensures ordered { IsInOrder ID.eq P.cmp V.part_of QS.has_quorum (view self.new) }
    {
        match step {
            AnyStep::Update(id, value) => self.write(&id, value, false, None),
            AnyStep::IncreaseTo(id, value) => self.increase(&id, value),
            AnyStep::Upgrade {
                quorum_set,
                learners,
                default,
            } => self.upgrade(quorum_set, &learners, default),
        }
    }

    /// Writes a value if it is greater than the present one, unless its part is below the present
    /// part. Returns the reply.
    pub(crate) fn increase(&mut self, id: &ID, value: V) -> Reply<ID, P>
        requires { IsInOrder ID.eq P.cmp V.part_of QS.has_quorum (view self.old) }
        ensures step { IsViewIncrease ID.eq P.cmp V.partial_cmp V.part_of QS.has_quorum
            (view self.old) id.now value result (view self.new) }
        ensures ordered { IsInOrder ID.eq P.cmp V.part_of QS.has_quorum (view self.new) }
    {
        let current = self.try_get(id);
        if !is_not_greater(current, &value) && would_fall(current, &value) {
            return Reply::WouldFall;
        }
        match self.increase_to(id, value) {
            Ok(granted) => Reply::Granted(*granted),
            Err(granted) => Reply::Unknown(*granted),
        }
    }

    /// Upgrades to another quorum set, or leaves the progress as it is. Returns the reply.
    fn upgrade(&mut self, quorum_set: QS, learners: &[ID], default: V) -> Reply<ID, P>
        requires ordered { IsInOrder ID.eq P.cmp V.part_of QS.has_quorum (view self.old) }
        requires clones_have_the_part { (v w : V) → V.is_clone v w → V.part_of w ≡ V.part_of v }
        ensures step { IsViewUpgrade ID.eq ID.cmp P.cmp V.part_of V.is_clone QS.has_quorum
            QS.is_voter
            (view self.old) quorum_set learners.now default result (view self.new) }
        ensures ordered { IsInOrder ID.eq P.cmp V.part_of QS.has_quorum (view self.new) }
    {
        match self.try_upgrade(quorum_set, learners, default) {
            Ok(reply) => reply,
            Err(_) => Reply::OutOfMemory,
        }
    }

    /// Upgrades to another quorum set, or finds why the upgrade is refused. Returns the reply, or
    /// an allocation error.
    fn try_upgrade(
        &mut self,
        quorum_set: QS,
        learners: &[ID],
        default: V,
    ) -> Result<Reply<ID, P>, AllocError>
        requires ordered { IsInOrder ID.eq P.cmp V.part_of QS.has_quorum (view self.old) }
        requires clones_have_the_part { (v w : V) → V.is_clone v w → V.part_of w ≡ V.part_of v }
        ensures step { IfOk result (λ reply.
            IsViewUpgrade ID.eq ID.cmp P.cmp V.part_of V.is_clone QS.has_quorum QS.is_voter
            (view self.old) quorum_set learners.now default reply (view self.new)) }
        ensures err { OnErr result (view self.new ≡ view self.old) }
        ensures ordered { IsInOrder ID.eq P.cmp V.part_of QS.has_quorum (view self.new) }
    {
        let refusal = self.find_refusal(&quorum_set, learners, &default)?;
        self.upgrade_unless_refused(refusal, quorum_set, learners, default)
    }

    /// Returns the reply that refuses an upgrade, if there is one: `BadLearners` comes before
    /// `BelowDefault`.
    fn find_refusal(
        &self,
        quorum_set: &QS,
        learners: &[ID],
        default: &V,
    ) -> Result<Option<Reply<ID, P>>, AllocError>
        ensures none { IfOk result (λ found. found ≡ None →
            LearnersFit ID.eq (QS.is_voter quorum_set.now) learners.now
            × CanUpgrade ID.eq P.cmp V.part_of (QS.is_voter quorum_set.now) learners.now default.now
            (state ID.eq (view self.now)).value) }
        ensures some { IfOk result (λ found. ForSome found
            (RefusesUpgrade ID.eq ID.cmp P.cmp V.part_of (QS.is_voter quorum_set.now) learners.now
            default.now (state ID.eq (view self.now)).value)) }
    {
        let alloc = self.allocator();
        let fits = VecProgress::<ID, V, P, QS>::learners_fit(alloc, quorum_set, learners)?;
        if !fits {
            return Ok(Some(Reply::BadLearners));
        }
        match self.least_below(quorum_set, learners, default)? {
            Some(id) => Ok(Some(Reply::BelowDefault(id))),
            None => Ok(None),
        }
    }

    /// Upgrades to another quorum set, unless a refusal is given. Returns the refusal, or granted
    /// after the upgrade.
    // A separate function, so that a clause states that the refusal is returned. The clauses of
    // `try_upgrade` allow an allocation failure in place of any refusal.
    fn upgrade_unless_refused(
        &mut self,
        refusal: Option<Reply<ID, P>>,
        quorum_set: QS,
        learners: &[ID],
        default: V,
    ) -> Result<Reply<ID, P>, AllocError>
        requires ordered { IsInOrder ID.eq P.cmp V.part_of QS.has_quorum (view self.old) }
        requires clones_have_the_part { (v w : V) → V.is_clone v w → V.part_of w ≡ V.part_of v }
        requires none { refusal ≡ None → LearnersFit ID.eq (QS.is_voter quorum_set) learners.now
            × CanUpgrade ID.eq P.cmp V.part_of (QS.is_voter quorum_set) learners.now default
            (state ID.eq (view self.old)).value }
        requires some { ForSome refusal
            (RefusesUpgrade ID.eq ID.cmp P.cmp V.part_of (QS.is_voter quorum_set) learners.now
            default (state ID.eq (view self.old)).value) }
        ensures refused { (reply : Reply ID P) → refusal ≡ Some reply → result ≡ Ok reply }
        ensures step { IfOk result (λ reply.
            IsViewUpgrade ID.eq ID.cmp P.cmp V.part_of V.is_clone QS.has_quorum QS.is_voter
            (view self.old) quorum_set learners.now default reply (view self.new)) }
        ensures err { OnErr result (view self.new ≡ view self.old) }
        ensures ordered { IsInOrder ID.eq P.cmp V.part_of QS.has_quorum (view self.new) }
    {
        match refusal {
            Some(refusal) => Ok(refusal),
            None => {
                let upgraded = self.upgrade_quorum_set(quorum_set, learners, default)?;
                *self = upgraded;
                Ok(Reply::Granted(*self.granted()))
            }
        }
    }
}

/// Makes the steps in order. Returns a reply for each step, or an allocation error, which leaves
/// the progress as it was. A refused step changes nothing, and the next one is made.
///
/// It requires that the progress is in order (`is_in_order`), and that a clone of a value has the
/// same part. Granted never falls if no step is an upgrade.
pub fn replay_any<
    ID: Copy + Ord,
    V: ProgressPart<P> + PartialOrd + Clone,
    P: Copy + Ord,
    QS: QuorumSet<ID>,
>(
    alloc: Global,
    progress: &mut VecProgress<ID, V, P, QS>,
    steps: Vec<AnyStep<ID, V, QS>>,
) -> Result<Vec<Reply<ID, P>>, AllocError>
    requires ordered { IsInOrder ID.eq P.cmp V.part_of QS.has_quorum (view progress.old) }
    requires clones_have_the_part { (v w : V) → V.is_clone v w → V.part_of w ≡ V.part_of v }
    ensures run { let by = comparisons ID.Ord P.Ord V.PartialOrd V.ProgressPart V.Clone in
        IfOk result (λ replies. IsRun by QS.has_quorum QS.is_voter
        (state ID.eq (view progress.old)) steps.items replies.items
        (state ID.eq (view progress.new))) }
    ensures view_run { let by = comparisons ID.Ord P.Ord V.PartialOrd V.ProgressPart V.Clone in
        IfOk result (λ replies. IsViewRun by QS.has_quorum QS.is_voter
        (view progress.old) steps.items replies.items (view progress.new)) }
    ensures ordered { IsInOrder ID.eq P.cmp V.part_of QS.has_quorum (view progress.new) }
    ensures granted { IsCounted P.cmp V.part_of QS.has_quorum
        (state ID.eq (view progress.new)) (view progress.new).granted }
    ensures monotone { list_any is_upgrade steps.items ≡ false →
        AtMost P.cmp (view progress.old).granted (view progress.new).granted }
    ensures err { OnErr result (view progress.new ≡ view progress.old) }
{
    let mut replies = Vec::with_capacity(alloc, steps.len())?;
    for step in steps {
        let reply = progress.answer(step);
        replies.push_reserved(reply);
    }
    Ok(replies)
}

/// Whether there is a present value that the new one is not greater than.
fn is_not_greater<V: PartialOrd>(current: Option<&V>, value: &V) -> bool
    ensures { result ≡ stays V.partial_cmp (option_copied current.entry) value.now }
{
    match current {
        Some(current) => !(*value > *current),
        None => false,
    }
}
