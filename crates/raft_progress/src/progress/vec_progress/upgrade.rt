//! What an upgrade inherits, and what it refuses.
ghost use Rattle.std.specs.Prelude.{◌≡◌, ◌++◌, ℕ, IfOk, List, None, OnOk, Some};
ghost use Rattle.std.specs.Option.{ForSome};
ghost use Rattle.raft_progress.specs.Inner.Conditions.{IsLeastPassing, is_value_below};
ghost use Rattle.raft_progress.specs.Inner.Settled.{HasVotersOfSet};
ghost use Rattle.raft_progress.specs.Inner.Sides.{AreSidesOfProgress};
ghost use Rattle.raft_progress.specs.progress.CountedValue.{AtMost};
ghost use Rattle.raft_progress.specs.progress.InOrder.{IsInOrder};
ghost use Rattle.raft_progress.specs.progress.ProgressView.{state};
ghost use Rattle.raft_progress.specs.progress.Statistics.{CountsGoOn};
ghost use Rattle.raft_progress.specs.progress.Updated.{IsNotLower, IsUpdated};
ghost use Rattle.raft_progress.specs.progress.Upgrade.{CanUpgrade, IsLeastBelow};
ghost use Rattle.raft_progress.specs.progress.UpgradeFold.{TakesOverEach};
ghost use Rattle.raft_progress.specs.progress.VecProgress.{view};

use super::VecProgress;
use crate::progress::Progress;
use crate::progress::conditions::{is_at_least, is_below_bound};
use crate::progress::part::ProgressPart;
use crate::progress::sides::Sides;
use crate::progress::stat::Stat;
use raft_members::quorum::QuorumSet;
use std::alloc::AllocError;

impl<ID: Copy + Ord, V: ProgressPart<P>, P: Copy + Ord, QS: QuorumSet<ID>> VecProgress<
    ID,
    V,
    P,
    QS,
> {
    /// Takes the counts of another progress, and continues them.
    pub(super) fn copy_counts(&mut self, stat: &Stat)
        ensures same { view self.new ≡ record (view self.old) { stat = stat.now } }
        ensures counts { (voters : ℕ) → CountsGoOn 0 voters stat.now stat.now }
    {
        let (update_count, move_count, is_quorum_count) = (
            stat.update_count,
            stat.move_count,
            stat.is_quorum_count,
        );
        self.stat = Stat {
            update_count,
            move_count,
            is_quorum_count,
        };
    }

    /// Takes over the counts of another progress, and its values one after another, or returns an
    /// allocation error. An id that is unknown here is passed over. `sides` are those of two
    /// configs whose majorities are the quorums, if they are known.
    pub(crate) fn take_over(&mut self, from: &Self, sides: Option<&Sides>) -> Result<(), AllocError>
    where
        V: Clone,
        requires given_in_order { IsInOrder ID.eq P.cmp V.part_of QS.has_quorum (view from.now) }
        requires ordered { IsInOrder ID.eq P.cmp V.part_of QS.has_quorum (view self.old) }
        requires clones_have_the_part { (v w : V) → V.is_clone v w → V.part_of w ≡ V.part_of v }
        requires none_falls { (x : ID) (v w : V) → (state ID.eq (view from.now)).value x ≡ Some v →
            (state ID.eq (view self.old)).value x ≡ Some w →
            AtMost P.cmp (V.part_of w) (V.part_of v) }
        requires voters { HasVotersOfSet ID.eq QS.is_voter (view self.old) }
        requires sides { ForSome sides (λ s.
            AreSidesOfProgress ID.eq ID.cmp QS.has_quorum (view self.old) s.now) }
        ensures ordered { OnOk result
            (IsInOrder ID.eq P.cmp V.part_of QS.has_quorum (view self.new)) }
        ensures takes_over { OnOk result
            (TakesOverEach ID.eq ID.cmp P.cmp V.part_of V.is_clone QS.has_quorum QS.is_voter
            (view from.now).entries (record (view self.old) { stat = (view from.now).stat })
            (view self.new)) }
        ensures counts { (voters : ℕ) →
            CountsGoOn 0 voters (view from.now).stat (view from.now).stat }
    {
        self.copy_counts(&from.stat);
        for entry in &from.entries {
            let value = entry.1.clone()?;
            self.inherit(&entry.0, value, sides);
        }
        Ok(())
    }

    /// Writes the value of an id, if the id is known.
    // Each voter is one of the quorum set, so voters are counted.
    fn inherit(&mut self, id: &ID, value: V, sides: Option<&Sides>)
        requires ordered { IsInOrder ID.eq P.cmp V.part_of QS.has_quorum (view self.old) }
        requires monotone { IsNotLower ID.eq P.cmp V.part_of (view self.old) id.now value }
        requires voters { HasVotersOfSet ID.eq QS.is_voter (view self.old) }
        requires sides { ForSome sides (λ s.
            AreSidesOfProgress ID.eq ID.cmp QS.has_quorum (view self.old) s.now) }
        ensures updated { IsUpdated ID.eq P.cmp V.part_of (λ v w. w ≡ value)
            (view self.old) id.now (view self.new) }
        ensures ordered { IsInOrder ID.eq P.cmp V.part_of QS.has_quorum (view self.new) }
    {
        let _reply = self.write(id, value, true, sides);
    }

    /// Returns the least id whose value an upgrade would inherit and whose part is below the new
    /// default's, or an allocation error.
    pub(crate) fn least_below(
        &self,
        quorum_set: &QS,
        learners: &[ID],
        default: &V,
    ) -> Result<Option<ID>, AllocError>
        ensures none { IfOk result (λ least. least ≡ None → CanUpgrade ID.eq P.cmp V.part_of
            (QS.is_voter quorum_set.now) learners.now default.now
            (state ID.eq (view self.now)).value) }
        ensures some { IfOk result (λ least.
            ForSome least (IsLeastBelow ID.eq ID.cmp P.cmp V.part_of
            (QS.is_voter quorum_set.now) learners.now default.now
            (state ID.eq (view self.now)).value)) }
    {
        let part = default.part();
        // If no value is below the default, which is usual, no id is searched for.
        if is_at_least(&self.entries, part) {
            return Ok(None);
        }
        let voters = quorum_set.ids(self.allocator())?;
        let least = self.least_of(&voters, part, None);
        Ok(self.least_of(learners, part, least))
    }

    /// Returns the least one of the ids whose value is below a part and of the least id so far.
    fn least_of(&self, ids: &[ID], part: P, so_far: Option<ID>) -> Option<ID>
        ensures { (seen : List ID) →
            IsLeastPassing ID.cmp (λ x. is_value_below P.cmp V.part_of part
            ((state ID.eq (view self.now)).value x)) seen so_far →
            IsLeastPassing ID.cmp (λ x. is_value_below P.cmp V.part_of part
            ((state ID.eq (view self.now)).value x)) (seen ++ ids.now) result }
    {
        let mut least = so_far;
        for id in ids {
            if self.is_value_below(part, id) && is_below_bound(*id, least) {
                least = Some(*id);
            }
        }
        least
    }

    /// Whether an id has a value that is below a part.
    fn is_value_below(&self, part: P, id: &ID) -> bool
        ensures { result ≡ is_value_below P.cmp V.part_of part
            ((state ID.eq (view self.now)).value id.now) }
    {
        match self.try_get(id) {
            Some(value) => value.part().cmp(&part).is_lt(),
            None => false,
        }
    }
}
