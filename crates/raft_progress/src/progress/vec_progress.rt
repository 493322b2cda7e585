//! The progress of a group of nodes.
ghost use Rattle.std.specs.Prelude.{◌≡◌, ◌≤◌, ◌<◌, false, length};
ghost use Rattle.std.specs.Map.{keys_of};
ghost use Rattle.std.proofs.Props.{props};
ghost use Rattle.raft_progress.specs.Inner.Positions.{AreAtPositions, position_in};

mod ack;
mod clone;
mod compare;
mod display;
mod update;
mod upgrade;

use super::Progress;
use super::conditions::{are_distinct, are_ids_distinct, is_ordered, with_learners, would_fall};
use super::entries::append_ids;
use super::part::ProgressPart;
use super::positions::{FEW, Positions};
use super::recount::count;
use super::stat::Stat;
use raft_members::quorum::QuorumSet;
use std::alloc::{AllocError, Global};

/// The values of voters and learners in a vector, and the greatest part that a quorum of the voters
/// has reached.
///
/// The entries of the vector are the voters, then the learners. The voters whose part exceeds
/// granted come first, and their parts never rise along the vector. So the voters that have reached
/// such a part are a prefix of the entries, and a quorum is found by tests of prefixes. Voters up
/// to granted are in no order, and learners never move. A sorted list beside the vector has the
/// position of each id.
#[derive(Drop)]
pub struct VecProgress<ID: Copy + Ord, V, P, QS> {
    quorum_set: QS,
    granted: P,
    default_part: P,
    voter_count: usize,
    entries: Vec<(ID, V)>,
    positions: Positions<ID>,
    scratch: Vec<ID>,
    stat: Stat,
    ghost voters_fit: { voter_count ≤ length entries.items },
    ghost scratch_fits: { length scratch.items ≡ voter_count },
    ghost agree: { positions.stale ≡ false →
        AreAtPositions ID.eq (keys_of entries.items)
        (position_in ID.eq positions.sorted.items) } by { Prim.hlevel props },
}

impl<ID: Copy + Ord, V: ProgressPart<P>, P: Copy + Ord, QS: QuorumSet<ID>> VecProgress<
    ID,
    V,
    P,
    QS,
> {
    ghost use Rattle.std.specs.Prelude.{◌≡◌, ◌<◌, IfOk, IsTrue, is_some, length, position};
    ghost use Rattle.std.specs.Borrow.{sem};
    ghost use Rattle.std.specs.List.{IsDistinct};
    ghost use Rattle.std.specs.List.Sorted.{IsStrictlySortedBy};
    ghost use Rattle.std.specs.Set.{is_member};
    ghost use Rattle.std.specs.Map.{keys_of};
    ghost use Rattle.std.specs.Option.{ForSome, option_copied};
    ghost use Rattle.std.specs.Slice.Iter.{iter_mut_name, iter_mut_rest};
    ghost use Rattle.raft_progress.specs.progress.InOrder.{IsInOrder};
    ghost use Rattle.raft_progress.specs.progress.Lends.{LendsEntries};
    ghost use Rattle.raft_progress.specs.progress.NewProgress.{AreFirstEntries, IsNew, LearnersFit};
    ghost use Rattle.raft_progress.specs.progress.ProgressView.{state};
    ghost use Rattle.raft_progress.specs.progress.Statistics.{no_counts};
    ghost use Rattle.raft_progress.specs.progress.VecProgress.{view};

    /// Returns a progress in which each voter and each learner has a clone of the default, or an
    /// allocation error.
    ///
    /// The entries are the voters of the quorum set, ascending, followed by the learners in the
    /// given order. The default's part is granted from the start, because every voter has it. The
    /// scratch space for quorum tests is allocated here, so that updates and reads never allocate.
    pub fn new(
        alloc: Global,
        quorum_set: QS,
        learners: &[ID],
        default: V,
    ) -> Result<Self, AllocError>
    where
        V: Clone,
        requires clones_have_the_part { (w : V) → V.is_clone default w →
            V.part_of w ≡ V.part_of default }
        requires learners_fit { LearnersFit ID.eq (QS.is_voter quorum_set) learners.now }
        ensures made { IfOk result (λ made.
            IsNew ID.eq V.is_clone V.part_of (QS.is_voter quorum_set)
            quorum_set learners.now default (state ID.eq (view made))) }
        ensures entries { IfOk result (λ made. AreFirstEntries ID.cmp learners.now (view made)) }
        ensures granted { IfOk result (λ made. (view made).granted ≡ V.part_of default) }
        ensures ordered { IfOk result (λ made.
            IsInOrder ID.eq P.cmp V.part_of QS.has_quorum (view made)) }
        ensures no_counts { IfOk result (λ made. (view made).stat ≡ no_counts) }
    {
        let scratch = quorum_set.ids(alloc)?;
        let voter_count = scratch.len();
        let mut entries = Vec::with_capacity(alloc, voter_count.saturating_add(learners.len()))?;
        append_ids(&mut entries, &scratch, &default)?;
        append_ids(&mut entries, learners, &default)?;
        let positions = Positions::of(alloc, &entries)?;
        let part = default.part();
        Ok(VecProgress {
            quorum_set,
            granted: part,
            default_part: part,
            voter_count,
            entries,
            positions,
            scratch,
            stat: Stat {
                update_count: 0,
                move_count: 0,
                is_quorum_count: 0,
            },
        })
    }

    /// Returns the allocator of its entries.
    pub(crate) fn allocator(&self) -> Global {
        *self.entries.allocator()
    }

    /// Returns its ids, ascending, each with its position, unless that list is stale.
    pub(crate) fn sorted(&self) -> Option<&[(ID, usize)]>
        ensures ascending { ForSome result (λ sorted.
            IsStrictlySortedBy ID.cmp (keys_of sorted.now)) }
        ensures known { ForSome result (λ sorted. (id : ID) →
            is_member ID.eq (keys_of sorted.now) id
            ≡ is_some ((state ID.eq (view self.now)).value id)) }
    {
        self.positions.sorted()
    }

    /// Returns the part of the default.
    pub fn default_part(&self) -> &P
        ensures { result.now ≡ (view self.now).default_part }
    {
        &self.default_part
    }

    /// Returns the position of an id among the entries, counted from 0. It may change with each
    /// update.
    ///
    /// It has the original's name, and is not an index of a log.
    #[inline(always)]
    pub fn index(&self, id: &ID) -> Option<usize>
        ensures { result ≡ position (λ e. ID.eq id.now e.0) ((view self.now).entries) }
    {
        self.positions.find(&self.entries, id)
    }

    /// Whether the sorted list has the ids at their positions, so that no id is repeated. A short
    /// stale list is not compared, because it may have other positions.
    fn has_right_positions(&self) -> bool
        ensures { IsTrue result → IsDistinct ID.eq (keys_of (view self.now).entries) }
    {
        (!self.positions.stale || self.entries.len() > FEW) && self.positions.are_of(&self.entries)
    }

    /// Returns the value at the position that a look-up has found.
    fn value_at(&self, found: Option<usize>) -> Option<&V>
        requires { ForSome found (λ position. position < length (view self.now).entries) }
        ensures { (id : ID) → found ≡ position (λ e. ID.eq id e.0) (view self.now).entries →
            option_copied result ≡ (state ID.eq (view self.now)).value id }
    {
        match found {
            Some(position) => Some(&self.entries[position].1),
            None => None,
        }
    }

    /// Returns the counts of what it has done.
    pub fn stat(&self) -> &Stat
        ensures { result.now ≡ (view self.now).stat }
    {
        &self.stat
    }

    /// Lends the ids and their values for writing.
    ///
    /// Nothing is recomputed and nothing moves. If an id or the part of a voter changes, the
    /// progress may be out of order afterwards, which `is_in_order` tests. Otherwise it stays in
    /// order (`laws::kept_parts_keep_order`).
    pub fn iter_mut(&mut self) -> std::slice::IterMut<(ID, V)>
        ensures* writes_back { sem 𝓛 (LendsEntries ID.row V.row P.row QS.row ID.Ord.own ID.PartialEq
            ID.PartialOrd.own self.entry (iter_mut_name result)) }
        ensures rest { iter_mut_rest result ≡ (view self.old).entries }
    {
        self.positions.stale = true;
        self.entries.iter_mut()
    }
}

impl<ID: Copy + Ord, V: ProgressPart<P>, P: Copy + Ord, QS: QuorumSet<ID>> Progress<ID, V, P, QS>
    for VecProgress<ID, V, P, QS> {
    ghost use Rattle.raft_progress.specs.progress.VecProgress.{view};

    ghost view_of = { view };

    fn granted(&self) -> &P {
        &self.granted
    }

    fn try_get(&self, id: &ID) -> Option<&V> {
        self.value_at(self.index(id))
    }

    fn get(&self, id: &ID) -> &V {
        match self.try_get(id) {
            Some(value) => value,
            None => unreachable!(),
        }
    }

    #[inline(always)]
    fn get_mut(&mut self, id: &ID) -> Option<&mut V> {
        match self.index(id) {
            Some(position) => Some(&mut self.entries[position].1),
            None => None,
        }
    }

    fn is_voter(&self, id: &ID) -> Option<bool> {
        match self.index(id) {
            Some(position) => Some(position < self.voter_count),
            None => None,
        }
    }

    fn voter_count(&self) -> usize {
        self.voter_count
    }

    fn is_in_order(&mut self) -> bool {
        let known = self.has_right_positions();
        if !are_ids_distinct(known, &self.entries, self.voter_count, &mut self.scratch) {
            return false;
        }
        let voters = &self.entries[..self.voter_count];
        if !is_ordered(voters, self.granted, self.default_part) {
            return false;
        }
        let counted = count(
            &self.quorum_set,
            voters,
            self.default_part,
            self.granted,
            &mut self.scratch,
        );
        counted.cmp(&self.granted).is_eq()
    }

    fn quorum_set(&self) -> &QS {
        &self.quorum_set
    }

    fn iter(&self) -> std::slice::Iter<(ID, V)> {
        self.entries.iter()
    }

    fn would_fall(&self, id: &ID, value: &V) -> bool {
        would_fall(self.try_get(id), value)
    }

    #[inline(always)]
    fn update_with<F: FnOnce(&mut V)>(&mut self, id: &ID, f: F) -> Result<&P, &P> {
        if self.apply(id, f) {
            Ok(&self.granted)
        } else {
            Err(&self.granted)
        }
    }

    #[inline(always)]
    fn update(&mut self, id: &ID, value: V) -> Result<&P, &P> {
        self.update_with(id, |current| *current = value)
    }

    fn increase_to(&mut self, id: &ID, value: V) -> Result<&P, &P>
    where
        V: PartialOrd,
    {
        self.update_with(id, |current| {
            if value > *current {
                *current = value;
            }
        })
    }

    fn learners_fit(alloc: Global, quorum_set: &QS, learners: &[ID]) -> Result<bool, AllocError> {
        let voters = quorum_set.ids(alloc)?;
        let ids = with_learners(voters, learners)?;
        Ok(are_distinct(ids))
    }

    fn can_upgrade(
        &self,
        quorum_set: &QS,
        learners: &[ID],
        default: &V,
    ) -> Result<bool, AllocError> {
        let least = self.least_below(quorum_set, learners, default)?;
        Ok(least.is_none())
    }

    fn upgrade_quorum_set(
        &self,
        quorum_set: QS,
        learners: &[ID],
        default: V,
    ) -> Result<Self, AllocError>
    where
        V: Clone,
    {
        let mut made = VecProgress::new(self.allocator(), quorum_set, learners, default)?;
        made.take_over(self, None)?;
        Ok(made)
    }
}
