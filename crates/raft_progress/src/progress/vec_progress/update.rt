//! How a value is written, and how granted is recomputed.
ghost use Rattle.std.specs.Prelude.{◌≡◌, ◌≤◌, ◌<◌, Some, false, is_some, length, slice_get, true};
ghost use Rattle.raft_members.specs.quorum.QuorumSize.{SizeDecides};
ghost use Rattle.std.specs.Fn.{FnOnceTakesAtMut};
ghost use Rattle.std.specs.List.{IsDistinct};
ghost use Rattle.std.specs.Map.{keys_of};
ghost use Rattle.std.specs.Option.{ForSome};
ghost use Rattle.std.specs.Ordering.{is_lt};
ghost use Rattle.raft_progress.specs.Inner.Sides.{AreSidesOf};
ghost use Rattle.raft_progress.specs.Inner.Settled.{CanCount, CanCountOnceRisen, FindsGranted, HasVotersOfSet, IsPutInOrder, MovesUp};
ghost use Rattle.raft_progress.specs.Inner.ViewAnswers.{IsViewWrite};
ghost use Rattle.raft_progress.specs.progress.InOrder.{IsInOrder};
ghost use Rattle.raft_progress.specs.progress.Lends.{Leaves};
ghost use Rattle.raft_progress.specs.progress.ProgressView.{state};
ghost use Rattle.raft_progress.specs.progress.Updated.{IsUpdated, NeverFalls};
ghost use Rattle.raft_progress.specs.progress.VecProgress.{view};

use super::VecProgress;
use crate::progress::entries::{find_shortest_quorum, gather_leading, move_up};
use crate::progress::part::{ProgressPart, is_at_most, is_below};
use crate::progress::sides::Sides;
use crate::progress::steps::Reply;
use raft_members::quorum::QuorumSet;

impl<ID: Copy + Ord, V: ProgressPart<P>, P: Copy + Ord, QS: QuorumSet<ID>> VecProgress<
    ID,
    V,
    P,
    QS,
> {
    /// Changes the value of an id by `f`, and recomputes granted. Returns whether the id is known.
    #[inline(always)]
    pub(super) fn apply<F: FnOnce(&mut V)>(&mut self, id: &ID, f: F) -> bool
        requires ordered { IsInOrder ID.eq P.cmp V.part_of QS.has_quorum (view self.old) }
        requires callable { ForSome ((state ID.eq (view self.old)).value id.now)
            (FnOnceTakesAtMut F.FnOnce f) }
        requires monotone { NeverFalls ID.eq P.cmp V.part_of (Leaves F.FnOnce f)
            (view self.old) id.now }
        ensures updated { IsUpdated ID.eq P.cmp V.part_of (Leaves F.FnOnce f)
            (view self.old) id.now (view self.new) }
        ensures ordered { IsInOrder ID.eq P.cmp V.part_of QS.has_quorum (view self.new) }
        ensures known { result ≡ is_some ((state ID.eq (view self.old)).value id.now) }
    {
        // This read is for the proof: it shows that each count fits a u64.
        let _counts = (self.stat.move_count, self.stat.is_quorum_count);
        self.stat.update_count = self.stat.update_count.saturating_add(1);
        match self.index(id) {
            Some(position) => {
                let entry = &mut self.entries[position];
                let before = entry.1.part();
                f(&mut entry.1);
                let after = entry.1.part();
                // Other ids may have been written through `iter_mut`, so it is not known that each
                // voter is one of the quorum set, and quorums are tested.
                self.restore_order(position, before, after, false, None);
                true
            }
            None => false,
        }
    }

    /// Writes the value of an id, unless its part is below the present one. Returns the reply. If
    /// `counts` holds, voters may be counted in place of quorum tests.
    // One look-up serves the test and the write. The value is moved once, and the closure of an
    // update would move it twice.
    #[inline(always)]
    pub(crate) fn write(
        &mut self,
        id: &ID,
        value: V,
        counts: bool,
        sides: Option<&Sides>,
    ) -> Reply<ID, P>
        requires ordered { IsInOrder ID.eq P.cmp V.part_of QS.has_quorum (view self.old) }
        requires voters { counts ≡ true → HasVotersOfSet ID.eq QS.is_voter (view self.old) }
        requires sides { ForSome sides (λ s. self.old.positions.stale ≡ false →
            AreSidesOf ID.eq (QS.has_quorum (view self.old).quorum_set)
            (keys_of self.old.positions.sorted.items) s.now) }
        ensures step { IsViewWrite ID.eq P.cmp V.part_of QS.has_quorum
            (view self.old) id.now value result (view self.new) }
        ensures ordered { IsInOrder ID.eq P.cmp V.part_of QS.has_quorum (view self.new) }
    {
        // This read is for the proof: it shows that each count fits a u64.
        let _counts = (self.stat.move_count, self.stat.is_quorum_count);
        let Some(position) = self.index(id) else {
            self.stat.update_count = self.stat.update_count.saturating_add(1);
            return Reply::Unknown(self.granted);
        };
        let entry = &mut self.entries[position];
        let before = entry.1.part();
        let after = value.part();
        if is_below(&after, &before) {
            return Reply::WouldFall;
        }
        entry.1 = value;
        self.stat.update_count = self.stat.update_count.saturating_add(1);
        self.restore_order(position, before, after, counts, sides);
        Reply::Granted(self.granted)
    }

    /// Restores the order and recomputes granted, after the part of the value at a position went
    /// from `before` to `after`. If `counts` holds, voters may be counted in place of quorum tests.
    // Only a voter whose part has risen past granted moves up. Granted can rise only if the part
    // was at most granted before.
    #[inline(always)]
    pub(super) fn restore_order(
        &mut self,
        position: usize,
        before: P,
        after: P,
        counts: bool,
        sides: Option<&Sides>,
    )
        requires within { position < length (view self.old).entries }
        requires at { (e : ID × V) → slice_get (view self.old).entries position ≡ Some e →
            after ≡ V.part_of e.1 }
        requires distinct { IsDistinct ID.eq (keys_of (view self.old).entries) }
        requires can_count { counts ≡ true →
            CanCountOnceRisen ID.eq P.cmp V.part_of QS.is_voter (view self.old) position after }
        requires sides { ForSome sides (λ s. self.old.positions.stale ≡ false →
            AreSidesOf ID.eq (QS.has_quorum (view self.old).quorum_set)
            (keys_of self.old.positions.sorted.items) s.now) }
        ensures { IsPutInOrder ID.eq P.cmp V.part_of QS.has_quorum
            (view self.old) position before (view self.new) }
    {
        if position >= self.voter_count {
            return;
        }
        let granted = self.granted;
        if !is_below(&granted, &after) {
            return;
        }
        let passes_granted = is_at_most(&before, &granted);
        if !passes_granted && !is_below(&before, &after) {
            return;
        }
        let to = self.move_voter_up(position);
        if passes_granted {
            self.find_granted(to, counts, sides);
        }
    }

    /// Moves the voter at a position up, and updates the sorted list. Returns its new position.
    #[inline(always)]
    fn move_voter_up(&mut self, position: usize) -> usize
        requires { position < (view self.old).voter_count }
        ensures risen { MovesUp P.cmp V.part_of (view self.old) position result (view self.new) }
        ensures within { result ≤ position }
        ensures stale { self.new.positions.stale ≡ self.old.positions.stale }
        ensures ids { keys_of self.new.positions.sorted.items
            ≡ keys_of self.old.positions.sorted.items }
    {
        self.stat.move_count = self.stat.move_count.saturating_add(1);
        let to = move_up(&mut self.entries, position);
        if to < position {
            self.positions.record_move(to, position);
        }
        to
    }

    /// Grants the last part of the shortest prefix past a position that is a quorum and whose parts
    /// exceed granted, if there is one.
    #[inline(always)]
    fn find_granted(&mut self, position: usize, counts: bool, sides: Option<&Sides>)
        requires within { position < (view self.old).voter_count }
        requires distinct { IsDistinct ID.eq (keys_of (view self.old).entries) }
        requires can_count { counts ≡ true →
            CanCount ID.eq P.cmp V.part_of QS.is_voter (view self.old) }
        requires sides { ForSome sides (λ s. self.old.positions.stale ≡ false →
            AreSidesOf ID.eq (QS.has_quorum (view self.old).quorum_set)
            (keys_of self.old.positions.sorted.items) s.now) }
        ensures { FindsGranted ID.eq P.cmp V.part_of QS.has_quorum
            (view self.old) position (view self.new) }
    {
        if counts {
            if let Some(sides) = sides {
                if !self.positions.stale {
                    self.grant_by_sides(position, sides);
                    return;
                }
            }
            if let Some(size) = self.quorum_set.deciding_size() {
                self.grant_by_size(position, size);
                return;
            }
        }
        self.search_granted(position);
    }

    /// Grants the last part of the shortest prefix past a position that has as many voters as
    /// decide, if its parts exceed granted. This counts as one quorum test.
    #[inline(always)]
    fn grant_by_size(&mut self, position: usize, size: usize)
        requires within { position < (view self.old).voter_count }
        requires distinct { IsDistinct ID.eq (keys_of (view self.old).entries) }
        requires can_count { CanCount ID.eq P.cmp V.part_of QS.is_voter (view self.old) }
        requires decides { SizeDecides ID.eq (QS.has_quorum (view self.old).quorum_set)
            (QS.is_voter (view self.old).quorum_set) size }
        ensures { FindsGranted ID.eq P.cmp V.part_of QS.has_quorum
            (view self.old) position (view self.new) }
    {
        // This read is for the proof: it shows that the count fits a u64.
        let _count = self.stat.is_quorum_count;
        let last = size.saturating_sub(1).max(position);
        if last >= self.voter_count {
            return;
        }
        let granted = self.granted;
        let part = self.entries[last].1.part();
        if !is_below(&granted, &part) {
            return;
        }
        self.stat.is_quorum_count = self.stat.is_quorum_count.saturating_add(1);
        self.granted = part;
    }

    /// Grants what `find_granted` does, by counting the voters of each of two configs.
    #[inline(always)]
    fn grant_by_sides(&mut self, position: usize, sides: &Sides)
        requires within { position < (view self.old).voter_count }
        requires distinct { IsDistinct ID.eq (keys_of (view self.old).entries) }
        requires can_count { CanCount ID.eq P.cmp V.part_of QS.is_voter (view self.old) }
        requires fresh { self.old.positions.stale ≡ false }
        requires sides { AreSidesOf ID.eq (QS.has_quorum (view self.old).quorum_set)
            (keys_of self.old.positions.sorted.items) sides.now }
        ensures { FindsGranted ID.eq P.cmp V.part_of QS.has_quorum
            (view self.old) position (view self.new) }
    {
        // This read is for the proof: it shows that the count fits a u64.
        let _count = self.stat.is_quorum_count;
        let least = sides.least_size();
        // No prefix past the position with at most `short` voters is a quorum. If the last voter of
        // the next longer prefix has at most granted, no prefix is left.
        let short = least.saturating_sub(1).max(position);
        if short >= self.voter_count {
            return;
        }
        if !is_below(&self.granted, &self.entries[short].1.part()) {
            return;
        }
        self.stat.is_quorum_count = self.stat.is_quorum_count.saturating_add(1);
        let len = sides.quorum_len(self.positions.first_ranks(self.voter_count));
        let last = len.saturating_sub(1).max(position);
        if last >= self.voter_count {
            return;
        }
        let part = self.entries[last].1.part();
        if is_below(&self.granted, &part) {
            self.granted = part;
        }
    }

    /// Grants what `find_granted` does, by quorum tests.
    #[inline(always)]
    fn search_granted(&mut self, position: usize)
        requires within { position < (view self.old).voter_count }
        requires distinct { IsDistinct ID.eq (keys_of (view self.old).entries) }
        ensures { FindsGranted ID.eq P.cmp V.part_of QS.has_quorum
            (view self.old) position (view self.new) }
    {
        // This read is for the proof: it shows that the count fits a u64.
        let _count = self.stat.is_quorum_count;
        let least = self.quorum_set.least_quorum_size();
        // No prefix past the position with at most `short` voters is a quorum. If the last voter of
        // the next longer prefix has at most granted, no prefix is left.
        let short = least.saturating_sub(1).max(position);
        if short >= self.voter_count {
            return;
        }
        if !is_below(&self.granted, &self.entries[short].1.part()) {
            return;
        }
        if self.voter_count == 1 {
            self.test_only_voter();
        } else {
            self.test_prefixes(short);
        }
    }

    /// Tests whether the only voter is a quorum. It requires that the voter's part exceeds granted.
    // No ids are gathered and no prefixes are searched, so a cluster of one voter takes half as
    // many instructions.
    #[inline(always)]
    fn test_only_voter(&mut self)
        requires only { (view self.old).voter_count ≡ 1 }
        requires leads { (e : ID × V) → slice_get (view self.old).entries 0 ≡ Some e →
            is_lt (P.cmp (view self.old).granted (V.part_of e.1)) ≡ true }
        ensures { FindsGranted ID.eq P.cmp V.part_of QS.has_quorum
            (view self.old) 0 (view self.new) }
    {
        let only = &self.entries[0];
        self.scratch[0] = only.0;
        self.stat.is_quorum_count = self.stat.is_quorum_count.saturating_add(1);
        if self.quorum_set.is_quorum(&self.scratch[..1]) {
            self.granted = only.1.part();
        }
    }

    /// Tests the prefixes past a position, and grants the last part of the shortest one that is a
    /// quorum.
    // A separate function, so that an update that grants nothing does not need its registers.
    #[inline(never)]
    fn test_prefixes(&mut self, position: usize)
        requires distinct { IsDistinct ID.eq (keys_of (view self.old).entries) }
        ensures { FindsGranted ID.eq P.cmp V.part_of QS.has_quorum
            (view self.old) position (view self.new) }
    {
        let voters = &self.entries[..self.voter_count];
        let high = gather_leading(voters, self.granted, &mut self.scratch);
        let found = find_shortest_quorum(&self.quorum_set, voters, position, high, &self.scratch);
        self.stat.is_quorum_count = self.stat.is_quorum_count.saturating_add(found.tests);
        if let Some(len) = found.len {
            self.granted = self.entries[len - 1].1.part();
        }
    }
}
