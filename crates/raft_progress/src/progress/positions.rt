//! The position of each id among the entries, in a sorted list beside them, or by a search of the
//! entries if the list may be stale.
ghost use Rattle.std.specs.Prelude.{◌≡◌, ◌<◌, ◌≤◌, false, length, map, position, take, IfOk, IsTrue, Ok, Some};
ghost use Rattle.std.specs.List.{IsDistinct};
ghost use Rattle.std.specs.List.Sorted.{IsStrictlySortedBy};
ghost use Rattle.std.specs.Map.{keys_of, values_of};
ghost use Rattle.std.specs.Option.{ForSome, option_map};
ghost use Rattle.std.proofs.Props.{props};
ghost use Rattle.raft_progress.specs.Inner.Positions.{AreAllPositions, AreAtPositions, AreInverse, position_after, position_in};

use std::alloc::{AllocError, Global};

/// Up to this many ids are compared one after another. More ids are searched by halving, and the
/// tests of a progress do more to compare fewer of them.
pub(crate) const FEW: usize = 16;

/// The position of each id among the entries, and the reverse.
///
/// The ids are sorted, each with its position. The set of ids never changes, so each id has a fixed
/// rank, and a move finds the list items that it changes by their ranks, without a look-up.
#[derive(Drop)]
pub(crate) struct Positions<ID: Copy + Ord> {
    /// The ids, ascending, each with its position.
    sorted: Vec<(ID, usize)>,
    /// For each position, the rank of its id: the index of the id in `sorted`.
    ranks: Vec<usize>,
    /// Whether ids may have been written through `iter_mut`. If so, the list is not used, and
    /// positions are searched for among the entries.
    pub(super) stale: bool,
    ghost ascending: { IsStrictlySortedBy ID.cmp (keys_of sorted.items) } by { Prim.hlevel props },
    ghost inverse: { AreInverse (values_of sorted.items) ranks.items } by { Prim.hlevel props },
}

impl<ID: Copy + Ord> Positions<ID> {
    /// Returns the positions of the ids of a progress, or an allocation error.
    pub(crate) fn of<V>(alloc: Global, entries: &[(ID, V)]) -> Result<Self, AllocError>
        requires { IsDistinct ID.eq (keys_of entries.now) }
        ensures at_positions { IfOk result (λ positions.
            AreAtPositions ID.eq (keys_of entries.now) (position_in ID.eq positions.sorted.items)) }
        ensures one_length { IfOk result (λ positions. length positions.ranks.items ≡ length
            entries.now) }
    {
        let sorted = sorted_ids(alloc, entries)?;
        let ranks = ranks_of(alloc, &sorted)?;
        Ok(Positions {
            sorted,
            ranks,
            stale: false,
        })
    }

    /// Returns a copy, which is stale if this list is, or an allocation error.
    pub(crate) fn try_clone(&self) -> Result<Self, AllocError>
        ensures sorted { IfOk result (λ made. made.sorted.items ≡ self.now.sorted.items) }
        ensures ranks { IfOk result (λ made. made.ranks.items ≡ self.now.ranks.items) }
        ensures stale { IfOk result (λ made. made.stale ≡ self.now.stale) }
    {
        let alloc = *self.sorted.allocator();
        Ok(Positions {
            sorted: Vec::from_slice(alloc, &self.sorted)?,
            ranks: Vec::from_slice(alloc, &self.ranks)?,
            stale: self.stale,
        })
    }

    /// Returns the position of an id among the entries, if the id is known.
    #[inline(always)]
    pub(crate) fn find<V>(&self, entries: &[(ID, V)], id: &ID) -> Option<usize>
        requires { self.now.stale ≡ false →
            AreAtPositions ID.eq (keys_of entries.now) (position_in ID.eq self.now.sorted.items) }
        ensures { result ≡ position (λ e. ID.eq id.now e.0) entries.now }
    {
        // What follows a loop that finds the id is not shared with the other searches, so the
        // compiler does not test again whether the id was found.
        if !self.stale && self.sorted.len() <= FEW {
            if let Some(position) = position_of_few(&self.sorted, *id) {
                return Some(position);
            }
        }
        if self.stale {
            return search(entries, id);
        }
        self.find_among_many(id)
    }

    /// Returns the position that the list has for an id, found by halving.
    fn find_among_many(&self, id: &ID) -> Option<usize>
        ensures { result ≡ position_in ID.eq self.now.sorted.items id.now }
    {
        match self.sorted.binary_search_by(|entry| entry.0.cmp(id)) {
            Ok(rank) => Some(self.sorted[rank].1),
            Err(_) => None,
        }
    }

    /// Whether the ids of the entries are those of the list, at the same positions. If they are, no
    /// id is repeated.
    pub(crate) fn are_of<V>(&self, entries: &[(ID, V)]) -> bool
        ensures { IsTrue result → IsDistinct ID.eq (keys_of entries.now) }
    {
        if self.ranks.len() != entries.len() {
            return false;
        }
        for position in 0..entries.len() {
            if self.sorted[self.ranks[position]].0 != entries[position].0 {
                return false;
            }
        }
        true
    }

    /// Returns the ranks of the ids at the first positions.
    #[inline(always)]
    pub(crate) fn first_ranks(&self, count: usize) -> &[usize]
        requires { count ≤ length self.now.ranks.items }
        ensures { result.now ≡ take count self.now.ranks.items }
    {
        &self.ranks[..count]
    }

    /// Returns the sorted list, unless it is stale.
    pub(crate) fn sorted(&self) -> Option<&[(ID, usize)]>
        ensures { ForSome result (λ sorted. (self.now.stale ≡ false)
            × (sorted.now ≡ self.now.sorted.items)) }
    {
        if self.stale {
            return None;
        }
        Some(&self.sorted)
    }

    /// Updates the positions after an entry was moved from `last` up to `first`, unless the list is
    /// stale. It never allocates.
    #[inline(always)]
    pub(crate) fn record_move(&mut self, first: usize, last: usize)
        requires ascending { first ≤ last }
        requires within { self.old.stale ≡ false → last < length self.old.ranks.items }
        ensures stale { self.new.stale ≡ self.old.stale }
        ensures ids { keys_of self.new.sorted.items ≡ keys_of self.old.sorted.items }
        ensures shifted { self.old.stale ≡ false → (x : ID) →
            position_in ID.eq self.new.sorted.items x ≡
            option_map (position_after first last) (position_in ID.eq self.old.sorted.items x) }
        ensures one_length { length self.new.ranks.items ≡ length self.old.ranks.items }
    {
        if !self.stale {
            shift_between(&mut self.sorted, &mut self.ranks, first, last);
        }
    }
}

/// Returns the position of an id, found by comparison with one id after another.
// A loop, because after `find` of an iterator the compiler tests a second time whether there is an
// entry.
#[inline(always)]
fn position_of_few<ID: Copy + Ord>(sorted: &[(ID, usize)], id: ID) -> Option<usize>
    ensures { result ≡ position_in ID.eq sorted.now id }
{
    for entry in sorted {
        if id == entry.0 {
            return Some(entry.1);
        }
    }
    None
}

/// Returns the position of an id, searched for among the entries without the sorted list.
// It is cold, so that a look-up in the sorted list does not set up what the search needs.
#[cold]
fn search<ID: Copy + Ord, V>(entries: &[(ID, V)], id: &ID) -> Option<usize>
    ensures { result ≡ position (λ e. ID.eq id.now e.0) entries.now }
{
    entries.iter().position(|entry| *id == entry.0)
}

/// Returns the sorted ids of a progress, each with its position.
fn sorted_ids<ID: Copy + Ord, V>(
    alloc: Global,
    entries: &[(ID, V)],
) -> Result<Vec<(ID, usize)>, AllocError>
    requires { IsDistinct ID.eq (keys_of entries.now) }
    ensures ascending { IfOk result (λ sorted. IsStrictlySortedBy ID.cmp (keys_of sorted.items)) }
    ensures at_positions { IfOk result (λ sorted.
        AreAtPositions ID.eq (keys_of entries.now) (position_in ID.eq sorted.items)) }
    ensures positions { IfOk result (λ sorted. AreAllPositions (values_of sorted.items)) }
    ensures one_length { IfOk result (λ sorted. length sorted.items ≡ length entries.now) }
{
    let mut sorted = Vec::with_capacity(alloc, entries.len())?;
    for position in 0..entries.len() {
        sorted.push((entries[position].0, position))?;
    }
    sorted.sort_unstable_by_key(|entry| entry.0);
    Ok(sorted)
}

/// Returns the rank of the id at each position.
fn ranks_of<ID: Copy + Ord>(alloc: Global, sorted: &[(ID, usize)]) -> Result<Vec<usize>, AllocError>
    requires { AreAllPositions (values_of sorted.now) }
    ensures { IfOk result (λ ranks. AreInverse (values_of sorted.now) ranks.items) }
{
    let mut ranks: Vec<usize> = Vec::with_capacity(alloc, sorted.len())?;
    for rank in 0..sorted.len() {
        ranks.push(rank)?;
    }
    for rank in 0..sorted.len() {
        let position = sorted[rank].1;
        ranks[position] = rank;
    }
    Ok(ranks)
}

/// Moves the entry at `last` up to `first`, so that each entry between moves down by one position.
// Both lists are passed as slices, so that their addresses are not read again at each turn.
#[inline(always)]
fn shift_between<ID: Copy + Ord>(
    sorted: &mut [(ID, usize)],
    ranks: &mut [usize],
    first: usize,
    last: usize,
)
    requires ascending { first ≤ last }
    requires within { last < length ranks.old }
    requires inverse { AreInverse (values_of sorted.old) ranks.old }
    ensures ids { keys_of sorted.new ≡ keys_of sorted.old }
    ensures shifted { values_of sorted.new ≡ map (position_after first last)
        (values_of sorted.old) }
    ensures inverse { AreInverse (values_of sorted.new) ranks.new }
{
    let risen = ranks[last];
    let mut position = last;
    while position > first {
        let passed = ranks[position - 1];
        ranks[position] = passed;
        sorted[passed].1 = position;
        position -= 1;
    }
    ranks[first] = risen;
    sorted[risen].1 = first;
}
