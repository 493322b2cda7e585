//! The term that a server has reached, and what it has kept since its earlier terms.
ghost use Rattle.std.specs.Prelude.{◌≡◌, ◌-◌, ◌<◌, ◌≤◌, ℕ, get_or, length, vec_capacity, vec_len};
ghost use Rattle.trace_checker.specs.Inner.CheckerState.{kept_after, kept_from};
ghost use Rattle.trace_checker.specs.Inner.TermsState.{IsRising, last_kept, lowered};

use std::alloc::{AllocError, Global};
use std::marker::Model;

/// How many first entries a server has kept since it left a term.
#[derive(Clone, Copy)]
pub struct Kept {
    /// The rank of the term.
    pub term: u128,
    /// How many first entries.
    pub len: usize,
}

/// The term that a server has reached, and how many first entries it has kept since it left its
/// earlier terms.
///
/// Since a later term a server has kept at least as many entries as since an earlier one. So if it
/// drops entries, only the last items change, and they become one. A search begins with the last
/// item.
#[derive(Drop)]
pub struct Terms {
    term: u128,
    /// An item for each number of entries, with the first term since which as many are kept.
    kept: Vec<Kept>,
}

impl Model for Terms {
    ghost use Rattle.std.specs.Prelude.{◌-◌, vec_capacity, vec_len};
    ghost use Rattle.trace_checker.specs.Inner.TermsState.{IsRising, TermsState};

    ghost Value = { TermsState };

    ghost view = { λ t. record {
      term = t.term;
      kept = t.kept.items;
      room = vec_capacity t.kept - vec_len t.kept;
    } };

    ghost invariant = { λ t. IsRising 0 0 t.term t.kept.items };
}

impl Terms {
    ghost use Rattle.std.specs.Prelude.{◌≡◌, ◌<◌, ℕ, [], OnOk, if◌then◌else◌, max, min, nat_le};
    ghost use Rattle.trace_checker.specs.Inner.CheckerState.{kept_after, kept_from};

    /// Returns the terms of a server that has reached none.
    pub fn new(alloc: Global) -> Self
        ensures term { result.term ≡ 0 }
        ensures kept { result.kept ≡ [] }
    {
        Terms {
            term: 0,
            kept: Vec::new(alloc),
        }
    }

    /// Returns the rank of the term that the server has reached.
    pub fn term(&self) -> u128
        ensures { result ≡ self.now.term }
    {
        self.term
    }

    /// How many first entries the server has kept since its term was at most this rank, if it has
    /// a log of this length now.
    pub fn kept_since(&self, rank: u128, len: usize) -> usize
        ensures { result ≡ (if nat_le self.now.term rank then len
            else kept_from 0 self.now.kept rank) }
    {
        if self.term <= rank {
            return len;
        }
        kept_since(&self.kept, rank)
    }

    /// Reserves capacity for one term more.
    ///
    /// # Errors
    ///
    /// Out of memory.
    pub fn make_room(&mut self) -> Result<(), AllocError>
        ensures room { OnOk result (0 < self.new.room) }
        ensures rest { self.new ≡ record self.old { room = self.new.room } }
    {
        self.kept.reserve(1)
    }

    /// Reaches a term with a log of this length. If the server has passed the term, nothing
    /// changes.
    pub fn reach(&mut self, next: u128, len: usize)
        requires { 0 < self.old.room }
        ensures term { self.new.term ≡ max self.old.term next }
        ensures kept { (r : ℕ) → kept_from 0 self.new.kept r
            ≡ kept_after self.old.kept self.old.term len next r }
    {
        if next <= self.term {
            return;
        }
        leave(&mut self.kept, self.term, len);
        self.term = next;
    }

    /// Counts no more first entries as kept.
    pub fn keep_at_most(&mut self, len: usize)
        ensures term { self.new.term ≡ self.old.term }
        ensures kept { (r : ℕ) → kept_from 0 self.new.kept r
            ≡ min (kept_from 0 self.old.kept r) len }
    {
        lower(&mut self.kept, len);
    }
}

/// Returns how many first entries are kept since the last term of at most this rank.
fn kept_since(kept: &[Kept], rank: u128) -> usize
    ensures { result ≡ kept_from 0 kept.now rank }
{
    for i in (0..kept.len()).rev() {
        if kept[i].term <= rank {
            return kept[i].len;
        }
    }
    0
}

/// Returns how many first entries are kept since the last term of all.
fn last_len(kept: &[Kept]) -> usize
    ensures { result ≡ last_kept 0 kept.now }
{
    let len = kept.len();
    if len == 0 {
        return 0;
    }
    kept[len - 1].len
}

/// Returns the number of first items before the last ones, which are greater than this length.
fn count_at_most(kept: &[Kept], len: usize) -> usize
    ensures within { result ≤ length kept.now }
    ensures after { (i : ℕ) (d : Kept) → result ≤ i → i < length kept.now →
        len < (get_or kept.now i d).len }
    ensures before { (d : Kept) → 0 < result → (get_or kept.now (result - 1) d).len ≤ len }
{
    for i in (0..kept.len()).rev() {
        if kept[i].len <= len {
            return i + 1;
        }
    }
    0
}

/// Notes how many first entries a server has when it leaves a term for a greater one.
fn leave(kept: &mut Vec<Kept>, term: u128, len: usize)
    requires { vec_len kept.old < vec_capacity kept.old }
    ensures rising { IsRising 0 0 term kept.old.items → (next : ℕ) → term < next →
        IsRising 0 0 next kept.new.items }
    ensures kept { IsRising 0 0 term kept.old.items → (next r : ℕ) → term < next →
        kept_from 0 kept.new.items r ≡ kept_after kept.old.items term len next r }
{
    if last_len(kept) < len {
        kept.push(Kept { term, len }).unwrap();
        return;
    }
    lower(kept, len);
}

/// Lowers what is kept to at most so many first entries.
fn lower(kept: &mut Vec<Kept>, len: usize)
    ensures { (top : ℕ) → IsRising 0 0 top kept.old.items →
        kept.new.items ≡ lowered len kept.old.items }
{
    let count = count_at_most(kept, len);
    if count < kept.len() {
        kept[count].len = len;
        kept.truncate(count + 1);
    }
}
