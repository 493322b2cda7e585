//! Memberships by the contents of the entries that hold them.
ghost use Rattle.std.specs.Prelude.{◌≡◌, ◌++◌, ◌∷◌, ℕ, [], List, OnErr, OnOk};
ghost use Rattle.std.specs.Global.{Vec};
ghost use Rattle.std.specs.Map.{lookup};
ghost use Rattle.std.specs.Option.{option_copied};
ghost use Rattle.trace_checker.specs.Inner.Index.{place_after, place_before, place_of};
ghost use Rattle.trace_checker.specs.Memberships.{EndsWith};

use std::alloc::{AllocError, Global};
use std::collections::BTreeMap;
use std::fmt;
use std::marker::Model;

/// The memberships that entries hold, each with the content of its entry, in the order in which
/// they became known.
#[derive(Drop)]
pub struct Held<N, D: Ord> {
    list: Vec<(D, Vec<Vec<N>>)>,
    /// The place of the first membership of each content. Each entry of a trace asks for it, and a
    /// search of the list would take a time that grows with the number of changes of members.
    places: BTreeMap<D, usize>,
}

impl<N, D: Ord> Model for Held<N, D> {
    ghost use Rattle.trace_checker.specs.Memberships.{HeldList};
    ghost use Rattle.trace_checker.specs.Inner.Index.{AreIndexed};

    ghost Value = { HeldList N D };

    ghost view = { λ h. record { items = h.list.items } };

    ghost invariant = { λ h. AreIndexed D.eq D.cmp h.places.entries h.list.items };
}

// Handwritten, because the places say nothing that the list does not say.
impl<N: fmt::Debug, D: Ord + fmt::Debug> fmt::Debug for Held<N, D> {
    fn fmt<W: fmt::Write>(&self, f: &mut fmt::Formatter<W>) -> fmt::Result {
        self.list.fmt(f)
    }
}

impl<N: Copy + Ord, D: Copy + Ord> Held<N, D> {
    /// Returns no memberships.
    pub fn new(alloc: Global) -> Self
        ensures items { result.items ≡ [] }
    {
        Held {
            list: Vec::new(alloc),
            places: BTreeMap::new(alloc),
        }
    }

    /// Returns the memberships, each with the content of its entry.
    pub fn as_slice(&self) -> &[(D, Vec<Vec<N>>)]
        ensures { result.now ≡ self.now.items }
    {
        &self.list
    }

    /// Returns the configs of the first membership of a content, if there is one.
    pub fn get(&self, content: D) -> Option<&Vec<Vec<N>>>
        ensures { option_copied result ≡ lookup (λ d. D.eq d content) self.now.items }
    {
        match self.places.get(&content) {
            Some(place) => Some(&self.list[*place].1),
            None => None,
        }
    }

    /// Returns the content of the last membership.
    pub fn last_content(&self) -> Option<D>
        ensures { EndsWith self.now.items result }
    {
        let count = self.list.len();
        if count == 0 {
            return None;
        }
        Some(self.list[count - 1].0)
    }

    /// Adds a membership at the end.
    ///
    /// # Errors
    ///
    /// Out of memory. The memberships are then as they were.
    pub fn push(&mut self, content: D, configs: Vec<Vec<N>>) -> Result<(), AllocError>
        ensures items { OnOk result (self.new.items ≡ self.old.items ++ (content, configs) ∷ []) }
        ensures err { OnErr result (self.new.items ≡ self.old.items) }
    {
        let place = self.list.len();
        self.list.reserve(1)?;
        note_place(&mut self.places, content, place)?;
        self.list.push_reserved((content, configs));
        Ok(())
    }

    /// Removes the last membership, if there is one.
    pub fn pop(&mut self)
        ensures last { (before : List (D × Vec (Vec N))) → (m : D × Vec (Vec N)) →
            self.old.items ≡ before ++ m ∷ [] → self.new.items ≡ before }
        ensures none { self.old.items ≡ [] → self.new.items ≡ [] }
    {
        let Some(content) = self.last_content() else {
            return;
        };
        self.list.pop();
        let place = self.list.len();
        forget_place(&mut self.places, content, place);
    }
}

/// Notes the place of a membership of a content, unless one of the content has a place.
///
/// # Errors
///
/// Out of memory. Nothing is noted then.
fn note_place<D: Copy + Ord>(
    places: &mut BTreeMap<D, usize>,
    content: D,
    place: usize,
) -> Result<(), AllocError>
    ensures places { OnOk result ((d : D) → place_of D.cmp places.new.entries d
        ≡ place_after (place_of D.cmp places.old.entries d) (D.eq content d) place) }
    ensures err { OnErr result (places.new.entries ≡ places.old.entries) }
{
    if places.contains_key(&content) {
        return Ok(());
    }
    match places.insert(content, place) {
        Ok(_) => Ok(()),
        Err(_) => Err(AllocError),
    }
}

/// Forgets the place of the membership of a content, if the first one of the content has it.
fn forget_place<D: Copy + Ord>(places: &mut BTreeMap<D, usize>, content: D, place: usize)
    ensures { (d : D) → place_of D.cmp places.new.entries d
        ≡ place_before (place_of D.cmp places.old.entries d) (D.eq content d) place }
{
    if places.get(&content) == Some(&place) {
        places.remove(&content);
    }
}
