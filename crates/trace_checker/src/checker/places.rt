//! Where the leaders of a rank are in the list of all leaders.
ghost use Rattle.std.specs.Prelude.{◌≡◌, ◌<◌, ◌&&◌, ℕ, true, IfSome, OnErr, OnOk, Some};
ghost use Rattle.std.specs.List.{position};
ghost use Rattle.std.specs.VecDeque.{deque_len};
ghost use Rattle.trace_checker.specs.Inner.Places.{ArePlaced, first_of, place_of};

use super::leader::Leader;
use crate::term::Term;
use std::alloc::AllocError;
use std::collections::{BTreeMap, VecDeque};

/// The numbers between which the leaders of a rank are. The oldest leader of all is number 0.
pub type Places = BTreeMap<u128, (usize, usize)>;

/// Returns the position of a candidate or leader of a term, if it has campaigned. The newest leader
/// is first.
pub fn leader_at<T: Term, N: Copy + Eq>(
    leaders: &VecDeque<Leader<T, N>>,
    places: &Places,
    term: T,
    id: N,
) -> Option<usize>
    ensures place { ((x y : T) → T.eq x y ≡ true → x ≡ y) →
        ArePlaced T.rank places.now.entries leaders.now.items →
        result ≡ position (λ l. T.eq l.term term && N.eq l.id id) leaders.now.items }
    ensures within { IfSome result (λ j. j < deque_len leaders.now) }
{
    let count = leaders.len();
    if count == 0 {
        return None;
    }
    // Most events are about the newest leader.
    if is_leader(&leaders[0], term, id) {
        return Some(0);
    }
    let Some(place) = places.get(&term.rank()) else {
        return None;
    };
    let (first, last) = *place;
    let from = count.saturating_sub(last.saturating_add(1));
    let to = count.saturating_sub(first);
    for j in from..to {
        if is_leader(&leaders[j], term, id) {
            return Some(j);
        }
    }
    None
}

/// Whether this is the candidate or leader of a term.
fn is_leader<T: Term, N: Copy + Eq>(leader: &Leader<T, N>, term: T, id: N) -> bool
    ensures { result ≡ (T.eq leader.now.term term && N.eq leader.now.id id) }
{
    leader.term == term && leader.id == id
}

/// Notes that a leader of a rank has this number.
///
/// # Errors
///
/// Out of memory. Nothing is noted then.
pub fn note_place(places: &mut Places, rank: u128, number: usize) -> Result<(), AllocError>
    ensures here { OnOk result (place_of places.new.entries rank
        ≡ Some (first_of (place_of places.old.entries rank) number, number)) }
    ensures others { OnOk result ((q : ℕ) → (q ≡ rank → ⊥) →
        place_of places.new.entries q ≡ place_of places.old.entries q) }
    ensures err { OnErr result (places.new.entries ≡ places.old.entries) }
{
    let first = first_place(places, rank, number);
    match places.insert(rank, (first, number)) {
        Ok(_) => Ok(()),
        Err(_) => Err(AllocError),
    }
}

/// Returns the first number of a rank, after a leader of the rank has this number.
fn first_place(places: &Places, rank: u128, number: usize) -> usize
    ensures { result ≡ first_of (place_of places.now.entries rank) number }
{
    match places.get(&rank) {
        Some(place) => place.0.min(number),
        None => number,
    }
}
