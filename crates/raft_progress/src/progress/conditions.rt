//! Tests of preconditions: whether learners fit, whether a progress is in order, and whether a
//! value's part falls. It also has the ids of a quorum set and its learners.
ghost use Rattle.std.specs.Prelude.{◌≡◌, ◌↔◌, ◌++◌, ◌≤◌, IfOk, IsTrue, length};
ghost use Rattle.std.specs.Map.{keys_of};
ghost use Rattle.std.specs.List.{IsDistinct, list_all, list_any};
ghost use Rattle.std.specs.List.Sorted.{IsSorted};
ghost use Rattle.std.specs.Option.{option_copied};
ghost use Rattle.raft_progress.specs.Inner.Recount.{at_least};
ghost use Rattle.raft_progress.specs.Inner.Conditions.{ids_differ, is_below_bound, is_ordered, never_rises};
ghost use Rattle.raft_progress.specs.progress.Steps.{falls};

use super::part::ProgressPart;
use super::positions::FEW;
use std::alloc::AllocError;

/// Returns the ids, followed by the learners.
pub(crate) fn with_learners<ID: Copy + Ord>(
    ids: Vec<ID>,
    learners: &[ID],
) -> Result<Vec<ID>, AllocError>
    ensures { IfOk result (λ all. all.items ≡ ids.items ++ learners.now) }
{
    let mut all = ids;
    for id in learners {
        all.push(*id)?;
    }
    Ok(all)
}

/// Whether no id is repeated.
// The ids are sorted, so that equal ones are neighbours.
pub(crate) fn are_distinct<ID: Copy + Ord>(mut ids: Vec<ID>) -> bool
    ensures { IsTrue result ↔ IsDistinct ID.eq ids.items }
{
    ids.sort_unstable();
    have_no_equal_neighbours(&ids)
}

/// Whether no id of a sorted list equals the one before it.
fn have_no_equal_neighbours<ID: Copy + Ord>(ids: &[ID]) -> bool
    requires { IsSorted ID.cmp ids.now }
    ensures { IsTrue result ↔ IsDistinct ID.eq ids.now }
{
    for position in 1..ids.len() {
        if ids[position - 1] == ids[position] {
            return false;
        }
    }
    true
}

/// Whether an entry has the id.
fn has_id<ID: Copy + Ord, V>(entries: &[(ID, V)], id: ID) -> bool
    ensures { result ≡ list_any (λ e. ID.eq e.0 id) entries.now }
{
    entries.iter().any(|entry| entry.0 == id)
}

/// Whether no id is repeated, by a comparison of each two ids.
fn has_distinct_ids<ID: Copy + Ord, V>(entries: &[(ID, V)]) -> bool
    ensures { result ≡ ids_differ ID.eq entries.now }
{
    for position in 0..entries.len() {
        if has_id(&entries[position + 1..], entries[position].0) {
            return false;
        }
    }
    true
}

/// Writes the ids of the voters to the scratch space.
fn write_ids<ID: Copy, V>(voters: &[(ID, V)], scratch: &mut [ID])
    requires { length scratch.old ≡ length voters.now }
    ensures { scratch.new ≡ keys_of voters.now }
{
    for position in 0..voters.len() {
        scratch[position] = voters[position].0;
    }
}

/// Whether an id of the learners is an id of the voters.
fn share_id<ID: Copy + Ord, V>(voters: &[(ID, V)], learners: &[(ID, V)]) -> bool
    ensures { result ≡ list_any (λ e. list_any (λ f. ID.eq f.0 e.0) voters.now) learners.now }
{
    learners.iter().any(|entry| has_id(voters, entry.0))
}

/// Whether no id is repeated, for many voters and few learners.
// The ids of the voters are sorted in the scratch space, so that equal ones are
// neighbours.
fn has_distinct_voters<ID: Copy + Ord, V>(
    voters: &[(ID, V)],
    learners: &[(ID, V)],
    scratch: &mut [ID],
) -> bool
    requires { length scratch.old ≡ length voters.now }
    ensures { IsTrue result ↔ IsDistinct ID.eq (keys_of (voters.now ++ learners.now)) }
{
    write_ids(voters, scratch);
    scratch.sort_unstable();
    if !have_no_equal_neighbours(scratch) {
        return false;
    }
    if !has_distinct_ids(learners) {
        return false;
    }
    if share_id(voters, learners) {
        return false;
    }
    true
}

/// Whether no id is repeated. If that is known already, no ids are compared.
pub(crate) fn are_ids_distinct<ID: Copy + Ord, V>(
    known: bool,
    entries: &[(ID, V)],
    voter_count: usize,
    scratch: &mut [ID],
) -> bool
    requires known { IsTrue known → IsDistinct ID.eq (keys_of entries.now) }
    requires voters { voter_count ≤ length entries.now }
    requires scratch { length scratch.old ≡ voter_count }
    ensures { result ≡ ids_differ ID.eq entries.now }
{
    if known {
        return true;
    }
    if entries.len() > FEW {
        let (voters, learners) = entries.split_at(voter_count);
        return has_distinct_voters(voters, learners, scratch);
    }
    has_distinct_ids(entries)
}

/// Whether no voter whose part exceeds `granted` comes directly after one with a lesser part.
fn is_falling<ID: Copy, V: ProgressPart<P>, P: Copy + Ord>(voters: &[(ID, V)], granted: P) -> bool
    ensures { result ≡ never_rises P.cmp V.part_of granted voters.now }
{
    for position in 1..voters.len() {
        let part = voters[position].1.part();
        let before = voters[position - 1].1.part();
        if granted.cmp(&part).is_lt() && before.cmp(&part).is_lt() {
            return false;
        }
    }
    true
}

/// Whether each entry's part is at least `least`.
pub(crate) fn is_at_least<ID: Copy, V: ProgressPart<P>, P: Copy + Ord>(
    entries: &[(ID, V)],
    least: P,
) -> bool
    ensures { result ≡ list_all (at_least P.cmp V.part_of least) entries.now }
{
    entries
        .iter()
        .all(|entry| least.cmp(&entry.1.part()).is_le())
}

/// Whether no voter above `granted` comes directly after one with a lesser part, and no voter's
/// part is below the least allowed one.
pub(crate) fn is_ordered<ID: Copy + Ord, V: ProgressPart<P>, P: Copy + Ord>(
    voters: &[(ID, V)],
    granted: P,
    least: P,
) -> bool
    ensures { result ≡ is_ordered P.cmp V.part_of granted least voters.now }
{
    is_falling(voters, granted) && is_at_least(voters, least)
}

/// Whether an id or a part is below a bound, or there is no bound.
pub(crate) fn is_below_bound<T: Copy + Ord>(one: T, bound: Option<T>) -> bool
    ensures { result ≡ is_below_bound T.cmp one bound }
{
    match bound {
        Some(bound) => one.cmp(&bound).is_lt(),
        None => true,
    }
}

/// Whether the value's part is below the part of the present value.
pub(crate) fn would_fall<V: ProgressPart<P>, P: Copy + Ord>(current: Option<&V>, value: &V) -> bool
    ensures { result ≡ falls P.cmp V.part_of (option_copied current.entry) value.now }
{
    match current {
        Some(current) => value.part().cmp(&current.part()).is_lt(),
        None => false,
    }
}
