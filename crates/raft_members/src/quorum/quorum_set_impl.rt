//! Lists and sets of voters as quorum sets: a quorum has more than half of the voters. Shared
//! quorum sets.
ghost use Rattle.std.specs.Prelude.{◌≡◌, ◌*◌, ◌<◌, ◌≤◌, ◌||◌, Bool, IsTrue, IfOk, Some, count_by, length, nat_lt};
ghost use Rattle.std.specs.List.{IsDistinct, list_any};
ghost use Rattle.std.specs.Option.{ForSome};
ghost use Rattle.std.specs.Set.{is_member};
ghost use Rattle.std.specs.Fn.{AnyResult};
ghost use Rattle.std.specs.List.Sorted.{IsSorted, IsStrictlySortedBy};
ghost use Rattle.raft_members.specs.quorum.Majority.{is_majority};
ghost use Rattle.raft_members.specs.quorum.MajorityLawful.{is_majority-superset};
ghost use Rattle.raft_members.specs.quorum.QuorumSize.{QuorumsHaveAtLeast, SizeDecides, majority_size};

use super::quorum_set::QuorumSet;
use std::alloc::{AllocError, Global};
use std::collections::BTreeSet;
use std::rc::Rc;

/// How many voters of a long list are compared with an id before the results are tested.
const CHUNK: usize = 8;

/// A list of more voters than this is halved before it is searched, if it is in order.
// Up to here, comparing an id with all voters takes less time, because they are compared eight at a
// time, and every other halving is a mispredicted branch.
const MANY: usize = 160;

/// How many voters are left at most when a list has been halved.
const LEFT: usize = 64;

/// A quorum has more voters than half of the vector's length. A repeated voter adds to the length
/// and counts once.
impl<ID: Copy + Ord> QuorumSet<ID> for Vec<ID> {
    ghost has_quorum = { λ c s. is_majority ID.eq c.items s };

    ghost is_voter = { λ c. is_member ID.eq c.items };

    ghost superset = { λ c. is_majority-superset ID.eq c.items };

    #[inline(always)]
    fn is_quorum(&self, ids: &[ID]) -> bool {
        has_majority(self, ids)
    }

    fn least_quorum_size(&self) -> usize
        ensures exact { result ≡ majority_size self.now.items }
        ensures least { QuorumsHaveAtLeast ID.eq (is_majority ID.eq self.now.items) result }
    {
        self.as_slice().least_quorum_size()
    }

    #[inline(always)]
    fn deciding_size(&self) -> Option<usize>
        ensures exact { result ≡ Some (majority_size self.now.items) }
        ensures decides { ForSome result (SizeDecides ID.eq
            (is_majority ID.eq self.now.items) (is_member ID.eq self.now.items)) }
    {
        Some(self.least_quorum_size())
    }

    fn ids(&self, alloc: Global) -> Result<Vec<ID>, AllocError> {
        sorted_copies(alloc, self)
    }
}

/// A quorum has more voters than half of the slice's length. A repeated voter adds to the length
/// and counts once.
impl<'a, ID: Copy + Ord> QuorumSet<ID> for &'a [ID] {
    ghost has_quorum = { λ c s. is_majority ID.eq c.now s };

    ghost is_voter = { λ c. is_member ID.eq c.now };

    ghost superset = { λ c. is_majority-superset ID.eq c.now };

    #[inline(always)]
    fn is_quorum(&self, ids: &[ID]) -> bool {
        has_majority(self, ids)
    }

    fn least_quorum_size(&self) -> usize
        ensures exact { result ≡ majority_size self.now.now }
        ensures least { QuorumsHaveAtLeast ID.eq (is_majority ID.eq self.now.now) result }
    {
        self.len() / 2 + 1
    }

    #[inline(always)]
    fn deciding_size(&self) -> Option<usize>
        ensures exact { result ≡ Some (majority_size self.now.now) }
        ensures decides { ForSome result (SizeDecides ID.eq
            (is_majority ID.eq self.now.now) (is_member ID.eq self.now.now)) }
    {
        Some(self.least_quorum_size())
    }

    fn ids(&self, alloc: Global) -> Result<Vec<ID>, AllocError> {
        sorted_copies(alloc, self)
    }
}

/// A quorum has more than half of the set.
impl<ID: Copy + Ord> QuorumSet<ID> for BTreeSet<ID> {
    ghost has_quorum = { λ c s. is_majority ID.eq c.keys s };

    ghost is_voter = { λ c. is_member ID.eq c.keys };

    ghost superset = { λ c. is_majority-superset ID.eq c.keys };

    fn is_quorum(&self, ids: &[ID]) -> bool {
        has_more_than(ids, self.len() / 2, |id| self.contains(&id))
    }

    fn least_quorum_size(&self) -> usize
        ensures exact { result ≡ majority_size self.now.keys }
        ensures least { QuorumsHaveAtLeast ID.eq (is_majority ID.eq self.now.keys) result }
    {
        self.len() / 2 + 1
    }

    #[inline(always)]
    fn deciding_size(&self) -> Option<usize>
        ensures exact { result ≡ Some (majority_size self.now.keys) }
        ensures decides { ForSome result (SizeDecides ID.eq
            (is_majority ID.eq self.now.keys) (is_member ID.eq self.now.keys)) }
    {
        Some(self.least_quorum_size())
    }

    fn ids(&self, alloc: Global) -> Result<Vec<ID>, AllocError> {
        self.iter().copied().collect(alloc)
    }
}

/// A shared quorum set has the quorums and voters of the one that it shares.
impl<ID: Copy + Ord, T: QuorumSet<ID>> QuorumSet<ID> for Rc<T> {
    ghost has_quorum = { λ q s. T.has_quorum q.value s };

    ghost is_voter = { λ q x. T.is_voter q.value x };

    ghost superset = { λ q. T.superset q.value };

    fn is_quorum(&self, ids: &[ID]) -> bool {
        (**self).is_quorum(ids)
    }

    fn least_quorum_size(&self) -> usize {
        (**self).least_quorum_size()
    }

    #[inline(always)]
    fn deciding_size(&self) -> Option<usize> {
        (**self).deciding_size()
    }

    fn ids(&self, alloc: Global) -> Result<Vec<ID>, AllocError> {
        (**self).ids(alloc)
    }
}

/// Whether more than half of the voters are among the ids.
// The count is compared with half of the length, because twice the count could overflow. The
// function is inlined, because a call would add a third to the test of a short list.
#[inline(always)]
fn has_majority<ID: Copy + Ord>(voters: &[ID], ids: &[ID]) -> bool
    ensures { IsDistinct ID.eq ids.now →
        result ≡ is_majority ID.eq voters.now (is_member ID.eq ids.now) }
{
    if voters.len() >= CHUNK {
        return has_majority_of_many(voters, ids);
    }
    if voters.len() >= 4 {
        return has_majority_at_ends::<ID, 4>(voters, ids);
    }
    if voters.len() >= 2 {
        return has_majority_at_ends::<ID, 2>(voters, ids);
    }
    has_more_than(ids, voters.len() / 2, |id| has_singly(voters, id))
}

/// Whether more than half of the voters are among the ids, for a list of at least `N` and at most
/// twice as many voters. The first `N` and the last `N` are all of them.
// The number of comparisons is known at compile time, so that no comparison tests for the end.
#[inline(always)]
fn has_majority_at_ends<ID: Copy + Ord, const N: usize>(voters: &[ID], ids: &[ID]) -> bool
    requires { (N ≤ length voters.now) × (length voters.now ≤ 2 * N) }
    ensures { IsDistinct ID.eq ids.now →
        result ≡ is_majority ID.eq voters.now (is_member ID.eq ids.now) }
{
    let (Some(first), Some(last)) = (voters.first_chunk::<N>(), voters.last_chunk::<N>()) else {
        unreachable!()
    };
    has_more_than(
        ids,
        voters.len() / 2,
        |id| -> bool
            ensures { result ≡ (list_any (λ y. ID.eq y id) first.entry.now
                || list_any (λ y. ID.eq y id) last.entry.now) }
        { has_at_ends(first, last, id) },
    )
}

/// Whether the id is among the first voters or the last ones.
#[inline(always)]
fn has_at_ends<ID: Copy + Ord, const N: usize>(first: &[ID; N], last: &[ID; N], id: ID) -> bool
    ensures { result ≡
        (list_any (λ y. ID.eq y id) first.now || list_any (λ y. ID.eq y id) last.now) }
{
    first.iter().any(|voter| *voter == id) || last.iter().rev().any(|voter| *voter == id)
}

/// Whether more than half of the voters are among the ids, for a long list.
// A separate function, so that a test of a short list does not need its registers.
#[inline(never)]
fn has_majority_of_many<ID: Copy + Ord>(voters: &[ID], ids: &[ID]) -> bool
    ensures { IsDistinct ID.eq ids.now →
        result ≡ is_majority ID.eq voters.now (is_member ID.eq ids.now) }
{
    if are_many_in_order(voters) {
        return has_more_than(ids, voters.len() / 2, |id| has_in_order(voters, id));
    }
    has_more_than(ids, voters.len() / 2, |id| has(voters, id))
}

/// Whether there are many voters, and no voter is below the one before it.
fn are_many_in_order<ID: Copy + Ord>(voters: &[ID]) -> bool
    ensures { IsTrue result → IsSorted ID.cmp voters.now }
{
    voters.len() > MANY && voters.is_sorted()
}

/// Whether more than `limit` of the ids are voters. A repeated id counts each time. The function
/// returns at the first id past the limit, and at once if there are too few ids.
#[inline(always)]
pub(super) fn has_more_than<ID: Copy + Ord, F: Fn(ID) -> bool>(
    ids: &[ID],
    limit: usize,
    is_voter: F,
) -> bool
    requires { F.IsAlwaysCallable is_voter }
    ensures { (voter : ID → Bool) →
        ((x : ID) → AnyResult F.Fn is_voter (x, tt) (λ b. b ≡ voter x)) →
        result ≡ nat_lt limit (count_by voter ids.now) }
{
    if ids.len() <= limit {
        return false;
    }
    let mut found = 0;
    for id in ids {
        if is_voter(*id) {
            if found == limit {
                return true;
            }
            found += 1;
        }
    }
    false
}

/// Whether the id is among the voters.
// A short list is compared without chunks, because setting up chunks takes as long as its
// comparisons.
fn has<ID: Copy + Ord>(voters: &[ID], id: ID) -> bool
    ensures { result ≡ list_any (λ y. ID.eq y id) voters.now }
{
    if voters.len() < CHUNK {
        return has_singly(voters, id);
    }
    let (chunks, rest) = voters.as_chunks::<CHUNK>();
    for chunk in chunks {
        if chunk_has(chunk, id) {
            return true;
        }
    }
    has_singly(rest, id)
}

/// Whether the id is among voters that are in order.
pub(super) fn has_in_order<ID: Copy + Ord>(voters: &[ID], id: ID) -> bool
    ensures { IsSorted ID.cmp voters.now → result ≡ list_any (λ y. ID.eq y id) voters.now }
{
    has(part_with(voters, id), id)
}

/// Returns at most `LEFT` of voters that are in order. If the id is among the voters, it is among
/// these.
fn part_with<ID: Copy + Ord>(voters: &[ID], id: ID) -> &[ID]
    ensures { IsSorted ID.cmp voters.now →
        list_any (λ y. ID.eq y id) result.now ≡ list_any (λ y. ID.eq y id) voters.now }
{
    let mut part = voters;
    while part.len() > LEFT {
        part = half_with(part, id);
    }
    part
}

/// Returns a half of voters that are in order. If the id is among the voters, it is in this half.
fn half_with<ID: Copy + Ord>(voters: &[ID], id: ID) -> &[ID]
    requires { 2 ≤ length voters.now }
    ensures shorter { length result.now < length voters.now }
    ensures in_order { IsSorted ID.cmp voters.now → IsSorted ID.cmp result.now }
    ensures same { IsSorted ID.cmp voters.now →
        list_any (λ y. ID.eq y id) result.now ≡ list_any (λ y. ID.eq y id) voters.now }
{
    let (front, back) = voters.split_at(voters.len() / 2);
    if id.cmp(&back[0]).is_lt() {
        front
    } else {
        back
    }
}

/// Whether the id is among the voters, by one comparison after another.
fn has_singly<ID: Copy + Ord>(voters: &[ID], id: ID) -> bool
    ensures { result ≡ list_any (λ y. ID.eq y id) voters.now }
{
    voters.iter().any(|voter| *voter == id)
}

/// Whether the id is among the voters of a chunk.
// All voters are compared, without an early exit, so that the compiler uses vector instructions.
fn chunk_has<ID: Copy + Ord>(chunk: &[ID; CHUNK], id: ID) -> bool
    ensures { result ≡ list_any (λ y. ID.eq y id) chunk.now }
{
    let mut found = false;
    for voter in chunk {
        found |= *voter == id;
    }
    found
}

/// Returns the ids in order, each once.
pub(crate) fn sorted<ID: Copy + Ord>(mut ids: Vec<ID>) -> Vec<ID>
    ensures ascending { IsStrictlySortedBy ID.cmp result.items }
    ensures members { (x : ID) → is_member ID.eq result.items x ≡ is_member ID.eq ids.items x }
{
    ids.sort_unstable();
    ids.dedup();
    ids
}

/// Returns copies of the ids in order, each once.
pub(super) fn sorted_copies<ID: Copy + Ord>(
    alloc: Global,
    ids: &[ID],
) -> Result<Vec<ID>, AllocError>
    ensures ascending { IfOk result (λ found. IsStrictlySortedBy ID.cmp found.items) }
    ensures members { IfOk result (λ found.
        (x : ID) → is_member ID.eq found.items x ≡ is_member ID.eq ids.now x) }
{
    let copies = Vec::from_slice(alloc, ids)?;
    Ok(sorted(copies))
}
