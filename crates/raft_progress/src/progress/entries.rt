//! The entries of a progress: how they are made and cloned, how a voter moves up among them, and
//! which prefix of the voters is the shortest quorum.
ghost use Rattle.std.specs.Prelude.{◌≡◌, ◌-◌, ◌<◌, ◌≤◌, length, take, OnOk, IfOk};
ghost use Rattle.std.specs.List.{AllZip, IsDistinct, prefix_len, swap};
ghost use Rattle.std.specs.Map.{keys_of};
ghost use Rattle.raft_progress.specs.Inner.Placed.{IsPlaced};
ghost use Rattle.raft_progress.specs.Inner.Recount.{exceeds};
ghost use Rattle.raft_progress.specs.Inner.Rises.{IsShortestPrefix, RisesTo};

use super::part::ProgressPart;
use raft_members::quorum::QuorumSet;
use std::alloc::{AllocError, Global};
use std::mem;

/// Appends the ids, each with a clone of the default.
pub(crate) fn append_ids<ID: Copy, V: Clone>(
    entries: &mut Vec<(ID, V)>,
    ids: &[ID],
    default: &V,
) -> Result<(), AllocError>
    ensures { OnOk result
        (IsPlaced V.is_clone default.now ids.now entries.old.items entries.new.items) }
{
    for id in ids {
        entries.push((*id, default.clone()?))?;
    }
    Ok(())
}

/// Returns a clone of each entry.
pub(crate) fn clone_entries<ID: Copy, V: Clone>(
    alloc: Global,
    entries: &[(ID, V)],
) -> Result<Vec<(ID, V)>, AllocError>
    ensures { IfOk result (λ made.
        AllZip (λ d e. (e.0 ≡ d.0) × V.is_clone d.1 e.1) entries.now made.items) }
{
    let mut made = Vec::new(alloc);
    for entry in entries {
        made.push((entry.0, entry.1.clone()?))?;
    }
    Ok(made)
}

/// Returns a copy of the ids.
pub(crate) fn copy_ids<ID: Copy>(alloc: Global, ids: &[ID]) -> Result<Vec<ID>, AllocError>
    ensures { IfOk result (λ made. made.items ≡ ids.now) }
{
    ids.iter().copied().collect(alloc)
}

/// Moves an entry up past the entries directly before it whose parts are less. Returns its new
/// position.
pub(crate) fn move_up<ID: Copy, V: ProgressPart<P>, P: Copy + Ord>(
    entries: &mut Vec<(ID, V)>,
    position: usize,
) -> usize
    requires { position < length entries.old.items }
    ensures { RisesTo P.cmp V.part_of entries.old.items position entries.new.items result }
{
    let part = entries[position].1.part();
    let mut at = position;
    while at > 0 {
        if !entries[at - 1].1.part().cmp(&part).is_lt() {
            return at;
        }
        swap_with_previous(entries, at);
        at -= 1;
    }
    at
}

/// Swaps the entry at a position with the one before it.
// Ids and values are swapped separately, because a swap of whole entries copies one of them aside
// and back.
fn swap_with_previous<ID: Copy, V>(entries: &mut Vec<(ID, V)>, position: usize)
    requires { (0 < position) × (position < length entries.old.items) }
    ensures { entries.new.items ≡ swap entries.old.items (position - 1) position }
{
    let (front, back) = entries.split_at_mut(position);
    let before = &mut front[position - 1];
    let entry = &mut back[0];
    mem::swap(&mut before.0, &mut entry.0);
    mem::swap(&mut before.1, &mut entry.1);
}

/// Writes the ids of the first voters, those whose part exceeds `least`, to the beginning of the
/// scratch space. Returns their number.
pub(crate) fn gather_leading<ID: Copy, V: ProgressPart<P>, P: Copy + Ord>(
    voters: &[(ID, V)],
    least: P,
    scratch: &mut [ID],
) -> usize
    requires { length voters.now ≤ length scratch.old }
    ensures count { result ≡ prefix_len (exceeds P.cmp V.part_of least) voters.now }
    ensures prefix { take result scratch.new ≡ keys_of (take result voters.now) }
{
    let mut n = 0;
    for entry in voters {
        if !least.cmp(&entry.1.part()).is_lt() {
            return n;
        }
        scratch[n] = entry.0;
        n += 1;
    }
    n
}

/// The shortest prefix of the voters that is a quorum, and what it took to find it.
#[derive(Clone, Copy)]
pub(crate) struct ShortestQuorum {
    /// The length of the prefix, if there is one.
    pub len: Option<usize>,
    /// The number of prefixes that were tested.
    pub tests: u64,
}

/// Finds the shortest prefix of the voters that is a quorum, among those longer than `low` and at
/// most `high` long, by halving. The ids begin with those of the first `high` voters.
///
/// A prefix that contains a quorum is a quorum, so each test halves the remaining prefixes. There
/// are at most k tests if the number of voters is less than 2^k. Each test takes the longest prefix
/// that this bound allows. If that prefix is no quorum, no other one is, and one test is enough.
#[inline(always)]
pub(crate) fn find_shortest_quorum<ID: Copy + Ord, V, QS: QuorumSet<ID>>(
    quorum_set: &QS,
    voters: &[(ID, V)],
    low: usize,
    high: usize,
    ids: &[ID],
) -> ShortestQuorum
    requires within { high ≤ length voters.now }
    requires fits { length voters.now ≤ length ids.now }
    requires gathered { take high ids.now ≡ keys_of (take high voters.now) }
    requires distinct { IsDistinct ID.eq (keys_of voters.now) }
    ensures { IsShortestPrefix ID.eq (QS.has_quorum quorum_set.now) voters.now
        low high result.len result.tests }
{
    // If a single prefix is left, as is usual when the voters follow their leader, one test is
    // enough.
    let prefixes = high.saturating_sub(low);
    if prefixes == 1 {
        let passed = quorum_set.is_quorum(&ids[..high]);
        let len = passed.then_some(high);
        return ShortestQuorum { len, tests: 1 };
    }
    let mut tests = 0;
    let mut failed = low;
    let mut end = high;
    let mut left = voters.len();
    while failed < end {
        left /= 2;
        let len = end.min((failed + 1).saturating_add(left));
        tests += 1;
        if quorum_set.is_quorum(&ids[..len]) {
            end = len - 1;
        } else {
            failed = len;
        }
    }
    // A test that passes leaves only the shorter prefixes.
    let len = if end < high { Some(end + 1) } else { None };
    ShortestQuorum { len, tests }
}
