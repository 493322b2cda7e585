//! The operations of a list over plain keys. The list keeps its keys in order.
ghost use Rattle.std.specs.Prelude.{◌≡◌, ◌+◌, ◌<◌, ◌≤◌, ◌&&◌, length, map, nat_le, if◌then◌else◌, None, IfSome, IfNone, IsOk, OnOk, OnErr, IsTrue, [], vec_len};
ghost use Rattle.std.specs.Vec.{vec_capacity};
ghost use Rattle.raft_state.specs.log_id_list.FullLog.{full_log, end_index};
ghost use Rattle.raft_state.specs.log_id_list.LogReads.{id_at, last_id, last_two_share_leader};
ghost use Rattle.raft_state.specs.log_id_list.LogConditions.{follows, all_follow, ends_share_leader};
ghost use Rattle.raft_state.specs.log_id_list.Keys.{key_follows, may_be_keys, by_last_leader as last_leader_keys};
ghost use Rattle.raft_state.specs.Inner.KeyList.{Rises, keys_to};
ghost use Rattle.raft_state.specs.Inner.LeaderRange.{HasOneLeader};
ghost use Rattle.raft_state.specs.Inner.KeyEdits.{keys_after_append, keys_after_extend, keys_below, keys_after_purge};

use raft_base::{LogIdOf, RaftLogId};
use std::alloc::AllocError;

/// Whether these may be the keys of a list: indexes and leaders rise, and only the last two may
/// share a leader.
pub fn is_key_list<C: Ord + Copy>(keys: &[LogIdOf<C>]) -> bool
    ensures { result ≡ may_be_keys C.cmp keys.now }
{
    for place in 1..keys.len() {
        if !key_may_follow(keys[place - 1], keys[place], keys.len() - place == 1) {
            return false;
        }
    }
    true
}

/// Whether a key may be followed by another one, at the end of the list or before it.
fn key_may_follow<C: Ord + Copy>(key: LogIdOf<C>, next: LogIdOf<C>, at_end: bool) -> bool
    ensures { result ≡ key_follows C.cmp key next at_end }
{
    key.index < next.index
        && if at_end {
            key.leader_id <= next.leader_id
        } else {
            key.leader_id < next.leader_id
        }
}

/// Whether a log id may come after the last one.
pub fn may_follow<C: Ord + Copy>(last: Option<LogIdOf<C>>, id: LogIdOf<C>) -> bool
    ensures { result ≡ follows C.cmp last id }
{
    match last {
        None => true,
        Some(last) => last.index < id.index && last.leader_id <= id.leader_id,
    }
}

/// Whether log ids may come one after the other, with the first one after `last`.
pub fn may_all_follow<C: Ord + Copy, LID: RaftLogId<C>>(
    last: Option<LogIdOf<C>>,
    ids: &[LID],
) -> bool
    ensures { result ≡ all_follow C.cmp last (map LID.id_of ids.now) }
{
    let mut last = last;
    for id in ids {
        let id = *id.get_log_id();
        if !may_follow(last, id) {
            return false;
        }
        last = Some(id);
    }
    true
}

/// Whether the first and the last of these log ids share a leader, or there are none.
pub fn share_leader<C: Ord + Copy, LID: RaftLogId<C>>(ids: &[LID]) -> bool
    ensures { result ≡ ends_share_leader C.eq (map LID.id_of ids.now) }
{
    match (ids.first(), ids.last()) {
        (Some(first), Some(last)) => first.get_log_id().leader_id == last.get_log_id().leader_id,
        _ => true,
    }
}

/// Appends a log id. It replaces the last key if the last two share a leader.
pub fn append<C: Ord + Copy>(keys: &mut Vec<LogIdOf<C>>, id: LogIdOf<C>) -> Result<(), AllocError>
    ensures ok { OnOk result (keys.new.items ≡ keys_after_append C.eq keys.old.items id) }
    ensures err { OnErr result (keys.new.items ≡ keys.old.items) }
    ensures room { vec_len keys.old < vec_capacity keys.old → IsOk result }
    ensures no_memory { IsTrue (last_two_share_leader C.eq keys.old.items) → IsOk result }
    ensures len { vec_len keys.new ≤ vec_len keys.old + 1 }
    ensures capacity { vec_capacity keys.old ≤ vec_capacity keys.new }
{
    let count = keys.len();
    if count >= 2 && keys[count - 2].leader_id == keys[count - 1].leader_id {
        keys[count - 1] = id;
    } else {
        keys.push(id)?;
    }
    Ok(())
}

/// Appends log ids that may come one after the other. If they have one leader, only the first and
/// the last one become keys.
pub fn extend<C: Ord + Copy, LID: RaftLogId<C>>(
    keys: &mut Vec<LogIdOf<C>>,
    ids: &[LID],
) -> Result<(), AllocError>
    requires { IsTrue (all_follow C.cmp (last_id keys.old.items) (map LID.id_of ids.now)) }
    ensures ok { OnOk result
        (keys.new.items ≡ keys_after_extend C.eq keys.old.items (map LID.id_of ids.now)) }
    ensures err { OnErr result (keys.new.items ≡ keys.old.items) }
    ensures no_memory { ids.now ≡ [] → IsOk result }
{
    if share_leader(ids) {
        extend_by_ends(keys, ids)
    } else {
        extend_by_each(keys, ids)
    }
}

/// Appends log ids one after the other. It allocates first, so that no later one fails.
fn extend_by_each<C: Ord + Copy, LID: RaftLogId<C>>(
    keys: &mut Vec<LogIdOf<C>>,
    ids: &[LID],
) -> Result<(), AllocError>
    ensures ok { OnOk result
        (keys.new.items ≡ keys_after_extend C.eq keys.old.items (map LID.id_of ids.now)) }
    ensures err { OnErr result (keys.new.items ≡ keys.old.items) }
    ensures no_memory { ids.now ≡ [] → IsOk result }
{
    keys.reserve(ids.len())?;
    for id in ids {
        append(keys, *id.get_log_id())?;
    }
    Ok(())
}

/// Appends log ids of one leader. Only the first and the last one become keys.
pub fn extend_by_ends<C: Ord + Copy, LID: RaftLogId<C>>(
    keys: &mut Vec<LogIdOf<C>>,
    ids: &[LID],
) -> Result<(), AllocError>
    requires follow { IsTrue (all_follow C.cmp (last_id keys.old.items) (map LID.id_of ids.now)) }
    requires one_leader { IsTrue (ends_share_leader C.eq (map LID.id_of ids.now)) }
    ensures ok { OnOk result
        (keys.new.items ≡ keys_after_extend C.eq keys.old.items (map LID.id_of ids.now)) }
    ensures err { OnErr result (keys.new.items ≡ keys.old.items) }
    ensures no_memory { ids.now ≡ [] → IsOk result }
{
    if let (Some(first), Some(last)) = (ids.first(), ids.last()) {
        keys.reserve(ids.len().min(2))?;
        append(keys, *first.get_log_id())?;
        if ids.len() > 1 {
            append(keys, *last.get_log_id())?;
        }
    }
    Ok(())
}

/// Keeps the keys of the log ids below an index.
pub fn truncate<C: Ord + Copy>(keys: &mut Vec<LogIdOf<C>>, at: u64)
    requires { IsTrue (may_be_keys C.cmp keys.old.items) }
    ensures { keys.new.items ≡ keys_below keys.old.items at }
{
    if at == 0 {
        keys.clear();
        return;
    }
    let end = at - 1;
    let kept = count_to(keys, end);
    if kept == 0 {
        keys.clear();
        return;
    }
    if kept == keys.len() {
        return;
    }
    let last = keys[kept - 1];
    if last.index < end {
        // The position of the next key is free for the new last one.
        keys[kept] = LogIdOf::new(last.leader_id, end);
        keys.truncate(kept + 1);
    } else {
        keys.truncate(kept);
    }
}

/// Keeps the keys of what a purge leaves.
pub fn purge<C: Ord + Copy>(keys: &mut Vec<LogIdOf<C>>, upto: LogIdOf<C>) -> Result<(), AllocError>
    requires { IsTrue (may_be_keys C.cmp keys.old.items) }
    ensures ok { OnOk result (keys.new.items ≡ keys_after_purge keys.old.items upto) }
    ensures was_empty { OnErr result (keys.old.items ≡ []) }
    ensures err { OnErr result (keys.new.items ≡ keys.old.items) }
{
    let count = keys.len();
    if count == 0 {
        keys.push(upto)?;
        return Ok(());
    }
    if keys[count - 1].index < upto.index {
        keys.truncate(1);
        keys[0] = upto;
        return Ok(());
    }
    let covered = count_to(keys, upto.index);
    if covered == 0 {
        return Ok(());
    }
    let leader_id = keys[covered - 1].leader_id;
    keys.rotate_left(covered - 1);
    keys.truncate(count - (covered - 1));
    keys[0] = LogIdOf::new(leader_id, upto.index);
    Ok(())
}

/// Returns the log id at an index, with the leader of the last key that is not past it.
pub fn get<C: Ord + Copy>(keys: &[LogIdOf<C>], index: u64) -> Option<LogIdOf<C>>
    requires { IsTrue (may_be_keys C.cmp keys.now) }
    ensures { result ≡ id_at (full_log keys.now) index }
{
    let covered = count_to(keys, index);
    if covered == 0 {
        return None;
    }
    let key = keys[covered - 1];
    if covered == keys.len() && key.index < index {
        return None;
    }
    Some(LogIdOf::new(key.leader_id, index))
}

/// Returns the log id at an index, as `get` does. It looks between the last two keys first.
pub fn get_from_end<C: Ord + Copy>(keys: &[LogIdOf<C>], index: u64) -> Option<LogIdOf<C>>
    requires { IsTrue (may_be_keys C.cmp keys.now) }
    ensures { result ≡ id_at (full_log keys.now) index }
{
    let count = keys.len();
    if count < 2 {
        return get(keys, index);
    }
    let before = keys[count - 2];
    if index < before.index {
        return get(keys, index);
    }
    let last = keys[count - 1];
    if last.index < index {
        return None;
    }
    if last.index == index {
        return Some(last);
    }
    Some(LogIdOf::new(before.leader_id, index))
}

/// A range of indexes at which a log has log ids of one leader.
#[derive(Clone, Copy)]
pub struct LeaderRange<C> {
    /// The leader.
    pub leader_id: C,
    /// The first index.
    pub first: u64,
    /// The last index.
    pub last: u64,
}

impl<C: Copy> LeaderRange<C> {
    /// Whether an index is in the range.
    pub fn contains(self, index: u64) -> bool
        ensures { result ≡ (nat_le self.first index && nat_le index self.last) }
    {
        self.first <= index && index <= self.last
    }
}

/// Returns the range from the last key that is not past an index up to before the next key, if the
/// log has a log id at that index.
pub fn range_at<C: Ord + Copy>(keys: &[LogIdOf<C>], index: u64) -> Option<LeaderRange<C>>
    requires { IsTrue (may_be_keys C.cmp keys.now) }
    ensures none { IfNone result (id_at (full_log keys.now) index ≡ None) }
    ensures within { IfSome result (λ r. (r.first ≤ index) × (index ≤ r.last)) }
    ensures ids { IfSome result
        (λ r. HasOneLeader (full_log keys.now) r.leader_id r.first r.last) }
{
    let covered = count_to(keys, index);
    if covered == 0 {
        return None;
    }
    let key = keys[covered - 1];
    let last = if covered < keys.len() {
        keys[covered].index - 1
    } else {
        key.index
    };
    if last < index {
        return None;
    }
    Some(LeaderRange {
        leader_id: key.leader_id,
        first: key.index,
        last,
    })
}

/// Returns how many keys are not past an index. It halves the keys down to a few, which are
/// counted.
fn count_to<C: Ord + Copy>(keys: &[LogIdOf<C>], index: u64) -> usize
    requires { Rises 0 keys.now (end_index keys.now) }
    ensures bound { result ≤ length keys.now }
    ensures count { result ≡ keys_to keys.now index }
{
    let (least, most) = count_bounds(keys, index);
    let mut count = least;
    for key in &keys[least..most] {
        if key.index <= index {
            count += 1;
        }
    }
    count
}

/// Returns two bounds, at most eight apart, of how many keys are not past an index, by halving.
fn count_bounds<C: Ord + Copy>(keys: &[LogIdOf<C>], index: u64) -> (usize, usize)
    requires { Rises 0 keys.now (end_index keys.now) }
    ensures least { result.0 ≤ keys_to keys.now index }
    ensures most { keys_to keys.now index ≤ result.1 }
    ensures few { result.1 ≤ result.0 + 8 }
    ensures bound { result.1 ≤ length keys.now }
{
    let mut least = 0;
    let mut size = keys.len();
    while size > 8 {
        let half = size / 2;
        let middle = least + half;
        least = middle - half_if_past(half, keys[middle].index, index);
        size -= half;
    }
    (least, least + size)
}

/// Returns the half if the index of a key is past another index, and otherwise 0.
///
/// The mask is the upper half of the difference of the two indexes, which is all ones if the
/// difference is negative. The compiler turns a comparison into a branch, which a search by halving
/// mispredicts every other time.
fn half_if_past(half: usize, key: u64, index: u64) -> usize
    ensures { result ≡ (if nat_le key index then 0 else half) }
{
    half & ((index as u128).wrapping_sub(key as u128) >> 64) as usize
}

/// Returns the last two keys if they share a leader, and otherwise the last one.
pub fn by_last_leader<C: Ord + Copy>(keys: &[LogIdOf<C>]) -> &[LogIdOf<C>]
    ensures { result.now ≡ last_leader_keys C.eq keys.now }
{
    let count = keys.len();
    if count < 2 {
        return keys;
    }
    if keys[count - 2].leader_id == keys[count - 1].leader_id {
        return &keys[count - 2..];
    }
    &keys[count - 1..]
}
