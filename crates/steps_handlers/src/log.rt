//! The end of a log, replaced by new entries.
ghost use Rattle.std.specs.Prelude.{◌≡◌, ◌&&◌, ◌+◌, false, IsTrue, IfErr, IfOk, OnOk, OnErr, Option, Some, nat_eq};
ghost use Rattle.std.specs.Set.{ClonesAreEqual};
ghost use Rattle.raft_base.specs.LogId.{next_index};
ghost use Rattle.raft_base.specs.declared.log_id.LogIdOf.{LogIdOf};
ghost use Rattle.steps_handlers.specs.Entries.{are_in_order, ends_before, may_cut, tests_hold, RefusedUnless};
ghost use Rattle.steps_handlers.specs.Inner.Log.{Extends, IsCut, Stops, are_plain, continue_from, end_tests, may_extend, Truncates};
ghost use Rattle.steps_handlers.specs.Inner.Steps.{CommitsUpto, PutsNew, RefusesCommit};
ghost use Rattle.raft_state.specs.log_id_list.LogConditions.{follows};
ghost use Rattle.raft_state.specs.raft_state.Sound.{purged_or_logged, IsSound};

use crate::error::AppendError;
use raft_base::order::{index_below, log_id_below};
use raft_base::{Instant, LogIdOf, LogIdOptionExt, LogStateReader, Node, NodeId};
use raft_state::{EntryOf, RaftPayload, RaftStateIn};
use std::alloc::AllocError;

/// Truncates the log at an index, unless the log ends before it, and returns the index if it did.
/// Refuses to truncate what is committed.
///
/// After an error nothing has changed.
#[inline(always)]
pub(crate) fn cut<NID: NodeId, N: Node, I: Instant, L: Drop, C: Ord + Copy + Drop>(
    state: &mut RaftStateIn<NID, N, I, L, C>,
    since: u64,
) -> Result<Option<u64>, AppendError>
    ensures truncated { IfOk result (λ from. Truncates since from state.old state.new) }
    ensures cut { OnOk result (IsCut C.Ord since state.old state.new) }
    ensures refused { IfErr result (RefusedUnless
        (record tests_hold { keeps = may_cut C.cmp since state.old })) }
    ensures err { OnErr result (state.new ≡ state.old) }
    ensures sound { IsSound C.eq C.cmp state.old → IsSound C.eq C.cmp state.new }
{
    // Read for the proof alone: by its contract the keys are in order.
    let _keys = state.log_ids.key_log_ids();
    if ends_before(state, since) {
        return Ok(None);
    }
    truncate(state, since)?;
    Ok(Some(since))
}

/// Truncates the log at an index that it does not end before. Refuses to truncate what is
/// committed.
///
/// After an error nothing has changed.
fn truncate<NID: NodeId, N: Node, I: Instant, L: Drop, C: Ord + Copy + Drop>(
    state: &mut RaftStateIn<NID, N, I, L, C>,
    since: u64,
) -> Result<(), AppendError>
    requires { ends_before since state.old ≡ false }
    ensures cut { OnOk result (IsCut C.Ord since state.old state.new) }
    ensures refused { IfErr result (RefusedUnless
        (record tests_hold { keeps = may_cut C.cmp since state.old })) }
    ensures err { OnErr result (state.new ≡ state.old) }
    ensures sound { IsSound C.eq C.cmp state.old → IsSound C.eq C.cmp state.new }
{
    if !state.can_truncate_log(since) {
        return Err(AppendError::TruncatesCommitted);
    }
    state.truncate_log(since)?;
    Ok(())
}

/// Whether the log has no index from this one on.
#[inline(always)]
fn ends_before<NID: NodeId, N: Node, I: Instant, L: Drop, C: Ord + Copy + Drop>(
    state: &RaftStateIn<NID, N, I, L, C>,
    since: u64,
) -> bool
    ensures { result ≡ ends_before since state.now }
{
    index_below(state.last_log_id().copied().index(), Some(since))
}

/// Puts new entries in place of the log from the index of the first one on, and returns that index,
/// if there is one. If the entries are known to be plain, only the first one is tested.
///
/// After an error the log is as it was, or truncated there.
pub(crate) fn append_new<NID: NodeId, N: Node, I: Instant, L: Drop, C: Ord + Copy + Drop, D>(
    state: &mut RaftStateIn<NID, N, I, L, C>,
    new: &[EntryOf<C, NID, N, D>],
    plain: bool,
) -> Result<Option<u64>, AppendError>
    requires clones_are_equal { ClonesAreEqual N.eq N.is_clone }
    requires plain { IsTrue plain → IsTrue (are_plain C.eq new.now) }
    ensures puts { IfOk result (λ from.
        PutsNew C.Ord NID.eq N.eq new.now from state.old state.new) }
    ensures stops { IfErr result (λ e. Stops C.Ord new.now e state.old state.new) }
    ensures sound { IsSound C.eq C.cmp state.old → IsSound C.eq C.cmp state.new }
{
    let Some(first) = new.first() else {
        return Ok(None);
    };
    cut(state, first.log_id.index)?;
    if !may_extend(state, new, plain) {
        return Err(refusal(state, new));
    }
    extend(state, new, plain)?;
    Ok(Some(first.log_id.index))
}

/// Whether entries may be appended to the log.
fn may_extend<NID: NodeId, N: Node, I: Instant, L: Drop, C: Ord + Copy + Drop, D>(
    state: &RaftStateIn<NID, N, I, L, C>,
    new: &[EntryOf<C, NID, N, D>],
    plain: bool,
) -> bool
    requires { IsTrue plain → IsTrue (are_plain C.eq new.now) }
    ensures { result ≡ may_extend C.cmp new.now state.now }
{
    if plain {
        are_in_order(state.last_log_id().copied(), new, plain)
    } else {
        state.can_append_entries(new)
    }
}

/// Appends entries that may be appended to the log. No look for memberships is needed if they are
/// known to be plain.
///
/// After an error nothing has changed.
fn extend<NID: NodeId, N: Node, I: Instant, L: Drop, C: Ord + Copy + Drop, D>(
    state: &mut RaftStateIn<NID, N, I, L, C>,
    new: &[EntryOf<C, NID, N, D>],
    plain: bool,
) -> Result<(), AllocError>
    requires clones_are_equal { ClonesAreEqual N.eq N.is_clone }
    requires plain { IsTrue plain → IsTrue (are_plain C.eq new.now) }
    requires may { IsTrue (may_extend C.cmp new.now state.old) }
    ensures extends { OnOk result (Extends C.eq NID.eq N.eq new.now state.old state.new) }
    ensures err { OnErr result (state.new ≡ state.old) }
    ensures sound { IsSound C.eq C.cmp state.old → IsSound C.eq C.cmp state.new }
{
    if plain {
        return state.extend_log_ids(new);
    }
    state.append_entries(new)
}

/// Whether entries have consecutive indexes, are of one leader, and store no membership, as most
/// do. Such entries may be appended wherever the first one may.
#[inline(always)]
pub(crate) fn are_plain<NID: NodeId, N: Node, C: Ord + Copy, D>(
    entries: &[EntryOf<C, NID, N, D>],
) -> bool
    ensures { IsTrue result → IsTrue (are_plain C.eq entries.now) }
{
    let Some(first) = entries.first() else {
        return true;
    };
    if first.get_membership().is_some() {
        return false;
    }
    continue_log(&first.log_id, &entries[1..])
}

/// Whether entries have consecutive indexes after a log id, are of its leader, and store no
/// membership.
///
/// A call of its own: inlined into a handler, the loop keeps its values in memory.
#[inline(never)]
fn continue_log<NID: NodeId, N: Node, C: Ord + Copy, D>(
    last: &LogIdOf<C>,
    entries: &[EntryOf<C, NID, N, D>],
) -> bool
    ensures { IsTrue result → IsTrue
        (continue_from C.eq last.now.leader_id (last.now.index + 1) entries.now) }
{
    if last.index > u64::MAX - entries.len() as u64 {
        return false;
    }
    let leader = last.leader_id;
    let mut index = last.index;
    for entry in entries {
        index += 1;
        if entry.log_id.index != index
            || entry.log_id.leader_id != leader
            || entry.get_membership().is_some()
        {
            return false;
        }
    }
    true
}

/// Returns why entries may not be appended: they are not in order after the log, or otherwise their
/// memberships are not.
fn refusal<NID: NodeId, N: Node, I: Instant, L: Drop, C: Ord + Copy + Drop, D>(
    state: &RaftStateIn<NID, N, I, L, C>,
    new: &[EntryOf<C, NID, N, D>],
) -> AppendError
    requires { may_extend C.cmp new.now state.now ≡ false }
    ensures { RefusedUnless (end_tests C.cmp new.now state.now) result }
{
    if are_successors(state.last_log_id().copied(), new) {
        AppendError::MembershipNotInOrder
    } else {
        AppendError::NotInOrder
    }
}

/// Whether entries have consecutive indexes after a log id, and their leaders never fall. If they
/// are known to be plain, only the first one is tested.
#[inline(always)]
pub(crate) fn are_in_order<NID: NodeId, N: Node, C: Ord + Copy, D>(
    last: Option<LogIdOf<C>>,
    entries: &[EntryOf<C, NID, N, D>],
    plain: bool,
) -> bool
    requires { IsTrue plain → IsTrue (are_plain C.eq entries.now) }
    ensures { result ≡ are_in_order C.cmp last entries.now }
{
    match entries.first() {
        None => true,
        Some(first) if plain => is_successor(last, first.log_id),
        Some(_) => are_successors(last, entries),
    }
}

/// Whether each entry may come next after the one before it, and the first one after a log id.
fn are_successors<NID: NodeId, N: Node, C: Ord + Copy, D>(
    last: Option<LogIdOf<C>>,
    entries: &[EntryOf<C, NID, N, D>],
) -> bool
    ensures { result ≡ are_in_order C.cmp last entries.now }
{
    let mut after = last;
    for entry in entries {
        if !is_successor(after, entry.log_id) {
            return false;
        }
        after = Some(entry.log_id);
    }
    true
}

/// Whether a log id may come next after another one, at the next index.
fn is_successor<C: Ord + Copy>(last: Option<LogIdOf<C>>, id: LogIdOf<C>) -> bool
    ensures { result ≡ (follows C.cmp last id && nat_eq id.index (next_index last)) }
{
    match last {
        None => id.index == 0,
        Some(last) => {
            last.index < id.index && last.leader_id <= id.leader_id && id.index - last.index == 1
        }
    }
}

/// Commits up to a log id, if it is past what is committed, and returns the log id if it did.
/// Refuses if the log does not have it, or if the effective membership does not allow it.
///
/// After an error nothing has changed.
pub(crate) fn commit<NID: NodeId, N: Node, I: Instant, L: Drop, C: Ord + Copy + Drop>(
    state: &mut RaftStateIn<NID, N, I, L, C>,
    upto: Option<LogIdOf<C>>,
) -> Result<Option<LogIdOf<C>>, AppendError>
    ensures commits { IfOk result (λ risen.
        CommitsUpto C.Ord upto risen state.old state.new) }
    ensures refuses { IfErr result (λ e. RefusesCommit C.Ord upto e state.old state.new) }
    ensures sound { IsSound C.eq C.cmp state.old → IsSound C.eq C.cmp state.new }
{
    if !log_id_below(state.committed, upto) {
        return Ok(None);
    }
    if !state.is_logged(&upto) {
        return Err(AppendError::CommittedNotLogged);
    }
    if !state.can_commit(&upto) {
        return Err(AppendError::MembershipNotInOrder);
    }
    state.update_committed(&upto)?;
    Ok(upto)
}

/// Whether the log has a log id, or its index is purged. Most that a follower is asked for are at
/// the end of its log, or past it, and need no look-up.
#[inline(always)]
pub(crate) fn has<NID: NodeId, N: Node, I: Instant, L: Drop, C: Ord + Copy + Drop>(
    state: &RaftStateIn<NID, N, I, L, C>,
    log_id: LogIdOf<C>,
) -> bool
    ensures { result ≡ purged_or_logged C.eq state.now (Some log_id) }
{
    // Read for the proof alone: by its contract the keys are in order.
    let _keys = state.log_ids.key_log_ids();
    if log_id.index < state.purged_next {
        return true;
    }
    match state.last_log_id() {
        Some(last) if last.index <= log_id.index => *last == log_id,
        _ => state.is_purged_or_logged(&Some(log_id)),
    }
}
