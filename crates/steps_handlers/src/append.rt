//! A follower: the entries that a leader sends.
ghost use Rattle.std.specs.Prelude.{◌≡◌, ◌≤◌, length, false, Ok, IsOk, IsTrue, IfOk, IfErr, IfSome, IfNone};
ghost use Rattle.std.specs.List.{prefix_len};
ghost use Rattle.std.specs.Set.{ClonesAreEqual};
ghost use Rattle.steps_handlers.specs.Append.{has_entry, lesser_id, Answers, ChangesNothing, IfHigherVote, IsConflict, Refuses, Repeats};
ghost use Rattle.steps_handlers.specs.Entries.{are_in_order};
ghost use Rattle.steps_handlers.specs.Follow.{higher_vote_response, is_followed, vote_heard};
ghost use Rattle.steps_handlers.specs.Honest.{IsHonest};
ghost use Rattle.steps_handlers.specs.Inner.Log.{are_plain};
ghost use Rattle.steps_handlers.specs.Inner.Steps.{MatchesLog, RefusesEntries, RefusesToMatch, TakesEntries};
ghost use Rattle.steps_handlers.specs.Written.{no_changes, Writes};
ghost use Rattle.steps_handlers.specs.declared.error.AppendError.TheVariants.{OutOfMemory};
ghost use Rattle.raft_state.specs.raft_state.Sound.{purged_or_logged, IsSound};

use crate::changes::Changes;
use crate::error::AppendError;
use crate::laws::honest_request_may_be_taken;
use crate::log::{append_new, are_in_order, are_plain, commit, cut, has};
use crate::message::{AppendEntries, Outcome, Response};
use crate::state::State;
use crate::vote::follow;
use raft_base::order::{log_id_below, same_optional_log_ids};
use raft_base::{Instant, LeaderIdentity, LogIdOf, LogIdOptionExt, LogStateReader, Node, NodeId};
use raft_state::{EntryOf, RaftStateIn, VoteStateReader};

/// Handles a leader's request to append entries. It promises the leader's vote, refuses entries
/// that are not in order after `prev`, truncates what conflicts with the request, appends what is
/// new, and commits the lesser one of the leader's committed log id and the last log id of the
/// request.
///
/// Returns the response, and what has changed. Write that to disk before any message leaves, the
/// vote first.
///
/// A request that changes nothing but the vote never fails (`no_memory`): it has no entry that is
/// new, the log has `prev`, and nothing more is to be committed.
///
/// After an error the vote is the leader's, and the log may be truncated at the first new entry or
/// have the new entries already (`refuses`). What is committed stays. Treat the error as a crash,
/// and restart from the disk. Or write the vote and the log to disk as the state has them: a later
/// call says only what it changes itself. Both are right, because no answer was sent.
pub fn handle_append_entries<
    NID: NodeId,
    N: Node,
    I: Instant,
    L: LeaderIdentity<Id = NID> + Drop,
    D,
>(
    state: &mut State<NID, N, I, L>,
    request: &AppendEntries<L, L::Committed, NID, N, D>,
) -> Result<(Response<L, L::Committed>, Changes<L::Committed>), AppendError>
    requires clones_are_equal { ClonesAreEqual N.eq N.is_clone }
    ensures repeats { IfOk result (λ made.
        Repeats (L.committed request.now.leader_id) request.now made.0) }
    ensures vote { state.new.vote ≡ vote_heard L.order request.now.leader_id state.old }
    ensures not_followed { let leader = L.committed request.now.leader_id in
        is_followed L.order request.now.leader_id state.old ≡ false → result
        ≡ Ok (higher_vote_response leader request.now.request state.old, no_changes) }
    ensures followed { IfOk result (λ made. IfHigherVote made.0.outcome
        (λ _. is_followed L.order request.now.leader_id state.old ≡ false)) }
    ensures answers { IfOk result (λ made. Answers L.Committed.Ord NID.eq N.eq request.now
        made.0.outcome state.old state.new) }
    ensures writes { IfOk result (λ made. Writes L.Committed.Ord L.eq request.now.entries.items
        made.0.outcome made.1 state.old state.new) }
    ensures refuses { IfErr result (λ e. Refuses L.Committed.Ord NID.eq N.eq request.now e
        state.old state.new) }
    ensures honest { IsSound L.Committed.eq L.Committed.cmp state.old →
        IsHonest L.Committed.eq L.Committed.cmp request.now.prev request.now.entries.items
        request.now.committed state.old → IfErr result (λ e. e ≡ OutOfMemory) }
    ensures no_memory { ChangesNothing L.Committed.eq L.Committed.cmp request.now state.old →
        IsOk result }
    ensures rest { state.new ≡ record state.old {
      vote = state.new.vote;
      log_ids = state.new.log_ids;
      membership_state = state.new.membership_state;
      accepted = state.new.accepted;
      committed = state.new.committed;
    } }
    ensures sound { IsSound L.Committed.eq L.Committed.cmp state.old →
        IsSound L.Committed.eq L.Committed.cmp state.new }
{
    let leader_id = L::to_committed(&request.leader_id);
    let promised = *state.vote_ref();
    // Called for the proof alone: an honest request is refused only if an allocation fails.
    honest_request_may_be_taken(state, request);
    let Some(is_new) = follow(state, request.leader_id) else {
        let response = Response {
            leader_id,
            request: request.request,
            outcome: Outcome::HigherVote(promised),
        };
        return Ok((response, Changes::none()));
    };
    let (outcome, mut changes) = match_log(state, request)?;
    changes.vote = is_new;
    let response = Response {
        leader_id,
        request: request.request,
        outcome,
    };
    Ok((response, changes))
}

/// Makes the log match a leader's as far as the request says. Returns the outcome, and what has
/// changed without the vote.
fn match_log<NID: NodeId, N: Node, I: Instant, L: Drop, C: Ord + Copy + Drop, D>(
    state: &mut RaftStateIn<NID, N, I, L, C>,
    request: &AppendEntries<L, C, NID, N, D>,
) -> Result<(Outcome<L, C>, Changes<C>), AppendError>
    requires clones_are_equal { ClonesAreEqual N.eq N.is_clone }
    ensures matches { IfOk result (λ made.
        MatchesLog C.Ord NID.eq N.eq request.now made.0 made.1 state.old state.new) }
    ensures refuses { IfErr result (λ e.
        RefusesToMatch C.Ord NID.eq N.eq request.now e state.old state.new) }
    ensures sound { IsSound C.eq C.cmp state.old → IsSound C.eq C.cmp state.new }
{
    let entries = request.entries.as_slice();
    let plain = are_plain(entries);
    if !are_in_order(request.prev, entries, plain) {
        return Err(AppendError::NotInOrder);
    }
    if let Some(at) = conflict_of(state, request.prev) {
        let log_from = cut(state, at)?;
        let changes = Changes {
            log_from,
            ..Changes::none()
        };
        let last = state.last_log_id().copied().index();
        return Ok((Outcome::Conflict { index: at, last }, changes));
    }
    // A heartbeat that commits nothing more, as most do.
    let has_none = entries.is_empty();
    if has_none && same_optional_log_ids(request.committed, state.committed) {
        return Ok((Outcome::Matches(request.prev), Changes::none()));
    }
    let last = request.last_log_id();
    let committed = lesser_id(request.committed, last);
    let changes = take_entries(state, request, committed, plain)?;
    Ok((Outcome::Matches(last), changes))
}

/// Returns the index of a log id, if the log does not have it and its index is not purged.
fn conflict_of<NID: NodeId, N: Node, I: Instant, L: Drop, C: Ord + Copy + Drop>(
    state: &RaftStateIn<NID, N, I, L, C>,
    prev: Option<LogIdOf<C>>,
) -> Option<u64>
    ensures conflict { IfSome result (λ at. IsConflict C.eq at prev state.now) }
    ensures none { IfNone result (IsTrue (purged_or_logged C.eq state.now prev)) }
{
    match prev {
        Some(id) if !has(state, id) => Some(id.index),
        _ => None,
    }
}

/// Takes the entries of a request that are in order after a log id that the log has: appends what
/// is new, and commits up to a log id if that is past what is committed.
fn take_entries<NID: NodeId, N: Node, I: Instant, L: Drop, C: Ord + Copy + Drop, D>(
    state: &mut RaftStateIn<NID, N, I, L, C>,
    request: &AppendEntries<L, C, NID, N, D>,
    committed: Option<LogIdOf<C>>,
    plain: bool,
) -> Result<Changes<C>, AppendError>
    requires clones_are_equal { ClonesAreEqual N.eq N.is_clone }
    requires plain { IsTrue plain → IsTrue (are_plain C.eq request.now.entries.items) }
    requires in_order { IsTrue
        (are_in_order C.cmp request.now.prev request.now.entries.items) }
    requires prev { IsTrue (purged_or_logged C.eq state.old request.now.prev) }
    ensures takes { IfOk result (λ changes.
        TakesEntries C.Ord NID.eq N.eq request.now committed changes state.old state.new) }
    ensures refuses { IfErr result (λ e.
        RefusesEntries C.Ord NID.eq N.eq request.now committed e state.old state.new) }
    ensures sound { IsSound C.eq C.cmp state.old → IsSound C.eq C.cmp state.new }
{
    let entries = request.entries.as_slice();
    let place = first_new(state, entries);
    let new = &entries[place..];
    let log_from = append_new(state, new, plain)?;
    let committed = commit(state, committed)?;
    Ok(Changes {
        vote: false,
        log_from,
        committed,
    })
}

/// Returns the lesser one of two log ids that may be absent.
fn lesser_id<C: Ord + Copy>(a: Option<LogIdOf<C>>, b: Option<LogIdOf<C>>) -> Option<LogIdOf<C>>
    ensures { result ≡ lesser_id C.cmp a b }
{
    if log_id_below(a, b) { a } else { b }
}

/// Returns the place of the first entry that the log does not have, or the number of entries if it
/// has them all.
fn first_new<NID: NodeId, N: Node, I: Instant, L: Drop, C: Ord + Copy + Drop, D>(
    state: &RaftStateIn<NID, N, I, L, C>,
    entries: &[EntryOf<C, NID, N, D>],
) -> usize
    ensures place { result ≡ prefix_len (has_entry C.eq state.now) entries.now }
    ensures within { result ≤ length entries.now }
{
    for (place, entry) in entries.iter().enumerate() {
        if !has(state, entry.log_id) {
            return place;
        }
    }
    entries.len()
}
