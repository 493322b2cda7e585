//! The memberships of a node, and a change of the effective one.

use crate::support::rows::{Effective, effective, id, row};
use raft_base::{Invalid, LeaderId, LogId, Validate};
use raft_members::{ChangeMembers, ChangeMembershipErrorOf, InProgressOf};
use raft_state::MembershipState;
use std::alloc::{AllocError, Global};
use std::collections::BTreeSet;
use std::rc::Rc;
use std::test::Fail;
use tests_support::allocations::{is_free, refuse_each};
use tests_support::memory::{both_made, equals, is_yes, with_made};
use tests_support::words::{ids, number, words};

type State = MembershipState<u64, u64>;

type Leader = LeaderId<u64>;

/// The committed membership at leader 1, index 1, and the effective one at leader 2, index 10.
pub fn state(alloc: Global) -> Result<State, AllocError> {
    let committed = effective(alloc, Some((1, 1)), "1,2")?;
    Ok(MembershipState::new(committed, effective(alloc, Some((2, 10)), "2,3")?))
}

/// Calls of these memberships. A row has the call, its argument, the log id and the voters of the
/// membership of a snapshot or of an entry, the log id that is answered or `no` if the call may not
/// be made, and then the log ids of both memberships and whether they are in order. Equal
/// memberships under another log id are no news, so nothing is answered.
const MOVES: &str = "\
    update 4 10.5 3 - 10.5 2.10 no; update 10 10.5 3 10.5 10.5 10.5 ok; \
    update 10 10.5 2,3 - 10.5 10.5 ok; truncate 10 - none 1.1 1.1 1.1 ok; \
    truncate 2 - none 1.1 1.1 1.1 ok; truncate 11 - none - 1.1 2.10 ok; \
    commit 2.10 - none - 2.10 2.10 ok; commit 2.9 - none - 1.1 2.10 ok; commit 3.9 - none no; \
    append - 2.11 3 - 2.10 2.11 ok; append - 3.10 3 no; append - 1.11 3 no";

/// The memberships of the rows.
fn news(alloc: Global, rows: &str) -> Result<Vec<Rc<Effective<Leader>>>, AllocError> {
    let mut news = Vec::new(alloc);
    for move_row in rows.split(';') {
        let [_, _, at, voters, ..] = words(move_row);
        news.extend(Some(effective(alloc, row(at), voters)?))?;
    }
    Ok(news)
}

/// The log id of a membership that is answered.
fn answered(answer: Option<&Rc<Effective<Leader>>>) -> Option<LogId<u64>> {
    match answer {
        Some(effective) => *effective.log_id(),
        None => None,
    }
}

/// Makes a call with its argument and a membership, and returns the log id that it answers, or
/// `None` if it may not be made.
fn make(
    state: &mut State,
    new: Result<Rc<Effective<Leader>>, AllocError>,
    call: &str,
    argument: &str,
) -> Result<Option<Option<LogId<u64>>>, AllocError> {
    let (index, upto) = (number(argument), id(row(argument)));
    let new = new?;
    match call {
        "update" => Ok(Some(answered(state.update_committed(new, index)?))),
        "truncate" if state.can_truncate(index) => Ok(Some(answered(state.truncate(index)?))),
        "commit" if state.can_commit(&upto) => {
            state.commit(&upto)?;
            Ok(Some(None))
        }
        "append" if state.can_append(&new) => {
            state.append(new);
            Ok(Some(None))
        }
        _ => Ok(None),
    }
}

/// Whether the memberships are at these log ids and in order as wanted. They equal those before
/// exactly if both have the same log ids.
fn are_at(state: &State, from: &State, [committed, in_effect, valid]: [&str; 3]) -> bool {
    let is_in_order = match state.validate() {
        Ok(()) => valid == "ok",
        Err(broken) => valid == "no" && broken == Invalid::MembershipLogId,
    };
    let are_right = [
        is_in_order,
        *state.committed().log_id() == id(row(committed)),
        *state.effective().log_id() == id(row(in_effect)),
        (*state == *from) == ([committed, in_effect] == ["1.1", "2.10"]),
    ];
    !are_right.contains(&false)
}

/// Whether a call leads where its row says.
fn leads(
    state: &mut State,
    from: &State,
    new: &Rc<Effective<Leader>>,
    move_row: &str,
) -> Result<bool, AllocError> {
    let [call, argument, _, _, answer, committed, in_effect, valid, _] = words(move_row);
    match make(state, new.clone(), call, argument)? {
        None => Ok(answer == "no"),
        Some(answered) => {
            let is_answered = answer != "no" && answered == id(row(answer));
            Ok(is_answered && are_at(state, from, [committed, in_effect, valid]))
        }
    }
}

/// Whether each move leads where it should, and leaves the memberships that it is made from.
fn move_right(
    from: &State,
    same: &State,
    news: &[Rc<Effective<Leader>>],
    rows: &str,
) -> Result<bool, AllocError> {
    for (row, new) in rows.split(';').zip(news) {
        if !with_made(from.try_clone(), |state| leads(state, from, new, row))? {
            return Ok(false);
        }
    }
    Ok(from.validate() == Ok(()) && *from == *same && equals(from.clone(), same))
}

/// Whether a change, and the test before it, are refused while the effective membership is not
/// committed.
fn is_early(state: &State, added: Result<BTreeSet<u64>, AllocError>) -> Result<bool, AllocError> {
    let want = InProgressOf {
        committed: id(Some((1, 1))),
        membership_log_id: id(Some((2, 10))),
    };
    let change = ChangeMembers::AddVoterIds(added?);
    let is_tested = match state.change_handler().ensure_committed() {
        Ok(()) => false,
        Err(refused) => refused == want,
    };
    let changed = state.change_handler().apply(change, true);
    Ok(is_tested && changed == Err(ChangeMembershipErrorOf::InProgress(want)))
}

/// Whether the memberships of a node move as they should, without an allocation because they are
/// shared, and the effective one is changed as it should be.
fn memberships_right(
    rt: &impl Print,
    alloc: Global,
    (from, same): &mut (State, State),
    news: &[Rc<Effective<Leader>>],
    rows: &str,
) -> Result<bool, AllocError> {
    refuse_each(alloc);
    let is_right = is_yes(move_right(from, same, news, rows));
    let are_free = is_free(rt, alloc, "MembershipState, its moves and reads", is_right);
    Ok(are_free.unwrap_or(false) && is_early(from, ids(alloc, "1"))?)
}

/// Whether new memberships of a node do so, with the moves of these rows.
pub fn all_right(rt: &impl Print, alloc: Global, rows: &str) -> bool {
    let states = both_made(state(alloc), state(alloc));
    let held = both_made(states, news(alloc, rows));
    is_yes(with_made(
        held,
        |held| memberships_right(rt, alloc, &mut held.0, &held.1, rows),
    ))
}

/// Example state 2. Committed at (1, 1), effective at (2, 10): the membership of a snapshot at
/// (10, 5) up to 4 and up to 10, truncations at 10 and 11, and a change in progress.
#[test]
fn memberships_move(rt: HostRuntime) -> Result<(), Fail> {
    let alloc = rt.alloc();
    assert!(rt; all_right(&rt, alloc, MOVES));
    Ok(())
}
