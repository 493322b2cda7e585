//! Whole states over any type of leader ids, by rows of words.
//!
//! The row of a state has `purged_next`, the purge point, what is committed, the snapshot's last
//! log id, and the log ids of the committed and of the effective membership.

use crate::support::memory::put;
use crate::support::rows::{Row, effective, id, row};
use raft_base::{UTime, VoteIn, leader_id_std};
use raft_state::{LogIdListOf, MembershipStateOf, RaftState, RaftStateIn, is_key_list};
use std::alloc::{AllocError, Global};
use tests_support::plain_log::Numbered;
use tests_support::words::{log_ids, number, words};

/// A state whose ids, nodes and moments are numbers, of a leader type in votes and of one in log
/// ids.
pub type State<L, C> = RaftStateIn<u64, u64, u64, L, C>;

/// A leader of standard Raft.
pub type StandardLeader = leader_id_std::LeaderId<u64>;

/// Such a state with the default leader ids.
pub type DefaultState = RaftState<u64, u64, u64>;

/// Such a state with the leader ids of standard Raft.
pub type StandardState = State<StandardLeader, leader_id_std::CommittedLeaderId>;

/// The row of a valid state. Its log has the keys (1,1) and (3,4).
pub const VALID: &str = "2 1.1 1.1 - - -";

/// The row of a new state.
pub const NEW: &str = "";

/// Memberships of the voters 1 and 2 and a node 3, at these log ids.
fn memberships<C: Numbered + Drop>(
    alloc: Global,
    committed: Row,
    in_effect: Row,
) -> Result<MembershipStateOf<C, u64, u64>, AllocError> {
    let committed = effective(alloc, committed, "1,2")?;
    Ok(MembershipStateOf::new(committed, effective(alloc, in_effect, "1,2")?))
}

/// The list of the keys of a word, or an empty list if they are no keys.
pub fn log_of<C: Numbered>(alloc: Global, keys: &str) -> Result<LogIdListOf<C>, AllocError> {
    let keys = log_ids(alloc, keys)?;
    if is_key_list(&keys) {
        Ok(LogIdListOf::new(keys))
    } else {
        LogIdListOf::try_default(alloc)
    }
}

/// Gives a state the log of the keys (1,1) and (3,4), and the log ids and memberships of a row. A
/// new state stays as it is.
pub fn fill<L: Drop, C: Numbered + Drop>(
    alloc: Global,
    state: &mut State<L, C>,
    of: &str,
) -> Result<(), AllocError> {
    if of == NEW {
        return Ok(());
    }
    let [
        purged_next,
        purge_upto,
        committed,
        snapshot,
        members,
        in_effect,
        ..
    ] = words(of);
    let memberships = memberships(alloc, row(members), row(in_effect));
    put(&mut state.log_ids, log_of(alloc, "1.1,3.4"))?;
    put(&mut state.membership_state, memberships)?;
    state.purged_next = number(purged_next);
    state.purge_upto = id(row(purge_upto));
    state.committed = id(row(committed));
    state.snapshot_meta.last_log_id = id(row(snapshot));
    Ok(())
}

/// The state of a row with the default leader ids.
pub fn state(alloc: Global, row: &str) -> Result<DefaultState, AllocError> {
    let mut state = DefaultState::try_default(alloc)?;
    fill(alloc, &mut state, row)?;
    Ok(state)
}

/// A state of a row that has accepted nothing, with the committed vote of node 1 in term 9.
pub fn follower(alloc: Global, row: &str) -> Result<DefaultState, AllocError> {
    let mut state = state(alloc, row)?;
    state.vote = UTime::without_utime(VoteIn::new_committed(9, 1));
    Ok(state)
}
