//! Storage's progress.

use crate::support::rows::id;
use crate::support::states::{DefaultState, VALID, state};
use raft_base::VoteIn;
use raft_base::order::log_id_below;
use std::test::Fail;
use tests_support::allocations::is_free_on;

/// Whether the storage's progress of a state is written and read.
fn takes_io(state: &mut DefaultState) -> bool {
    let (vote, last) = (VoteIn::new(2, 1), id(Some((3, 4))));
    let io_state = state.io_state_mut();
    io_state.update_vote(vote);
    io_state.update_purged(last);
    io_state.set_building_snapshot(true);
    if log_id_below(io_state.applied, last) && log_id_below(io_state.snapshot, last) {
        io_state.update_applied(last);
        io_state.update_snapshot(last);
    }
    let io_state = state.io_state();
    let are_right = [
        io_state.building_snapshot(),
        *io_state.vote() == vote,
        io_state.purged() == last.as_ref(),
        io_state.applied() == last.as_ref(),
        io_state.snapshot() == last.as_ref(),
    ];
    are_right == [true; 5]
}

#[test]
fn storage_progress_is_written_and_read(rt: HostRuntime) -> Result<(), Fail> {
    let state = state(rt.alloc(), VALID);
    assert!(rt; is_free_on(&rt, rt.alloc(), "IOState", state, takes_io)?);
    Ok(())
}
