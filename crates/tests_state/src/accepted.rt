//! What a node has accepted of a leader.

use crate::support::states::DefaultState;
use raft_base::{LeaderId, LogId, UTime, VoteIn};
use raft_state::AcceptedIn;
use std::test::Fail;
use tests_support::allocations::is_free_on;

/// Whether a new node's vote, and what it has accepted of the leader (5, 10), read as they should.
fn accepts(state: &mut DefaultState) -> bool {
    let log_id: LogId<u64> = LogId::new(LeaderId::new(6, 2), 3);
    let is_unset = state.accepted().is_none() && !state.is_initialized();
    state.vote = UTime::new(7, VoteIn::new_committed(5, 10));
    if state.can_accept() {
        state.update_accepted(Some(log_id));
    }
    let are_right = [
        is_unset,
        state.accepted == AcceptedIn::new(LeaderId::new(5, 10), Some(log_id)),
        state.accepted.last_accepted_log_id(&LeaderId::new(5, 10)) == Some(&log_id),
        state
            .accepted
            .last_accepted_log_id(&LeaderId::new(6, 10))
            .is_none(),
        state
            .accepted
            .last_accepted_log_id(&LeaderId::new(4, 10))
            .is_none(),
        state.accepted().copied() == Some(log_id),
    ];
    are_right == [true; 6]
}

/// Example state 5. Leader (5, 10) has sent the log id of leader (6, 2) at index 3: accepted is
/// this log id for leader (5, 10), and none for (6, 10) and (4, 10).
#[test]
fn what_is_accepted_is_of_its_leader(rt: HostRuntime) -> Result<(), Fail> {
    let state = DefaultState::try_default(rt.alloc());
    let name = "Accepted, RaftState::{can_accept, update_accepted}";
    assert!(rt; is_free_on(&rt, rt.alloc(), name, state, accepts)?);
    Ok(())
}
