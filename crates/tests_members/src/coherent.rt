//! The way from one joint to another.

use crate::support::asserts::assert_row;
use crate::support::quorums::joint;
use raft_members::quorum::FindCoherent;
use std::alloc::{AllocError, Global};
use tests_support::memory::{are_equal, both_made, equals, is_yes};
use tests_support::words::{list, words};

/// Each row has a joint, a goal, and the joint to which the step from the joint to the goal leads.
const ROWS: &str = "
none 1 1
1/2 1 1
1/2 3 2/3
";

/// Whether the step of a row leads to its joint. The joint before it equals its clone.
fn leads(alloc: Global, row: &str) -> Result<bool, AllocError> {
    let [from, goal, next, ..] = words(row);
    let (from, goal) = both_made(joint(alloc, from), list(alloc, goal))?;
    let is_cloned = equals(from.try_clone(), &from);
    Ok(is_cloned && are_equal(from.find_coherent(alloc, goal), joint(alloc, next)))
}

/// Example members 5. From two configs the step to a third one gives the second and the third,
/// and the step to the first gives the first alone. From no config it gives the goal.
#[test]
fn the_next_joint_shares_a_child(rt: HostRuntime) {
    for row in ROWS.trim().lines() {
        assert_row(&rt, row, is_yes(leads(rt.alloc(), row)));
    }
}
