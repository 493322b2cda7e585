//! Memberships: their tests, and what they are made of.

use crate::support::asserts::{assert_call, assert_row};
use crate::support::lines::Members;
use raft_members::EmptyMembership;
use std::alloc::{AllocError, Global};
use tests_support::allocations::is_free_on;
use tests_support::memory::{are_equal, both_made, equals, is_yes};
use tests_support::words::{configs, ids, members, nodes};

/// Whether each test answers by itself, of a membership that lacks a node and of one that has an
/// empty config.
fn each_answers(lacking: &Members, empty: &Members) -> bool {
    lacking.ensure_voter_nodes() == Err(2)
        && lacking.ensure_valid().is_err()
        && empty.ensure_non_empty_config() == Err(EmptyMembership {})
}

/// Example members 8. Config {1, 2} and node 1: `ensure_voter_nodes` reports 2.
#[test]
fn each_test_answers_by_itself(rt: HostRuntime) {
    let name = "Membership, ensure_valid and its parts";
    let alloc = rt.alloc();
    let made = both_made(members(alloc, "1,2", "1=1"), members(alloc, "1/-", "1=1"));
    let call = |made: &mut (Members, Members)| each_answers(&made.0, &made.1);
    assert_call(&rt, name, is_free_on(&rt, alloc, name, made, call));
}

/// Whether a membership of ids that may be absent gives voters and learners the default node, and
/// new nodes leave old ones as they are.
fn is_made(alloc: Global) -> Result<bool, AllocError> {
    let made = Members::new(configs(alloc, "1")?, Some(ids(alloc, "1,3")?))?;
    let (old, new) = both_made(nodes(alloc, "1=7"), nodes(alloc, "1=8,2=9"))?;
    let extended = Members::extend_nodes(old, &new);
    Ok(
        equals(members(alloc, "1", "1=0,3=0"), &made)
            && are_equal(extended, nodes(alloc, "1=7,2=9")),
    )
}

#[test]
fn memberships_are_made_of_what_is_given(rt: HostRuntime) {
    assert_row(&rt, "ids and nodes", is_yes(is_made(rt.alloc())));
}
