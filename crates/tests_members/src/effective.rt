//! Effective memberships, and the stored ones in them.

use crate::support::asserts::{assert_made, assert_row};
use crate::support::memberships::{Effective, Stored, effective, id};
use crate::support::quorums::has_ids;
use raft_members::EffectiveMembership;
use raft_members::quorum::QuorumSet;
use std::alloc::{AllocError, Global};
use tests_support::facts::first_wrong;
use tests_support::memory::{are_equal, equals, is_yes};
use tests_support::words::{list, members, words};

/// Each row has configs, ids, and whether the ids are a quorum. No contract speaks of repeated ids:
/// each is counted.
const QUORUMS: &str = "
1,2,3,4,5/6,7,8 1,2,3 no
1,2,3,4,5/6,7,8 6,7 no
1,2,3,4,5/6,7,8 1,2,3,6,7 yes
1,2,3 1,1 yes
";

/// Whether a shared effective membership, and the quorum set of its configs, answer the ids of a
/// row as the row says.
fn answers(alloc: Global, row: &str) -> Result<bool, AllocError> {
    let [configs, ids, want, ..] = words(row);
    let ids = list(alloc, ids)?;
    let shared = EffectiveMembership::new_arc(None, members(alloc, configs, "-")?)?;
    let joint = shared.membership().to_quorum_set()?;
    let ids = ids.as_slice();
    Ok([shared.is_quorum(ids), joint.is_quorum(ids)] == [want == "yes"; 2])
}

/// Example members 1. An effective membership of {1, 2, 3, 4, 5} and {6, 7, 8} has the quorums
/// of their joint.
#[test]
fn configs_are_a_quorum_set(rt: HostRuntime) {
    for row in QUORUMS.trim().lines() {
        assert_row(&rt, row, is_yes(answers(rt.alloc(), row)));
    }
}

/// The effective membership of a log id and two configs, as it comes from a log.
fn from_log(alloc: Global) -> Result<Effective, AllocError> {
    Effective::from_log(&id(), members(alloc, "1,2/2,4", "3=30")?)
}

/// The effective membership of a stored one.
fn of_stored(alloc: Global) -> Result<Effective, AllocError> {
    let membership = members(alloc, "1,2/2,4", "3=30")?;
    Effective::new_from_stored_membership(Stored::new(Some(id()), membership))
}

/// Returns which of the ways to an effective membership leads to another one. Its voters are 1, 2
/// and 4.
fn wrong_made(alloc: Global, made: &Effective) -> Option<&'static str> {
    let stored: &Stored = made.stored_membership();
    first_wrong(&[
        ("from a log", equals(from_log(alloc), made)),
        ("of a stored one", equals(of_stored(alloc), made)),
        ("a clone", equals(made.clone(), made)),
        ("a stored clone", equals(stored.try_clone(), stored)),
        ("ids", has_ids(alloc, made, "1,2,4")),
        (
            "stored voters",
            are_equal(stored.voter_ids(), list(alloc, "1,2,4")),
        ),
        (
            "the default",
            are_equal(
                Effective::try_default(alloc),
                effective(alloc, None, "none", "-"),
            ),
        ),
    ])
}

fn wrong_effective(alloc: Global) -> Result<Option<&'static str>, AllocError> {
    let made = effective(alloc, Some(id()), "1,2/2,4", "3=30")?;
    Ok(wrong_made(alloc, &made))
}

#[test]
fn memberships_become_effective(rt: HostRuntime) {
    let alloc = rt.alloc();
    assert_made(&rt, "effective memberships", wrong_effective(alloc));
}
