//! Memberships and quorums, with each allocation refused in turn or all of them.

use super::error;
use crate::support::asserts::assert_call;
use crate::support::lines::{Members, change};
use crate::support::memberships::{Effective, effective, id};
use crate::support::quorums::{Configs, joint};
use raft_base::MessageSummary;
use raft_members::quorum::{FindCoherent, QuorumSet};
use raft_members::{ChangeMembershipError, Membership};
use std::alloc::{AllocError, Global};
use std::collections::BTreeSet;
use tests_support::allocations::{Allocation, is_compared, is_free_on, is_swept};
use tests_support::memory::both_made;
use tests_support::words::{configs, ids, members, words};

/// Calls that make a membership, most of them of the one with the voters 1 and 2 and a learner 3.
/// Behind the name of a call are its kind and a list.
const CALLS: &str = "
Membership::change, AddVoterIds: add-ids 3
Membership::change, AddVoters: add 5=5
Membership::change, RemoveVoters: remove 1
Membership::change, ReplaceAllVoters: replace 2,3
Membership::change, AddNodes: add-nodes 4=4
Membership::change, SetNodes: set-nodes 3=30,4=40
Membership::change, RemoveNodes: remove-nodes 3
Membership::change, ReplaceAllNodes: replace-nodes 1=1,2=2,4=4
Membership::next_coherent: step 2,3
Membership::new: new 3
";

/// Makes the call of a kind. A new membership has learners beside two configs.
fn call(
    allocation: Allocation,
    old: &Members,
    kind: &str,
    list: &str,
) -> Result<Members, ChangeMembershipError<u64>> {
    let alloc = allocation.alloc;
    match kind {
        "new" => {
            let (configs, learners) = both_made(configs(alloc, "1,2/2,4"), ids(alloc, list))?;
            allocation.refuse();
            Ok(Membership::new(configs, learners)?)
        }
        "step" => {
            let goal = ids(alloc, list)?;
            allocation.refuse();
            Ok(old.next_coherent(goal, false)?)
        }
        _ => {
            let change = change(alloc, kind, list)?;
            allocation.refuse();
            old.change(change, true)
        }
    }
}

/// Finds the joint that is coherent with one of two lists, on the way to a third.
fn find(allocation: Allocation, old: &Configs) -> Result<Configs, AllocError> {
    let goal = [4].to_vec(allocation.alloc)?;
    allocation.refuse();
    old.find_coherent(allocation.alloc, goal)
}

#[test]
fn allocations_of_memberships(rt: HostRuntime) {
    let alloc = rt.alloc();
    let old = |alloc: Global| members(alloc, "1,2", "1=1,2=2,3=3");
    for row in CALLS.trim().lines() {
        let (name, row) = row.split_once(": ").unwrap_or((row, ""));
        let call = |allocation: Allocation, old: &mut Members| {
            let [kind, list, ..] = words(row);
            match call(allocation, old, kind, list) {
                Err(ChangeMembershipError::OutOfMemory) => Err(AllocError),
                made => Ok(made),
            }
        };
        assert_call(&rt, name, is_swept(&rt, alloc, name, old, call));
    }
    let new = |allocation: Allocation, _: &mut Members| {
        let membership = members(allocation.alloc, "1,2/2,4", "1=1,2=2,3=3,4=4")?;
        allocation.refuse();
        Effective::new(Some(id()), membership)
    };
    let name = "EffectiveMembership::new";
    assert_call(&rt, name, is_swept(&rt, alloc, name, old, new));
}

#[test]
fn allocations_of_steps(rt: HostRuntime) {
    let name = "find_coherent";
    let old = |alloc: Global| joint(alloc, "1,2/2,3");
    let find = |allocation: Allocation, old: &mut Configs| find(allocation, old);
    assert_call(&rt, name, is_swept(&rt, rt.alloc(), name, old, find));
}

#[test]
fn allocations_of_summaries(rt: HostRuntime) {
    for name in [
        "Membership::summary",
        "StoredMembership::summary",
        "EffectiveMembership::summary",
    ] {
        let old = |alloc: Global| effective(alloc, Some(id()), "1,2/2,4", "1=1,2=2,3=3,4=4");
        let call = |allocation: Allocation, old: &mut Effective| {
            allocation.refuse();
            match name {
                "Membership::summary" => old.membership().summary(allocation.alloc),
                "StoredMembership::summary" => old.stored_membership().summary(allocation.alloc),
                _ => old.summary(allocation.alloc),
            }
        };
        assert_call(&rt, name, is_swept(&rt, rt.alloc(), name, old, call));
    }
}

/// Whether a quorum set answers the ids of a minority and of a quorum.
fn answers<Q: QuorumSet<u64>>(quorums: &Q, minority: &[u64], quorum: &[u64]) -> bool {
    !quorums.is_quorum(minority) && quorums.is_quorum(quorum)
}

/// Whether two configs as a joint and as an effective membership answer ids, and equal themselves.
fn all_answered(joint: &Configs, effective: &Effective) -> bool {
    let (minority, quorum) = (&[1, 2, 3], &[1, 2, 3, 6, 7]);
    answers(joint, minority, quorum)
        && answers(effective, minority, quorum)
        && *joint == *joint
        && *effective == *effective
}

/// Whether a list of four ids, a slice and a set of them answer ids.
fn each_answers(list: &Vec<u64>, set: &BTreeSet<u64>) -> bool {
    let (minority, quorum) = (&[1, 2], &[4, 2, 1]);
    answers(list, minority, quorum)
        && answers(&list.as_slice(), minority, quorum)
        && answers(set, minority, quorum)
}

#[test]
fn no_allocations_of_quorums(rt: HostRuntime) {
    let alloc = rt.alloc();
    let name = "is_quorum of a joint and of a membership";
    let held = both_made(
        joint(alloc, "1,2,3,4,5/6,7,8"),
        effective(alloc, Some(id()), "1,2,3,4,5/6,7,8", "-"),
    );
    let answer = |held: &mut (Configs, Effective)| all_answered(&held.0, &held.1);
    assert_call(&rt, name, is_free_on(&rt, alloc, name, held, answer));
    let name = "is_quorum of a list and of a set";
    let held = both_made([1, 2, 3, 4].to_vec(alloc), ids(alloc, "1,2,3,4"));
    let answer = |held: &mut (Vec<u64>, BTreeSet<u64>)| each_answers(&held.0, &held.1);
    assert_call(&rt, name, is_free_on(&rt, alloc, name, held, answer));
}

#[test]
fn no_allocations_of_comparisons(rt: HostRuntime) {
    let alloc = rt.alloc();
    let name = "comparison of changes";
    let (one, other) = (change(alloc, "add", "3=30"), change(alloc, "add", "3=31"));
    assert_call(&rt, name, is_compared(&rt, alloc, name, one, other));
    let name = "comparison of errors of a quorum";
    let (one, other) = (
        error::quorum_not_enough(alloc, "1"),
        error::quorum_not_enough(alloc, "2"),
    );
    assert_call(&rt, name, is_compared(&rt, alloc, name, one, other));
    let name = "comparison of errors of a start";
    let (one, other) = (error::not_in_members(alloc), Ok(error::not_allowed()));
    assert_call(&rt, name, is_compared(&rt, alloc, name, one, other));
}
