//! Joints of quorum sets, also shared and borrowed ones.

use crate::support::asserts::{assert_call, assert_made, assert_row};
use crate::support::quorums::{BorrowedConfigs, Configs, has_ids, joint};
use raft_members::quorum::{AsJoint, Joint, QuorumSet};
use std::alloc::{AllocError, Global};
use std::collections::BTreeSet;
use std::rc::Rc;
use tests_support::allocations::is_free_on;
use tests_support::facts::first_wrong;
use tests_support::memory::{both_made, is_yes, with_made};
use tests_support::words::{configs, list, words};

/// Some sets as one.
type Sets = Joint<u64, BTreeSet<u64>, Vec<BTreeSet<u64>>>;

/// Some borrowed sets as one.
type BorrowedSets<'a> = Joint<u64, BTreeSet<u64>, &'a [BTreeSet<u64>]>;

/// Each row has ids, and whether they are a quorum of the joint of {1, 2, 3, 4, 5} and {6, 7, 8}. A
/// repeated id is counted as often as it comes, in each child.
const QUORUMS: &str = "
1,2,3 no
6,7 no
1,2,3,6,7 yes
7,3,1,8,5 yes
- no
1,1,1,6,6 yes
";

/// Whether a joint, shared, itself and borrowed, answers a set of ids as wanted.
fn joint_answers(shared: &Rc<Sets>, ids: &[u64], want: bool) -> bool {
    let borrowed: BorrowedSets<'_> = shared.children().as_joint();
    let answers = [
        borrowed.is_quorum(ids),
        (**shared).is_quorum(ids),
        shared.is_quorum(ids),
    ];
    answers == [want; 3]
}

/// The joint of two sets.
fn two_sets(alloc: Global) -> Result<Rc<Sets>, AllocError> {
    Ok(Rc::new(alloc, Joint::from(configs(alloc, "1,2,3,4,5/6,7,8")?))?)
}

/// Example members 1. The joint of {1, 2, 3, 4, 5} and {6, 7, 8}: neither [1, 2, 3] nor [6, 7]
/// is a quorum, and [1, 2, 3, 6, 7] is one.
#[test]
fn a_joint_asks_each_child(rt: HostRuntime) {
    let name = "is_quorum of a shared and of a borrowed joint";
    let alloc = rt.alloc();
    for row in QUORUMS.trim().lines() {
        let [ids, want, ..] = words(row);
        let held = both_made(two_sets(alloc), list(alloc, ids));
        let call = |held: &mut (Rc<Sets>, Vec<u64>)| {
            joint_answers(&held.0, held.1.as_slice(), want == "yes")
        };
        assert_call(&rt, row, is_free_on(&rt, alloc, name, held, call));
    }
}

/// The joint of the configs of a word, to be shared.
fn shared_joint(alloc: Global, configs: &str) -> Result<Rc<Configs>, AllocError> {
    Ok(Rc::new(alloc, joint(alloc, configs)?)?)
}

/// Returns what is wrong of the joint of three configs, shared and borrowed. The least size of its
/// quorums is the greatest one of its children.
fn wrong_joint(alloc: Global, shared: &Rc<Configs>) -> Option<&'static str> {
    let borrowed: BorrowedConfigs<'_> = shared.children().as_joint();
    let sizes = [shared.least_quorum_size(), borrowed.least_quorum_size()];
    first_wrong(&[
        ("the least size", sizes == [4, 4]),
        ("ids", has_ids(alloc, shared, "1,2,3,4,5,6,7")),
        ("borrowed ids", has_ids(alloc, &borrowed, "1,2,3,4,5,6,7")),
    ])
}

/// Whether the size of a single child decides for its joint, shared and borrowed.
fn size_decides(one: &Rc<Configs>) -> bool {
    let borrowed: BorrowedConfigs<'_> = one.children().as_joint();
    [one.deciding_size(), borrowed.deciding_size()] == [Some(2); 2]
}

fn wrong_children(alloc: Global) -> Result<Option<&'static str>, AllocError> {
    let joint = shared_joint(alloc, "1,2/1,2,3,4,5,6/7")?;
    Ok(wrong_joint(alloc, &joint))
}

/// Example members 4. Without children each list of ids is a quorum.
#[test]
fn joints_have_the_ids_and_the_greatest_size_of_their_children(rt: HostRuntime) {
    let alloc = rt.alloc();
    assert_made(&rt, "three children", wrong_children(alloc));
    let one = with_made(shared_joint(alloc, "1,2,3"), |one| Ok(size_decides(one)));
    assert_row(&rt, "one child", is_yes(one));
    let none = with_made(Joint::try_default(alloc), |none: &mut Configs| {
        Ok(none.is_quorum(&[]))
    });
    assert_row(&rt, "no children", is_yes(none));
}
