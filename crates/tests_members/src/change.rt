//! Changes of a membership.

use crate::support::asserts::assert_row;
use crate::support::lines::{Rows, assert_rows};
use raft_members::{ChangeMembers, Membership};
use std::alloc::Global;
use std::collections::BTreeMap;
use std::test::Fail;
use tests_support::address::Address;
use tests_support::words::configs;

/// Changes of two voters and a learner, with their answers.
const ROWS: &str = "
1,2 1=1,2=2,3=3 add-ids 4 retain err LearnerNotFound 4
1,2 1=1,2=2,3=3 add-ids 4,5 retain err LearnerNotFound 4
1,2 1=1,2=2,3=3 add-ids 3 retain ok 1,2/1,2,3 1=1,2=2,3=3
1,2 1=1,2=2,3=3 add 5=5 retain ok 1,2/1,2,5 1=1,2=2,3=3,5=5
1,2 1=1,2=2,3=3 add 3=30 retain ok 1,2/1,2,3 1=1,2=2,3=3
1,2 1=1,2=2,3=3 remove 5 retain ok 1,2 1=1,2=2,3=3
1,2 1=1,2=2,3=3 remove 1 retain ok 1,2/2 1=1,2=2,3=3
1,2 1=1,2=2,3=3 remove 1 drop ok 1,2/2 1=1,2=2,3=3
1,2/2 1=1,2=2,3=3 remove 1 drop ok 2 2=2,3=3
1,2 1=1,2=2,3=3 remove 1,2 retain err EmptyMembership
1,2 1=1,2=2,3=3 remove-nodes 2 retain err LearnerNotFound 2
1,2 1=1,2=2,3=3 set-nodes 3=30,4=40 retain ok 1,2 1=1,2=2,3=30,4=40
1,2 1=1,2=2,3=3 replace 2 drop ok 1,2/2 1=1,2=2,3=3
1,2 1=1,2=2,3=3 replace 2,3 drop ok 1,2/2,3 1=1,2=2,3=3
1,2/2,3 1=1,2=2,3=3 replace 1,3 drop ok 2,3/1,3 1=1,2=2,3=3
2,3/1,3 1=1,2=2,3=3 replace 1,3 drop ok 1,3 1=1,3=3
1,2 1=1,2=2,3=3 add-nodes 2=20 retain ok 1,2 1=1,2=2,3=3
1,2 1=1,2=2,3=3 add-nodes 3=30 drop ok 1,2 1=1,2=2,3=3
1,2 1=1,2=2,3=3 add-nodes 4=4 retain ok 1,2 1=1,2=2,3=3,4=4
1,2 1=1,2=2,3=3 remove-nodes 3 retain ok 1,2 1=1,2=2
1,2 1=1,2=2,3=3 replace-nodes 1=1,2=2,4=4 retain ok 1,2 1=1,2=2,4=4
";

// A change that always lacks memory fails here: each kind has rows in which it is accepted.
/// Example members 7. Configs {1, 2} and nodes 1 to 3: each change of voters and of nodes, with
/// and without `retain`, and each refusal. Two steps lead from {1, 2} to {1, 3} by {2, 3}.
/// Example members 9. Each kind of change is accepted if there is memory.
#[test]
fn changes_have_their_worked_answers(rt: HostRuntime) {
    assert_rows(&rt, rt.alloc(), Rows::Changes, ROWS);
}

/// A membership of one voter at the default address, and another node at a given one.
fn with_address(alloc: Global, text: &str) -> Result<Membership<u64, Address>, Fail> {
    let text = String::from_str(alloc, text)?;
    let mut nodes = BTreeMap::new(alloc);
    nodes.insert(2, Address { text })?;
    let from = Membership::new(configs(alloc, "1")?, ())?;
    Ok(from.change(ChangeMembers::AddVoters(nodes), true)?)
}

/// Whether the addresses of the nodes 1 and 2 are these texts.
fn has_addresses(members: &Membership<u64, Address>, first: &str, second: &str) -> bool {
    match (members.get_node(&1), members.get_node(&2)) {
        (Some(one), Some(other)) => [one.text.as_str(), other.text.as_str()] == [first, second],
        _ => false,
    }
}

#[test]
fn a_node_may_hold_a_text(rt: HostRuntime) -> Result<(), Fail> {
    let made = with_address(rt.alloc(), "there")?;
    assert_row(&rt, "addresses", has_addresses(&made, "", "there"));
    Ok(())
}
