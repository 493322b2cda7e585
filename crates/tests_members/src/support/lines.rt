//! Rows of changes, steps, tests and reads, with the answers of a membership. The first two words of
//! a row are the membership's configs and nodes.

use crate::support::asserts::assert_row;
use raft_members::{
    ChangeMembers, ChangeMembershipError, EmptyMembership, LearnerNotFound, Membership,
};
use std::alloc::{AllocError, Global};
use std::collections::{BTreeMap, BTreeSet};
use std::process::Abort;
use tests_support::memory::{are_equal, equals, is_yes};
use tests_support::words::{ids, list, members, nodes, number, words};

/// What the rows of a table have.
#[derive(Clone, Copy)]
pub enum Rows {
    Changes,
    Steps,
    Tests,
    Reads,
}

/// A membership whose nodes are numbers.
pub type Members = Membership<u64, u64>;

/// A change of the nodes that a word has.
fn change_of_nodes(kind: &str, nodes: BTreeMap<u64, u64>) -> ChangeMembers<u64, u64> {
    match kind {
        "add" => ChangeMembers::AddVoters(nodes),
        "add-nodes" => ChangeMembers::AddNodes(nodes),
        "set-nodes" => ChangeMembers::SetNodes(nodes),
        _ => ChangeMembers::ReplaceAllNodes(nodes),
    }
}

/// A change of the ids that a word has.
fn change_of_ids(kind: &str, ids: BTreeSet<u64>) -> ChangeMembers<u64, u64> {
    match kind {
        "add-ids" => ChangeMembers::AddVoterIds(ids),
        "remove" => ChangeMembers::RemoveVoters(ids),
        "remove-nodes" => ChangeMembers::RemoveNodes(ids),
        _ => ChangeMembers::ReplaceAllVoters(ids),
    }
}

/// The change of two words.
pub fn change(
    alloc: Global,
    kind: &str,
    list: &str,
) -> Result<ChangeMembers<u64, u64>, AllocError> {
    match kind {
        "add" | "add-nodes" | "set-nodes" | "replace-nodes" => {
            Ok(change_of_nodes(kind, nodes(alloc, list)?))
        }
        _ => Ok(change_of_ids(kind, ids(alloc, list)?)),
    }
}

/// Whether a refusal has the name, and the missing id if there is one.
fn is_refusal(refused: &ChangeMembershipError<u64>, name: &str, id: &str) -> bool {
    match refused {
        ChangeMembershipError::EmptyMembership(_) => name == "EmptyMembership",
        ChangeMembershipError::LearnerNotFound(missing) => {
            name == "LearnerNotFound" && missing.node_id == number(id)
        }
        _ => false,
    }
}

/// Whether a change equals its clone, and has the answer of its row: the row has the change, its
/// ids or nodes, whether nodes are retained, and the next configs and nodes or a refusal.
fn change_is_right(alloc: Global, from: &Members, row: [&str; 9]) -> Result<bool, AllocError> {
    let [_, _, kind, list, retain, verdict, first, second, ..] = row;
    let change = change(alloc, kind, list)?;
    let is_cloned = equals(change.try_clone(alloc), &change);
    let is_answer = match from.change(change, retain == "retain") {
        Ok(made) => verdict == "ok" && equals(members(alloc, first, second), &made),
        Err(refused) => verdict == "err" && is_refusal(&refused, first, second),
    };
    Ok(is_answer && is_cloned)
}

/// Whether a step has the answer of its row: the row has the goal, whether nodes are retained, and
/// the next configs and nodes.
fn step_is_right(alloc: Global, from: &Members, row: [&str; 9]) -> Result<bool, AllocError> {
    let [_, _, goal, retain, configs, nodes, ..] = row;
    let made = from.next_coherent(ids(alloc, goal)?, retain == "retain");
    Ok(are_equal(made, members(alloc, configs, nodes)))
}

/// Whether a membership is valid or refused as its row says.
fn test_is_right(from: &Members, row: [&str; 9]) -> bool {
    let [_, _, verdict, name, id, ..] = row;
    match from.ensure_valid() {
        Ok(()) => verdict == "ok",
        Err(refused) => verdict == "err" && is_refusal(&refused, name, id),
    }
}

/// Whether the reads of a membership are those of its row, which has an id, then the voters, the
/// learners, whether the id has a node, whether it is a voter, its node, and whether there are
/// several configs. The membership equals its clone.
fn reads_are_right(alloc: Global, from: &Members, row: [&str; 9]) -> Result<bool, AllocError> {
    let [_, _, id, voters, learners, has_node, is_voter, node, joint] = row;
    let learners = list(alloc, learners)?;
    let id = number(id);
    let are_right = [
        are_equal(from.voter_ids(), list(alloc, voters)),
        from.learner_ids().eq(learners.iter().copied()),
        from.contains(&id) == (has_node == "true"),
        from.is_voter(&id) == (is_voter == "true"),
        from.get_node(&id).copied() == node.parse::<u64>().ok(),
        from.is_in_joint_consensus() == (joint == "true"),
        equals(from.try_clone(), from),
    ];
    Ok(are_right == [true; 7])
}

/// Whether a row has its answer.
fn is_right(alloc: Global, rows: Rows, row: &str) -> Result<bool, AllocError> {
    let row = words(row);
    let from = members(alloc, row[0], row[1])?;
    match rows {
        Rows::Changes => change_is_right(alloc, &from, row),
        Rows::Steps => step_is_right(alloc, &from, row),
        Rows::Tests => Ok(test_is_right(&from, row)),
        Rows::Reads => reads_are_right(alloc, &from, row),
    }
}

/// Stops the test at the first row of a table that is wrong, and prints the row.
pub fn assert_rows(rt: &impl Abort, alloc: Global, rows: Rows, table: &str) {
    for row in table.trim().lines() {
        assert_row(rt, row, is_yes(is_right(alloc, rows, row)));
    }
}
