//! Quorums of lists and sets.

use crate::support::asserts::assert_row;
use raft_members::quorum::QuorumSet;
use std::alloc::{AllocError, Global};
use std::collections::BTreeSet;
use tests_support::memory::{are_equal, both_made, is_yes};
use tests_support::words::{ids as set, list, words};

/// Each row has voters and ids, and whether the ids are a quorum of the list and of the set of the
/// voters. No contract speaks of repeated ids: each is counted.
const ROWS: &str = "
- 1 no no
1,1,1,1,2 1,2 no yes
1,2,3 1,1 yes yes
";

/// Whether a list of voters, a slice and the set of them answer ids.
fn each_answers(list: &Vec<u64>, set: &BTreeSet<u64>, asked: &[u64]) -> [bool; 3] {
    [
        list.is_quorum(asked),
        list.as_slice().is_quorum(asked),
        set.is_quorum(asked),
    ]
}

/// Whether the voters of a row answer as the row says, and the list and the set have equal ids.
fn is_right(alloc: Global, row: &str) -> Result<bool, AllocError> {
    let [voters, asked, of_list, of_set, ..] = words(row);
    let (list, asked) = both_made(list(alloc, voters), list(alloc, asked))?;
    let set = set(alloc, voters)?;
    let [of_list, of_set] = [of_list == "yes", of_set == "yes"];
    let are_answers = each_answers(&list, &set, asked.as_slice()) == [of_list, of_list, of_set];
    Ok(are_answers && are_equal(list.ids(alloc), set.ids(alloc)))
}

/// Example members 2. Of an empty list [1] is no quorum. Of the list [1, 1, 1, 1, 2] the ids [1, 2]
/// are no quorum.
/// Example members 3. Of the list [1, 2, 3] the ids [1, 1] are a quorum.
#[test]
fn a_quorum_is_more_than_half(rt: HostRuntime) {
    for row in ROWS.trim().lines() {
        assert_row(&rt, row, is_yes(is_right(rt.alloc(), row)));
    }
}
