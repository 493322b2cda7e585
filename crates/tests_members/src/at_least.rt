//! Quorums of a stated size.

use crate::support::asserts::assert_made;
use crate::support::quorums::has_ids;
use raft_members::quorum::{AtLeast, QuorumSet};
use std::alloc::{AllocError, Global};
use tests_support::facts::first_wrong;
use tests_support::memory::equals;
use tests_support::printing::displays;

/// Returns what is wrong of the quorum set of two of 0 to 4.
fn wrong_set(alloc: Global, set: &AtLeast<u64>) -> Option<&'static str> {
    first_wrong(&[
        ("0 and 1", set.is_quorum(&[0, 1])),
        ("2 and 3", set.is_quorum(&[2, 3])),
        ("ids", has_ids(alloc, set, "0,1,2,3,4")),
        ("text", displays(alloc, set, "2 of {0,1,2,3,4}")),
        ("a clone", equals(set.clone(), set)),
    ])
}

fn wrong_at_least(alloc: Global) -> Result<Option<&'static str>, AllocError> {
    let set = AtLeast::new(alloc, &[2, 0, 4, 1, 3, 1], 2)?;
    Ok(wrong_set(alloc, &set))
}

/// Example members 6. Two of 0 to 4: {0, 1} and {2, 3} are quorums that share no voter.
#[test]
fn quorums_of_a_stated_size_may_share_no_voter(rt: HostRuntime) {
    let alloc = rt.alloc();
    assert_made(&rt, "two of 0 to 4", wrong_at_least(alloc));
}
