//! Indexes that may be absent.

use crate::asserts::assert_row;
use raft_base::LogIndexOptionExt;

/// Example base 3. No index and 0 more is no index, and 3 more is 2. Index 7 and 0 more is 7.
/// Nothing is before index 0.
#[test]
fn indexes_may_be_absent(rt: HostRuntime) {
    let none: Option<u64> = None;
    let made = [
        none.add(0),
        none.add(3),
        Some(7).add(0),
        Some(0).prev_index(),
    ];
    assert_row(&rt, "indexes", made == [None, Some(2), Some(7), None]);
}
