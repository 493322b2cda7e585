//! Moments.

use crate::asserts::assert_row;
use raft_base::Instant;

/// Example base 5. From 5 to 9 pass 4 ticks. From 9 to 5 passes none.
#[test]
fn moments_pass(rt: HostRuntime) {
    let read = [5u64.elapsed(9), 9u64.elapsed(5), 5u64.ticks()];
    assert_row(&rt, "moments", read == [4, 0, 5]);
}
