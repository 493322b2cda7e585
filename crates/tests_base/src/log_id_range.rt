//! Ranges of logs. Their texts are in `texts.rt`.

use crate::asserts::assert_call;
use raft_base::{Invalid, LeaderId, LogId, LogIdRange, Validate};
use tests_support::allocations::{is_free, refuse_each};

/// The range from index 5 to another one, if there is one, which have one leader.
fn range(last: Option<u64>) -> LogIdRange<u64> {
    let id = |index| LogId::new(LeaderId::new(1, 2), index);
    LogIdRange::new(Some(id(5)), last.map(id))
}

/// Example base 4. A range from index 5 to no index or to 4 breaks `RangeOrder`.
#[test]
fn ranges_have_an_order_and_a_length(rt: HostRuntime) {
    refuse_each(rt.alloc());
    let broken = [None, Some(4)].map(|last| range(last).validate());
    let valid = range(Some(10));
    let is_right = broken == [Err(Invalid::RangeOrder); 2]
        && valid.validate().is_ok()
        && valid.has_len()
        && valid.len() == 5;
    let name = "LogIdRange::{validate, len}";
    assert_call(&rt, name, is_free(&rt, rt.alloc(), name, is_right));
}
