//! Summaries, with each allocation refused in turn.

use crate::asserts::assert_call;
use raft_base::{LeaderId, LogId, MessageSummary, Vote};
use std::alloc::Global;
use tests_support::allocations::{Allocation, is_swept};

#[test]
fn allocations_of_summaries(rt: HostRuntime) {
    for name in ["LogId::summary", "Vote::summary"] {
        let nothing = |_: Global| Ok(());
        let call = |allocation: Allocation, _: &mut ()| {
            allocation.refuse();
            match name {
                "LogId::summary" => LogId::new(LeaderId::new(1, 2u64), 3).summary(allocation.alloc),
                _ => Vote::new(1, 2u64).summary(allocation.alloc),
            }
        };
        assert_call(&rt, name, is_swept(&rt, rt.alloc(), name, nothing, call));
    }
}
