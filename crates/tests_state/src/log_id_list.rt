//! The list of log ids.

use crate::laws::logs_are_same;
use crate::support::asserts::assert_row;
use crate::support::states::log_of;
use crate::support::words::assert_calls;
use raft_base::LeaderId;
use raft_state::LogIdList;
use raft_state::log_id_list::laws::truncate_twice;
use std::alloc::{AllocError, Global};
use std::test::Fail;
use tests_support::memory::is_yes;

/// The call, the keys, its argument, the answer.
const ROWS: &str = "\
    truncate 1.1,2.3,2.9 3 1.1,1.2; truncate 1.1,2.3,2.9 4 1.1,2.3; \
    truncate 1.1,2.3,2.9 9 1.1,2.3,2.8; truncate 1.1,2.3,2.9 1 -; \
    truncate 1.1,2.3,2.9 10 1.1,2.3,2.9; purge 1.1,2.3,2.9 2.5 2.5,2.9; \
    purge 1.1,2.3,2.9 9.2 1.2,2.3,2.9; purge 1.1,2.3,2.9 2.9 2.9; purge 1.1,2.3,2.9 3.12 3.12; \
    purge 1.1,2.3,2.9 1.0 1.1,2.3,2.9; can_purge 1.1,2.3,2.9 1.12 false; \
    can_purge 1.1,2.3,2.9 2.12 true; append 2.3,2.9 5.12 2.3,5.12; \
    can_append 1.1,2.3,2.9 3.9 false; can_append 1.1,2.3,2.9 1.10 false; \
    can_append 1.1,2.3,2.9 2.10 true; extend - 1.0,1.1,2.2,2.3 1.0,2.2,2.3; \
    extend_same 1.1,2.3,2.9 2.10,2.12 1.1,2.3,2.12; \
    extend_same 1.1,2.3,2.9 3.11,3.14 1.1,2.3,3.11,3.14; get 1.1,2.3,3.11,3.14 10 2.10; \
    get 2.3,5.12 11 2.11; get 2.3,5.12 2 -; get 2.3,5.12 13 -; \
    by_last_leader 1.0,2.2,2.3 - 2.2,2.3; can_extend 1.1,2.3,2.9 2.10,1.11 false; \
    can_extend_same 1.1,2.3,2.9 2.10,3.11 false; key_log_ids 1.1,1.2,2.3 - -";

/// Example state 1. Keys (1, 1), (2, 3), (2, 9) and others: `truncate`, `purge`, `append`,
/// `extend`, `get`, the keys of the last leader, and the tests of preconditions.
#[test]
fn calls_are_right(rt: HostRuntime) -> Result<(), Fail> {
    assert_calls::<LeaderId<u64>>(&rt, rt.alloc(), ROWS);
    Ok(())
}

/// Whether a list that is cut twice at index 9 is the shorter one, and not the whole one.
fn compare(cut: &mut LogIdList<u64>, list: &LogIdList<u64>, shorter: &LogIdList<u64>) -> bool {
    truncate_twice(cut, 9);
    logs_are_same(cut, shorter) && !logs_are_same(list, cut) && *cut == *shorter && *list != *cut
}

/// Whether lists with equal logs are equal, and no others.
fn lists_compare(alloc: Global) -> Result<bool, AllocError> {
    let list = log_of(alloc, "1.1,2.3,2.9")?;
    let shorter = log_of(alloc, "1.1,2.3,2.8")?;
    let mut cut = list.try_clone()?;
    Ok(compare(&mut cut, &list, &shorter))
}

#[test]
fn lists_are_their_logs(rt: HostRuntime) -> Result<(), Fail> {
    assert_row(&rt, "lists", is_yes(lists_compare(rt.alloc())));
    Ok(())
}
