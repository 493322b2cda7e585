//! The first caller, as it is printed on the page for callers.

use raft_base::{CommittedLeaderId, LogId};
use raft_state::LogIdList;
use std::alloc::{AllocError, Global};

fn last_of_first_leader(alloc: Global) -> Result<Option<LogId<u64>>, AllocError> {
    let first = CommittedLeaderId::new(1, 7u64);
    let second = CommittedLeaderId::new(2, 8u64);
    let mut list = LogIdList::try_default(alloc)?;
    for (leader, index) in [(first, 0), (second, 60), (second, 99)] {
        let id = LogId::new(leader, index);
        if list.can_append(id) {
            list.append(id)?;
        }
    }
    Ok(list.get(59))
}

#[test]
fn missing_indexes_are_of_the_first_leader(rt: HostRuntime) -> Result<(), std::test::Fail> {
    let want = Some(LogId::new(CommittedLeaderId::new(1, 7), 59));
    assert_eq!(rt; last_of_first_leader(rt.alloc())?, want);
    Ok(())
}
