//! Log entries.

use raft_base::{CommittedLeaderId, LogId, LogIdOf, RaftLogId};
use raft_members::Membership;
use raft_state::{Entry, EntryPayload, FromAppData, RaftEntry, RaftPayload};
use std::alloc::AllocError;
use std::test::Fail;
use tests_support::memory::equals;
use tests_support::words::members;

type Members = Membership<u64, u64>;

type Data = Entry<u64, u64, u64>;

/// Whether a blank entry and one with a membership are what they are made as, over any entry type.
fn are_as_made<C: Copy + Eq, E: RaftEntry<C, Members> + Drop>(
    log_id: LogIdOf<C>,
    membership: Result<Members, AllocError>,
) -> Result<bool, AllocError> {
    let blank = E::new_blank(log_id);
    let mut stores = E::new_membership(log_id, membership?);
    stores.set_log_id(&log_id);
    let are_right = [
        blank.is_blank(),
        blank.get_membership().is_none(),
        *blank.get_log_id() == log_id,
        !stores.is_blank(),
        stores.get_membership().is_some(),
        *stores.get_log_id() == log_id,
    ];
    Ok(!are_right.contains(&false))
}

/// Whether an entry of a program's data has the default log id, and it and a blank one equal their
/// clones alone.
fn data_is_kept(data: &Data, blank: &Data) -> bool {
    let are_right = [
        *data.get_log_id() == LogId::default(),
        data.payload == EntryPayload::Normal(7),
        *blank == Data::new_blank(LogId::default()),
        *blank != *data,
        equals(data.try_clone(), data),
    ];
    !are_right.contains(&false)
}

#[test]
fn entries_are_as_made(rt: HostRuntime) -> Result<(), Fail> {
    let membership = members(rt.alloc(), "1,2", "1=4,3=6");
    let log_id = LogId::new(CommittedLeaderId::new(1, 2u64), 3);
    let are_made = are_as_made::<CommittedLeaderId<u64>, Data>(log_id, membership);
    assert!(rt; are_made? && data_is_kept(&Data::from_app_data(7), &Data::default()));
    Ok(())
}
