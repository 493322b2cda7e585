//! The list of log ids, the memberships of a node and its whole state, with each allocation refused
//! in turn or all of them.

use crate::lives::{append, extend, install, purge};
use crate::membership_state;
use crate::support::asserts::assert_row;
use crate::support::memory::try_equals;
use crate::support::rows::{Row, effective, id, log_id, row};
use crate::support::states::{follower, state};
use crate::support::words::edit;
use raft_base::{LogId, LogStateReader, MessageSummary, VoteIn};
use raft_members::{Membership, StoredMembership};
use raft_state::{
    Entry, EntryPayload, FromAppData, LogIdList, MembershipState, RaftEntry, RaftState,
    SnapshotMeta, is_key_list,
};
use std::alloc::{AllocError, Global};
use std::test::Fail;
use tests_support::allocations::{Allocation, is_compared, is_free_on, is_swept};
use tests_support::memory::both_made;
use tests_support::words::{log_ids, members, number, words};

type List = LogIdList<u64>;

type State = RaftState<u64, u64, u64>;

type Data = Entry<u64, u64, u64>;

type Snapshot = SnapshotMeta<u64, u64>;

/// A snapshot up to a log id, with its membership at a log id.
fn snapshot(alloc: Global, upto: Row, members: Row) -> Result<Snapshot, AllocError> {
    let effective = effective(alloc, members, "1,2")?;
    Ok(Snapshot {
        last_log_id: id(upto),
        last_membership: effective.stored_membership().try_clone()?,
        snapshot_id: String::new(alloc),
    })
}

/// A list with the keys of a word, that has room for so many more.
fn list(alloc: Global, keys: &str, room: usize) -> Result<List, AllocError> {
    let keys = log_ids(alloc, keys)?;
    let mut all = Vec::with_capacity(alloc, keys.len().saturating_add(room))?;
    all.extend_from_slice(&keys)?;
    if is_key_list(&all) {
        Ok(List::new(all))
    } else {
        List::try_default(alloc)
    }
}

/// Calls by what they are printed as. A call has its name, the log ids that it is given, how many
/// keys these add, and the keys of the list.
const EDITS: &str = "
LogIdList::append: append 3.7,3.8,3.9 1 of 1.1,2.3
LogIdList::extend: extend 3.7,4.8,5.9,6.10 4 of 1.1,2.3
LogIdList::extend_from_same_leader: extend_same 3.7,3.8,3.9 2 of 1.1,2.3
LogIdList::purge of an empty list: purge 3.7,3.8,3.9 1 of -
RaftState::extend_log_ids: extend_log 3.7,4.8,5.9,6.10 4 of 1.1,2.3
RaftState::extend_log_ids_from_same_leader: extend_log 3.7,3.8,3.9 2 of 1.1,2.3
RaftState::purge_log of an empty log: purge_log 3.7,3.8,3.9 1 of -
";

/// Calls of a state by what they are printed as, each of which is made once. A call has its name,
/// the last log id of a snapshot, a 1, and the row of the state.
const CALLS: &str = "
RaftState::try_clone: clone - 1 of 2 1.1 1.1 - - -
RaftState::append_entries: append_entries - 1 of 2 1.1 1.1 - - 1.2
RaftState::install_snapshot, logged: install 1.3 1 of 2 1.1 1.1 - - 3.4
RaftState::install_snapshot, not logged: install 2.4 1 of 2 1.1 1.1 - - 3.4
";

/// Two configs with three learners.
fn two_configs(alloc: Global) -> Result<Membership<u64, u64>, AllocError> {
    members(alloc, "1,2/2,4", "1=1,2=2,3=3,4=4")
}

/// A state of a row with a snapshot.
fn with_snapshot(alloc: Global, row: &str) -> Result<State, AllocError> {
    let mut state = state(alloc, row)?;
    state.snapshot_meta = SnapshotMeta {
        last_log_id: None,
        last_membership: StoredMembership::new(None, two_configs(alloc)?),
        snapshot_id: String::from_str(alloc, "first")?,
    };
    Ok(state)
}

/// A new state with a list of keys that has room for so many more.
fn logged(alloc: Global, keys: &str, room: usize) -> Result<State, AllocError> {
    let mut state = State::try_default(alloc)?;
    state.log_ids = list(alloc, keys, room)?;
    Ok(state)
}

/// The state that a call of a name borrows.
fn borrowed(alloc: Global, name: &str, of: &str, room: usize) -> Result<State, AllocError> {
    match name {
        "clone" => with_snapshot(alloc, of),
        "append_entries" | "install" => follower(alloc, of),
        _ => logged(alloc, of, room),
    }
}

/// Purges the log of a state, or makes a call of its list by its name. Returns whether it was made.
fn edit_log(state: &mut State, name: &str, ids: &[LogId<u64>]) -> Result<bool, AllocError> {
    match (name, ids.first()) {
        ("purge_log", Some(upto)) => purge(state, upto),
        _ => edit(&mut state.log_ids, name, "", ids),
    }
}

/// An entry of leader 4 of each kind, one after the other from index 5 on.
fn entries(alloc: Global) -> Result<Vec<Data>, AllocError> {
    let membership = members(alloc, "1,2", "1=4,2=5,3=6")?;
    let entries = [
        Data::new_blank(log_id(4, 5)),
        Data::new_membership(log_id(4, 6), membership),
        Data {
            log_id: log_id(4, 7),
            payload: EntryPayload::Normal(7),
        },
    ];
    Ok(Vec::from_array(alloc, entries)?)
}

/// Makes a call of a name, with an allocation refused once its arguments are made. Returns whether
/// it was made, and of a clone whether it equals the state.
fn call(
    allocation: Allocation,
    state: &mut State,
    name: &str,
    argument: &str,
) -> Result<bool, AllocError> {
    match name {
        "clone" => {
            allocation.refuse();
            try_equals(state.try_clone(), state)
        }
        "append_entries" => {
            let entries = entries(allocation.alloc);
            allocation.refuse();
            append(state, entries)
        }
        "install" => {
            let meta = snapshot(allocation.alloc, row(argument), Some((1, 2)));
            allocation.refuse();
            install(state, meta)
        }
        "extend_log" => {
            let ids = log_ids(allocation.alloc, argument);
            allocation.refuse();
            extend(state, ids)
        }
        _ => {
            let ids = log_ids(allocation.alloc, argument)?;
            allocation.refuse();
            edit_log(state, name, &ids)
        }
    }
}

/// Whether the call of a row is right with each allocation refused in turn. A list is edited with
/// every capacity that is too small. With some, an earlier key fits and a later one doesn't.
fn is_right(rt: &impl Print, alloc: Global, row: &str) -> bool {
    let (printed, rest) = row.split_once(": ").unwrap_or((row, ""));
    let (call_words, of) = rest.split_once(" of ").unwrap_or((rest, ""));
    let [name, argument, need, ..] = words(call_words);
    for room in 0..number(need) {
        let state = |alloc: Global| borrowed(alloc, name, of, room as usize);
        let call = |allocation: Allocation, state: &mut State| {
            allocation.made(call(allocation, state, name, argument)?)
        };
        if !is_swept(rt, alloc, printed, state, call).unwrap_or(false) {
            return false;
        }
    }
    true
}

#[test]
fn allocations_of_lists_and_states(rt: HostRuntime) -> Result<(), Fail> {
    for row in EDITS.trim().lines().chain(CALLS.trim().lines()) {
        assert_row(&rt, row, is_right(&rt, rt.alloc(), row));
    }
    Ok(())
}

/// An entry with a membership.
fn entry(alloc: Global) -> Result<Data, AllocError> {
    Ok(Data {
        log_id: log_id(1, 2),
        payload: EntryPayload::Membership(two_configs(alloc)?),
    })
}

/// The memberships of a node and an entry.
type Summed = (MembershipState<u64, u64>, Data);

/// The summary that a call of a name makes, with an allocation refused.
fn sum_up(allocation: Allocation, of: &Summed, name: &str) -> Result<String, AllocError> {
    allocation.refuse();
    let (memberships, entry) = of;
    match name {
        "MembershipState::summary" => memberships.summary(allocation.alloc),
        "Entry::summary" => entry.summary(allocation.alloc),
        _ => entry.payload.summary(allocation.alloc),
    }
}

#[test]
fn allocations_of_summaries(rt: HostRuntime) -> Result<(), Fail> {
    for name in [
        "MembershipState::summary",
        "Entry::summary",
        "EntryPayload::summary",
    ] {
        let summed = |alloc: Global| both_made(membership_state::state(alloc), entry(alloc));
        let sum_up = |allocation: Allocation, of: &mut Summed| sum_up(allocation, of, name);
        assert!(rt; is_swept(&rt, rt.alloc(), name, summed, sum_up)?);
    }
    Ok(())
}

/// Whether a list of the keys (1,1), (2,3) and (2,9) reads as it should.
fn are_read(list: &mut List) -> bool {
    let next = log_id(2, 10);
    let are_right = [
        list.get(2) == Some(log_id(1, 2)),
        list.first() == Some(&log_id(1, 1)),
        list.last() == Some(&log_id(2, 9)),
        list.key_log_ids().len() == 3,
        list.by_last_leader().len() == 2,
        list.can_append(next),
        list.can_extend(&[next]),
        list.can_extend_from_same_leader(&[next]),
        !list.can_purge(&log_id(1, 12)),
    ];
    are_right == [true; 9]
}

/// Whether such a list is truncated and purged as it should be.
fn are_cut(list: &mut List) -> bool {
    let upto = log_id(2, 3);
    list.truncate(5);
    let is_purged = list.can_purge(&upto) && list.purge(&upto) == Ok(());
    is_purged && list.key_log_ids() == [upto, log_id(2, 4)].as_slice()
}

/// A state that is committed up to (3,4), and a snapshot up to there.
type Built = (State, Option<Snapshot>);

/// Such a state.
fn built(alloc: Global) -> Result<Built, AllocError> {
    let upto = snapshot(alloc, Some((3, 4)), Some((1, 1)));
    let (state, upto) = both_made(follower(alloc, "2 1.1 3.4 - - -"), upto)?;
    Ok((state, Some(upto)))
}

/// Whether a state schedules a purge up to (3,4).
fn is_scheduled(state: &mut State) -> bool {
    let upto = log_id(3, 4);
    if !state.can_schedule_purge(&upto) {
        return false;
    }
    state.schedule_purge(&upto);
    true
}

/// Whether a state takes a snapshot that it has built, schedules a purge up to there, promises a
/// higher vote and no lower one, and is sound all the while.
fn is_built(built: &mut Built) -> bool {
    let (state, upto) = built;
    let was_sound = state.is_sound();
    let may_build = match upto.take() {
        Some(upto) if state.can_build_snapshot(&upto) => {
            state.build_snapshot(upto);
            true
        }
        _ => false,
    };
    let are_right = [
        was_sound,
        may_build,
        is_scheduled(state),
        state.purge_upto == Some(log_id(3, 4)),
        state.promise(VoteIn::new(10, 2)),
        !state.promise(VoteIn::new(9, 2)),
        state.is_sound(),
    ];
    are_right == [true; 7]
}

/// Whether a log is truncated as it should be, with its effective membership.
fn is_truncated(state: &mut State) -> bool {
    let is_reverted = state.can_truncate_log(2) && state.truncate_log(2) == Ok(true);
    is_reverted && state.last_log_id() == Some(&log_id(1, 1))
}

#[test]
fn no_allocations(rt: HostRuntime) -> Result<(), Fail> {
    let alloc = rt.alloc();
    let reads = "LogIdList, get, can_append and other reads";
    let keys = |alloc: Global| list(alloc, "1.1,2.3,2.9", 0);
    let reads = is_free_on(&rt, alloc, reads, keys(alloc), are_read);
    let cuts = is_free_on(&rt, alloc, "LogIdList, its cuts", keys(alloc), are_cut);
    let lists = is_compared(
        &rt,
        alloc,
        "LogIdList::eq",
        keys(alloc),
        list(alloc, "1.1,2.3", 0),
    );
    let data = Ok(Data::from_app_data(7));
    let entries = is_compared(&rt, alloc, "comparison of entries", entry(alloc), data);
    let state = follower(alloc, "2 1.1 1.1 - - 1.3");
    let name = "RaftState::truncate_log";
    let truncated = is_free_on(&rt, alloc, name, state, |state| is_truncated(state));
    let name = "RaftState::{build_snapshot, schedule_purge, promise, is_sound}";
    let built = is_free_on(&rt, alloc, name, built(alloc), |built| is_built(built));
    let are_right = [
        reads.unwrap_or(false),
        cuts.unwrap_or(false),
        lists.unwrap_or(false),
        entries.unwrap_or(false),
        truncated.unwrap_or(false),
        built.unwrap_or(false),
    ];
    assert!(rt; are_right == [true; 6]);
    Ok(())
}
