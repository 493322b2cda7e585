//! Searches over whole lists of events.
use crate::support::asserts::assert_row;
use crate::support::values::{at, logs, purged_log, snapshot};
use raft_base::leader_id_std::CommittedLeaderId as Leader;
use raft_progress::entry::ProgressEntryOf;
use raft_progress::search::{SearchEvent, search_run};
use std::alloc::{AllocError, Global};
use std::test::Fail;
use tests_support::memory::is_yes;
use tests_support::plain_log::{PlainLog, id, log_below};

type Log = PlainLog<Leader>;

type Events<'a, 'e> = &'e [SearchEvent<'a, Log>];

/// Whether a search in a log that ends before an index accepts so many conflicts, and leaves the
/// entry as wanted.
fn accepts(end: u64, events: Events<'_, '_>, want: u64, to: ProgressEntryOf<Leader>) -> bool {
    let mut entry = ProgressEntryOf::empty(end);
    search_run(&mut entry, events) == want && entry == to
}

/// A send of at most so many logs.
fn send(log: &Log, max_entries: u64) -> SearchEvent<'_, Log> {
    SearchEvent::Send { log, max_entries }
}

/// A conflict under a request.
fn conflict<'a>(request_id: u64, conflict: u64) -> SearchEvent<'a, Log> {
    SearchEvent::Conflict {
        request_id,
        conflict,
    }
}

/// Whether searches over a log from 0 to 99 halve the stretch, with a heartbeat in between and
/// without.
pub fn halves(log: &Log) -> bool {
    let probes = [
        send(log, 10),
        conflict(1, 47),
        send(log, 10),
        conflict(2, 15),
        send(log, 10),
        conflict(3, 0),
    ];
    let shortened = [
        send(log, 10),
        SearchEvent::Heartbeat { conflict: 30 },
        conflict(1, 47),
        send(log, 10),
        conflict(2, 7),
        send(log, 10),
        conflict(3, 0),
    ];
    let first = logs(3, None, id(1, 9));
    accepts(100, &probes, 2, at(None, 15, 3, first))
        && accepts(100, &shortened, 2, at(None, 7, 3, first))
}

/// Whether searches at a purge point end with a snapshot, also where a send is skipped since its
/// purge point has gone back.
pub fn ends_with_a_snapshot(purged: &Log, whole: &Log) -> bool {
    let probe = [
        send(purged, u64::MAX),
        conflict(1, 4),
        send(purged, u64::MAX),
    ];
    let gone_back = [
        send(purged, 3),
        conflict(1, 4),
        send(whole, 3),
        conflict(1, 4),
        send(purged, 3),
        conflict(2, 4),
    ];
    let end = at(None, 4, 2, snapshot(2, id(1, 6)));
    accepts(10, &probe, 1, end) && accepts(10, &gone_back, 1, end)
}

/// Whether all worked searches are as they should be.
fn are_as_worked(alloc: Global) -> Result<bool, AllocError> {
    let hundred = log_below(alloc, 100, None)?;
    let whole = log_below(alloc, 21, None)?;
    let purged = purged_log(alloc, 21, 4, id(1, 6))?;
    Ok(halves(&hundred) && ends_with_a_snapshot(&purged, &whole))
}

/// Example progress 20. The searches of `entry.rt` as lists of events: 2, 2, 1 and 1 conflicts
/// are accepted. The searching end is 7 after a heartbeat of 30. A send is skipped after its
/// purge point has gone back.
#[test]
fn searches_are_as_worked(rt: HostRuntime) -> Result<(), Fail> {
    assert_row(&rt, "searches", is_yes(are_as_worked(rt.alloc())));
    Ok(())
}
