//! What a leader sends to its members, and what it learns from their responses, by a `Tracked`.

use crate::support::members::members;
use crate::support::values::logs;
use raft_base::leader_id_std::CommittedLeaderId;
use raft_base::{EmptyNode, LogIdOf};
use raft_progress::entry::ProgressEntryOf;
use raft_progress::inflight::{InflightError, InflightOf};
use raft_progress::progress::Progress;
use raft_progress::tracked::Tracked;
use std::alloc::{AllocError, Global};
use std::test::Fail;
use tests_support::allocations::is_free_on;
use tests_support::facts::first_wrong;
use tests_support::memory::both_made;
use tests_support::plain_log::{PlainLog, id, log_below};

type Leader = CommittedLeaderId;

/// The members of a leader, and what it knows of each.
type Followers = Tracked<u64, EmptyNode, ProgressEntryOf<Leader>, Option<LogIdOf<Leader>>>;

/// A leader's members, and its log.
type Leading = (Followers, PlainLog<Leader>);

/// Voters 1 to 3, of which a leader knows nothing but that no log matches from an index on, and its
/// log, which ends before that index.
fn leading(alloc: Global, end: u64) -> Result<Leading, AllocError> {
    let followers = Tracked::new(members(alloc, "1,2,3")?, ProgressEntryOf::empty(end));
    both_made(followers, log_below(alloc, end, None))
}

/// A request with this number, which has the logs after an index up to another one.
fn sends(number: u64, prev: Option<u64>, last: u64) -> Option<InflightOf<Leader>> {
    let prev = prev.and_then(|index| id(1, index));
    Some(logs(number, prev, id(1, last)))
}

/// Returns the name of the first call of a leader with a log from 0 to 9 that is wrong.
fn wrong_call((all, log): &mut Leading) -> Option<&'static str> {
    let (first, taken) = (id(1, 3), Some(Ok(())));
    let late = InflightError::InvalidRequestId {
        mine: Some(1),
        received: 2,
    };
    first_wrong(&[
        ("a send", all.next_send(&1, log, 4) == sends(1, None, 3)),
        (
            "in flight",
            all.next_send(&1, log, 4) == Some(InflightOf::None),
        ),
        ("no member", all.next_send(&9, log, 4).is_none()),
        ("late", all.acknowledge(&1, 2, first) == Some(Err(late))),
        ("an ack", all.acknowledge(&1, 1, first) == taken),
        ("of no member", all.acknowledge(&9, 1, first).is_none()),
        ("a second", all.next_send(&2, log, 4) == sends(1, None, 3)),
        ("not granted", all.progress().granted().is_none()),
        ("its ack", all.acknowledge(&2, 1, first) == taken),
        ("granted", *all.progress().granted() == first),
        ("a conflict", all.conflict(&3, None, 5) == taken),
        ("of no member", all.conflict(&9, None, 5).is_none()),
        ("to no member", all.next_request(&9, log, 4).is_none()),
        (
            "the next",
            all.next_request(&2, log, 4) == sends(2, Some(3), 7),
        ),
    ])
}

/// Returns the name of the first request for the voter 1 in a log from 0 to 39 that is wrong. The
/// first two are probes before the searching end, and the third one halves what is searched.
fn wrong_request((all, log): &mut Leading) -> Option<&'static str> {
    let taken = Some(Ok(()));
    first_wrong(&[
        (
            "a probe",
            all.next_request(&1, log, 4) == sends(1, Some(39), 39),
        ),
        ("its conflict", all.conflict(&1, Some(1), 39) == taken),
        (
            "another",
            all.next_request(&1, log, 4) == sends(2, Some(38), 38),
        ),
        ("its conflict", all.conflict(&1, Some(2), 38) == taken),
        (
            "half",
            all.next_request(&1, log, 4) == sends(3, Some(15), 16),
        ),
    ])
}

#[test]
fn a_leader_sends_and_takes_responses(rt: HostRuntime) -> Result<(), Fail> {
    let alloc = rt.alloc();
    let name = "requests and responses of Tracked";
    let call = |leading: &mut Leading| wrong_call(leading).is_none();
    assert!(rt; is_free_on(&rt, alloc, name, leading(alloc, 10), call)?);
    let request = |leading: &mut Leading| wrong_request(leading).is_none();
    assert!(rt; is_free_on(&rt, alloc, name, leading(alloc, 40), request)?);
    Ok(())
}
