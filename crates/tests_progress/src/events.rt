//! Ten thousand events, each given to an entry and to a plain table: a follower may respond
//! anything. A thousand entries take ten each, and one takes all.
ghost use Rattle.std.specs.Prelude.{◌≤◌};

use crate::support::entry_calls::{Answer, Call, answer_of};
use crate::support::table::{Leader, index, table};
use crate::support::values::{logs, snapshot};
use raft_base::LogId;
use raft_progress::entry::ProgressEntry;
use raft_progress::inflight::{Inflight, InflightError};
use std::alloc::{AllocError, Global};
use std::test::Fail;
use tests_support::plain_log::{PlainLog, id, log_below};

/// A number below 1,024 that is made of a counter.
fn made_of(counter: u64, factor: u64) -> u64 {
    let product = counter
        .wrapping_mul(0x9e37_79b9_7f4a_7c15)
        .wrapping_mul(factor);
    product / 0x0040_0000_0000_0000
}

/// A number below an end that is made of a counter, once in a while the greatest u64 or the one
/// below that.
fn made_below(end: u64, counter: u64, factor: u64) -> u64
    requires { 1 ≤ end }
{
    let number = made_of(counter, factor);
    match number / 64 {
        0 => u64::MAX,
        1 => u64::MAX - 1,
        _ => number % end,
    }
}

/// The log id at a made index, once in a while that of another leader, or none.
fn made_id(counter: u64) -> Option<LogId<u64>> {
    let index = made_below(12, counter, 5);
    match made_of(counter, 7) % 32 {
        0 => None,
        1 | 2 => id(2, index),
        3 | 4 => id(0, index),
        _ => id(1, index),
    }
}

/// A request that an entry sends while it is young, once in a while one that is far off.
fn made_request(counter: u64) -> u64 {
    match made_of(counter, 13) % 16 {
        0..=8 => 1,
        9..=11 => 2,
        12 => 3,
        13 => 0,
        14 => u64::MAX / 2,
        _ => u64::MAX,
    }
}

/// The event of a counter.
fn event(counter: u64) -> Call<Leader> {
    let request = made_request(counter);
    match made_of(counter, 3) % 10 {
        0..=2 => Call::Send(made_below(12, counter, 11)),
        3..=5 => Call::Ack(request, made_id(counter)),
        6..=8 => Call::Conflict(Some(request), made_below(8, counter, 5)),
        _ => Call::Conflict(None, made_below(16, counter, 5)),
    }
}

/// The entry with which the events of a life begin: it matches nothing, and one more request may be
/// its last, or it has a match, and nothing in flight, a snapshot, or logs from before or after it.
fn first_entry(life: u64) -> ProgressEntry<u64> {
    let place = made_of(life, 17) % 25;
    let prev = made_of(life, 19) % 4 + 4;
    let empty = ProgressEntry::<u64>::empty(place);
    let matched = ProgressEntry::<u64>::new(id(1, place % 9)).with_curr_inflight_id(1);
    match made_of(life, 29) % 8 {
        0 | 1 => empty,
        2 => empty.with_curr_inflight_id(u64::MAX - 1),
        3 => matched,
        4 => matched.with_inflight(snapshot(1, id(1, prev))),
        5 => matched.with_inflight(logs(1, id(1, prev), id(2, prev + 3))),
        _ => matched.with_inflight(logs(1, id(1, prev), id(1, prev + 6))),
    }
}

/// The logs over which is sent.
#[derive(Drop)]
struct Logs {
    /// With nothing to be purged.
    whole: PlainLog<Leader>,
    /// To be purged up to index 6.
    purged: PlainLog<Leader>,
    /// With its last index one below the greatest.
    long: PlainLog<Leader>,
    /// To be purged up to the greatest index.
    far: PlainLog<Leader>,
}

fn make_logs(alloc: Global) -> Result<Logs, AllocError> {
    let whole = log_below(alloc, 24, id(2, 5))?;
    let mut purged = log_below(alloc, 24, None)?;
    purged.purge_upto = id(1, 6);
    purged.snapshot = id(1, 9);
    let mut long = log_below(alloc, 24, id(1, u64::MAX - 1))?;
    long.last = id(1, u64::MAX - 1);
    let mut far = log_below(alloc, 24, None)?;
    far.purge_upto = id(1, u64::MAX);
    Ok(Logs {
        whole,
        purged,
        long,
        far,
    })
}

/// The log at a counter. Its purge point goes back and forth.
fn log_at(logs: &Logs, counter: u64) -> &PlainLog<Leader> {
    match made_of(counter, 23) % 16 {
        0..=8 => &logs.whole,
        9..=13 => &logs.purged,
        14 => &logs.long,
        _ => &logs.far,
    }
}

/// The cases of an answer to a call of an entry, each of which is a bit: what was sent or not, the
/// refusals, and a heartbeat below the match or below the log before those in flight.
fn cases(entry: ProgressEntry<u64>, call: Call<Leader>, answer: Answer<Leader>) -> u64 {
    let case = match answer {
        Answer::NotAllowed => 0x1,
        Answer::Sent(Err(Inflight::None)) => 0x2,
        Answer::Sent(Err(_)) => 0x4,
        Answer::Sent(Ok(Inflight::Snapshot { .. })) => 0x8,
        Answer::Sent(Ok(Inflight::Logs { .. })) => 0x10,
        Answer::Sent(Ok(Inflight::None)) => 0x20,
        Answer::Taken(Ok(())) => 0x40,
        Answer::Taken(Err(refusal)) => match refusal {
            InflightError::InvalidRequestId { .. } => 0x80,
            InflightError::AckOutOfRange => 0x100,
            InflightError::SnapshotAckRegress => 0x200,
            InflightError::MatchingRegress => 0x400,
            InflightError::ConflictNotAtPrev => 0x800,
            InflightError::ConflictOnSnapshot => 0x1000,
            InflightError::ConflictBelowMatching => 0x2000,
            InflightError::IndexTooLarge => 0x4000,
        },
    };
    match (call, entry.inflight) {
        (Call::Conflict(None, at), _) if Some(at) <= index(entry.matching) => case | 0x8000,
        (Call::Conflict(None, at), Inflight::Logs { log_id_range, .. })
            if Some(at) < index(log_id_range.prev) => case | 0x1_0000,
        _ => case,
    }
}

/// All cases.
const ALL: u64 = 0x1_ffff;

/// The cases that are met by entries, one after another, that live so many events each, where they
/// answer all of them as the table.
fn cases_as_by_the_table(logs: &Logs, events: u64, life: u64) -> Option<u64>
    requires { 1 ≤ life }
{
    let mut met = 0;
    let mut entry = first_entry(0);
    for counter in 0..events {
        if counter % life == 0 {
            entry = first_entry(counter);
        }
        let (log, call, from) = (log_at(logs, counter), event(counter), entry);
        let (want, left) = table(from, log, call);
        if answer_of(&mut entry, log, call) != want || entry != left {
            return None;
        }
        met = met | cases(from, call, want);
    }
    Some(met)
}

/// Example progress 21. Ten thousand random events, against a table: ten events for each of a
/// thousand entries, and all events for one entry.
#[test]
fn any_events_are_answered_as_by_the_table(rt: HostRuntime) -> Result<(), Fail> {
    let logs = make_logs(rt.alloc())?;
    // Short lives meet each case. The entry of a long one is in states that only a history makes.
    let short = cases_as_by_the_table(&logs, 10_000, 10) == Some(ALL);
    assert!(rt; short && cases_as_by_the_table(&logs, 10_000, 10_000).is_some());
    Ok(())
}
