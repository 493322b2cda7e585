//! What calls of an entry answer and leave, as a plain table of its own.

use crate::support::entry_calls::{Answer, Call};
use crate::support::values::{logs, snapshot};
use raft_base::{LeaderId, LogId, LogIdRange};
use raft_progress::entry::ProgressEntry;
use raft_progress::inflight::{Inflight, InflightError};
use tests_support::plain_log::PlainLog;

/// The leaders of the table's log ids.
pub type Leader = LeaderId<u64>;

/// A log id as whole numbers, for comparisons of the table's own.
fn numbers(id: Option<LogId<u64>>) -> Option<(u64, u64)> {
    match id {
        Some(id) => Some((id.leader_id.term, id.index)),
        None => None,
    }
}

/// The index of a log id, and none of none, which is less than any.
pub fn index(id: Option<LogId<u64>>) -> Option<u64> {
    match id {
        Some(id) => Some(id.index),
        None => None,
    }
}

/// The index after a log id that is not at the greatest, 0 after none.
fn after(id: Option<LogId<u64>>) -> u64 {
    match id {
        Some(id) => id.index.saturating_add(1),
        None => 0,
    }
}

/// Whether a log id is at the greatest index, after which there is none.
fn is_greatest(id: Option<LogId<u64>>) -> bool {
    index(id) == Some(u64::MAX)
}

/// What is left in flight by a response to a request, by the table: an ack of all up to a log id,
/// or a conflict at an index.
fn table_response(
    inflight: Inflight<u64>,
    received: u64,
    response: Result<Option<LogId<u64>>, u64>,
) -> Result<Inflight<u64>, InflightError> {
    let mine = match inflight {
        Inflight::None => None,
        Inflight::Logs { id, .. } | Inflight::Snapshot { id, .. } => Some(id),
    };
    if mine != Some(received) {
        return Err(InflightError::InvalidRequestId { mine, received });
    }
    match (inflight, response) {
        (Inflight::Logs { id, log_id_range }, Ok(upto)) => {
            let LogIdRange { prev, last } = log_id_range;
            let in_order = numbers(prev) <= numbers(upto) && numbers(upto) <= numbers(last);
            if !in_order || index(upto) < index(prev) || index(last) < index(upto) {
                Err(InflightError::AckOutOfRange)
            } else if numbers(upto) == numbers(last) {
                Ok(Inflight::None)
            } else {
                Ok(logs(id, upto, last))
            }
        }
        (Inflight::Logs { log_id_range, .. }, Err(at)) if index(log_id_range.prev) != Some(at) => {
            Err(InflightError::ConflictNotAtPrev)
        }
        (Inflight::Snapshot { .. }, Err(_)) => Err(InflightError::ConflictOnSnapshot),
        (Inflight::Snapshot { last_log_id, .. }, Ok(upto))
            if numbers(upto) < numbers(last_log_id) => Err(InflightError::SnapshotAckRegress),
        _ => Ok(Inflight::None),
    }
}

/// The id of the log before an index, as the table looks it up.
fn before(log: &PlainLog<Leader>, index: u64) -> Option<LogId<u64>> {
    for id in &log.ids {
        if Some(id.index) == index.checked_sub(1) {
            return Some(*id);
        }
    }
    None
}

/// What a send answers and leaves of an entry, by the table.
fn table_send(
    entry: ProgressEntry<u64>,
    log: &PlainLog<Leader>,
    max_entries: u64,
) -> (Answer<Leader>, ProgressEntry<u64>) {
    if entry.inflight != Inflight::None {
        return (Answer::Sent(Err(entry.inflight)), entry);
    }
    let far = is_greatest(entry.matching) || is_greatest(log.purge_upto) || is_greatest(log.last);
    let (m, e) = (after(entry.matching), entry.searching_end);
    let (p, l) = (after(log.purge_upto), after(log.last));
    if far || m > e || e > l || entry.curr_inflight_id == u64::MAX {
        return (Answer::NotAllowed, entry);
    }
    let start = m.saturating_add(e.saturating_sub(m) / 16 * 8).max(p);
    let end = start.saturating_add(max_entries).min(l);
    if start == end && m >= e && e >= p {
        return (Answer::Sent(Err(Inflight::None)), entry);
    }
    let id = entry.curr_inflight_id.saturating_add(1);
    let sending = if e < p || start == end {
        snapshot(id, log.snapshot)
    } else if numbers(before(log, start)) < numbers(before(log, end)) {
        logs(id, before(log, start), before(log, end))
    } else {
        Inflight::None
    };
    let sent = ProgressEntry::<u64> {
        curr_inflight_id: id,
        inflight: sending,
        ..entry
    };
    (Answer::Sent(Ok(sending)), sent)
}

/// What a call answers and leaves of an entry, by the table.
pub fn table(
    entry: ProgressEntry<u64>,
    log: &PlainLog<Leader>,
    call: Call<Leader>,
) -> (Answer<Leader>, ProgressEntry<u64>) {
    let taken = match call {
        Call::Send(max_entries) => return table_send(entry, log, max_entries),
        Call::Ack(id, matching) => match table_response(entry.inflight, id, Ok(matching)) {
            Err(refusal) => Err(refusal),
            Ok(_) if numbers(matching) < numbers(entry.matching) => {
                Err(InflightError::MatchingRegress)
            }
            Ok(_) if is_greatest(matching) => Err(InflightError::IndexTooLarge),
            Ok(inflight) => Ok(ProgressEntry::<u64> {
                matching,
                curr_inflight_id: entry.curr_inflight_id,
                inflight,
                searching_end: entry.searching_end.max(after(matching)),
            }),
        },
        Call::Conflict(id, conflict) => {
            let left = match id {
                Some(id) => table_response(entry.inflight, id, Err(conflict)),
                None => Ok(entry.inflight),
            };
            let is_below = Some(conflict) <= index(entry.matching);
            match left {
                Err(refusal) => Err(refusal),
                Ok(_) if conflict < entry.searching_end && is_below => {
                    Err(InflightError::ConflictBelowMatching)
                }
                Ok(inflight) => Ok(ProgressEntry::<u64> {
                    inflight,
                    searching_end: entry.searching_end.min(conflict),
                    ..entry
                }),
            }
        }
    };
    match taken {
        Ok(after) => (Answer::Taken(Ok(())), after),
        Err(refusal) => (Answer::Taken(Err(refusal)), entry),
    }
}
