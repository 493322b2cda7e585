//! What is in flight, entries, the refusals of responses, and a log that is to be purged.

use raft_base::{LogIdOf, LogIdRangeOf};
use raft_progress::entry::ProgressEntryOf;
use raft_progress::inflight::{InflightError, InflightOf};
use std::alloc::{AllocError, Global};
use tests_support::plain_log::{Numbered, PlainLog, id, log_below};

/// Logs in flight.
pub fn logs<C: Numbered>(
    id: u64,
    prev: Option<LogIdOf<C>>,
    last: Option<LogIdOf<C>>,
) -> InflightOf<C> {
    InflightOf::Logs {
        id,
        log_id_range: LogIdRangeOf { prev, last },
    }
}

/// A snapshot in flight.
pub fn snapshot<C: Numbered>(id: u64, last_log_id: Option<LogIdOf<C>>) -> InflightOf<C> {
    InflightOf::Snapshot { id, last_log_id }
}

/// The refusal of a response to another request.
pub fn wrong_id(mine: Option<u64>, received: u64) -> Result<(), InflightError> {
    Err(InflightError::InvalidRequestId { mine, received })
}

/// An entry by its match, the end of the search, the last request and what is in flight.
pub fn at<C: Numbered>(
    matching: Option<LogIdOf<C>>,
    searching_end: u64,
    curr_inflight_id: u64,
    inflight: InflightOf<C>,
) -> ProgressEntryOf<C> {
    ProgressEntryOf {
        matching,
        curr_inflight_id,
        inflight,
        searching_end,
    }
}

/// A log of leader 1 below an end, to be purged up to an index, with a snapshot up to a log id.
pub fn purged_log<C: Numbered>(
    alloc: Global,
    end: u64,
    purge_upto: u64,
    snapshot: Option<LogIdOf<C>>,
) -> Result<PlainLog<C>, AllocError> {
    let mut log = log_below(alloc, end, None)?;
    log.purge_upto = id(1, purge_upto);
    log.snapshot = snapshot;
    Ok(log)
}
