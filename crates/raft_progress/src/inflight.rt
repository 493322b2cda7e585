//! What is in flight to a follower, and what its responses make of it.
ghost use Rattle.std.specs.Prelude.{◌≡◌, ◌↔◌, ℕ, ◌&&◌, Some, Ok, IsSome, IsTrue};
ghost use Rattle.std.specs.Result.{result_err};
ghost use Rattle.raft_base.specs.LogId.{id_le, index_of};
ghost use Rattle.raft_base.specs.LogIndex.{index_le};
ghost use Rattle.raft_base.specs.Validate.{first_false};
ghost use Rattle.raft_progress.specs.inflight.Inflight.{id_of, is_idle, is_sending_log, is_sending_snapshot, logs_from, request_of, with_id, wrong_id};
ghost use Rattle.raft_progress.specs.inflight.InflightTable.{FollowsTable, inflight_after_ack, inflight_after_conflict, is_within};
ghost use Rattle.raft_progress.specs.inflight.InflightValid.{inflight_relations};
ghost use Rattle.raft_progress.specs.declared.inflight.InflightOf.{InflightOf};
ghost use Rattle.raft_progress.specs.declared.inflight.InflightOf.TheVariants.{Snapshot};

use raft_base::{
    CommittedLeaderId, DisplayOption, Invalid, LogIdOf, LogIdOptionExt, LogIdRangeOf, Validate,
};
use std::fmt;
use thiserror::Error;

/// Identifies a request to a follower.
#[derive(Debug, Clone, Copy, PartialEq, Eq)]
pub enum RequestId {
    /// Logs.
    AppendEntries {
        /// The number of the request.
        id: u64,
    },
    /// A snapshot.
    Snapshot {
        /// The number of the request.
        id: u64,
    },
}

/// Why a follower's response is refused. If several reasons hold, the first one in this order is
/// returned.
#[derive(Debug, Clone, Copy, PartialEq, Eq, Error)]
pub enum InflightError {
    /// Nothing is in flight, or another request.
    #[error("got invalid request id, mine={mine:?}, received={received}")]
    InvalidRequestId {
        /// The request in flight.
        mine: Option<u64>,
        /// The request that was responded to.
        received: u64,
    },
    /// An ack of logs is outside the range that is in flight, by order or by index.
    #[error("ack out of range")]
    AckOutOfRange,
    /// An ack of a snapshot is below its last log id.
    #[error("snapshot ack regresses")]
    SnapshotAckRegress,
    /// An ack is below matching.
    #[error("matching regresses")]
    MatchingRegress,
    /// A conflict is not at the log before those in flight.
    #[error("conflict is not at prev")]
    ConflictNotAtPrev,
    /// A conflict responds to a snapshot, which never conflicts.
    #[error("conflict on a snapshot")]
    ConflictOnSnapshot,
    /// A conflict is at an index that matches already.
    #[error("conflict below matching")]
    ConflictBelowMatching,
    /// An ack has the greatest index, which has no next index.
    #[error("index too large")]
    IndexTooLarge,
}

/// What is in flight to a follower: it was sent, and has no response so far.
#[derive(Debug, Clone, Copy, PartialEq, Eq)]
pub enum InflightOf<C> {
    /// Nothing.
    None,
    /// Logs.
    Logs {
        /// The number of the request.
        id: u64,
        /// The logs.
        log_id_range: LogIdRangeOf<C>,
    },
    /// A snapshot.
    Snapshot {
        /// The number of the request.
        id: u64,
        /// The last log id of the snapshot, or `None` if the snapshot is empty.
        last_log_id: Option<LogIdOf<C>>,
    },
}

/// What is in flight, with the default leader ids.
pub type Inflight<NID> = InflightOf<CommittedLeaderId<NID>>;

impl<C: Ord + Copy> InflightOf<C> {
    /// Returns the logs after `prev` up to `last` with request id 0, or `None` if there are none.
    pub fn logs(prev: Option<LogIdOf<C>>, last: Option<LogIdOf<C>>) -> Self
        ensures { result ≡ logs_from C.cmp 0 prev last }
    {
        if prev < last {
            InflightOf::Logs {
                id: 0,
                log_id_range: LogIdRangeOf::new(prev, last),
            }
        } else {
            InflightOf::None
        }
    }

    /// Returns a snapshot up to a log id with request id 0.
    pub fn snapshot(snapshot_last_log_id: Option<LogIdOf<C>>) -> Self
        ensures { result ≡ Snapshot 0 snapshot_last_log_id }
    {
        InflightOf::Snapshot {
            id: 0,
            last_log_id: snapshot_last_log_id,
        }
    }

    /// Returns this with another request id. `None` stays `None`.
    pub fn with_id(self, id: u64) -> Self
        ensures { result ≡ with_id self id }
    {
        match self {
            InflightOf::None => InflightOf::None,
            InflightOf::Logs { log_id_range, .. } => InflightOf::Logs { id, log_id_range },
            InflightOf::Snapshot { last_log_id, .. } => InflightOf::Snapshot { id, last_log_id },
        }
    }

    /// Whether a request is the one in flight.
    pub fn is_my_id(&self, request_id: RequestId) -> bool
        ensures { IsTrue result ↔ (request_of self.now ≡ Some request_id) }
    {
        match *self {
            InflightOf::None => false,
            InflightOf::Logs { id, .. } => RequestId::AppendEntries { id } == request_id,
            InflightOf::Snapshot { id, .. } => RequestId::Snapshot { id } == request_id,
        }
    }

    /// Returns an error unless the request is the one in flight.
    pub fn assert_my_id(&self, request_id: u64) -> Result<(), InflightError>
        ensures { result_err result ≡ wrong_id self.now request_id }
    {
        let mine = self.get_id();
        if mine == Some(request_id) {
            Ok(())
        } else {
            Err(InflightError::InvalidRequestId {
                mine,
                received: request_id,
            })
        }
    }

    /// Returns the number of the request in flight, if there is one.
    pub fn get_id(&self) -> Option<u64>
        ensures { result ≡ id_of self.now }
    {
        match *self {
            InflightOf::None => None,
            InflightOf::Logs { id, .. } => Some(id),
            InflightOf::Snapshot { id, .. } => Some(id),
        }
    }

    /// Returns the number of the request in flight. It requires that something is in flight.
    pub fn id(&self) -> u64
        requires { IsSome (id_of self.now) }
        ensures { Some result ≡ id_of self.now }
    {
        self.get_id().unwrap()
    }

    /// Whether nothing is in flight.
    pub fn is_none(&self) -> bool
        ensures { result ≡ is_idle self.now }
    {
        matches!(self, InflightOf::None)
    }

    /// Whether logs are in flight.
    pub fn is_sending_log(&self) -> bool
        ensures { result ≡ is_sending_log self.now }
    {
        matches!(self, InflightOf::Logs { .. })
    }

    /// Whether a snapshot is in flight.
    pub fn is_sending_snapshot(&self) -> bool
        ensures { result ≡ is_sending_snapshot self.now }
    {
        matches!(self, InflightOf::Snapshot { .. })
    }

    /// Takes the response that the follower has all logs up to a log id. The logs after it stay in
    /// flight. A refused response changes nothing.
    pub fn ack(&mut self, request_id: u64, upto: Option<LogIdOf<C>>) -> Result<(), InflightError>
        ensures { FollowsTable (inflight_after_ack C.cmp self.old request_id upto) self.old result
            self.new }
    {
        self.check_ack(request_id, upto)?;
        self.take_ack(upto);
        Ok(())
    }

    /// Returns the error that `ack` would return, and changes nothing.
    #[inline(always)]
    pub(crate) fn check_ack(
        &self,
        request_id: u64,
        upto: Option<LogIdOf<C>>,
    ) -> Result<(), InflightError>
        ensures { result_err result ≡ result_err (inflight_after_ack C.cmp self.now request_id
            upto) }
    {
        self.assert_my_id(request_id)?;
        match self {
            InflightOf::None => Ok(()),
            InflightOf::Logs { log_id_range, .. } => {
                if is_within(log_id_range, upto) {
                    Ok(())
                } else {
                    Err(InflightError::AckOutOfRange)
                }
            }
            InflightOf::Snapshot { last_log_id, .. } => {
                if upto < *last_log_id {
                    Err(InflightError::SnapshotAckRegress)
                } else {
                    Ok(())
                }
            }
        }
    }

    /// Takes an ack for which `check_ack` returns no error.
    // Such an ack is not past the last log, so it is before the last log if the two differ.
    #[inline(always)]
    pub(crate) fn take_ack(&mut self, upto: Option<LogIdOf<C>>)
        ensures { (id : ℕ) (after : InflightOf C) →
            inflight_after_ack C.cmp self.old id upto ≡ Ok after → self.new ≡ after }
    {
        if let InflightOf::Logs { log_id_range, .. } = self {
            if upto != log_id_range.last {
                log_id_range.prev = upto;
                return;
            }
        }
        *self = InflightOf::None;
    }

    /// Takes the response that the follower does not have the log at index `conflict`, which has to
    /// be the one before those in flight. Then nothing is in flight. A refused response changes
    /// nothing.
    pub fn conflict(&mut self, request_id: u64, conflict: u64) -> Result<(), InflightError>
        ensures { FollowsTable (inflight_after_conflict self.old request_id conflict) self.old
            result self.new }
    {
        match *self {
            InflightOf::None => Err(InflightError::InvalidRequestId {
                mine: None,
                received: request_id,
            }),
            InflightOf::Logs { log_id_range, .. } => {
                self.assert_my_id(request_id)?;
                if log_id_range.prev.index() != Some(conflict) {
                    return Err(InflightError::ConflictNotAtPrev);
                }
                *self = InflightOf::None;
                Ok(())
            }
            InflightOf::Snapshot { .. } => {
                self.assert_my_id(request_id)?;
                Err(InflightError::ConflictOnSnapshot)
            }
        }
    }
}

/// Whether a log id is in a range or is the one before it, by order and by index.
#[inline(always)]
fn is_within<C: Ord + Copy>(range: &LogIdRangeOf<C>, upto: Option<LogIdOf<C>>) -> bool
    ensures { result ≡ is_within C.cmp range.now upto }
{
    is_up_to(range.prev, upto) && is_up_to(upto, range.last)
}

/// Whether a log id is at most another one by order, and its index is at most the other's index.
#[inline(always)]
fn is_up_to<C: Ord + Copy>(id: Option<LogIdOf<C>>, other: Option<LogIdOf<C>>) -> bool
    ensures { result ≡ (id_le C.cmp id other && index_le (index_of id) (index_of other)) }
{
    match (id, other) {
        (None, _) => true,
        (Some(_), None) => false,
        (Some(id), Some(other)) => id.leader_id <= other.leader_id && id.index <= other.index,
    }
}

impl<C: Ord + Copy> Validate for InflightOf<C> {
    ghost broken = { λ inflight. first_false (inflight_relations C.cmp inflight) };

    fn validate(&self) -> Result<(), Invalid> {
        match self {
            InflightOf::None => Ok(()),
            InflightOf::Logs { log_id_range, .. } => log_id_range.validate(),
            InflightOf::Snapshot { .. } => Ok(()),
        }
    }
}

impl<C: fmt::Display + Copy> fmt::Display for InflightOf<C> {
    fn fmt<W: fmt::Write>(&self, f: &mut fmt::Formatter<W>) -> fmt::Result {
        match self {
            InflightOf::None => f.write_str("None"),
            InflightOf::Logs { id, log_id_range } => write!(f, "Logs(id={id}):{log_id_range}"),
            InflightOf::Snapshot { id, last_log_id } => {
                write!(f, "Snapshot(id={id}):{}", DisplayOption(last_log_id))
            }
        }
    }
}
