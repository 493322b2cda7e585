//! Values that may break the relations between their fields.
ghost use Rattle.std.specs.Prelude.{◌≡◌, Option};
ghost use Rattle.std.specs.Result.{result_err};
ghost use Rattle.raft_base.specs.declared.log_id.validate.Invalid.{Invalid};

use thiserror::Error;

/// A relation that a value breaks. Each type tests its relations in its own order.
#[derive(Debug, Clone, Copy, PartialEq, Eq, Error)]
pub enum Invalid {
    /// A range ends before it begins.
    #[error("invalid: RangeOrder")]
    RangeOrder,
    /// The matching log id of a follower is not below the searching end.
    #[error("invalid: MatchingPastEnd")]
    MatchingPastEnd,
    /// Logs are in flight that begin before the matching log id.
    #[error("invalid: MatchingPastPrev")]
    MatchingPastPrev,
    /// Logs are in flight after a log that is not below the searching end.
    #[error("invalid: PrevPastEnd")]
    PrevPastEnd,
    /// A snapshot is in flight that does not go past the matching log id.
    #[error("invalid: SnapshotNotPastMatching")]
    SnapshotNotPastMatching,
    /// Nothing was purged and the log does not begin at index 0, or something was purged and the
    /// log does not begin at the last purged index.
    #[error("invalid: PurgedNext")]
    PurgedNext,
    /// The last purged log id is past the purge point.
    #[error("invalid: LastPurgedPastUpto")]
    LastPurgedPastUpto,
    /// There is no snapshot, and the purge point is past the committed log id.
    #[error("invalid: UptoPastCommitted")]
    UptoPastCommitted,
    /// The purge point is past the last log id of the snapshot.
    #[error("invalid: UptoPastSnapshot")]
    UptoPastSnapshot,
    /// The last log id of the snapshot is past the committed log id.
    #[error("invalid: SnapshotPastCommitted")]
    SnapshotPastCommitted,
    /// The committed log id is past the last log id of the log.
    #[error("invalid: CommittedPastLast")]
    CommittedPastLast,
    /// The committed membership has a greater log id than the effective one.
    #[error("invalid: MembershipLogId")]
    MembershipLogId,
    /// The committed membership comes after the effective one in the log.
    #[error("invalid: MembershipIndex")]
    MembershipIndex,
}

/// A value that is valid if some relations between its fields hold.
pub trait Validate {
    /// The first relation that a value breaks, in the order of its type.
    ghost broken: { Self → Option Invalid };

    /// Returns the first relation that the value breaks, in the order of its type, as an error.
    fn validate(&self) -> Result<(), Invalid>
        ensures { result_err result ≡ broken self.now };
}
