//! Why calls are refused: an enum for each call, or for the calls that have the same cases.
ghost use Rattle.std.specs.Prelude.{◌≡◌};

use raft_progress::InflightError;
use std::alloc::AllocError;
use thiserror::Error;

/// Why a request to append entries is refused.
#[derive(Debug, Clone, Copy, PartialEq, Eq, Error)]
pub enum AppendError {
    /// An allocation failed. Write the vote and the log to disk as the state has them before you
    /// make the call again, because it says only what it changes itself.
    #[error("out of memory")]
    OutOfMemory,
    /// The entries do not have consecutive indexes after `prev`, or their leaders fall.
    #[error("the entries are not in order")]
    NotInOrder,
    /// The log would lose an entry that is committed.
    #[error("a committed entry would be truncated")]
    TruncatesCommitted,
    /// The memberships are not in the order of the log: one among the entries does not come after
    /// the effective one, or the effective one comes after what is to be committed.
    #[error("a membership is not in order")]
    MembershipNotInOrder,
    /// What is to be committed is not in the log.
    #[error("the committed log id is not in the log")]
    CommittedNotLogged,
}

impl From<AllocError> for AppendError {
    ghost use Rattle.steps_handlers.specs.declared.error.AppendError.TheVariants.{OutOfMemory};

    ghost from_gives = { λ refused e. e ≡ OutOfMemory };

    fn from(_refused: AllocError) -> Self {
        AppendError::OutOfMemory
    }
}

/// Why a request to install a snapshot is refused.
#[derive(Debug, Clone, Copy, PartialEq, Eq, Error)]
pub enum SnapshotError {
    /// An allocation failed. Write the vote to disk as the state has it before you make the call
    /// again, because it says only what it changes itself.
    #[error("out of memory")]
    OutOfMemory,
    /// The snapshot may not take the place of the log.
    #[error("the snapshot does not fit")]
    DoesNotFit,
}

impl From<AllocError> for SnapshotError {
    ghost use Rattle.steps_handlers.specs.declared.error.SnapshotError.TheVariants.{OutOfMemory};

    ghost from_gives = { λ refused e. e ≡ OutOfMemory };

    fn from(_refused: AllocError) -> Self {
        SnapshotError::OutOfMemory
    }
}

/// Why a cluster is not started.
#[derive(Debug, Clone, Copy, PartialEq, Eq, Error)]
pub enum StartError {
    /// An allocation failed. The call may be made again.
    #[error("out of memory")]
    OutOfMemory,
    /// The server has a log or has voted, so it belongs to a cluster.
    #[error("the server belongs to a cluster already")]
    NotAllowed,
    /// The server is not a member of the new cluster.
    #[error("the server is not a member of the new cluster")]
    NotInMembers,
    /// The membership has no config, one of its configs is empty, or a voter has no node.
    #[error("the membership could not decide")]
    InvalidMembership,
    /// A membership is effective already.
    #[error("a membership is not in order")]
    MembershipNotInOrder,
}

impl From<AllocError> for StartError {
    ghost use Rattle.steps_handlers.specs.declared.error.StartError.TheVariants.{OutOfMemory};

    ghost from_gives = { λ refused e. e ≡ OutOfMemory };

    fn from(_refused: AllocError) -> Self {
        StartError::OutOfMemory
    }
}

/// Why a server does not restart with what its disk has.
#[derive(Debug, Clone, Copy, PartialEq, Eq, Error)]
pub enum RestartError {
    /// An allocation failed. The call may be made again.
    #[error("out of memory")]
    OutOfMemory,
    /// No index is after the snapshot, or its membership is past it.
    #[error("the snapshot does not fit")]
    SnapshotDoesNotFit,
    /// The entries past the snapshot do not have consecutive indexes after it, or their leaders
    /// fall.
    #[error("the entries are not in order")]
    NotInOrder,
    /// The memberships are not in the order of the log: one among the entries does not come after
    /// the one before it, or the last one comes after what is stored as committed.
    #[error("a membership is not in order")]
    MembershipNotInOrder,
    /// What is stored as committed is not in the log.
    #[error("the committed log id is not in the log")]
    CommittedNotLogged,
}

impl From<AllocError> for RestartError {
    ghost use Rattle.steps_handlers.specs.declared.error.RestartError.TheVariants.{OutOfMemory};

    ghost from_gives = { λ refused e. e ≡ OutOfMemory };

    fn from(_refused: AllocError) -> Self {
        RestartError::OutOfMemory
    }
}

impl From<SnapshotError> for RestartError {
    ghost use Rattle.steps_handlers.specs.Restart.{refused_snapshot};

    ghost from_gives = { λ refused e. e ≡ refused_snapshot refused };

    fn from(refused: SnapshotError) -> Self {
        match refused {
            SnapshotError::OutOfMemory => RestartError::OutOfMemory,
            SnapshotError::DoesNotFit => RestartError::SnapshotDoesNotFit,
        }
    }
}

impl From<AppendError> for RestartError {
    ghost use Rattle.steps_handlers.specs.Restart.{refused_entries};

    ghost from_gives = { λ refused e. e ≡ refused_entries refused };

    fn from(refused: AppendError) -> Self {
        match refused {
            AppendError::OutOfMemory => RestartError::OutOfMemory,
            // Entries past the snapshot truncate nothing that is committed.
            AppendError::NotInOrder | AppendError::TruncatesCommitted => RestartError::NotInOrder,
            AppendError::MembershipNotInOrder => RestartError::MembershipNotInOrder,
            AppendError::CommittedNotLogged => RestartError::CommittedNotLogged,
        }
    }
}

/// Why a node does not campaign.
#[derive(Debug, Clone, Copy, PartialEq, Eq, Error)]
pub enum CampaignError {
    /// An allocation failed. The call may be made again.
    #[error("out of memory")]
    OutOfMemory,
    /// The node is a voter neither of the effective nor of the committed membership.
    #[error("the node is no voter")]
    NotVoter,
    /// There is no greater term.
    #[error("there is no greater term")]
    NoNextTerm,
}

impl From<AllocError> for CampaignError {
    ghost use Rattle.steps_handlers.specs.declared.error.CampaignError.TheVariants.{OutOfMemory};

    ghost from_gives = { λ refused e. e ≡ OutOfMemory };

    fn from(_refused: AllocError) -> Self {
        CampaignError::OutOfMemory
    }
}

/// Why a candidate does not become the leader.
#[derive(Debug, Clone, Copy, PartialEq, Eq, Error)]
pub enum LeadError {
    /// An allocation failed. The call may be made again.
    #[error("out of memory")]
    OutOfMemory,
    /// No quorum has elected the candidate.
    #[error("the candidate is not elected")]
    NotElected,
    /// The vote of the state is not, or not any more, the one of this candidate.
    #[error("the vote is another one")]
    NotLeader,
    /// There is no index after the last one.
    #[error("there is no greater index")]
    NoNextIndex,
}

impl From<AllocError> for LeadError {
    ghost use Rattle.steps_handlers.specs.declared.error.LeadError.TheVariants.{OutOfMemory};

    ghost from_gives = { λ refused e. e ≡ OutOfMemory };

    fn from(_refused: AllocError) -> Self {
        LeadError::OutOfMemory
    }
}

/// Why a node does not lead on after a restart.
#[derive(Debug, Clone, Copy, PartialEq, Eq, Error)]
pub enum ResumeError {
    /// An allocation failed. The call may be made again.
    #[error("out of memory")]
    OutOfMemory,
    /// The vote of the state is not committed, or not for this node.
    #[error("the vote is another one")]
    NotLeader,
    /// There is no index after the last one.
    #[error("there is no greater index")]
    NoNextIndex,
}

impl From<AllocError> for ResumeError {
    ghost use Rattle.steps_handlers.specs.declared.error.ResumeError.TheVariants.{OutOfMemory};

    ghost from_gives = { λ refused e. e ≡ OutOfMemory };

    fn from(_refused: AllocError) -> Self {
        ResumeError::OutOfMemory
    }
}

/// Why an entry of a leader's own is refused.
#[derive(Debug, Clone, Copy, PartialEq, Eq, Error)]
pub enum ProposeError {
    /// An allocation failed. The call may be made again.
    #[error("out of memory")]
    OutOfMemory,
    /// The vote of the state is not, or not any more, the one of this leader, or the state has
    /// accepted entries of a leader that the vote's leader is not at least.
    #[error("the vote is another one")]
    NotLeader,
    /// There is no index after the last one.
    #[error("there is no greater index")]
    NoNextIndex,
    /// The entry may not come next in the log.
    #[error("the entries are not in order")]
    NotInOrder,
}

impl From<AllocError> for ProposeError {
    ghost use Rattle.steps_handlers.specs.declared.error.ProposeError.TheVariants.{OutOfMemory};

    ghost from_gives = { λ refused e. e ≡ OutOfMemory };

    fn from(_refused: AllocError) -> Self {
        ProposeError::OutOfMemory
    }
}

/// Why a leader does not count what is on its disk.
#[derive(Debug, Clone, Copy, PartialEq, Eq, Error)]
pub enum FlushError {
    /// The vote of the state is not, or not any more, the one of this leader.
    #[error("the vote is another one")]
    NotLeader,
    /// There is no index after the log id.
    #[error("there is no greater index")]
    NoNextIndex,
    /// The log id is not in the log.
    #[error("the log id is not in the log")]
    NotLogged,
}

/// Why a member's response is refused.
#[derive(Debug, Clone, Copy, PartialEq, Eq, Error)]
pub enum ResponseError {
    /// The sender is not a member.
    #[error("the sender is not a member")]
    UnknownMember,
    /// The response answers a request of another leader, perhaps of this node in an earlier term.
    #[error("the response is to a request of another leader")]
    Foreign,
    /// The member has promised a higher vote: promise it too, and step down.
    #[error("the member has promised a higher vote")]
    HigherVote,
    /// The response is to a heartbeat, and a request was sent to the member after that.
    #[error("the response is to a heartbeat before the last request")]
    LateHeartbeat,
    /// The response does not fit what is in flight to the member.
    #[error(transparent)]
    Inflight(InflightError),
}

/// Why a leader does not commit what a quorum has.
#[derive(Debug, Clone, Copy, PartialEq, Eq, Error)]
pub enum CommitError {
    /// An allocation failed. The call may be made again.
    #[error("out of memory")]
    OutOfMemory,
    /// The leader counts by another membership than the effective one, because another `Leader` of
    /// this term has changed it: drop the leader.
    #[error("the leader counts by another membership")]
    NotEffective,
    /// What a quorum has is not in the log.
    #[error("the log id is not in the log")]
    NotLogged,
    /// The effective membership comes after what a quorum has.
    #[error("a membership is not in order")]
    MembershipNotInOrder,
}

impl From<AllocError> for CommitError {
    ghost use Rattle.steps_handlers.specs.declared.error.CommitError.TheVariants.{OutOfMemory};

    ghost from_gives = { λ refused e. e ≡ OutOfMemory };

    fn from(_refused: AllocError) -> Self {
        CommitError::OutOfMemory
    }
}

/// Why a step of a server fails that makes several calls: one of the calls is refused, or an
/// allocation of the step's own fails. Each call has an error of its own, and `?` turns it into
/// this one, except `ChangeError`, whose type has the ids of nodes and leaders.
#[derive(Debug, Clone, Copy, PartialEq, Eq, Error)]
pub enum HandlerError {
    /// A request to append entries is refused.
    #[error(transparent)]
    Append(#[from] AppendError),
    /// A request to install a snapshot is refused.
    #[error(transparent)]
    Snapshot(#[from] SnapshotError),
    /// A cluster is not started.
    #[error(transparent)]
    Start(#[from] StartError),
    /// A server does not restart.
    #[error(transparent)]
    Restart(#[from] RestartError),
    /// A node does not campaign.
    #[error(transparent)]
    Campaign(#[from] CampaignError),
    /// A candidate does not become the leader.
    #[error(transparent)]
    Lead(#[from] LeadError),
    /// A node does not lead on.
    #[error(transparent)]
    Resume(#[from] ResumeError),
    /// An entry of a leader's own is refused.
    #[error(transparent)]
    Propose(#[from] ProposeError),
    /// A leader does not count what is on its disk.
    #[error(transparent)]
    Flush(#[from] FlushError),
    /// A member's response is refused.
    #[error(transparent)]
    Response(#[from] ResponseError),
    /// A leader does not commit.
    #[error(transparent)]
    Commit(#[from] CommitError),
    /// An allocation of the step's own failed.
    #[error("out of memory")]
    OutOfMemory,
}

impl From<AllocError> for HandlerError {
    ghost use Rattle.steps_handlers.specs.declared.error.HandlerError.TheVariants.{OutOfMemory};

    ghost from_gives = { λ refused e. e ≡ OutOfMemory };

    fn from(_refused: AllocError) -> Self {
        HandlerError::OutOfMemory
    }
}
