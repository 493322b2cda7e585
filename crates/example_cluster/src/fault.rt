//! Faults that can be planted, to see that the checks find them.

/// What all servers of a cluster do wrong. The handlers have no faults: the cluster's own code does
/// these things before a handler, after it, or in its place.
#[derive(Clone, Copy, PartialEq, Eq)]
pub enum Fault {
    /// A leader commits what a quorum has, also if no entry of its own is among it.
    CommitEarlierTerm,
    /// A voter votes for a candidate whose log is behind its own.
    IgnoreLastLog,
    /// A voter votes again in a term in which it has voted for another candidate.
    VoteTwice,
    /// A candidate counts a vote that was refused.
    CountRefusal,
    /// A server forgets its vote when it restarts.
    ForgetVote,
    /// A server does not write a vote that it hears to disk.
    UnwrittenVote,
    /// A follower acknowledges entries that conflict with its log, and keeps its own.
    KeepConflicts,
    /// A follower acknowledges some entries that it has not written.
    AcknowledgeUnwritten,
    /// A follower acknowledges a snapshot that it has not installed.
    AcknowledgeUninstalled,
    /// A follower takes entries from a leader of a term that it has passed.
    FollowPassedLeader,
    /// A leader proposes a change before an entry of its own is committed.
    ChangeEarly,
    /// A leader changes the voters without a joint configuration.
    SkipJointConfig,
    /// A leader goes on counting by the members before a change.
    CountOldMembers,
}

/// Each fault, with its name on the command line and what `--help` says of it.
pub const FAULTS: [(Fault, &str, &str); 13] = [
    (
        Fault::CommitEarlierTerm,
        "CommitEarlierTerm",
        "a leader commits entries of earlier leaders alone",
    ),
    (
        Fault::IgnoreLastLog,
        "IgnoreLastLog",
        "a voter votes for a candidate whose log is behind",
    ),
    (
        Fault::VoteTwice,
        "VoteTwice",
        "a voter votes for two candidates in one term",
    ),
    (
        Fault::CountRefusal,
        "CountRefusal",
        "a candidate counts a vote that was refused",
    ),
    (
        Fault::ForgetVote,
        "ForgetVote",
        "a server forgets its vote when it restarts",
    ),
    (
        Fault::UnwrittenVote,
        "UnwrittenVote",
        "a server does not write a vote that it hears to disk",
    ),
    (
        Fault::KeepConflicts,
        "KeepConflicts",
        "a follower acknowledges entries but keeps its own",
    ),
    (
        Fault::AcknowledgeUnwritten,
        "AcknowledgeUnwritten",
        "a follower acknowledges entries that it has not written",
    ),
    (
        Fault::AcknowledgeUninstalled,
        "AcknowledgeUninstalled",
        "a follower acknowledges a snapshot that it has not installed",
    ),
    (
        Fault::FollowPassedLeader,
        "FollowPassedLeader",
        "a follower takes entries from a leader of an earlier term",
    ),
    (
        Fault::ChangeEarly,
        "ChangeEarly",
        "a leader changes members before an entry of its own is committed",
    ),
    (
        Fault::SkipJointConfig,
        "SkipJointConfig",
        "a leader changes voters without a joint configuration",
    ),
    (
        Fault::CountOldMembers,
        "CountOldMembers",
        "a leader goes on counting by the members before a change",
    ),
];
