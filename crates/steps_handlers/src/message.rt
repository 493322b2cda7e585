//! What servers send to one another: requests, and the responses to them.
//!
//! `L` is a leader id as a vote has it, and `C` the committed leader id, as a log id has it.

ghost use Rattle.std.specs.Prelude.{◌≡◌};
ghost use Rattle.steps_handlers.specs.Append.{last_id_of_request};

use raft_base::{DisplayOption, LogIdOf, Node, NodeId, RaftLogId, VoteIn};
use raft_state::{EntryOf, SnapshotMetaOf};
use std::fmt;

/// A candidate's request for a vote.
#[derive(Debug, Clone, Copy, PartialEq, Eq)]
pub struct VoteRequest<L, C> {
    /// The vote that the candidate asks for, which is not committed.
    pub vote: VoteIn<L>,
    /// The last log id of the candidate.
    pub last_log_id: Option<LogIdOf<C>>,
}

/// A voter's response to a request for a vote.
#[derive(Debug, Clone, Copy, PartialEq, Eq)]
pub struct VoteResponse<L> {
    /// The vote of the responder once it has handled the request.
    pub vote: VoteIn<L>,
    /// Whether the responder has granted the vote that was asked for.
    pub granted: bool,
}

/// The number of a leader's request, which the response says again.
///
/// A leader numbers what it sends to a member. After a change of members it goes on with a number
/// that it has not used, so a response to an earlier member with the same id is refused.
#[derive(Debug, Clone, Copy, PartialEq, Eq)]
pub enum RequestNumber {
    /// The number of a request that is in flight until it is answered.
    InFlight(u64),
    /// The number of the last request to the member before a heartbeat. A heartbeat is not in
    /// flight.
    Heartbeat(u64),
}

/// What a leader's heartbeat says to a member: a request without entries, which is not in flight.
#[derive(Debug, Clone, Copy, PartialEq, Eq)]
pub struct Heartbeat<C> {
    /// The number of the heartbeat.
    pub request: RequestNumber,
    /// The last log id that the member may have of the leader's log, so a response that it matches
    /// ends the search.
    pub prev: Option<LogIdOf<C>>,
}

/// A leader's request to append entries. Without entries it is a heartbeat or a probe, which asks
/// whether the follower's log has `prev`.
#[derive(Drop)]
pub struct AppendEntries<L, C, NID: NodeId, N: Node, D> {
    /// The leader, which a quorum has elected.
    pub leader_id: L,
    /// The number of the request.
    pub request: RequestNumber,
    /// The log id before the entries in the leader's log, or none if they begin the log.
    pub prev: Option<LogIdOf<C>>,
    /// The entries, with consecutive indexes after that of `prev`.
    pub entries: Vec<EntryOf<C, NID, N, D>>,
    /// The last log id that the leader has committed.
    pub committed: Option<LogIdOf<C>>,
}

/// A leader's request to install a snapshot in place of the log up to the snapshot's last log id.
#[derive(Debug, Drop)]
pub struct InstallSnapshot<L, C, NID: NodeId, N: Node> {
    /// The leader, which a quorum has elected.
    pub leader_id: L,
    /// The number of the request.
    pub request: u64,
    /// What is known of the snapshot.
    pub meta: SnapshotMetaOf<C, NID, N>,
}

/// What a follower has made of a leader's request.
#[derive(Debug, Clone, Copy, PartialEq, Eq)]
pub enum Outcome<L, C> {
    /// The follower's log matches the leader's up to this log id.
    Matches(Option<LogIdOf<C>>),
    /// The follower's log does not have the leader's log id at an index, and is truncated there.
    Conflict {
        /// The index of the log id that the request has as `prev`.
        index: u64,
        /// The index of the last log id that the follower has left, or `None` if it has none.
        last: Option<u64>,
    },
    /// The follower has promised this vote, and the leader's vote is not at least this one.
    HigherVote(VoteIn<L>),
}

/// A follower's response to a leader's request.
#[derive(Debug, Clone, Copy, PartialEq, Eq)]
pub struct Response<L, C> {
    /// The committed leader id of the leader whose request it answers.
    pub leader_id: C,
    /// The number of the request that it answers.
    pub request: RequestNumber,
    /// What the follower has made of the request.
    pub outcome: Outcome<L, C>,
}

impl<L, C: Copy, NID: NodeId, N: Node, D> AppendEntries<L, C, NID, N, D> {
    /// Returns the last log id that the request speaks of: that of the last entry, or `prev` if
    /// there are no entries.
    pub fn last_log_id(&self) -> Option<LogIdOf<C>>
        ensures { result ≡ last_id_of_request self.now.prev self.now.entries.items }
    {
        match self.entries.last() {
            Some(entry) => Some(*entry.get_log_id()),
            None => self.prev,
        }
    }
}

// Handwritten, because data need not have a debug text.
impl<L: fmt::Debug, C: fmt::Debug, NID: NodeId, N: Node, D> fmt::Debug
    for AppendEntries<L, C, NID, N, D> {
    fn fmt<W: fmt::Write>(&self, f: &mut fmt::Formatter<W>) -> fmt::Result {
        f.debug_struct("AppendEntries")
            .field("leader_id", &self.leader_id)
            .field("request", &self.request)
            .field("prev", &self.prev)
            .field("entries", &self.entries)
            .field("committed", &self.committed)
            .finish()
    }
}

/// The text of a heartbeat's number has the word `heartbeat` before it.
impl fmt::Display for RequestNumber {
    fn fmt<W: fmt::Write>(&self, f: &mut fmt::Formatter<W>) -> fmt::Result {
        match self {
            RequestNumber::InFlight(number) => write!(f, "{number}"),
            RequestNumber::Heartbeat(number) => write!(f, "heartbeat {number}"),
        }
    }
}

impl<L: fmt::Display, C: fmt::Display> fmt::Display for VoteRequest<L, C> {
    fn fmt<W: fmt::Write>(&self, f: &mut fmt::Formatter<W>) -> fmt::Result {
        let VoteRequest { vote, last_log_id } = self;
        let last = DisplayOption(last_log_id);
        write!(f, "vote request {vote}, last log id {last}")
    }
}

impl<L: fmt::Display> fmt::Display for VoteResponse<L> {
    fn fmt<W: fmt::Write>(&self, f: &mut fmt::Formatter<W>) -> fmt::Result {
        let vote = &self.vote;
        let answer = if self.granted { "granted" } else { "refused" };
        write!(f, "vote response {vote}, {answer}")
    }
}

/// The text has the number of the entries, and not the entries.
impl<L: fmt::Display, C: fmt::Display, NID: NodeId, N: Node, D> fmt::Display
    for AppendEntries<L, C, NID, N, D> {
    fn fmt<W: fmt::Write>(&self, f: &mut fmt::Formatter<W>) -> fmt::Result {
        let leader_id = &self.leader_id;
        let request = &self.request;
        let prev = DisplayOption(&self.prev);
        let entries = self.entries.len();
        let committed = DisplayOption(&self.committed);
        write!(
            f,
            "append request {request}, leader {leader_id}, prev {prev}, entries {entries}, \
            committed {committed}"
        )
    }
}

/// The text has the last log id of the snapshot, and nothing else of its metadata.
impl<L: fmt::Display, C: fmt::Display, NID: NodeId, N: Node> fmt::Display
    for InstallSnapshot<L, C, NID, N> {
    fn fmt<W: fmt::Write>(&self, f: &mut fmt::Formatter<W>) -> fmt::Result {
        let InstallSnapshot {
            leader_id,
            request,
            meta,
        } = self;
        let last = DisplayOption(&meta.last_log_id);
        write!(
            f,
            "snapshot request {request}, leader {leader_id}, last log id {last}"
        )
    }
}

impl<L: fmt::Display, C: fmt::Display> fmt::Display for Outcome<L, C> {
    fn fmt<W: fmt::Write>(&self, f: &mut fmt::Formatter<W>) -> fmt::Result {
        match self {
            Outcome::Matches(upto) => write!(f, "matches {}", DisplayOption(upto)),
            Outcome::Conflict { index, last } => {
                write!(f, "conflict at {index}, last index {}", DisplayOption(last))
            }
            Outcome::HigherVote(vote) => write!(f, "higher vote {vote}"),
        }
    }
}

impl<L: fmt::Display, C: fmt::Display> fmt::Display for Response<L, C> {
    fn fmt<W: fmt::Write>(&self, f: &mut fmt::Formatter<W>) -> fmt::Result {
        let Response {
            leader_id,
            request,
            outcome,
        } = self;
        write!(f, "response {request}, leader {leader_id}, {outcome}")
    }
}
