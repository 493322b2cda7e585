//! The types of the layer for the servers of the cluster. Node ids and commands are numbers, nodes
//! have no addresses, and leader ids are those of standard Raft: a term has at most one leader.
//!
//! `LeaderId` and `CommittedLeaderId` choose the kind of leader ids, and nothing else depends on
//! the kind. If they are `raft_base::LeaderId<u64>` and `raft_base::CommittedLeaderId<u64>`, the
//! cluster runs over openraft's default leader ids, but `rt check` does not prove it.

use raft_base::{EmptyNode, LogIdOf, LogIdRangeOf, VoteIn};
use raft_members::Membership;
use raft_state::{EntryOf, EntryPayload, RaftStateIn, SnapshotMetaOf};

/// The leader id of a vote: the term, and the node that the vote is for.
pub type LeaderId = raft_base::leader_id_std::LeaderId<u64>;

/// The committed leader id of a log id: the term of the leader that wrote the entry.
pub type CommittedLeaderId = raft_base::leader_id_std::CommittedLeaderId;

/// A vote: a leader id, and whether a quorum has elected the leader.
pub type Vote = VoteIn<LeaderId>;

/// A log id: a committed leader id and an index.
pub type LogId = LogIdOf<CommittedLeaderId>;

/// A range of log ids.
pub type LogIdRange = LogIdRangeOf<CommittedLeaderId>;

/// A log entry.
pub type Entry = EntryOf<CommittedLeaderId, u64, EmptyNode, u64>;

/// What an entry holds.
pub type Payload = EntryPayload<u64, EmptyNode, u64>;

/// Voters and learners.
pub type Members = Membership<u64, EmptyNode>;

/// A change of the voters or the learners.
pub type ChangeMembers = raft_members::ChangeMembers<u64, EmptyNode>;

/// What is known of a snapshot.
pub type SnapshotMeta = SnapshotMetaOf<CommittedLeaderId, u64, EmptyNode>;

/// The state of a server.
pub type State = RaftStateIn<u64, EmptyNode, u64, LeaderId, CommittedLeaderId>;

/// A candidate, with the votes for it.
pub type Candidate = steps_handlers::Candidate<u64, EmptyNode, LeaderId, CommittedLeaderId>;

/// A leader, with what it knows of its followers and of itself.
pub type Leader = steps_handlers::Leader<u64, EmptyNode, CommittedLeaderId>;

/// A candidate's request for a vote.
pub type VoteRequest = steps_handlers::VoteRequest<LeaderId, CommittedLeaderId>;

/// A voter's response to a candidate.
pub type VoteResponse = steps_handlers::VoteResponse<LeaderId>;

/// A leader's request to append entries.
pub type AppendEntries = steps_handlers::AppendEntries<
    LeaderId,
    CommittedLeaderId,
    u64,
    EmptyNode,
    u64,
>;

/// A leader's request to install its snapshot.
pub type InstallSnapshot = steps_handlers::InstallSnapshot<
    LeaderId,
    CommittedLeaderId,
    u64,
    EmptyNode,
>;

/// A follower's response to a leader.
pub type Response = steps_handlers::Response<LeaderId, CommittedLeaderId>;

/// What a request to append entries has changed.
pub type Changes = steps_handlers::Changes<CommittedLeaderId>;

/// Returns the index after a log id, or 0 after none.
pub fn end(last: Option<LogId>) -> u64 {
    match last {
        Some(log_id) => log_id.index.saturating_add(1),
        None => 0,
    }
}
