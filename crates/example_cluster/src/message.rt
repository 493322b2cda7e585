//! What servers send to one another.

use crate::types::{AppendEntries, InstallSnapshot, Response, VoteRequest, VoteResponse};

/// A message on its way.
#[derive(Drop)]
pub struct Message {
    /// The server that has sent it.
    pub from: u64,
    /// The server to which it is sent.
    pub to: u64,
    /// How many events had happened when it was sent.
    pub sent: u64,
    /// The request or the response.
    pub content: Content,
}

/// The request or the response that a message has.
#[derive(Drop)]
pub enum Content {
    /// A candidate asks for a vote.
    AskVote(VoteRequest),
    /// A voter answers a candidate.
    Vote(VoteResponse),
    /// A leader sends entries, or a heartbeat.
    Append(AppendEntries),
    /// A leader sends a snapshot.
    Install(InstallSnapshot),
    /// A follower answers a leader.
    Respond(Response),
}
