//! The steps of a Raft server, under contract: how a follower and a voter handle each request, what
//! a candidate and a leader do, and how a server starts and restarts.
//!
//! Requests and responses are values. There is no clock, no network and no storage: the caller
//! sends, restarts its timer, and writes to disk. Before any message leaves, all that the server's
//! steps so far have changed is on disk.
#![tactic(auto)]

pub mod append;
pub mod candidate;
pub mod changes;
pub mod error;
pub mod laws;
pub mod leader;
mod log;
pub mod message;
pub mod restart;
pub mod snapshot;
pub mod start;
pub mod state;
pub mod vote;

pub use append::handle_append_entries;
pub use candidate::{Candidate, Tally, may_lead};
pub use changes::{Changes, SnapshotChanges};
pub use error::{
    AppendError, CampaignError, CommitError, FlushError, HandlerError, LeadError, ProposeError,
    ResponseError, RestartError, ResumeError, SnapshotError, StartError,
};
pub use leader::{ChangeError, Leader};
pub use message::{
    AppendEntries, Heartbeat, InstallSnapshot, Outcome, RequestNumber, Response, VoteRequest,
    VoteResponse,
};
pub use restart::{Stored, restart_server};
pub use snapshot::handle_install_snapshot;
pub use start::start_cluster;
pub use state::State;
pub use vote::handle_vote_request;
