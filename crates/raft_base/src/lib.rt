//! What a Raft cluster uses as names: node ids, leader ids, votes and log ids. It also has the role
//! of a node in its cluster, and a value with the moment of its last update.
#![tactic(auto)]

pub mod display_ext;
pub mod instant;
pub mod kind;
pub mod leader_id;
pub mod leader_id_std;
pub mod log_id;
pub mod node;
pub mod order;
pub mod server_state;
pub mod summary;
pub mod utime;
pub mod vote;

pub use display_ext::DisplayOption;
pub use instant::Instant;
pub use kind::{LeaderAdv, LeaderIdentity, LeaderKind};
pub use leader_id::{CommittedLeaderId, LeaderId};
pub use leader_id_std::LeaderStd;
pub use log_id::{
    Invalid, LogId, LogIdOf, LogIdOptionExt, LogIdRange, LogIdRangeOf, LogIndexOptionExt,
    LogStateReader, RaftLogId, Validate,
};
pub use node::{BasicNode, EmptyNode, Node, NodeDefault, NodeEssential, NodeId, NodeIdEssential};
pub use order::{
    compare_default_votes, compare_leader_ids, compare_log_ids, compare_optional_log_ids,
    compare_votes, index_at_most, index_below, log_id_at_most, log_id_below, same_log_ids,
    same_optional_log_ids, same_votes,
};
pub use server_state::ServerState;
pub use summary::MessageSummary;
pub use utime::UTime;
pub use vote::{Vote, VoteIn, VoteOf};
