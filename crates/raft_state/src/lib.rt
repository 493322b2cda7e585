//! The log and the state of a Raft node, as plain data: its log ids, its memberships, its snapshot,
//! its vote, and the progress of its storage.
#![tactic(auto)]

pub mod accepted;
mod append;
pub mod catch_up;
pub mod entry;
mod install;
pub mod io_state;
pub mod laws;
mod log;
pub mod log_id_list;
pub mod membership_state;
pub mod raft_state;
mod role;
mod snapshot;
pub mod snapshot_meta;
mod sound;
mod truncate;
mod validate;
pub mod vote_state_reader;

pub use accepted::{Accepted, AcceptedIn, AcceptedOf};
pub use catch_up::FollowersOf;
pub use entry::{Entry, EntryOf, EntryPayload, FromAppData, LogEntry, RaftEntry, RaftPayload};
pub use io_state::{IOState, IOStateIn, IOStateOf, LogIOId, LogIOIdOf};
pub use log_id_list::{LogIdList, LogIdListOf, is_key_list};
pub use membership_state::{ChangeHandler, ChangeHandlerOf, MembershipState, MembershipStateOf};
pub use raft_base::LogStateReader;
pub use raft_members::{ForwardToLeader, error};
pub use raft_state::{RaftState, RaftStateIn, RaftStateOf};
pub use snapshot_meta::{SnapshotMeta, SnapshotMetaOf};
pub use vote_state_reader::VoteStateReader;
