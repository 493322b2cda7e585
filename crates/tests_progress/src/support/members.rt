//! Memberships with their progress.

use raft_base::EmptyNode;
use raft_members::membership::Membership;
use raft_progress::tracked::Tracked;
use std::alloc::{AllocError, Global};
use tests_support::words::{configs, ids};

/// The membership of the configs of a word, with the nodes 1 to 3.
pub fn members(alloc: Global, config_word: &str) -> Result<Membership<u64, EmptyNode>, AllocError> {
    Membership::new(configs(alloc, config_word)?, ids(alloc, "1,2,3")?)
}

/// A membership and the progress of its nodes.
pub type TrackedNumbers = Tracked<u64, EmptyNode, u64, u64>;
