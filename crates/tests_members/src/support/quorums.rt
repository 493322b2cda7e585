//! Quorum sets of some ids.

use raft_members::quorum::{Joint, QuorumSet};
use std::alloc::{AllocError, Global};
use tests_support::memory::are_equal;
use tests_support::words::{list, lists};

/// Two configs of a cluster as one.
pub type Configs = Joint<u64, Vec<u64>, Vec<Vec<u64>>>;

/// Two borrowed configs as one.
pub type BorrowedConfigs<'a> = Joint<u64, Vec<u64>, &'a [Vec<u64>]>;

/// Whether the ids of a quorum set are those of a word.
pub fn has_ids<QS: QuorumSet<u64>>(alloc: Global, set: &QS, word: &str) -> bool {
    are_equal(set.ids(alloc), list(alloc, word))
}

/// The joint of the configs of a word.
pub fn joint(alloc: Global, configs: &str) -> Result<Configs, AllocError> {
    Ok(Joint::from(lists(alloc, configs)?))
}
