//! Stored and effective memberships whose nodes are numbers.

use raft_base::{CommittedLeaderId, LogId};
use raft_members::{EffectiveMembership, StoredMembership};
use std::alloc::{AllocError, Global};
use tests_support::words::members;

/// A stored membership whose nodes are numbers.
pub type Stored = StoredMembership<u64, u64>;

/// An effective one.
pub type Effective = EffectiveMembership<u64, u64>;

/// A log id that is there.
pub fn id() -> LogId<u64> {
    LogId::new(CommittedLeaderId::new(1, 2), 3)
}

/// The effective membership of the words of its configs and nodes, under a log id or none.
pub fn effective(
    alloc: Global,
    log_id: Option<LogId<u64>>,
    configs: &str,
    nodes: &str,
) -> Result<Effective, AllocError> {
    Effective::new(log_id, members(alloc, configs, nodes)?)
}
