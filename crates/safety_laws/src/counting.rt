//! When configs count.

/// When a config counts. A cluster keeps to one way: no rule allows both in one cluster.
#[derive(Debug, Clone, Copy, PartialEq, Eq)]
pub enum ConfigsCount {
    /// From its append on, as in the Raft paper, openraft and hashicorp's Raft.
    WhenAppended,
    /// Once it is applied, as in etcd and raft-rs.
    WhenApplied,
}
