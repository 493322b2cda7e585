//! What has happened that is of note.

use std::fmt;

/// A thing of note that a server has done.
#[derive(Clone, Copy, PartialEq, Eq)]
pub enum Deed {
    /// It was elected.
    Leads,
    /// As the leader it has proposed a membership.
    Changes,
    /// It leads no longer, because it is no voter any more.
    Retires,
    /// It has truncated so many entries of its log.
    Truncates(usize),
    /// It has taken a snapshot.
    Compacts,
    /// It has installed a snapshot of its leader.
    Installs,
    /// It has crashed and restarted.
    Restarts,
}

/// A thing of note that has happened.
#[derive(Clone, Copy, PartialEq, Eq)]
pub enum News {
    /// A server has done something.
    Deed(u64, Deed),
    /// The network is partitioned now.
    Splits,
    /// The network is whole again.
    Heals,
}

impl fmt::Display for Deed {
    fn fmt<W: fmt::Write>(&self, f: &mut fmt::Formatter<W>) -> fmt::Result {
        match self {
            Deed::Leads => f.write_str("is elected"),
            Deed::Changes => f.write_str("changes members"),
            Deed::Retires => f.write_str("retires"),
            Deed::Truncates(count) => write!(f, "truncates {count}"),
            Deed::Compacts => f.write_str("takes a snapshot"),
            Deed::Installs => f.write_str("gets a snapshot"),
            Deed::Restarts => f.write_str("restarts"),
        }
    }
}

impl fmt::Display for News {
    fn fmt<W: fmt::Write>(&self, f: &mut fmt::Formatter<W>) -> fmt::Result {
        match self {
            News::Deed(id, deed) => write!(f, "{id} {deed}"),
            News::Splits => f.write_str("network splits"),
            News::Heals => f.write_str("network heals"),
        }
    }
}
