//! How far a log is on disk.
ghost use Rattle.std.specs.Prelude.{◌≡◌};

use raft_base::{CommittedLeaderId, DisplayOption, LogIdOf};
use std::fmt;

/// How far a log is on disk: the last log id that is on disk, and the leader whose log it is.
///
/// The leader identifies the log, because under a later leader the same node may write other
/// entries at the same indexes.
#[derive(Clone, Copy, Default, PartialEq, Eq)]
pub struct LogIOIdOf<C> {
    /// The leader whose log is on disk.
    pub committed_leader_id: C,
    /// The last log id that is on disk.
    pub log_id: Option<LogIdOf<C>>,
}

/// How far a log is on disk, with the default leader ids.
pub type LogIOId<NID> = LogIOIdOf<CommittedLeaderId<NID>>;

impl<C: Copy> LogIOIdOf<C> {
    /// Returns this for a leader's log that is on disk up to a log id.
    pub fn new(committed_leader_id: C, log_id: Option<LogIdOf<C>>) -> Self
        ensures { result ≡ record { committed_leader_id = committed_leader_id; log_id = log_id } }
    {
        LogIOIdOf {
            committed_leader_id,
            log_id,
        }
    }
}

// Handwritten, because the text has the name `LogIOId` and not `LogIOIdOf`.
impl<C: fmt::Debug> fmt::Debug for LogIOIdOf<C> {
    fn fmt<W: fmt::Write>(&self, f: &mut fmt::Formatter<W>) -> fmt::Result {
        f.debug_struct("LogIOId")
            .field("committed_leader_id", &self.committed_leader_id)
            .field("log_id", &self.log_id)
            .finish()
    }
}

impl<C: fmt::Display> fmt::Display for LogIOIdOf<C> {
    fn fmt<W: fmt::Write>(&self, f: &mut fmt::Formatter<W>) -> fmt::Result {
        let LogIOIdOf {
            committed_leader_id,
            log_id,
        } = self;
        let log_id = DisplayOption(log_id);
        write!(f, "by_leader({committed_leader_id}):{log_id}")
    }
}
