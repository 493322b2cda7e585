//! What identifies a log entry.
ghost use Rattle.std.specs.Prelude.{◌≡◌};

mod log_id_option_ext;
mod log_id_range;
mod log_index_option_ext;
mod log_state_reader;
mod raft_log_id;
mod validate;

use crate::leader_id::CommittedLeaderId;
pub use log_id_option_ext::LogIdOptionExt;
pub use log_id_range::{LogIdRange, LogIdRangeOf};
pub use log_index_option_ext::LogIndexOptionExt;
pub use log_state_reader::LogStateReader;
pub use raft_log_id::RaftLogId;
use std::fmt;
pub use validate::{Invalid, Validate};

/// Identifies a log entry in the whole cluster: the leader that proposed it, and its index.
///
/// Log ids are compared by leader, then by index. The type of the committed leader id is a
/// parameter, because it depends on the kind of leader ids.
#[derive(Clone, Copy, Default, PartialEq, Eq, PartialOrd, Ord)]
pub struct LogIdOf<C> {
    /// The committed leader id of the leader that proposed the entry.
    pub leader_id: C,
    /// The position of the entry in the log. Indexes are consecutive.
    pub index: u64,
}

/// Log ids with the default leader ids.
pub type LogId<NID> = LogIdOf<CommittedLeaderId<NID>>;

impl<C: Copy> LogIdOf<C> {
    /// Returns the id of the entry that a leader proposed at an index.
    pub fn new(leader_id: C, index: u64) -> Self
        ensures { result ≡ record { leader_id = leader_id; index = index } }
    {
        LogIdOf { leader_id, index }
    }

    /// Returns the committed leader id of the leader that proposed the entry.
    pub fn committed_leader_id(&self) -> &C
        ensures { result.now ≡ self.now.leader_id }
    {
        &self.leader_id
    }
}

// Handwritten, because the text has the name `LogId` and not `LogIdOf`.
impl<C: fmt::Debug> fmt::Debug for LogIdOf<C> {
    fn fmt<W: fmt::Write>(&self, f: &mut fmt::Formatter<W>) -> fmt::Result {
        f.debug_struct("LogId")
            .field("leader_id", &self.leader_id)
            .field("index", &self.index)
            .finish()
    }
}

impl<C: fmt::Display> fmt::Display for LogIdOf<C> {
    fn fmt<W: fmt::Write>(&self, f: &mut fmt::Formatter<W>) -> fmt::Result {
        let LogIdOf { leader_id, index } = self;
        write!(f, "{leader_id}-{index}")
    }
}
