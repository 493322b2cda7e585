//! Ranges of logs.
ghost use Rattle.std.specs.Prelude.{◌≡◌, ◌-◌, ◌<◌, ◌≤◌, ◌^◌, ◌&&◌, nat_le, nat_lt};
ghost use Rattle.raft_base.specs.LogId.{next_index};
ghost use Rattle.raft_base.specs.LogIdRange.{range_relations};
ghost use Rattle.raft_base.specs.Validate.{first_false};

use super::LogIdOf;
use super::log_id_option_ext::LogIdOptionExt;
use super::validate::{Invalid, Validate};
use crate::display_ext::DisplayOption;
use crate::leader_id::CommittedLeaderId;
use std::fmt;

/// The logs after one log id up to another: `(prev, last]`.
///
/// If `prev` is absent, the range begins at the first log.
#[derive(Clone, Copy, PartialEq, Eq)]
pub struct LogIdRangeOf<C> {
    /// The log before the first one of the range.
    pub prev: Option<LogIdOf<C>>,
    /// The last log of the range.
    pub last: Option<LogIdOf<C>>,
}

/// Ranges of logs with the default leader ids.
pub type LogIdRange<NID> = LogIdRangeOf<CommittedLeaderId<NID>>;

impl<C: Copy> LogIdRangeOf<C> {
    /// Returns the range of the logs after `prev` up to `last`.
    pub fn new(prev: Option<LogIdOf<C>>, last: Option<LogIdOf<C>>) -> Self
        ensures { result ≡ record { prev = prev; last = last } }
    {
        LogIdRangeOf { prev, last }
    }

    /// Whether the preconditions of `len` hold: the index of `last` is not below the index of
    /// `prev`, and the index after `last` is below 2^64.
    pub fn has_len(&self) -> bool
        ensures { result ≡ (nat_le (next_index self.now.prev) (next_index self.now.last)
            && nat_lt (next_index self.now.last) (2 ^ 64)) }
    {
        self.prev.index() <= self.last.index() && self.last.has_next_index()
    }

    /// Returns how many logs the range has, computed from their indexes. It requires `has_len`.
    pub fn len(&self) -> u64
        requires ordered { next_index self.now.prev ≤ next_index self.now.last }
        requires fits { next_index self.now.last < 2 ^ 64 }
        ensures { result ≡ next_index self.now.last - next_index self.now.prev }
    {
        self.last.next_index() - self.prev.next_index()
    }
}

impl<C: Ord> Validate for LogIdRangeOf<C> {
    ghost broken = { λ range. first_false (range_relations C.cmp range) };

    fn validate(&self) -> Result<(), Invalid> {
        if self.prev <= self.last {
            Ok(())
        } else {
            Err(Invalid::RangeOrder)
        }
    }
}

// Handwritten, because the text has the name `LogIdRange` and not `LogIdRangeOf`.
impl<C: fmt::Debug> fmt::Debug for LogIdRangeOf<C> {
    fn fmt<W: fmt::Write>(&self, f: &mut fmt::Formatter<W>) -> fmt::Result {
        f.debug_struct("LogIdRange")
            .field("prev", &self.prev)
            .field("last", &self.last)
            .finish()
    }
}

impl<C: fmt::Display + Copy> fmt::Display for LogIdRangeOf<C> {
    fn fmt<W: fmt::Write>(&self, f: &mut fmt::Formatter<W>) -> fmt::Result {
        let LogIdRangeOf { prev, last } = self;
        write!(f, "({}, {}]", DisplayOption(prev), DisplayOption(last))
    }
}
