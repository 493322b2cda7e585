//! The last entry of a log.
ghost use Rattle.std.specs.Prelude.{◌≡◌};
ghost use Rattle.trace_checker.specs.Inner.CheckerState.{same_entry_by};

use crate::entry::Entry;
use std::alloc::AllocError;

/// The last entry of a log, and the logs with which it begins.
pub struct Node<T, D> {
    /// The log without its last entry.
    pub parent: usize,
    /// A shorter log with which the log begins. By it a search takes logarithmic time.
    pub jump: usize,
    /// The number of entries.
    pub len: usize,
    /// The log up to its last config, 0 if it has none.
    pub config: usize,
    /// The last entry.
    pub entry: Entry<T, D>,
}

// By hand, because the proof of a derived `clone` is several times as long.
impl<T: Copy, D: Copy> Clone for Node<T, D> {
    fn clone(&self) -> Result<Self, AllocError> {
        Ok(*self)
    }
}

impl<T: Copy, D: Copy> Copy for Node<T, D> {}

/// Whether two entries are of one term and have one content.
pub fn same_entry<T: Copy + Eq, D: Copy + Eq>(a: &Entry<T, D>, b: &Entry<T, D>) -> bool
    ensures { result ≡ same_entry_by T.eq D.eq a.now b.now }
{
    a.term == b.term && a.content == b.content
}
