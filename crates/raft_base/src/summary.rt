//! Short texts of values, for messages and logs of a program.

use crate::log_id::LogIdOf;
use crate::vote::VoteIn;
use std::alloc::{AllocError, Global};
use std::fmt::Display;

/// A value with a short text.
///
/// The parameter is the type that the text describes, which is mostly the type itself.
pub trait MessageSummary<M> {
    /// Returns the short text, or an allocation error.
    fn summary(&self, alloc: Global) -> Result<String, AllocError>;
}

impl<C: Display> MessageSummary<LogIdOf<C>> for LogIdOf<C> {
    fn summary(&self, alloc: Global) -> Result<String, AllocError> {
        self.to_string(alloc)
    }
}

impl<L: Display> MessageSummary<VoteIn<L>> for VoteIn<L> {
    fn summary(&self, alloc: Global) -> Result<String, AllocError> {
        self.to_string(alloc)
    }
}
