//! What a recorded event is refused for.
ghost use Rattle.std.specs.Prelude.{◌≡◌};
ghost use Rattle.trace_checker.specs.declared.checker.violation.Violation.TheVariants.{OutOfMemory};

use safety_laws::rule::Rule;
use std::alloc::{AllocError, AllocFailed};
use thiserror::Error;

/// What an event is refused for.
#[derive(Debug, Clone, Copy, PartialEq, Eq, Error)]
pub enum Violation {
    /// The event breaks a rule.
    #[error("{0}")]
    Rule(Rule),
    /// Out of memory.
    #[error("out of memory")]
    OutOfMemory,
}

impl From<AllocError> for Violation {
    ghost from_gives = { λ _ e. e ≡ OutOfMemory };

    fn from(_error: AllocError) -> Violation {
        Violation::OutOfMemory
    }
}
