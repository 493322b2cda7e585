//! Why a line is not taken.
ghost use Rattle.std.specs.Prelude.{◌≡◌};
ghost use Rattle.trace_checker.specs.declared.checker.violation.Violation.TheVariants.{OutOfMemory};
ghost use Rattle.trace_judge.specs.declared.fault.Fault.TheVariants.{Refused};

use safety_laws::rule::Rule;
use std::alloc::AllocError;
use trace_checker::checker::Violation;

/// Why a line is not taken.
#[derive(Clone, Copy)]
pub enum Fault {
    /// It is no event.
    Malformed,
    /// It has not the index after that of the last entry of its leader, which is this one.
    Skips(u64),
    /// It breaks a rule, or there is no memory for it.
    Refused(Violation),
}

impl Fault {
    ghost use Rattle.std.specs.Prelude.{◌<◌, IsTrue};
    ghost use Rattle.trace_judge.specs.Inner.Taken.{IsBroken};

    /// Whether the line breaks a rule, or has not the next index of its leader.
    pub fn is_broken(&self) -> bool
        ensures { IsTrue result → IsBroken self.now }
    {
        matches!(self, Fault::Skips(_) | Fault::Refused(Violation::Rule(_)))
    }

    /// Whether a leader counted by a config that is not known, or has no quorum of it.
    pub fn is_of_config(&self) -> bool
        ensures { IsTrue result → IsBroken self.now }
    {
        matches!(
            self,
            Fault::Refused(Violation::Rule(Rule::UnknownConfig | Rule::NoQuorum))
        )
    }

    /// Returns the exit status for a run that is judged no further because of it: the line is no
    /// event, or there is no memory for it.
    pub fn status(&self) -> u8
        ensures { 1 < result }
    {
        match self {
            Fault::Refused(Violation::OutOfMemory) => 3,
            _ => 2,
        }
    }
}

impl From<AllocError> for Fault {
    ghost from_gives = { λ _ f. f ≡ Refused OutOfMemory };

    fn from(_error: AllocError) -> Fault {
        Fault::Refused(Violation::OutOfMemory)
    }
}

impl From<Violation> for Fault {
    ghost from_gives = { λ v f. f ≡ Refused v };

    fn from(violation: Violation) -> Fault {
        Fault::Refused(violation)
    }
}
