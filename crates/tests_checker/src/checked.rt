//! A caller of the checker, as an engine has the need of it.
ghost use Rattle.trace_checker.specs.Checker.{tests_of, trace_of};
ghost use Rattle.safety_laws.specs.Trace.{IsSafeTrace};
ghost use Rattle.std.specs.Prelude.{IsTrue, nat_eq};

use std::alloc::Global;
use trace_checker::check::check;
use trace_checker::checker::Configs;
use trace_checker::event::Event;
use trace_checker::memberships::{Memberships, memberships_are_exact};
use trace_checker::term::Term;

/// Whether a trace keeps the rules, checked by memberships of the layer. If it does, it is safe:
/// over numbers nothing more has to be shown.
pub fn is_checked(
    alloc: Global,
    memberships: Memberships<u64, u64>,
    events: &[Event<u64, u64, u64>],
) -> bool
    ensures { IsTrue result → IsSafeTrace (tests_of ⟦<u64 as Term>⟧ ⟦<u64 as PartialEq>⟧
        ⟦<u64 as PartialEq>⟧
        ⟦<Memberships<u64, u64> as Configs<u64, u64>>⟧ memberships) (trace_of events.now) }
{
    memberships_are_exact::<u64, u64, u64>(&memberships);
    match check(alloc, memberships, events) {
        Ok(()) => true,
        Err(_) => false,
    }
}
