//! Checking a whole trace.
ghost use Rattle.std.specs.Prelude.{◌≡◌, true, IfErr, OnOk};
ghost use Rattle.safety_laws.specs.Trace.{AreExact, IsSafeTrace, TermsHaveRanks, are_allowed};
ghost use Rattle.trace_checker.specs.Checker.{IsFirstRefused, tests_of, tests_when, trace_of};
ghost use Rattle.trace_checker.specs.Counted.{IsSafeWhen, are_all_allowed};

use crate::checker::{Checker, Configs, Violation};
use crate::event::Event;
use crate::term::Term;
use safety_laws::counting::ConfigsCount;
use std::alloc::Global;
use thiserror::Error;

/// The first event that is refused.
#[derive(Debug, Clone, Copy, PartialEq, Eq, Error)]
#[error("event {event}: {violation}")]
pub struct Refused {
    /// The number of events before it.
    pub event: usize,
    /// What the event is refused for.
    pub violation: Violation,
}

/// Checks that each event of a trace was allowed by what came before.
///
/// If it returns `Ok`, the trace is an execution in which every server keeps the rules, so the
/// trace is safe. This holds if terms, ids and contents that are `==` are equal, terms of one rank
/// are equal, and quorums of configs intersect where `Configs` says so. Configs count from their
/// append on.
///
/// # Errors
///
/// The first event that was not allowed, with the rule that it breaks, or out of memory. If quorums
/// of the initial config do not intersect, it is the rule `InitialConfig` with the event 0.
pub fn check<T: Term, N: Copy + Eq, D: Copy + Ord, C: Configs<N, D> + Drop>(
    alloc: Global,
    configs: C,
    events: &[Event<T, N, D>],
) -> Result<(), Refused>
    ensures allowed { let k = tests_of T.Term N.PartialEq D.PartialEq C.Configs configs in
        OnOk result (AreExact k → are_allowed k (trace_of events.now) ≡ true) }
    ensures safe { let k = tests_of T.Term N.PartialEq D.PartialEq C.Configs configs in
        OnOk result (AreExact k → TermsHaveRanks k (trace_of events.now) →
        IsSafeTrace k (trace_of events.now)) }
    ensures refused { let k = tests_of T.Term N.PartialEq D.PartialEq C.Configs configs in
        IfErr result (λ r. AreExact k → IsFirstRefused k events.now r.event r.violation) }
{
    check_counting(alloc, ConfigsCount::WhenAppended, configs, events)
}

/// Checks that each event of a trace was allowed by what came before, if configs count in this way.
///
/// If it returns `Ok`, the trace is an execution by the rules for such configs, so it is safe. This
/// holds as it does for `check`.
///
/// # Errors
///
/// The errors of `check`.
pub fn check_counting<T: Term, N: Copy + Eq, D: Copy + Ord, C: Configs<N, D> + Drop>(
    alloc: Global,
    counting: ConfigsCount,
    configs: C,
    events: &[Event<T, N, D>],
) -> Result<(), Refused>
    ensures allowed { let k = tests_when counting T.Term N.PartialEq D.PartialEq C.Configs configs in
        OnOk result (AreExact k → are_all_allowed k (trace_of events.now) ≡ true) }
    ensures safe { let k = tests_when counting T.Term N.PartialEq D.PartialEq C.Configs configs in
        OnOk result (AreExact k → TermsHaveRanks k (trace_of events.now) →
        IsSafeWhen k (trace_of events.now)) }
    ensures refused { let k = tests_when counting T.Term N.PartialEq D.PartialEq C.Configs configs in
        IfErr result (λ r. AreExact k → IsFirstRefused k events.now r.event r.violation) }
{
    let mut checker = match Checker::counting(alloc, counting, configs) {
        Ok(checker) => checker,
        Err(violation) => {
            return Err(Refused {
                event: 0,
                violation,
            });
        }
    };
    for (i, event) in events.iter().enumerate() {
        match checker.record(event) {
            Ok(()) => {}
            Err(violation) => {
                return Err(Refused {
                    event: i,
                    violation,
                });
            }
        }
    }
    Ok(())
}
