//! Checking lists of events without an order between them.
ghost use Rattle.std.specs.Prelude.{◌≡◌, length, IfErr, IfOk, IsFalse, IsTrue, OnErr, OnOk};
ghost use Rattle.safety_laws.specs.Trace.{AreExact};
ghost use Rattle.trace_checker.specs.Checker.{configs_of, counting_of, tests_of, tests_when};
ghost use Rattle.trace_checker.specs.Merge.{AreAllPlaced, HaveSafeOrder, IsPlaced, IsRefusedMerge, RecordsNext};

use crate::checker::{Checker, Configs, Violation};
use crate::event::Event;
use crate::term::Term;
use safety_laws::counting::ConfigsCount;
use std::alloc::Global;
use thiserror::Error;

/// Events that could not be placed.
#[derive(Debug, Drop, Error)]
#[error("list {list}: {violation}")]
pub struct Unplaced {
    /// How many first events of each list were placed. It is empty if there was no memory for these
    /// numbers.
    pub placed: Vec<usize>,
    /// The first list whose events were not all placed. If there was no memory for an event, the
    /// list of this event.
    pub list: usize,
    /// What the next event of this list is refused for. The rule `InitialConfig` is of no event.
    pub violation: Violation,
}

/// Checks that lists of events, one of each server, have an order in which each event was allowed.
///
/// The order of each list is kept. The function places one event after the other: the next event of
/// the first list whose next event is allowed. For each event that it places, it tries at most one
/// event of each list.
///
/// If it returns `Ok`, the events in the order in which they were placed are an execution in which
/// every server keeps the rules, so they are safe. This holds as it does for `check`.
///
/// # Errors
///
/// The events that could not be placed, if the next event of every list is refused after the placed
/// ones, or out of memory. It is not proved that every other order is refused too.
pub fn check_each<T: Term, N: Copy + Eq, D: Copy + Ord, C: Configs<N, D> + Drop>(
    alloc: Global,
    configs: C,
    lists: &[Vec<Event<T, N, D>>],
) -> Result<(), Unplaced>
    ensures safe { let k = tests_of T.Term N.PartialEq D.PartialEq C.Configs configs in
        OnOk result (AreExact k → HaveSafeOrder k lists.now) }
    ensures refused { let k = tests_of T.Term N.PartialEq D.PartialEq C.Configs configs in
        IfErr result (λ u. AreExact k →
        IsRefusedMerge k lists.now u.placed.items u.list u.violation) }
{
    check_each_counting(alloc, ConfigsCount::WhenAppended, configs, lists)
}

/// Checks that lists of events, one of each server, have an order in which each event was allowed,
/// if configs count in this way.
///
/// It does what `check_each` does, by the rules for such configs.
///
/// # Errors
///
/// The errors of `check_each`.
pub fn check_each_counting<T: Term, N: Copy + Eq, D: Copy + Ord, C: Configs<N, D> + Drop>(
    alloc: Global,
    counting: ConfigsCount,
    configs: C,
    lists: &[Vec<Event<T, N, D>>],
) -> Result<(), Unplaced>
    ensures safe { let k = tests_when counting T.Term N.PartialEq D.PartialEq C.Configs configs in
        OnOk result (AreExact k → HaveSafeOrder k lists.now) }
    ensures refused { let k = tests_when counting T.Term N.PartialEq D.PartialEq C.Configs configs in
        IfErr result (λ u. AreExact k →
        IsRefusedMerge k lists.now u.placed.items u.list u.violation) }
{
    let Ok(mut placed) = vec![in alloc; 0; lists.len()] else {
        return Err(Unplaced {
            placed: Vec::new(alloc),
            list: 0,
            violation: Violation::OutOfMemory,
        });
    };
    let mut checker = match Checker::counting(alloc, counting, configs) {
        Ok(checker) => checker,
        Err(violation) => {
            return Err(Unplaced {
                placed,
                list: 0,
                violation,
            });
        }
    };
    loop {
        match record_next(&mut checker, lists, &mut placed) {
            Ok(true) => {}
            Ok(false) => return Ok(()),
            Err((list, violation)) => {
                return Err(Unplaced {
                    placed,
                    list,
                    violation,
                });
            }
        }
    }
}

/// Records the next event of the first list whose next event is allowed. Returns whether there was
/// a next event.
///
/// # Errors
///
/// The first list that has a next event, and the rule that this event breaks, if the next event of
/// every list is refused. Or out of memory. Nothing is placed then.
fn record_next<T: Term, N: Copy + Eq, D: Copy + Ord, C: Configs<N, D> + Drop>(
    checker: &mut Checker<T, N, D, C>,
    lists: &[Vec<Event<T, N, D>>],
    placed: &mut [usize],
) -> Result<bool, (usize, Violation)>
    requires { length placed.old ≡ length lists.now }
    ensures configs { configs_of checker.new ≡ configs_of checker.old }
    ensures counting { counting_of checker.new ≡ counting_of checker.old }
    ensures more { IfOk result (λ more. IsTrue more → IsPlaced lists.now placed.old placed.new) }
    ensures ended { IfOk result (λ more. IsFalse more →
        (placed.new ≡ placed.old) × AreAllPlaced lists.now placed.old) }
    ensures same { OnErr result (placed.new ≡ placed.old) }
    ensures records { RecordsNext
        (tests_when (counting_of checker.old) T.Term N.PartialEq D.PartialEq C.Configs
        (configs_of checker.old)) lists.now placed.old checker.old placed.new checker.new result }
{
    let mut refused = None;
    for i in 0..lists.len() {
        let events = &lists[i];
        if placed[i] < events.len() {
            match checker.record(&events[placed[i]]) {
                Ok(()) => {
                    placed[i] += 1;
                    return Ok(true);
                }
                Err(Violation::Rule(rule)) => refused = refused.or(Some((i, rule))),
                Err(Violation::OutOfMemory) => return Err((i, Violation::OutOfMemory)),
            }
        }
    }
    match refused {
        Some((i, rule)) => Err((i, Violation::Rule(rule))),
        None => Ok(false),
    }
}
