//! Judges a recorded run, which is one list of lines or several.
ghost use Rattle.std.specs.Prelude.{◌≡◌, ◌*◌, ◌<◌, ◌≤◌, [], ◌∷◌, ℕ, List, IfErr, IfOk, IsTrue, OnOk, Some, map};
ghost use Rattle.safety_laws.specs.Ranks.{IsAmong};
ghost use Rattle.trace_lines.specs.Reader.{KeepsLines};
ghost use Rattle.std.specs.List.{All};
ghost use Rattle.trace_judge.specs.Inner.Judged.{Begins, Judges, JudgesBefore, JudgesNext, JudgesSome};
ghost use Rattle.trace_judge.specs.Inner.Taken.{IsBroken};
ghost use Rattle.trace_judge.specs.Input.{IsReadToEnd, KeepKnown, WaitsWith, known_of, read_of};
ghost use Rattle.trace_judge.specs.Lists.{HaveSafeMerge};
ghost use Rattle.trace_judge.specs.Numbers.{number_tests};
ghost use Rattle.trace_judge.specs.Run.{SafeRun};

use crate::facts::Place;
use crate::fault::Fault;
use crate::input::Lines;
use crate::judge::{Judge, start};
use crate::progress::Progress;
use crate::start::say_one_start;
use crate::text::{push_fault, push_safe};
use crate::waiting::push_waiting;
use safety_laws::laws::{applied_traces_are_executions, traces_are_executions};
use std::alloc::{AllocError, Global};
use std::io::{self, BufRead};

/// Why a run is judged no further.
#[derive(Drop)]
enum Stop {
    /// A line is no event, or there is no memory for it.
    Line(Fault),
    /// The input cannot be read.
    Input(io::Error),
}

impl From<Fault> for Stop {
    fn from(fault: Fault) -> Stop {
        Stop::Line(fault)
    }
}

impl From<io::Error> for Stop {
    fn from(error: io::Error) -> Stop {
        Stop::Input(error)
    }
}

impl From<AllocError> for Stop {
    fn from(error: AllocError) -> Stop {
        Stop::Line(Fault::from(error))
    }
}

/// Judges lists of lines, and writes the answer, after a chart of the run if that is wanted. The
/// order of each list is kept, and no order between the lists is known.
///
/// Returns the exit status: 0 if the run is safe, 1 if the next line of each list breaks a rule, 2
/// if a line is no event, or if no cluster can start as the first line says, and 3 if an input
/// cannot be read, or if there is no memory. The answer is empty if there is no memory to write it.
///
/// If the status is 0, every input was read to its end, and the lines that were read have an order
/// that keeps the order of each input, and in which they are a safe run.
pub fn run<B: BufRead>(
    alloc: Global,
    lists: &mut [Lines<B>],
    progress: Progress,
    is_drawn: bool,
    answer: &mut String,
) -> u8
    ensures ended { result ≡ 0 → All IsReadToEnd lists.new }
    ensures waits { result ≡ 1 → All IsReadToEnd lists.new → ⊥ }
    ensures safe { result ≡ 0 →
        HaveSafeMerge number_tests [] (map read_of lists.old) (map read_of lists.new) }
    ensures so_far { result ≤ 1 → (waiting : List (List ℕ)) → All (WaitsWith waiting) lists.new →
        HaveSafeMerge number_tests waiting (map read_of lists.old) (map read_of lists.new) }
    ensures whole { result ≡ 0 → (all : List (List (List ℕ))) →
        map (known_of B.remaining) lists.old ≡ map Some all → map read_of lists.new ≡ all }
    ensures alone { result ≡ 0 → (lines : List (List ℕ)) → map read_of lists.old ≡ [] ∷ [] →
        map (known_of B.remaining) lists.old ≡ Some lines ∷ [] → SafeRun number_tests [] lines }
{
    match judge_lists(alloc, lists, progress, is_drawn, answer) {
        Ok(status) => status,
        Err(AllocError) => {
            answer.clear();
            3
        }
    }
}

/// Judges lists of lines, of which the first one begins with the line that says how the cluster
/// starts.
fn judge_lists<B: BufRead>(
    alloc: Global,
    lists: &mut [Lines<B>],
    progress: Progress,
    is_drawn: bool,
    answer: &mut String,
) -> Result<u8, AllocError>
    ensures ended { IfOk result (λ status. status ≡ 0 → All IsReadToEnd lists.new) }
    ensures waits { IfOk result (λ status. status ≡ 1 → All IsReadToEnd lists.new → ⊥) }
    ensures safe { IfOk result (λ status. status ≤ 1 → (waiting : List (List ℕ)) →
        All (WaitsWith waiting) lists.new →
        HaveSafeMerge number_tests waiting (map read_of lists.old) (map read_of lists.new)) }
    ensures known { IfOk result (λ status. status ≤ 1 → KeepKnown B.remaining lists.old lists.new) }
{
    traces_are_executions::<u64, u64, u64, Option<u64>>();
    applied_traces_are_executions::<u64, u64, u64, Option<u64>>();
    let (first_line, mut judge) = match begin(alloc, lists, is_drawn) {
        Ok(begun) => begun,
        Err(stop) => return push_stop(alloc, answer, None, lists, 0, stop),
    };
    match take_lines(alloc, &first_line, lists, &mut judge, progress) {
        Ok(()) => push_verdict(alloc, answer, lists, &mut judge),
        Err((at, stop)) => push_stop(alloc, answer, Some(&judge), lists, at, stop),
    }
}

/// Takes the first line of the first list. Returns this line, and the judge of a cluster that
/// starts as it says.
fn begin<B: BufRead>(
    alloc: Global,
    lists: &mut [Lines<B>],
    is_drawn: bool,
) -> Result<(Vec<u8>, Judge), Stop>
    ensures begins { IfOk result (λ b.
        Begins number_tests (map read_of lists.old) (map read_of lists.new) b.0.items b.1) }
    ensures known { IfOk result (λ _. KeepKnown B.remaining lists.old lists.new) }
{
    if lists.is_empty() {
        return Err(Stop::Line(Fault::Malformed));
    }
    let is_alone = lists.len() == 1;
    let first = &mut lists[0];
    if !first.has_next()? {
        return Err(Stop::Line(Fault::Malformed));
    }
    let line = first.line().to_vec(alloc)?;
    let judge = start(alloc, &line, is_drawn, is_alone)?;
    first.pass();
    Ok((line, judge))
}

/// Takes lines of the lists, until the next line of each list is refused, or all lists are at their
/// end.
///
/// After a line that is taken, the next one is of the same list. After one that is refused, it is
/// of the next list. Events are filled in only if the next line of each list is refused without
/// them.
///
/// # Errors
///
/// Why a list is judged no further, with the place of this list.
fn take_lines<B: BufRead>(
    alloc: Global,
    first_line: &[u8],
    lists: &mut [Lines<B>],
    judge: &mut Judge,
    mut progress: Progress,
) -> Result<(), (usize, Stop)>
    ensures judged { OnOk result
        (JudgesSome number_tests first_line.now lists.old lists.new judge.old judge.new) }
    ensures known { OnOk result (KeepKnown B.remaining lists.old lists.new) }
{
    let mut at = 0;
    let mut refused = 0;
    for _ in 0..u64::MAX {
        if refused >= tries(lists.len()) {
            return Ok(());
        }
        let fills = may_fill_in(refused, lists.len());
        if at >= lists.len() {
            at = 0;
        }
        let is_taken = match take_next(alloc, first_line, at, fills, &mut lists[at], judge) {
            Ok(is_taken) => is_taken,
            Err(stop) => return Err((at, stop)),
        };
        if is_taken {
            refused = 0;
            progress.note();
        } else {
            refused += 1;
            at += 1;
        }
    }
    Err((at, Stop::from(AllocError)))
}

/// Returns how many lines in a row are refused before a run is judged no further. If there are
/// several lists, the next line of each is tried twice.
fn tries(lists: usize) -> usize
    ensures { result ≤ 2 * lists }
{
    if lists > 1 {
        lists.saturating_mul(2)
    } else {
        lists
    }
}

/// Whether events may be filled in for the next line, after so many lines in a row were refused. If
/// there are several lists, a line of another list may say what the next line lacks, so that is
/// tried first.
fn may_fill_in(refused: usize, lists: usize) -> bool {
    lists <= 1 || refused >= lists
}

/// Takes the next line of a list, if it is allowed. Returns whether a line was taken.
fn take_next<B: BufRead>(
    alloc: Global,
    first_line: &[u8],
    number: usize,
    fills: bool,
    list: &mut Lines<B>,
    judge: &mut Judge,
) -> Result<bool, Stop>
    ensures judged { OnOk result
        (JudgesNext number_tests first_line.now list.old list.new judge.old judge.new) }
    ensures known { OnOk result (KeepsLines B.remaining list.old.reader list.new.reader) }
{
    if !list.has_next()? {
        return Ok(false);
    }
    let place = Place {
        list: number,
        line: list.number(),
    };
    match take_line(alloc, first_line, place, fills, list.line(), judge) {
        Ok(()) => {
            list.pass();
            Ok(true)
        }
        Err(fault) if fault.is_broken() => {
            list.refuse(judge.counts.events, fault);
            Ok(false)
        }
        Err(fault) => Err(Stop::Line(fault)),
    }
}

/// Takes a line after the first one. A line that says again how the cluster starts says no event.
fn take_line(
    alloc: Global,
    first_line: &[u8],
    place: Place,
    fills: bool,
    line: &[u8],
    judge: &mut Judge,
) -> Result<(), Fault>
    ensures taken { OnOk result (Judges number_tests first_line.now (line.now ∷ []) judge.old judge.new) }
    ensures broken { IfErr result (λ fault. IsBroken fault → JudgesBefore number_tests
        (λ later. IsAmong line.now later) first_line.now [] judge.old judge.new) }
{
    match judge.take(alloc, place, fills, line) {
        Ok(()) => Ok(()),
        Err(Fault::Malformed) => {
            if say_one_start(alloc, first_line, line)? {
                Ok(())
            } else {
                Err(Fault::Malformed)
            }
        }
        Err(fault) => Err(fault),
    }
}

/// Whether all lists are at their end.
fn are_ended<B>(lists: &[Lines<B>]) -> bool
    ensures ended { IsTrue result → All IsReadToEnd lists.now }
    ensures if_ended { All IsReadToEnd lists.now → IsTrue result }
{
    for list in lists {
        if !list.is_ended() {
            return false;
        }
    }
    true
}

/// Writes the chart, and then that the run is safe if all lists are at their end, or the lines that
/// they wait with. Returns the exit status.
fn push_verdict<B>(
    alloc: Global,
    answer: &mut String,
    lists: &[Lines<B>],
    judge: &mut Judge,
) -> Result<u8, AllocError>
    ensures ended { IfOk result (λ status. status ≡ 0 → All IsReadToEnd lists.now) }
    ensures waits { IfOk result (λ status. status ≡ 1 → All IsReadToEnd lists.now → ⊥) }
{
    if !are_ended(lists) {
        judge.chart.push_refused_to(answer)?;
        return push_waiting(alloc, answer, lists, judge);
    }
    judge.chart.push_to(answer)?;
    push_safe(alloc, answer, judge)?;
    Ok(0)
}

/// Writes the chart, if the cluster has started, and why the list at a place is judged no further.
/// Returns the exit status.
fn push_stop<B>(
    alloc: Global,
    answer: &mut String,
    judge: Option<&Judge>,
    lists: &[Lines<B>],
    at: usize,
    stop: Stop,
) -> Result<u8, AllocError>
    ensures { IfOk result (λ status. 1 < status) }
{
    let Some(list) = lists.get(at) else {
        return Ok(3);
    };
    let mut first = 1;
    if let Some(judge) = judge {
        first = judge.first;
        judge.chart.push_to(answer)?;
    }
    match stop {
        Stop::Line(fault) => {
            list.push_place(answer)?;
            push_fault(alloc, answer, list.line(), judge.is_none(), first, fault)
        }
        Stop::Input(error) => {
            writeln!(answer, "{}: {error}", list.name())?;
            Ok(3)
        }
    }
}
