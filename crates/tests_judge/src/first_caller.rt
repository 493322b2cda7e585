//! The first caller, as it is printed on the page for callers. The tests judge their runs by it.
ghost use Rattle.std.specs.Prelude.{◌≡◌, [], IfOk};
ghost use Rattle.trace_lines.specs.Lines.{lines};
ghost use Rattle.trace_judge.specs.Numbers.{number_tests};
ghost use Rattle.trace_judge.specs.Run.{SafeRun};

use std::alloc::{AllocError, Global};
use trace_judge::run::run;
use trace_judge::{Lines, Progress};

/// Returns the exit status for a run, whose lines are those of a text, and the answer to it.
pub fn judged(alloc: Global, text: &str) -> Result<(u8, String), AllocError>
    ensures { IfOk result (λ r. r.0 ≡ 0 → SafeRun number_tests [] (lines text.now)) }
{
    let mut answer = String::new(alloc);
    let mut lists = Vec::new(alloc);
    lists.push(Lines::new(alloc, text.as_bytes(), None))?;
    let status = run(alloc, &mut lists, Progress::silent(), false, &mut answer);
    Ok((status, answer))
}
