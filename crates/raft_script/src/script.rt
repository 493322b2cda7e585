//! Runs a script line by line, from the words of a line to its reply.

mod command;
mod dialogue;
mod engine;
mod reason;
pub(crate) mod reply;

ghost use Rattle.std.specs.Prelude.{◌≡◌, ◌≢◌, IfOk, OnErr};
ghost use Rattle.std.specs.Bool.{OnFalse, OnTrue};
ghost use Rattle.raft_script.specs.Engine.{engine_state};
ghost use Rattle.raft_script.specs.Input.{contents, unread};
ghost use Rattle.raft_script.specs.LineRun.{AnswersLine, IsLeftByFault, IsStepTooEarly, Prints, RunsCommand, RunsLine};
ghost use Rattle.raft_script.specs.Script.{BreaksOff, HasStatus, RunsScript};

use command::{Command, LineError};
use dialogue::{Dialogue, write_out};
use engine::Engine;
use raft_progress::progress::Reply;
use std::alloc::Global;
use std::io::{self, Read, Write};

/// Runs the script of `reader`, and writes a line to `writer` for each reply.
///
/// Returns the exit status: 0 at the end of input; 2 after a line that cannot be run, which is
/// named and ends the script; and 1 after an input or output error, or if an allocation fails that
/// has no reply `no-memory`.
/// Replies are written together, but each before more input is waited for.
pub fn run<R: Read + Drop, W: Write>(alloc: Global, reader: R, writer: &mut W) -> u8
    ensures status { result ≢ 1 → HasStatus (R.remaining reader) result }
    ensures prints { result ≢ 1 → Prints (W.contents writer.old) (W.contents writer.new)
        (RunsScript (R.remaining reader) result) }
{
    run_explained(alloc, reader, writer, &mut String::new(alloc))
}

/// Runs the script of `reader` like `run`. After a line that cannot be run, `reason` has a line
/// that says why, if there is memory for it.
pub fn run_explained<R: Read + Drop, W: Write>(
    alloc: Global,
    reader: R,
    writer: &mut W,
    reason: &mut String,
) -> u8
    ensures status { result ≢ 1 → HasStatus (R.remaining reader) result }
    ensures prints { result ≢ 1 → Prints (W.contents writer.old) (W.contents writer.new)
        (RunsScript (R.remaining reader) result) }
{
    match run_lines(alloc, reader, writer, reason) {
        Ok(status) => status,
        Err(_) => 1,
    }
}

/// Runs the lines of the reader, and writes their replies. Returns the exit status.
fn run_lines<R: Read + Drop, W: Write>(
    alloc: Global,
    reader: R,
    writer: &mut W,
    reason: &mut String,
) -> io::Result<u8>
    ensures { IfOk result (λ status. Prints (W.contents writer.old) (W.contents writer.new)
        (RunsScript (R.remaining reader) status)) }
{
    let mut dialogue = Dialogue::new(alloc, reader)?;
    let ended = answer_lines(alloc, &mut dialogue, writer, reason);
    // The replies so far are written even after an error.
    write_out(&mut dialogue.replies, writer)?;
    ended
}

/// Runs one line after another, and returns the exit status.
fn answer_lines<R: Read, W: Write>(
    alloc: Global,
    dialogue: &mut Dialogue<R>,
    writer: &mut W,
    reason: &mut String,
) -> io::Result<u8>
    ensures ok { IfOk result (λ status. Prints
        (contents (W.contents writer.old) dialogue.old)
        (contents (W.contents writer.new) dialogue.new)
        (RunsScript (unread R.remaining dialogue.old) status)) }
    ensures err { OnErr result (BreaksOff
        (unread R.remaining dialogue.old) (unread R.remaining dialogue.new)
        (contents (W.contents writer.old) dialogue.old)
        (contents (W.contents writer.new) dialogue.new)) }
{
    let mut line = Vec::new(alloc);
    let mut engine = Engine::new();
    for passed in 0..u64::MAX {
        let is_last = dialogue.read_line(&mut line, writer)?;
        let replies = &mut dialogue.replies;
        if !answer_line(alloc, &mut engine, passed + 1, &line, replies)? {
            explain(reason, passed + 1, &line);
            return Ok(2);
        }
        if is_last {
            return Ok(0);
        }
    }
    Ok(1)
}

/// Says why the line with a number cannot be run, or nothing if there is no memory to say it.
fn explain(reason: &mut String, number: u64, line: &[u8]) {
    if reason::push_reason(reason, number, line).is_err() {
        reason.clear();
    }
}

/// Runs the line with a number, or names it if it cannot be run. Returns whether it could be run.
fn answer_line<W: Write>(
    alloc: Global,
    engine: &mut Engine,
    number: u64,
    line: &[u8],
    replies: &mut W,
) -> io::Result<bool>
    ensures answered { IfOk result (λ runs.
        Prints (W.contents replies.old) (W.contents replies.new)
        (AnswersLine number (engine_state engine.old) line.now runs (engine_state engine.new))) }
    ensures unchanged { IfOk result (λ runs. OnFalse runs (engine.new ≡ engine.old)) }
    ensures fault { OnErr result (IsLeftByFault (RunsLine (engine_state engine.old) line.now)
        (engine_state engine.old) (engine_state engine.new)) }
{
    match command::parse(alloc, line) {
        Ok(None) => Ok(true),
        Ok(Some(command)) => {
            if run_command(alloc, engine, command, replies)? {
                return Ok(true);
            }
            reply::write_bad_line(replies, number)?;
            Ok(false)
        }
        Err(LineError::BadLine) => {
            reply::write_bad_line(replies, number)?;
            Ok(false)
        }
        Err(LineError::OutOfMemory(error)) => Err(io::Error::from(error)),
    }
}

/// Runs a command. Returns whether it could be run: a step cannot before any `init`.
fn run_command<W: Write>(
    alloc: Global,
    engine: &mut Engine,
    command: Command,
    replies: &mut W,
) -> io::Result<bool>
    ensures runs { IfOk result (λ runs. OnTrue runs
        (Prints (W.contents replies.old) (W.contents replies.new)
        (RunsCommand (engine_state engine.old) command (engine_state engine.new)))) }
    ensures too_early { IfOk result (λ runs. OnFalse runs
        (IsStepTooEarly (engine_state engine.old) command)) }
    ensures silent { IfOk result (λ runs. OnFalse runs (replies.new ≡ replies.old)) }
    ensures unchanged { IfOk result (λ runs. OnFalse runs (engine.new ≡ engine.old)) }
    ensures fault { OnErr result (IsLeftByFault (RunsCommand (engine_state engine.old) command)
        (engine_state engine.old) (engine_state engine.new)) }
{
    match command {
        Command::Init {
            default,
            configs,
            learners,
        } => {
            if engine.init(default, configs, learners).is_err() {
                reply::write(replies, &Reply::OutOfMemory)?;
            }
        }
        Command::Step(step) => {
            let Some(answer) = engine.answer(alloc, step)? else {
                return Ok(false);
            };
            reply::write(replies, &answer)?;
        }
    }
    Ok(true)
}
