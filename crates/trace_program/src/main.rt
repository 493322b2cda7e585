//! Judges a recorded run of a Raft cluster: one event a line, as JSON.
#![tactic(auto)]

ghost use Rattle.std.specs.Prelude.{◌≡◌, ◌≤◌, [], ℕ, List, IfOk, map};
ghost use Rattle.std.specs.List.{All};
ghost use Rattle.trace_judge.specs.Input.{IsReadToEnd, WaitsWith, read_of};
ghost use Rattle.trace_judge.specs.Lists.{HaveSafeMerge};
ghost use Rattle.trace_judge.specs.Numbers.{number_tests};

mod words;

use clap::ArgMatches;
use std::alloc::AllocError;
use std::env::{Env as _, FillError};
use std::fs::File;
use std::io::{BufReader, Read, Stdin};
use std::process::ExitCode;
use std::{env, io, str};
use trace_judge::{Lines, Progress, run};

/// Where lines come from.
#[derive(Drop)]
enum Source {
    /// Standard input.
    Input(Stdin),
    /// A file.
    File(File),
}

impl Read for Source {
    fn read(&mut self, buf: &mut [u8]) -> io::Result<usize> {
        match self {
            Source::Input(input) => input.read(buf),
            Source::File(file) => file.read(buf),
        }
    }
}

/// How long a path is at most.
const LONGEST: usize = 4096;

/// The lines of a source, which is read ahead.
type SourceLines = Lines<BufReader<Source>>;

fn main(rt: HostRuntime) -> ExitCode {
    match run_words(&rt) {
        Ok(status) => ExitCode::from(status),
        Err(error) => {
            // If standard error is closed, the status says enough.
            let _ = eprintln!(rt; "raft_trace: {error}");
            ExitCode::from(3)
        }
    }
}

/// Does what the command line asks for. Returns the exit status.
fn run_words(rt: &HostRuntime) -> io::Result<u8> {
    let args = match env::args(rt) {
        Ok(args) => args,
        Err(error) if error.kind() == io::ErrorKind::InvalidData => return refuse_words(rt),
        Err(error) => return Err(error),
    };
    let words: Vec<String> = args.collect(rt.alloc())?;
    match words::parsed(rt.alloc(), words.as_slice()) {
        Ok(matches) => judge_files(rt, &matches),
        Err(error) => {
            let status = words::status_of(&error);
            match error.print(rt) {
                // If standard error is closed, the status says enough.
                Err(error) if status == 0 => Err(error),
                _ => Ok(status),
            }
        }
    }
}

/// Says which words of the command line are no UTF-8. Returns the exit status.
fn refuse_words(rt: &HostRuntime) -> io::Result<u8> {
    let mut bytes = [0; LONGEST];
    for i in 0..usize::MAX {
        match rt.arg(i, &mut bytes) {
            Ok(len) => {
                let word = &bytes[..len];
                if str::from_utf8(word).is_err() {
                    let shown = String::from_utf8_lossy(rt.alloc(), word)?;
                    let _ = eprintln!(rt; "raft_trace: {shown}: the word is no UTF-8");
                }
            }
            Err(FillError::TooLong) => {}
            Err(FillError::NotPresent) => break,
        }
    }
    Ok(2)
}

/// Judges the files that the command line names, or standard input if there is none. Returns the
/// exit status.
fn judge_files(rt: &HostRuntime, matches: &ArgMatches<'_>) -> io::Result<u8> {
    let mut lists = Vec::new(rt.alloc());
    for file in matches.get_strs(words::FILES).unwrap_or(&[]) {
        match source_of(rt, file) {
            Ok(source) => {
                let name = String::from_str(rt.alloc(), file)?;
                lists.push(lines_of(rt, source, Some(name))?)?;
            }
            Err(error) => {
                let _ = eprintln!(rt; "raft_trace: {file}: {error}");
                return Ok(2);
            }
        }
    }
    if lists.is_empty() {
        lists.push(lines_of(rt, Source::Input(rt.stdin()), None)?)?;
    }
    judge_lists(rt, &mut lists, matches.get_flag(words::CHART))
}

/// Opens the source that a word of the command line names.
fn source_of(rt: &HostRuntime, word: &str) -> io::Result<Source> {
    if word == "-" {
        Ok(Source::Input(rt.stdin()))
    } else {
        Ok(Source::File(File::open(rt, word)?))
    }
}

/// Returns the lines of a source.
fn lines_of(rt: &HostRuntime, source: Source, name: Option<String>) -> io::Result<SourceLines> {
    let input = BufReader::new(rt.alloc(), source)?;
    Ok(Lines::new(rt.alloc(), input, name))
}

/// Judges lists of lines, and prints the answer, after a chart if that is wanted. Returns the exit
/// status. If it is 0, the lists were read to their ends, and what was read is a safe run.
fn judge_lists(rt: &HostRuntime, lists: &mut [SourceLines], is_drawn: bool) -> io::Result<u8>
    ensures ended { IfOk result (λ status. status ≡ 0 → All IsReadToEnd lists.new) }
    ensures waits { IfOk result (λ status. status ≡ 1 → All IsReadToEnd lists.new → ⊥) }
    ensures safe { IfOk result (λ status. status ≡ 0 →
        HaveSafeMerge number_tests [] (map read_of lists.old) (map read_of lists.new)) }
    ensures so_far { IfOk result (λ status. status ≤ 1 → (waiting : List (List ℕ)) →
        All (WaitsWith waiting) lists.new →
        HaveSafeMerge number_tests waiting (map read_of lists.old) (map read_of lists.new)) }
{
    let mut answer = String::new(rt.alloc());
    let progress = Progress::on(rt.stderr());
    let status = run::run(rt.alloc(), lists, progress, is_drawn, &mut answer);
    if answer.is_empty() {
        return Err(io::Error::from(AllocError));
    }
    rt.print(answer.as_str())?;
    Ok(status)
}
