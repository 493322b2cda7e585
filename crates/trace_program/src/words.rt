//! The words of the command line.
use clap::error::ErrorKind;
use clap::{Arg, ArgAction, ArgMatches, Command, Error};
use std::alloc::Global;

/// The name of the program.
const PROGRAM: &str = "raft_trace";

/// What the program is for.
const ABOUT: &str = "\
Judges a recorded run of a Raft cluster. It reads one event a line, as JSON, from the files, or from
standard input without any. The events of a file are in their order, and no order between files is
needed, so each process may write its own file.";

/// An example, and what an exit status says.
const EXAMPLE: &str = "\
Example of a run:
    {\"event\":\"started\",\"voters\":[[1,2,3]],\"first\":1}
    {\"event\":\"campaigned\",\"server\":1,\"term\":1}
    {\"event\":\"granted\",\"server\":2,\"term\":1,\"candidate\":1}
    {\"event\":\"wrote\",\"leader\":1,\"term\":1,\"index\":1,\"content\":7}
    {\"event\":\"appended\",\"server\":2,\"term\":1,\"leader\":1,\"prev\":0,\"entries\":[[1,7]]}
    {\"event\":\"acked\",\"server\":2,\"term\":1,\"leader\":1,\"index\":1}
    {\"event\":\"committed\",\"leader\":1,\"term\":1,\"index\":1}
    {\"event\":\"applied\",\"server\":2,\"index\":1}
    {\"event\":\"restarted\",\"server\":2,\"index\":1}

The status is 0 if the run is safe, and 1 if the next event of every file breaks a rule. It is 2 at a
line that is no event, if no cluster can start as the first line says, and at a word of the command
line that is wrong or names a file that cannot be opened. It is 3 if a file cannot be read, or if
there is no memory. The page docs/TRACES.md describes the events.";

/// The files, as the matches name them.
pub(crate) const FILES: &str = "files";

/// Whether the run is drawn, as the matches name it.
pub(crate) const CHART: &str = "chart";

/// Returns what the words of a command line say.
///
/// # Errors
/// `--help` and `-h` are errors with the help as their text. A word that is wrong is one, and so is
/// a refused allocation.
pub(crate) fn parsed<'a>(alloc: Global, words: &'a [String]) -> Result<ArgMatches<'a>, Error> {
    let files = Arg::new(alloc, FILES)
        .value_name("FILE")
        .num_args(0..)
        .help("The events of a process; - is standard input");
    let chart = Arg::new(alloc, CHART)
        .long(CHART)
        .action(ArgAction::SetTrue)
        .help("Draw the run before the answer");
    let command = Command::new(alloc, PROGRAM)
        // The name of the file is that of the crate, and not that of the program.
        .bin_name(PROGRAM)?
        .about(ABOUT)
        .after_help(EXAMPLE)
        .arg(chart)?
        .arg(files)?;
    command.try_get_matches_from(words)
}

/// Returns the exit status for words that are not matched.
pub(crate) fn status_of(error: &Error) -> u8 {
    match error.kind() {
        ErrorKind::DisplayHelp => 0,
        ErrorKind::OutOfMemory => 3,
        _ => 2,
    }
}
