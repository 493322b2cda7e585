//! Reads a script of a membership and its progress from standard input, and writes a reply to each
//! step.
#![tactic(auto)]

mod script;
#[cfg(test)]
mod tests;

use std::process::ExitCode;
use std::{env, io};

/// What the program is for, and how it is called.
const USAGE: &str = "\
Usage: raft-state < SCRIPT

Reads a script from standard input, and answers each step of it with one line. It takes no words
but --help or -h, which print this text. These are the lines of a script:

    init <default> <configs> <learners>
    update <id> <value>
    increase <id> <value>
    change <kind> <list> <retain or drop> <default>

A list is - or ids joined by commas, and configs are none or lists joined by slashes. The kinds are
add-ids, add, remove, replace, add-nodes, set-nodes, remove-nodes and replace-nodes. The status is 0
at the end of the script, 2 after a line that cannot be run, 2 at once if there are other words on
the command line, and 1 after an error.
";

fn main(rt: HostRuntime) -> ExitCode {
    let status = run(&rt).unwrap_or(1);
    if status == 1 {
        let _ = rt.eprintln("fault");
    }
    ExitCode::from(status)
}

/// Does what the command line asks for. Returns the exit status.
fn run(rt: &HostRuntime) -> io::Result<u8> {
    match env::args(rt)?.nth(1) {
        None => Ok(run_script(rt)),
        Some(word) if word.as_str() == "--help" || word.as_str() == "-h" => {
            rt.print(USAGE)?;
            Ok(0)
        }
        Some(_) => {
            let _ = rt.eprint(USAGE);
            Ok(2)
        }
    }
}

/// Runs the script of standard input. After a line that cannot be run it says why. Returns the exit
/// status.
fn run_script(rt: &HostRuntime) -> u8 {
    let mut writer = io::writer(rt);
    let mut reason = String::new(rt.alloc());
    let status = script::run_explained(rt.alloc(), rt.reader(), &mut writer, &mut reason);
    if status == 2 {
        let _ = rt.eprint(reason.as_str());
    }
    status
}
