//! Reads the lines of an input, one after the other.
//!
//! A `LineReader` reads the lines of an input, and proofs know which lines it has passed.
//! `read_line` reads one line, and returns whether it is the last one. Its contract says which
//! bytes the line has, and which bytes of the input are left.
#![tactic(auto)]

ghost use Rattle.std.specs.Prelude.{IfOk, OnErr};
ghost use Rattle.std.specs.Io.KnownBytes.{Consumes};
ghost use Rattle.trace_lines.specs.Lines.{TakesLine};

mod passed;
mod reader;

pub use reader::LineReader;
use std::io::{self, BufRead};

/// Reads a line without its line feed. Returns whether it is the last one.
///
/// Returns an error if the input cannot be read, or if there is no memory for the line. Then `line`
/// has the bytes that were read before the error.
///
/// The lines of an input are the parts between its line feeds. So the last line is empty if the
/// input is empty or ends in a line feed.
pub fn read_line<B: BufRead>(input: &mut B, line: &mut Vec<u8>) -> io::Result<bool>
    ensures line { IfOk result (λ is_last.
        TakesLine (B.remaining input.old) line.new.items is_last (B.remaining input.new)) }
    ensures none_lost { OnErr result
        (Consumes (B.remaining input.old) (B.remaining input.new) line.new.items) }
{
    line.clear();
    input.read_until(b'\n', line)?;
    // Only the last line has no line feed.
    Ok(line.pop_if(|byte| *byte == b'\n').is_none())
}
