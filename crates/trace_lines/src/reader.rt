//! An input that is read line by line.
ghost use Rattle.std.specs.Prelude.{◌≡◌, [], ◌∷◌, ◌++◌, ℕ, List, IfOk, IsTrue, Some, None, option_map, true};
ghost use Rattle.trace_lines.specs.Lines.{lines};
ghost use Rattle.trace_lines.specs.Reader.{IsAtEnd, KeepsLines, lines_of, lines_read};

use crate::passed::Passed;
use crate::read_line;
use std::alloc::Global;
use std::io::{self, BufRead};

/// An input that is read line by line. Proofs know which lines were read, also if no contract says
/// which bytes the input has.
#[derive(Drop)]
pub struct LineReader<B> {
    /// The input after the lines that were read.
    input: B,
    /// The line that was read last, without its line feed.
    line: Vec<u8>,
    /// The number of this line, from 1 on.
    number: u64,
    /// Whether this line is still to be passed.
    is_pending: bool,
    /// Whether this line is the last one.
    is_last: bool,
    /// The lines that were passed.
    passed: Passed,
}

impl<B: BufRead> LineReader<B> {
    /// Returns a reader that has read no line of an input.
    pub fn new(alloc: Global, input: B) -> LineReader<B>
        ensures none { lines_read result ≡ [] }
        ensures known { lines_of B.remaining result ≡ option_map lines (B.remaining input) }
    {
        LineReader {
            input,
            line: Vec::new(alloc),
            number: 0,
            is_pending: false,
            is_last: false,
            passed: Passed::none(),
        }
    }

    /// Reads the next line, unless one is pending. Returns whether one is pending then. If none is,
    /// the reader has passed the last line.
    ///
    /// Returns an error if the input cannot be read, or if there is no memory for the line. What was
    /// passed stays as it was.
    pub fn has_next(&mut self) -> io::Result<bool>
        ensures pending { IfOk result (λ is_pending. self.new.is_pending ≡ is_pending) }
        ensures none_passed { lines_read self.new ≡ lines_read self.old }
        ensures known { IfOk result (λ _. KeepsLines B.remaining self.old self.new) }
        ensures waits { self.old.is_pending ≡ true → self.new ≡ self.old }
    {
        if !self.is_pending && !self.is_last {
            self.is_last = read_line(&mut self.input, &mut self.line)?;
            self.is_pending = true;
            self.number = self.number.saturating_add(1);
        }
        Ok(self.is_pending)
    }

    /// Passes the pending line.
    pub fn pass(&mut self)
        requires { self.old.is_pending ≡ true }
        ensures passed { lines_read self.new ≡ lines_read self.old ++ self.old.line.items ∷ [] }
        ensures known { KeepsLines B.remaining self.old self.new }
    {
        self.is_pending = false;
        self.passed = self.passed.and(&self.line);
    }
}

impl<B> LineReader<B> {
    /// Whether the last line was passed.
    pub fn is_at_end(&self) -> bool
        ensures at_end { IsTrue result → IsAtEnd self.now }
        ensures if_at_end { IsAtEnd self.now → IsTrue result }
    {
        !self.is_pending && self.is_last
    }

    /// Returns the line that was read last, without its line feed.
    pub fn line(&self) -> &[u8]
        ensures { result.now ≡ self.now.line.items }
    {
        self.line.as_slice()
    }

    /// Returns the number of this line. The first line of the input has the number 1.
    pub fn number(&self) -> u64 {
        self.number
    }
}
