//! The lines of an input.
ghost use Rattle.std.specs.Prelude.{◌≡◌, [], ◌∷◌, ◌++◌, IfOk, IsTrue, option_map, true};
ghost use Rattle.trace_lines.specs.Lines.{lines};
ghost use Rattle.trace_lines.specs.Reader.{KeepsLines};
ghost use Rattle.trace_judge.specs.Input.{IsReadToEnd, known_of, read_of};

use crate::fault::Fault;
use std::alloc::{AllocError, Global};
use std::io::{self, BufRead};
use trace_lines::LineReader;

/// The lines of an input, which are read one by one.
#[derive(Drop)]
pub struct Lines<B> {
    /// The reader of the input.
    pub(crate) reader: LineReader<B>,
    /// The name of the input in answers, if it has one.
    pub(crate) name: Option<String>,
    /// Why the pending line waits, if it was refused.
    pub(crate) wait: Option<Wait>,
}

/// Why a line waits.
#[derive(Clone, Copy)]
pub struct Wait {
    /// How many events were taken before the line was first refused.
    pub since: u64,
    /// Why the line was refused the last time.
    pub fault: Fault,
}

impl<B: BufRead> Lines<B> {
    /// Returns the lines of an input. Answers call the input by its name, if it has one.
    pub fn new(alloc: Global, input: B, name: Option<String>) -> Lines<B>
        ensures none { read_of result ≡ [] }
        ensures known { known_of B.remaining result ≡ option_map lines (B.remaining input) }
    {
        Lines {
            reader: LineReader::new(alloc, input),
            name,
            wait: None,
        }
    }

    /// Reads the next line, unless one is pending. Returns whether one is pending then.
    pub(crate) fn has_next(&mut self) -> io::Result<bool>
        ensures pending { IfOk result (λ is_pending. self.new.reader.is_pending ≡ is_pending) }
        ensures none_passed { read_of self.new ≡ read_of self.old }
        ensures known { IfOk result (λ _. KeepsLines B.remaining self.old.reader self.new.reader) }
        ensures waits { self.old.reader.is_pending ≡ true → self.new.reader ≡ self.old.reader }
    {
        self.reader.has_next()
    }

    /// Goes on after the pending line, which was taken.
    pub(crate) fn pass(&mut self)
        requires { self.old.reader.is_pending ≡ true }
        ensures passed { read_of self.new ≡ read_of self.old ++ self.old.reader.line.items ∷ [] }
        ensures known { KeepsLines B.remaining self.old.reader self.new.reader }
    {
        self.reader.pass();
        self.wait = None;
    }
}

impl<B> Lines<B> {
    /// Keeps the pending line, which was refused after so many events.
    pub(crate) fn refuse(&mut self, events: u64, fault: Fault)
        ensures { self.new.reader ≡ self.old.reader }
    {
        let since = match self.wait {
            Some(wait) => wait.since,
            None => events,
        };
        self.wait = Some(Wait { since, fault });
    }

    /// Whether the list was read to its end, and no line is pending.
    pub(crate) fn is_ended(&self) -> bool
        ensures ended { IsTrue result → IsReadToEnd self.now }
        ensures if_ended { IsReadToEnd self.now → IsTrue result }
    {
        self.reader.is_at_end()
    }

    /// Returns the line that was read last, without its line feed.
    pub(crate) fn line(&self) -> &[u8]
        ensures { result.now ≡ self.now.reader.line.items }
    {
        self.reader.line()
    }

    /// Returns the number of this line, from 1 on.
    pub(crate) fn number(&self) -> u64 {
        self.reader.number()
    }

    /// Writes the place of the line, such as `line 9: `, or `PATH:9: ` if the input has a name.
    pub(crate) fn push_place(&self, answer: &mut String) -> Result<(), AllocError> {
        match &self.name {
            Some(name) => write!(answer, "{name}:{}: ", self.number())?,
            None => write!(answer, "line {}: ", self.number())?,
        }
        Ok(())
    }

    /// Returns the name of the input, if it has one.
    pub(crate) fn path(&self) -> Option<&str> {
        match &self.name {
            Some(name) => Some(name.as_str()),
            None => None,
        }
    }

    /// Returns the name of the input in answers.
    pub(crate) fn name(&self) -> &str {
        match &self.name {
            Some(name) => name.as_str(),
            None => "standard input",
        }
    }
}
