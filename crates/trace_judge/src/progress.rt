//! How far a long run is judged.

use std::io::{IsTerminal, Stderr, Write};

/// How many lines make a step that is worth a line on a terminal.
const STEP: u64 = 1_000_000;

/// Says on a terminal how many lines are judged.
#[derive(Clone, Copy)]
pub struct Progress {
    /// The terminal, if there is one.
    terminal: Option<Stderr>,
    /// How many lines are judged.
    lines: u64,
}

impl Progress {
    /// Returns the progress of no line, which says nothing.
    pub fn silent() -> Progress {
        Progress {
            terminal: None,
            lines: 0,
        }
    }

    /// Returns the progress of no line, which is said on standard error if that is a terminal.
    pub fn on(stderr: Stderr) -> Progress {
        Progress {
            terminal: stderr.is_terminal().then_some(stderr),
            lines: 0,
        }
    }

    /// Counts a line. Says after each million how many there are.
    pub(crate) fn note(&mut self) {
        self.lines = self.lines.saturating_add(1);
        if self.lines % STEP != 0 {
            return;
        }
        if let Some(stderr) = &mut self.terminal {
            // The answer does not depend on whether the terminal takes this.
            let _ = writeln!(stderr, "{},000,000 lines", self.lines / STEP);
        }
    }
}
