//! Why a line cannot be run, for the person who has written the script.

use super::command::{LineError, Words, change_of, configs, list, number};
use std::alloc::{AllocError, Global};
use std::collections::BTreeSet;

/// How many bytes of a word are shown at most.
const SHOWN: usize = 40;

/// What a word has to be at its place.
#[derive(Clone, Copy)]
enum Form {
    Number,
    List,
    Configs,
    Kind,
    Retain,
}

impl Form {
    /// Whether a word is of this form.
    fn fits(self, alloc: Global, word: &[u8]) -> Result<bool, AllocError> {
        match self {
            Form::Number => Ok(number(word).is_some()),
            Form::List => is_read(list(alloc, word)),
            Form::Configs => is_read(configs(alloc, word)),
            Form::Kind => is_read(change_of(alloc, word, BTreeSet::new(alloc))),
            Form::Retain => is_read(Words { rest: word }.retain()),
        }
    }

    /// Returns what is said of a word that is not of this form.
    fn refusal(self) -> &'static str {
        match self {
            Form::Number => "is no number",
            Form::List => "is no list",
            Form::Configs => "is no list of configs",
            Form::Kind => "is no kind of change",
            Form::Retain => "is neither `retain` nor `drop`",
        }
    }
}

/// Whether a word was read.
fn is_read<T: Drop>(read: Result<T, LineError>) -> Result<bool, AllocError> {
    match read {
        Ok(_) => Ok(true),
        Err(LineError::BadLine) => Ok(false),
        Err(LineError::OutOfMemory(error)) => Err(error),
    }
}

/// Appends a line that says why the line with a number cannot be run: the first word that does not
/// fit, or, if all words fit, that no `init` has succeeded before the step.
pub fn push_reason(reason: &mut String, number: u64, line: &[u8]) -> Result<(), AllocError> {
    write!(reason, "line {number}: ")?;
    let mut words = Words { rest: line };
    let name = words.next().unwrap_or(b"");
    match name {
        b"init" => push_fault(reason, words, &[Form::Number, Form::Configs, Form::List]),
        b"update" | b"increase" => push_fault(reason, words, &[Form::Number, Form::Number]),
        b"change" => push_fault(
            reason,
            words,
            &[Form::Kind, Form::List, Form::Retain, Form::Number],
        ),
        _ => push_word(reason, name, "is no command"),
    }
}

/// Says which of the words after the name of a command is not of its form, or that there are too
/// few or too many words. If there is nothing wrong with them, the command is a step that comes too
/// early.
fn push_fault(reason: &mut String, mut words: Words<'_>, forms: &[Form]) -> Result<(), AllocError> {
    for form in forms {
        let Some(word) = words.next() else {
            return reason.push_str("a word is missing at the end\n");
        };
        if !form.fits(*reason.allocator(), word)? {
            return push_word(reason, word, form.refusal());
        }
    }
    match words.next() {
        Some(word) => push_word(reason, word, "is one word too many"),
        None => reason.push_str("no `init` has succeeded before this step\n"),
    }
}

/// Says something of a word. Bytes that are not printable are escaped, and a long word is cut.
fn push_word(reason: &mut String, word: &[u8], what: &str) -> Result<(), AllocError> {
    let (shown, rest) = word.split_at(word.len().min(SHOWN));
    let dots = if rest.is_empty() { "" } else { ".." };
    writeln!(reason, "`{}{dots}` {what}", shown.escape_ascii())
}
