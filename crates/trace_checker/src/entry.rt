//! The entries of recorded logs.
ghost use Rattle.safety_laws.specs.Log.{Entry as LogEntry};

use std::marker::Model;

/// An entry of a log: the term of the leader that wrote it, and its content.
///
/// A hash of the command is enough as the content of an entry, if equal commands at one index need
/// not be told apart.
#[derive(Debug, Clone, Copy)]
pub struct Entry<T, D> {
    /// The term of the leader that wrote the entry.
    pub term: T,
    /// The content of the entry.
    pub content: D,
}

impl<T, D> Model for Entry<T, D> {
    ghost Value = { LogEntry T D };

    ghost view = { λ e. record { term = e.term; content = e.content } };

    ghost inverse = { λ e. record { term = e.term; content = e.content } };
}
