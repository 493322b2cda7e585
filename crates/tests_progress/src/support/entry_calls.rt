//! Calls of an entry, and what they answer.

use raft_base::LogIdOf;
use raft_progress::entry::ProgressEntryOf;
use raft_progress::inflight::{InflightError, InflightOf};
use tests_support::plain_log::{Numbered, PlainLog};

/// A call on an entry: a send of so many logs at most, an ack up
/// to a log id, a conflict at an index.
#[derive(Clone, Copy)]
pub enum Call<C> {
    Send(u64),
    Ack(u64, Option<LogIdOf<C>>),
    Conflict(Option<u64>, u64),
}

/// What a call answers.
#[derive(Clone, Copy, PartialEq)]
pub enum Answer<C> {
    /// A send whose condition does not hold.
    NotAllowed,
    Sent(Result<InflightOf<C>, InflightOf<C>>),
    Taken(Result<(), InflightError>),
}

/// Makes a call, where it is allowed.
pub fn answer_of<C: Numbered>(
    entry: &mut ProgressEntryOf<C>,
    log: &PlainLog<C>,
    call: Call<C>,
) -> Answer<C> {
    match call {
        Call::Send(max_entries) => {
            if !entry.can_send(log) {
                return Answer::NotAllowed;
            }
            match entry.next_send(log, max_entries) {
                Ok(sending) => Answer::Sent(Ok(*sending)),
                Err(sending) => Answer::Sent(Err(*sending)),
            }
        }
        Call::Ack(id, matching) => Answer::Taken(entry.update_matching(id, matching)),
        Call::Conflict(id, index) => Answer::Taken(entry.update_conflicting(id, index)),
    }
}
