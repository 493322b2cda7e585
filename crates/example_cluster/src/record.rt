//! The record of a cluster: what its servers have done, one event a line, as JSON that `raft_trace`
//! judges.
//!
//! A log of the laws has no entry 0, so the first entry that a leader writes has index 1, and an
//! index is a number of first entries.

use crate::types::CommittedLeaderId;
use std::alloc::{AllocError, Global};
use std::collections::BTreeMap;
use trace_checker::entry::Entry as LawEntry;
use trace_checker::event::Event;
use trace_checker::term::Term as _;

/// A term of the laws: the committed leader id of a leader.
pub type Term = CommittedLeaderId;

/// An entry: its term, and a number for what it holds.
pub type Entry = LawEntry<Term, u64>;

/// An act of a server.
pub type Act = Event<Term, u64, u64>;

/// The first line of each list. The first three servers are the first voters.
const STARTED: &str = "{\"event\":\"started\",\"voters\":[[1,2,3]],\"first\":1}\n";

/// Lists of lines, and what the entries of memberships hold.
#[derive(Drop)]
pub struct Record {
    /// No list, one list for all servers, or a list for each server.
    lists: Vec<String>,
    /// The voters of each membership as JSON, by the number that stands for it in an entry.
    voters: BTreeMap<u64, String>,
}

impl Record {
    /// Returns so many lists, in which the cluster has only started.
    pub fn new(alloc: Global, lists: u64) -> Result<Self, AllocError> {
        let mut record = Record {
            lists: Vec::new(alloc),
            voters: BTreeMap::new(alloc),
        };
        for _ in 0..lists {
            record.lists.push(String::from_str(alloc, STARTED)?)?;
        }
        Ok(record)
    }

    /// Returns the lists.
    pub fn lists(&self) -> &[String] {
        &self.lists
    }

    /// Takes note of what a membership's number means.
    pub fn name(&mut self, number: u64, configs: &[Vec<u64>]) -> Result<(), AllocError> {
        if self.lists.is_empty() {
            return Ok(());
        }
        let mut text = String::new(*self.lists.allocator());
        push_configs(&mut text, configs)?;
        self.voters.insert(number, text)?;
        Ok(())
    }

    /// Adds the line of an act to the list of its server, or to the only list. `log` is the log of
    /// the server after the event.
    pub fn push(&mut self, act: &Act, log: &[Entry]) -> Result<(), AllocError> {
        let others = self.lists.len().saturating_sub(1);
        let place = server_of(act).saturating_sub(1) as usize;
        match self.lists.get_mut(place.min(others)) {
            Some(list) => push_line(list, act, log, &self.voters),
            None => Ok(()),
        }
    }
}

/// Returns the server that has done an act.
fn server_of(act: &Act) -> u64 {
    match act {
        Event::Campaigned { server, .. }
        | Event::Granted { server, .. }
        | Event::Appended { server, .. }
        | Event::Acked { server, .. }
        | Event::Restarted { server, .. }
        | Event::Applied { server, .. } => *server,
        Event::Wrote { leader, .. } | Event::Committed { leader, .. } => *leader,
    }
}

/// Returns a number below 2^64 for a term, by which terms are ordered. A rank is a term number, or
/// a term times 2^64 and a node, of which there are less than sixteen.
fn number_of(term: Term) -> u64 {
    let rank = term.rank();
    let (term, node) = (
        rank / 0x1_0000_0000_0000_0000,
        rank % 0x1_0000_0000_0000_0000,
    );
    (term as u64).saturating_mul(16).saturating_add(node as u64)
}

/// Returns the index of an entry of a log: of the last one, if equal entries are in the log.
fn index_of(log: &[Entry], entry: &Entry) -> usize {
    let mut index = log.len();
    for other in log.iter().rev() {
        if other.term == entry.term && other.content == entry.content {
            break;
        }
        index = index.saturating_sub(1);
    }
    index
}

/// Writes the line of an act.
fn push_line(
    list: &mut String,
    act: &Act,
    log: &[Entry],
    voters: &BTreeMap<u64, String>,
) -> Result<(), AllocError> {
    match act {
        Event::Campaigned { server, term } => writeln!(
            list,
            "{{\"event\":\"campaigned\",\"server\":{server},\"term\":{}}}",
            number_of(*term)
        )?,
        Event::Granted {
            server,
            term,
            candidate,
        } => writeln!(
            list,
            "{{\"event\":\"granted\",\"server\":{server},\"term\":{},\"candidate\":{candidate}}}",
            number_of(*term)
        )?,
        Event::Wrote {
            leader,
            term,
            entry,
        } => {
            write!(
                list,
                "{{\"event\":\"wrote\",\"leader\":{leader},\"term\":{},\"index\":{},\"content\":{}",
                number_of(*term),
                index_of(log, entry),
                entry.content
            )?;
            if let Some(configs) = voters.get(&entry.content) {
                write!(list, ",\"voters\":{configs}")?;
            }
            writeln!(list, "}}")?;
        }
        Event::Appended {
            server,
            term,
            leader,
            keep,
            entries,
        } => {
            write!(
                list,
                "{{\"event\":\"appended\",\"server\":{server},\"term\":{},\"leader\":{leader},\"prev\":{keep}",
                number_of(*term)
            )?;
            push_entries(list, entries)?;
            writeln!(list, "}}")?;
        }
        Event::Acked {
            server,
            term,
            leader,
            len,
        } => writeln!(
            list,
            "{{\"event\":\"acked\",\"server\":{server},\"term\":{},\"leader\":{leader},\"index\":{len}}}",
            number_of(*term)
        )?,
        Event::Committed {
            leader,
            term,
            len,
            ..
        } => writeln!(
            list,
            "{{\"event\":\"committed\",\"leader\":{leader},\"term\":{},\"index\":{len}}}",
            number_of(*term)
        )?,
        Event::Applied { server, len, .. } => writeln!(
            list,
            "{{\"event\":\"applied\",\"server\":{server},\"index\":{len}}}"
        )?,
        Event::Restarted { server, len } => {
            write!(
                list,
                "{{\"event\":\"restarted\",\"server\":{server},\"index\":{len}"
            )?;
            if let Some(last) = len.checked_sub(1).and_then(|place| log.get(place)) {
                write!(list, ",\"last_term\":{}", number_of(last.term))?;
            }
            writeln!(list, "}}")?;
        }
    }
    Ok(())
}

/// Writes the field `entries`: for each entry its term and its content.
fn push_entries(list: &mut String, entries: &[Entry]) -> Result<(), AllocError> {
    list.push_str(",\"entries\":[")?;
    for (place, entry) in entries.iter().enumerate() {
        if place > 0 {
            list.push(',')?;
        }
        write!(list, "[{},{}]", number_of(entry.term), entry.content)?;
    }
    list.push(']')
}

/// Writes the voters of configs.
fn push_configs(text: &mut String, configs: &[Vec<u64>]) -> Result<(), AllocError> {
    text.push('[')?;
    for (place, config) in configs.iter().enumerate() {
        if place > 0 {
            text.push(',')?;
        }
        push_config(text, config)?;
    }
    text.push(']')
}

/// Writes the voters of a config.
fn push_config(text: &mut String, config: &[u64]) -> Result<(), AllocError> {
    text.push('[')?;
    for (place, id) in config.iter().enumerate() {
        if place > 0 {
            text.push(',')?;
        }
        write!(text, "{id}")?;
    }
    text.push(']')
}
