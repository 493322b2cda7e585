//! How much has happened.

use crate::deed::Deed;
use std::fmt;

/// How much has happened in one cluster or in several.
#[derive(Clone, Copy, Default)]
pub struct Tally {
    pub events: u64,
    pub elections: u64,
    pub changes: u64,
    pub truncations: u64,
    pub snapshots: u64,
    pub restarts: u64,
    /// How many events have happened when an entry was last committed.
    committed_at: u64,
    /// The greatest number of events from one commit, or the start, to the next, or the end.
    longest_wait: u64,
}

impl Tally {
    /// Counts an event that is about to happen.
    pub fn count_event(&mut self) {
        self.events = self.events.saturating_add(1);
        let wait = self.events.saturating_sub(self.committed_at);
        self.longest_wait = self.longest_wait.max(wait);
    }

    /// Takes note that an entry was committed in this event.
    pub fn note_commit(&mut self) {
        self.committed_at = self.events;
    }

    /// Counts a deed. A snapshot counts once a follower has installed it.
    pub fn count(&mut self, deed: Deed) {
        let number = match deed {
            Deed::Leads => &mut self.elections,
            Deed::Changes => &mut self.changes,
            Deed::Truncates(_) => &mut self.truncations,
            Deed::Installs => &mut self.snapshots,
            Deed::Restarts => &mut self.restarts,
            Deed::Compacts | Deed::Retires => return,
        };
        *number = number.saturating_add(1);
    }

    /// Counts what has happened in another cluster too.
    pub fn add(&mut self, other: &Tally) {
        self.events = self.events.saturating_add(other.events);
        self.elections = self.elections.saturating_add(other.elections);
        self.changes = self.changes.saturating_add(other.changes);
        self.truncations = self.truncations.saturating_add(other.truncations);
        self.snapshots = self.snapshots.saturating_add(other.snapshots);
        self.restarts = self.restarts.saturating_add(other.restarts);
        self.longest_wait = self.longest_wait.max(other.longest_wait);
    }
}

impl fmt::Display for Tally {
    fn fmt<W: fmt::Write>(&self, f: &mut fmt::Formatter<W>) -> fmt::Result {
        write_count(f, self.elections, "election")?;
        f.write_str(", ")?;
        write_count(f, self.changes, "membership change")?;
        f.write_str(", ")?;
        write_count(f, self.truncations, "truncation")?;
        f.write_str(", ")?;
        write_count(f, self.snapshots, "snapshot")?;
        f.write_str(", ")?;
        write_count(f, self.restarts, "restart")?;
        f.write_str("\nlongest time without a commit: ")?;
        write_count(f, self.longest_wait, "event")
    }
}

/// Writes how many things there are, by the name of one of them.
fn write_count<W: fmt::Write>(f: &mut fmt::Formatter<W>, count: u64, name: &str) -> fmt::Result {
    let ending = if count == 1 { "" } else { "s" };
    write!(f, "{} {name}{ending}", Number(count))
}

/// A number as one reads it: with a comma, or in millions.
#[derive(Clone, Copy)]
pub struct Number(pub u64);

impl fmt::Display for Number {
    fn fmt<W: fmt::Write>(&self, f: &mut fmt::Formatter<W>) -> fmt::Result {
        let number = self.0;
        let (thousands, rest) = (number / 1000, number % 1000);
        match number {
            0..=999 => write!(f, "{number}"),
            1000..=999_999 => write!(f, "{thousands},{rest:03}"),
            _ => {
                let (millions, tenths) = (thousands / 1000, thousands / 100 % 10);
                write!(f, "{millions}.{tenths} million")
            }
        }
    }
}
