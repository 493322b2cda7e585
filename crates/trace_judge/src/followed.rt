//! The leaders that servers have followed.

use crate::event::Act;
use std::alloc::{AllocError, Global};
use std::collections::{BTreeMap, BTreeSet};
use trace_checker::event::Event;

/// How many leaders are kept of a server. A server applies what one of its last leaders has
/// committed.
pub const KEPT: usize = 4;

/// A leader that a server has followed.
#[derive(Clone, Copy)]
pub struct Followed {
    /// The term of the leader.
    pub term: u64,
    /// The leader.
    pub leader: u64,
    /// How many first entries the server has acknowledged to the leader.
    pub acked: usize,
}

/// The last leaders that each server has followed.
#[derive(Drop)]
pub struct Followers {
    /// The leaders of each server, the last one at the end.
    servers: BTreeMap<u64, Vec<Followed>>,
    /// The servers that have restarted, and have acknowledged nothing since.
    silent: BTreeSet<u64>,
    alloc: Global,
}

impl Followers {
    /// Returns that no server has followed a leader.
    pub fn new(alloc: Global) -> Followers {
        Followers {
            servers: BTreeMap::new(alloc),
            silent: BTreeSet::new(alloc),
            alloc,
        }
    }

    /// Notes that a server has acknowledged so many first entries to a leader, or has taken entries
    /// from it.
    fn note(
        &mut self,
        server: u64,
        term: u64,
        leader: u64,
        acked: usize,
    ) -> Result<(), AllocError> {
        let followed = Followed {
            term,
            leader,
            acked,
        };
        match self.servers.get_mut(&server) {
            Some(leaders) => note_last(leaders, followed),
            None => {
                let mut leaders = Vec::new(self.alloc);
                leaders.push(followed)?;
                self.servers.insert(server, leaders)?;
                Ok(())
            }
        }
    }

    /// Notes whom a server follows by an event.
    pub fn note_event(&mut self, event: &Act) -> Result<(), AllocError> {
        match event {
            Event::Appended {
                server,
                term,
                leader,
                ..
            } => self.note(*server, *term, *leader, 0),
            Event::Acked {
                server,
                term,
                leader,
                len,
            } => self.note(*server, *term, *leader, *len),
            _ => Ok(()),
        }
    }

    /// Notes whether a server has restarted, and has acknowledged nothing since, by an event that a
    /// line says.
    pub fn note_line(&mut self, event: &Act) -> Result<(), AllocError> {
        match event {
            Event::Restarted { server, .. } => {
                self.silent.insert(*server)?;
            }
            Event::Acked { server, .. } => {
                self.silent.remove(server);
            }
            _ => {}
        }
        Ok(())
    }

    /// Whether a server has restarted, and no line says that it has acknowledged anything since.
    pub fn is_silent(&self, server: u64) -> bool {
        self.silent.contains(&server)
    }

    /// Returns a leader that a server has followed. The last one is number 0.
    pub fn last(&self, server: u64, number: usize) -> Option<Followed> {
        let leaders = self.servers.get(&server)?;
        let place = leaders.len().checked_sub(number)?.checked_sub(1)?;
        Some(leaders[place])
    }
}

/// Notes a leader as the last one, of which so many first entries were acknowledged.
fn note_last(leaders: &mut Vec<Followed>, followed: Followed) -> Result<(), AllocError> {
    for known in leaders.iter_mut() {
        if known.term == followed.term && known.leader == followed.leader {
            known.acked = known.acked.max(followed.acked);
            return Ok(());
        }
    }
    if leaders.len() >= KEPT {
        leaders.remove(0);
    }
    leaders.push(followed)?;
    Ok(())
}
