//! What is counted of a run.
ghost use Rattle.std.specs.Prelude.{◌≡◌, ◌⊎◌, [], ℕ, IfOk, IsTrue, OnOk, Some};
ghost use Rattle.trace_checker.specs.Checker.{event_of as trace_event};
ghost use Rattle.safety_laws.specs.Trace.{Granted};
ghost use Rattle.trace_judge.specs.Inner.Votes.{IsLastVote, vote_of};

use crate::event::Act;
use std::alloc::{AllocError, Global};
use std::collections::{BTreeMap, BTreeSet};
use trace_checker::event::Event;

/// What is counted of the events so far.
#[derive(Drop)]
pub struct Counts {
    /// The servers that occur in events, or as voters of the start.
    pub servers: BTreeSet<u64>,
    /// The events of lines.
    pub events: u64,
    /// The votes that were sent again.
    pub left_out: u64,
    /// The commits that were filled in.
    pub commits: u64,
    /// The acknowledgements that were filled in.
    pub acks: u64,
    /// The appends that were filled in.
    pub appends: u64,
    /// The terms in which a leader has written an entry, and the first leader that has.
    pub leaders: BTreeMap<u64, u64>,
    /// The greatest number of entries that a leader has committed.
    pub committed: usize,
    /// The greatest term of which a leader has committed entries, and this leader.
    pub committed_by: Option<(u64, u64)>,
    /// The last vote of each server for another one: the term and the candidate.
    pub votes: BTreeMap<u64, (u64, u64)>,
}

impl Counts {
    /// Returns counts of no event, in a cluster with these configs.
    pub fn new(alloc: Global, configs: &[Vec<u64>]) -> Result<Counts, AllocError>
        ensures { IfOk result (λ counts. counts.votes.entries ≡ []) }
    {
        Ok(Counts {
            servers: voters_of(alloc, configs)?,
            events: 0,
            left_out: 0,
            commits: 0,
            acks: 0,
            appends: 0,
            leaders: BTreeMap::new(alloc),
            committed: 0,
            committed_by: None,
            votes: BTreeMap::new(alloc),
        })
    }

    /// Returns how many servers occur in events, as voters of the start, or as voters of these
    /// memberships.
    pub fn server_count(
        &self,
        alloc: Global,
        held: &[(u64, Vec<Vec<u64>>)],
    ) -> Result<usize, AllocError> {
        let mut servers = BTreeSet::new(alloc);
        for id in &self.servers {
            servers.insert(*id)?;
        }
        for membership in held {
            add_voters(&mut servers, &membership.1)?;
        }
        Ok(servers.len())
    }

    /// Whether the event is the last vote of the server, sent again.
    pub fn has_vote(&self, event: &Act) -> bool
        ensures { IsTrue result → IsLastVote self.now.votes.entries (trace_event event.now) }
    {
        match event {
            Event::Granted {
                server,
                term,
                candidate,
            } => match self.votes.get(server) {
                Some(vote) => vote.0 == *term && vote.1 == *candidate,
                None => false,
            },
            _ => false,
        }
    }

    /// Whether the event is that a server applies entries, before a leader has committed any.
    pub fn lacks_commit(&self, event: &Act) -> bool {
        matches!(event, Event::Applied { .. }) && self.committed_by.is_none()
    }

    /// Counts an event. If it is a vote, it is the last one of its server from then on.
    pub fn note(&mut self, event: &Act) -> Result<(), AllocError>
        ensures { OnOk result ((s : ℕ) (v : ℕ × ℕ) → vote_of self.new.votes.entries s ≡ Some v →
            (vote_of self.old.votes.entries s ≡ Some v)
            ⊎ (trace_event event.now ≡ Granted s v.0 v.1)) }
    {
        self.events = self.events.saturating_add(1);
        match event {
            Event::Campaigned { server, .. } => {
                self.servers.insert(*server)?;
            }
            Event::Granted {
                server,
                term,
                candidate,
            } => {
                self.servers.insert(*server)?;
                self.votes.insert(*server, (*term, *candidate))?;
            }
            Event::Wrote { leader, term, .. } => {
                if !self.leaders.contains_key(term) {
                    self.leaders.insert(*term, *leader)?;
                }
            }
            Event::Committed {
                leader,
                term,
                len,
                ..
            } => self.note_commit(*leader, *term, *len),
            Event::Appended { server, .. } => {
                self.servers.insert(*server)?;
            }
            _ => {}
        }
        Ok(())
    }

    /// Counts an event that is filled in.
    pub fn note_filled_in(&mut self, event: &Act)
        ensures { self.new.votes ≡ self.old.votes }
    {
        match event {
            Event::Committed {
                leader,
                term,
                len,
                ..
            } => {
                self.commits = self.commits.saturating_add(1);
                self.note_commit(*leader, *term, *len);
            }
            Event::Acked { .. } => self.acks = self.acks.saturating_add(1),
            _ => self.appends = self.appends.saturating_add(1),
        }
    }

    /// Returns the first term from this one on in which a leader has written an entry, and this
    /// leader. It comes after another one, if that is given.
    pub fn next_leader(&self, from: u64, after: Option<(u64, u64)>) -> Option<(u64, u64)> {
        for (term, leader) in self.leaders.range(from..) {
            let next = (*term, *leader);
            if Some(next) > after {
                return Some(next);
            }
        }
        None
    }

    /// Notes that a leader commits so many first entries.
    fn note_commit(&mut self, leader: u64, term: u64, len: usize)
        ensures { self.new.votes ≡ self.old.votes }
    {
        self.committed = self.committed.max(len);
        self.committed_by = self.committed_by.max(Some((term, leader)));
    }
}

/// Returns the voters of configs.
fn voters_of(alloc: Global, configs: &[Vec<u64>]) -> Result<BTreeSet<u64>, AllocError> {
    let mut voters = BTreeSet::new(alloc);
    add_voters(&mut voters, configs)?;
    Ok(voters)
}

/// Adds the voters of configs to some servers.
fn add_voters(servers: &mut BTreeSet<u64>, configs: &[Vec<u64>]) -> Result<(), AllocError> {
    for config in configs {
        add_each(servers, config)?;
    }
    Ok(())
}

/// Adds each of these ids to some servers.
fn add_each(servers: &mut BTreeSet<u64>, ids: &[u64]) -> Result<(), AllocError> {
    for id in ids {
        servers.insert(*id)?;
    }
    Ok(())
}
