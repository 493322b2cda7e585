//! What the servers do, recorded in the words of the laws of safety.
//!
//! `safety_laws` proves: if each recorded act was allowed by those before it, the cluster is safe.
//! `trace_checker` says whether they were. A log of the laws has no entry 0, which starts the
//! cluster.

use crate::record::{Act, Entry, Record, Term};
use std::alloc::{AllocError, Global};
use trace_checker::check::Refused;
use trace_checker::checker::{Checker, LearnError, Violation};
use trace_checker::event::Event as LawEvent;
use trace_checker::held::Held;
use trace_checker::memberships::Memberships;

/// What a server has said or done that its state does not show.
#[derive(Clone, Copy)]
pub enum Said {
    /// It has neither voted, nor answered its leader, nor restarted.
    Nothing,
    /// It has voted for a candidate.
    Voted(Term, u64),
    /// It has answered its leader that so many entries match.
    Matches(usize),
    /// It has restarted.
    Restarted,
}

/// A server after an event.
#[derive(Drop)]
pub struct View {
    /// The id of the server.
    pub server: u64,
    /// The term of its vote.
    pub term: Term,
    /// The node that its vote is for.
    pub leader: u64,
    /// Whether it is a candidate or leads.
    pub campaigns: bool,
    /// Whether it leads.
    pub leads: bool,
    /// How many of its first entries are purged.
    pub purged: usize,
    /// The entries of its log that are not purged.
    pub entries: Vec<Entry>,
    /// How many of its first entries it knows to be committed.
    pub committed: usize,
}

/// What was recorded of a server.
#[derive(Drop)]
struct Recorded {
    /// The term of its last campaign.
    campaigned: Term,
    /// The term and the candidate of its last vote.
    voted: (Term, u64),
    /// All entries of its log.
    log: Vec<Entry>,
    /// How many first entries it has applied.
    applied: usize,
}

/// What the servers have done so far, as the checker of the laws knows it.
#[derive(Drop)]
pub struct Trace {
    checker: Checker<Term, u64, u64, Memberships<u64, u64>>,
    /// The numbers of the memberships that the checker knows.
    named: Vec<u64>,
    /// The number of acts that were allowed.
    allowed: usize,
    /// The first act that was refused, if there is one.
    refused: Option<Refused>,
    servers: Vec<Recorded>,
    /// The entries that are committed.
    committed: Vec<Entry>,
    /// The acts as lines, also the one that was refused.
    pub record: Record,
}

impl Trace {
    /// Returns a trace in which nothing has happened. The first three servers are the first voters.
    pub fn new(alloc: Global, servers: u64, record: Record) -> Result<Self, Violation> {
        Ok(Trace {
            checker: Checker::new(alloc, first_voters(alloc)?)?,
            named: Vec::new(alloc),
            allowed: 0,
            refused: None,
            servers: nothing_recorded(alloc, servers)?,
            committed: Vec::new(alloc),
            record,
        })
    }

    /// Whether it is known what a membership's number means.
    pub fn is_named(&self, number: u64) -> bool {
        self.named.contains(&number)
    }

    /// Records what a membership's number means. An act with an entry of this number comes later.
    pub fn name(&mut self, number: u64, configs: Vec<Vec<u64>>) -> Result<(), AllocError> {
        self.record.name(number, &configs)?;
        if let Err(LearnError::OutOfMemory) = self.checker.learn(number, configs) {
            return Err(AllocError);
        }
        self.named.push(number)?;
        Ok(())
    }

    /// Records what a server has done in an event, and checks that each act was allowed by those
    /// before it. Then the cluster was safe so far.
    ///
    /// # Errors
    ///
    /// The rule that the first refused act breaks, or out of memory.
    pub fn record(&mut self, view: &View, said: Said) -> Result<(), Violation> {
        let acts = self.acts(view, said)?;
        let place = view.server.saturating_sub(1) as usize;
        let Some(server) = self.servers.get(place) else {
            return Ok(());
        };
        for act in &acts {
            self.record.push(act, &server.log)?;
            match self.checker.record(act) {
                Ok(()) => self.allowed = self.allowed.saturating_add(1),
                Err(violation) => {
                    self.refused = Some(Refused {
                        event: self.allowed,
                        violation,
                    });
                    return Err(violation);
                }
            }
        }
        Ok(())
    }

    /// Returns the acts of a server in an event, and takes note of what it has now.
    fn acts(&mut self, view: &View, said: Said) -> Result<Vec<Act>, AllocError> {
        let mut acts = Vec::new(*self.committed.allocator());
        let place = view.server.saturating_sub(1) as usize;
        let Some(server) = self.servers.get_mut(place) else {
            return Ok(acts);
        };
        server.record_election(view, said, &mut acts)?;
        let log = full_log(view, &self.committed)?;
        server.record_log(view, log, said, &mut acts)?;
        server.record_commit(view, said, &mut acts)?;
        if let Some(new) = server.log.get(self.committed.len()..server.applied) {
            self.committed.extend_from_slice(new)?;
        }
        Ok(acts)
    }

    /// Whether each act so far was allowed by those before it.
    ///
    /// # Errors
    ///
    /// The first act that was not allowed, and the rule that it breaks, or out of memory.
    pub fn verdict(&self) -> Result<(), Refused> {
        match self.refused {
            Some(refused) => Err(refused),
            None => Ok(()),
        }
    }
}

/// Returns what is recorded of servers that have done nothing.
fn nothing_recorded(alloc: Global, servers: u64) -> Result<Vec<Recorded>, AllocError> {
    let mut recorded = Vec::new(alloc);
    for _ in 0..servers {
        recorded.push(Recorded {
            campaigned: Term::default(),
            voted: (Term::default(), 0),
            log: Vec::new(alloc),
            applied: 0,
        })?;
    }
    Ok(recorded)
}

/// Returns the membership of the first three servers. No entry holds a membership yet.
fn first_voters(alloc: Global) -> Result<Memberships<u64, u64>, AllocError> {
    Ok(Memberships {
        initial: vec![in alloc; (1..=3).collect(alloc)?]?,
        held: Held::new(alloc),
    })
}

impl Recorded {
    /// Records a restart, a campaign or a vote.
    fn record_election(
        &mut self,
        view: &View,
        said: Said,
        acts: &mut Vec<Act>,
    ) -> Result<(), AllocError> {
        let (server, term) = (view.server, view.term);
        if matches!(said, Said::Restarted) {
            // A leader that leads on has written an entry since.
            let len = view.purged.saturating_add(view.entries.len());
            let len = len.min(self.log.len());
            acts.push(LawEvent::Restarted { server, len })?;
        }
        if view.campaigns && self.campaigned != term {
            self.campaigned = term;
            acts.push(LawEvent::Campaigned { server, term })?;
        }
        if let Said::Voted(term, candidate) = said
            && self.voted != (term, candidate)
        {
            self.voted = (term, candidate);
            acts.push(LawEvent::Granted {
                server,
                term,
                candidate,
            })?;
        }
        Ok(())
    }

    /// Records what has changed in the log, and what is acknowledged of it. A leader writes its own
    /// entries, and is the first to acknowledge them.
    fn record_log(
        &mut self,
        view: &View,
        log: Vec<Entry>,
        said: Said,
        acts: &mut Vec<Act>,
    ) -> Result<(), AllocError> {
        let (server, term, leader) = (view.server, view.term, view.leader);
        let keep = common_len(&self.log, &log);
        let has_changed = keep < self.log.len().max(log.len());
        let (_, new) = log.split_at(keep.min(log.len()));
        let mut acknowledged = None;
        if view.leads && has_changed {
            for entry in new {
                acts.push(LawEvent::Wrote {
                    leader,
                    term,
                    entry: *entry,
                })?;
            }
            acknowledged = Some(log.len());
        }
        if let Said::Matches(len) = said {
            acknowledged = Some(len);
        }
        if has_changed || acknowledged.is_some() {
            let entries = new.to_vec(*log.allocator())?;
            acts.push(LawEvent::Appended {
                server,
                term,
                leader,
                keep,
                entries,
            })?;
        }
        if let Some(len) = acknowledged {
            acts.push(LawEvent::Acked {
                server,
                term,
                leader,
                len,
            })?;
        }
        self.log = log;
        Ok(())
    }

    /// Records what a leader has committed, and what a server has applied.
    fn record_commit(
        &mut self,
        view: &View,
        said: Said,
        acts: &mut Vec<Act>,
    ) -> Result<(), AllocError> {
        let (server, term, leader) = (view.server, view.term, view.leader);
        let len = match said {
            Said::Matches(len) => view.committed.min(len),
            _ if view.leads => view.committed,
            _ => return Ok(()),
        };
        if len <= self.applied {
            return Ok(());
        }
        self.applied = len;
        if view.leads {
            acts.push(LawEvent::Committed {
                leader,
                term,
                len,
                counted_at: self.log.len(),
            })?;
        }
        acts.push(LawEvent::Applied {
            server,
            term,
            leader,
            len,
        })?;
        Ok(())
    }
}

/// Returns the whole log of a server. What is purged of it is committed.
fn full_log(view: &View, committed: &[Entry]) -> Result<Vec<Entry>, AllocError> {
    let (purged, _) = committed.split_at(view.purged.min(committed.len()));
    let mut log = purged.to_vec(*view.entries.allocator())?;
    log.extend_from_slice(&view.entries)?;
    Ok(log)
}

/// Returns how many first entries two logs have in common.
fn common_len(one: &[Entry], other: &[Entry]) -> usize {
    let mut len = 0usize;
    for (a, b) in one.iter().zip(other) {
        if a.term != b.term || a.content != b.content {
            break;
        }
        len = len.saturating_add(1);
    }
    len
}
