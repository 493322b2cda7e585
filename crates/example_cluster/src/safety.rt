//! What Raft promises of a cluster, checked after each event.

use crate::server::{Role, Server};
use crate::types::{CommittedLeaderId, LogId, end};
use raft_base::LogStateReader;
use std::alloc::{AllocError, Global};
use std::collections::BTreeMap;
use steps_handlers::HandlerError;
use thiserror::Error;
use trace_checker::checker;

/// What is wrong with a cluster.
#[derive(Debug, Clone, Copy, PartialEq, Eq, Error)]
pub enum Violation {
    /// Two servers have led with one committed leader id, that is, in one term.
    #[error("election safety: servers {0} and {1} lead with one leader id")]
    ElectionSafety(u64, u64),
    /// A leader's log does not have what it had before.
    #[error("leader append-only: leader {0} has changed its log")]
    LeaderAppendOnly(u64),
    /// Two logs have one log id in common, and differ at an index before it.
    #[error("log matching: servers {0} and {1} differ at index {2} and agree after it")]
    LogMatching(u64, u64, u64),
    /// A leader does not have an entry that an earlier leader has committed.
    #[error("leader completeness: leader {0} lacks the committed entry {1}")]
    LeaderCompleteness(u64, u64),
    /// Two servers have committed different entries at one index.
    #[error("state machine safety: server {0} has committed another entry {1}")]
    StateMachineSafety(u64, u64),
    /// The state of a server is one on which no engine may build.
    #[error("the state of server {0} is not sound")]
    Soundness(u64),
    /// The disk of a server has other entries than its log.
    #[error("the disk of server {0} differs from its log")]
    Disk(u64),
    /// A server could not do what an honest message asks.
    #[error("server {0} fails: {1}")]
    Failure(u64, HandlerError),
    /// A recorded act was not allowed by those before it. The end of the run says which.
    #[error("a rule of the laws of safety is broken")]
    BrokenRule,
    /// The cluster was left alone, and no server leads, a member of the last leader has not
    /// committed the leader's whole log, or a membership change is half done.
    #[error("it does not converge")]
    Convergence,
    /// An allocation failed.
    #[error("out of memory")]
    OutOfMemory(#[from(alloc)] AllocError),
}

impl From<checker::Violation> for Violation {
    fn from(violation: checker::Violation) -> Self {
        match violation {
            checker::Violation::OutOfMemory => AllocError.into(),
            checker::Violation::Rule(_) => Violation::BrokenRule,
        }
    }
}

/// A leader that was elected.
#[derive(Clone, Copy)]
pub struct Leadership {
    /// The id of the server that was elected.
    pub server: u64,
    /// How many were elected before.
    pub number: usize,
    /// The last log id of the server when it was last seen to lead.
    last: Option<LogId>,
}

/// An entry that was committed.
#[derive(Clone, Copy)]
pub struct CommittedEntry {
    /// The log id of the entry.
    pub log_id: LogId,
    /// The committed leader id of the leader that was the first to commit it.
    pub by: CommittedLeaderId,
}

/// Who has led, and what was committed.
#[derive(Drop)]
pub struct History {
    /// Each leader that was elected.
    pub leaders: BTreeMap<CommittedLeaderId, Leadership>,
    /// Each entry that was committed, by its index.
    pub committed: Vec<CommittedEntry>,
}

impl History {
    /// Returns a history in which nothing has happened.
    pub fn new(alloc: Global) -> Self {
        History {
            leaders: BTreeMap::new(alloc),
            committed: Vec::new(alloc),
        }
    }

    /// Checks all that Raft promises, after something has happened at one server.
    pub fn check(&mut self, server: &Server, all: &[Server]) -> Result<(), Violation> {
        check_alone(server)?;
        self.check_committed(server)?;
        for other in all {
            check_log_matching(server, other)?;
        }
        if let Role::Leader(leader) = &server.role {
            self.check_leader(server, leader.leader_id())?;
            self.check_completeness(server, leader.leader_id())?;
        }
        Ok(())
    }

    /// **State machine safety**: what a server knows to be committed is in its log, and is what
    /// others have committed at that index. A leader is the first to know it.
    fn check_committed(&mut self, server: &Server) -> Result<(), Violation> {
        let state = &server.state;
        for index in state.purged_next.saturating_sub(1)..end(state.committed) {
            let violation = Violation::StateMachineSafety(server.id, index);
            let log_id = state.get_log_id(index).ok_or(violation)?;
            match self.committed.get(index as usize) {
                Some(known) if known.log_id == log_id => {}
                Some(_) => return Err(violation),
                None => {
                    let by = server.leader_id().ok_or(violation)?;
                    self.committed.push(CommittedEntry { log_id, by })?;
                }
            }
        }
        Ok(())
    }

    /// **Election safety**: no other server leads with the leader id, and **leader append-only**: a
    /// leader's log has all that it had before.
    fn check_leader(
        &mut self,
        server: &Server,
        leader_id: CommittedLeaderId,
    ) -> Result<(), Violation> {
        let last = server.last();
        let Some(before) = self.leaders.get_mut(&leader_id) else {
            let number = self.leaders.len();
            let leadership = Leadership {
                server: server.id,
                number,
                last,
            };
            self.leaders.insert(leader_id, leadership)?;
            return Ok(());
        };
        if before.server != server.id {
            return Err(Violation::ElectionSafety(before.server, server.id));
        }
        match before.last {
            Some(last) if !server.has(last) => return Err(Violation::LeaderAppendOnly(server.id)),
            _ => before.last = last,
        }
        Ok(())
    }

    /// **Leader completeness**: a leader has each entry that an earlier leader has committed.
    fn check_completeness(
        &self,
        server: &Server,
        leader_id: CommittedLeaderId,
    ) -> Result<(), Violation> {
        for entry in self
            .committed
            .iter()
            .skip(server.state.purged_next as usize)
        {
            if entry.by <= leader_id && !server.has(entry.log_id) {
                return Err(Violation::LeaderCompleteness(server.id, entry.log_id.index));
            }
        }
        Ok(())
    }
}

/// A server's state is sound, and its disk has the entries of its log.
fn check_alone(server: &Server) -> Result<(), Violation> {
    if !server.state.is_sound() {
        return Err(Violation::Soundness(server.id));
    }
    if server.disk.len() != server.place(end(server.last())) {
        return Err(Violation::Disk(server.id));
    }
    Ok(())
}

/// **Log matching**: two logs are equal up to the last log id that both have.
fn check_log_matching(one: &Server, other: &Server) -> Result<(), Violation> {
    let first = one.state.purged_next.max(other.state.purged_next);
    let mut do_match = false;
    for index in (first..end(one.last()).min(end(other.last()))).rev() {
        do_match |= one.state.get_log_id(index) == other.state.get_log_id(index);
        let entry = one.entry(index);
        if do_match && (entry.is_none() || entry != other.entry(index)) {
            return Err(Violation::LogMatching(one.id, other.id, index));
        }
    }
    Ok(())
}
