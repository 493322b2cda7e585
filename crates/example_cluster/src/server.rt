//! A server: its state, its disk and its role, and what it does with a message.

use crate::deed::Deed;
use crate::fault::Fault;
use crate::message::Content;
use crate::types::{Candidate, CommittedLeaderId, Entry, Leader, LogId, Members, State, Vote};
use raft_base::LogStateReader;
use rand::RngExt;
use rand_pcg::Pcg32;
use std::alloc::{AllocError, Global};
use steps_handlers::{HandlerError, may_lead, start_cluster};

/// How many servers there are. The first three are the first voters.
pub const SERVERS: u64 = 5;

/// The role of a server, with what it knows in this role.
#[derive(Drop)]
pub enum Role {
    /// It waits for entries of a leader.
    Follower,
    /// It counts the votes for it.
    Candidate(Candidate),
    /// It leads, and knows how far its followers are.
    Leader(Leader),
}

/// A server.
#[derive(Drop)]
pub struct Server {
    pub id: u64,
    /// The planted fault, if there is one.
    pub fault: Option<Fault>,
    pub role: Role,
    /// For how many more ticks it waits for a leader before it campaigns.
    pub patience: u64,
    /// The greatest term that it has heard of. Like its vote it is on disk.
    pub term: u64,
    /// How often it has led on without an election. Like its vote it is on disk.
    pub resumptions: u64,
    pub state: State,
    /// The vote on its disk.
    pub disk_vote: Vote,
    /// The entries of its log that are not purged, as they are on its disk.
    pub disk: Vec<Entry>,
    /// What it has done in this event.
    pub deed: Option<Deed>,
    random: Pcg32,
}

impl Server {
    /// Returns all servers of a cluster.
    pub fn all(alloc: Global, seed: u64, fault: Option<Fault>) -> Result<Vec<Self>, AllocError> {
        let mut servers = Vec::with_capacity(alloc, SERVERS as usize)?;
        for id in 1..=SERVERS {
            servers.push(Server::new(alloc, id, seed, fault)?)?;
        }
        Ok(servers)
    }

    /// Returns a server that knows of no members.
    fn new(alloc: Global, id: u64, seed: u64, fault: Option<Fault>) -> Result<Self, AllocError> {
        Ok(Server {
            id,
            fault,
            role: Role::Follower,
            patience: id,
            term: 0,
            resumptions: 0,
            state: State::try_default(alloc)?,
            disk_vote: Vote::default(),
            disk: Vec::new(alloc),
            deed: None,
            random: Pcg32::new(seed, id),
        })
    }

    /// Starts a cluster of these members. The first entry of its log is of term 0.
    pub fn start(&mut self, members: Members) -> Result<(), HandlerError> {
        self.disk = start_cluster(&mut self.state, &self.id, members)?;
        Ok(())
    }

    /// Returns the vote that the server has promised.
    pub fn vote(&self) -> Vote {
        *self.state.vote_ref()
    }

    /// Returns the last log id of its log.
    pub fn last(&self) -> Option<LogId> {
        self.state.last_log_id().copied()
    }

    /// Returns the effective membership: the last one of its log, committed or not.
    pub fn members(&self) -> &Members {
        self.state.membership_state.effective().membership()
    }

    /// Returns its committed leader id, if it leads.
    pub fn leader_id(&self) -> Option<CommittedLeaderId> {
        match &self.role {
            Role::Leader(leader) => Some(leader.leader_id()),
            _ => None,
        }
    }

    /// Whether its log has a log id, or the index of the log id is purged.
    pub fn has(&self, log_id: LogId) -> bool {
        log_id.index < self.state.purged_next || self.state.get_log_id(log_id.index) == Some(log_id)
    }

    /// Whether the server may campaign and lead: it is a voter, or it was one before a change that
    /// is not committed, and its log may be needed to commit the change.
    pub fn may_lead(&self) -> bool {
        may_lead(&self.id, &self.state)
    }

    /// Becomes a follower, and waits anew for a leader.
    pub fn follow(&mut self) {
        self.role = Role::Follower;
        self.patience = self.random.random_range(3..6u64);
    }

    /// Takes a message of another server, and may answer it.
    pub fn receive(
        &mut self,
        from: u64,
        content: &Content,
    ) -> Result<Option<Content>, HandlerError> {
        match content {
            Content::AskVote(request) => Ok(Some(Content::Vote(self.vote_for(request)))),
            Content::Vote(response) => {
                self.count_vote(from, response)?;
                Ok(None)
            }
            Content::Append(request) => {
                let response = self.take_entries(request)?;
                Ok(Some(Content::Respond(response)))
            }
            Content::Install(request) => {
                let response = self.take_snapshot(request)?;
                Ok(Some(Content::Respond(response)))
            }
            Content::Respond(response) => {
                self.take_response(from, response)?;
                Ok(None)
            }
        }
    }

    /// Lets time pass at the server. Returns whether it has something to send to the others.
    pub fn tick(&mut self) -> Result<bool, HandlerError> {
        if self.leader_id().is_some() {
            self.end_change()?;
            return Ok(true);
        }
        self.patience = self.patience.saturating_sub(1);
        if self.patience > 0 || !self.may_lead() {
            return Ok(false);
        }
        self.campaign()?;
        Ok(true)
    }

    /// Returns what the server sends to another one on its tick.
    pub fn next(&mut self, to: u64) -> Option<Content> {
        match &self.role {
            Role::Follower => None,
            Role::Candidate(candidate) => {
                let request = candidate.request();
                self.members()
                    .is_voter(&to)
                    .then_some(Content::AskVote(request))
            }
            Role::Leader(_) => self.next_request(to),
        }
    }

    /// Takes note of a vote. If the vote is greater than its own, the server promises it, writes it
    /// to disk and follows.
    pub fn hear_of(&mut self, vote: Vote) {
        self.term = self.term.max(vote.leader_id.get_term());
        if vote > self.vote() && self.state.promise(vote) {
            if self.fault != Some(Fault::UnwrittenVote) {
                self.write_vote();
            }
            self.follow();
        }
    }
}
