//! Elections: what a voter and a candidate do.

use crate::deed::Deed;
use crate::fault::Fault;
use crate::server::{Role, Server};
use crate::types::{Candidate, Leader, VoteRequest, VoteResponse};
use steps_handlers::{HandlerError, handle_vote_request};

impl Server {
    /// Campaigns in a term that is greater than any that the server has heard of, and votes for
    /// itself.
    pub fn campaign(&mut self) -> Result<(), HandlerError> {
        self.follow();
        let candidate = Candidate::campaign(self.id, self.term, &mut self.state)?;
        self.write_vote();
        self.term = self.vote().leader_id.get_term();
        self.role = Role::Candidate(candidate);
        self.lead_if_elected()
    }

    /// Answers a candidate. If the server votes for it, the server waits anew.
    pub fn vote_for(&mut self, request: &VoteRequest) -> VoteResponse {
        let own = self.vote();
        let mut request = *request;
        let term = request.vote.leader_id.get_term();
        self.term = self.term.max(term);
        match self.fault {
            Some(Fault::IgnoreLastLog) => {
                request.last_log_id = request.last_log_id.max(self.last());
            }
            Some(Fault::VoteTwice) if !own.committed && own.leader_id.get_term() == term => {
                *self.state.vote.get_mut() = request.vote;
            }
            _ => {}
        }
        let response = handle_vote_request(&mut self.state, &request);
        if response.granted {
            self.write_vote();
            self.follow();
        }
        response
    }

    /// Counts the vote of another server.
    pub fn count_vote(&mut self, from: u64, response: &VoteResponse) -> Result<(), HandlerError> {
        let own = self.vote();
        let mut response = *response;
        if self.fault == Some(Fault::CountRefusal) {
            response = VoteResponse {
                vote: own,
                granted: true,
            };
        }
        self.hear_of(response.vote);
        if let Role::Candidate(candidate) = &mut self.role {
            candidate.handle_vote_response(&from, &response);
        }
        self.lead_if_elected()
    }

    /// Becomes the leader, if a quorum has voted for the server.
    fn lead_if_elected(&mut self) -> Result<(), HandlerError> {
        match &self.role {
            Role::Candidate(candidate) if candidate.is_elected() => {
                let leader = Leader::new(&mut self.state, candidate)?;
                self.write_vote();
                self.deed = Some(Deed::Leads);
                self.lead(leader)
            }
            _ => Ok(()),
        }
    }

    /// Leads, and begins with a blank entry: only an entry of its own lets a leader commit.
    pub fn lead(&mut self, leader: Leader) -> Result<(), HandlerError> {
        let entry = leader.propose_blank(&mut self.state)?;
        self.role = Role::Leader(leader);
        self.write_own(entry)
    }
}
