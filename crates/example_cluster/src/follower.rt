//! What a follower does with what its leader sends.

use crate::fault::Fault;
use crate::server::Server;
use crate::types::{AppendEntries, InstallSnapshot, LeaderId, Response, Vote};
use steps_handlers::{
    HandlerError, Outcome, RequestNumber, handle_append_entries, handle_install_snapshot,
};

impl Server {
    /// Takes a leader's entries, and writes them to disk before it answers.
    pub fn take_entries(&mut self, request: &AppendEntries) -> Result<Response, HandlerError> {
        let last = request.last_log_id();
        if self.heeds(request.leader_id) && self.acknowledges_untaken(last) {
            return Ok(Response {
                leader_id: request.leader_id.to_committed(),
                request: request.request,
                outcome: Outcome::Matches(last),
            });
        }
        let (response, changes) = handle_append_entries(&mut self.state, request)?;
        // The log has the entries of a request only if it matches.
        let entries = match response.outcome {
            Outcome::Matches(_) => request.entries.as_slice(),
            _ => &[],
        };
        self.write(entries, &changes)?;
        Ok(response)
    }

    /// Takes a leader's snapshot in place of the log, unless as much is committed already.
    pub fn take_snapshot(&mut self, request: &InstallSnapshot) -> Result<Response, HandlerError> {
        if self.heeds(request.leader_id) && self.fault == Some(Fault::AcknowledgeUninstalled) {
            return Ok(Response {
                leader_id: request.leader_id.to_committed(),
                request: RequestNumber::InFlight(request.request),
                outcome: Outcome::Matches(request.meta.last_log_id),
            });
        }
        let (response, changes) = handle_install_snapshot(&mut self.state, request)?;
        self.write_snapshot(changes);
        Ok(response)
    }

    /// Follows a leader, unless the server has passed its term. Returns whether it follows.
    fn heeds(&mut self, leader_id: LeaderId) -> bool {
        let vote = Vote {
            leader_id,
            committed: true,
        };
        if self.fault == Some(Fault::FollowPassedLeader) {
            *self.state.vote.get_mut() = vote;
        }
        self.hear_of(vote);
        let follows = vote == self.vote();
        if follows {
            self.follow();
        }
        follows
    }
}
