//! What a leader does: it sends to its followers, takes their responses, commits, and changes
//! members.

use crate::deed::Deed;
use crate::message::Content;
use crate::server::{Role, Server};
use crate::types::{
    AppendEntries, ChangeMembers, Entry, InstallSnapshot, Leader, LogIdRange, Response, end,
};
use raft_progress::InflightOf;
use std::alloc::AllocError;
use steps_handlers::{HandlerError, Heartbeat, Outcome, RequestNumber, ResumeError};

/// How many entries a request carries, while no more wait to be committed. With so few a log grows
/// in steps, and a leader can be lost between two of them.
const FEW_ENTRIES: u64 = 4;

impl Server {
    /// Returns what the leader sends next to a follower: entries, a snapshot, or a heartbeat if
    /// there is nothing to send or something is in flight. Without memory it sends nothing.
    pub fn next_request(&mut self, to: u64) -> Option<Content> {
        let max_entries = self.max_entries();
        let Role::Leader(leader) = &mut self.role else {
            return None;
        };
        match leader.next_request(&self.state, &to, max_entries)? {
            InflightOf::Logs { id, log_id_range } => {
                self.entries(RequestNumber::InFlight(id), log_id_range)
            }
            InflightOf::Snapshot { id, .. } => self.snapshot(id),
            InflightOf::None => {
                let Heartbeat { request, prev } = leader.heartbeat(&self.state, &to)?;
                self.entries(request, LogIdRange::new(prev, prev))
            }
        }
    }

    /// Returns how many entries a request carries at most: a few, or all that wait to be committed.
    ///
    /// An engine bounds a request by its bytes, and a follower that is behind gets hundreds of
    /// entries at once. If each request had the same few, a follower might get no more of them than
    /// leaders append until the next election. Then no entry of a leader's own reaches a quorum,
    /// and nothing is committed any more.
    fn max_entries(&self) -> u64 {
        let uncommitted = end(self.last()).saturating_sub(end(self.state.committed));
        uncommitted.max(FEW_ENTRIES)
    }

    /// Returns a request to append the entries of a range.
    fn entries(&self, request: RequestNumber, range: LogIdRange) -> Option<Content> {
        let places = self.place(end(range.prev))..self.place(end(range.last));
        Some(Content::Append(AppendEntries {
            leader_id: self.vote().leader_id,
            request,
            prev: range.prev,
            entries: self.disk.get(places)?.to_vec(*self.disk.allocator()).ok()?,
            committed: self.state.committed,
        }))
    }

    /// Returns a request to install the leader's snapshot.
    fn snapshot(&self, request: u64) -> Option<Content> {
        Some(Content::Install(InstallSnapshot {
            leader_id: self.vote().leader_id,
            request,
            meta: self.state.snapshot_meta.try_clone().ok()?,
        }))
    }

    /// Takes the response of a follower.
    pub fn take_response(&mut self, from: u64, response: &Response) -> Result<(), HandlerError> {
        if let Outcome::HigherVote(vote) = response.outcome {
            self.hear_of(vote);
        }
        if let Role::Leader(leader) = &mut self.role {
            // A response that is late, comes twice or answers another leader is refused, and
            // changes nothing.
            if leader.handle_response(&from, response).is_err() {
                return Ok(());
            }
            // A heartbeat is answered after the request that was sent before it, or the request or
            // its response is lost.
            if matches!(response.request, RequestNumber::Heartbeat(_)) {
                leader.give_up(&from);
            }
            self.commit()?;
        }
        Ok(())
    }

    /// Returns the leader of the server's committed vote anew. Its requests get greater numbers than
    /// any that the server has sent before, so a late response is refused.
    pub fn resume(&mut self) -> Result<Leader, ResumeError> {
        self.resumptions = self.resumptions.saturating_add(1);
        let last_request = self.resumptions.saturating_mul(1 << 32);
        Leader::resume(self.id, &self.state, last_request)
    }

    /// Appends an entry with a command, if the server leads.
    pub fn propose(&mut self, command: u64) -> Result<(), HandlerError> {
        if let Role::Leader(leader) = &self.role {
            let entry = leader.propose(&mut self.state, command)?;
            self.write_own(entry)?;
        }
        Ok(())
    }

    /// Writes an entry of the leader's own to disk, and counts the leader among those that have it.
    pub fn write_own(&mut self, entry: Entry) -> Result<(), HandlerError> {
        self.disk.push(entry).map_err(AllocError::from)?;
        let last = self.last();
        if let Role::Leader(leader) = &mut self.role {
            leader.handle_flushed(&self.state, last)?;
        }
        self.commit()
    }

    /// Commits what a quorum has, if the server leads.
    fn commit(&mut self) -> Result<(), HandlerError> {
        let is_wrong = self.commits_wrongly();
        if let Role::Leader(leader) = &self.role {
            let granted = leader.granted();
            if is_wrong && self.state.can_commit(&granted) {
                self.state.update_committed(&granted)?;
            } else {
                leader.commit(&mut self.state)?;
            }
        }
        Ok(())
    }

    /// Proposes a change of members, if the server leads and the change is allowed now.
    pub fn change(&mut self, change: ChangeMembers, retain: bool) -> Result<(), HandlerError> {
        if self.changes_wrongly() {
            return self.change_wrongly(change, retain);
        }
        if let Role::Leader(leader) = &mut self.role
            && let Ok(entry) = leader.propose_change(&mut self.state, change, retain)
        {
            self.deed = Some(Deed::Changes);
            self.write_own(entry)?;
        }
        Ok(())
    }

    /// Goes on from a joint membership to its last config, in which those who leave are learners. A
    /// leader that is no voter any more retires.
    pub fn end_change(&mut self) -> Result<(), HandlerError> {
        let Role::Leader(leader) = &mut self.role else {
            return Ok(());
        };
        if leader.is_removed(&self.state) {
            self.follow();
            self.deed = Some(Deed::Retires);
        } else if let Ok(entry) = leader.leave_joint(&mut self.state, true) {
            self.deed = Some(Deed::Changes);
            self.write_own(entry)?;
        }
        Ok(())
    }
}
