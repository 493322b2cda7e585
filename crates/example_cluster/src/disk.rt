//! What is on the disk of a server: the entries of its log, its last snapshot, its vote, its term,
//! and how often it has led on without an election.

use crate::deed::Deed;
use crate::fault::Fault;
use crate::server::Server;
use crate::types::{Changes, Entry, SnapshotMeta, State, Vote, end};
use raft_base::LogStateReader;
use steps_handlers::{HandlerError, RestartError, SnapshotChanges, Stored, restart_server};

impl Server {
    /// Returns the place of an index on disk.
    pub fn place(&self, index: u64) -> usize {
        index.saturating_sub(self.state.purged_next) as usize
    }

    /// Returns the entry of an index, if it is on disk and in the log.
    pub fn entry(&self, index: u64) -> Option<&Entry> {
        let entry = self.disk.get(self.place(index))?;
        (self.state.get_log_id(index) == Some(entry.log_id)).then_some(entry)
    }

    /// Writes the vote to disk. Each step that changes the vote does so before a message leaves.
    pub fn write_vote(&mut self) {
        self.disk_vote = self.vote();
    }

    /// Writes to disk what a request with these entries has changed in the log: removes what is
    /// truncated, and adds the entries that are new.
    pub fn write(&mut self, entries: &[Entry], changes: &Changes) -> Result<(), HandlerError> {
        let Some(from) = changes.log_from else {
            return Ok(());
        };
        let kept = self.place(from);
        if kept < self.disk.len() {
            self.deed = Some(Deed::Truncates(self.disk.len().saturating_sub(kept)));
            self.disk.truncate(kept);
        }
        let known = entries.partition_point(|entry| entry.log_id.index < from);
        self.disk.extend_with_clones(entries.split_at(known).1)?;
        Ok(())
    }

    /// Writes to disk what a snapshot has changed in the log, if it was installed.
    pub fn write_snapshot(&mut self, changes: SnapshotChanges) {
        if changes.installed {
            self.deed = Some(Deed::Installs);
        }
        if changes.drops_log {
            self.disk.clear();
        }
        self.trim();
    }

    /// Removes from disk what is purged in the log.
    fn trim(&mut self) {
        let purged_next = self.state.purged_next;
        self.disk.retain(|entry| purged_next <= entry.log_id.index);
    }

    /// Takes a snapshot of what is committed, and purges all of it but the last few entries. No
    /// message needs a purged entry, because a message carries its entries.
    pub fn compact(&mut self, keep: u64) -> Result<(), HandlerError> {
        let members = self.state.membership_state.committed();
        let snapshot = SnapshotMeta {
            last_log_id: self.state.committed,
            last_membership: members.stored_membership().try_clone()?,
            snapshot_id: String::new(*self.disk.allocator()),
        };
        if self.state.can_build_snapshot(&snapshot) {
            self.state.build_snapshot(snapshot);
            self.deed = Some(Deed::Compacts);
            self.purge(end(self.state.committed).saturating_sub(keep))?;
        }
        Ok(())
    }

    /// Purges the log up to an index, if the snapshot has it.
    fn purge(&mut self, index: u64) -> Result<(), HandlerError> {
        if let Some(upto) = self.state.get_log_id(index)
            && self.state.can_schedule_purge(&upto)
        {
            self.state.schedule_purge(&upto);
            if self.state.can_purge_log(&upto) {
                self.state.purge_log(&upto)?;
                self.trim();
            }
        }
        Ok(())
    }

    /// Crashes, and starts again with what is on disk. If the server is the elected leader of its
    /// vote, it leads on.
    pub fn restart(&mut self) -> Result<(), HandlerError> {
        let mut vote = self.disk_vote;
        if self.fault == Some(Fault::ForgetVote) {
            vote = Vote::default();
            self.term = 0;
        }
        self.state = self.restarted(vote)?;
        self.trim();
        self.follow();
        // A server that is known to be removed still has its committed vote.
        if self.state.is_leader(&self.id) && self.may_lead() {
            let leader = self.resume()?;
            self.lead(leader)?;
        }
        self.deed = Some(Deed::Restarts);
        Ok(())
    }

    /// Returns the state that a server with this vote has after a restart.
    fn restarted(&self, vote: Vote) -> Result<State, RestartError> {
        let alloc = *self.disk.allocator();
        let stored = Stored {
            vote,
            snapshot: self.state.snapshot_meta.try_clone()?,
            entries: self.disk.to_vec(alloc)?,
            committed: self.state.snapshot_meta.last_log_id,
        };
        restart_server(alloc, &stored)
    }
}
