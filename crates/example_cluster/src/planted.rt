//! What a server does in place of a step, if a fault is planted.

use crate::deed::Deed;
use crate::fault::Fault;
use crate::server::{Role, Server};
use crate::types::{ChangeMembers, Entry, LogId, Members, Payload, end};
use std::collections::BTreeSet;
use std::slice;
use steps_handlers::HandlerError;

impl Server {
    /// Whether a planted fault lets it acknowledge entries up to a log id without taking them.
    pub fn acknowledges_untaken(&self, last: Option<LogId>) -> bool {
        match (self.fault, last) {
            (Some(Fault::AcknowledgeUnwritten), Some(last)) => last.index % 8 == 7,
            (Some(Fault::KeepConflicts), Some(last)) => {
                last.index < end(self.last()) && !self.has(last)
            }
            _ => false,
        }
    }

    /// Whether a planted fault lets it commit what its quorum has, without a test.
    pub fn commits_wrongly(&self) -> bool {
        match (self.fault, &self.role) {
            (Some(Fault::CommitEarlierTerm), Role::Leader(_)) => true,
            (Some(Fault::CountOldMembers), Role::Leader(leader)) => leader.has_own_granted(),
            _ => false,
        }
    }

    /// Whether a planted fault has another way to change members.
    pub fn changes_wrongly(&self) -> bool {
        match (self.fault, &self.role) {
            (Some(Fault::ChangeEarly), Role::Leader(_)) => true,
            (Some(Fault::SkipJointConfig | Fault::CountOldMembers), Role::Leader(leader)) => {
                leader.has_own_granted()
            }
            _ => false,
        }
    }

    /// Changes members as a planted fault has it.
    pub fn change_wrongly(
        &mut self,
        change: ChangeMembers,
        retain: bool,
    ) -> Result<(), HandlerError> {
        let Some(members) = self.members_after(change, retain) else {
            return Ok(());
        };
        let entry = Entry {
            log_id: LogId::new(self.vote().leader_id.to_committed(), end(self.last())),
            payload: Payload::Membership(members),
        };
        let entries = slice::from_ref(&entry);
        if !self.state.can_append_entries(entries) || self.state.append_entries(entries).is_err() {
            return Ok(());
        }
        if self.fault != Some(Fault::CountOldMembers) {
            let leader = self.resume()?;
            self.role = Role::Leader(leader);
        }
        self.deed = Some(Deed::Changes);
        self.write_own(entry)
    }

    /// Returns the members that a change leads to, if it is allowed now: those of the last
    /// configuration at once, if the planted fault skips the joint one.
    fn members_after(&self, change: ChangeMembers, retain: bool) -> Option<Members> {
        let handler = self.state.membership_state.change_handler();
        let Ok(members) = handler.apply(change, retain) else {
            return None;
        };
        if self.fault != Some(Fault::SkipJointConfig) {
            return Some(members);
        }
        let to_last = ChangeMembers::AddVoterIds(BTreeSet::new(*self.disk.allocator()));
        members.change(to_last, true).ok()
    }
}
