//! A server, as the laws of safety see it.

use crate::message::Content;
use crate::record::Entry;
use crate::server::{Role, Server};
use crate::trace::{Said, Trace, View};
use crate::types::{Members, Payload, end};
use std::alloc::{AllocError, Global};
use steps_handlers::Outcome;
use trace_checker::checker::Violation;

/// The number of the first membership: no command has a number that is as great.
const FIRST_MEMBERSHIP: u64 = 1_000_000_000_000;

impl Server {
    /// Records what the server has said and done.
    pub fn record(&self, said: Said, trace: &mut Trace) -> Result<(), Violation> {
        for entry in &self.disk {
            if let Payload::Membership(members) = &entry.payload {
                name_members(members, *self.disk.allocator(), trace)?;
            }
        }
        trace.record(&self.view()?, said)
    }

    /// Returns what the laws see of the server.
    fn view(&self) -> Result<View, AllocError> {
        let mut entries = Vec::new(*self.disk.allocator());
        for entry in &self.disk {
            if entry.log_id.index > 0 {
                entries.push(Entry {
                    term: entry.log_id.leader_id,
                    content: number_of(&entry.payload),
                })?;
            }
        }
        let vote = self.vote();
        Ok(View {
            server: self.id,
            term: vote.leader_id.to_committed(),
            leader: vote.leader_id.voted_for().unwrap_or(0),
            campaigns: !matches!(self.role, Role::Follower),
            leads: matches!(self.role, Role::Leader(_)),
            purged: self.state.purged_next.saturating_sub(1) as usize,
            entries,
            committed: end(self.state.committed).saturating_sub(1) as usize,
        })
    }
}

/// Records the number of a membership, with the voters of each config, unless it is known.
fn name_members(members: &Members, alloc: Global, trace: &mut Trace) -> Result<(), AllocError> {
    let number = number_of_members(members);
    if trace.is_named(number) {
        return Ok(());
    }
    let mut configs = Vec::new(alloc);
    for config in members.get_joint_config() {
        let voters: Vec<u64> = config.iter().copied().collect(alloc)?;
        configs.push(voters)?;
    }
    trace.name(number, configs)
}

/// Returns what an answer says that the state of the server does not show.
pub fn said_by(answer: &Option<Content>) -> Said {
    match answer {
        Some(Content::Vote(response)) if response.granted => {
            let leader_id = response.vote.leader_id;
            let candidate = leader_id.voted_for().unwrap_or(0);
            Said::Voted(leader_id.to_committed(), candidate)
        }
        Some(Content::Respond(response)) => match response.outcome {
            Outcome::Matches(Some(upto)) => Said::Matches(upto.index as usize),
            _ => Said::Nothing,
        },
        _ => Said::Nothing,
    }
}

/// Returns a number for what an entry holds.
fn number_of(payload: &Payload) -> u64 {
    match payload {
        Payload::Blank => 0,
        Payload::Normal(command) => *command,
        Payload::Membership(members) => number_of_members(members),
    }
}

/// Returns a number for the voters of a membership: their digits, with a 0 before each config.
fn number_of_members(members: &Members) -> u64 {
    let mut digits = 0u64;
    for config in members.get_joint_config() {
        digits = digits.saturating_mul(10);
        for id in config {
            digits = digits.saturating_mul(10).saturating_add(*id);
        }
    }
    FIRST_MEMBERSHIP.saturating_add(digits)
}
