//! The chart of a cluster, a row at a time.

use crate::cluster::Cluster;
use crate::server::{Role, Server};
use crate::types::{CommittedLeaderId, Members, end};
use raft_base::LogStateReader;
use std::alloc::AllocError;
use std::ops::Range;

/// How many indexes of a log are shown. With six of them, and two digits of a term, a row has at
/// most 100 columns.
const WIDTH: u64 = 6;

/// What the signs mean, and the head of the columns.
pub const LEGEND: &str = "\
A server has a role (L leader, C candidate, F follower, N no voter), a term modulo 100, and a log: a
letter for each entry, by the leader that has made it, a dot if it is purged; what is left of | is
known to be committed. A * is cut off from those without. The last leader's members are voters (&
joins two configs) and + learners.

event server 1    server 2    server 3    server 4    server 5    members    what happens
";

impl Cluster {
    /// Draws a row if something of note has happened, or so many events after the last one.
    pub fn draw_if_due(&self, interval: u64, chart: &mut String) -> Result<(), AllocError> {
        let is_due = self.news.is_some() || self.tally.events.checked_rem(interval) == Some(0);
        if interval > 0 && is_due {
            self.draw(chart)?;
        }
        Ok(())
    }

    /// Draws a row: each server, the members of the last leader, and what has happened.
    pub fn draw(&self, chart: &mut String) -> Result<(), AllocError> {
        let first = (self.history.committed.len() as u64).saturating_sub(WIDTH / 2);
        write!(chart, "{:>4} ", self.tally.events)?;
        for server in &self.servers {
            let mark = if self.network.is_cut_off(server.id) {
                '*'
            } else {
                ' '
            };
            write!(
                chart,
                "{mark}{}{:<2} ",
                letter_of(server),
                server.term % 100
            )?;
            self.draw_log(server, first, chart)?;
        }
        if let Some(leader) = self.last_leader() {
            draw_members(leader.members(), chart)?;
        }
        if let Some(news) = self.news {
            write!(chart, " {news}")?;
        }
        chart.push('\n')
    }

    /// Draws the part of a log that begins at an index, with a bar after what is known to be
    /// committed.
    fn draw_log(&self, server: &Server, first: u64, chart: &mut String) -> Result<(), AllocError> {
        let end_of_row = first.saturating_add(WIDTH);
        let bar = end(server.state.committed).max(first).min(end_of_row);
        self.draw_entries(server, first..bar, chart)?;
        chart.push(if server.last().is_some() { '|' } else { ' ' })?;
        self.draw_entries(server, bar..end_of_row, chart)
    }

    /// Draws a letter for each index of a log.
    fn draw_entries(
        &self,
        server: &Server,
        indexes: Range<u64>,
        chart: &mut String,
    ) -> Result<(), AllocError> {
        for index in indexes {
            chart.push(self.sign_at(server, index))?;
        }
        Ok(())
    }

    /// Returns the sign of an index of a log.
    fn sign_at(&self, server: &Server, index: u64) -> char {
        if index < server.state.purged_next {
            return '.';
        }
        match server.state.get_log_id(index) {
            Some(log_id) => self.letter(log_id.leader_id),
            None => ' ',
        }
    }

    /// Returns the letter of a leader: `a` for the one that has started the cluster, and the next
    /// letters for those that were elected.
    fn letter(&self, leader_id: CommittedLeaderId) -> char {
        match self.history.leaders.get(&leader_id) {
            Some(leader) => char::from(b'b' + (leader.number % 25) as u8),
            None => 'a',
        }
    }
}

/// Returns the letter of a server's role.
fn letter_of(server: &Server) -> char {
    match &server.role {
        Role::Leader(_) => 'L',
        Role::Candidate(_) => 'C',
        Role::Follower if server.members().is_voter(&server.id) => 'F',
        Role::Follower => 'N',
    }
}

/// Draws the voters of each config, and the learners.
fn draw_members(members: &Members, chart: &mut String) -> Result<(), AllocError> {
    let mut sign = ' ';
    for config in members.get_joint_config() {
        chart.push(sign)?;
        sign = '&';
        for id in config {
            draw_id(*id, chart)?;
        }
    }
    let mut sign = Some('+');
    for id in members.learner_ids() {
        if let Some(plus) = sign.take() {
            chart.push(plus)?;
        }
        draw_id(id, chart)?;
    }
    Ok(())
}

/// Draws a node id in decimal digits.
fn draw_id(id: u64, chart: &mut String) -> Result<(), AllocError> {
    write!(chart, "{id}")
}
