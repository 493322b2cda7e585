//! The lines that later lines may contradict.

use crate::event::Act;
use std::alloc::{AllocError, Global};
use std::collections::BTreeMap;
use trace_checker::event::Event;

/// Where a line is: the number of its list, and its number in this list.
#[derive(Clone, Copy)]
pub struct Place {
    /// The number of the list.
    pub list: usize,
    /// The number of the line in the list.
    pub line: u64,
}

/// A vote or a campaign.
#[derive(Clone, Copy)]
pub struct Vote {
    /// The term.
    pub term: u64,
    /// The candidate, which is the server itself if it campaigns.
    pub candidate: u64,
    /// Where the line is.
    pub place: Place,
}

/// A campaign of a candidate in a term.
#[derive(Drop)]
struct Campaign {
    /// Where the line is.
    place: Place,
    /// The servers that have voted for the candidate, which has voted for itself.
    voters: Vec<u64>,
}

/// An acknowledgement.
#[derive(Clone, Copy)]
pub struct Acknowledged {
    /// The term.
    pub term: u64,
    /// The leader.
    pub leader: u64,
    /// How many first entries.
    pub len: usize,
    /// Where the line is.
    pub place: Place,
}

/// The entries that the leader of a term has written.
#[derive(Drop)]
struct Written {
    /// The leader.
    leader: u64,
    /// How many entries the leader had before.
    start: usize,
    /// Where the lines are.
    places: Vec<Place>,
}

/// The lines that later lines may contradict.
#[derive(Drop)]
pub struct Facts {
    alloc: Global,
    /// The last vote or campaign of each server.
    votes: BTreeMap<u64, Vote>,
    /// The campaigns of candidates in terms.
    campaigns: BTreeMap<(u64, u64), Campaign>,
    /// Acknowledgements of each server, the last one at the end: each is of fewer entries than the
    /// one before it. The others say nothing that a later one does not say too.
    acks: BTreeMap<u64, Vec<Acknowledged>>,
    /// The entries that were written in each term.
    written: BTreeMap<u64, Written>,
}

impl Facts {
    /// Returns no line.
    pub fn new(alloc: Global) -> Facts {
        Facts {
            alloc,
            votes: BTreeMap::new(alloc),
            campaigns: BTreeMap::new(alloc),
            acks: BTreeMap::new(alloc),
            written: BTreeMap::new(alloc),
        }
    }

    /// Notes the line of an event. A leader has so many entries after it.
    pub fn note(&mut self, place: Place, event: &Act, leader_len: usize) -> Result<(), AllocError> {
        match event {
            Event::Campaigned { server, term } => {
                let voters = Vec::new(self.alloc);
                self.campaigns
                    .insert((*term, *server), Campaign { place, voters })?;
                self.note_vote(*server, *term, *server, place)
            }
            Event::Granted {
                server,
                term,
                candidate,
            } => self.note_vote(*server, *term, *candidate, place),
            Event::Acked {
                server,
                term,
                leader,
                len,
            } => self.note_ack(*server, *term, *leader, *len, place),
            Event::Wrote { leader, term, .. } => {
                self.note_written(*leader, *term, leader_len, place)
            }
            _ => Ok(()),
        }
    }

    /// Notes the line of a vote or a campaign.
    fn note_vote(
        &mut self,
        server: u64,
        term: u64,
        candidate: u64,
        place: Place,
    ) -> Result<(), AllocError> {
        let vote = Vote {
            term,
            candidate,
            place,
        };
        self.votes.insert(server, vote)?;
        if let Some(campaign) = self.campaigns.get_mut(&(term, candidate)) {
            campaign.voters.push(server)?;
        }
        Ok(())
    }

    /// Notes the line of an acknowledgement.
    fn note_ack(
        &mut self,
        server: u64,
        term: u64,
        leader: u64,
        len: usize,
        place: Place,
    ) -> Result<(), AllocError> {
        let ack = Acknowledged {
            term,
            leader,
            len,
            place,
        };
        if let Some(acks) = self.acks.get_mut(&server) {
            return note_last(acks, ack);
        }
        let mut acks = Vec::new(self.alloc);
        acks.push(ack)?;
        self.acks.insert(server, acks)?;
        Ok(())
    }

    /// Notes the line of an entry. Its leader has so many entries after it.
    fn note_written(
        &mut self,
        leader: u64,
        term: u64,
        len: usize,
        place: Place,
    ) -> Result<(), AllocError> {
        if let Some(written) = self.written.get_mut(&term) {
            written.places.push(place)?;
            return Ok(());
        }
        let mut places = Vec::new(self.alloc);
        places.push(place)?;
        let written = Written {
            leader,
            start: len.saturating_sub(1),
            places,
        };
        self.written.insert(term, written)?;
        Ok(())
    }

    /// Returns the last vote or campaign of a server.
    pub fn last_vote(&self, server: u64) -> Option<Vote> {
        self.votes.get(&server).copied()
    }

    /// Returns the campaign of a candidate in a term.
    pub fn campaign(&self, term: u64, candidate: u64) -> Option<Place> {
        Some(self.campaigns.get(&(term, candidate))?.place)
    }

    /// Returns the servers that have voted for a candidate in a term, also the candidate.
    pub fn voters(&self, term: u64, candidate: u64) -> &[u64] {
        match self.campaigns.get(&(term, candidate)) {
            Some(campaign) => &campaign.voters,
            None => &[],
        }
    }

    /// Returns the servers that have acknowledged so many first entries to the leader of a term,
    /// without those that have acknowledged more since, to another leader.
    pub fn acked_by(&self, term: u64, leader: u64, len: usize) -> Result<Vec<u64>, AllocError> {
        let mut servers = Vec::new(self.alloc);
        for (server, acks) in &self.acks {
            if have_acked(acks, term, leader, len) {
                servers.push(*server)?;
            }
        }
        Ok(servers)
    }

    /// Returns the last acknowledgement of a server that is of more than so many first entries. If
    /// the server must not lose the next entry, this acknowledgement is a reason.
    pub fn last_ack_after(&self, server: u64, len: usize) -> Option<Acknowledged> {
        let acks = self.acks.get(&server)?;
        let count = acks.partition_point(|ack| len < ack.len);
        acks.get(count.checked_sub(1)?).copied()
    }

    /// Returns who has written the last of so many first entries, which is of this term, and where
    /// the line is.
    pub fn written(&self, term: u64, len: usize) -> Option<(u64, Place)> {
        let written = self.written.get(&term)?;
        let number = len.checked_sub(written.start)?.checked_sub(1)?;
        let place = written.places.get(number)?;
        Some((written.leader, *place))
    }
}

/// Whether one of these acknowledgements is of so many first entries of the leader of a term.
fn have_acked(acks: &[Acknowledged], term: u64, leader: u64, len: usize) -> bool {
    for ack in acks {
        if ack.term == term && ack.leader == leader && len <= ack.len {
            return true;
        }
    }
    false
}

/// Notes an acknowledgement as the last one.
fn note_last(acks: &mut Vec<Acknowledged>, ack: Acknowledged) -> Result<(), AllocError> {
    let len = ack.len;
    let count = acks.partition_point(|earlier| len < earlier.len);
    acks.truncate(count);
    acks.push(ack)?;
    Ok(())
}
