//! The lines that a refused line contradicts.

use crate::facts::{Place, Vote};
use crate::field::{entries, event_name, id, len, number};
use crate::input::Lines;
use crate::judge::Judge;
use safety_laws::rule::Rule;
use serde_json::Value;
use std::alloc::{AllocError, Global};
use trace_checker::entry::Entry;

/// A refused line, and what was judged before it.
#[derive(Drop)]
pub struct RefusedLine<'a, B> {
    /// The lists of lines.
    pub lists: &'a [Lines<B>],
    /// The judge that has refused the line.
    pub judge: &'a Judge,
    /// The value of the line.
    pub value: &'a Value,
}

impl<'a, B> RefusedLine<'a, B> {
    /// Writes the lines that the line contradicts, which breaks this rule, as far as they are known.
    pub fn push_contradicted(
        &self,
        alloc: Global,
        answer: &mut String,
        rule: Rule,
    ) -> Result<(), AllocError> {
        match (event_name(self.value).unwrap_or(""), rule) {
            ("granted", _) if self.is_own_vote() => {
                answer.push_str(
                    "  leave this line out: `campaigned` is the vote of a server for itself\n",
                )
            }
            ("granted" | "campaigned", Rule::PassedTerm | Rule::CampaignedTwice) => {
                self.push_vote(answer, self.server(), self.term())
            }
            ("appended", Rule::PassedTerm | Rule::NotElected) => {
                self.push_vote(answer, self.server(), self.term().saturating_add(1))
            }
            ("granted", Rule::NoCampaign) => {
                self.push_vote(answer, self.id("candidate"), self.term())?;
                self.push_vote(answer, self.server(), self.term())
            }
            ("granted", Rule::CandidateBehind) => {
                self.push_campaign(answer)?;
                self.push_last_entry(answer)
            }
            ("restarted", Rule::LostAcked) => self.push_ack(answer),
            ("appended", Rule::ForeignEntries) => self.push_foreign(alloc, answer),
            ("appended", Rule::DropsMatching) => self.push_dropped(alloc, answer),
            ("acked", Rule::NotKept) => self.push_missing(answer, self.len("index")),
            ("committed", Rule::EarlierTerm) => self.push_entry(answer, self.len("index")),
            _ => Ok(()),
        }
    }

    /// Returns the number of a field that is a name.
    pub fn id(&self, name: &str) -> Option<u64> {
        id(&self.judge.names, self.value, name)
    }

    /// Returns the server of the line, if it has one.
    pub fn server(&self) -> Option<u64> {
        self.id("server")
    }

    /// Whether the line says that a server votes for itself.
    fn is_own_vote(&self) -> bool {
        self.server() == self.id("candidate")
    }

    /// Returns the term of the line, 0 if it has none.
    pub fn term(&self) -> u64 {
        number(self.value, "term").unwrap_or(0)
    }

    /// Returns the number of entries up to the index of a field, 0 if the line has none.
    pub fn len(&self, name: &str) -> usize {
        len(self.value, name, self.judge.first).unwrap_or(0)
    }

    /// Returns the last of so many first entries of the leader of the line, if it has so many.
    pub fn leader_entry(&self, len: usize) -> Option<Entry<u64, u64>> {
        let leader = self.id("leader")?;
        self.judge.checker.leader_entry(self.term(), leader, len)
    }

    /// Returns how many first entries the server and the leader of the line have in common.
    pub fn common_len(&self) -> Option<usize> {
        let server = self.server()?;
        let leader = self.id("leader")?;
        Some(self.judge.checker.common_len(server, self.term(), leader))
    }

    /// Returns how many of the entries that are sent, from the first one on, the leader of the line
    /// has after so many entries.
    pub fn matching_len(&self, keep: usize, sent: &[Entry<u64, u64>]) -> usize {
        for (i, entry) in sent.iter().enumerate() {
            let len = keep.saturating_add(i).saturating_add(1);
            match self.leader_entry(len) {
                Some(own) if own.term == entry.term && own.content == entry.content => {}
                _ => return i,
            }
        }
        sent.len()
    }

    /// Writes where a line is.
    fn push_place(&self, answer: &mut String, place: Place) -> Result<(), AllocError> {
        match self.lists.get(place.list).and_then(Lines::path) {
            Some(name) => write!(answer, "  {name}:{}: ", place.line)?,
            None => write!(answer, "  line {}: ", place.line)?,
        }
        Ok(())
    }

    /// Writes the last vote or campaign of a server, if it is in this term or a later one.
    fn push_vote(
        &self,
        answer: &mut String,
        server: Option<u64>,
        term: u64,
    ) -> Result<(), AllocError> {
        let Some(server) = server else {
            return Ok(());
        };
        match self.judge.facts.last_vote(server) {
            Some(vote) if term <= vote.term => self.push_voted(answer, server, vote),
            _ => Ok(()),
        }
    }

    /// Writes a vote or a campaign of a server.
    fn push_voted(&self, answer: &mut String, server: u64, vote: Vote) -> Result<(), AllocError> {
        self.push_place(answer, vote.place)?;
        answer.push_str("server ")?;
        self.judge.names.push(answer, server)?;
        if vote.candidate == server {
            writeln!(answer, " campaigns in term {}", vote.term)?;
            return Ok(());
        }
        write!(answer, " votes in term {} for ", vote.term)?;
        self.judge.names.push(answer, vote.candidate)?;
        writeln!(answer, "")?;
        Ok(())
    }

    /// Writes the campaign of the candidate of the line.
    fn push_campaign(&self, answer: &mut String) -> Result<(), AllocError> {
        let Some(candidate) = self.id("candidate") else {
            return Ok(());
        };
        let term = self.term();
        let Some(place) = self.judge.facts.campaign(term, candidate) else {
            return Ok(());
        };
        let vote = Vote {
            term,
            candidate,
            place,
        };
        self.push_voted(answer, candidate, vote)
    }

    /// Writes the last entry of the server.
    fn push_last_entry(&self, answer: &mut String) -> Result<(), AllocError> {
        let Some(server) = self.server() else {
            return Ok(());
        };
        let len = self.judge.checker.server_len(server);
        match self.judge.checker.server_entry(server, len) {
            Some(last) => self.push_written(answer, last.term, len),
            None => Ok(()),
        }
    }

    /// Writes the last acknowledgement of an entry that the server has lost.
    fn push_ack(&self, answer: &mut String) -> Result<(), AllocError> {
        let Some(server) = self.server() else {
            return Ok(());
        };
        let Some(ack) = self.judge.facts.last_ack_after(server, self.len("index")) else {
            return Ok(());
        };
        let index = self.judge.index(ack.len);
        self.push_place(answer, ack.place)?;
        answer.push_str("server ")?;
        self.judge.names.push(answer, server)?;
        write!(answer, " acknowledges index {index} to ")?;
        self.judge.names.push(answer, ack.leader)?;
        writeln!(answer, " in term {}", ack.term)?;
        Ok(())
    }

    /// Writes the first entry of the leader from which the entries of the line differ, and the one
    /// of the line. If they do not differ, the entries before them do.
    fn push_foreign(&self, alloc: Global, answer: &mut String) -> Result<(), AllocError> {
        let Some(sent) = entries(alloc, &self.judge.names, self.value)? else {
            return Ok(());
        };
        let keep = self.len("prev");
        let matching = self.matching_len(keep, &sent);
        if matching < sent.len() {
            let len = keep.saturating_add(matching).saturating_add(1);
            return self.push_differing(answer, len, sent.get(matching).copied());
        }
        self.push_missing(answer, keep)
    }

    /// Writes the first entry of the leader that the server had, and drops.
    fn push_dropped(&self, alloc: Global, answer: &mut String) -> Result<(), AllocError> {
        let kept = match entries(alloc, &self.judge.names, self.value)? {
            Some(sent) => {
                let keep = self.len("prev");
                keep.saturating_add(self.matching_len(keep, &sent))
            }
            None => self.len("index"),
        };
        self.push_entry(answer, kept.saturating_add(1))
    }

    /// Writes the first entry of the leader that the server does not have, if it is one of so many.
    fn push_missing(&self, answer: &mut String, len: usize) -> Result<(), AllocError> {
        match self.common_len() {
            Some(common) if common < len => {
                let next = common.saturating_add(1);
                let server = self.server().unwrap_or(0);
                self.push_differing(answer, next, self.judge.checker.server_entry(server, next))
            }
            _ => Ok(()),
        }
    }

    /// Writes the last of so many first entries of the leader, and the entry that the server has in
    /// its place, if it has one.
    fn push_differing(
        &self,
        answer: &mut String,
        len: usize,
        own: Option<Entry<u64, u64>>,
    ) -> Result<(), AllocError> {
        self.push_entry(answer, len)?;
        let Some(own) = own else {
            return Ok(());
        };
        let Some(entry) = self.leader_entry(len) else {
            return Ok(());
        };
        let index = self.judge.index(len);
        write!(answer, "  at index {index} the server has the content ")?;
        self.judge.names.push(answer, own.content)?;
        write!(answer, " of term {}, and the leader ", own.term)?;
        self.judge.names.push(answer, entry.content)?;
        writeln!(answer, " of term {}", entry.term)?;
        Ok(())
    }

    /// Writes the last of so many first entries of the leader.
    fn push_entry(&self, answer: &mut String, len: usize) -> Result<(), AllocError> {
        match self.leader_entry(len) {
            Some(entry) => self.push_written(answer, entry.term, len),
            None => Ok(()),
        }
    }

    /// Writes that a leader has written the last of so many first entries, which is of this term.
    fn push_written(&self, answer: &mut String, term: u64, len: usize) -> Result<(), AllocError> {
        let Some((leader, place)) = self.judge.facts.written(term, len) else {
            return Ok(());
        };
        let index = self.judge.index(len);
        self.push_place(answer, place)?;
        answer.push_str("leader ")?;
        self.judge.names.push(answer, leader)?;
        writeln!(answer, " writes index {index} in term {term}")?;
        Ok(())
    }
}
