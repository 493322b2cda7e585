//! The event that a refused line waits for.

use crate::field::{entries, event_name};
use crate::judge::Judge;
use crate::why::RefusedLine;
use safety_laws::rule::Rule;
use std::alloc::{AllocError, Global};

/// An event that no line so far says, and without which a line is refused.
#[derive(Clone, Copy)]
pub enum Missing {
    /// There is none: the line is refused whatever other servers still say.
    Nothing,
    /// A server campaigns in a term.
    Campaign { server: u64, term: u64 },
    /// A quorum votes for a candidate in a term.
    Votes { candidate: u64, term: u64 },
    /// A leader writes the last of so many first entries.
    Entry { leader: u64, term: u64, len: usize },
    /// A quorum acknowledges so many first entries to a leader.
    Acks { leader: u64, term: u64, len: usize },
    /// So many first entries are committed, by this leader if one is known.
    Commit { leader: Option<u64>, len: usize },
}

impl Missing {
    /// Returns the server whose lines have the event, or come after those that it needs.
    pub fn server(&self) -> Option<u64> {
        match self {
            Missing::Nothing => None,
            Missing::Campaign { server, .. } => Some(*server),
            Missing::Votes { candidate, .. } => Some(*candidate),
            Missing::Entry { leader, .. } | Missing::Acks { leader, .. } => Some(*leader),
            Missing::Commit { leader, .. } => *leader,
        }
    }

    /// Writes which event is missing.
    pub fn push(&self, answer: &mut String, judge: &Judge) -> Result<(), AllocError> {
        let names = &judge.names;
        match self {
            Missing::Nothing => return Ok(()),
            Missing::Campaign { server, term } => {
                answer.push_str("  no line so far says that ")?;
                names.push(answer, *server)?;
                write!(answer, " campaigned in term {term}")?;
            }
            Missing::Votes { candidate, term } => {
                answer.push_str("  no quorum so far has voted for ")?;
                names.push(answer, *candidate)?;
                write!(answer, " in term {term}")?;
                push_servers(answer, judge, judge.facts.voters(*term, *candidate))?;
            }
            Missing::Entry { leader, term, len } => {
                answer.push_str("  no line so far says that ")?;
                names.push(answer, *leader)?;
                write!(answer, " wrote index {} in term {term}", judge.index(*len))?;
            }
            Missing::Acks { leader, term, len } => {
                write!(
                    answer,
                    "  no quorum so far has acknowledged index {} to ",
                    judge.index(*len)
                )?;
                names.push(answer, *leader)?;
                write!(answer, " in term {term}")?;
                let servers = judge.facts.acked_by(*term, *leader, *len)?;
                push_servers(answer, judge, &servers)?;
            }
            Missing::Commit { leader, len } => {
                answer.push_str("  no line so far says that ")?;
                match leader {
                    Some(leader) => names.push(answer, *leader)?,
                    None => answer.push_str("a leader")?,
                }
                write!(answer, " committed index {}", judge.index(*len))?;
            }
        }
        answer.push('\n')
    }
}

/// Writes the servers that have said what a quorum has to say.
fn push_servers(answer: &mut String, judge: &Judge, servers: &[u64]) -> Result<(), AllocError> {
    for (i, server) in servers.iter().enumerate() {
        answer.push_str(if i == 0 { ", only " } else { ", " })?;
        judge.names.push(answer, *server)?;
    }
    Ok(())
}

impl<'a, B> RefusedLine<'a, B> {
    /// Returns the event without which the line is refused, by this rule. The lines of a server are
    /// in their order, so it is not an event of the server of the line.
    pub fn missing(&self, alloc: Global, rule: Rule) -> Result<Missing, AllocError> {
        if self.has_passed() {
            return Ok(Missing::Nothing);
        }
        Ok(match rule {
            Rule::NoCampaign => self.campaign_of(self.id("candidate")),
            Rule::NotElected => self.election(),
            Rule::NotWritten => self.next_entry(),
            Rule::ForeignEntries => self.entry_of_append(alloc)?,
            Rule::NoQuorum => self.acks(),
            Rule::NotCommitted => self.commit(),
            Rule::UnknownConfig => self.commit_of_config(),
            _ => Missing::Nothing,
        })
    }

    /// Returns the server that the line is of.
    pub fn actor(&self) -> Option<u64> {
        self.server().or_else(|| self.id("leader"))
    }

    /// Whether the server has voted or campaigned in a term after which it may not say the line.
    fn has_passed(&self) -> bool {
        let term = match event_name(self.value).unwrap_or("") {
            "granted" => self.term(),
            "appended" => self.term().saturating_add(1),
            _ => return false,
        };
        match self.judge.facts.last_vote(self.actor().unwrap_or(0)) {
            Some(vote) => term <= vote.term,
            None => false,
        }
    }

    /// Returns that a server campaigns in the term of the line, if the server may still do that.
    fn campaign_of(&self, server: Option<u64>) -> Missing {
        let term = self.term();
        match server {
            Some(server) if self.actor() != Some(server) && !self.judge.has_reached(server, term) =>
                { Missing::Campaign { server, term } }
            _ => Missing::Nothing,
        }
    }

    /// Returns that the leader of the line campaigns, or that a quorum votes for it.
    fn election(&self) -> Missing {
        let term = self.term();
        match self.id("leader") {
            Some(candidate) if self.judge.facts.campaign(term, candidate).is_some() => {
                Missing::Votes { candidate, term }
            }
            leader => self.campaign_of(leader),
        }
    }

    /// Returns that the leader of the line writes its next entry. The leader of a line `applied` is
    /// not known.
    fn next_entry(&self) -> Missing {
        let term = self.term();
        let Some(leader) = self.id("leader") else {
            return self.commit();
        };
        let Some(len) = self.judge.checker.leader_len(term, leader) else {
            return self.campaign_of(Some(leader));
        };
        if self.actor() == Some(leader) {
            return Missing::Nothing;
        }
        let len = len.saturating_add(1);
        Missing::Entry { leader, term, len }
    }

    /// Returns that the leader of the line writes its next entry, unless an entry that it has written
    /// differs from the one that the server takes or keeps.
    fn entry_of_append(&self, alloc: Global) -> Result<Missing, AllocError> {
        let Some(sent) = entries(alloc, &self.judge.names, self.value)? else {
            return Ok(Missing::Nothing);
        };
        let keep = self.len("prev");
        let common = self.common_len().unwrap_or(0);
        let matching = self.matching_len(keep, &sent);
        let kept_differs = common < keep && self.leader_entry(common.saturating_add(1)).is_some();
        let sent_differs = matching < sent.len()
            && self
                .leader_entry(keep.saturating_add(matching).saturating_add(1))
                .is_some();
        if kept_differs || sent_differs {
            return Ok(Missing::Nothing);
        }
        Ok(self.next_entry())
    }

    /// Returns that a quorum acknowledges the entries that the line commits.
    fn acks(&self) -> Missing {
        match self.id("leader") {
            Some(leader) => Missing::Acks {
                leader,
                term: self.term(),
                len: self.len("index"),
            },
            None => Missing::Nothing,
        }
    }

    /// Returns that the entries of the line are committed, by the leader that the server has
    /// followed last.
    fn commit(&self) -> Missing {
        let server = self.actor().unwrap_or(0);
        let leader = match self.judge.followers.last(server, 0) {
            Some(followed) => Some(followed.leader),
            None => None,
        };
        Missing::Commit {
            leader,
            len: self.len("index"),
        }
    }

    /// Returns that the config is committed that comes before the last one among the entries of the
    /// line.
    fn commit_of_config(&self) -> Missing {
        let leader = self.id("leader").unwrap_or(0);
        let lens = self
            .judge
            .checker
            .config_lens(self.term(), leader, self.len("index"));
        match lens {
            Some((_, len)) => Missing::Commit { leader: None, len },
            None => Missing::Nothing,
        }
    }
}

impl Judge {
    /// Whether a server has voted or campaigned in this term or a later one, or has followed the
    /// leader of one.
    fn has_reached(&self, server: u64, term: u64) -> bool {
        if let Some(vote) = self.facts.last_vote(server)
            && term <= vote.term
        {
            return true;
        }
        match self.followers.last(server, 0) {
            Some(followed) => term <= followed.term,
            None => false,
        }
    }
}
