//! The rules that a recorded event can break.

use std::error::Error;
use std::fmt;

/// A rule that an event breaks.
#[derive(Debug, Clone, Copy, PartialEq, Eq)]
pub enum Rule {
    /// Quorums of the initial config have to intersect each other.
    InitialConfig,
    /// A server does not go back to a term. It campaigns only in a term that it has not reached,
    /// and it votes once in a term.
    PassedTerm,
    /// A server campaigns once in a term.
    CampaignedTwice,
    /// A vote is for a server that has started a campaign.
    NoCampaign,
    /// A vote of a server for itself is recorded by its campaign alone.
    OwnCandidate,
    /// A vote is for a candidate whose log is at least as up to date as the voter's.
    CandidateBehind,
    /// A leader has the votes of a quorum.
    NotElected,
    /// A server keeps no more entries than it has.
    MissingEntries,
    /// A server keeps each entry up to which its log matches the leader's log.
    DropsMatching,
    /// The log of a server becomes a prefix of what it was or of the leader's log.
    ForeignEntries,
    /// A server acknowledges entries in a term that it has reached.
    TermNotReached,
    /// Nothing is acknowledged or counted that the leader has not written.
    NotWritten,
    /// A server acknowledges entries that it has had since it was in the term.
    NotKept,
    /// A restart keeps what is durable.
    LostAcked,
    /// An entry that a leader writes is of its own term.
    OtherTerm,
    /// Quorums of a new config intersect those of the config in effect.
    ApartConfigs,
    /// Quorums of a new config intersect each other.
    ApartQuorums,
    /// A leader proposes a config once it has committed an entry of its own term, and all configs.
    EarlyConfig,
    /// A leader commits an entry of its own term, and earlier entries only with it.
    EarlierTerm,
    /// A quorum is counted when the committed entries are written.
    CountedEarly,
    /// If a config counts once it is applied, a leader counts by a config among the entries that it
    /// commits.
    CountedLate,
    /// If a config counts once it is applied, a leader counts by a config that it knows to be
    /// committed: by a leader of an earlier term, or by itself, counting by an earlier config.
    UnknownConfig,
    /// If a config counts once it is applied, at most one config follows the one that a leader
    /// counts by, among the entries that it commits.
    ConfigsFollow,
    /// A quorum has acknowledged what is committed.
    NoQuorum,
    /// A server applies entries that are in its log and in the leader's log.
    NotInLog,
    /// A server applies entries that are committed.
    NotCommitted,
}

impl Rule {
    /// Returns the error message of an event that breaks the rule.
    fn text(self) -> &'static str {
        match self {
            Rule::InitialConfig => "quorums of the initial config are not known to intersect",
            Rule::PassedTerm => "the server has reached or passed the term already",
            Rule::CampaignedTwice => "the server has already campaigned in the term",
            Rule::NoCampaign => "the candidate has not campaigned in the term",
            Rule::OwnCandidate => "the server is the candidate",
            Rule::CandidateBehind => "the candidate's log is not as up to date as the server's",
            Rule::NotElected => "the leader is not elected in the term",
            Rule::MissingEntries => "the server does not have so many entries",
            Rule::DropsMatching => "the server drops entries that match the leader's log",
            Rule::ForeignEntries => {
                "the server's log is a prefix of neither its earlier log nor the leader's log"
            }
            Rule::TermNotReached => "the server has not reached the term",
            Rule::NotWritten => "the leader has not written so many entries",
            Rule::NotKept => "the server has not kept the leader's entries since the term",
            Rule::LostAcked => "the server has lost durable entries",
            Rule::OtherTerm => "the entry is of another term",
            Rule::ApartConfigs => {
                "quorums of the new config and the config in effect are not known to intersect"
            }
            Rule::ApartQuorums => "quorums of the new config are not known to intersect",
            Rule::EarlyConfig => {
                "the leader has not committed an own entry and the config in effect"
            }
            Rule::EarlierTerm => "the last committed entry is of an earlier term",
            Rule::CountedEarly => "the quorum is counted before the entries are written",
            Rule::CountedLate => "the quorum is counted by a config after the committed entries",
            Rule::UnknownConfig => "the config of the quorum is not known to be committed",
            Rule::ConfigsFollow => "more than one config follows the config of the quorum",
            Rule::NoQuorum => "no quorum has acknowledged the entries",
            Rule::NotInLog => "the server's log does not begin with the leader's entries",
            Rule::NotCommitted => "the entries are not known to be committed",
        }
    }
}

impl fmt::Display for Rule {
    fn fmt<W: fmt::Write>(&self, f: &mut fmt::Formatter<W>) -> fmt::Result {
        f.write_str(self.text())
    }
}

impl Error for Rule {}
