//! The default leader ids.
ghost use Rattle.std.specs.Prelude.{◌≡◌, Some};
ghost use Rattle.std.specs.Ordering.{is_eq};
ghost use Rattle.raft_base.specs.LeaderId.{leader_id_cmp};

use crate::node::NodeId;
use std::fmt;

/// Identifies a leader: the term, and the node that leads in it.
///
/// Leader ids are compared by term, then by node id, so any two candidates compare. If the votes of
/// a term are split, a candidate with a greater node id can still win that term. In standard Raft,
/// where a node votes once in a term, such a term has no leader.
#[derive(Debug, Clone, Copy, Default, PartialEq, Eq, PartialOrd, Ord)]
pub struct LeaderId<NID: NodeId> {
    /// The term in which the node leads or means to lead.
    pub term: u64,
    /// The node.
    pub node_id: NID,
}

/// The committed leader id: what a log id stores of an elected leader.
///
/// It has to distinguish elected leaders. For the default kind it is the whole leader id.
pub type CommittedLeaderId<NID> = LeaderId<NID>;

impl<NID: NodeId> LeaderId<NID> {
    /// Returns the leader id of a node in a term.
    pub fn new(term: u64, node_id: NID) -> Self
        ensures { result ≡ record { term = term; node_id = node_id } }
    {
        LeaderId { term, node_id }
    }

    /// Returns the term.
    pub fn get_term(&self) -> u64
        ensures { result ≡ self.now.term }
    {
        self.term
    }

    /// Returns the node that the vote is for. There is always one.
    pub fn voted_for(&self) -> Option<NID>
        ensures { result ≡ Some self.now.node_id }
    {
        Some(self.node_id)
    }

    /// Returns the committed leader id, which is the leader id itself.
    pub fn to_committed(&self) -> CommittedLeaderId<NID>
        ensures { result ≡ self.now }
    {
        *self
    }

    /// Whether `other` is the committed leader id of this leader.
    pub fn is_same_as_committed(&self, other: &CommittedLeaderId<NID>) -> bool
        ensures { result ≡ is_eq (leader_id_cmp NID.cmp self.now other.now) }
    {
        self == other
    }
}

impl<NID: NodeId> fmt::Display for LeaderId<NID> {
    fn fmt<W: fmt::Write>(&self, f: &mut fmt::Formatter<W>) -> fmt::Result {
        let LeaderId { term, node_id } = self;
        write!(f, "T{term}-N{node_id}")
    }
}
