//! The leader ids of standard Raft, where a node votes once in a term.
ghost use Rattle.std.specs.Prelude.{◌≡◌, Some, None, nat_eq, refl};
ghost use Rattle.std.specs.Ordering.{nat_cmp};
ghost use Rattle.raft_base.specs.LeaderIdStd.{std_leader_cmp, voted_cmp};
ghost use Rattle.raft_base.specs.LeaderIdStdLawful.{alike_above, alike_below, first_decides, lesser_term, one_term, same_term, term_at_most, term_then_voted-partial};
ghost use Rattle.raft_base.specs.LeaderIdLawful.{apart};
ghost use Rattle.raft_base.specs.LeaderOrderLawful.{alike_if};

use crate::display_ext::DisplayOption;
use crate::kind::{LeaderIdentity, LeaderKind};
use crate::node::NodeId;
use crate::vote::VoteOf;
use std::cmp::Ordering;
use std::fmt;

/// Identifies a leader: the term, and the node that the vote is for, if there is one.
///
/// Leader ids are compared by term. In one term a vote for nobody is below each vote for a node,
/// and votes for two different nodes do not compare, because a quorum elects at most one of them.
#[derive(Debug, Clone, Copy, Default, PartialEq, Eq)]
pub struct LeaderId<NID: NodeId> {
    /// The term in which the node leads or means to lead.
    pub term: u64,
    /// The node, if there is one.
    pub voted_for: Option<NID>,
}

/// The committed leader id: the term of a leader that a quorum has elected.
///
/// A term has at most one elected leader, so the term is enough.
#[derive(Debug, Clone, Copy, Default, PartialEq, Eq, PartialOrd, Ord)]
pub struct CommittedLeaderId {
    /// The term in which the leader was elected.
    pub term: u64,
}

impl CommittedLeaderId {
    /// Returns the committed leader id of a node in a term.
    pub fn new<NID: NodeId>(term: u64, _node_id: NID) -> Self
        ensures { result ≡ record { term = term } }
    {
        CommittedLeaderId { term }
    }
}

impl fmt::Display for CommittedLeaderId {
    fn fmt<W: fmt::Write>(&self, f: &mut fmt::Formatter<W>) -> fmt::Result {
        write!(f, "{}", self.term)
    }
}

impl<NID: NodeId> LeaderId<NID> {
    /// Returns the leader id of a node in a term.
    pub fn new(term: u64, node_id: NID) -> Self
        ensures { result ≡ record { term = term; voted_for = Some node_id } }
    {
        LeaderId {
            term,
            voted_for: Some(node_id),
        }
    }

    /// Returns the term.
    pub fn get_term(&self) -> u64
        ensures { result ≡ self.now.term }
    {
        self.term
    }

    /// Returns the node that the vote is for, if there is one.
    pub fn voted_for(&self) -> Option<NID>
        ensures { result ≡ self.now.voted_for }
    {
        self.voted_for
    }

    /// Returns the committed leader id: the term.
    pub fn to_committed(&self) -> CommittedLeaderId
        ensures { result ≡ record { term = self.now.term } }
    {
        CommittedLeaderId { term: self.term }
    }

    /// Whether `other` is the committed leader id of this leader: whether the terms are equal.
    pub fn is_same_as_committed(&self, other: &CommittedLeaderId) -> bool
        ensures { result ≡ nat_eq self.now.term other.now.term }
    {
        self.term == other.term
    }
}

impl<NID: NodeId> PartialOrd for LeaderId<NID> {
    ghost partial_cmp = { std_leader_cmp NID.eq };

    ghost laws = { term_then_voted-partial NID.Eq.laws (λ a. a.term) (λ a. a.voted_for) };

    fn partial_cmp(&self, other: &Self) -> Option<Ordering> {
        match self.term.cmp(&other.term) {
            Ordering::Equal => compare_voted(self.voted_for, other.voted_for),
            decided => Some(decided),
        }
    }
}

/// Returns how two votes of one term compare by the node that they are for, or `None` if the nodes
/// differ.
fn compare_voted<NID: NodeId>(a: Option<NID>, b: Option<NID>) -> Option<Ordering>
    ensures { result ≡ voted_cmp NID.eq a b }
{
    match (a, b) {
        (None, None) => Some(Ordering::Equal),
        (None, Some(_)) => Some(Ordering::Less),
        (Some(_), None) => Some(Ordering::Greater),
        // A quorum can elect only one of two nodes.
        (Some(a), Some(b)) => (a == b).then_some(Ordering::Equal),
    }
}

impl<NID: NodeId> fmt::Display for LeaderId<NID> {
    fn fmt<W: fmt::Write>(&self, f: &mut fmt::Formatter<W>) -> fmt::Result {
        let LeaderId { term, voted_for } = self;
        let voted_for = DisplayOption(voted_for);
        write!(f, "T{term}-N{voted_for}")
    }
}

/// Votes with the leader ids of standard Raft.
pub type Vote<NID> = VoteOf<NID, LeaderStd>;

/// The kind of leader ids of standard Raft: at most one node can lead in a term.
#[derive(Debug, Clone, Copy, Default, PartialEq, Eq)]
pub struct LeaderStd;

impl<NID: NodeId> LeaderKind<NID> for LeaderStd {
    type Leader = LeaderId<NID>;

    type Committed = CommittedLeaderId;
}

impl<NID: NodeId> LeaderIdentity for LeaderId<NID> {
    type Id = NID;

    type Committed = CommittedLeaderId;

    ghost order = { std_leader_cmp NID.eq };

    ghost term_of = { λ a. a.term };

    ghost voted = { λ a. a.voted_for };

    ghost committed = { λ a. record { term = a.term } };

    ghost leader_of = { λ t n. record { term = t; voted_for = Some n } };

    ghost committed_of = { λ t n. record { term = t } };

    ghost same_as = { λ a c. nat_eq a.term c.term };

    fn compare(a: &Self, b: &Self) -> Option<Ordering> {
        a.partial_cmp(b)
    }

    fn new_leader(term: u64, id: NID) -> Self {
        Self::new(term, id)
    }

    fn new_committed(term: u64, id: NID) -> CommittedLeaderId {
        CommittedLeaderId::new(term, id)
    }

    fn term(leader: &Self) -> u64 {
        leader.get_term()
    }

    fn voted_for(leader: &Self) -> Option<NID> {
        leader.voted_for()
    }

    fn to_committed(leader: &Self) -> CommittedLeaderId {
        leader.to_committed()
    }

    fn is_same_as_committed(leader: &Self, other: &CommittedLeaderId) -> bool {
        leader.is_same_as_committed(other)
    }

    ghost partial = { term_then_voted-partial NID.Eq.laws (λ a. a.term) (λ a. a.voted_for) };

    ghost by_term = { λ a b h. first_decides (nat_cmp a.term b.term) _ (apart a.term b.term h) };

    ghost rises = { λ a b h. term_at_most (nat_cmp a.term b.term) _ h };

    ghost lesser = { λ a b m n x y h.
        lesser_term NID.eq (nat_cmp a.term b.term) a.voted_for b.voted_for x y h };

    ghost one_committed = { λ a b h. same_term a.term b.term (one_term (nat_cmp a.term b.term) _ h).0 };

    ghost same = { λ a c. refl };

    ghost made = { λ t n. (refl, refl, refl) };

    ghost incomparable = { alike_if
        (term_then_voted-partial NID.Eq.laws (λ a. a.term) (λ a. a.voted_for))
        (λ a b c h. (
          λ k. alike_below NID.eq a.term b.term c.term a.voted_for b.voted_for c.voted_for h k,
          λ k. alike_above NID.eq a.term b.term c.term a.voted_for b.voted_for c.voted_for h k,
        )) };

    ghost default_term = { λ a h. h.0 };

    ghost default_committed = { λ c h. (
      record { term = c.term; voted_for = None },
      (h, refl),
      refl,
    ) };
}
