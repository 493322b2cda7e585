//! The kinds of leader ids that a Raft log may use.
//!
//! Votes are generic in the type of their leader ids. The trait `LeaderIdentity` of such a type has
//! what votes need. A `LeaderKind` names the leader type for each type of node ids, and requires
//! that leader ids can be displayed.
ghost use Rattle.std.specs.Prelude.{◌≡◌, ◌≢◌, ◌&&◌, ℕ, Bool, Some, IsTrue, None, nat_eq, refl};
ghost use Rattle.std.specs.declared.option.Option.{Option};
ghost use Rattle.std.specs.declared.cmp.Ordering.{Ordering};
ghost use Rattle.std.specs.declared.cmp.Ordering.TheVariants.{Less};
ghost use Rattle.std.specs.Cmp.{IsPartialOrder};
ghost use Rattle.std.specs.Ordering.{nat_cmp, is_le, partial_le};
ghost use Rattle.raft_base.specs.LeaderOrder.{IncomparableAlike};

use crate::leader_id::{CommittedLeaderId, LeaderId};
use crate::node::NodeId;
use std::cmp::Ordering;
use std::fmt::{Debug, Display};

/// What votes need of a type of leader ids.
///
/// Leader ids are partly or totally ordered, and are equal if they compare as equal. If two leaders
/// do not compare, at most one of them can be elected.
pub trait LeaderIdentity: Eq + Copy + Default + 'static {
    /// The id of a node.
    type Id: Eq + Copy + 'static;
    /// The committed leader id: what a log id stores of an elected leader.
    type Committed: Ord + Copy + Default + 'static;

    /// How two leaders compare, if they do.
    ghost order: { Self → Self → Option Ordering };

    /// The term of a leader.
    ghost term_of: { Self → ℕ };

    /// The node that the vote for a leader is for, if there is one.
    ghost voted: { Self → Option Self.Id };

    /// The committed leader id of a leader.
    ghost committed: { Self → Self.Committed };

    /// The leader id of a node in a term.
    ghost leader_of: { ℕ → Self.Id → Self };

    /// The committed leader id of a node in a term.
    ghost committed_of: { ℕ → Self.Id → Self.Committed };

    /// Whether a committed leader id is the one of a leader.
    ghost same_as: { Self → Self.Committed → Bool };

    /// Returns how two leaders compare, or `None` if they do not.
    fn compare(a: &Self, b: &Self) -> Option<Ordering>
        ensures { result ≡ order a.now b.now };

    /// Returns the leader id of a node in a term.
    fn new_leader(term: u64, id: Self::Id) -> Self
        ensures { result ≡ leader_of term id };

    /// Returns the committed leader id of a node in a term.
    fn new_committed(term: u64, id: Self::Id) -> Self::Committed
        ensures { result ≡ committed_of term id };

    /// Returns the leader's term.
    fn term(leader: &Self) -> u64
        ensures { result ≡ term_of leader.now };

    /// Returns the node that the vote is for, if there is one.
    fn voted_for(leader: &Self) -> Option<Self::Id>
        ensures { result ≡ voted leader.now };

    /// Returns the committed leader id of the leader.
    fn to_committed(leader: &Self) -> Self::Committed
        ensures { result ≡ committed leader.now };

    /// Whether `other` is the committed leader id of the leader.
    fn is_same_as_committed(leader: &Self, other: &Self::Committed) -> bool
        ensures { result ≡ same_as leader.now other.now };

    /// Leaders are partly ordered, and compare as equal exactly if they are equal.
    ghost partial: { IsPartialOrder Self.eq order };

    /// Leaders of different terms compare as their terms.
    ghost by_term: { (a b : Self) → term_of a ≢ term_of b
        → order a b ≡ Some (nat_cmp (term_of a) (term_of b)) };

    /// If a leader is at most another one, its committed leader id is at most the other's.
    ghost rises: { (a b : Self) → IsTrue (partial_le order a b)
        → IsTrue (is_le (Self.Committed.cmp (committed a) (committed b))) };

    /// Of two leaders with a node, the lesser one has the lesser committed leader id. So two leaders
    /// that are elected one after the other never have the same one.
    ghost lesser: { (a b : Self) (m n : Self.Id) → voted a ≡ Some m → voted b ≡ Some n
        → order a b ≡ Some Less → Self.Committed.cmp (committed a) (committed b) ≡ Less };

    /// Leaders that do not compare have equal committed leader ids.
    ghost one_committed: { (a b : Self) → order a b ≡ None
        → IsTrue (Self.Committed.eq (committed a) (committed b)) };

    /// `same_as` holds exactly if the committed leader id of the leader equals the given one.
    ghost same: { (a : Self) (c : Self.Committed)
        → same_as a c ≡ Self.Committed.eq (committed a) c };

    /// The leader id of a node in a term has that term and that node, and `committed_of` is its
    /// committed leader id.
    ghost made: { (t : ℕ) (n : Self.Id)
        → (term_of (leader_of t n) ≡ t) × (voted (leader_of t n) ≡ Some n)
        × (committed_of t n ≡ committed (leader_of t n)) };

    /// If two leaders do not compare, they compare alike with each third leader: it is below both
    /// or neither, and above both or neither.
    ghost incomparable: { IncomparableAlike order };

    /// The default leader is of term 0, before each term in which a node votes.
    ghost default_term: { (a : Self) → Self.is_default a → term_of a ≡ 0 };

    /// The default committed leader id is the one of a default leader.
    ghost default_committed: { (c : Self.Committed) → Self.Committed.is_default c
        → (a : Self) × Self.is_default a × (c ≡ committed a) };
}

/// A kind of leader ids: a leader type for each type of node ids.
pub trait LeaderKind<NID: NodeId>: 'static {
    /// The leader ids of votes.
    type Leader: LeaderIdentity<Id = NID, Committed = Self::Committed> + Debug + Display;
    /// The leader ids of log ids.
    type Committed: Ord + Copy + Default + Debug + Display + 'static;

    /// Returns how two leaders compare, or `None` if they do not.
    final fn compare(a: &Self::Leader, b: &Self::Leader) -> Option<Ordering>
        ensures { result ≡ Self.Leader.order a.now b.now }
    {
        <Self::Leader as LeaderIdentity>::compare(a, b)
    }

    /// Returns the leader id of a node in a term.
    final fn new_leader(term: u64, id: NID) -> Self::Leader
        ensures { result ≡ Self.Leader.leader_of term id }
    {
        <Self::Leader as LeaderIdentity>::new_leader(term, id)
    }

    /// Returns the committed leader id of a node in a term.
    final fn new_committed(term: u64, id: NID) -> Self::Committed
        ensures { result ≡ Self.Leader.committed (Self.Leader.leader_of term id) }
    {
        <Self::Leader as LeaderIdentity>::new_committed(term, id)
    }

    /// Returns the leader's term.
    final fn term(leader: &Self::Leader) -> u64
        ensures { result ≡ Self.Leader.term_of leader.now }
    {
        <Self::Leader as LeaderIdentity>::term(leader)
    }

    /// Returns the node that the vote is for, if there is one.
    final fn voted_for(leader: &Self::Leader) -> Option<NID>
        ensures { result ≡ Self.Leader.voted leader.now }
    {
        <Self::Leader as LeaderIdentity>::voted_for(leader)
    }

    /// Returns the committed leader id of the leader.
    final fn to_committed(leader: &Self::Leader) -> Self::Committed
        ensures { result ≡ Self.Leader.committed leader.now }
    {
        <Self::Leader as LeaderIdentity>::to_committed(leader)
    }

    /// Whether `other` is the committed leader id of the leader.
    final fn is_same_as_committed(leader: &Self::Leader, other: &Self::Committed) -> bool
        ensures { result ≡ Self.Committed.eq (Self.Leader.committed leader.now) other.now }
    {
        <Self::Leader as LeaderIdentity>::is_same_as_committed(leader, other)
    }
}

/// The kind of leader ids in which any two compare. A term may have several leaders, one after the
/// other.
#[derive(Debug, Clone, Copy, Default, PartialEq, Eq)]
pub struct LeaderAdv;

impl<NID: NodeId> LeaderKind<NID> for LeaderAdv {
    type Leader = LeaderId<NID>;

    type Committed = CommittedLeaderId<NID>;
}

impl<NID: NodeId> LeaderIdentity for LeaderId<NID> {
    type Id = NID;

    type Committed = CommittedLeaderId<NID>;

    ghost use Rattle.raft_base.specs.LeaderId.{leader_id_cmp};
    ghost use Rattle.raft_base.specs.LeaderIdLawful.{term_then_node-partial, first_decides, apart, decided, never_none};

    ghost order = { λ a b. Some (leader_id_cmp NID.cmp a b) };

    ghost term_of = { λ a. a.term };

    ghost voted = { λ a. Some a.node_id };

    ghost committed = { λ a. a };

    ghost leader_of = { λ t n. record { term = t; node_id = n } };

    ghost committed_of = { λ t n. record { term = t; node_id = n } };

    ghost same_as = { λ a c. nat_eq a.term c.term && NID.eq a.node_id c.node_id };

    fn compare(a: &Self, b: &Self) -> Option<Ordering> {
        a.partial_cmp(b)
    }

    fn new_leader(term: u64, id: NID) -> Self {
        Self::new(term, id)
    }

    fn new_committed(term: u64, id: NID) -> CommittedLeaderId<NID> {
        CommittedLeaderId::new(term, id)
    }

    fn term(leader: &Self) -> u64 {
        leader.get_term()
    }

    fn voted_for(leader: &Self) -> Option<NID> {
        leader.voted_for()
    }

    fn to_committed(leader: &Self) -> CommittedLeaderId<NID> {
        leader.to_committed()
    }

    fn is_same_as_committed(leader: &Self, other: &CommittedLeaderId<NID>) -> bool {
        leader.is_same_as_committed(other)
    }

    ghost partial = { term_then_node-partial NID.Ord.total NID.Ord.matches_eq
        (λ a. a.term) (λ a. a.node_id) };

    ghost by_term = { λ a b h. first_decides (nat_cmp a.term b.term) _ (apart a.term b.term h) };

    ghost rises = { λ a b h. h };

    ghost lesser = { λ a b m n x y h. decided _ h };

    ghost one_committed = { λ a b h. never_none _ h };

    ghost same = { λ a c. refl };

    ghost made = { λ t n. (refl, refl, refl) };

    ghost incomparable = { λ a b c h. never_none _ h };

    ghost default_term = { λ a h. h.0 };

    ghost default_committed = { λ c h. (c, h, refl) };
}
