//! A kind of leader ids of a caller's own: a leader stands in a region.
ghost use Rattle.raft_base.specs.LeaderIdLawful.{apart, decided, first_decides, never_none};
ghost use Rattle.std.proofs.Common.{rules};
ghost use Rattle.std.specs.Cmp.Rules.{comparing};
ghost use Rattle.std.specs.Cmp.{po};
ghost use Rattle.std.specs.Ordering.{nat_cmp};
ghost use Rattle.std.specs.Prelude.{◌/◌, Some, refl};

use raft_base::{LeaderIdentity, LeaderKind};
use std::cmp::Ordering;
use std::fmt;
use tests_support::plain_log::Numbered;

/// Identifies a leader: the term, and the node with the region that it stands in.
///
/// Compared by term, then by region, then by node.
#[derive(Debug, Clone, Copy, Default, PartialEq, Eq, PartialOrd, Ord)]
pub struct RegionLeader {
    /// The term in which the node leads or means to lead.
    pub term: u64,
    /// The region of the node: its id by hundreds.
    pub region: u64,
    /// The node.
    pub node: u64,
}

impl fmt::Display for RegionLeader {
    fn fmt<W: fmt::Write>(&self, f: &mut fmt::Formatter<W>) -> fmt::Result {
        let RegionLeader { term, region, node } = self;
        write!(f, "T{term}-R{region}-N{node}")
    }
}

impl Numbered for RegionLeader {
    fn of_node(term: u64, node: u64) -> Self {
        Self::new_leader(term, node)
    }
}

impl LeaderIdentity for RegionLeader {
    type Id = u64;

    type Committed = RegionLeader;

    ghost order = { λ a b. Some (⟦<RegionLeader as Ord>⟧.cmp a b) };

    ghost term_of = { λ a. a.term };

    ghost voted = { λ a. Some a.node };

    ghost committed = { λ a. a };

    ghost leader_of = { λ t n. record { term = t; region = n / 100; node = n } };

    ghost committed_of = { λ t n. record { term = t; region = n / 100; node = n } };

    ghost same_as = { λ a c. ⟦<RegionLeader as PartialEq>⟧.eq a c };

    fn compare(a: &Self, b: &Self) -> Option<Ordering> {
        a.partial_cmp(b)
    }

    fn new_leader(term: u64, id: u64) -> Self {
        RegionLeader {
            term,
            region: id / 100,
            node: id,
        }
    }

    fn new_committed(term: u64, id: u64) -> Self {
        Self::new_leader(term, id)
    }

    fn term(leader: &Self) -> u64 {
        leader.term
    }

    fn voted_for(leader: &Self) -> Option<u64> {
        Some(leader.node)
    }

    fn to_committed(leader: &Self) -> Self {
        *leader
    }

    fn is_same_as_committed(leader: &Self, other: &Self) -> bool {
        leader == other
    }

    ghost partial = { po (Prim.search (comparing, rules)) (Prim.search (comparing, rules)) };

    ghost by_term = { λ a b h. first_decides (nat_cmp a.term b.term) _ (apart a.term b.term h) };

    ghost rises = { λ a b h. h };

    ghost lesser = { λ a b m n x y h. decided _ h };

    ghost one_committed = { λ a b h. never_none _ h };

    ghost same = { λ a c. refl };

    ghost made = { λ t n. (refl, refl, refl) };

    ghost incomparable = { λ a b c h. never_none _ h };

    ghost default_term = { λ a h. h.0 };

    ghost default_committed = { λ c h. (c, h, refl) };
}

/// The kind of these leader ids.
#[derive(Debug, Clone, Copy, Default, PartialEq, Eq)]
pub struct Regions;

impl LeaderKind<u64> for Regions {
    type Leader = RegionLeader;

    type Committed = RegionLeader;
}
