//! Laws: functions whose contracts are statements for callers.
ghost use Rattle.std.specs.Prelude.{◌≡◌};
ghost use Rattle.steps_safety.specs.Running.{NodesAreACluster, RunsAreSafe};

use raft_base::{Instant, LeaderIdentity, Node, NodeId};

/// In every run of servers, also if their members change, what any two servers know to be committed,
/// at any two times, agrees, and so do their committed memberships.
pub fn runs_are_safe<NID: NodeId, N: Node, I: Instant, L: LeaderIdentity<Id = NID>, D>()
    ensures { RunsAreSafe I D NID.Ord N.eq L.LeaderIdentity L.Committed.Ord }
{}

/// If leader ids with one committed leader id have one term, as with both kinds of leader ids, nodes
/// that campaign are a cluster that meets the premises of the theorem.
pub fn nodes_are_a_cluster<L: LeaderIdentity>()
    requires one_term { (a b : L) → L.committed a ≡ L.committed b → L.term_of a ≡ L.term_of b }
    ensures { NodesAreACluster L.LeaderIdentity }
{}
