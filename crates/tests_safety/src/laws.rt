//! Callers of the laws, over both kinds of leader ids.
ghost use Rattle.std.specs.Prelude.{◌≡◌, IsTrue};
ghost use Rattle.steps_safety.specs.Running.{RunsAreSafe};

use raft_base::{EmptyNode, Instant, LeaderId, LeaderIdentity, Node, NodeId, leader_id_std};
use steps_safety::laws::{nodes_are_a_cluster, runs_are_safe};

/// What an engine over a type of leader ids may rely on.
pub fn engine_is_safe<NID: NodeId, N: Node, I: Instant, L: LeaderIdentity<Id = NID>, D>()
    ensures { RunsAreSafe I D NID.Ord N.eq L.LeaderIdentity L.Committed.Ord }
{
    runs_are_safe::<NID, N, I, L, D>();
}

/// Ids that are `==` are equal, as the theorem requires.
pub fn ids_are_exact<NID: NodeId, L: LeaderIdentity<Id = NID>>()
    requires nodes { (x y : NID) → IsTrue (NID.eq x y) → x ≡ y }
    requires leaders { (x y : L) → IsTrue (L.eq x y) → x ≡ y }
    requires committed { (x y : L.Committed) → IsTrue (L.Committed.eq x y) → x ≡ y }
{}

/// Leader ids of a term and a node, as they are by default.
pub fn default_ids_are_safe() {
    nodes_are_a_cluster::<LeaderId<u64>>();
    ids_are_exact::<u64, LeaderId<u64>>();
    engine_is_safe::<u64, EmptyNode, u64, LeaderId<u64>, u64>();
}

/// Leader ids of standard Raft.
pub fn standard_ids_are_safe() {
    nodes_are_a_cluster::<leader_id_std::LeaderId<u64>>();
    ids_are_exact::<u64, leader_id_std::LeaderId<u64>>();
    engine_is_safe::<u64, EmptyNode, u64, leader_id_std::LeaderId<u64>, u64>();
}

/// The laws can be called over both kinds of leader ids.
#[test]
fn both_kinds_are_safe() {
    default_ids_are_safe();
    standard_ids_are_safe();
}
