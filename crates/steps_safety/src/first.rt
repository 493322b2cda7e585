//! The servers of the first world of a run: new ones, and one that has started the cluster.
ghost use Rattle.std.specs.Prelude.{◌≡◌, IfOk, List, OnOk};
ghost use Rattle.std.specs.Set.{ClonesAreEqual};
ghost use Rattle.steps_handlers.specs.Start.{first_log_id, CanDecide, Starts};
ghost use Rattle.steps_safety.specs.Running.{IsNewServer};
ghost use Rattle.raft_state.specs.raft_state.VoteAndLog.{vote_of};

use raft_base::{Instant, LeaderIdentity, Node, NodeId};
use raft_members::Membership;
use raft_state::EntryOf;
use std::alloc::{AllocError, Global};
use steps_handlers::{StartError, State, start_cluster};

/// Returns a new server, as `State::try_default` does. Its vote is for the default leader, in term
/// 0. It is new in every cluster, whatever the initial membership is.
pub fn begins<NID: NodeId, N: Node, I: Instant, L: LeaderIdentity<Id = NID> + Drop>(
    alloc: Global,
) -> Result<State<NID, N, I, L>, AllocError>
    ensures new { IfOk result (λ state. (start : L) × L.Default.is_default start
        × ((initial : List (List NID)) → IsNewServer L.LeaderIdentity L.Committed.Ord initial start state)) }
    ensures first_term { IfOk result (λ state. L.term_of (vote_of state).leader_id ≡ 0) }
{
    let state = State::<NID, N, I, L>::try_default(alloc)?;
    // The keys are read for the proof alone: they are in order.
    let _keys = state.log_ids.key_log_ids();
    Ok(state)
}

/// Starts a cluster with this initial membership, as `start_cluster` does. A new server is new after
/// it: its log has the entry at index 0, which holds the membership.
pub fn starts<NID: NodeId, N: Node, I: Instant, L: LeaderIdentity<Id = NID> + Drop, D: Drop>(
    state: &mut State<NID, N, I, L>,
    id: &NID,
    membership: Membership<NID, N>,
) -> Result<Vec<EntryOf<L::Committed, NID, N, D>>, StartError>
    ghost start: { L }
    requires clones_are_equal { ClonesAreEqual N.eq N.is_clone }
    requires new { IsNewServer L.LeaderIdentity L.Committed.Ord membership.configs start state.old }
    ensures new { IsNewServer L.LeaderIdentity L.Committed.Ord membership.configs start state.new }
    ensures call { IfOk result (λ entries. Starts NID.eq N.eq
        (first_log_id (L.committed (vote_of state.old).leader_id)) membership entries.items
        state.old state.new) }
    ensures decides { OnOk result (CanDecide NID.eq NID.cmp membership) }
{
    let entries = start_cluster(state, id, membership);
    // The keys are read for the proof alone: they are in order.
    let _after = state.log_ids.key_log_ids();
    entries
}
