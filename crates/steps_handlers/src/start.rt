//! The start of a cluster, by one of its members.
ghost use Rattle.std.specs.Prelude.{◌≡◌, false, IfErr, IfOk, IsOk, IsTrue, OnOk, OnErr, is_some};
ghost use Rattle.std.specs.Set.{ClonesAreEqual};
ghost use Rattle.steps_handlers.specs.Start.{first_log_id, BelongsToCluster, CanDecide, IsStartRefusal, Starts};
ghost use Rattle.raft_members.specs.membership.Members.{node_at};
ghost use Rattle.raft_state.specs.raft_state.Sound.{IsSound};
ghost use Rattle.raft_state.specs.raft_state.VoteAndLog.{vote_of};

use crate::error::StartError;
use crate::state::State;
use raft_base::{Instant, LeaderIdentity, LogIdOf, Node, NodeId};
use raft_members::Membership;
use raft_state::{EntryOf, EntryPayload, VoteStateReader};

/// Starts a cluster with a membership, as one of its members. The first entry of each log, at index
/// 0, holds the membership, which is effective from then on. Returns that entry, alone: write it to
/// disk, and then become a candidate.
///
/// Only a server without log and without vote may start a cluster, and only a membership that can
/// decide may start one: it has a config, no config is empty, and each voter has a node.
///
/// After an error nothing has changed.
pub fn start_cluster<NID: NodeId, N: Node, I: Instant, L: LeaderIdentity<Id = NID> + Drop, D: Drop>(
    state: &mut State<NID, N, I, L>,
    id: &NID,
    membership: Membership<NID, N>,
) -> Result<Vec<EntryOf<L::Committed, NID, N, D>>, StartError>
    requires clones_are_equal { ClonesAreEqual N.eq N.is_clone }
    ensures new { IsOk result → BelongsToCluster L.eq L.Default.is_default state.old false }
    ensures member { OnOk result (IsTrue (is_some (node_at NID.cmp membership.nodes id.now))) }
    ensures decides { OnOk result (CanDecide NID.eq NID.cmp membership) }
    ensures starts { IfOk result (λ entries. Starts NID.eq N.eq
        (first_log_id (L.committed (vote_of state.old).leader_id)) membership entries.items
        state.old state.new) }
    ensures rest { state.new ≡ record state.old {
      log_ids = state.new.log_ids;
      membership_state = state.new.membership_state;
    } }
    ensures refused { IfErr result (IsStartRefusal L.eq L.Default.is_default NID.Ord
        state.old id.now membership) }
    ensures err { OnErr result (state.new ≡ state.old) }
    ensures sound { IsSound L.Committed.eq L.Committed.cmp state.old →
        IsSound L.Committed.eq L.Committed.cmp state.new }
{
    if state.is_initialized() {
        return Err(StartError::NotAllowed);
    }
    if !membership.contains(id) {
        return Err(StartError::NotInMembers);
    }
    // Without a config there is no voter, and nothing could ever be decided.
    if membership.get_joint_config().as_slice().is_empty() {
        return Err(StartError::InvalidMembership);
    }
    if membership.ensure_valid().is_err() {
        return Err(StartError::InvalidMembership);
    }
    let leader_id = L::to_committed(state.vote_ref().leader_id());
    let mut entries = Vec::new(*membership.get_joint_config().allocator());
    let entry = EntryOf {
        log_id: LogIdOf::new(leader_id, 0),
        payload: EntryPayload::Membership(membership),
    };
    let Ok(()) = entries.push(entry) else {
        return Err(StartError::OutOfMemory);
    };
    if !state.can_append_entries(&entries) {
        return Err(StartError::MembershipNotInOrder);
    }
    state.append_entries(&entries)?;
    Ok(entries)
}
