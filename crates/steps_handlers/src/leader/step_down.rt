//! When a leader steps down.
ghost use Rattle.std.specs.Prelude.{◌≡◌, ◌||◌, not};
ghost use Rattle.steps_handlers.specs.Compared.{compared};
ghost use Rattle.steps_handlers.specs.Leadership.{is_leading, is_removed};

use super::Leader;
use crate::candidate::may_lead;
use crate::state::State;
use raft_base::{Instant, LeaderIdentity, Node, NodeId};
use raft_state::RaftStateIn;

impl<NID: NodeId, N: Node, C: Ord + Copy + Drop> Leader<NID, N, C> {
    /// Whether the leader is removed: it is a voter neither of the effective nor of the committed
    /// membership.
    pub fn is_removed<I: Instant, L: Drop>(&self, state: &RaftStateIn<NID, N, I, L, C>) -> bool
        ensures { result ≡ is_removed NID.eq self.now state.now.membership_state }
    {
        !may_lead(&self.id, state)
    }
}

impl<NID: NodeId, N: Node, C: Ord + Copy + Default + Drop + 'static> Leader<NID, N, C> {
    /// Whether the leader has to stop leading: its state has another vote, or it is removed.
    pub fn must_step_down<I: Instant, L: LeaderIdentity<Id = NID, Committed = C> + Drop>(
        &self,
        state: &State<NID, N, I, L>,
    ) -> bool
        ensures { let by = compared NID.Ord N.eq L.LeaderIdentity C.Ord in
            result ≡ (not (is_leading by self.now state.now)
            || is_removed NID.eq self.now state.now.membership_state) }
    {
        !self.leads(state) || self.is_removed(state)
    }
}
