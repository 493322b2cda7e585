//! How a leader appends entries of its own.
ghost use Rattle.std.specs.Prelude.{◌≡◌, IfErr, IfOk};
ghost use Rattle.std.specs.Set.{ClonesAreEqual};
ghost use Rattle.steps_handlers.specs.Compared.{compared};
ghost use Rattle.steps_handlers.specs.Leadership.{is_leading};
ghost use Rattle.steps_handlers.specs.Proposals.{AppendsOwn, RefusesOwn};
ghost use Rattle.raft_state.specs.raft_state.Sound.{IsSound};
ghost use Rattle.raft_state.specs.declared.entry.payload.EntryPayload.TheVariants.{Blank, Normal};

use super::Leader;
use crate::error::ProposeError;
use crate::state::State;
use raft_base::{Instant, LeaderIdentity, LogIdOf, LogIdOptionExt, LogStateReader, Node, NodeId};
use raft_state::{EntryOf, EntryPayload};

impl<NID: NodeId, N: Node, C: Ord + Copy + Default + Drop + 'static> Leader<NID, N, C> {
    /// Whether the state's vote is the committed vote for this leader.
    pub fn leads<I: Instant, L: LeaderIdentity<Id = NID, Committed = C> + Drop>(
        &self,
        state: &State<NID, N, I, L>,
    ) -> bool
        ensures { let by = compared NID.Ord N.eq L.LeaderIdentity C.Ord in
            result ≡ is_leading by self.now state.now }
    {
        let vote = state.vote_ref();
        vote.is_committed()
            && vote.is_same_leader(&self.leader_id)
            && L::voted_for(vote.leader_id()) == Some(self.id)
    }

    /// Appends a blank entry of the leader's own to the log, and returns it. A new leader begins
    /// with one: only an entry of its own lets it commit.
    ///
    /// Write the entry to disk, and then call `handle_flushed`. After a refusal the state is as it
    /// was.
    pub fn propose_blank<I: Instant, L: LeaderIdentity<Id = NID, Committed = C> + Drop, D: Drop>(
        &self,
        state: &mut State<NID, N, I, L>,
    ) -> Result<EntryOf<C, NID, N, D>, ProposeError>
        requires clones_are_equal { ClonesAreEqual N.eq N.is_clone }
        ensures appended { let by = compared NID.Ord N.eq L.LeaderIdentity C.Ord in
            IfOk result (AppendsOwn by self.now Blank state.old state.new) }
        ensures refused { let by = compared NID.Ord N.eq L.LeaderIdentity C.Ord in
            IfErr result (RefusesOwn by {D = D} self.now Blank state.old state.new) }
        ensures sound { IsSound C.eq C.cmp state.old → IsSound C.eq C.cmp state.new }
    {
        self.append_own(state, EntryPayload::Blank)
    }

    /// Appends an entry with data to the log, and returns it.
    ///
    /// Write the entry to disk, and then call `handle_flushed`. After a refusal the state is as it
    /// was.
    pub fn propose<I: Instant, L: LeaderIdentity<Id = NID, Committed = C> + Drop, D: Drop>(
        &self,
        state: &mut State<NID, N, I, L>,
        data: D,
    ) -> Result<EntryOf<C, NID, N, D>, ProposeError>
        requires clones_are_equal { ClonesAreEqual N.eq N.is_clone }
        ensures appended { let by = compared NID.Ord N.eq L.LeaderIdentity C.Ord in
            IfOk result (AppendsOwn by self.now (Normal «data») state.old state.new) }
        ensures refused { let by = compared NID.Ord N.eq L.LeaderIdentity C.Ord in
            IfErr result (RefusesOwn by self.now (Normal «data») state.old state.new) }
        ensures sound { IsSound C.eq C.cmp state.old → IsSound C.eq C.cmp state.new }
    {
        self.append_own(state, EntryPayload::Normal(data))
    }

    /// Appends an entry of the leader's own to the log, and makes the membership that it stores
    /// effective.
    pub(super) fn append_own<
        I: Instant,
        L: LeaderIdentity<Id = NID, Committed = C> + Drop,
        D: Drop,
    >(
        &self,
        state: &mut State<NID, N, I, L>,
        payload: EntryPayload<NID, N, D>,
    ) -> Result<EntryOf<C, NID, N, D>, ProposeError>
        requires clones_are_equal { ClonesAreEqual N.eq N.is_clone }
        ensures appended { let by = compared NID.Ord N.eq L.LeaderIdentity C.Ord in
            IfOk result (AppendsOwn by self.now payload state.old state.new) }
        ensures refused { let by = compared NID.Ord N.eq L.LeaderIdentity C.Ord in
            IfErr result (RefusesOwn by self.now payload state.old state.new) }
        ensures sound { IsSound C.eq C.cmp state.old → IsSound C.eq C.cmp state.new }
    {
        if !self.leads(state) || !state.can_accept() {
            return Err(ProposeError::NotLeader);
        }
        let last = state.last_log_id().copied();
        if !last.has_next_index() {
            return Err(ProposeError::NoNextIndex);
        }
        let log_id = LogIdOf::new(self.leader_id, last.next_index());
        let members = state.membership_state.effective().membership();
        let mut entries = Vec::new(*members.get_joint_config().allocator());
        let Ok(()) = entries.push(EntryOf { log_id, payload }) else {
            return Err(ProposeError::OutOfMemory);
        };
        if !state.can_append_entries(&entries) {
            return Err(ProposeError::NotInOrder);
        }
        state.append_entries(&entries)?;
        state.update_accepted(Some(log_id));
        Ok(entries.remove(0))
    }
}
