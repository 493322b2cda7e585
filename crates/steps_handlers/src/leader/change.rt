//! How a leader changes the membership.
ghost use Rattle.std.specs.Prelude.{◌≡◌, ◌<◌, ◌∷◌, [], None, true, nat_lt, IfErr, IfOk, IsOk, OnOk, length};
ghost use Rattle.std.specs.Set.{ClonesAreEqual};
ghost use Rattle.steps_handlers.specs.Changes.{AppendsMembers, RefusesMembers, members_after_leave};
ghost use Rattle.steps_handlers.specs.Compared.{compared};
ghost use Rattle.raft_members.specs.membership.Change.{last_config};
ghost use Rattle.raft_state.specs.membership_state.Apply.{members_after_change};
ghost use Rattle.raft_state.specs.membership_state.Memberships.{in_effect};
ghost use Rattle.raft_state.specs.raft_state.Sound.{IsSound};

use super::Leader;
use crate::error::ProposeError;
use crate::state::State;
use raft_base::{Instant, LeaderIdentity, LogIdOf, LogIdOptionExt, LogStateReader, Node, NodeId};
use raft_members::{ChangeMembers, ChangeMembershipErrorOf, Membership};
use raft_progress::laws::quorums_know_granted;
use raft_progress::{ProgressEntryOf, Reply, Tracked};
use raft_state::{EntryOf, EntryPayload};
use std::alloc::AllocError;
use std::collections::BTreeSet;
use std::fmt::Debug;
use thiserror::Error;

/// Why a leader refuses to change the membership.
#[derive(Debug, Clone, PartialEq, Eq, Drop, Error)]
pub enum ChangeError<C: Ord + Copy + Default + Debug, NID: NodeId> {
    /// The leader counts by another membership than the effective one, because another `Leader` of
    /// this term has changed it: drop the leader.
    #[error("the leader counts by another membership")]
    NotEffective,
    /// No quorum has an entry of this leader's own yet.
    #[error("no quorum has an entry of this leader's own")]
    NoOwnGranted,
    /// The membership is not a joint one.
    #[error("the membership is not joint")]
    NotJoint,
    /// The change is refused: an earlier one is in progress, the members could not decide, or an
    /// allocation failed.
    #[error(transparent)]
    Change(ChangeMembershipErrorOf<C, NID>),
    /// The entry is refused.
    #[error(transparent)]
    Entry(ProposeError),
}

impl<C: Ord + Copy + Default + Debug, NID: NodeId> From<ProposeError> for ChangeError<C, NID> {
    ghost use Rattle.steps_handlers.specs.declared.leader.change.ChangeError.TheVariants.{Entry};

    ghost from_gives = { λ refused e. e ≡ Entry refused };

    fn from(refused: ProposeError) -> Self {
        ChangeError::Entry(refused)
    }
}

impl<C: Ord + Copy + Default + Debug, NID: NodeId> From<AllocError> for ChangeError<C, NID> {
    ghost use Rattle.steps_handlers.specs.declared.leader.change.ChangeError.TheVariants.{Entry};
    ghost use Rattle.steps_handlers.specs.declared.error.ProposeError.TheVariants.{OutOfMemory};

    ghost from_gives = { λ refused e. e ≡ Entry OutOfMemory };

    fn from(_refused: AllocError) -> Self {
        ChangeError::Entry(ProposeError::OutOfMemory)
    }
}

impl<NID: NodeId, N: Node, C: Ord + Copy + Default + Debug + Drop + 'static> Leader<NID, N, C> {
    /// Proposes a change of the membership: appends an entry with the new membership, which is
    /// effective then, and counts by it from then on. Returns the entry.
    ///
    /// It is refused until a quorum has an entry of this leader's own, and until the effective
    /// membership is committed. Both are needed. From a joint membership two leaders may go to
    /// different configs, whose quorums need not meet; once a quorum of the joint membership has an
    /// entry of the later leader, no quorum elects the earlier one's successor without it.
    ///
    /// With `retain`, a voter that is in no config any more stays as a learner. Write the entry to
    /// disk, and then call `handle_flushed`. After a refusal the state and the leader are as they
    /// were.
    pub fn propose_change<I: Instant, L: LeaderIdentity<Id = NID, Committed = C> + Drop, D: Drop>(
        &mut self,
        state: &mut State<NID, N, I, L>,
        change: ChangeMembers<NID, N>,
        retain: bool,
    ) -> Result<EntryOf<C, NID, N, D>, ChangeError<C, NID>>
        requires clones_are_equal { ClonesAreEqual N.eq N.is_clone }
        ensures appended { let by = compared NID.Ord N.eq L.LeaderIdentity C.Ord in
            let next = members_after_change NID.eq NID.cmp state.old.membership_state change retain in
            IfOk result (AppendsMembers by next self.old state.old self.new state.new) }
        ensures refused { let by = compared NID.Ord N.eq L.LeaderIdentity C.Ord in
            let next = members_after_change NID.eq NID.cmp state.old.membership_state change retain in
            IfErr result (RefusesMembers by D true next self.old state.old self.new state.new) }
        ensures sound { IsSound C.eq C.cmp state.old → IsSound C.eq C.cmp state.new }
    {
        // Called for the proof alone: each quorum of what a change leads to knows what is granted.
        quorums_know_granted(&self.followers);
        let _granted = self.granted();
        if !self.counts_by_effective(state) {
            return Err(ChangeError::NotEffective);
        }
        if !self.has_own_granted() {
            return Err(ChangeError::NoOwnGranted);
        }
        let handler = state.membership_state.change_handler();
        let members = match handler.apply(change, retain) {
            Ok(members) => members,
            Err(refused) => return Err(ChangeError::Change(refused)),
        };
        let last = state.last_log_id().copied();
        if !last.has_next_index() {
            return Err(ChangeError::Entry(ProposeError::NoNextIndex));
        }
        let stored = members.try_clone()?;
        // The members that are new begin with a number that no request or heartbeat has had.
        let number = self.last_request.saturating_add(1);
        let followers = self.followers_over(members, last.next_index(), number)?;
        let entry = self.append_own(state, EntryPayload::Membership(stored))?;
        self.followers = followers;
        self.members_at = Some(entry.log_id);
        self.last_request = number;
        Ok(entry)
    }

    /// Proposes the step from a joint membership to its last config, once the joint one is
    /// committed. Returns the entry. It is refused as `propose_change` is, and if the membership is
    /// not joint.
    pub fn leave_joint<I: Instant, L: LeaderIdentity<Id = NID, Committed = C> + Drop, D: Drop>(
        &mut self,
        state: &mut State<NID, N, I, L>,
        retain: bool,
    ) -> Result<EntryOf<C, NID, N, D>, ChangeError<C, NID>>
        requires clones_are_equal { ClonesAreEqual N.eq N.is_clone }
        ensures joint { IsOk result →
            1 < length (in_effect state.old.membership_state).configs }
        ensures goal { OnOk result (self.new.followers.membership.configs
            ≡ last_config (in_effect state.old.membership_state).configs ∷ []) }
        ensures appended { let by = compared NID.Ord N.eq L.LeaderIdentity C.Ord in
            let next = members_after_leave NID.eq NID.cmp state.old.membership_state retain in
            IfOk result (AppendsMembers by next self.old state.old self.new state.new) }
        ensures refused { let by = compared NID.Ord N.eq L.LeaderIdentity C.Ord in
            let next = members_after_leave NID.eq NID.cmp state.old.membership_state retain in
            let joint = nat_lt 1 (length (in_effect state.old.membership_state).configs) in
            IfErr result (RefusesMembers by D joint next self.old state.old self.new state.new) }
        ensures sound { IsSound C.eq C.cmp state.old → IsSound C.eq C.cmp state.new }
    {
        let members = state.membership_state.effective().membership();
        if !members.is_in_joint_consensus() {
            return Err(ChangeError::NotJoint);
        }
        let none = BTreeSet::new(*members.get_joint_config().allocator());
        self.propose_change(state, ChangeMembers::AddVoterIds(none), retain)
    }
}

impl<NID: NodeId, N: Node, C: Ord + Copy + Drop> Leader<NID, N, C> {
    ghost use Rattle.raft_base.specs.LogId.{log_id_cmp};
    ghost use Rattle.steps_handlers.specs.Changes.{KeepsValues};
    ghost use Rattle.raft_progress.specs.tracked.TrackedState.{IsReady};
    ghost use Rattle.std.specs.Option.{option_cmp};
    ghost use Rattle.raft_progress.specs.tracked.Tracked.{tracked_view};

    /// Returns what is known of the members of a membership once the log has this end: those who
    /// stay keep what is known of them, and nothing is known of the others. The requests to the
    /// others are numbered after a number.
    fn followers_over(
        &self,
        members: Membership<NID, N>,
        end: u64,
        number: u64,
    ) -> Result<Tracked<NID, N, ProgressEntryOf<C>, Option<LogIdOf<C>>>, AllocError>
        requires clones_are_equal { ClonesAreEqual N.eq N.is_clone }
        ensures members { IfOk result (λ made. (tracked_view made).membership ≡ members) }
        ensures kept { IfOk result (λ made. KeepsValues NID.eq end number self.now.followers
            (tracked_view made)) }
        ensures default { IfOk result (λ made. (tracked_view made).progress.default_part ≡ None) }
        ensures ready { IfOk result (λ made. IsReady NID.eq NID.cmp (option_cmp (log_id_cmp C.cmp))
            (λ entry. entry.matching) (tracked_view made)) }
    {
        let unknown = ProgressEntryOf::<C>::empty(end);
        let unknown = unknown.with_curr_inflight_id(number);
        let mut followers = self.followers.try_clone()?;
        match followers.change_to(members, unknown) {
            Reply::Granted(_) => Ok(followers),
            _ => Err(AllocError),
        }
    }
}
