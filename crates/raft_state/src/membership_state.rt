//! The memberships of a node: the last committed one, and the effective one.
ghost use Rattle.std.specs.Prelude.{◌≡◌, IsTrue, IfOk, IsOk, OnOk, OnErr, MatchResult, None, Some, false, is_some};
ghost use Rattle.std.specs.Option.{option_map};
ghost use Rattle.std.specs.Cmp.{partial_equiv_from_equiv};
ghost use Rattle.std.specs.Set.{ClonesAreEqual};
ghost use Rattle.raft_base.specs.Validate.{first_false};
ghost use Rattle.raft_base.specs.LogIndex.{index_lt};
ghost use Rattle.raft_members.specs.quorum.Majority.{is_voter_of};
ghost use Rattle.raft_members.specs.membership.Members.{node_at};
ghost use Rattle.raft_state.specs.raft_state.Role.{ForwardsTo, known_node};
ghost use Rattle.raft_state.specs.membership_state.Memberships.{in_effect, index_at, same_memberships, IsNoMembership};
ghost use Rattle.raft_state.specs.membership_state.MembershipsLawful.{same_memberships-equiv};
ghost use Rattle.raft_state.specs.membership_state.MembershipMoves.{after_commit, commits, may_commit, after_append, may_append, after_truncate, is_cut, after_update_committed, effect_changes, effective_where, replaces_both};
ghost use Rattle.raft_state.specs.membership_state.MembershipRelations.{membership_relations};

mod change_handler;

pub use change_handler::{ChangeHandler, ChangeHandlerOf};
use raft_base::order::{index_at_most, index_below, log_id_at_most, log_id_below};
use raft_base::{
    CommittedLeaderId, Invalid, LogIdOf, LogIdOptionExt, MessageSummary, Node, NodeId, Validate,
};
use raft_members::{EffectiveMembershipOf, ForwardToLeader};
use std::alloc::{AllocError, Global};
use std::fmt;
use std::marker::Model;
use std::mem::replace;
use std::rc::Rc;

/// The last committed membership of a node, and the last one in its log, the effective one.
///
/// A membership is effective as soon as it is in the log, committed or not. It may only be proposed
/// after the one before it is committed, so at most one is not committed. If a new leader truncates
/// that one, the committed one is effective again. Two states are equal if both memberships are
/// equal, with their log ids.
#[derive(Drop)]
pub struct MembershipStateOf<C, NID: NodeId, N: Node> {
    committed: Rc<EffectiveMembershipOf<C, NID, N>>,
    effective: Rc<EffectiveMembershipOf<C, NID, N>>,
}

/// The memberships of a node, with the default leader ids.
pub type MembershipState<NID, N> = MembershipStateOf<CommittedLeaderId<NID>, NID, N>;

impl<C, NID: NodeId, N: Node> Model for MembershipStateOf<C, NID, N> {
    ghost use Rattle.raft_state.specs.membership_state.Memberships.{Memberships};

    ghost Value = { Memberships C NID N };

    ghost view = { λ a. record { committed = a.committed.value; effective = a.effective.value } };
}

impl<C: Copy + Drop, NID: NodeId, N: Node> MembershipStateOf<C, NID, N> {
    /// Returns the memberships of a node.
    pub fn new(
        committed: Rc<EffectiveMembershipOf<C, NID, N>>,
        effective: Rc<EffectiveMembershipOf<C, NID, N>>,
    ) -> Self
        ensures { result ≡ record { committed = committed.value; effective = effective.value } }
    {
        MembershipStateOf {
            committed,
            effective,
        }
    }

    /// Returns the memberships of a node that has none yet, or an allocation error. It replaces
    /// `Default`, which has no allocator.
    pub fn try_default(alloc: Global) -> Result<Self, AllocError>
        ensures committed { IfOk result (λ m. IsNoMembership m.committed) }
        ensures effective { IfOk result (λ m. IsNoMembership m.effective) }
    {
        let committed = Rc::new(alloc, EffectiveMembershipOf::try_default(alloc)?)?;
        let effective = committed.clone()?;
        Ok(MembershipStateOf::new(committed, effective))
    }

    /// Returns the same memberships, shared, or an allocation error.
    pub fn try_clone(&self) -> Result<Self, AllocError>
        ensures { IfOk result (λ copy. copy ≡ self.now) }
    {
        let committed = self.committed.clone()?;
        let effective = self.effective.clone()?;
        Ok(MembershipStateOf::new(committed, effective))
    }

    /// Whether the id has a node in the effective membership, as a voter or as a learner.
    pub fn contains(&self, id: &NID) -> bool
        ensures { result
            ≡ is_some (node_at NID.cmp (in_effect self.now).nodes id.now) }
    {
        self.effective.membership().contains(id)
    }

    /// Whether the id is a voter of the effective membership.
    pub fn is_voter(&self, id: &NID) -> bool
        ensures { result ≡ is_voter_of NID.eq (in_effect self.now).configs id.now }
    {
        self.effective.is_voter(id)
    }

    /// Returns where the requests for a leader go: to its node, if the effective membership has it.
    /// If it does not, nothing is allocated.
    pub(crate) fn forward_to(
        &self,
        leader: Option<NID>,
    ) -> Result<ForwardToLeader<NID, N>, AllocError>
        requires clones_are_equal { ClonesAreEqual N.eq N.is_clone }
        ensures node { IfOk result (ForwardsTo N.eq
            (known_node NID.cmp (in_effect self.now) leader)) }
        ensures no_memory { known_node NID.cmp (in_effect self.now) leader
            ≡ None → IsOk result }
    {
        match leader {
            None => Ok(ForwardToLeader::empty()),
            Some(id) => match self.effective.get_node(&id) {
                None => Ok(ForwardToLeader::empty()),
                Some(node) => Ok(ForwardToLeader::new(id, node.clone()?)),
            },
        }
    }

    /// Returns the last committed membership.
    pub fn committed(&self) -> &Rc<EffectiveMembershipOf<C, NID, N>>
        ensures { result.now.value ≡ self.now.committed }
    {
        &self.committed
    }

    /// Returns the effective membership.
    pub fn effective(&self) -> &Rc<EffectiveMembershipOf<C, NID, N>>
        ensures { result.now.value ≡ self.now.effective }
    {
        &self.effective
    }

    /// Returns the handler that changes the effective membership.
    pub fn change_handler(&self) -> ChangeHandlerOf<'_, C, NID, N>
        ensures { result.state.now ≡ self.now }
    {
        ChangeHandlerOf { state: self }
    }
}

impl<C: Ord + Copy + Drop, NID: NodeId, N: Node> MembershipStateOf<C, NID, N> {
    ghost use Rattle.std.specs.Borrow.{sem};
    ghost use Rattle.std.specs.Io.BufRead.{Rests};
    ghost use Rattle.raft_state.specs.contracts.membership_state.MembershipStateOf.{the_row};

    /// Whether the precondition of `commit` holds: if the effective membership is to be committed,
    /// the index of the log id is not the lesser one. For log ids of one log this is always so.
    pub fn can_commit(&self, log_id: &Option<LogIdOf<C>>) -> bool
        ensures { result ≡ may_commit C.cmp log_id.now self.now }
    {
        let effective = *self.effective.log_id();
        !log_id_at_most(effective, *log_id) || index_at_most(effective.index(), log_id.index())
    }

    /// Marks the log as committed up to a log id. The effective membership is committed too, if it
    /// is not past the log id. It requires `can_commit`.
    ///
    /// It returns an allocation error only if the effective membership is committed, and it shares
    /// that membership without an allocation. After an error nothing has changed.
    pub fn commit(&mut self, log_id: &Option<LogIdOf<C>>) -> Result<(), AllocError>
        requires { IsTrue (may_commit C.cmp log_id.now self.old) }
        ensures ok { OnOk result (self.new ≡ after_commit C.cmp log_id.now self.old) }
        ensures err { OnErr result (self.new ≡ self.old) }
        ensures no_memory { commits C.cmp log_id.now self.old ≡ false → IsOk result }
    {
        if log_id_at_most(*self.effective.log_id(), *log_id) {
            self.committed = self.effective.clone()?;
        }
        Ok(())
    }

    /// Takes a committed membership that comes with a snapshot of the log up to an index. Returns
    /// the effective membership if its configs or its nodes differ from those before. If only its
    /// log id differs, the result is `None`.
    ///
    /// If the snapshot includes the effective membership, only the new one is left. Otherwise the
    /// effective membership may be from a log that conflicts with the leader's, so their indexes
    /// are compared, and not their log ids. It returns an allocation error only if the new
    /// membership replaces both.
    ///
    /// After an error nothing has changed.
    pub fn update_committed(
        &mut self,
        membership: Rc<EffectiveMembershipOf<C, NID, N>>,
        snapshot_last_log_index: u64,
    ) -> Result<Option<&Rc<EffectiveMembershipOf<C, NID, N>>>, AllocError>
        ensures* after { sem 𝓛 (Rests (the_row C.row NID.row N.row NID.PartialEq NID.Ord.own
            NID.PartialOrd.own NID.Debug NID.Display NID.Hash.own NID.Default N.PartialEq N.Debug
            N.Clone N.NodeDefault.own) self.entry (λ new. MatchResult result
            (λ answer. (new ≡ after_update_committed C.cmp membership.value snapshot_last_log_index
            self.old) × (option_map (λ r. r.now.value) answer
            ≡ effective_where (effect_changes NID.eq N.eq self.old new) new))
            (λ _. new ≡ self.old))) }
        ensures no_memory { replaces_both C.cmp membership.value snapshot_last_log_index self.old
            ≡ false → IsOk result }
    {
        if self.take_over(membership, snapshot_last_log_index)? {
            Ok(Some(&self.effective))
        } else {
            Ok(None)
        }
    }

    /// Takes the membership of a snapshot up to an index, as `update_committed` does. Returns
    /// whether the configs or the nodes of the effective membership differ from those before.
    pub(crate) fn take_over(
        &mut self,
        membership: Rc<EffectiveMembershipOf<C, NID, N>>,
        upto: u64,
    ) -> Result<bool, AllocError>
        ensures ok { OnOk result
            (self.new ≡ after_update_committed C.cmp membership.value upto self.old) }
        ensures changed { IfOk result (λ changed. changed ≡ effect_changes NID.eq N.eq self.old
            (after_update_committed C.cmp membership.value upto self.old)) }
        ensures err { OnErr result (self.new ≡ self.old) }
        ensures no_memory { replaces_both C.cmp membership.value upto self.old ≡ false
            → IsOk result }
    {
        let present = *self.effective.log_id();
        let new = *membership.log_id();
        let is_covered = index_at_most(present.index(), Some(upto));
        if !is_covered && !index_at_most(present.index(), new.index()) {
            if log_id_below(*self.committed.log_id(), new) {
                self.committed = membership;
            }
            return Ok(false);
        }
        let changed = membership.membership() != self.effective.membership();
        if is_covered || log_id_below(*self.committed.log_id(), new) {
            self.replace_both(membership)?;
        } else {
            self.effective = membership;
        }
        Ok(changed)
    }

    /// Replaces both memberships.
    fn replace_both(
        &mut self,
        membership: Rc<EffectiveMembershipOf<C, NID, N>>,
    ) -> Result<(), AllocError>
        ensures ok { OnOk result (self.new
            ≡ record { committed = membership.value; effective = membership.value }) }
        ensures err { OnErr result (self.new ≡ self.old) }
    {
        self.committed = membership.clone()?;
        self.effective = membership;
        Ok(())
    }

    /// Whether the precondition of `append` holds: the membership has a greater log id and a
    /// greater index than the effective one.
    pub fn can_append(&self, membership: &EffectiveMembershipOf<C, NID, N>) -> bool
        ensures { result ≡ may_append C.cmp membership.now self.now }
    {
        let effective = *self.effective.log_id();
        let new = *membership.log_id();
        log_id_below(effective, new) && index_below(effective.index(), new.index())
    }

    /// Makes a membership effective that was added to the log. The membership before it becomes the
    /// committed one, because otherwise the new one could not have been proposed. It requires
    /// `can_append`. It never allocates.
    pub fn append(&mut self, membership: Rc<EffectiveMembershipOf<C, NID, N>>)
        requires { IsTrue (may_append C.cmp membership.value self.old) }
        ensures { self.new ≡ after_append membership.value self.old }
    {
        self.committed = replace(&mut self.effective, membership);
    }

    /// Whether the precondition of `truncate` holds: the index is past the committed membership.
    pub fn can_truncate(&self, since: u64) -> bool
        ensures { result ≡ index_lt (index_at self.now.committed) (Some since) }
    {
        index_below(self.committed.log_id().index(), Some(since))
    }

    /// Marks the log as truncated from an index on. If the effective membership is truncated too,
    /// the committed one is effective again and is returned. It requires `can_truncate`.
    ///
    /// It returns an allocation error only if the effective membership is truncated. After an error
    /// nothing has changed.
    pub fn truncate(
        &mut self,
        since: u64,
    ) -> Result<Option<&Rc<EffectiveMembershipOf<C, NID, N>>>, AllocError>
        requires { IsTrue (index_lt (index_at self.old.committed) (Some since)) }
        ensures* after { sem 𝓛 (Rests (the_row C.row NID.row N.row NID.PartialEq NID.Ord.own
            NID.PartialOrd.own NID.Debug NID.Display NID.Hash.own NID.Default N.PartialEq N.Debug
            N.Clone N.NodeDefault.own) self.entry (λ new. MatchResult result
            (λ answer. (new ≡ after_truncate since self.old) × (option_map (λ r. r.now.value) answer
            ≡ effective_where (is_cut since self.old) new))
            (λ _. new ≡ self.old))) }
        ensures no_memory { is_cut since self.old ≡ false → IsOk result }
    {
        if self.revert(since)? {
            Ok(Some(&self.effective))
        } else {
            Ok(None)
        }
    }

    /// Marks the log as truncated from an index on, as `truncate` does. Returns whether the
    /// committed membership is effective again.
    pub(crate) fn revert(&mut self, since: u64) -> Result<bool, AllocError>
        ensures ok { OnOk result (self.new ≡ after_truncate since self.old) }
        ensures reverted { IfOk result (λ reverted. reverted ≡ is_cut since self.old) }
        ensures err { OnErr result (self.new ≡ self.old) }
        ensures no_memory { is_cut since self.old ≡ false → IsOk result }
    {
        if index_at_most(Some(since), self.effective.log_id().index()) {
            self.effective = self.committed.clone()?;
            Ok(true)
        } else {
            Ok(false)
        }
    }
}

/// In a valid state the committed membership is not above the effective one, by log id and by
/// index.
impl<C: Ord + Copy + Drop, NID: NodeId, N: Node> Validate for MembershipStateOf<C, NID, N> {
    ghost broken = { λ m. first_false (membership_relations C.cmp m) };

    fn validate(&self) -> Result<(), Invalid> {
        let committed = *self.committed.log_id();
        let effective = *self.effective.log_id();
        if !log_id_at_most(committed, effective) {
            return Err(Invalid::MembershipLogId);
        }
        if !index_at_most(committed.index(), effective.index()) {
            return Err(Invalid::MembershipIndex);
        }
        Ok(())
    }
}

impl<C: Copy + Drop, NID: NodeId, N: Node> Clone for MembershipStateOf<C, NID, N> {
    ghost is_clone = { λ m copy. copy ≡ m };

    fn clone(&self) -> Result<Self, AllocError> {
        self.try_clone()
    }
}

impl<C: Copy + Eq + Drop, NID: NodeId, N: Node> PartialEq for MembershipStateOf<C, NID, N> {
    ghost eq = { λ a b. same_memberships C.eq NID.eq N.eq a b };

    ghost laws = { partial_equiv_from_equiv
        (same_memberships-equiv C.Eq.laws NID.Eq.laws N.Eq.laws) };

    fn eq(&self, other: &Self) -> bool {
        self.committed == other.committed && self.effective == other.effective
    }
}

impl<C: Copy + Eq + Drop, NID: NodeId, N: Node> Eq for MembershipStateOf<C, NID, N> {
    ghost laws = { same_memberships-equiv C.Eq.laws NID.Eq.laws N.Eq.laws };
}

// Handwritten, because the text has the name `MembershipState` and not `MembershipStateOf`.
impl<C: fmt::Debug, NID: NodeId, N: Node> fmt::Debug for MembershipStateOf<C, NID, N> {
    fn fmt<W: fmt::Write>(&self, f: &mut fmt::Formatter<W>) -> fmt::Result {
        f.debug_struct("MembershipState")
            .field("committed", &self.committed)
            .field("effective", &self.effective)
            .finish()
    }
}

impl<C: fmt::Debug, NID: NodeId, N: Node> MessageSummary<MembershipStateOf<C, NID, N>>
    for MembershipStateOf<C, NID, N> {
    fn summary(&self, alloc: Global) -> Result<String, AllocError> {
        let committed = self.committed.summary(alloc)?;
        let effective = self.effective.summary(alloc)?;
        format!(in alloc; "MembershipState{{committed: {committed}, effective: {effective}}}")
    }
}
