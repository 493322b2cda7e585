//! How a membership changes.
ghost use Rattle.std.specs.Prelude.{◌≡◌, ◌<◌, IfOk, IfErr, true, None, cond, length};
ghost use Rattle.std.specs.Option.{option_or};
ghost use Rattle.std.specs.Set.{ClonesAreEqual};
ghost use Rattle.std.specs.BTreeMap.{get};
ghost use Rattle.std.specs.BTreeSet.{contains};
ghost use Rattle.raft_members.specs.quorum.Coherence.{is_coherent};
ghost use Rattle.raft_members.specs.membership.Members.{node_at, members_of, HasMembers};
ghost use Rattle.raft_members.specs.membership.Valid.{IsValid};
ghost use Rattle.raft_members.specs.membership.Change.{next_members, with_nodes, changed, last_config, union_of, without};
ghost use Rattle.raft_members.specs.declared.change_members.ChangeMembers.TheVariants.{AddVoters};
ghost use Rattle.raft_members.specs.membership.Refusal.{IsRefusal};
ghost use Rattle.raft_members.specs.declared.error.ChangeMembershipErrorOf.TheVariants.{OutOfMemory};
ghost use Rattle.raft_members.specs.membership.ReplaceAll.{OnlyMemory, TwoChanges};

use super::{Membership, configs, ids, nodes};
use crate::change_members::ChangeMembers;
use crate::error::ChangeMembershipError;
use raft_base::{Node, NodeId};
use std::alloc::AllocError;
use std::collections::{BTreeMap, BTreeSet};

impl<NID: NodeId, N: Node> Membership<NID, N> {
    /// Returns the next membership on the way to the voters `goal`, or an allocation error.
    ///
    /// If the goal is already a config, or there are no configs, the goal is the only config of the
    /// result. Otherwise the configs are the last config and the goal. So the result shares a
    /// config with this membership if this one has any, and a second step ends at the goal alone.
    ///
    /// A voter of this membership that is in no new config becomes a learner with `retain`. Without
    /// `retain` it loses its node too.
    pub fn next_coherent(&self, goal: BTreeSet<NID>, retain: bool) -> Result<Self, AllocError>
        requires clones_are_equal { ClonesAreEqual N.eq N.is_clone }
        ensures { IfOk result (λ m. HasMembers N.eq NID.cmp m
            (next_members NID.eq (members_of NID.cmp self.now) goal.keys retain)) }
    {
        let alloc = *self.configs.allocator();
        let configs = configs::next(alloc, &self.configs, goal)?;
        let nodes = nodes::kept(alloc, &self.nodes, &self.configs, &configs, retain)?;
        Ok(Membership { configs, nodes })
    }

    /// Returns the membership that a change makes of this one. A voter that is in no config any
    /// more stays as a learner with `retain`, and loses its node without `retain`.
    ///
    /// This membership stays as it is. While there are two configs, the voters of both stay in
    /// either case. Changes of nodes ignore `retain`.
    ///
    /// # Errors
    ///
    /// - `EmptyMembership` if the change leaves a config without voters;
    /// - otherwise `LearnerNotFound` with the least voter that the change leaves without a node;
    /// - `OutOfMemory` if an allocation failed.
    pub fn change(
        &self,
        change: ChangeMembers<NID, N>,
        retain: bool,
    ) -> Result<Self, ChangeMembershipError<NID>>
        requires clones_are_equal { ClonesAreEqual N.eq N.is_clone }
        ensures valid { IfOk result (λ _. IsValid NID.eq
            (changed NID.eq NID.cmp (members_of NID.cmp self.now) change retain)) }
        ensures valid_itself { IfOk result (λ m. IsValid NID.eq (members_of NID.cmp m)) }
        ensures changed { IfOk result (λ m. HasMembers N.eq NID.cmp m
            (changed NID.eq NID.cmp (members_of NID.cmp self.now) change retain)) }
        ensures refused { IfErr result (IsRefusal NID.eq NID.cmp
            (changed NID.eq NID.cmp (members_of NID.cmp self.now) change retain)) }
        ensures coherent { IfOk result (λ m. 0 < length self.now.configs →
            is_coherent NID.eq self.now.configs m.configs ≡ true) }
        ensures only_memory { IfErr result
            (OnlyMemory NID.eq (members_of NID.cmp self.now) change) }
        ensures two_changes { IfOk result
            (TwoChanges NID.eq NID.cmp (members_of NID.cmp self.now) change) }
    {
        let next = self.changed(change, retain)?;
        next.if_valid()
    }

    /// Returns this membership if it is valid, and otherwise why it is not. It never allocates.
    fn if_valid(self) -> Result<Self, ChangeMembershipError<NID>>
        ensures same { IfOk result (λ m. m ≡ self) }
        ensures valid { IfOk result (λ _. IsValid NID.eq (members_of NID.cmp self)) }
        ensures refused { IfErr result (IsRefusal NID.eq NID.cmp (members_of NID.cmp self)) }
        ensures no_memory { IfErr result (λ e. e ≡ OutOfMemory → ⊥) }
    {
        self.ensure_valid()?;
        Ok(self)
    }

    /// Returns what a change makes of this membership, before it is tested for validity.
    fn changed(&self, change: ChangeMembers<NID, N>, retain: bool) -> Result<Self, AllocError>
        requires clones_are_equal { ClonesAreEqual N.eq N.is_clone }
        ensures { IfOk result (λ m. HasMembers N.eq NID.cmp m
            (changed NID.eq NID.cmp (members_of NID.cmp self.now) change retain)) }
    {
        match change {
            ChangeMembers::AddVoterIds(ids) => self.with_voter_ids(ids, retain),
            ChangeMembers::AddVoters(nodes) => self.with_voters(nodes, retain),
            ChangeMembers::RemoveVoters(ids) => self.without_voters(&ids, retain),
            ChangeMembers::ReplaceAllVoters(ids) => self.next_coherent(ids, retain),
            ChangeMembers::AddNodes(nodes) => self.with_added(nodes),
            ChangeMembers::SetNodes(nodes) => self.with_set(nodes),
            ChangeMembers::RemoveNodes(ids) => self.without_nodes(&ids),
            ChangeMembers::ReplaceAllNodes(nodes) => self.with_only(nodes),
        }
    }

    /// Returns the next membership on the way to these voters and the voters of the last config.
    fn with_voter_ids(&self, ids: BTreeSet<NID>, retain: bool) -> Result<Self, AllocError>
        requires clones_are_equal { ClonesAreEqual N.eq N.is_clone }
        ensures { IfOk result (λ m. HasMembers N.eq NID.cmp m
            (next_members NID.eq (members_of NID.cmp self.now)
            (union_of NID.cmp (last_config self.now.configs) ids.keys) retain)) }
    {
        let alloc = *self.configs.allocator();
        let goal = configs::last_with(alloc, &self.configs, ids)?;
        self.next_coherent(goal, retain)
    }

    /// Returns the next membership on the way to these voters and the voters of the last config,
    /// with the nodes of the new voters whose ids have none.
    fn with_voters(&self, voters: BTreeMap<NID, N>, retain: bool) -> Result<Self, AllocError>
        requires clones_are_equal { ClonesAreEqual N.eq N.is_clone }
        ensures { IfOk result (λ m. HasMembers N.eq NID.cmp m
            (changed NID.eq NID.cmp (members_of NID.cmp self.now) (AddVoters voters) retain)) }
    {
        let alloc = *self.configs.allocator();
        let ids = ids::key_set(alloc, &voters)?;
        let next = self.with_voter_ids(ids, retain)?;
        next.with_more(voters)
    }

    /// Returns the next membership on the way to the voters of the last config without these.
    fn without_voters(&self, ids: &BTreeSet<NID>, retain: bool) -> Result<Self, AllocError>
        requires clones_are_equal { ClonesAreEqual N.eq N.is_clone }
        ensures { IfOk result (λ m. HasMembers N.eq NID.cmp m
            (next_members NID.eq (members_of NID.cmp self.now)
            (without NID.eq (last_config self.now.configs) ids.now.keys) retain)) }
    {
        let alloc = *self.configs.allocator();
        let goal = configs::last_without(alloc, &self.configs, ids)?;
        self.next_coherent(goal, retain)
    }

    /// Returns this membership, with those of these nodes whose ids have none. No node is cloned.
    fn with_more(self, more: BTreeMap<NID, N>) -> Result<Self, AllocError>
        ensures configs { IfOk result (λ m. m.configs ≡ self.configs) }
        ensures nodes { IfOk result (λ m. (id : NID) →
            node_at NID.cmp m.nodes id ≡
            option_or (node_at NID.cmp self.nodes id) (get NID.cmp more id)) }
    {
        let Membership { configs, nodes } = self;
        let nodes = nodes::merged(nodes, more)?;
        Ok(Membership { configs, nodes })
    }

    /// Returns this membership, with copies of those of these nodes whose ids have none.
    fn with_added(&self, more: BTreeMap<NID, N>) -> Result<Self, AllocError>
        requires clones_are_equal { ClonesAreEqual N.eq N.is_clone }
        ensures { IfOk result (λ m. HasMembers N.eq NID.cmp m (with_nodes
            (members_of NID.cmp self.now)
            (λ id. option_or (node_at NID.cmp self.now.nodes id) (get NID.cmp more id)))) }
    {
        let copies = nodes::copy(*self.configs.allocator(), &self.nodes)?;
        self.with_only(nodes::merged(copies, more)?)
    }

    /// Returns this membership, with the nodes of `more` added or in place of the nodes at their
    /// ids.
    fn with_set(&self, more: BTreeMap<NID, N>) -> Result<Self, AllocError>
        requires clones_are_equal { ClonesAreEqual N.eq N.is_clone }
        ensures { IfOk result (λ m. HasMembers N.eq NID.cmp m (with_nodes
            (members_of NID.cmp self.now)
            (λ id. option_or (get NID.cmp more id) (node_at NID.cmp self.now.nodes id)))) }
    {
        self.with_only(nodes::added(more, &self.nodes)?)
    }

    /// Returns this membership without the nodes at these ids.
    fn without_nodes(&self, ids: &BTreeSet<NID>) -> Result<Self, AllocError>
        requires clones_are_equal { ClonesAreEqual N.eq N.is_clone }
        ensures { IfOk result (λ m. HasMembers N.eq NID.cmp m (with_nodes
            (members_of NID.cmp self.now)
            (λ id. cond (contains NID.cmp ids.now id) None (node_at NID.cmp self.now.nodes id)))) }
    {
        let mut nodes = nodes::copy(*self.configs.allocator(), &self.nodes)?;
        nodes::remove_all(&mut nodes, ids);
        self.with_only(nodes)
    }

    /// Returns the membership with these nodes and the configs of this one.
    fn with_only(&self, nodes: BTreeMap<NID, N>) -> Result<Self, AllocError>
        ensures { IfOk result (λ m. HasMembers N.eq NID.cmp m
            (with_nodes (members_of NID.cmp self.now) (get NID.cmp nodes))) }
    {
        let alloc = *self.configs.allocator();
        let configs = configs::copy(alloc, &self.configs)?;
        Ok(Membership { configs, nodes })
    }
}
