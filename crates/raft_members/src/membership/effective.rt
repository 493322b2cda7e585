//! Effective memberships.
ghost use Rattle.std.specs.Prelude.{◌≡◌, IfOk, length, map, Some, None, []};
ghost use Rattle.std.specs.List.{IsDistinct};
ghost use Rattle.std.specs.List.Sorted.{IsStrictlySortedBy};
ghost use Rattle.std.specs.Map.{keys_of};
ghost use Rattle.std.specs.Option.{ForSome, option_copied};
ghost use Rattle.std.specs.Set.{is_member};
ghost use Rattle.std.specs.Cmp.{partial_equiv_from_equiv};
ghost use Rattle.raft_members.specs.membership.StoredLawful.{same_stored-equiv};
ghost use Rattle.raft_members.specs.quorum.Majority.{is_voter_of, is_joint_majority};
ghost use Rattle.raft_members.specs.quorum.MajorityLawful.{is_joint_majority-superset};
ghost use Rattle.raft_members.specs.quorum.QuorumSize.{QuorumsHaveAtLeast, greatest_by, majority_size};
ghost use Rattle.raft_members.specs.membership.Learners.{learners_of, learners_ahead, is_learner};
ghost use Rattle.raft_members.specs.membership.Members.{node_at};
ghost use Rattle.raft_members.specs.membership.Stored.{log_id_of, membership_of};

use super::learner_ids::LearnerIds;
use super::stored::StoredMembershipOf;
use super::{Configs, Membership, configs, ids};
use crate::quorum::{QuorumSet, least_of_each};
use raft_base::{CommittedLeaderId, LogIdOf, MessageSummary, Node, NodeId, RaftLogId};
use std::alloc::{AllocError, Global};
use std::collections::{BTreeSet, btree_map, btree_set};
use std::fmt;
use std::marker::Model;
use std::rc::Rc;

/// The effective membership: the last one in a node's log, committed or not.
///
/// It stores its configs as a quorum set beside the stored membership and, unless there is exactly
/// one config, all voters as one set, so that a test of a quorum does not allocate. In contracts it
/// is its stored membership. Two are equal if their stored memberships are equal, because the other
/// fields follow from them.
#[derive(Drop)]
pub struct EffectiveMembershipOf<C, NID: NodeId, N: Node> {
    stored_membership: Rc<StoredMembershipOf<C, NID, N>>,
    quorum_set: Configs<NID>,
    // `None` for a single config, which is itself the set of all voters.
    voter_ids: Option<BTreeSet<NID>>,
}

/// The effective membership, with the default leader ids.
pub type EffectiveMembership<NID, N> = EffectiveMembershipOf<CommittedLeaderId<NID>, NID, N>;

impl<C, NID: NodeId, N: Node> Model for EffectiveMembershipOf<C, NID, N> {
    ghost use Rattle.std.specs.Prelude.{map};
    ghost use Rattle.raft_members.specs.Inner.Effective.{AgreesWith};
    ghost use Rattle.raft_members.specs.membership.Stored.{membership_of};
    ghost use Rattle.raft_members.specs.declared.membership.stored.StoredMembershipOf.{StoredMembershipOf};

    ghost Value = { StoredMembershipOf C NID N };

    ghost view = { λ a. a.stored_membership.value };

    ghost invariant = { λ a.
        AgreesWith NID.eq (membership_of a.stored_membership.value)
        (map (λ c. c.items) a.quorum_set.items) a.voter_ids };
}

impl<C: Copy + Drop, NID: NodeId, N: Node> EffectiveMembershipOf<C, NID, N> {
    /// Returns the effective membership with a log id, or an allocation error.
    pub fn new(
        log_id: Option<LogIdOf<C>>,
        membership: Membership<NID, N>,
    ) -> Result<Self, AllocError>
        ensures log_id { IfOk result (λ e. log_id_of e ≡ log_id) }
        ensures membership { IfOk result (λ e. membership_of e ≡ membership) }
    {
        let alloc = *membership.get_joint_config().allocator();
        let stored = Rc::new(alloc, StoredMembershipOf::new(log_id, membership))?;
        EffectiveMembershipOf::of_stored(stored)
    }

    /// Returns the effective membership of a stored membership that may be shared.
    fn of_stored(stored: Rc<StoredMembershipOf<C, NID, N>>) -> Result<Self, AllocError>
        ensures { IfOk result (λ e. e ≡ stored.value) }
    {
        let membership = stored.membership();
        let alloc = *membership.get_joint_config().allocator();
        let quorum_set = membership.to_quorum_set()?;
        let voter_ids = voters_beside_configs(alloc, membership)?;
        Ok(EffectiveMembershipOf {
            stored_membership: stored,
            quorum_set,
            voter_ids,
        })
    }

    /// Returns the effective membership with a log id, to be shared, or an allocation error.
    pub fn new_arc(
        log_id: Option<LogIdOf<C>>,
        membership: Membership<NID, N>,
    ) -> Result<Rc<Self>, AllocError>
        ensures log_id { IfOk result (λ e. log_id_of e.value ≡ log_id) }
        ensures membership { IfOk result (λ e. membership_of e.value ≡ membership) }
    {
        let alloc = *membership.get_joint_config().allocator();
        let effective = EffectiveMembershipOf::new(log_id, membership)?;
        Ok(Rc::new(alloc, effective)?)
    }

    /// Returns the effective membership with the log id of a value, such as the log entry that
    /// contains it, or an allocation error.
    pub fn from_log<LID: RaftLogId<C>>(
        log: &LID,
        membership: Membership<NID, N>,
    ) -> Result<Self, AllocError>
        ensures log_id { IfOk result (λ e. log_id_of e ≡ Some (LID.id_of log.now)) }
        ensures membership { IfOk result (λ e. membership_of e ≡ membership) }
    {
        let log_id = *log.get_log_id();
        EffectiveMembershipOf::new(Some(log_id), membership)
    }

    /// Returns the effective membership of a stored membership, or an allocation error.
    pub fn new_from_stored_membership(
        stored: StoredMembershipOf<C, NID, N>,
    ) -> Result<Self, AllocError>
        ensures { IfOk result (λ e. e ≡ stored) }
    {
        let alloc = *stored.membership().get_joint_config().allocator();
        let stored = Rc::new(alloc, stored)?;
        EffectiveMembershipOf::of_stored(stored)
    }

    /// Returns the effective membership without configs, nodes and log id, or an allocation error.
    /// It replaces `Default`, which has no allocator.
    pub fn try_default(alloc: Global) -> Result<Self, AllocError>
        ensures log_id { IfOk result (λ e. log_id_of e ≡ None) }
        ensures membership { IfOk result (λ e.
            membership_of e ≡ record { configs = []; nodes = [] }) }
    {
        let stored = StoredMembershipOf::try_default(alloc)?;
        EffectiveMembershipOf::new_from_stored_membership(stored)
    }

    /// Returns an equal effective membership that shares the stored one, or an allocation error.
    /// The nodes are not cloned.
    pub fn try_clone(&self) -> Result<Self, AllocError>
        ensures { IfOk result (λ e. e ≡ self.now) }
    {
        let stored = self.stored_membership.clone()?;
        EffectiveMembershipOf::of_stored(stored)
    }

    /// Returns the stored membership.
    pub fn stored_membership(&self) -> &Rc<StoredMembershipOf<C, NID, N>>
        ensures { result.now.value ≡ self.now }
    {
        &self.stored_membership
    }

    /// Returns the log id of the entry that stored the membership.
    pub fn log_id(&self) -> &Option<LogIdOf<C>>
        ensures { result.now ≡ log_id_of self.now }
    {
        self.stored_membership.log_id()
    }

    /// Returns the membership.
    pub fn membership(&self) -> &Membership<NID, N>
        ensures { result.now ≡ membership_of self.now }
    {
        self.stored_membership.membership()
    }

    /// Whether the id is in a config.
    pub fn is_voter(&self, id: &NID) -> bool
        ensures { result ≡ is_voter_of NID.eq (membership_of self.now).configs id.now }
    {
        self.membership().is_voter(id)
    }

    /// Returns the voters of all configs, each once, ascending.
    pub fn voter_ids(&self) -> btree_set::Iter<'_, NID>
        ensures ascending { IsStrictlySortedBy NID.cmp result }
        ensures voters { (id : NID) →
            is_member NID.eq result id ≡ is_voter_of NID.eq (membership_of self.now).configs id }
    {
        self.voter_set().iter()
    }

    /// Returns the learners, each once, ascending: the nodes that are in no config.
    pub fn learner_ids(&self) -> LearnerIds<'_, NID, N>
        ensures rest { learners_ahead NID.eq result ≡ learners_of NID.eq (membership_of self.now) }
        ensures ascending { IsStrictlySortedBy NID.cmp (learners_ahead NID.eq result) }
        ensures learners { (id : NID) → is_member NID.eq (learners_ahead NID.eq result) id
            ≡ is_learner NID.eq NID.cmp (membership_of self.now) id }
    {
        self.membership().learner_ids()
    }

    /// Returns the node at an id.
    pub fn get_node(&self, id: &NID) -> Option<&N>
        ensures { option_copied result ≡ node_at NID.cmp (membership_of self.now).nodes id.now }
    {
        self.membership().get_node(id)
    }

    /// Returns the nodes, in the order of their ids.
    pub fn nodes(&self) -> btree_map::Iter<'_, NID, N>
        ensures rest { result ≡ (membership_of self.now).nodes }
        ensures ascending { IsStrictlySortedBy NID.cmp (keys_of result) }
    {
        self.membership().nodes()
    }

    /// Returns the configs, each as the list of its ids in order.
    pub fn get_joint_config(&self) -> &Vec<Vec<NID>>
        ensures { map (λ c. c.items) result.now.items ≡ (membership_of self.now).configs }
    {
        self.quorum_set.children()
    }

    /// Whether the ids are a quorum of each config.
    fn has_quorum(&self, ids: &[NID]) -> bool
        ensures { IsDistinct NID.eq ids.now → result
            ≡ is_joint_majority NID.eq (membership_of self.now).configs (is_member NID.eq ids.now) }
    {
        self.quorum_set.is_quorum(ids)
    }

    /// Returns a number of ids that each quorum has at least: the greatest of the majorities'
    /// sizes.
    fn least_size_of_quorums(&self) -> usize
        ensures exact { result ≡ greatest_by majority_size (membership_of self.now).configs }
        ensures least { QuorumsHaveAtLeast NID.eq
            (is_joint_majority NID.eq (membership_of self.now).configs) result }
    {
        least_of_each(self.get_joint_config(), |config| config.least_quorum_size())
    }
}

/// Returns the set of the voters of all configs, or `None` for a single config, which is this set
/// itself.
fn voters_beside_configs<NID: NodeId, N: Node>(
    alloc: Global,
    membership: &Membership<NID, N>,
) -> Result<Option<BTreeSet<NID>>, AllocError>
    ensures some { IfOk result (λ made. ForSome made (λ set. (id : NID) →
        is_member NID.eq set.keys id ≡ is_voter_of NID.eq membership.now.configs id)) }
    ensures none { IfOk result (λ made. made ≡ None → length membership.now.configs ≡ 1) }
{
    if membership.get_joint_config().len() == 1 {
        return Ok(None);
    }
    let voters = ids::set_of(alloc, &membership.voter_ids()?)?;
    Ok(Some(voters))
}

impl<C, NID: NodeId, N: Node> EffectiveMembershipOf<C, NID, N> {
    /// Returns the set of the voters of all configs.
    fn voter_set(&self) -> &BTreeSet<NID>
        ensures { (id : NID) → is_member NID.eq result.now.keys id
            ≡ is_voter_of NID.eq (membership_of self.now).configs id }
    {
        match &self.voter_ids {
            Some(voter_ids) => voter_ids,
            None => &self.stored_membership.membership.configs[0],
        }
    }
}

/// A quorum has a majority of each config of the membership.
impl<C: Copy + Drop, NID: NodeId, N: Node> QuorumSet<NID> for EffectiveMembershipOf<C, NID, N> {
    ghost has_quorum = { λ e s. is_joint_majority NID.eq (membership_of e).configs s };

    ghost is_voter = { λ e id. is_voter_of NID.eq (membership_of e).configs id };

    ghost superset = { λ e. is_joint_majority-superset NID.eq (membership_of e).configs };

    fn is_quorum(&self, ids: &[NID]) -> bool {
        self.has_quorum(ids)
    }

    fn least_quorum_size(&self) -> usize
        ensures exact { result ≡ greatest_by majority_size (membership_of self.now).configs }
        ensures least { QuorumsHaveAtLeast NID.eq
            (is_joint_majority NID.eq (membership_of self.now).configs) result }
    {
        self.least_size_of_quorums()
    }

    fn ids(&self, alloc: Global) -> Result<Vec<NID>, AllocError> {
        configs::voters(alloc, self.membership().get_joint_config())
    }
}

impl<C: Copy + Drop, NID: NodeId, N: Node> Clone for EffectiveMembershipOf<C, NID, N> {
    ghost is_clone = { λ e copy. copy ≡ e };

    fn clone(&self) -> Result<Self, AllocError> {
        self.try_clone()
    }
}

impl<C: Copy + Eq + Drop, NID: NodeId, N: Node> PartialEq for EffectiveMembershipOf<C, NID, N> {
    ghost use Rattle.raft_members.specs.membership.Stored.{same_stored};

    ghost eq = { λ a b. same_stored C.eq NID.eq N.eq a b };

    ghost laws = { partial_equiv_from_equiv (same_stored-equiv C.Eq.laws NID.Eq.laws N.Eq.laws) };

    fn eq(&self, other: &Self) -> bool {
        self.stored_membership == other.stored_membership
    }
}

impl<C: Copy + Eq + Drop, NID: NodeId, N: Node> Eq for EffectiveMembershipOf<C, NID, N> {
    ghost laws = { same_stored-equiv C.Eq.laws NID.Eq.laws N.Eq.laws };
}

impl<C: fmt::Debug, NID: NodeId, N: Node> fmt::Debug for EffectiveMembershipOf<C, NID, N> {
    fn fmt<W: fmt::Write>(&self, f: &mut fmt::Formatter<W>) -> fmt::Result {
        f.debug_struct("EffectiveMembership")
            .field("log_id", &self.stored_membership.log_id)
            .field("membership", &self.stored_membership.membership)
            .field("voter_ids", self.voter_set())
            .finish()
    }
}

impl<C: fmt::Debug, NID: NodeId, N: Node> MessageSummary<EffectiveMembershipOf<C, NID, N>>
    for EffectiveMembershipOf<C, NID, N> {
    fn summary(&self, alloc: Global) -> Result<String, AllocError> {
        let log_id = &self.stored_membership.log_id;
        let membership = &self.stored_membership.membership;
        format!(in alloc; "{{log_id:{log_id:?} membership:{membership}}}")
    }
}
