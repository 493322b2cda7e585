//! Memberships: which nodes vote, in one config or in several, and which nodes are known.
ghost use Rattle.std.specs.Prelude.{◌≡◌, Bool, List, [], ◌∷◌, IfOk, IfErr, IsOk, IsOkAnd, IsTrue, map, is_some, is_err, nat_lt, length};
ghost use Rattle.std.specs.Option.{option_copied, option_or};
ghost use Rattle.std.specs.Result.{result_err};
ghost use Rattle.std.specs.List.{list_any, list_all};
ghost use Rattle.std.specs.List.Sorted.{IsStrictlySortedBy};
ghost use Rattle.std.specs.Set.{ClonesAreEqual, is_member};
ghost use Rattle.std.specs.Map.{keys_of};
ghost use Rattle.std.specs.BTreeMap.{get, keys};
ghost use Rattle.std.specs.Cmp.{partial_equiv_from_equiv};
ghost use Rattle.raft_members.specs.membership.MembersLawful.{same_members-equiv};
ghost use Rattle.raft_members.specs.quorum.Majority.{is_majority, is_joint_majority, is_voter_of};
ghost use Rattle.raft_members.specs.membership.Members.{MemberList, node_at, members_of, same_members, AddsNoId, HasNodes};
ghost use Rattle.raft_members.specs.membership.Valid.{has_empty_config, FirstWithoutNode, IsValid};
ghost use Rattle.raft_members.specs.membership.Refusal.{IsRefusal};
ghost use Rattle.raft_members.specs.membership.Defaults.{HasDefaults};
ghost use Rattle.raft_members.specs.membership.Learners.{learners_of, learners_ahead, is_learner};
ghost use Rattle.raft_members.specs.declared.error.ChangeMembershipErrorOf.TheVariants.{OutOfMemory};

mod change;
mod configs;
mod defaults;
mod effective;
pub(crate) mod ids;
mod initialize_error;
mod into_nodes;
pub mod laws;
mod learner_ids;
pub(crate) mod nodes;
mod stored;

use crate::error::{ChangeMembershipError, EmptyMembership, LearnerNotFound};
use crate::quorum::Joint;
pub use effective::{EffectiveMembership, EffectiveMembershipOf};
pub use initialize_error::{InitializeError, InitializeErrorIn, InitializeErrorOf, NotInMembers};
pub use into_nodes::IntoNodes;
pub use learner_ids::LearnerIds;
use raft_base::{MessageSummary, Node, NodeId};
use std::alloc::{AllocError, Global};
use std::collections::btree_map::Iter;
use std::collections::{BTreeMap, BTreeSet};
use std::fmt;
use std::marker::Model;
pub use stored::{StoredMembership, StoredMembershipOf};

/// The configs of a membership as one quorum set: a joint of lists of voters.
pub type Configs<NID> = Joint<NID, Vec<NID>, Vec<Vec<NID>>>;

/// The members of a cluster: its configs, each a set of voters, and the node at each id.
///
/// Decisions need a majority of every config. There is one config, or several while the voters
/// change: then the cluster is in joint consensus. A node that is in no config is a learner. It
/// receives logs and does not vote.
///
/// In contracts a membership is its two lists, the configs and the nodes in the order of their ids.
/// Two memberships are equal if their configs and their nodes are equal.
#[derive(Debug, Clone, Drop)]
pub struct Membership<NID: NodeId, N: Node> {
    configs: Vec<BTreeSet<NID>>,
    nodes: BTreeMap<NID, N>,
}

impl<NID: NodeId, N: Node> Model for Membership<NID, N> {
    ghost use Rattle.std.specs.Prelude.{map};
    ghost use Rattle.raft_members.specs.membership.MemberList.{MemberList};

    ghost Value = { MemberList NID N };

    ghost view = { λ a.
        record { configs = map (λ c. c.keys) a.configs.items; nodes = a.nodes.entries } };
}

impl<NID: NodeId, N: Node> Membership<NID, N> {
    /// Returns the membership of these configs and nodes, or an allocation error. A voter without a
    /// node gets the default node.
    pub fn new<T: IntoNodes<NID, N>>(
        configs: Vec<BTreeSet<NID>>,
        nodes: T,
    ) -> Result<Self, AllocError>
        ensures configs { IfOk result (λ m. m.configs ≡ map (λ c. c.keys) configs.items) }
        ensures nodes { IfOk result (λ m. (given : List (NID × N)) × T.gives nodes given ×
            HasDefaults N.is_default_node NID.cmp given
            (is_voter_of NID.eq (map (λ c. c.keys) configs.items)) m.nodes) }
    {
        let alloc = *configs.allocator();
        let given = nodes.into_nodes(alloc)?;
        let nodes = defaults::with_voters(given, alloc, &configs)?;
        Ok(Membership { configs, nodes })
    }

    /// Returns the membership of exactly these configs and nodes, or an allocation error.
    pub fn new_unchecked<T: IntoNodes<NID, N>>(
        configs: Vec<BTreeSet<NID>>,
        nodes: T,
    ) -> Result<Self, AllocError>
        ensures configs { IfOk result (λ m. m.configs ≡ map (λ c. c.keys) configs.items) }
        ensures nodes { IfOk result (λ m. T.gives nodes m.nodes) }
        ensures made { T.takes_no_memory nodes → IsOk result }
    {
        let alloc = *configs.allocator();
        let nodes = nodes.into_nodes(alloc)?;
        Ok(Membership { configs, nodes })
    }

    /// Returns the membership of these nodes, all of them voters of its only config, or an
    /// allocation error.
    pub fn from_nodes(alloc: Global, nodes: BTreeMap<NID, N>) -> Result<Self, AllocError>
        ensures { IfOk result (λ m.
            m ≡ record { configs = keys nodes ∷ []; nodes = nodes.entries }) }
    {
        let voters = ids::key_set(alloc, &nodes)?;
        let configs = vec![in alloc; voters]?;
        Ok(Membership { configs, nodes })
    }

    /// Returns the membership without configs and nodes. It replaces `Default`, which has no
    /// allocator. It never allocates, so the result is always `Ok`.
    pub fn try_default(alloc: Global) -> Result<Self, AllocError>
        ensures { IsOkAnd result (λ m. m ≡ record { configs = []; nodes = [] }) }
    {
        Ok(Membership {
            configs: Vec::new(alloc),
            nodes: BTreeMap::new(alloc),
        })
    }

    /// Returns an equal membership with clones of the nodes, or an allocation error.
    pub fn try_clone(&self) -> Result<Self, AllocError>
        requires clones_are_equal { ClonesAreEqual N.eq N.is_clone }
        ensures equal { IfOk result (λ m. IsTrue (same_members NID.eq N.eq self.now m)) }
        ensures configs { IfOk result (λ m. m.configs ≡ self.now.configs) }
    {
        let alloc = *self.configs.allocator();
        let configs = configs::copy(alloc, &self.configs)?;
        let nodes = nodes::copy(alloc, &self.nodes)?;
        Ok(Membership { configs, nodes })
    }

    /// Returns the old nodes, and copies of the new nodes whose ids have no old node, or an
    /// allocation error. If there are no such nodes, it does not allocate.
    pub fn extend_nodes(
        old: BTreeMap<NID, N>,
        new: &BTreeMap<NID, N>,
    ) -> Result<BTreeMap<NID, N>, AllocError>
        requires clones_are_equal { ClonesAreEqual N.eq N.is_clone }
        ensures nodes { IfOk result (λ nodes. HasNodes N.eq NID.cmp nodes.entries
            (λ id. option_or (get NID.cmp old id) (get NID.cmp new.now id))) }
        ensures no_memory { AddsNoId NID.cmp old.entries new.now.entries → IsOk result }
    {
        nodes::added(old, new)
    }

    /// Returns the configs.
    pub fn get_joint_config(&self) -> &Vec<BTreeSet<NID>>
        ensures { map (λ c. c.keys) result.now.items ≡ self.now.configs }
    {
        &self.configs
    }

    /// Whether there is more than one config.
    pub fn is_in_joint_consensus(&self) -> bool
        ensures { result ≡ nat_lt 1 (length self.now.configs) }
    {
        self.configs.len() > 1
    }

    /// Returns the nodes, in the order of their ids.
    pub fn nodes(&self) -> Iter<'_, NID, N>
        ensures rest { result ≡ self.now.nodes }
        ensures ascending { IsStrictlySortedBy NID.cmp (keys_of result) }
    {
        self.nodes.iter()
    }

    /// Returns the node at an id.
    pub fn get_node(&self, id: &NID) -> Option<&N>
        ensures { option_copied result ≡ node_at NID.cmp self.now.nodes id.now }
    {
        self.nodes.get(id)
    }

    /// Whether the id has a node, as a voter or as a learner.
    pub fn contains(&self, id: &NID) -> bool
        ensures { result ≡ is_some (node_at NID.cmp self.now.nodes id.now) }
    {
        self.nodes.contains_key(id)
    }

    /// Whether the id is in a config.
    pub fn is_voter(&self, id: &NID) -> bool
        ensures { result ≡ is_voter_of NID.eq self.now.configs id.now }
    {
        configs::has_id(&self.configs, id)
    }

    /// Returns the voters of all configs, each once, ascending, or an allocation error.
    pub fn voter_ids(&self) -> Result<Vec<NID>, AllocError>
        ensures ascending { IfOk result (λ ids. IsStrictlySortedBy NID.cmp ids.items) }
        ensures voters { IfOk result (λ ids. (id : NID) →
            is_member NID.eq ids.items id ≡ is_voter_of NID.eq self.now.configs id) }
    {
        let alloc = *self.configs.allocator();
        configs::voters(alloc, &self.configs)
    }

    /// Returns the learners, each once, ascending: the nodes that are in no config.
    pub fn learner_ids(&self) -> LearnerIds<'_, NID, N>
        ensures rest { learners_ahead NID.eq result ≡ learners_of NID.eq self.now }
        ensures ascending { IsStrictlySortedBy NID.cmp (learners_ahead NID.eq result) }
        ensures learners { (id : NID) →
            is_member NID.eq (learners_ahead NID.eq result) id ≡
            is_learner NID.eq NID.cmp self.now id }
    {
        LearnerIds {
            nodes: self.nodes.keys(),
            configs: &self.configs,
        }
    }

    /// Returns the configs as one quorum set, or an allocation error. A quorum has a majority of
    /// each config.
    pub fn to_quorum_set(&self) -> Result<Configs<NID>, AllocError>
        ensures configs { IfOk result (λ joint.
            map (λ c. c.items) joint.items ≡ self.now.configs) }
        ensures quorums { IfOk result (λ joint. (set : NID → Bool) →
            list_all (λ c. is_majority NID.eq c.items set) joint.items
            ≡ is_joint_majority NID.eq self.now.configs set) }
        ensures voters { IfOk result (λ joint. (id : NID) →
            list_any (λ c. is_member NID.eq c.items id) joint.items
            ≡ is_voter_of NID.eq self.now.configs id) }
    {
        let alloc = *self.configs.allocator();
        let lists = configs::lists_of(alloc, &self.configs)?;
        Ok(Joint::new(lists))
    }

    /// Returns an error if a config is empty. It never allocates.
    pub fn ensure_non_empty_config(&self) -> Result<(), EmptyMembership>
        ensures { is_err result ≡ has_empty_config self.now.configs }
    {
        if configs::has_empty(&self.configs) {
            Err(EmptyMembership {})
        } else {
            Ok(())
        }
    }

    /// Returns the least voter that has no node as an error, if there is one. It never allocates.
    pub fn ensure_voter_nodes(&self) -> Result<(), NID>
        ensures { FirstWithoutNode NID.eq NID.cmp (members_of NID.cmp self.now)
            (result_err result) }
    {
        match nodes::least_missing(&self.configs, &self.nodes) {
            Some(id) => Err(id),
            None => Ok(()),
        }
    }

    /// Returns an error if a config is empty, or otherwise if a voter has no node. It never
    /// allocates.
    pub fn ensure_valid(&self) -> Result<(), ChangeMembershipError<NID>>
        ensures valid { IfOk result (λ _. IsValid NID.eq (members_of NID.cmp self.now)) }
        ensures refused { IfErr result (IsRefusal NID.eq NID.cmp (members_of NID.cmp self.now)) }
        ensures no_memory { IfErr result (λ e. e ≡ OutOfMemory → ⊥) }
    {
        self.ensure_non_empty_config()?;
        self.ensure_voter_nodes()
            .map_err(|node_id| LearnerNotFound { node_id })?;
        Ok(())
    }
}

impl<NID: NodeId, N: Node> PartialEq for Membership<NID, N> {
    ghost eq = { λ a b. same_members NID.eq N.eq a b };

    ghost laws = { partial_equiv_from_equiv (same_members-equiv NID.Eq.laws N.Eq.laws) };

    fn eq(&self, other: &Self) -> bool {
        self.configs == other.configs && self.nodes == other.nodes
    }
}

impl<NID: NodeId, N: Node> Eq for Membership<NID, N> {
    ghost laws = { same_members-equiv NID.Eq.laws N.Eq.laws };
}

impl<NID: NodeId, N: Node> Membership<NID, N> {
    /// Writes an id and its node, or that it has none, with a comma before all but the first.
    fn fmt_node<W: fmt::Write>(
        &self,
        id: &NID,
        is_first: bool,
        f: &mut fmt::Formatter<W>,
    ) -> fmt::Result {
        if !is_first {
            f.write_str(",")?;
        }
        match self.get_node(id) {
            Some(node) => write!(f, "{id}:{node:?}"),
            None => write!(f, "{id}:None"),
        }
    }

    /// Writes a config in braces, each id with its node.
    fn fmt_config<W: fmt::Write>(
        &self,
        config: &BTreeSet<NID>,
        f: &mut fmt::Formatter<W>,
    ) -> fmt::Result {
        f.write_str("{")?;
        let mut is_first = true;
        for id in config.iter() {
            self.fmt_node(id, is_first, f)?;
            is_first = false;
        }
        f.write_str("}")
    }

    /// Writes the configs, with a comma before all but the first.
    fn fmt_configs<W: fmt::Write>(&self, f: &mut fmt::Formatter<W>) -> fmt::Result {
        let mut is_first = true;
        for config in self.configs.iter() {
            if !is_first {
                f.write_str(",")?;
            }
            self.fmt_config(config, f)?;
            is_first = false;
        }
        Ok(())
    }

    /// Writes the learners, each with its node.
    fn fmt_learners<W: fmt::Write>(&self, f: &mut fmt::Formatter<W>) -> fmt::Result {
        let mut is_first = true;
        for id in self.learner_ids() {
            self.fmt_node(&id, is_first, f)?;
            is_first = false;
        }
        Ok(())
    }
}

impl<NID: NodeId, N: Node> fmt::Display for Membership<NID, N> {
    fn fmt<W: fmt::Write>(&self, f: &mut fmt::Formatter<W>) -> fmt::Result {
        f.write_str("{voters:[")?;
        self.fmt_configs(f)?;
        f.write_str("], learners:[")?;
        self.fmt_learners(f)?;
        f.write_str("]}")
    }
}

impl<NID: NodeId, N: Node> MessageSummary<Membership<NID, N>> for Membership<NID, N> {
    fn summary(&self, alloc: Global) -> Result<String, AllocError> {
        self.to_string(alloc)
    }
}
