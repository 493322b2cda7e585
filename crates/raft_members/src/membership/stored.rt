//! A membership that a log entry stored.
ghost use Rattle.std.specs.Prelude.{◌≡◌, None, [], IfOk, IsOkAnd, IsTrue};
ghost use Rattle.std.specs.Map.{keys_of};
ghost use Rattle.std.specs.List.Sorted.{IsStrictlySortedBy};
ghost use Rattle.std.specs.Set.{ClonesAreEqual, is_member};
ghost use Rattle.raft_members.specs.quorum.Majority.{is_voter_of};
ghost use Rattle.raft_members.specs.membership.Members.{same_members};
ghost use Rattle.raft_members.specs.membership.Stored.{log_id_of, membership_of};

use super::Membership;
use raft_base::{CommittedLeaderId, DisplayOption, LogIdOf, MessageSummary, Node, NodeId};
use std::alloc::{AllocError, Global};
use std::collections::btree_map::Iter;
use std::fmt;

/// A membership, and the log id of the entry that stored it. The first membership of a node that
/// has no log yet has no log id.
#[derive(Clone, PartialEq, Eq, Drop)]
pub struct StoredMembershipOf<C, NID: NodeId, N: Node> {
    pub(super) log_id: Option<LogIdOf<C>>,
    pub(super) membership: Membership<NID, N>,
}

/// A stored membership, with the default leader ids.
pub type StoredMembership<NID, N> = StoredMembershipOf<CommittedLeaderId<NID>, NID, N>;

impl<C: Copy, NID: NodeId, N: Node> StoredMembershipOf<C, NID, N> {
    /// Returns the stored membership with a log id.
    pub fn new(log_id: Option<LogIdOf<C>>, membership: Membership<NID, N>) -> Self
        ensures log_id { log_id_of result ≡ log_id }
        ensures membership { membership_of result ≡ membership }
    {
        StoredMembershipOf { log_id, membership }
    }

    /// Returns the stored membership without configs, nodes and log id. It replaces `Default`,
    /// which has no allocator. It never allocates, so the result is always `Ok`.
    pub fn try_default(alloc: Global) -> Result<Self, AllocError>
        ensures log_id { IsOkAnd result (λ stored. log_id_of stored ≡ None) }
        ensures membership { IsOkAnd result (λ stored.
            membership_of stored ≡ record { configs = []; nodes = [] }) }
    {
        let membership = Membership::try_default(alloc)?;
        Ok(StoredMembershipOf::new(None, membership))
    }

    /// Returns an equal stored membership with clones of the nodes, or an allocation error.
    pub fn try_clone(&self) -> Result<Self, AllocError>
        requires clones_are_equal { ClonesAreEqual N.eq N.is_clone }
        ensures log_id { IfOk result (λ stored. log_id_of stored ≡ log_id_of self.now) }
        ensures membership { IfOk result (λ stored.
            IsTrue (same_members NID.eq N.eq (membership_of self.now) (membership_of stored))) }
    {
        let membership = self.membership.try_clone()?;
        Ok(StoredMembershipOf::new(self.log_id, membership))
    }

    /// Returns the log id of the entry that stored the membership.
    pub fn log_id(&self) -> &Option<LogIdOf<C>>
        ensures { result.now ≡ log_id_of self.now }
    {
        &self.log_id
    }

    /// Returns the membership.
    pub fn membership(&self) -> &Membership<NID, N>
        ensures { result.now ≡ membership_of self.now }
    {
        &self.membership
    }

    /// Returns the voters of all configs, each once, ascending, or an allocation error.
    pub fn voter_ids(&self) -> Result<Vec<NID>, AllocError>
        ensures ascending { IfOk result (λ ids. IsStrictlySortedBy NID.cmp ids.items) }
        ensures voters { IfOk result (λ ids. (id : NID) →
            is_member NID.eq ids.items id ≡
            is_voter_of NID.eq (membership_of self.now).configs id) }
    {
        self.membership.voter_ids()
    }

    /// Returns the nodes, in the order of their ids.
    pub fn nodes(&self) -> Iter<'_, NID, N>
        ensures rest { result ≡ (membership_of self.now).nodes }
        ensures ascending { IsStrictlySortedBy NID.cmp (keys_of result) }
    {
        self.membership.nodes()
    }
}

impl<C: fmt::Debug, NID: NodeId, N: Node> fmt::Debug for StoredMembershipOf<C, NID, N> {
    fn fmt<W: fmt::Write>(&self, f: &mut fmt::Formatter<W>) -> fmt::Result {
        f.debug_struct("StoredMembership")
            .field("log_id", &self.log_id)
            .field("membership", &self.membership)
            .finish()
    }
}

impl<C: fmt::Display, NID: NodeId, N: Node> fmt::Display for StoredMembershipOf<C, NID, N> {
    fn fmt<W: fmt::Write>(&self, f: &mut fmt::Formatter<W>) -> fmt::Result {
        let StoredMembershipOf { log_id, membership } = self;
        let log_id = DisplayOption(log_id);
        write!(f, "{{log_id:{log_id}, {membership}}}")
    }
}

impl<C: fmt::Display, NID: NodeId, N: Node> MessageSummary<StoredMembershipOf<C, NID, N>>
    for StoredMembershipOf<C, NID, N> {
    fn summary(&self, alloc: Global) -> Result<String, AllocError> {
        self.to_string(alloc)
    }
}
