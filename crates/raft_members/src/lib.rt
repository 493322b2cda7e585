//! Quorums and memberships of a Raft cluster: which sets of nodes are quorums, which nodes are
//! members, and how both change.
#![tactic(auto)]

pub mod change_members;
pub mod error;
pub mod membership;
pub mod quorum;

pub use change_members::ChangeMembers;
pub use error::{
    ChangeMembershipError, ChangeMembershipErrorOf, EmptyMembership, ForwardToLeader, InProgress,
    InProgressOf, LackEntry, LackEntryOf, LearnerNotFound, NotAllowed, NotAllowedIn, NotAllowedOf,
    QuorumNotEnough,
};
pub use membership::{
    EffectiveMembership, EffectiveMembershipOf, InitializeError, InitializeErrorIn,
    InitializeErrorOf, IntoNodes, LearnerIds, Membership, NotInMembers, StoredMembership,
    StoredMembershipOf,
};
pub use quorum::{AsJoint, AtLeast, Coherent, FindCoherent, Joint, QuorumSet};
