//! Callers of the laws, each as an engine has the need of it.
ghost use Rattle.raft_base.specs.LeaderId.{leader_id_cmp};
ghost use Rattle.raft_base.specs.declared.leader_id.LeaderId.{LeaderId as LeaderIdRecord};
ghost use Rattle.safety_laws.specs.AppliedConfigs.{AppliedConfigsAreSafe, SettledConfigsSuffice};
ghost use Rattle.safety_laws.specs.AppliedExecution.{AppliedExecutionsAreSafe, AppliedStateMachinesAgree};
ghost use Rattle.safety_laws.specs.AppliedTrace.{AppliedTracesAreExecutions};
ghost use Rattle.safety_laws.specs.Apply.{StateMachinesAgree};
ghost use Rattle.safety_laws.specs.Configs.{JointMembersAreSafe, StepsAreCoherent};
ghost use Rattle.safety_laws.specs.Execution.{ExecutionsKeepFacts, StateMachinesAgreeAtAllTimes};
ghost use Rattle.tests_laws.specs.Callers.{AllowedTracesAgree, OneMembershipIsSafe, QuorumSizesElectOne};
ghost use Rattle.std.specs.Ordering.{nat_cmp};
ghost use Rattle.std.specs.Prelude.{ℕ};

use raft_base::{LeaderAdv, LeaderKind, LeaderStd, NodeId};
use raft_members::quorum::laws::quorums_meet;
use safety_laws::laws::{
    applied_configs_are_safe, applied_executions_are_safe, applied_traces_are_executions,
    changing_members_are_safe, executions_are_safe, facts_are_stable, fixed_members_are_safe,
    joint_members_are_safe, orders_have_ranks, settled_configs_suffice, state_machines_agree,
    traces_are_executions,
};

/// A cluster whose membership never changes is safe.
pub fn one_membership_is_safe<T, ID: Copy + Ord, D>()
    ensures { OneMembershipIsSafe T ID D ID.eq }
{
    quorums_meet::<ID>();
    fixed_members_are_safe::<T, ID, D>();
}

/// A cluster that changes the size of its quorums by the rules elects one leader in a term.
pub fn quorum_sizes_elect_one<T, ID: Copy + Ord, D>()
    ensures { QuorumSizesElectOne T ID D ID.eq }
{
    changing_members_are_safe::<T, ID, D, usize>();
}

/// What an engine over a kind of leader ids may rely on: its memberships change safely, its servers
/// apply the same entries at all times, messages may be late, and its traces can be checked.
pub fn kind_is_safe<NID: NodeId, K: LeaderKind<NID>, D, M>()
    ensures members { JointMembersAreSafe K.Committed NID D NID.eq }
    ensures steps { StepsAreCoherent NID NID.eq }
    ensures machines { StateMachinesAgree K.Committed NID D }
    ensures times { StateMachinesAgreeAtAllTimes K.Committed NID D M }
    ensures facts { ExecutionsKeepFacts K.Committed NID D M }
    ensures traces { AllowedTracesAgree K.Committed NID D M K.Committed.cmp }
{
    joint_members_are_safe::<K::Committed, NID, D>();
    state_machines_agree::<K::Committed, NID, D>();
    executions_are_safe::<K::Committed, NID, D, M>();
    facts_are_stable::<K::Committed, NID, D, M>();
    orders_have_ranks::<K::Committed>();
    traces_are_executions::<K::Committed, NID, D, M>();
}

/// What an engine over a kind of leader ids may rely on if its configs count once they are applied:
/// rules that each of its servers can test keep it safe, its servers apply the same entries at all
/// times, and its traces can be checked.
pub fn applied_kind_is_safe<NID: NodeId, K: LeaderKind<NID>, D, M>()
    ensures members { AppliedConfigsAreSafe K.Committed NID D M }
    ensures engine { SettledConfigsSuffice K.Committed NID D M }
    ensures times { AppliedExecutionsAreSafe K.Committed NID D M }
    ensures machines { AppliedStateMachinesAgree K.Committed NID D M }
    ensures traces { AppliedTracesAreExecutions K.Committed NID D M }
{
    applied_configs_are_safe::<K::Committed, NID, D, M>();
    settled_configs_suffice::<K::Committed, NID, D, M>();
    applied_executions_are_safe::<K::Committed, NID, D, M>();
    applied_traces_are_executions::<K::Committed, NID, D, M>();
}

/// Leader ids of a term and a node, as they are by default.
pub fn default_ids_are_safe()
    ensures { AllowedTracesAgree (LeaderIdRecord ℕ) ℕ ℕ ℕ (leader_id_cmp nat_cmp) }
{
    kind_is_safe::<u64, LeaderAdv, u64, u64>();
    applied_kind_is_safe::<u64, LeaderAdv, u64, u64>();
}

/// Leader ids of standard Raft.
pub fn standard_ids_are_safe() {
    kind_is_safe::<u64, LeaderStd, u64, u64>();
    applied_kind_is_safe::<u64, LeaderStd, u64, u64>();
}
