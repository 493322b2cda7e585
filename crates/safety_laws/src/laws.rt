//! What holds of every cluster in which each server keeps Raft's rules, as contracts: a caller that
//! needs one of these theorems calls its function, which does nothing.
//!
//! `T` are terms or committed leader ids, `ID` server ids, `D` contents of entries, `M` configs.
ghost use Rattle.safety_laws.specs.AppendEntries.{ConsistencyChecksSuffice};
ghost use Rattle.safety_laws.specs.AppliedConfigs.{AppliedConfigsAreSafe, SettledConfigsSuffice};
ghost use Rattle.safety_laws.specs.AppliedExecution.{AppliedExecutionsAreSafe, AppliedExecutionsKeepFacts, AppliedStateMachinesAgree};
ghost use Rattle.safety_laws.specs.AppliedTrace.{AppliedTracesAreExecutions};
ghost use Rattle.safety_laws.specs.Apply.{StateMachinesAgree};
ghost use Rattle.safety_laws.specs.Configs.{ChangingMembersAreSafe, JointMembersAreSafe, StepsAreCoherent};
ghost use Rattle.safety_laws.specs.Execution.{ExecutionsAreSafe, ExecutionsKeepFacts, StateMachinesAgreeAtAllTimes};
ghost use Rattle.safety_laws.specs.Ranks.{OrdersHaveRanks};
ghost use Rattle.safety_laws.specs.Safety.{FixedMembersAreSafe};
ghost use Rattle.safety_laws.specs.Trace.{TracesAreExecutions};

/// If any two quorums share a server, every history in which each server keeps the rules is safe:
/// it has election safety, log matching and leader completeness, and committed logs agree.
pub fn fixed_members_are_safe<T, ID: Copy + Ord, D>()
    ensures { FixedMembersAreSafe T ID D }
{}

/// If leaders propose configs by the rule, and quorums of the initial config intersect, every
/// history in which each server keeps the rules is safe.
///
/// The rule: a leader proposes a config only after it has committed an entry of its own term since
/// which no config was proposed, and only if quorums of the new config intersect each other and
/// those of the config in effect.
pub fn changing_members_are_safe<T, ID: Copy + Ord, D, M>()
    ensures { ChangingMembersAreSafe T ID D M }
{}

/// If leaders propose memberships that are coherent with the one in effect, by that rule, every
/// history in which each server keeps the rules is safe.
///
/// Memberships, their quorums and their coherence are those of `raft_members`, and each step of a
/// change is coherent. Ids that are `==` have to be equal, and the initial membership has a config.
pub fn joint_members_are_safe<T, ID: Copy + Ord, D>()
    ensures safe { JointMembersAreSafe T ID D ID.eq }
    ensures steps { StepsAreCoherent ID ID.eq }
{}

/// If each config counts once it is applied, and candidates and leaders count by the rule, every
/// history in which each server keeps the rules is safe.
///
/// The rule: a candidate or leader counts by a config that it knows to be committed and that at
/// most one config follows. Quorums of each new config intersect each other and those of the one
/// before. A config is known to a candidate if a leader of an earlier term has committed it. It is
/// known to a leader also if the leader has committed it, counting by an earlier config.
pub fn applied_configs_are_safe<T, ID: Copy + Ord, D, M>()
    ensures { AppliedConfigsAreSafe T ID D M }
{}

/// The rules of configs that count once they are applied follow from rules that each server can
/// test by itself.
///
/// These are: a leader appends a config only once the last one in its log is known to it. A
/// candidate or leader counts by a config that at most one config follows. This config is known to
/// it, or another config follows in its log.
pub fn settled_configs_suffice<T, ID: Copy + Ord, D, M>()
    ensures { SettledConfigsSuffice T ID D M }
{}

/// Every execution is safe at each of its times, over a network that may lose, delay, duplicate and
/// reorder messages, if quorums of its initial membership intersect.
///
/// Of what a server may apply at one time of it, and what another may apply at another time, one is
/// a prefix of the other.
pub fn executions_are_safe<T, ID: Copy + Ord, D, M>()
    ensures safe { ExecutionsAreSafe T ID D M }
    ensures applied { StateMachinesAgreeAtAllTimes T ID D M }
{}

/// What was asked, sent, voted, acknowledged, elected or committed at a time of an execution is so
/// at every later time, if quorums of its initial membership intersect.
pub fn facts_are_stable<T, ID: Copy + Ord, D, M>()
    ensures { ExecutionsKeepFacts T ID D M }
{}

/// Every execution in which each config counts once it is applied is safe at each of its times, if
/// quorums of its initial config intersect. What was so at one time is so at every later time.
///
/// Of what a server may apply at one time of it, and what another may apply at another time, one is
/// a prefix of the other.
pub fn applied_executions_are_safe<T, ID: Copy + Ord, D, M>()
    ensures safe { AppliedExecutionsAreSafe T ID D M }
    ensures stable { AppliedExecutionsKeepFacts T ID D M }
    ensures applied { AppliedStateMachinesAgree T ID D M }
{}

/// If a follower compares the terms of a leader's entries with those of its log, and truncates its
/// log at the first conflict, it keeps the rules, and may acknowledge the entries. So it does if it
/// installs a leader's snapshot, unless its log has the snapshot's last entry.
pub fn consistency_check_suffices<T, ID: Copy + Ord, D>()
    ensures { ConsistencyChecksSuffice T ID D }
{}

/// State machine safety: in a history that is safe, in which each server keeps the rules, no two
/// servers ever apply different entries at one index, if each applies what it may apply.
pub fn state_machines_agree<T, ID: Copy + Ord, D>()
    ensures { StateMachinesAgree T ID D }
{}

/// A recorded trace, each of whose events passes the test after the earlier ones, is an execution.
/// So it is safe, and no two servers in it have applied different entries at one index.
pub fn traces_are_executions<T, ID: Copy + Ord, D, M>()
    ensures { TracesAreExecutions T ID D M }
{}

/// A recorded trace of a cluster in which each config counts once it is applied, each of whose
/// events passes the test of such traces after the earlier ones, is an execution. So it is safe,
/// and no two servers in it have applied different entries at one index.
pub fn applied_traces_are_executions<T, ID: Copy + Ord, D, M>()
    ensures { AppliedTracesAreExecutions T ID D M }
{}

/// The terms in use of any total order have ranks, by which the other theorems compare them: term
/// numbers, leader ids of a term and a node, and a caller's own.
pub fn orders_have_ranks<C: Ord + Copy>()
    ensures { OrdersHaveRanks C C.cmp }
{}
