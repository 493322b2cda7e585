//! What log entries, the memberships of a node, its written log, a new state and the error that
//! forwards print.

use raft_base::{CommittedLeaderId, LogId, Validate, leader_id_std};
use raft_members::EffectiveMembership;
use raft_state::{
    Entry, EntryPayload, ForwardToLeader, LogIOId, LogIOIdOf, MembershipState, RaftState,
    SnapshotMeta,
};
use std::alloc::{AllocError, Global};
use std::test::Fail;
use tests_support::memory::is_yes;
use tests_support::printing::{debugs, displays, sums_up};
use tests_support::words::members;

/// Whether a payload sums up as the first text and prints the second one, and an entry with it at
/// (1,2,3) displays and sums up as the third.
fn entry_prints(
    alloc: Global,
    payload: EntryPayload<u64, u64, u64>,
    [summary, debug, entry_summary]: [&str; 3],
) -> bool {
    let has_summary = sums_up(alloc, &payload, summary) && debugs(alloc, &payload, debug);
    let log_id = LogId::new(CommittedLeaderId::new(1, 2u64), 3);
    let entry: Entry<u64, u64, u64> = Entry { log_id, payload };
    let are_right = [
        has_summary,
        displays(alloc, &entry, entry_summary),
        sums_up(alloc, &entry, entry_summary),
    ];
    !are_right.contains(&false)
}

/// The texts of a blank entry, of an entry of data and of one with a membership.
const BLANK: [&str; 3] = ["blank", "blank", "T1-N2-3:blank"];

const NORMAL: [&str; 3] = ["normal", "normal", "T1-N2-3:normal"];

const MEMBERSHIP: [&str; 3] = [
    "membership: {voters:[{1:4,2:5}], learners:[3:6]}",
    "membership:Membership { configs: [{1, 2}], nodes: {1: 4, 2: 5, 3: 6} }",
    "T1-N2-3:membership: {voters:[{1:4,2:5}], learners:[3:6]}",
];

/// The memberships of a new node.
fn new_memberships(alloc: Global) -> Result<MembershipState<u64, u64>, AllocError> {
    MembershipState::try_default(alloc)
}

/// Memberships of which the effective one has a log id.
fn memberships(alloc: Global) -> Result<MembershipState<u64, u64>, AllocError> {
    let log_id = LogId::new(CommittedLeaderId::new(1, 2u64), 3);
    let membership = members(alloc, "1,2", "1=4,2=5,3=6")?;
    let effective = EffectiveMembership::new_arc(Some(log_id), membership)?;
    let new = new_memberships(alloc)?;
    Ok(MembershipState::new(new.committed().clone()?, effective))
}

/// The summary of a new node's memberships.
const NEW: &str = "MembershipState{\
    committed: {log_id:None membership:{voters:[], learners:[]}}, \
    effective: {log_id:None membership:{voters:[], learners:[]}}}";

/// The summary of memberships of which the effective one has a log id.
const IN_EFFECT: &str = "MembershipState{\
    committed: {log_id:None membership:{voters:[], learners:[]}}, \
    effective: {log_id:Some(LogId { leader_id: LeaderId { term: 1, node_id: 2 }, index: 3 }) \
    membership:{voters:[{1:4,2:5}], learners:[3:6]}}}";

/// Whether the memberships of a node sum up each with its log id, where there is one.
fn memberships_sum_up(alloc: Global) -> Result<bool, AllocError> {
    Ok(
        sums_up(alloc, &new_memberships(alloc)?, NEW)
            && sums_up(alloc, &memberships(alloc)?, IN_EFFECT),
    )
}

/// Whether a written log prints its leader and its last log id, where there is one.
fn written_log_prints(alloc: Global) -> bool {
    let leader = CommittedLeaderId::new(1, 2u64);
    let written = LogIOId::new(leader, Some(LogId::new(leader, 3)));
    let standard = LogIOIdOf::new(leader_id_std::CommittedLeaderId { term: 1 }, None);
    displays(alloc, &written, "by_leader(T1-N2):T1-N2-3")
        && displays(alloc, &LogIOId::new(leader, None), "by_leader(T1-N2):None")
        && displays(alloc, &standard, "by_leader(1):None")
}

/// Example state 8. The texts of entries, of the memberships of a node, of a written log, and
/// of the error that forwards.
#[test]
fn texts(rt: HostRuntime) -> Result<(), Fail> {
    let alloc = rt.alloc();
    let membership = EntryPayload::Membership(members(alloc, "1,2", "1=4,2=5,3=6")?);
    let are_right = [
        entry_prints(alloc, EntryPayload::Blank, BLANK),
        entry_prints(alloc, EntryPayload::Normal(7), NORMAL),
        entry_prints(alloc, membership, MEMBERSHIP),
        is_yes(memberships_sum_up(alloc)),
        written_log_prints(alloc),
    ];
    assert!(rt; are_right == [true; 5]);
    Ok(())
}

/// What the state of a new node prints.
const NEW_STATE: &str =
    "RaftState { vote: UTime { data: Vote { leader_id: LeaderId { term: 0, node_id: 0 }, \
    committed: false }, utime: None }, \
    committed: None, purged_next: 0, log_ids: LogIdList { key_log_ids: [] }, \
    membership_state: MembershipState { \
    committed: EffectiveMembership { log_id: None, membership: Membership { configs: [], nodes: {} \
    }, voter_ids: {} }, \
    effective: EffectiveMembership { log_id: None, membership: Membership { configs: [], nodes: {} \
    }, voter_ids: {} } }, \
    snapshot_meta: SnapshotMeta { last_log_id: None, \
    last_membership: StoredMembership { log_id: None, membership: Membership { configs: [], nodes: \
    {} } }, \
    snapshot_id: \"\" }, \
    server_state: Learner, accepted: Accepted { leader_id: LeaderId { term: 0, node_id: 0 }, \
    log_id: None }, \
    io_state: IOState { building_snapshot: false, \
    vote: Vote { leader_id: LeaderId { term: 0, node_id: 0 }, committed: false }, \
    flushed: LogIOId { committed_leader_id: LeaderId { term: 0, node_id: 0 }, log_id: None }, \
    applied: None, snapshot: None, purged: None }, purge_upto: None }";

/// Whether the state of a new node prints so.
fn print(alloc: Global) -> Result<bool, AllocError> {
    let state = RaftState::<u64, u64, u64>::try_default(alloc)?;
    Ok(debugs(alloc, &state, NEW_STATE))
}

/// Whether the error that forwards a request says where.
fn forwards(alloc: Global) -> bool {
    let to: ForwardToLeader<u64, u64> = ForwardToLeader::new(3, 6);
    let to_none: ForwardToLeader<u64, u64> = ForwardToLeader::empty();
    displays(alloc, &to, "has to forward request to: Some(3), Some(6)")
        && displays(alloc, &to_none, "has to forward request to: None, None")
}

/// Example state 8. The text of a new state.
#[test]
fn a_new_state_prints(rt: HostRuntime) -> Result<(), Fail> {
    assert!(rt; print(rt.alloc())? && forwards(rt.alloc()));
    Ok(())
}
