//! Errors: what becomes one, what they print, and their clones.

use crate::support::asserts::{assert_right, assert_row};
use crate::support::memberships::id;
use raft_base::Vote;
use raft_members::{
    ChangeMembershipError, EmptyMembership, InProgress, InitializeError, LackEntry,
    LearnerNotFound, NotAllowed, NotInMembers, QuorumNotEnough,
};
use std::alloc::{AllocError, Global};
use tests_support::facts::first_wrong;
use tests_support::memory::{both_made, equals, is_yes, with_made};
use tests_support::printing::{displays, prints};
use tests_support::words::{ids, members};

/// Whether a refusal of a change displays as the text.
fn shows(alloc: Global, refusal: ChangeMembershipError<u64>, text: &str) -> bool {
    displays(alloc, &refusal, text)
}

/// Returns which refusal of a change prints another text.
fn wrong_refusal(alloc: Global) -> Option<&'static str> {
    let empty = "new membership can not be empty";
    let missing = "Learner 4 not found: add it as learner before adding it as a voter";
    let in_progress = [
        "the cluster is already undergoing a configuration change at log Some(LogId { leader_id: \
        LeaderId { term: 1, node_id: 2 }, index: 3 }), last committed membership log id: None",
        "InProgress { committed: None, membership_log_id: Some(LogId { leader_id: LeaderId { \
        term: 1, node_id: 2 }, index: 3 }) }",
    ];
    let refusal = InProgress {
        committed: None,
        membership_log_id: Some(id()),
    };
    first_wrong(&[
        (
            "out of memory",
            shows(alloc, AllocError.into(), "out of memory"),
        ),
        (empty, shows(alloc, EmptyMembership {}.into(), empty)),
        (
            missing,
            shows(alloc, LearnerNotFound { node_id: 4 }.into(), missing),
        ),
        ("in progress", prints(alloc, Ok(refusal), in_progress)),
    ])
}

/// The error that a node alone is no quorum of the voters 1 and 2.
pub fn quorum_not_enough(alloc: Global, node: &str) -> Result<QuorumNotEnough<u64>, AllocError> {
    let cluster = members(alloc, "1,2", "1=4,2=5")?.to_string(alloc);
    let (cluster, got) = both_made(cluster, ids(alloc, node))?;
    Ok(QuorumNotEnough { cluster, got })
}

/// The error of a node that belongs to a cluster already.
fn refused() -> NotAllowed<u64> {
    NotAllowed {
        last_log_id: None,
        vote: Vote::new(1, 2),
    }
}

/// The error of the start of a cluster at a node that belongs to one already.
pub fn not_allowed() -> InitializeError<u64, u64> {
    refused().into()
}

/// The error of a node that is no member.
pub fn not_in_members(alloc: Global) -> Result<InitializeError<u64, u64>, AllocError> {
    Ok(NotInMembers {
        node_id: 9,
        membership: members(alloc, "1,2", "1=4,3=6")?,
    }
    .into())
}

/// Returns which error of a log, of a quorum or of the start of a cluster prints another text.
fn wrong_error(alloc: Global) -> Option<&'static str> {
    let lack: LackEntry<u64> = LackEntry {
        index: Some(7),
        last_purged_log_id: None,
    };
    let lack_texts = [
        "store has no log at: Some(7), last purged: None",
        "LackEntry { index: Some(7), last_purged_log_id: None }",
    ];
    let quorum_texts = [
        "not enough for a quorum, cluster: {voters:[{1:4,2:5}], learners:[]}, got: {1}",
        "QuorumNotEnough { cluster: \"{voters:[{1:4,2:5}], learners:[]}\", got: {1} }",
    ];
    let not_allowed_texts = [
        "not allowed to initialize due to current raft state: last_log_id: None vote: \
        T1-N2:uncommitted",
        "NotAllowed { last_log_id: None, vote: Vote { leader_id: LeaderId { term: 1, node_id: 2 \
        }, committed: false } }",
    ];
    let not_in_members_texts = [
        "node 9 has to be a member. membership:Membership { configs: [{1, 2}], nodes: {1: 4, 3: 6} \
        }",
        "NotInMembers(NotInMembers { node_id: 9, membership: Membership { configs: [{1, 2}], \
        nodes: {1: 4, 3: 6} } })",
    ];
    first_wrong(&[
        ("lack of an entry", prints(alloc, Ok(lack), lack_texts)),
        (
            "no quorum",
            prints(alloc, quorum_not_enough(alloc, "1"), quorum_texts),
        ),
        (
            "not allowed",
            prints(alloc, Ok(refused()), not_allowed_texts),
        ),
        (
            "not in members",
            prints(alloc, not_in_members(alloc), not_in_members_texts),
        ),
    ])
}

/// Example members 10. The texts of refusals and other errors.
#[test]
fn errors_print_and_are_cloned(rt: HostRuntime) {
    let alloc = rt.alloc();
    assert_right(&rt, "refusals", wrong_refusal(alloc));
    assert_right(&rt, "errors", wrong_error(alloc));
    let is_cloned = with_made(not_in_members(alloc), |error| {
        Ok(equals(error.try_clone(), error))
    });
    assert_row(&rt, "a clone", is_yes(is_cloned));
}
