//! The first caller, as it is printed on the page for callers.

use raft_base::{CommittedLeaderId, LogId, Vote};

/// Whether a candidate in a term, at node 2, may have the vote of a node that has promised node 1.
fn may_vote(term: u64) -> bool {
    let promised = Vote::new(2, 1u64);
    let mine = LogId::new(CommittedLeaderId::new(1, 1u64), 4);
    let theirs = LogId::new(CommittedLeaderId::new(1, 2u64), 9);
    Vote::new(term, 2) >= promised && theirs >= mine
}

#[test]
fn a_later_term_has_the_vote(rt: HostRuntime) {
    assert_eq!(rt; [may_vote(1), may_vote(2)], [false, true]);
}
