//! What leaders, votes, log ids, nodes, stamped values, ranges and broken relations print.

use crate::asserts::{assert_right, assert_row};
use raft_base::{
    BasicNode, EmptyNode, Invalid, LeaderId, LeaderStd, LogId, LogIdRange, UTime, Vote, VoteOf,
    leader_id_std,
};
use std::alloc::Global;
use tests_support::printing::{debugs, displays, prints, sums_up};

/// Whether leaders, votes and log ids have their texts. The two texts of a value are how it
/// displays, and its debug form.
fn ids_print(alloc: Global, vote: Vote<u64>, id: LogId<u64>) -> [bool; 6] {
    let vote_texts = [
        "T1-N2:uncommitted",
        "Vote { leader_id: LeaderId { term: 1, node_id: 2 }, committed: false }",
    ];
    let id_texts = [
        "T1-N2-3",
        "LogId { leader_id: LeaderId { term: 1, node_id: 2 }, index: 3 }",
    ];
    [
        displays(alloc, vote.leader_id(), "T1-N2"),
        prints(alloc, Ok(vote), vote_texts),
        displays(alloc, &Vote::new_committed(1, 2u64), "T1-N2:committed"),
        sums_up(alloc, &vote, vote_texts[0]),
        prints(alloc, Ok(id), id_texts),
        sums_up(alloc, &id, id_texts[0]),
    ]
}

/// Whether leaders and votes of standard Raft have their texts.
fn standard_ids_print(alloc: Global) -> [bool; 3] {
    let none = leader_id_std::LeaderId::<u64>::default();
    let none_texts = ["T0-NNone", "LeaderId { term: 0, voted_for: None }"];
    let committed = leader_id_std::CommittedLeaderId { term: 1 };
    let committed_texts = ["1", "CommittedLeaderId { term: 1 }"];
    let vote = VoteOf::<u64, LeaderStd>::new(1, 2);
    [
        prints(alloc, Ok(none), none_texts),
        prints(alloc, Ok(committed), committed_texts),
        displays(alloc, &vote, "T1-N2:uncommitted"),
    ]
}

/// Whether nodes, stamped values and ranges have their texts.
fn values_print(alloc: Global, id: LogId<u64>) -> [bool; 7] {
    let address = ["10.0.0.1:80", "BasicNode { addr: \"10.0.0.1:80\" }"];
    let later = LogIdRange::new(Some(id), Some(LogId::new(id.leader_id, 9)));
    let first = LogIdRange::new(None, Some(id));
    let none = LogIdRange::<u64>::new(None, None);
    [
        prints(alloc, Ok(EmptyNode::new()), ["{}", "EmptyNode"]),
        prints(alloc, BasicNode::new(alloc, "10.0.0.1:80"), address),
        displays(alloc, &UTime::new(9u64, id), "T1-N2-3@9"),
        displays(alloc, &UTime::<_, u64>::without_utime(id), "T1-N2-3"),
        displays(alloc, &later, "(T1-N2-3, T1-N2-9]"),
        displays(alloc, &first, "(None, T1-N2-3]"),
        debugs(alloc, &none, "LogIdRange { prev: None, last: None }"),
    ]
}

/// The texts of broken relations, each behind `invalid: `.
const RELATIONS: [(Invalid, &str); 13] = [
    (Invalid::RangeOrder, "RangeOrder"),
    (Invalid::MatchingPastEnd, "MatchingPastEnd"),
    (Invalid::MatchingPastPrev, "MatchingPastPrev"),
    (Invalid::PrevPastEnd, "PrevPastEnd"),
    (Invalid::SnapshotNotPastMatching, "SnapshotNotPastMatching"),
    (Invalid::PurgedNext, "PurgedNext"),
    (Invalid::LastPurgedPastUpto, "LastPurgedPastUpto"),
    (Invalid::UptoPastCommitted, "UptoPastCommitted"),
    (Invalid::UptoPastSnapshot, "UptoPastSnapshot"),
    (Invalid::SnapshotPastCommitted, "SnapshotPastCommitted"),
    (Invalid::CommittedPastLast, "CommittedPastLast"),
    (Invalid::MembershipLogId, "MembershipLogId"),
    (Invalid::MembershipIndex, "MembershipIndex"),
];

/// Returns which broken relation does not print its name.
fn wrong_relation(alloc: Global) -> Option<&'static str> {
    for (broken, text) in &RELATIONS {
        match broken.to_string(alloc) {
            Ok(printed) if printed.strip_prefix("invalid: ") == Some(*text) => {}
            _ => return Some(*text),
        }
    }
    None
}

/// Example base 6. The texts of leaders, votes, log ids, nodes, stamped values, ranges and broken
/// relations.
#[test]
fn texts(rt: HostRuntime) {
    let alloc = rt.alloc();
    let id = LogId::new(LeaderId::new(1, 2), 3);
    assert_row(
        &rt,
        "ids",
        ids_print(alloc, Vote::new(1, 2), id) == [true; 6],
    );
    assert_row(&rt, "standard ids", standard_ids_print(alloc) == [true; 3]);
    assert_row(&rt, "values", values_print(alloc, id) == [true; 7]);
    assert_right(&rt, "broken relations", wrong_relation(alloc));
}
