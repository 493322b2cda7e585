//! Comparisons, also as functions, and a caller of theirs.
ghost use Rattle.raft_base.specs.LogId.{log_id_cmp};
ghost use Rattle.std.specs.Option.{option_cmp};
ghost use Rattle.std.specs.Ordering.{is_gt};
ghost use Rattle.std.specs.Prelude.{◌≡◌, false};

use crate::asserts::{assert_call, assert_right};
use raft_base::order::{
    compare_default_votes, compare_leader_ids, compare_optional_log_ids,
    compare_standard_leader_ids, compare_standard_log_ids, compare_standard_votes, compare_votes,
    index_below, same_votes,
};
use raft_base::{LeaderId, LogId, LogIdOf, Vote, leader_id_std};
use std::cmp::Ordering;
use tests_support::allocations::{is_free, refuse_each};
use tests_support::facts::first_wrong;
use tests_support::words::{log_id, number, words};

/// Of log ids that stand in turn the first is not past the last.
fn in_turn<C: Ord>(
    a: &Option<LogIdOf<C>>,
    b: &Option<LogIdOf<C>>,
    c: &Option<LogIdOf<C>>,
) -> Ordering
    requires first { is_gt (option_cmp (log_id_cmp C.cmp) a.now b.now) ≡ false }
    requires second { is_gt (option_cmp (log_id_cmp C.cmp) b.now c.now) ≡ false }
    ensures { is_gt result ≡ false }
{
    compare_optional_log_ids(a, c)
}

/// Each row has two votes, and how the first one compares with the second one. A vote is the term
/// and the node of its leader, and whether it is committed.
const VOTES: &str = "
2 2 no 1 2 no greater
2 2 no 2 1 no greater
2 2 no 2 2 no equal
2 2 yes 2 2 no greater
";

/// Each row has two votes of standard Raft, how the first one compares with the second one, and how
/// the second one compares with the first one. A leader may have no node, and two votes may not
/// compare.
const STANDARD_VOTES: &str = "
2 2 no 1 2 no greater less
2 2 no 2 - no greater less
2 2 no 2 2 no equal equal
2 2 no 2 3 no none none
2 1 yes 2 2 no greater less
2 2 yes 2 2 no greater less
2 2 yes 2 3 yes none none
2 1 no 1 1 yes greater less
1 1 yes 1 1 yes equal equal
";

/// Two log ids as `TERM.NODE.INDEX`, and how the first one compares with the second one.
const LOG_IDS: &str = "2.1.3 1.2.9 greater";

/// Two log ids of standard Raft, which have no node.
const STANDARD_LOG_IDS: &str = "2.3 1.9 greater";

/// Two indexes, of which one is absent.
const INDEXES: &str = "- 0 less";

/// The order of a word, if two values compare.
fn order(word: &str) -> Option<Ordering> {
    match word {
        "less" => Some(Ordering::Less),
        "equal" => Some(Ordering::Equal),
        "greater" => Some(Ordering::Greater),
        _ => None,
    }
}

/// The vote of three words.
fn vote([term, node, committed]: [&str; 3]) -> Vote<u64> {
    Vote {
        leader_id: LeaderId::new(number(term), number(node)),
        committed: committed == "yes",
    }
}

/// Returns what is wrong of the votes of a row, and of their leaders, unless being committed
/// decides.
fn wrong_votes([a, b, c, d, e, f, want, ..]: [&str; 9]) -> Option<&'static str> {
    let (one, other, want) = (vote([a, b, c]), vote([d, e, f]), order(want));
    let decides_later = one.committed != other.committed;
    let compared = [
        one.partial_cmp(&other),
        compare_votes(&one, &other),
        compare_default_votes(&one, &other),
    ];
    let are_same = [one == other, same_votes(&one, &other)];
    let leaders = compare_leader_ids(&one.leader_id, &other.leader_id);
    first_wrong(&[
        ("the votes", compared == [want; 3]),
        (
            "their equality",
            are_same == [want == Some(Ordering::Equal); 2],
        ),
        ("the leaders", decides_later || Some(leaders) == want),
    ])
}

/// The vote of standard Raft of three words.
fn standard_vote([term, node, committed]: [&str; 3]) -> leader_id_std::Vote<u64> {
    leader_id_std::Vote::<u64> {
        leader_id: leader_id_std::LeaderId {
            term: number(term),
            voted_for: node.parse::<u64>().ok(),
        },
        committed: committed == "yes",
    }
}

/// Returns what is wrong of the votes of a row, from both sides, and of their leaders, unless being
/// committed decides.
fn wrong_standard_votes([a, b, c, d, e, f, want, back, ..]: [&str; 9]) -> Option<&'static str> {
    let (one, other) = (standard_vote([a, b, c]), standard_vote([d, e, f]));
    let want = order(want);
    let has_committed = one.committed || other.committed;
    let leaders = compare_standard_leader_ids(one.leader_id(), other.leader_id());
    first_wrong(&[
        ("the votes", compare_standard_votes(&one, &other) == want),
        ("the other side", other.partial_cmp(&one) == order(back)),
        (
            "their equality",
            (one == other) == (want == Some(Ordering::Equal)),
        ),
        ("the leaders", has_committed || leaders == want),
    ])
}

/// Returns what is wrong of the log ids of a row.
fn wrong_log_ids([one, other, want, ..]: [&str; 9]) -> Option<&'static str> {
    let (one, other): (Option<LogId<u64>>, _) = (log_id(one), log_id(other));
    let compared = compare_optional_log_ids(&one, &other);
    first_wrong(&[("the log ids", Some(compared) == order(want))])
}

/// Returns what is wrong of the log ids of standard Raft of a row.
fn wrong_standard_log_ids([one, other, want, ..]: [&str; 9]) -> Option<&'static str> {
    let made = match (log_id(one), log_id(other)) {
        (Some(one), Some(other)) => Some(compare_standard_log_ids(&one, &other)),
        _ => None,
    };
    first_wrong(&[("the log ids", made == order(want))])
}

/// Returns what is wrong of the indexes of a row.
fn wrong_indexes([one, other, want, ..]: [&str; 9]) -> Option<&'static str> {
    let (one, other) = (one.parse::<u64>().ok(), other.parse::<u64>().ok());
    first_wrong(&[("the indexes", index_below(one, other) == (want == "less"))])
}

/// Returns what is wrong of a row of a comparison.
pub fn wrong_of(comparison: &str, row: &str) -> Option<&'static str> {
    let row = words(row);
    match comparison {
        "comparison of votes" => wrong_votes(row),
        "comparison of standard votes" => wrong_standard_votes(row),
        "comparison of log ids" => wrong_log_ids(row),
        "comparison of indexes" => wrong_indexes(row),
        _ => wrong_standard_log_ids(row),
    }
}

/// Example base 1. Leader and vote (2, 2) are above (1, 2) and (2, 1), and equal themselves.
/// The vote is below itself committed.
/// Example base 2. Of standard Raft, leader and vote (2, 2) are above (1, 2) and (2, none), and
/// do not compare with (2, 3). Committed votes (2, 1) and (2, 2) are above (2, 2), and do not
/// compare with committed (2, 3).
#[test]
fn votes_and_log_ids_compare(rt: HostRuntime) {
    for (name, rows) in [
        ("comparison of votes", VOTES),
        ("comparison of standard votes", STANDARD_VOTES),
        ("comparison of log ids", LOG_IDS),
        ("comparison of standard log ids", STANDARD_LOG_IDS),
        ("comparison of indexes", INDEXES),
    ] {
        refuse_each(rt.alloc());
        for row in rows.trim().lines() {
            assert_right(&rt, row, wrong_of(name, row));
        }
        assert_call(&rt, name, is_free(&rt, rt.alloc(), name, true));
    }
}
