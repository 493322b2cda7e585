//! What the checker asks of memberships and of terms.

use crate::recorded::three;
use raft_base::LeaderId;
use raft_base::leader_id_std::CommittedLeaderId;
use std::test::Fail;
use tests_support::facts::first_wrong;
use trace_checker::checker::Configs;
use trace_checker::memberships::Memberships;
use trace_checker::term::Term;

/// Pairs of memberships of `three`, each named by the content of its entry, and whether quorums of
/// the two are known to intersect.
const PAIRS: [(&str, Option<u64>, Option<u64>, bool); 9] = [
    ("a shared config", None, Some(100), true),
    ("no shared config", None, Some(101), false),
    ("one server more", None, Some(102), true),
    ("one more than four", Some(102), Some(103), true),
    ("one server less", Some(102), None, true),
    ("two servers more", None, Some(103), false),
    ("two servers less", Some(103), None, false),
    ("one config with one more", Some(100), Some(102), true),
    ("each config with two more", Some(100), Some(103), false),
];

/// Returns the name of the first pair of memberships for which the answer is wrong.
fn wrong_pair(memberships: &Memberships<u64, u64>) -> Option<&'static str> {
    for (name, config, other, intersect) in PAIRS {
        if memberships.do_intersect(config, other) != intersect {
            return Some(name);
        }
    }
    None
}

/// Returns which answer of the memberships of `three` is wrong. Content 100 holds the joint one of
/// 0, 1, 2 and 2, 3, 4.
fn wrong_membership(memberships: &Memberships<u64, u64>) -> Option<&'static str> {
    first_wrong(&[
        ("a content with a config", memberships.holds_config(100)),
        ("a content without", !memberships.holds_config(10)),
        ("two of three", memberships.is_quorum(None, &[0, 1])),
        ("one of three", !memberships.is_quorum(None, &[0])),
        (
            "of one config alone",
            !memberships.is_quorum(Some(100), &[0, 1]),
        ),
        (
            "of both configs",
            memberships.is_quorum(Some(100), &[0, 2, 3]),
        ),
    ])
}

/// Returns which rank is wrong.
fn wrong_rank() -> Option<&'static str> {
    let pair = (1_u128 << 64) + 2;
    first_wrong(&[
        ("of a number", 7_u64.rank() == 7),
        ("of a pair", (1_u64, 2_u64).rank() == pair),
        ("of a leader id", LeaderId::new(1, 2_u64).rank() == pair),
        ("of a term", CommittedLeaderId { term: 3 }.rank() == 3),
    ])
}

#[test]
fn memberships_and_terms_answer(rt: HostRuntime) -> Result<(), Fail> {
    let memberships = three(rt.alloc())?;
    let wrong = wrong_membership(&memberships)
        .or(wrong_pair(&memberships))
        .or(wrong_rank());
    assert!(rt; wrong.is_none(), "{}", wrong.unwrap_or(""));
    Ok(())
}
