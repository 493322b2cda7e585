//! What memberships print.

use crate::support::asserts::assert_row;
use crate::support::memberships::{Effective, Stored, effective};
use std::alloc::{AllocError, Global};
use tests_support::memory::is_yes;
use tests_support::printing::{debugs, displays, sums_up};
use tests_support::words::{log_id, words};

/// Each row has the form of a text, and the log id, configs and nodes of an effective membership.
/// Behind `|` is the text of that membership, or of what is stored in it.
const TEXTS: &str = "
display - 1,2 1=4,2=5,3=6 | {voters:[{1:4,2:5}], learners:[3:6]}
display - 1,2/2,5 1=4,2=5,3=6,7=8 | {voters:[{1:4,2:5},{2:5,5:None}], learners:[3:6,7:8]}
display - - - | {voters:[{}], learners:[]}
display - none 1=4 | {voters:[], learners:[1:4]}
stored-display - 1,2 1=4,2=5 | {log_id:None, {voters:[{1:4,2:5}], learners:[]}}
stored-display 1.2.3 - - | {log_id:T1-N2-3, {voters:[{}], learners:[]}}
effective-summary 1.2.3 - - | {log_id:Some(LogId { leader_id: LeaderId { term: 1, node_id: 2 }, \
    index: 3 }) membership:{voters:[{}], learners:[]}}
stored-debug - none - | StoredMembership { log_id: None, membership: Membership { configs: [], \
    nodes: {} } }
effective-debug - none - | EffectiveMembership { log_id: None, membership: Membership { \
    configs: [], nodes: {} }, voter_ids: {} }
";

/// Whether an effective membership, or what is stored in it, has the text of a form.
fn has_text(alloc: Global, effective: &Effective, form: &str, text: &str) -> bool {
    let stored: &Stored = effective.stored_membership();
    match form {
        "display" => displays(alloc, stored.membership(), text),
        "stored-display" => displays(alloc, stored, text),
        "stored-debug" => debugs(alloc, stored, text),
        "effective-summary" => sums_up(alloc, effective, text),
        _ => debugs(alloc, effective, text),
    }
}

/// Whether the membership of a row prints the row's text.
fn prints_row(alloc: Global, row: &str) -> Result<bool, AllocError> {
    let (made, text) = row.split_once(" | ").unwrap_or((row, ""));
    let [form, id, configs, nodes, ..] = words(made);
    let effective = effective(alloc, log_id(id), configs, nodes)?;
    Ok(has_text(alloc, &effective, form, text))
}

/// Example members 10. The texts of memberships.
#[test]
fn memberships_print(rt: HostRuntime) {
    for row in TEXTS.trim().lines() {
        assert_row(&rt, row, is_yes(prints_row(rt.alloc(), row)));
    }
}
