//! A checker that learns of memberships while a cluster grows.

use crate::recorded::{Checked, events_of, is_rule, record_all};
use std::alloc::{AllocError, Global};
use std::test::Fail;
use tests_support::printing::debugs;
use tests_support::words::{lists, number, words};
use trace_checker::checker::Checker;
use trace_checker::held::Held;
use trace_checker::memberships::Memberships;

/// Rows of calls: the checker learns of the configs that entries of a content hold, forgets the
/// last ones, or takes events. At the end of a row is `ok`, or what the call or the last event is
/// refused for.
///
/// Server 0 leads in term 1. It commits an entry without a config, then one with the config of four
/// servers, and then one with the config of five. Each is acknowledged by 0, 1 and one other
/// server. Servers 2, 3 and 4 are a majority of the five servers, and servers 3 and 4 are none. Two
/// more servers become known, but no leader may add both at once. The checker forgets them, so the
/// content holds no membership, and it does not forget a membership that an entry holds.
const ROWS: &str = "\
campaigned 0 1; granted 1 1 0; wrote 0 1 1.10; appended 0 1 0 0 1.10; acked 0 1 0 1; \
    appended 1 1 0 0 1.10; acked 1 1 0 1; committed 0 1 1 1 = ok
learn 103 0,1,2,3 = ok
wrote 0 1 1.103; appended 0 1 0 1 1.103; acked 0 1 0 2; appended 1 1 0 0 1.10,1.103; \
    acked 1 1 0 2; appended 3 1 0 0 1.10,1.103; acked 3 1 0 2; committed 0 1 2 2 = ok
learn 104 0,1,2,3,4 = ok
wrote 0 1 1.104; appended 0 1 0 2 1.104; acked 0 1 0 3; appended 1 1 0 2 1.104; acked 1 1 0 3; \
    appended 4 1 0 0 1.10,1.103,1.104; acked 4 1 0 3; committed 0 1 3 3 = ok
campaigned 4 2; granted 3 2 4; wrote 4 2 2.11 = NotElected
granted 2 2 4; wrote 4 2 2.11 = ok
learn 103 none = Known
learn 10 none = Recorded
learn 105 0,1,2,3,4,5,6 = ok
wrote 0 1 1.105 = ApartConfigs
forget = ok
wrote 0 1 1.105 = ok
learn 105 0,1,2,3 = Recorded
forget = ok
learn 104 0,1,2,3 = Known";

/// Returns a checker of servers 0, 1 and 2, which knows of no other membership.
fn three_servers(alloc: Global) -> Result<Checked, AllocError> {
    let configs = Memberships {
        initial: lists(alloc, "0,1,2")?,
        held: Held::new(alloc),
    };
    Checker::new(alloc, configs).map_err(|_| AllocError)
}

/// Whether the checker learns of the membership of a row, or refuses it as expected.
fn learns(
    alloc: Global,
    checker: &mut Checked,
    text: &str,
    expected: &str,
) -> Result<bool, AllocError> {
    let words = words(text);
    let configs = lists(alloc, words[2])?;
    match checker.learn(number(words[1]), configs) {
        Ok(()) => Ok(expected == "ok"),
        Err(error) => Ok(debugs(alloc, &error, expected)),
    }
}

/// Whether the checker takes the events of a row, or refuses the last one as expected.
fn records(
    alloc: Global,
    checker: &mut Checked,
    text: &str,
    expected: &str,
) -> Result<bool, AllocError> {
    let events = events_of(alloc, &[text])?;
    match record_all(checker, &events) {
        Ok(()) => Ok(expected == "ok"),
        Err((i, violation)) => {
            Ok(i.saturating_add(1) == events.len() && is_rule(alloc, violation, expected))
        }
    }
}

/// Returns the first row of which the answer is wrong.
fn wrong_row(alloc: Global, checker: &mut Checked) -> Result<Option<&'static str>, AllocError> {
    for row in ROWS.lines() {
        let (text, expected) = row.split_once(" = ").unwrap_or((row, ""));
        let is_right = if text == "forget" {
            checker.forget();
            expected == "ok"
        } else if text.starts_with("learn") {
            learns(alloc, checker, text, expected)?
        } else {
            records(alloc, checker, text, expected)?
        };
        if !is_right {
            return Ok(Some(row));
        }
    }
    Ok(None)
}

/// Returns the first row of which the answer of a new checker is wrong.
fn wrong_answer(alloc: Global) -> Result<Option<&'static str>, AllocError> {
    let mut checker = three_servers(alloc)?;
    wrong_row(alloc, &mut checker)
}

#[test]
fn a_cluster_grows_from_three_servers_to_five(rt: HostRuntime) -> Result<(), Fail> {
    let wrong = wrong_answer(rt.alloc())?;
    assert!(rt; wrong.is_none(), "{}", wrong.unwrap_or(""));
    Ok(())
}
