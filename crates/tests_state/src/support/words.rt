//! Calls of a list of log ids as rows of words: the call, the keys, its argument, the answer.

use crate::support::asserts::assert_row;
use crate::support::states::log_of;
use raft_base::LogIdOf;
use raft_state::LogIdListOf;
use std::alloc::{AllocError, Global};
use std::process::Abort;
use tests_support::memory::{both_made, is_yes};
use tests_support::plain_log::Numbered;
use tests_support::words::{log_ids, number, words};

/// Makes a call that changes the list, with the first of these log ids, or all. Returns whether it
/// is a call, and may be made.
pub fn edit<C: Ord + Copy>(
    list: &mut LogIdListOf<C>,
    call: &str,
    argument: &str,
    ids: &[LogIdOf<C>],
) -> Result<bool, AllocError> {
    let made = match (call, ids.first()) {
        ("append", Some(id)) if list.can_append(*id) => list.append(*id),
        ("purge", Some(id)) if list.can_purge(id) => list.purge(id),
        ("extend", _) if list.can_extend(ids) => list.extend(ids),
        ("extend_same", _) if list.can_extend_from_same_leader(ids) => {
            list.extend_from_same_leader(ids)
        }
        ("truncate", _) => {
            list.truncate(number(argument));
            Ok(())
        }
        _ => return Ok(false),
    };
    match made {
        Ok(()) => Ok(true),
        Err(refused) => Err(refused),
    }
}

/// What a test of a list answers, with the first of these log ids, or all.
fn answer_of<C: Ord + Copy>(list: &LogIdListOf<C>, test: &str, ids: &[LogIdOf<C>]) -> Option<bool> {
    match (test, ids.first()) {
        ("can_append", Some(id)) => Some(list.can_append(*id)),
        ("can_purge", Some(id)) => Some(list.can_purge(id)),
        ("can_extend", _) => Some(list.can_extend(ids)),
        ("can_extend_same", _) => Some(list.can_extend_from_same_leader(ids)),
        _ => None,
    }
}

/// The log id that a call reads, if it reads one.
fn read<C: Ord + Copy>(
    list: &LogIdListOf<C>,
    call: &str,
    index: &str,
) -> Option<Option<LogIdOf<C>>> {
    match call {
        "get" => Some(list.get(number(index))),
        "first" => Some(list.first().copied()),
        "last" => Some(list.last().copied()),
        _ => None,
    }
}

/// The keys that a call reads, if it reads some.
fn keys<'a, C: Ord + Copy>(list: &'a LogIdListOf<C>, call: &str) -> Option<&'a [LogIdOf<C>]> {
    match call {
        "by_last_leader" => Some(list.by_last_leader()),
        "key_log_ids" => Some(list.key_log_ids()),
        _ => None,
    }
}

/// Whether a call with these log ids leads to the answer, or the list to these keys.
fn leads_to<C: Ord + Copy>(
    list: &mut LogIdListOf<C>,
    call: &str,
    argument: (&str, &[LogIdOf<C>]),
    answer: (&str, &[LogIdOf<C>]),
) -> bool {
    let (word, ids) = argument;
    let (said, wanted) = answer;
    if let Some(answer) = answer_of(list, call, ids) {
        return answer == (said == "true");
    }
    if let Some(read) = read(list, call, word) {
        return read == wanted.first().copied();
    }
    if let Some(keys) = keys(list, call) {
        return keys == wanted;
    }
    edit(list, call, word, ids) == Ok(true) && list.key_log_ids() == wanted
}

/// Whether the call of a row has the row's answer. Of words that are no keys, for which
/// `is_key_list` has to answer `false`, `log_of` makes an empty list.
fn call_is_right<C: Numbered + Drop>(alloc: Global, row: &str) -> Result<bool, AllocError> {
    let [call, keys, argument, answer, ..] = words(row);
    let ids = both_made(log_ids::<C>(alloc, argument), log_ids::<C>(alloc, answer));
    let (mut list, (ids, wanted)) = both_made(log_of::<C>(alloc, keys), ids)?;
    Ok(leads_to(&mut list, call, (argument, &ids), (answer, &wanted)))
}

/// Stops the test at the first row whose call has not the row's answer, and prints the row. A `;` is
/// between the rows.
pub fn assert_calls<C: Numbered + Drop>(rt: &impl Abort, alloc: Global, rows: &str) {
    for row in rows.split(';') {
        assert_row(rt, row, is_yes(call_is_right::<C>(alloc, row)));
    }
}
