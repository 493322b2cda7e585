//! Rows of tests as lines of words, and what their words mean.
//!
//! A row is a line of words between spaces. A word is a name, a number or one of these values:
//!
//! | value | its word | example |
//! |---|---|---|
//! | ids | numbers, joined by `,` | `1,2` |
//! | nodes | `id=node`, joined by `,` | `1=10,2=20` |
//! | configs | ids, joined by `/` | `1,2/2,3` |
//! | a log id | `TERM.INDEX` or `TERM.NODE.INDEX` | `2.9` or `2.1.9` |
//! | log ids | each of them, joined by `,` | `1.1,2.3` |
//!
//! An empty list and an absent log id are `-`. No configs are `none`.

use crate::plain_log::Numbered;
use raft_base::LogIdOf;
use raft_members::Membership;
use std::alloc::{AllocError, Global};
use std::collections::{BTreeMap, BTreeSet};
use std::str::SplitWhitespace;

/// Returns the next word, and an empty one after the last.
fn next<'a>(rest: &mut SplitWhitespace<'a>) -> &'a str {
    rest.next().unwrap_or("")
}

/// Returns the first nine words of a row. The words after the last one are empty.
pub fn words(row: &str) -> [&str; 9] {
    let rest = &mut row.split_whitespace();
    [
        next(rest),
        next(rest),
        next(rest),
        next(rest),
        next(rest),
        next(rest),
        next(rest),
        next(rest),
        next(rest),
    ]
}

/// Returns the number of a word.
pub fn number(word: &str) -> u64 {
    word.parse::<u64>().unwrap_or(0)
}

/// Returns the ids of a word, in their order in the word.
pub fn list(alloc: Global, word: &str) -> Result<Vec<u64>, AllocError> {
    let mut list = Vec::new(alloc);
    if word != "-" {
        for id in word.split(',') {
            list.push(number(id))?;
        }
    }
    Ok(list)
}

/// Returns the set of the ids of a word.
pub fn ids(alloc: Global, word: &str) -> Result<BTreeSet<u64>, AllocError> {
    let mut ids = BTreeSet::new(alloc);
    if word != "-" {
        for id in word.split(',') {
            ids.insert(number(id))?;
        }
    }
    Ok(ids)
}

/// Returns the nodes of a word.
pub fn nodes(alloc: Global, word: &str) -> Result<BTreeMap<u64, u64>, AllocError> {
    let mut nodes = BTreeMap::new(alloc);
    for entry in word.split(',') {
        if let Some((id, node)) = entry.split_once('=') {
            nodes.insert(number(id), number(node))?;
        }
    }
    Ok(nodes)
}

/// Returns the configs of a word.
pub fn configs(alloc: Global, word: &str) -> Result<Vec<BTreeSet<u64>>, AllocError> {
    let mut configs = Vec::new(alloc);
    if word != "none" {
        for config in word.split('/') {
            configs.push(ids(alloc, config)?)?;
        }
    }
    Ok(configs)
}

/// Returns the configs of a word, each as a list in its order in the word.
pub fn lists(alloc: Global, word: &str) -> Result<Vec<Vec<u64>>, AllocError> {
    let mut lists = Vec::new(alloc);
    if word != "none" {
        for config in word.split('/') {
            lists.push(list(alloc, config)?)?;
        }
    }
    Ok(lists)
}

/// Returns the membership of the word of its configs and the word of its nodes.
pub fn members(
    alloc: Global,
    config_word: &str,
    node_word: &str,
) -> Result<Membership<u64, u64>, AllocError> {
    let configs = configs(alloc, config_word)?;
    Membership::new_unchecked(configs, nodes(alloc, node_word)?)
}

/// Returns the log id of a word. Without a node in the word it is the one of node 0.
pub fn log_id<C: Numbered>(word: &str) -> Option<LogIdOf<C>> {
    let (term, rest) = word.split_once('.')?;
    let (node, index) = rest.split_once('.').unwrap_or(("0", rest));
    Some(LogIdOf::new(C::of_node(number(term), number(node)), number(index)))
}

/// Returns the log ids of a word.
pub fn log_ids<C: Numbered>(alloc: Global, word: &str) -> Result<Vec<LogIdOf<C>>, AllocError> {
    let mut ids = Vec::new(alloc);
    for id in word.split(',') {
        if let Some(id) = log_id(id) {
            ids.push(id)?;
        }
    }
    Ok(ids)
}
