//! An id type whose order is that of whole numbers reversed, because voters and learners come in
//! the order of their ids.
ghost use Rattle.std.proofs.Common.{rules};
ghost use Rattle.std.specs.Cmp.Rules.{comparing};
ghost use Rattle.std.specs.Cmp.{partial_order_from_own_ties};
ghost use Rattle.std.specs.Ordering.{as_partial_cmp, flip_args, nat_cmp, on};

use crate::stat::FIRST_RUN;
use crate::support::asserts::assert_row;
use crate::support::progress_rows::reply_of;
use crate::support::steps::{made, updated};
use raft_base::EmptyNode;
use raft_members::Membership;
use raft_progress::progress::{Progress as _, Reply, VecProgress};
use std::alloc::{AllocError, Global};
use std::cmp::Ordering;
use std::collections::BTreeSet;
use std::fmt;
use std::test::Fail;
use tests_support::words::{number, words};

/// An id of which the greater number comes first.
#[derive(Debug, Clone, Copy, Default, PartialEq, Eq, Hash)]
struct Reversed {
    number: u64,
}

impl Ord for Reversed {
    ghost cmp = { flip_args (on (λ id. id.number) nat_cmp) };

    ghost total = { Prim.search (comparing, rules) };

    ghost matches_partial_cmp = { Prim.search (comparing, rules) };

    ghost matches_eq = { Prim.search (comparing, rules) };

    fn cmp(&self, other: &Reversed) -> Ordering {
        other.number.cmp(&self.number)
    }
}

impl PartialOrd for Reversed {
    ghost partial_cmp = { as_partial_cmp (flip_args (on (λ id. id.number) nat_cmp)) };

    ghost laws = { partial_order_from_own_ties
        (Prim.search (comparing, rules)) (Prim.search (comparing, rules)) };

    fn partial_cmp(&self, other: &Reversed) -> Option<Ordering> {
        Some(self.cmp(other))
    }
}

impl fmt::Display for Reversed {
    fn fmt<W: fmt::Write>(&self, f: &mut fmt::Formatter<W>) -> fmt::Result {
        write!(f, "{}", self.number)
    }
}

/// The ids of a word.
fn ids(alloc: Global, word: &str) -> Result<Vec<Reversed>, AllocError> {
    let mut ids = Vec::new(alloc);
    for id in word.split(',') {
        ids.push(Reversed { number: number(id) })?;
    }
    Ok(ids)
}

/// The membership of the voters 1 and 2, of which none has a node.
fn lacking(alloc: Global) -> Result<Membership<Reversed, EmptyNode>, AllocError> {
    let config: BTreeSet<Reversed> = ids(alloc, "1,2")?.into_iter().collect(alloc)?;
    Membership::new_unchecked(vec![in alloc; config]?, ())
}

/// Example progress 14. If the order of ids is reversed, voter 2 is the first that lacks its
/// node.
#[test]
fn the_first_voter_without_a_node_is_the_greatest_number(rt: HostRuntime) -> Result<(), Fail> {
    let lacking = lacking(rt.alloc())?;
    assert!(rt; lacking.ensure_voter_nodes() == Err(Reversed { number: 2 }));
    Ok(())
}

/// A progress over such ids.
type Progress = VecProgress<Reversed, u64, u64, Vec<Reversed>>;

/// Example progress 1. If the order of ids is reversed, granted is the same.
/// Example progress 14. If the order of ids is reversed, a new progress has 2 before 1.
#[test]
fn the_order_of_ids_grants_nothing(rt: HostRuntime) -> Result<(), Fail> {
    let alloc = rt.alloc();
    let new: Progress = made(&rt, alloc, ids(alloc, "1,2")?, &[], 0)?;
    let are_ids = new.iter().map(|entry| entry.0.number).eq([2, 1]);
    assert_row(&rt, "the ids", are_ids);
    let (voters, learners) = (ids(alloc, "0,1,2,3,4")?, [Reversed { number: 6 }]);
    let mut progress: Progress = made(&rt, alloc, voters, &learners, 0)?;
    for row in FIRST_RUN.split(';') {
        let [_, id, value, ..] = words(row);
        let id = Reversed { number: number(id) };
        let reply = match updated(&rt, &mut progress, id, number(value)) {
            Ok(granted) => Reply::Granted(granted),
            Err(granted) => Reply::Unknown(granted),
        };
        assert_row(&rt, row, reply == reply_of(row));
    }
    Ok(())
}
