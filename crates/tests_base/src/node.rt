//! Node ids of a caller's own, and nodes with their defaults.
ghost use Rattle.std.specs.Prelude.{IfOk};

use crate::asserts::{assert_call, assert_row};
use raft_base::{BasicNode, LeaderId, Node, Vote};
use std::alloc::{AllocError, Global};
use std::fmt;
use tests_support::address::Address;
use tests_support::allocations::is_compared;
use tests_support::memory::are_equal;
use tests_support::printing::displays;

/// A node id of two numbers.
#[derive(Debug, Clone, Copy, Default, PartialEq, Eq, PartialOrd, Ord, Hash)]
struct Rack {
    row: u8,
    place: u8,
}

impl fmt::Display for Rack {
    fn fmt<W: fmt::Write>(&self, f: &mut fmt::Formatter<W>) -> fmt::Result {
        let Rack { row, place } = self;
        write!(f, "{row}/{place}")
    }
}

/// Whether leaders over racks compare, and a vote prints its rack.
fn racks_will_do(alloc: Global) -> bool {
    let [near, far] = [Rack { row: 1, place: 9 }, Rack { row: 2, place: 0 }];
    LeaderId::new(1, near) < LeaderId::new(1, far)
        && displays(alloc, &Vote::new(1, far), "T1-N2/0:uncommitted")
}

/// Returns the default of any kind of nodes.
fn any_default<N: Node>(alloc: Global) -> Result<N, AllocError>
    ensures { IfOk result N.is_default_node }
{
    N::default_node(alloc)
}

#[test]
fn ids_and_nodes_may_be_of_any_type(rt: HostRuntime) {
    let alloc = rt.alloc();
    assert_row(&rt, "racks", racks_will_do(alloc));
    let text = String::new(alloc);
    let is_default = are_equal(any_default(alloc), Ok(Address { text }));
    assert_row(&rt, "a default", is_default);
    let name = "comparison of nodes";
    let here = BasicNode::new(alloc, "here");
    let there = BasicNode::new(alloc, "there");
    assert_call(&rt, name, is_compared(&rt, alloc, name, here, there));
}
