//! What identifies a node, and what is known of it.
ghost use Rattle.std.specs.Prelude.{◌≡◌, [], true, IfOk, IsOkAnd, refl, string_bytes};

use std::alloc::{AllocError, Global};
use std::fmt;
use std::fmt::{Debug, Display};
use std::hash::Hash;

/// What a node id needs.
pub trait NodeIdEssential: Eq + Ord + Debug + Display + Hash + Copy + Default + 'static {}

impl<T: Eq + Ord + Debug + Display + Hash + Copy + Default + 'static> NodeIdEssential for T {}

/// The id of a node: unique in its cluster. Every fitting type is one.
pub trait NodeId: NodeIdEssential {}

impl<T: NodeIdEssential> NodeId for T {}

/// A type of nodes that has a default node.
///
/// It replaces `Default`, because a node that holds a text needs an allocator.
pub trait NodeDefault: Eq {
    /// Whether a node is the type's default one.
    ghost is_default_node: { Self → Type 0 };

    /// Returns the type's default node, or an allocation error.
    fn default_node(alloc: Global) -> Result<Self, AllocError>
        ensures { IfOk result is_default_node };

    /// There is one default node: any two are equal.
    ghost one_default: { (a b : Self) → is_default_node a → is_default_node b
        → Self.eq a b ≡ true };
}

/// What a node needs.
pub trait NodeEssential: Eq + Debug + Clone + NodeDefault + Drop + 'static {}

impl<T: Eq + Debug + Clone + NodeDefault + Drop + 'static> NodeEssential for T {}

/// What a cluster knows of a node beside its id, as its address. Every fitting type is one.
pub trait Node: NodeEssential {}

impl<T: NodeEssential> Node for T {}

impl NodeDefault for () {
    ghost is_default_node = { λ n. n ≡ tt };

    fn default_node(_alloc: Global) -> Result<(), AllocError>
        ensures { result ≡ Ok tt }
    {
        Ok(())
    }

    ghost one_default = { λ a b h k. refl };
}

impl NodeDefault for u64 {
    ghost is_default_node = { λ n. n ≡ 0 };

    fn default_node(_alloc: Global) -> Result<u64, AllocError>
        ensures { result ≡ Ok 0 }
    {
        Ok(0)
    }

    ghost one_default = { λ a b h k. rw (h, k) refl };
}

/// A node of which nothing is known but its id.
///
/// It is not `Copy`. A map of such nodes is made from ids:
/// `(1..=3).map(|id| (id, EmptyNode::new())).collect(alloc)?`.
#[derive(Debug, Clone, Default, PartialEq, Eq, Drop)]
pub struct EmptyNode {}

impl EmptyNode {
    /// Returns the empty node.
    pub fn new() -> Self
        ensures { result ≡ record {} }
    {
        EmptyNode {}
    }
}

impl NodeDefault for EmptyNode {
    ghost is_default_node = { λ n. n ≡ record {} };

    fn default_node(_alloc: Global) -> Result<EmptyNode, AllocError>
        ensures { result ≡ Ok (record {}) }
    {
        Ok(EmptyNode::new())
    }

    ghost one_default = { λ a b h k. refl };
}

impl Display for EmptyNode {
    fn fmt<W: fmt::Write>(&self, f: &mut fmt::Formatter<W>) -> fmt::Result {
        f.write_str("{}")
    }
}

/// A node with a known address.
#[derive(Debug, Clone, PartialEq, Eq, Drop)]
pub struct BasicNode {
    /// The address of the node, as the network writes it.
    pub addr: String,
}

impl BasicNode {
    /// Returns the node at an address, or an allocation error.
    pub fn new(alloc: Global, addr: &str) -> Result<Self, AllocError>
        ensures { IfOk result (λ node. string_bytes node.addr ≡ addr.now) }
    {
        let addr = addr.to_string(alloc)?;
        Ok(BasicNode { addr })
    }
}

/// The default node has the empty address. Making it does not allocate.
impl NodeDefault for BasicNode {
    ghost is_default_node = { λ node. string_bytes node.addr ≡ [] };

    fn default_node(alloc: Global) -> Result<BasicNode, AllocError>
        ensures { IsOkAnd result (λ node. string_bytes node.addr ≡ []) }
    {
        Ok(BasicNode {
            addr: String::new(alloc),
        })
    }

    ghost one_default = { λ a b h k. rw (h, k) refl };
}

impl Display for BasicNode {
    fn fmt<W: fmt::Write>(&self, f: &mut fmt::Formatter<W>) -> fmt::Result {
        f.write_str(&self.addr)
    }
}
