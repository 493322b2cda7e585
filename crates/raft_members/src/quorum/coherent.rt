//! Quorum sets whose quorums must meet, and the steps from one to another.
ghost use Rattle.std.specs.Prelude.{◌≡◌, Bool, IfOk};

use std::alloc::{AllocError, Global};

/// Quorum sets that share a child.
///
/// If the children are configs, every quorum of one then shares a voter with every quorum of the
/// other (`laws::coherent_quorums_meet`), so a cluster may switch from one to the other.
pub trait Coherent<ID, Other> {
    /// Whether the two share a child. Children are compared by their `==`.
    ghost is_coherent: { Self → Other → Bool };

    /// Whether the two share a child.
    fn is_coherent_with(&self, other: &Other) -> bool
        ensures { result ≡ is_coherent self.now other.now };
}

/// Quorum sets from which another one can be reached by coherent steps.
pub trait FindCoherent<ID, Other>: Sized {
    /// The property that clones must have.
    ghost clones_are_equal: { Type 0 };

    /// Whether the result is the next quorum set on the way to the goal.
    ghost is_next: { Self → Other → Self → Type 0 };

    /// Returns the next quorum set on the way to the goal, or an allocation error.
    fn find_coherent(&self, alloc: Global, goal: Other) -> Result<Self, AllocError>
        requires { clones_are_equal }
        ensures { IfOk result (is_next self.now goal) };
}
