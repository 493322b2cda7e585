//! Quorum sets.
ghost use Rattle.std.specs.Prelude.{◌≡◌, Bool, true, IfOk};
ghost use Rattle.std.specs.List.{IsDistinct};
ghost use Rattle.std.specs.Option.{ForSome};
ghost use Rattle.std.specs.Set.{is_member};
ghost use Rattle.std.specs.List.Sorted.{IsStrictlySortedBy};
ghost use Rattle.raft_members.specs.quorum.QuorumSize.{QuorumsHaveAtLeast, SizeDecides};

use std::alloc::{AllocError, Global};

/// A finite set of voters, and which sets of ids are its quorums.
///
/// The only law is that a set that contains a quorum is a quorum: a further id never reverses a
/// decision. In contracts a set of ids is a test, `ID → Bool`, so neither an order of ids nor
/// repeated ids can matter.
///
/// To write your own quorum set, write the two functions `is_quorum` and `ids`, state what they
/// compute as `has_quorum` and `is_voter`, and prove `superset`. The other two functions,
/// `least_quorum_size` and `deciding_size`, have default bodies.
pub trait QuorumSet<ID: Copy + Ord>: Drop {
    /// Whether a set of ids is a quorum.
    ghost has_quorum: { Self → (ID → Bool) → Bool };

    /// Whether an id is one of the voters.
    ghost is_voter: { Self → ID → Bool };

    /// Whether the ids are a quorum.
    ///
    /// The contract speaks of distinct ids. A repeated id is counted each time, as in the original.
    /// Nothing is allocated.
    fn is_quorum(&self, ids: &[ID]) -> bool
        ensures quorum { IsDistinct ID.eq ids.now →
            result ≡ has_quorum self.now (is_member ID.eq ids.now) };

    /// Returns a number of ids that each quorum has at least. The default body returns 0.
    ///
    /// A caller that has fewer ids need not call `is_quorum`, so a greater number saves quorum
    /// tests. The contract of a list or a set of voters, of an `AtLeast` and of an
    /// `EffectiveMembership` says which number is returned. A joint returns the greatest one of its
    /// children. Nothing is allocated.
    fn least_quorum_size(&self) -> usize
        ensures least { QuorumsHaveAtLeast ID.eq (has_quorum self.now) result }
    {
        0
    }

    /// Returns the size that decides, if there is one: distinct voters are a quorum exactly if
    /// there are at least that many of them. The default body returns `None`.
    ///
    /// A caller that knows the size and counts voters need not call `is_quorum`. A list or a set of
    /// voters and an `AtLeast` have such a size, and their contracts say which. A joint of one of
    /// them has the size of its child. A joint of two has none. Nothing is allocated.
    fn deciding_size(&self) -> Option<usize>
        ensures decides { ForSome result
            (SizeDecides ID.eq (has_quorum self.now) (is_voter self.now)) }
    {
        None
    }

    /// Returns the voters, each once, ascending, or an allocation error.
    fn ids(&self, alloc: Global) -> Result<Vec<ID>, AllocError>
        ensures ascending { IfOk result (λ ids. IsStrictlySortedBy ID.cmp ids.items) }
        ensures voters { IfOk result (λ ids.
            (x : ID) → is_member ID.eq ids.items x ≡ is_voter self.now x) };

    /// A superset of a quorum is a quorum.
    ghost superset: { (c : Self) (s t : ID → Bool) → ((x : ID) → s x ≡ true → t x ≡ true) →
        has_quorum c s ≡ true → has_quorum c t ≡ true };
}
