//! Quorums of a stated size.
ghost use Rattle.std.specs.Prelude.{◌≡◌, ◌≤◌, Bool, IfOk, Some, length};
ghost use Rattle.std.specs.List.Sorted.{IsStrictlySortedBy};
ghost use Rattle.std.specs.Option.{ForSome};
ghost use Rattle.std.specs.Set.{distinct_count, is_member};
ghost use Rattle.std.proofs.lemmas.Map.Keys.{IsStrictlySortedBy-prop};
ghost use Rattle.raft_members.specs.quorum.Majority.{has_at_least};
ghost use Rattle.raft_members.specs.quorum.MajorityLawful.{has_at_least-superset};
ghost use Rattle.raft_members.specs.quorum.Meeting.{RespectsEquality};
ghost use Rattle.raft_members.specs.quorum.QuorumSize.{QuorumsHaveAtLeast, SizeDecides};

use super::quorum_set::QuorumSet;
use super::quorum_set_impl::{has_in_order, has_more_than, sorted_copies};
use std::alloc::{AllocError, Global};
use std::fmt;

/// Some ids, of which a quorum has at least a stated number.
///
/// Two quorums share one of the ids if twice that number is more than there are ids
/// (`laws::at_least_quorums_meet`). Otherwise they need not share any: {0, 1} and {2, 3} are both
/// quorums of 2 of 0 to 4.
#[derive(Debug, PartialEq, Eq, Drop)]
pub struct AtLeast<ID: Copy + Ord> {
    ids: Vec<ID>,
    need: usize,
    ghost needs_one: { 1 ≤ need },
    ghost ascending: { IsStrictlySortedBy ID.cmp ids.items } by { IsStrictlySortedBy-prop ID.cmp
        ids.items },
}

impl<ID: Copy + Ord> AtLeast<ID> {
    ghost use Rattle.raft_members.specs.quorum.AtLeast.{ids_of, need_of, IsAlike};

    /// Returns the quorum set in which a quorum has at least `need` of these ids, or an allocation
    /// error. A repeated id counts once, and `need` is at least 1. If there are fewer ids than
    /// `need`, there is no quorum.
    pub fn new(alloc: Global, ids: &[ID], need: usize) -> Result<Self, AllocError>
        requires { 1 ≤ need }
        ensures ascending { IfOk result (λ made. IsStrictlySortedBy ID.cmp (ids_of made)) }
        ensures members { IfOk result (λ made. (x : ID) →
            is_member ID.eq (ids_of made) x ≡ is_member ID.eq ids.now x) }
        ensures need { IfOk result (λ made. need_of made ≡ need) }
        ensures count { IfOk result (λ made.
            length (ids_of made) ≡ distinct_count ID.eq ids.now) }
        ensures quorums { IfOk result (λ made. (set : ID → Bool) → RespectsEquality ID.eq set →
            has_at_least ID.eq (ids_of made) (need_of made) set
            ≡ has_at_least ID.eq ids.now need set) }
    {
        Ok(AtLeast {
            ids: sorted_copies(alloc, ids)?,
            need,
        })
    }

    /// Returns the number of its ids that a quorum must have.
    pub fn need(&self) -> usize
        ensures { result ≡ need_of self.now }
    {
        self.need
    }

    /// Returns a quorum set of the same ids and the same number, or an allocation error.
    pub fn try_clone(&self) -> Result<Self, AllocError>
        ensures { IfOk result (IsAlike self.now) }
    {
        Ok(AtLeast {
            ids: Vec::from_slice(*self.ids.allocator(), &self.ids)?,
            need: self.need,
        })
    }
}

/// A quorum has at least the stated number of the ids.
impl<ID: Copy + Ord> QuorumSet<ID> for AtLeast<ID> {
    ghost use Rattle.raft_members.specs.quorum.AtLeast.{ids_of, need_of};

    ghost has_quorum = { λ q s. has_at_least ID.eq (ids_of q) (need_of q) s };

    ghost is_voter = { λ q. is_member ID.eq (ids_of q) };

    ghost superset = { λ q. has_at_least-superset ID.eq (ids_of q) (need_of q) };

    #[inline(always)]
    fn is_quorum(&self, ids: &[ID]) -> bool {
        let voters: &[ID] = &self.ids;
        has_more_than(ids, self.need - 1, |id| has_in_order(voters, id))
    }

    fn least_quorum_size(&self) -> usize
        ensures exact { result ≡ need_of self.now }
        ensures least { QuorumsHaveAtLeast ID.eq
            (has_at_least ID.eq (ids_of self.now) (need_of self.now)) result }
    {
        self.need
    }

    fn deciding_size(&self) -> Option<usize>
        ensures exact { result ≡ Some (need_of self.now) }
        ensures decides { ForSome result (SizeDecides ID.eq
            (has_at_least ID.eq (ids_of self.now) (need_of self.now))
            (is_member ID.eq (ids_of self.now))) }
    {
        Some(self.need)
    }

    fn ids(&self, alloc: Global) -> Result<Vec<ID>, AllocError> {
        Vec::from_slice(alloc, &self.ids)
    }
}

impl<ID: Copy + Ord> Clone for AtLeast<ID> {
    ghost use Rattle.raft_members.specs.quorum.AtLeast.{IsAlike};

    ghost is_clone = { IsAlike };

    fn clone(&self) -> Result<Self, AllocError> {
        self.try_clone()
    }
}

/// The text is such as `2 of {0,1,2,3,4}`.
impl<ID: Copy + Ord + fmt::Display> fmt::Display for AtLeast<ID> {
    fn fmt<W: fmt::Write>(&self, f: &mut fmt::Formatter<W>) -> fmt::Result {
        write!(f, "{} of {{", self.need)?;
        for (at, id) in self.ids.iter().enumerate() {
            if at > 0 {
                f.write_str(",")?;
            }
            write!(f, "{id}")?;
        }
        f.write_str("}")
    }
}
