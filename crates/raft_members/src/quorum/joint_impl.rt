//! A joint as a quorum set: a quorum is a quorum in every child.
ghost use Rattle.std.specs.Borrow.{Bor};
ghost use Rattle.std.specs.Fn.{AnyResult};
ghost use Rattle.std.specs.Prelude.{◌≡◌, ◌||◌, ℕ, IfOk, None, OnOk, length};
ghost use Rattle.std.specs.List.{IsDistinct, list_any, list_all};
ghost use Rattle.std.specs.List.Sorted.{IsStrictlySortedBy};
ghost use Rattle.std.specs.Option.{ForSome};
ghost use Rattle.std.specs.Set.{is_member};
ghost use Rattle.raft_members.specs.quorum.MajorityLawful.{list_all-weaker};
ghost use Rattle.raft_members.specs.quorum.QuorumSize.{QuorumsHaveAtLeast, SizeDecides, greatest_by};

use super::joint::Joint;
use super::quorum_set::QuorumSet;
use super::quorum_set_impl::sorted;
use std::alloc::{AllocError, Global};

/// A quorum is a quorum in every child. Without children every set is a quorum.
impl<ID: Copy + Ord, QS: QuorumSet<ID>> QuorumSet<ID> for Joint<ID, QS, Vec<QS>> {
    ghost has_quorum = { λ j s. list_all (λ c. QS.has_quorum c s) j.items };

    ghost is_voter = { λ j x. list_any (λ c. QS.is_voter c x) j.items };

    ghost superset = { λ j s t h.
        list_all-weaker (λ c. QS.has_quorum c s) (λ c. QS.has_quorum c t)
        (λ c. QS.superset c s t h) j.items };

    #[inline(always)]
    fn is_quorum(&self, ids: &[ID]) -> bool {
        is_quorum_of_each(self.children(), ids)
    }

    #[inline(always)]
    fn least_quorum_size(&self) -> usize {
        least_of_each(self.children(), |child| child.least_quorum_size())
    }

    #[inline(always)]
    fn deciding_size(&self) -> Option<usize>
        ensures none { (length self.now.items ≡ 1 → ⊥) → result ≡ None }
        ensures decides { ForSome result (SizeDecides ID.eq
            (λ s. list_all (λ c. QS.has_quorum c s) self.now.items)
            (λ x. list_any (λ c. QS.is_voter c x) self.now.items)) }
    {
        deciding_size_of_one(self.children())
    }

    fn ids(&self, alloc: Global) -> Result<Vec<ID>, AllocError> {
        ids_of_each(alloc, self.children())
    }
}

/// A quorum is a quorum in every child. Without children every set is a quorum.
impl<'a, ID: Copy + Ord, QS: QuorumSet<ID>> QuorumSet<ID> for Joint<ID, QS, &'a [QS]> {
    ghost has_quorum = { λ j s. list_all (λ c. QS.has_quorum c s) j.now };

    ghost is_voter = { λ j x. list_any (λ c. QS.is_voter c x) j.now };

    ghost superset = { λ j s t h.
        list_all-weaker (λ c. QS.has_quorum c s) (λ c. QS.has_quorum c t)
        (λ c. QS.superset c s t h) j.now };

    #[inline(always)]
    fn is_quorum(&self, ids: &[ID]) -> bool {
        is_quorum_of_each(self.children(), ids)
    }

    #[inline(always)]
    fn least_quorum_size(&self) -> usize {
        least_of_each(self.children(), |child| child.least_quorum_size())
    }

    #[inline(always)]
    fn deciding_size(&self) -> Option<usize>
        ensures none { (length self.now.now ≡ 1 → ⊥) → result ≡ None }
        ensures decides { ForSome result (SizeDecides ID.eq
            (λ s. list_all (λ c. QS.has_quorum c s) self.now.now)
            (λ x. list_any (λ c. QS.is_voter c x) self.now.now)) }
    {
        deciding_size_of_one(self.children())
    }

    fn ids(&self, alloc: Global) -> Result<Vec<ID>, AllocError> {
        ids_of_each(alloc, self.children())
    }
}

/// Whether the ids are a quorum of each child.
#[inline(always)]
fn is_quorum_of_each<ID: Copy + Ord, QS: QuorumSet<ID>>(children: &[QS], ids: &[ID]) -> bool
    ensures { IsDistinct ID.eq ids.now →
        result ≡ list_all (λ c. QS.has_quorum c (is_member ID.eq ids.now)) children.now }
{
    for child in children {
        if !child.is_quorum(ids) {
            return false;
        }
    }
    true
}

/// Returns the greatest result of the children, and 0 for no children. A quorum of all has at least
/// as many ids as a quorum of each child.
// The size is computed by a closure, so that a clause can say which number is returned. The
// contract of `least_quorum_size` of any quorum set states only a bound.
#[inline(always)]
pub(crate) fn least_of_each<ID: Copy + Ord, QS: QuorumSet<ID>, F: Fn(&QS) -> usize>(
    children: &[QS],
    size_of: F,
) -> usize
    requires { F.IsAlwaysCallable size_of }
    ensures exact { (size : QS → ℕ) →
        ((c : Bor QS) → AnyResult F.Fn size_of (c, tt) (λ n. n ≡ size c.now)) →
        result ≡ greatest_by size children.now }
    ensures least { ((c : Bor QS) → AnyResult F.Fn size_of (c, tt)
        (QuorumsHaveAtLeast ID.eq (QS.has_quorum c.now))) →
        QuorumsHaveAtLeast ID.eq (λ s. list_all (λ c. QS.has_quorum c s) children.now) result }
{
    // One or two children, as the configs of a membership, need no loop.
    if let [old, new] = children {
        return size_of(old).max(size_of(new));
    }
    if let [only] = children {
        return size_of(only);
    }
    let mut greatest = 0;
    for child in children {
        greatest = size_of(child).max(greatest);
    }
    greatest
}

/// Returns the size that decides for a single child, if there is one.
#[inline(always)]
fn deciding_size_of_one<ID: Copy + Ord, QS: QuorumSet<ID>>(children: &[QS]) -> Option<usize>
    ensures none { (length children.now ≡ 1 → ⊥) → result ≡ None }
    ensures decides { ForSome result (SizeDecides ID.eq
        (λ s. list_all (λ c. QS.has_quorum c s) children.now)
        (λ x. list_any (λ c. QS.is_voter c x) children.now)) }
{
    match children {
        [only] => only.deciding_size(),
        _ => None,
    }
}

/// Returns the voters of all children, each once, ascending.
pub(crate) fn ids_of_each<ID: Copy + Ord, QS: QuorumSet<ID>>(
    alloc: Global,
    children: &[QS],
) -> Result<Vec<ID>, AllocError>
    ensures ascending { IfOk result (λ ids. IsStrictlySortedBy ID.cmp ids.items) }
    ensures voters { IfOk result (λ ids. (x : ID) →
        is_member ID.eq ids.items x ≡ list_any (λ c. QS.is_voter c x) children.now) }
{
    // If there is one child, as the one config of most memberships, its voters are all.
    if let [only] = children {
        return only.ids(alloc);
    }
    let mut all: Vec<ID> = Vec::new(alloc);
    for child in children {
        append_ids(alloc, &mut all, child)?;
    }
    Ok(sorted(all))
}

/// Appends the voters of a child.
fn append_ids<ID: Copy + Ord, QS: QuorumSet<ID>>(
    alloc: Global,
    all: &mut Vec<ID>,
    child: &QS,
) -> Result<(), AllocError>
    ensures { OnOk result ((x : ID) → is_member ID.eq all.new.items x
        ≡ (is_member ID.eq all.old.items x || QS.is_voter child.now x)) }
{
    let mut ids = child.ids(alloc)?;
    all.append(&mut ids)?;
    Ok(())
}
