//! Joints that share a child, and the steps from one joint to another.
ghost use Rattle.std.specs.Prelude.{◌≡◌, IfOk};
ghost use Rattle.std.specs.Set.{ClonesAreEqual};
ghost use Rattle.raft_members.specs.quorum.Coherence.{has_child, share_child, IsNext};

use super::coherent::{Coherent, FindCoherent};
use super::joint::Joint;
use super::quorum_set::QuorumSet;
use std::alloc::{AllocError, Global};

/// Two joints are coherent if some child of one equals some child of the other.
impl<ID: Copy + Ord, QS: QuorumSet<ID> + Eq> Coherent<ID, Joint<ID, QS, Vec<QS>>>
    for Joint<ID, QS, Vec<QS>> {
    ghost is_coherent = { λ a b. share_child QS.eq a.items b.items };

    fn is_coherent_with(&self, other: &Joint<ID, QS, Vec<QS>>) -> bool {
        share_child(self.children(), other.children())
    }
}

/// Two joints of slices are coherent if some child of one equals some child of the other.
impl<'a, 'b, ID: Copy + Ord, QS: QuorumSet<ID> + Eq> Coherent<ID, Joint<ID, QS, &'b [QS]>>
    for Joint<ID, QS, &'a [QS]> {
    ghost is_coherent = { λ a b. share_child QS.eq a.now b.now };

    fn is_coherent_with(&self, other: &Joint<ID, QS, &'b [QS]>) -> bool {
        share_child(self.children(), other.children())
    }
}

/// A joint is coherent with a quorum set that equals one of its children.
impl<ID: Copy + Ord, QS: QuorumSet<ID> + Eq> Coherent<ID, QS> for Joint<ID, QS, Vec<QS>> {
    ghost is_coherent = { λ a q. has_child QS.eq a.items q };

    fn is_coherent_with(&self, other: &QS) -> bool {
        has_child(self.children(), other)
    }
}

/// If the goal is a child, or there are no children, the goal alone is next. Otherwise the last
/// child and the goal are next. So the next joint shares a child with this one if this one has any,
/// it has the goal as a child, and after it the goal alone is next.
impl<ID: Copy + Ord, QS: QuorumSet<ID> + Clone + Eq> FindCoherent<ID, QS>
    for Joint<ID, QS, Vec<QS>> {
    ghost clones_are_equal = { ClonesAreEqual QS.eq QS.is_clone };

    ghost is_next = { λ a goal b. IsNext QS.eq a.items goal b.items };

    fn find_coherent(&self, alloc: Global, goal: QS) -> Result<Self, AllocError> {
        let children = next_children(alloc, self.children(), goal)?;
        Ok(Joint::from(children))
    }
}

/// Whether a child equals `goal`.
fn has_child<QS: Eq>(children: &[QS], goal: &QS) -> bool
    ensures { result ≡ has_child QS.eq children.now goal.now }
{
    children.iter().any(|child| child == goal)
}

/// Whether a child of one list equals a child of the other.
fn share_child<QS: Eq>(these: &[QS], others: &[QS]) -> bool
    ensures { result ≡ share_child QS.eq these.now others.now }
{
    these.iter().any(|child| has_child(others, child))
}

/// Returns the next children on the way to `goal`.
fn next_children<QS: Clone + Eq + Drop>(
    alloc: Global,
    children: &[QS],
    goal: QS,
) -> Result<Vec<QS>, AllocError>
    requires clones_are_equal { ClonesAreEqual QS.eq QS.is_clone }
    ensures { IfOk result (λ next. IsNext QS.eq children.now goal next.items) }
{
    let mut next = Vec::with_capacity(alloc, 2)?;
    if !has_child(children, &goal) {
        if let Some(last) = children.last() {
            next.push(last.clone()?)?;
        }
    }
    next.push(goal)?;
    Ok(next)
}
