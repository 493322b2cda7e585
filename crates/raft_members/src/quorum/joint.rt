//! Several quorum sets as one.
ghost use Rattle.std.specs.Prelude.{◌≡◌, [], IfOk, IsOkAnd, IsTrue};
ghost use Rattle.std.specs.Set.{ClonesAreEqual};
ghost use Rattle.std.specs.Cmp.Lexicographic.{pointwise};

use super::quorum_set::QuorumSet;
use std::alloc::{AllocError, Global};
use std::marker::{Model, PhantomData};

/// Several quorum sets, its children, as one: a quorum is a quorum in every child.
///
/// While its voters are being replaced, a cluster decides by the old voters and by the new ones,
/// each by a majority. `D` is the type of the list of children, a vector or a slice. Without
/// children every set is a quorum, even the empty one. In contracts a joint is its list of
/// children.
#[derive(Debug, Clone, PartialEq, Eq, Drop)]
pub struct Joint<ID, QS, D> {
    children: D,
    _phantom: PhantomData<(ID, QS)>,
}

impl<ID, QS, D> Model for Joint<ID, QS, D> {
    ghost Value = { D };

    ghost view = { λ a. a.children };

    ghost inverse = { λ d. record { children = d; _phantom = record {} } };
}

impl<ID, QS, D> Joint<ID, QS, D> {
    /// Returns the joint of these children.
    pub fn new(children: D) -> Self
        ensures { result ≡ children }
    {
        Joint {
            children,
            _phantom: PhantomData,
        }
    }

    /// Returns the children, as they were given.
    pub fn children(&self) -> &D
        ensures { result.now ≡ self.now }
    {
        &self.children
    }
}

impl<ID, QS> Joint<ID, QS, Vec<QS>> {
    /// Returns the joint of these children.
    pub fn from(children: Vec<QS>) -> Self
        ensures { result ≡ children }
    {
        Joint::new(children)
    }

    /// Returns the joint without children. It replaces `Default`, which has no allocator. It never
    /// allocates, so the result is always `Ok`.
    pub fn try_default(alloc: Global) -> Result<Self, AllocError>
        ensures { IsOkAnd result (λ joint. joint.items ≡ []) }
    {
        Ok(Joint::new(Vec::new(alloc)))
    }
}

impl<ID, QS: Clone + Eq + Drop> Joint<ID, QS, Vec<QS>> {
    /// Returns an equal joint of clones of the children, or an allocation error.
    pub fn try_clone(&self) -> Result<Self, AllocError>
        requires clones_are_equal { ClonesAreEqual QS.eq QS.is_clone }
        ensures { IfOk result (λ joint. IsTrue (pointwise QS.eq self.now.items joint.items)) }
    {
        let children = self.children.clone()?;
        Ok(Joint::new(children))
    }
}

impl<'a, ID, QS> Joint<ID, QS, &'a [QS]> {
    /// Returns the joint of the same slice. It never allocates, so the result is always `Ok`.
    pub fn try_clone(&self) -> Result<Self, AllocError>
        ensures { IsOkAnd result (λ joint. joint ≡ self.now) }
    {
        Ok(Joint::new(self.children))
    }
}

/// Lists of quorum sets that can be used as their joint, without a copy.
pub trait AsJoint<'a, ID, QS, D> {
    /// Whether these children are the listed quorum sets.
    ghost lists: { Self → D → Type 0 };

    /// Returns the joint of the listed quorum sets.
    fn as_joint(&'a self) -> Joint<ID, QS, D>
        ensures { lists self.now result };
}

impl<'a, ID: Copy + Ord, QS: QuorumSet<ID>> AsJoint<'a, ID, QS, &'a [QS]> for Vec<QS> {
    ghost lists = { λ listed children. children.now ≡ listed.items };

    fn as_joint(&'a self) -> Joint<ID, QS, &'a [QS]> {
        Joint::new(self)
    }
}
