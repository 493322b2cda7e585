//! Clones of a progress.

use super::VecProgress;
use crate::progress::entries::{clone_entries, copy_ids};
use std::alloc::AllocError;

impl<ID: Copy + Ord, V: Clone, P: Copy + Ord, QS: Drop> VecProgress<ID, V, P, QS> {
    ghost use Rattle.std.specs.Prelude.{◌≡◌, IfOk};
    ghost use Rattle.raft_progress.specs.progress.Equal.{IsCloned};
    ghost use Rattle.raft_progress.specs.progress.VecProgress.{view};

    /// Returns a clone of the values with a quorum set, and with the scratch space that `new`
    /// allocates.
    pub(crate) fn clone_over(&self, quorum_set: QS) -> Result<Self, AllocError>
        ensures cloned { IfOk result (λ made.
            IsCloned V.is_clone (λ old new. new ≡ quorum_set) (view self.now) (view made)) }
    {
        let alloc = *self.entries.allocator();
        Ok(VecProgress {
            quorum_set,
            granted: self.granted,
            default_part: self.default_part,
            voter_count: self.voter_count,
            entries: clone_entries(alloc, &self.entries)?,
            positions: self.positions.try_clone()?,
            scratch: copy_ids(alloc, &self.scratch)?,
            stat: self.stat.clone()?,
        })
    }
}

/// A clone has the scratch space that `new` allocates.
impl<ID: Copy + Ord, V: Clone, P: Copy + Ord, QS: Clone> Clone for VecProgress<ID, V, P, QS> {
    ghost use Rattle.raft_progress.specs.progress.Equal.{IsCloned};
    ghost use Rattle.raft_progress.specs.progress.VecProgress.{view};

    ghost is_clone = { λ old new. IsCloned V.is_clone QS.is_clone (view old) (view new) };

    fn clone(&self) -> Result<Self, AllocError> {
        let quorum_set = self.quorum_set.clone()?;
        self.clone_over(quorum_set)
    }
}

impl<ID: Copy + Ord, V: Clone + PartialEq, P: Copy + Ord, QS: Clone + PartialEq> VecProgress<
    ID,
    V,
    P,
    QS,
> {
    ghost use Rattle.std.specs.Prelude.{IfOk, IsTrue};
    ghost use Rattle.std.specs.Set.{ClonesAreEqual};
    ghost use Rattle.raft_progress.specs.progress.Equal.{IsCloned, equal};
    ghost use Rattle.raft_progress.specs.progress.VecProgress.{view};

    /// Returns an equal progress, or an allocation error. It requires that clones of values and of
    /// quorum sets equal their sources.
    pub fn try_clone(&self) -> Result<Self, AllocError>
        requires values { ClonesAreEqual V.eq V.is_clone }
        requires quorum_sets { ClonesAreEqual QS.eq QS.is_clone }
        ensures equal { IfOk result (λ made.
            IsTrue (equal ID.eq V.eq P.eq QS.eq (view self.now) (view made))) }
        ensures cloned { IfOk result (λ made.
            IsCloned V.is_clone QS.is_clone (view self.now) (view made)) }
    {
        self.clone()
    }
}
