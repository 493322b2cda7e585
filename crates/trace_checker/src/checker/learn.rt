//! Memberships that become known while a cluster runs.
ghost use Rattle.std.specs.Prelude.{◌≡◌, ◌++◌, ◌∷◌, [], List, OnErr, OnOk};
ghost use Rattle.std.specs.Global.{Vec};
ghost use Rattle.trace_checker.specs.Checker.{IsUnused, KeepsAlso, Learns, OfAll, configs_of, counting_of, kept_by, tests_when};
ghost use Rattle.trace_checker.specs.declared.checker.learn.LearnError.TheVariants.{OutOfMemory};

use super::Checker;
use super::configs::Configs;
use crate::memberships::Memberships;
use crate::term::Term;
use std::alloc::{AllocError, AllocFailed};
use thiserror::Error;

/// Why a membership does not become known.
#[derive(Debug, Clone, Copy, PartialEq, Eq, Error)]
pub enum LearnError {
    /// A membership of the content is known already.
    #[error("a membership of this content is known already")]
    Known,
    /// An entry of the content was recorded before, as one that holds no membership.
    #[error("an entry of this content was recorded before")]
    Recorded,
    /// Out of memory.
    #[error("out of memory")]
    OutOfMemory,
}

impl From<AllocError> for LearnError {
    ghost from_gives = { λ _ e. e ≡ OutOfMemory };

    fn from(_error: AllocError) -> LearnError {
        LearnError::OutOfMemory
    }
}

impl<T: Term, N: Copy + Ord, D: Copy + Ord> Checker<T, N, D, Memberships<N, D>> {
    /// Learns which membership the entries of a content hold. An engine calls this before it
    /// records the first event that has such an entry.
    ///
    /// No earlier event has an entry of the content, so each of them is allowed by the new
    /// memberships too. If all later events are allowed, the whole trace is an execution of the
    /// memberships that are known in the end.
    ///
    /// # Errors
    ///
    /// A membership of the content is known already, an entry of the content was recorded before,
    /// or out of memory. The checker then knows the memberships that it knew.
    pub fn learn(&mut self, content: D, configs: Vec<Vec<N>>) -> Result<(), LearnError>
        ensures answer { Learns (tests_when (counting_of self.old) T.Term N.PartialEq D.PartialEq
            ⟦<Memberships<N, D> as Configs<N, D>>⟧ (configs_of self.old)) content
            (kept_by self.old) result }
        ensures keeps { KeepsAlso (tests_when (counting_of self.old) T.Term N.PartialEq D.PartialEq
            ⟦<Memberships<N, D> as Configs<N, D>>⟧ (configs_of self.old)) (tests_when (counting_of self.new) T.Term
            N.PartialEq D.PartialEq ⟦<Memberships<N, D> as Configs<N, D>>⟧ (configs_of self.new))
            (kept_by self.old) (kept_by self.new) }
        ensures learned { OnOk result ((configs_of self.new).held.items
            ≡ (configs_of self.old).held.items ++ (content, configs) ∷ []) }
        ensures initial { (configs_of self.new).initial ≡ (configs_of self.old).initial }
        ensures counting { counting_of self.new ≡ counting_of self.old }
        ensures err { OnErr result
            ((configs_of self.new).held.items ≡ (configs_of self.old).held.items) }
    {
        if self.configs.holds_config(content) {
            return Err(LearnError::Known);
        }
        if self.logs.has_content(content) {
            return Err(LearnError::Recorded);
        }
        self.configs.hold(content, configs)?;
        Ok(())
    }

    /// Forgets the membership that was learned last, unless an entry of its content was recorded.
    /// An engine calls this if the event for which it learned the membership is refused.
    pub fn forget(&mut self)
        ensures keeps { KeepsAlso (tests_when (counting_of self.old) T.Term N.PartialEq D.PartialEq
            ⟦<Memberships<N, D> as Configs<N, D>>⟧ (configs_of self.old)) (tests_when (counting_of self.new) T.Term
            N.PartialEq D.PartialEq ⟦<Memberships<N, D> as Configs<N, D>>⟧ (configs_of self.new))
            (kept_by self.old) (kept_by self.new) }
        ensures forgotten { (before : List (D × Vec (Vec N))) → (m : D × Vec (Vec N)) →
            (configs_of self.old).held.items ≡ before ++ m ∷ [] → OfAll (tests_when
            (counting_of self.old) T.Term N.PartialEq D.PartialEq
            ⟦<Memberships<N, D> as Configs<N, D>>⟧ (configs_of self.old))
            (kept_by self.old) (λ es. IsUnused D.eq m.0 es →
            (configs_of self.new).held.items ≡ before) }
        ensures initial { (configs_of self.new).initial ≡ (configs_of self.old).initial }
        ensures counting { counting_of self.new ≡ counting_of self.old }
    {
        let Some(content) = self.configs.last_content() else {
            return;
        };
        if self.logs.has_content(content) {
            return;
        }
        self.configs.remove_last();
    }
}
