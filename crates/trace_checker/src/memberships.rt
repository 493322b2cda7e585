//! Memberships of the layer as configs of the checker.
ghost use Rattle.std.specs.Prelude.{◌≡◌, ◌||◌, ◌++◌, ◌∷◌, [], List, OnErr, OnOk, map, true};
ghost use Rattle.std.specs.Global.{Vec};
ghost use Rattle.std.specs.List.{IsDistinct, list_any, list_all};
ghost use Rattle.std.specs.Set.{is_member};
ghost use Rattle.raft_members.specs.quorum.Coherence.{share_child};
ghost use Rattle.raft_members.specs.quorum.Majority.{is_majority};
ghost use Rattle.trace_checker.specs.Checker.{tests_of};
ghost use Rattle.safety_laws.specs.Trace.{AreExact};
ghost use Rattle.trace_checker.specs.Memberships.{EndsWith, configs_of, majorities_meet, meets_some, some_meet};

use crate::checker::Configs;
use crate::held::Held;
use crate::term::Term;
use raft_members::quorum::{Coherent, Joint, QuorumSet};
use std::alloc::AllocError;

/// Memberships, each a list of configs, and a config is a list of voters.
#[derive(Debug, Drop)]
pub struct Memberships<N, D: Ord> {
    /// The initial membership.
    pub initial: Vec<Vec<N>>,
    /// The memberships that entries hold, each with the content of its entry.
    pub held: Held<N, D>,
}

/// A quorum is a majority of each config. Two memberships are known to have intersecting quorums if
/// they share a config, or if any majorities of a config of one and of a config of the other share
/// a server. So a membership may change to one whose config has one server more or less.
impl<N: Copy + Ord, D: Copy + Ord> Configs<N, D> for Memberships<N, D> {
    ghost holds_config = { λ m d. list_any (λ p. D.eq p.0 d) m.held.items };

    ghost has_quorum = { λ m c s. list_all (λ q. is_majority N.eq q.items s) (configs_of D.eq
        m.initial.items (map (λ p. (p.0, p.1.items)) m.held.items) c) };

    ghost intersects = { λ m a b.
        let these = configs_of D.eq m.initial.items (map (λ p. (p.0, p.1.items)) m.held.items) a in
        let others = configs_of D.eq m.initial.items (map (λ p. (p.0, p.1.items)) m.held.items) b in
        share_child ⟦<Vec<N> as PartialEq>⟧.eq these others
        || some_meet N.eq (λ q. q.items) these others };

    fn holds_config(&self, content: D) -> bool {
        self.held.get(content).is_some()
    }

    fn is_quorum(&self, config: Option<D>, servers: &[N]) -> bool
        ensures { IsDistinct N.eq servers.now → result ≡ list_all
            (λ q. is_majority N.eq q.items (is_member N.eq servers.now))
            (configs_of D.eq self.now.initial.items
            (map (λ p. (p.0, p.1.items)) self.now.held.items) config) }
    {
        Joint::new(self.configs_of(config)).is_quorum(servers)
    }

    fn do_intersect(&self, config: Option<D>, other: Option<D>) -> bool
        ensures { let held = map (λ p. (p.0, p.1.items)) self.now.held.items in
            let these = configs_of D.eq self.now.initial.items held config in
            let others = configs_of D.eq self.now.initial.items held other in
            result ≡ (share_child ⟦<Vec<N> as PartialEq>⟧.eq these others
            || some_meet N.eq (λ q. q.items) these others) }
    {
        let these = self.configs_of(config);
        let others = self.configs_of(other);
        Joint::new(these).is_coherent_with(&Joint::new(others)) || some_meet(these, others)
    }
}

impl<N: Copy + Ord, D: Copy + Ord> Memberships<N, D> {
    /// Adds the membership that entries of a content hold.
    ///
    /// # Errors
    ///
    /// Out of memory. The memberships are then as they were.
    pub fn hold(&mut self, content: D, configs: Vec<Vec<N>>) -> Result<(), AllocError>
        ensures held { OnOk result (self.new.held.items
            ≡ self.old.held.items ++ (content, configs) ∷ []) }
        ensures initial { self.new.initial ≡ self.old.initial }
        ensures err { OnErr result (self.new.held.items ≡ self.old.held.items) }
    {
        self.held.push(content, configs)
    }

    /// Returns the content of the membership that was added last.
    pub fn last_content(&self) -> Option<D>
        ensures { EndsWith self.now.held.items result }
    {
        self.held.last_content()
    }

    /// Removes the membership that was added last, if there is one.
    pub fn remove_last(&mut self)
        ensures held { (before : List (D × Vec (Vec N))) → (m : D × Vec (Vec N)) →
            self.old.held.items ≡ before ++ m ∷ [] → self.new.held.items ≡ before }
        ensures none { self.old.held.items ≡ [] → self.new.held.items ≡ [] }
        ensures initial { self.new.initial ≡ self.old.initial }
    {
        self.held.pop();
    }

    /// Returns the configs of a membership, none if no entry of the content holds one.
    fn configs_of(&self, config: Option<D>) -> &[Vec<N>]
        ensures { result.now ≡ configs_of D.eq self.now.initial.items
            (map (λ p. (p.0, p.1.items)) self.now.held.items) config }
    {
        let Some(content) = config else {
            return &self.initial;
        };
        match self.held.get(content) {
            Some(configs) => configs,
            None => &self.initial[..0],
        }
    }
}

/// Whether majorities of one of these configs and of one of the others are known to share a server.
fn some_meet<N: Copy + Ord>(these: &[Vec<N>], others: &[Vec<N>]) -> bool
    ensures { result ≡ some_meet N.eq (λ q. q.items) these.now others.now }
{
    for config in these {
        if meets_some(config, others) {
            return true;
        }
    }
    false
}

/// Whether majorities of a config and of one of these configs are known to share a server.
fn meets_some<N: Copy + Ord>(config: &[N], others: &[Vec<N>]) -> bool
    ensures { result ≡ meets_some N.eq (λ q. q.items) config.now others.now }
{
    for other in others {
        if do_majorities_meet(config, other) {
            return true;
        }
    }
    false
}

/// Whether majorities of two configs are known to share a server.
fn do_majorities_meet<N: Copy + Ord>(config: &[N], other: &[N]) -> bool
    ensures { result ≡ majorities_meet N.eq config.now other.now }
{
    let mut added: usize = 0;
    for id in other {
        if !config.contains(id) {
            added += 1;
        }
    }
    let servers = config.len() as u128 + added as u128;
    servers < config.len() as u128 / 2 + other.len() as u128 / 2 + 2
}

/// The premise of the contract of a checker, for memberships of the layer: if terms, ids and
/// contents that are `==` are equal, the tests by which a checker compares them are exact, and
/// quorums intersect where `do_intersect` says so.
pub fn memberships_are_exact<T: Term, N: Copy + Ord, D: Copy + Ord>(memberships: &Memberships<N, D>)
    ensures { ((x y : T) → T.eq x y ≡ true → x ≡ y) → ((x y : N) → N.eq x y ≡ true → x ≡ y)
        → ((x y : D) → D.eq x y ≡ true → x ≡ y) → AreExact (tests_of T.Term
        N.PartialEq D.PartialEq ⟦<Memberships<N, D> as Configs<N, D>>⟧ memberships.now) }
{}
