//! What a node has accepted of a leader's log.
ghost use Rattle.std.specs.Prelude.{◌≡◌};
ghost use Rattle.std.specs.Option.{option_copied};

use raft_base::order::log_id_at_most;
use raft_base::{LeaderAdv, LeaderKind, LogIdOf};
use std::fmt;

/// The last log id that a node has accepted, and the leader that sent it.
///
/// A log id that was accepted from one leader says nothing about another leader's log, because a
/// later leader may have to truncate it. So the log id counts only for its leader.
#[derive(Clone, Default, PartialEq, Eq, Drop)]
pub struct AcceptedIn<L, C> {
    pub(crate) leader_id: L,
    pub(crate) log_id: Option<LogIdOf<C>>,
}

/// What a node has accepted, for a kind of leader ids.
pub type AcceptedOf<NID, K> = AcceptedIn<
    <K as LeaderKind<NID>>::Leader,
    <K as LeaderKind<NID>>::Committed,
>;

/// What a node has accepted, with the default leader ids.
pub type Accepted<NID> = AcceptedOf<NID, LeaderAdv>;

impl<L: Eq + Copy, C: Copy> AcceptedIn<L, C> {
    ghost use Rattle.raft_state.specs.Accepted.{accepted_from, leader_of, accepted_id};

    /// Returns what is accepted if this is the last log id that was accepted from a leader.
    pub fn new(leader_id: L, log_id: Option<LogIdOf<C>>) -> Self
        ensures { result ≡ accepted_from leader_id log_id }
    {
        AcceptedIn { leader_id, log_id }
    }

    /// Returns the leader.
    pub fn leader_id(&self) -> &L
        ensures { result.now ≡ leader_of self.now }
    {
        &self.leader_id
    }

    /// Returns the last log id that was accepted from this leader, and `None` for any other leader.
    pub fn last_accepted_log_id(&self, leader_id: &L) -> Option<&LogIdOf<C>>
        ensures { option_copied result ≡ accepted_id L.eq self.now leader_id.now }
    {
        if *leader_id == self.leader_id {
            self.log_id.as_ref()
        } else {
            None
        }
    }
}

impl<L: Eq + Copy, C: Ord + Copy> AcceptedIn<L, C> {
    ghost use Rattle.raft_state.specs.Accepted.{after_accept};

    /// Takes a log id that was accepted from a leader, if it is greater than the last one that was
    /// accepted from this leader.
    pub(crate) fn update(&mut self, leader_id: L, log_id: Option<LogIdOf<C>>)
        ensures { self.new ≡ after_accept L.eq C.cmp self.old leader_id log_id }
    {
        if log_id.as_ref() > self.last_accepted_log_id(&leader_id) {
            *self = AcceptedIn::new(leader_id, log_id);
        }
    }
}

impl<L, C: Ord + Copy> AcceptedIn<L, C> {
    ghost use Rattle.raft_state.specs.Accepted.{accepted_upto};

    /// Accepts at most what a log that ends with `last` has: if the accepted log id is above
    /// `last`, it becomes `last`.
    pub(crate) fn keep_upto(&mut self, last: Option<LogIdOf<C>>)
        ensures { self.new ≡ accepted_upto C.cmp self.old last }
    {
        if !log_id_at_most(self.log_id, last) {
            self.log_id = last;
        }
    }
}

// Handwritten, because the text has the name `Accepted` and not `AcceptedIn`.
impl<L: fmt::Debug, C: fmt::Debug> fmt::Debug for AcceptedIn<L, C> {
    fn fmt<W: fmt::Write>(&self, f: &mut fmt::Formatter<W>) -> fmt::Result {
        f.debug_struct("Accepted")
            .field("leader_id", &self.leader_id)
            .field("log_id", &self.log_id)
            .finish()
    }
}
