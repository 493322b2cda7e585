//! A node's vote for a leader, which it has promised to follow.
ghost use Rattle.std.specs.Prelude.{◌≡◌, ◌==◌, ◌||◌, Some, None, true, false, if◌then◌else◌, IsTrue};
ghost use Rattle.std.specs.Ordering.{partial_le};

use crate::kind::{LeaderAdv, LeaderIdentity, LeaderKind};
pub use crate::leader_id::{CommittedLeaderId, LeaderId};
use std::cmp::Ordering;
use std::fmt;

/// A node's vote: the leader that it is for, and whether a quorum has elected that leader.
///
/// Votes are compared by leader, and for one leader an uncommitted vote is below a committed one.
/// If the leaders do not compare and one vote is committed, that vote is the greater one, because
/// no quorum elects the other leader.
#[derive(Clone, Copy, Default, PartialEq, Eq)]
pub struct VoteIn<L> {
    /// The leader that the vote is for.
    pub leader_id: L,
    /// Whether a quorum has elected the leader.
    pub committed: bool,
}

/// Votes with a kind of leader ids.
pub type VoteOf<NID, K> = VoteIn<<K as LeaderKind<NID>>::Leader>;

/// Votes with the default leader ids.
pub type Vote<NID> = VoteOf<NID, LeaderAdv>;

impl<L: LeaderIdentity> PartialOrd for VoteIn<L> {
    ghost use Rattle.raft_base.specs.Vote.{vote_cmp};
    ghost use Rattle.raft_base.specs.VoteLawful.{vote_cmp-partial};

    ghost partial_cmp = { vote_cmp L.order };

    ghost laws = { vote_cmp-partial L.partial L.incomparable
        (λ a. a.leader_id) (λ a. a.committed) };

    fn partial_cmp(&self, other: &Self) -> Option<Ordering> {
        match L::compare(&self.leader_id, &other.leader_id) {
            Some(Ordering::Equal) => self.committed.partial_cmp(&other.committed),
            // Of two leaders that do not compare, only one can be elected.
            None => match (self.committed, other.committed) {
                (true, false) => Some(Ordering::Greater),
                (false, true) => Some(Ordering::Less),
                _ => None,
            },
            decided => decided,
        }
    }
}

impl<L: LeaderIdentity> VoteIn<L> {
    ghost use Rattle.raft_base.specs.Vote.{vote_cmp};

    /// Returns an uncommitted vote for a node in a term.
    pub fn new(term: u64, node_id: L::Id) -> Self
        ensures { result ≡ record { leader_id = L.leader_of term node_id; committed = false } }
    {
        VoteIn {
            leader_id: L::new_leader(term, node_id),
            committed: false,
        }
    }

    /// Returns the vote for a node that a quorum has elected in a term.
    pub fn new_committed(term: u64, node_id: L::Id) -> Self
        ensures { result ≡ record { leader_id = L.leader_of term node_id; committed = true } }
    {
        VoteIn {
            leader_id: L::new_leader(term, node_id),
            committed: true,
        }
    }

    /// Marks the vote's leader as elected by a quorum. This never lowers the vote.
    pub fn commit(&mut self)
        ensures committed { self.new ≡ record self.old { committed = true } }
        ensures monotone { IsTrue (partial_le (vote_cmp L.order) self.old self.new) }
    {
        self.committed = true;
    }

    /// Whether a quorum has elected the leader.
    pub fn is_committed(&self) -> bool
        ensures { result ≡ self.now.committed }
    {
        self.committed
    }

    /// Returns the leader that the vote is for, elected or not.
    pub fn leader_id(&self) -> &L
        ensures { result.now ≡ self.now.leader_id }
    {
        &self.leader_id
    }

    /// Returns the committed leader id under which log entries may be written: the one of the
    /// vote's leader, if the vote is committed.
    ///
    /// In term 0 the vote need not be committed, because the first entry of a new cluster is
    /// written before anyone could vote.
    pub fn committed_leader_id(&self) -> Option<L::Committed>
        ensures { result ≡ (if self.now.committed || (L.term_of self.now.leader_id == 0)
            then Some (L.committed self.now.leader_id) else None) }
    {
        if self.is_committed() || L::term(self.leader_id()) == 0 {
            Some(L::to_committed(self.leader_id()))
        } else {
            None
        }
    }

    /// Whether `leader_id` is the committed leader id of the vote's leader.
    pub fn is_same_leader(&self, leader_id: &L::Committed) -> bool
        ensures { result ≡ L.Committed.eq (L.committed self.now.leader_id) leader_id.now }
    {
        L::is_same_as_committed(self.leader_id(), leader_id)
    }
}

// Handwritten, because the text has the name `Vote` and not `VoteIn`.
impl<L: fmt::Debug> fmt::Debug for VoteIn<L> {
    fn fmt<W: fmt::Write>(&self, f: &mut fmt::Formatter<W>) -> fmt::Result {
        f.debug_struct("Vote")
            .field("leader_id", &self.leader_id)
            .field("committed", &self.committed)
            .finish()
    }
}

impl<L: fmt::Display> fmt::Display for VoteIn<L> {
    fn fmt<W: fmt::Write>(&self, f: &mut fmt::Formatter<W>) -> fmt::Result {
        let leader_id = &self.leader_id;
        let state = if self.committed {
            "committed"
        } else {
            "uncommitted"
        };
        write!(f, "{leader_id}:{state}")
    }
}
