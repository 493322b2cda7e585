//! The progress of a node's storage.
ghost use Rattle.std.specs.Prelude.{◌≡◌, false, IsTrue};
ghost use Rattle.std.specs.Option.{option_copied};
ghost use Rattle.raft_base.specs.LogId.{id_lt};

mod log_io_id;

pub use log_io_id::{LogIOId, LogIOIdOf};
use raft_base::{LeaderAdv, LeaderKind, LogIdOf, VoteIn};
use std::fmt;

/// The progress of a node's storage: what is on disk and what is applied. The node's own state may
/// be ahead of it.
#[derive(Clone, Copy, Default, PartialEq, Eq)]
pub struct IOStateIn<L, C> {
    building_snapshot: bool,
    /// The vote that is on disk.
    pub vote: VoteIn<L>,
    /// The last log id of the log that is on disk, and its leader.
    pub flushed: LogIOIdOf<C>,
    /// The last log id that is applied to the state machine.
    pub applied: Option<LogIdOf<C>>,
    /// The last log id in the snapshot that is on disk.
    pub snapshot: Option<LogIdOf<C>>,
    /// The last log id that is purged from disk.
    pub purged: Option<LogIdOf<C>>,
}

/// The progress of storage, for a kind of leader ids.
pub type IOStateOf<NID, K> = IOStateIn<
    <K as LeaderKind<NID>>::Leader,
    <K as LeaderKind<NID>>::Committed,
>;

/// The progress of storage, with the default leader ids.
pub type IOState<NID> = IOStateOf<NID, LeaderAdv>;

impl<L: Copy, C: Ord + Copy> IOStateIn<L, C> {
    ghost use Rattle.raft_state.specs.IOState.{io_state, is_building, with_building};

    /// Returns the progress of a storage in which no snapshot is being built.
    pub fn new(
        vote: VoteIn<L>,
        flushed: LogIOIdOf<C>,
        applied: Option<LogIdOf<C>>,
        snapshot: Option<LogIdOf<C>>,
        purged: Option<LogIdOf<C>>,
    ) -> Self
        ensures { result ≡ io_state false vote flushed applied snapshot purged }
    {
        IOStateIn {
            building_snapshot: false,
            vote,
            flushed,
            applied,
            snapshot,
            purged,
        }
    }

    /// Takes the vote that is now on disk.
    pub fn update_vote(&mut self, vote: VoteIn<L>)
        ensures { self.new ≡ record self.old { vote = vote } }
    {
        self.vote = vote;
    }

    /// Returns the vote that is on disk.
    pub fn vote(&self) -> &VoteIn<L>
        ensures { result.now ≡ self.now.vote }
    {
        &self.vote
    }

    /// Takes a greater log id that is now applied. It requires that `log_id_below` is true of the
    /// field and the new log id.
    pub fn update_applied(&mut self, log_id: Option<LogIdOf<C>>)
        requires { IsTrue (id_lt C.cmp self.old.applied log_id) }
        ensures { self.new ≡ record self.old { applied = log_id } }
    {
        self.applied = log_id;
    }

    /// Returns the last log id that is applied.
    pub fn applied(&self) -> Option<&LogIdOf<C>>
        ensures { option_copied result ≡ self.now.applied }
    {
        self.applied.as_ref()
    }

    /// Takes a greater log id that is now the last one in the snapshot on disk. It requires that
    /// `log_id_below` is true of the field and the new log id.
    pub fn update_snapshot(&mut self, log_id: Option<LogIdOf<C>>)
        requires { IsTrue (id_lt C.cmp self.old.snapshot log_id) }
        ensures { self.new ≡ record self.old { snapshot = log_id } }
    {
        self.snapshot = log_id;
    }

    /// Returns the last log id in the snapshot that is on disk.
    pub fn snapshot(&self) -> Option<&LogIdOf<C>>
        ensures { option_copied result ≡ self.now.snapshot }
    {
        self.snapshot.as_ref()
    }

    /// Marks whether a snapshot is being built.
    pub fn set_building_snapshot(&mut self, building: bool)
        ensures { self.new ≡ with_building self.old building }
    {
        self.building_snapshot = building;
    }

    /// Whether a snapshot is being built.
    pub fn building_snapshot(&self) -> bool
        ensures { result ≡ is_building self.now }
    {
        self.building_snapshot
    }

    /// Takes the last log id that is now purged from disk.
    pub fn update_purged(&mut self, log_id: Option<LogIdOf<C>>)
        ensures { self.new ≡ record self.old { purged = log_id } }
    {
        self.purged = log_id;
    }

    /// Returns the last log id that is purged from disk.
    pub fn purged(&self) -> Option<&LogIdOf<C>>
        ensures { option_copied result ≡ self.now.purged }
    {
        self.purged.as_ref()
    }
}

// Handwritten, because the text has the name `IOState` and not `IOStateIn`.
impl<L: fmt::Debug, C: fmt::Debug> fmt::Debug for IOStateIn<L, C> {
    fn fmt<W: fmt::Write>(&self, f: &mut fmt::Formatter<W>) -> fmt::Result {
        f.debug_struct("IOState")
            .field("building_snapshot", &self.building_snapshot)
            .field("vote", &self.vote)
            .field("flushed", &self.flushed)
            .field("applied", &self.applied)
            .field("snapshot", &self.snapshot)
            .field("purged", &self.purged)
            .finish()
    }
}
