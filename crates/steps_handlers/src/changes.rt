//! What steps have changed, so what a server writes to disk before any message leaves.
ghost use Rattle.std.specs.Prelude.{◌≡◌};
ghost use Rattle.steps_handlers.specs.Written.{joined, no_changes};

use raft_base::LogIdOf;

/// What the steps of a server have changed since its disk was last written. **Before any message
/// leaves, all that the server's steps so far have changed is on disk.**
///
/// Write the vote first, and then the log. A server may also keep one value, join to it what each
/// step changes (`and_then`), and write once before it sends: a law,
/// `laws::joined_changes_are_written`, says that the disk then has the vote and the log of the
/// state.
#[must_use]
#[derive(Debug, Clone, Copy, PartialEq, Eq)]
pub struct Changes<C> {
    /// Whether the vote is new.
    pub vote: bool,
    /// The index from which on the log has changed, if it has: remove the entries on disk from it
    /// on, and write those that the log has there. After a request to append these are entries of
    /// the request if the outcome is `Matches`, and none if it is `Conflict`.
    pub log_from: Option<u64>,
    /// The log id up to which entries are committed now, if that has risen. These may be applied
    /// once they are on disk.
    pub committed: Option<LogIdOf<C>>,
}

impl<C: Copy> Changes<C> {
    /// Returns what a step has changed that has changed nothing.
    pub fn none() -> Self
        ensures { result ≡ no_changes }
    {
        Changes {
            vote: false,
            log_from: None,
            committed: None,
        }
    }

    /// Returns what a step has changed that has changed the vote alone, if the vote is new: a vote
    /// that is promised or granted, a campaign, or the begin of a leadership.
    pub fn of_vote(is_new: bool) -> Self
        ensures { result ≡ record no_changes { vote = is_new } }
    {
        Changes {
            vote: is_new,
            ..Changes::none()
        }
    }

    /// Returns what a step has changed that has appended entries from this log id on, as a leader
    /// does with an entry of its own.
    pub fn of_entries(first: &LogIdOf<C>) -> Self
        ensures { result ≡ record no_changes { log_from = Some first.now.index } }
    {
        Changes {
            log_from: Some(first.index),
            ..Changes::none()
        }
    }

    /// Returns what two steps have changed, this one and a later one.
    pub fn and_then(self, later: Self) -> Self
        ensures { result ≡ joined self later }
    {
        let log_from = match (self.log_from, later.log_from) {
            (Some(index), Some(other)) => Some(index.min(other)),
            (Some(index), None) => Some(index),
            (None, other) => other,
        };
        Changes {
            vote: self.vote || later.vote,
            log_from,
            committed: later.committed.or(self.committed),
        }
    }
}

/// What a request to install a snapshot has changed. Write it to disk before any message leaves,
/// and before it what earlier steps have changed: the vote first, and then the snapshot.
#[must_use]
#[derive(Debug, Clone, Copy, PartialEq, Eq)]
pub struct SnapshotChanges {
    /// Whether the vote is new.
    pub vote: bool,
    /// Whether the snapshot was installed. The state machine and the disk take it, and then the
    /// disk drops entries. All up to its last log id is committed.
    pub installed: bool,
    /// Whether the disk drops all entries, because the log did not have the last log id of the
    /// snapshot: from the last one to the first, so that a restart finds an interruption. Otherwise
    /// it drops the entries up to that log id.
    pub drops_log: bool,
}
