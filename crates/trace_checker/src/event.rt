//! The events that an engine records.

use crate::entry::Entry;

/// An event at one server.
///
/// An event is recorded after the events that it depends on. For example, a vote is recorded after
/// the campaign of its candidate, and a commit after the acknowledgements that it counts.
#[derive(Debug, Drop)]
pub enum Event<T, N, D> {
    /// A server starts a campaign in a term, with its log as it is, and votes for itself.
    Campaigned {
        /// The server.
        server: N,
        /// The term.
        term: T,
    },
    /// A server grants its vote in a term to another server. The vote is durable. If the server has
    /// taken entries in the term, the vote is late, and the checker counts it in no election.
    Granted {
        /// The server.
        server: N,
        /// The term.
        term: T,
        /// The candidate.
        candidate: N,
    },
    /// A server takes entries from the leader of a term.
    Appended {
        /// The server.
        server: N,
        /// The term.
        term: T,
        /// The leader.
        leader: N,
        /// How many first entries of its log the server keeps.
        keep: usize,
        /// The entries that follow the kept ones in its log now.
        entries: Vec<Entry<T, D>>,
    },
    /// A server acknowledges its first entries to the leader of a term. They are durable.
    Acked {
        /// The server.
        server: N,
        /// The term.
        term: T,
        /// The leader.
        leader: N,
        /// How many first entries.
        len: usize,
    },
    /// A server restarts.
    Restarted {
        /// The server.
        server: N,
        /// How many first entries of the recorded log it still has.
        len: usize,
    },
    /// A leader writes an entry to its log.
    Wrote {
        /// The leader.
        leader: N,
        /// The term.
        term: T,
        /// The entry.
        entry: Entry<T, D>,
    },
    /// A leader commits the first entries of its log.
    Committed {
        /// The leader.
        leader: N,
        /// The term.
        term: T,
        /// How many first entries.
        len: usize,
        /// The quorum is one of the config that was in effect when the log had so many entries.
        counted_at: usize,
    },
    /// A server applies the first entries of its log.
    Applied {
        /// The server.
        server: N,
        /// A term whose leader knows these entries to be committed.
        term: T,
        /// The leader of this term. Its log begins with these entries too.
        leader: N,
        /// How many first entries.
        len: usize,
    },
}
