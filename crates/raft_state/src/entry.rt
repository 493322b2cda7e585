//! Log entries.
ghost use Rattle.std.specs.Prelude.{◌≡◌, IfOk, IsOk, IsTrue, refl};
ghost use Rattle.std.specs.Set.{ClonesAreEqual};
ghost use Rattle.raft_state.specs.entry.Entry.{is_blank_payload, same_payload, IsDefaultLogId};

pub mod payload;
mod traits;

pub use payload::EntryPayload;
use raft_base::{CommittedLeaderId, LogIdOf, MessageSummary, Node, NodeId, RaftLogId};
use raft_members::Membership;
use std::alloc::{AllocError, Global};
use std::fmt;
pub use traits::{FromAppData, LogEntry, RaftEntry, RaftPayload};

/// A log entry: what is appended to each node's log with one log id.
///
/// Two entries are equal if their log ids and their payloads are equal. The default entry is blank.
#[derive(Clone, PartialEq, Drop)]
pub struct EntryOf<C, NID: NodeId, N: Node, D> {
    /// Identifies the entry in the whole cluster.
    pub log_id: LogIdOf<C>,
    /// What the entry contains.
    pub payload: EntryPayload<NID, N, D>,
}

/// A log entry, with the default leader ids.
pub type Entry<NID, N, D> = EntryOf<CommittedLeaderId<NID>, NID, N, D>;

impl<C: Copy, NID: NodeId, N: Node, D> EntryOf<C, NID, N, D> {
    /// Returns the entry itself. A caller's own entry type may lend the entry that it contains.
    pub fn as_ref(&self) -> &Self
        ensures { result.now ≡ self.now }
    {
        self
    }

    /// Returns an equal entry with clones of the data and of the nodes, or an allocation error. A
    /// blank entry needs no allocation.
    pub fn try_clone(&self) -> Result<Self, AllocError>
    where
        D: Clone + PartialEq + Drop,
        requires clones_of_nodes_are_equal { ClonesAreEqual N.eq N.is_clone }
        requires clones_of_data_are_equal { ClonesAreEqual D.eq D.is_clone }
        ensures log_id { IfOk result (λ copy. copy.log_id ≡ self.now.log_id) }
        ensures payload { IfOk result (λ copy.
            IsTrue (same_payload NID.eq N.eq D.eq self.now.payload copy.payload)) }
        ensures no_memory { IsTrue (is_blank_payload self.now.payload) → IsOk result }
    {
        Ok(EntryOf {
            log_id: self.log_id,
            payload: self.payload.try_clone()?,
        })
    }
}

impl<C: Default, NID: NodeId, N: Node, D> Default for EntryOf<C, NID, N, D> {
    ghost use Rattle.raft_state.specs.declared.entry.payload.EntryPayload.TheVariants.{Blank};

    ghost is_default = { λ entry.
        IsDefaultLogId C.is_default entry.log_id × (entry.payload ≡ Blank) };

    fn default() -> Self {
        EntryOf {
            log_id: default_log_id(),
            payload: EntryPayload::Blank,
        }
    }
}

/// Returns the log id that an entry has until it is given its own.
fn default_log_id<C: Default>() -> LogIdOf<C>
    ensures { IsDefaultLogId C.is_default result }
{
    LogIdOf {
        leader_id: C::default(),
        index: 0,
    }
}

impl<C, NID: NodeId, N: Node, D> RaftPayload<Membership<NID, N>> for EntryOf<C, NID, N, D> {
    ghost use Rattle.raft_state.specs.entry.Entry.{is_blank_payload, payload_membership};
    ghost use Rattle.raft_state.specs.entry.EntryLawful.{blank_stores_none as none_in_blank};

    ghost blank = { λ entry. is_blank_payload entry.payload };

    ghost membership = { λ entry. payload_membership entry.payload };

    fn is_blank(&self) -> bool {
        self.payload.is_blank()
    }

    fn get_membership(&self) -> Option<&Membership<NID, N>> {
        self.payload.get_membership()
    }

    ghost blank_stores_none = { λ entry is_blank. none_in_blank entry.payload is_blank };
}

impl<C: Copy, NID: NodeId, N: Node, D> RaftLogId<C> for EntryOf<C, NID, N, D> {
    ghost id_of = { λ entry. entry.log_id };

    ghost with_id = { λ entry id. record entry { log_id = id } };

    fn get_log_id(&self) -> &LogIdOf<C> {
        &self.log_id
    }

    fn set_log_id(&mut self, log_id: &LogIdOf<C>) {
        self.log_id = *log_id;
    }

    ghost has_id = { λ entry id. refl };

    ghost own_id = { λ entry. refl };

    ghost last_id = { λ entry id next. refl };
}

impl<C: Copy + fmt::Debug + fmt::Display, NID: NodeId, N: Node, D> RaftEntry<C, Membership<NID, N>>
    for EntryOf<C, NID, N, D> {
    ghost use Rattle.raft_state.specs.declared.entry.payload.EntryPayload.TheVariants.{Blank};

    fn new_blank(log_id: LogIdOf<C>) -> Self
        ensures { result ≡ record { log_id = log_id; payload = Blank } }
    {
        EntryOf {
            log_id,
            payload: EntryPayload::Blank,
        }
    }

    fn new_membership(log_id: LogIdOf<C>, membership: Membership<NID, N>) -> Self
        ensures { result ≡ record {
          log_id = log_id;
          payload = EntryPayload.Membership membership;
        } }
    {
        EntryOf {
            log_id,
            payload: EntryPayload::Membership(membership),
        }
    }

    ghost keeps_membership = { λ entry id. refl };

    ghost keeps_blank = { λ entry id. refl };
}

impl<C: Default, NID: NodeId, N: Node, D> FromAppData<D> for EntryOf<C, NID, N, D> {
    ghost use Rattle.raft_state.specs.declared.entry.payload.EntryPayload.TheVariants.{Normal};

    ghost is_made_of = { λ app_data entry.
        IsDefaultLogId C.is_default entry.log_id × (entry.payload ≡ Normal app_data) };

    fn from_app_data(app_data: D) -> Self {
        EntryOf {
            log_id: default_log_id(),
            payload: EntryPayload::Normal(app_data),
        }
    }
}

// Handwritten, because the text has the name `Entry` and not `EntryOf`, and because data need not
// have a debug text.
impl<C: fmt::Debug, NID: NodeId, N: Node, D> fmt::Debug for EntryOf<C, NID, N, D> {
    fn fmt<W: fmt::Write>(&self, f: &mut fmt::Formatter<W>) -> fmt::Result {
        f.debug_struct("Entry")
            .field("log_id", &self.log_id)
            .field("payload", &self.payload)
            .finish()
    }
}

impl<C: fmt::Display, NID: NodeId, N: Node, D> fmt::Display for EntryOf<C, NID, N, D> {
    fn fmt<W: fmt::Write>(&self, f: &mut fmt::Formatter<W>) -> fmt::Result {
        let EntryOf { log_id, payload } = self;
        write!(f, "{log_id}:{payload}")
    }
}

impl<C: fmt::Display, NID: NodeId, N: Node, D> MessageSummary<EntryOf<C, NID, N, D>>
    for EntryOf<C, NID, N, D> {
    fn summary(&self, alloc: Global) -> Result<String, AllocError> {
        self.to_string(alloc)
    }
}
