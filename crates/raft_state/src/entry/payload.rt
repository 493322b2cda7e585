//! The payloads of log entries.
ghost use Rattle.std.specs.Prelude.{IfOk, IsOk, IsTrue};
ghost use Rattle.std.specs.Set.{ClonesAreEqual};
ghost use Rattle.raft_state.specs.entry.Entry.{is_blank_payload, same_payload};

use super::traits::RaftPayload;
use raft_base::{MessageSummary, Node, NodeId};
use raft_members::Membership;
use std::alloc::{AllocError, Global};
use std::fmt;

/// What a log entry contains.
#[derive(Clone, PartialEq, Drop)]
pub enum EntryPayload<NID: NodeId, N: Node, D> {
    /// Nothing. A new leader commits such an entry, and with it all entries before it.
    Blank,
    /// The program's own data.
    Normal(D),
    /// A change of the membership: the membership that it leads to.
    Membership(Membership<NID, N>),
}

impl<NID: NodeId, N: Node, D: Clone + PartialEq + Drop> EntryPayload<NID, N, D> {
    /// Returns an equal payload with a clone of the data or of the nodes, or an allocation error. A
    /// blank payload needs no allocation.
    pub fn try_clone(&self) -> Result<Self, AllocError>
        requires clones_of_nodes_are_equal { ClonesAreEqual N.eq N.is_clone }
        requires clones_of_data_are_equal { ClonesAreEqual D.eq D.is_clone }
        ensures equal { IfOk result (λ copy.
            IsTrue (same_payload NID.eq N.eq D.eq self.now copy)) }
        ensures no_memory { IsTrue (is_blank_payload self.now) → IsOk result }
    {
        Ok(match self {
            EntryPayload::Blank => EntryPayload::Blank,
            EntryPayload::Normal(data) => EntryPayload::Normal(data.clone()?),
            EntryPayload::Membership(membership) => {
                EntryPayload::Membership(membership.try_clone()?)
            }
        })
    }
}

impl<NID: NodeId, N: Node, D> RaftPayload<Membership<NID, N>> for EntryPayload<NID, N, D> {
    ghost use Rattle.raft_state.specs.entry.Entry.{is_blank_payload, payload_membership};
    ghost use Rattle.raft_state.specs.entry.EntryLawful.{blank_stores_none as none_in_blank};

    ghost blank = { is_blank_payload };

    ghost membership = { payload_membership };

    fn is_blank(&self) -> bool {
        matches!(self, EntryPayload::Blank)
    }

    fn get_membership(&self) -> Option<&Membership<NID, N>> {
        match self {
            EntryPayload::Membership(membership) => Some(membership),
            _ => None,
        }
    }

    ghost blank_stores_none = { λ payload is_blank. none_in_blank payload is_blank };
}

// Handwritten, because the program's data need not have a text.
impl<NID: NodeId, N: Node, D> fmt::Debug for EntryPayload<NID, N, D> {
    fn fmt<W: fmt::Write>(&self, f: &mut fmt::Formatter<W>) -> fmt::Result {
        match self {
            EntryPayload::Blank => f.write_str("blank"),
            EntryPayload::Normal(_) => f.write_str("normal"),
            EntryPayload::Membership(membership) => write!(f, "membership:{membership:?}"),
        }
    }
}

impl<NID: NodeId, N: Node, D> fmt::Display for EntryPayload<NID, N, D> {
    fn fmt<W: fmt::Write>(&self, f: &mut fmt::Formatter<W>) -> fmt::Result {
        match self {
            EntryPayload::Blank => f.write_str("blank"),
            EntryPayload::Normal(_) => f.write_str("normal"),
            EntryPayload::Membership(membership) => write!(f, "membership: {membership}"),
        }
    }
}

impl<NID: NodeId, N: Node, D> MessageSummary<EntryPayload<NID, N, D>> for EntryPayload<NID, N, D> {
    fn summary(&self, alloc: Global) -> Result<String, AllocError> {
        self.to_string(alloc)
    }
}
