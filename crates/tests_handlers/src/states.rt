//! States of servers over standard Raft's leader ids. The nodes are 1, 2 and 3.

use raft_base::leader_id_std::{CommittedLeaderId, LeaderId};
use raft_base::{EmptyNode, LogIdOf, VoteIn};
use raft_members::{Membership, StoredMembershipOf};
use raft_state::{EntryOf, EntryPayload, SnapshotMetaOf};
use std::alloc::{AllocError, Global};
use std::collections::{BTreeMap, BTreeSet};
use steps_handlers::{AppendEntries, RequestNumber, State, Stored, restart_server};
use tests_support::memory::both_made;

/// A log id, if there is one.
pub type Id = Option<LogIdOf<CommittedLeaderId>>;

pub type Server = State<u64, EmptyNode, u64, LeaderId<u64>>;

pub type Disk = Stored<LeaderId<u64>, CommittedLeaderId, u64, EmptyNode, u64>;

pub type Entry = EntryOf<CommittedLeaderId, u64, EmptyNode, u64>;

pub type Snapshot = SnapshotMetaOf<CommittedLeaderId, u64, EmptyNode>;

pub type Append = AppendEntries<LeaderId<u64>, CommittedLeaderId, u64, EmptyNode, u64>;

/// The log id of a term and an index.
pub fn at(term: u64, index: u64) -> Id {
    Some(LogIdOf::new(CommittedLeaderId { term }, index))
}

/// Blank entries of these terms and indexes.
pub fn entries(alloc: Global, rows: &[(u64, u64)]) -> Result<Vec<Entry>, AllocError> {
    let mut entries = Vec::new(alloc);
    for (term, index) in rows {
        entries.push(Entry {
            log_id: LogIdOf::new(CommittedLeaderId { term: *term }, *index),
            payload: EntryPayload::Blank,
        })?;
    }
    Ok(entries)
}

/// The membership of the voters 1, 2 and 3.
pub fn members(alloc: Global) -> Result<Membership<u64, EmptyNode>, AllocError> {
    let nodes: BTreeMap<u64, EmptyNode> = (1..=3).map(|id| (id, EmptyNode::new())).collect(alloc)?;
    let voters: BTreeSet<u64> = (1..=3).collect(alloc)?;
    Membership::new_unchecked(vec![in alloc; voters]?, nodes)
}

/// The snapshot up to a log id, with a membership at (2, 3).
pub fn snapshot(alloc: Global, upto: Id) -> Result<Snapshot, AllocError> {
    let (mut meta, members) = both_made(Snapshot::try_default(alloc), members(alloc))?;
    meta.last_log_id = upto;
    meta.last_membership = StoredMembershipOf::new(at(2, 3), members);
    Ok(meta)
}

/// The request 7 of the leader 1 of a term, with blank entries of these terms and indexes.
pub fn request(
    alloc: Global,
    term: u64,
    prev: Id,
    rows: &[(u64, u64)],
    committed: Id,
) -> Result<Append, AllocError> {
    Ok(Append {
        leader_id: LeaderId::new(term, 1),
        request: RequestNumber::InFlight(7),
        prev,
        entries: entries(alloc, rows)?,
        committed,
    })
}

/// The disk of a server whose vote is for the leader 1 of term 3, and whose log is (1, 0), (1, 1),
/// (2, 2), (2, 3). The first entry has a membership of the voters 1, 2 and 3, and all up to (1, 1)
/// is committed.
fn disk(alloc: Global) -> Result<Disk, AllocError> {
    let snapshot = Snapshot::try_default(alloc);
    let log = entries(alloc, &[(1, 0), (1, 1), (2, 2), (2, 3)]);
    let (members, (snapshot, mut entries)) = both_made(members(alloc), both_made(snapshot, log))?;
    if let Some(first) = entries.first_mut() {
        first.payload = EntryPayload::Membership(members);
    }
    Ok(Stored {
        vote: VoteIn::new_committed(3, 1),
        snapshot,
        entries,
        committed: at(1, 1),
    })
}

/// The server that restarts with `disk`.
pub fn server(alloc: Global) -> Result<Server, AllocError> {
    match restart_server(alloc, &disk(alloc)?) {
        Ok(state) => Ok(state),
        Err(_) => Err(AllocError),
    }
}
