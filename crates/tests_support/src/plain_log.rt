//! A log as plain data, for tests of those who read one.
ghost use Rattle.raft_base.specs.LogId.{index_of};
ghost use Rattle.std.specs.Prelude.{◌≡◌, Some};

use raft_base::leader_id_std::CommittedLeaderId;
use raft_base::{LeaderId, LogIdOf, LogStateReader};
use std::alloc::{AllocError, Global};

/// A committed leader that is made of numbers: its term and, unless it is of standard Raft, its
/// node.
pub trait Numbered: Ord + Copy {
    /// Returns the leader of a term at a node.
    fn of_node(term: u64, node: u64) -> Self;

    /// Returns the leader of a term at node 0.
    final fn numbered(term: u64) -> Self {
        Self::of_node(term, 0)
    }
}

impl Numbered for LeaderId<u64> {
    fn of_node(term: u64, node: u64) -> Self {
        LeaderId::new(term, node)
    }
}

impl Numbered for CommittedLeaderId {
    fn of_node(term: u64, _node: u64) -> Self {
        CommittedLeaderId { term }
    }
}

/// A log id by its leader's number and its index.
pub fn id<C: Numbered>(leader: u64, index: u64) -> Option<LogIdOf<C>>
    ensures { index_of result ≡ Some index }
{
    Some(LogIdOf::new(C::numbered(leader), index))
}

/// A log: its ids, of which the first one of an index counts, and
/// those that tell how far it has come.
#[derive(Drop)]
pub struct PlainLog<C> {
    pub ids: Vec<LogIdOf<C>>,
    pub last: Option<LogIdOf<C>>,
    pub committed: Option<LogIdOf<C>>,
    pub purge_upto: Option<LogIdOf<C>>,
    pub snapshot: Option<LogIdOf<C>>,
}

impl<C: Ord + Copy> LogStateReader<C> for PlainLog<C> {
    ghost use Rattle.std.specs.Prelude.{None};
    ghost use Rattle.tests_support.specs.PlainLog.{id_at, indexed};

    ghost log_view = { λ log. record {
      id_at = id_at log.ids.items;
      last = log.last;
      committed = log.committed;
      snapshot = log.snapshot;
      purge_upto = log.purge_upto;
      last_purged = None;
      io_applied = None;
      io_snapshot = None;
      io_purged = None;
    } };

    fn get_log_id(&self, index: u64) -> Option<LogIdOf<C>> {
        self.ids.iter().copied().find(|id| id.index == index)
    }

    fn last_log_id(&self) -> Option<&LogIdOf<C>> {
        self.last.as_ref()
    }

    fn committed(&self) -> Option<&LogIdOf<C>> {
        self.committed.as_ref()
    }

    fn io_applied(&self) -> Option<&LogIdOf<C>> {
        None
    }

    fn io_snapshot_last_log_id(&self) -> Option<&LogIdOf<C>> {
        None
    }

    fn io_purged(&self) -> Option<&LogIdOf<C>> {
        None
    }

    fn snapshot_last_log_id(&self) -> Option<&LogIdOf<C>> {
        self.snapshot.as_ref()
    }

    fn purge_upto(&self) -> Option<&LogIdOf<C>> {
        self.purge_upto.as_ref()
    }

    fn last_purged_log_id(&self) -> Option<&LogIdOf<C>> {
        None
    }

    ghost indexed = { λ log i. indexed log.ids.items i };
}

/// A log of leader 1 at the indexes below an end, but for one id, with nothing to be purged.
pub fn log_below<C: Numbered>(
    alloc: Global,
    end: u64,
    other: Option<LogIdOf<C>>,
) -> Result<PlainLog<C>, AllocError> {
    let mut ids = Vec::new(alloc);
    if let Some(other) = other {
        ids.push(other)?;
    }
    for index in 0..end {
        ids.push(LogIdOf::new(C::numbered(1), index))?;
    }
    let last = ids.last().copied();
    Ok(PlainLog {
        ids,
        last,
        committed: None,
        purge_upto: None,
        snapshot: None,
    })
}
