//! What a leader sends to a member, and what it learns from the member's responses.
ghost use Rattle.raft_progress.specs.tracked.Followers.{IsAcknowledged, IsConflict, IsNextRequest, IsNextSend};
ghost use Rattle.raft_progress.specs.tracked.Tracked.{tracked_view};

use super::Tracked;
use crate::entry::ProgressEntryOf;
use crate::inflight::{InflightError, InflightOf};
use crate::progress::Progress;
use raft_base::{LogIdOf, LogStateReader, Node, NodeId};

/// What a leader does with the entry of a member. Each call looks the member up once and changes
/// its entry in place, and never allocates.
impl<NID: NodeId, N: Node, C: Ord + Copy> Tracked<NID, N, ProgressEntryOf<C>, Option<LogIdOf<C>>> {
    /// Puts in flight what is to be sent to a member next, as `ProgressEntryOf::next_send` does,
    /// and returns it. The result is `None` for an unknown id.
    ///
    /// `InflightOf::None` means that nothing was put in flight. If there is nothing to send, if
    /// something is in flight already, or if `can_send` is false, nothing changes. If the log ids
    /// of the log do not rise, a request number is used, and nothing else changes. Granted stays in
    /// each case, and no update is counted.
    #[inline(always)]
    pub fn next_send<L: LogStateReader<C>>(
        &mut self,
        id: &NID,
        log: &L,
        max_entries: u64,
    ) -> Option<InflightOf<C>>
        ensures { IsNextSend NID.eq C.cmp (tracked_view self.old) id.now (L.log_view log.now)
            max_entries result (tracked_view self.new) }
    {
        let Some(entry) = self.progress.get_mut(id) else {
            return None;
        };
        Some(entry.send_next(log, max_entries))
    }

    /// Puts in flight what is to be sent to a member next, a probe if one is due, and returns it.
    /// The result is `None` for an unknown id.
    ///
    /// If 16 or more indexes are between what the member matches and the searching end, the last
    /// log id that both logs have is searched for, and no request has more than one entry. Of eight
    /// requests the first two are probes: they have no entries, and ask whether the member has the
    /// log id before the searching end. Otherwise what is sent, and what `InflightOf::None` means,
    /// is as for `next_send`.
    #[inline(always)]
    pub fn next_request<L: LogStateReader<C>>(
        &mut self,
        id: &NID,
        log: &L,
        max_entries: u64,
    ) -> Option<InflightOf<C>>
        ensures { IsNextRequest NID.eq C.cmp (tracked_view self.old) id.now (L.log_view log.now)
            max_entries result (tracked_view self.new) }
    {
        let Some(entry) = self.progress.get_mut(id) else {
            return None;
        };
        if entry.probe_or_send(log, max_entries) {
            return Some(entry.inflight);
        }
        Some(InflightOf::None)
    }

    /// Takes the response that a member has all logs up to a log id, as
    /// `ProgressEntryOf::update_matching` does, and recomputes granted, as `update` does. The
    /// result is `None` for an unknown id. A refused response changes nothing.
    #[inline(always)]
    pub fn acknowledge(
        &mut self,
        id: &NID,
        request_id: u64,
        matching: Option<LogIdOf<C>>,
    ) -> Option<Result<(), InflightError>>
        ensures { IsAcknowledged NID.eq C.cmp (tracked_view self.old) id.now request_id matching
            result (tracked_view self.new) }
    {
        self.progress
            .acknowledge(id, request_id, matching, self.sides.as_ref())
    }

    /// Takes the response that a member does not match at an index, as
    /// `ProgressEntryOf::update_conflicting` does. The result is `None` for an unknown id. A
    /// refused response changes nothing. Granted stays in each case, and no update is counted.
    pub fn conflict(
        &mut self,
        id: &NID,
        request_id: Option<u64>,
        conflict: u64,
    ) -> Option<Result<(), InflightError>>
        ensures { IsConflict NID.eq C.cmp (tracked_view self.old) id.now request_id conflict result
            (tracked_view self.new) }
    {
        match self.progress.get_mut(id) {
            Some(entry) => Some(entry.update_conflicting(request_id, conflict)),
            None => None,
        }
    }
}
