//! What is sent to a follower next, if probes without entries are sent too.
ghost use Rattle.std.specs.Prelude.{◌≡◌, false, None, Some, if◌then◌else◌, IsTrue};
ghost use Rattle.raft_progress.specs.entry.Probe.{after_probe, after_send, is_probe_due, is_searched};

use super::ProgressEntryOf;
use crate::inflight::InflightOf;
use raft_base::{LogIdRangeOf, LogStateReader};

/// The least number of indexes between what a follower matches and the searching end for which the
/// last log id that both logs have is searched for. If there are fewer, they are sent.
const SEARCHED: u64 = 16;

impl<C: Ord + Copy> ProgressEntryOf<C> {
    /// Puts in flight what is to be sent next: a probe, if one is due, or what `next_send` gives,
    /// of one entry at most in a search. Returns whether something was sent, or at least a request
    /// number was used.
    // What a search needs is not inlined, so that a follower that has most of the log pays one
    // test. The result is no copy of what is in flight, because the compiler would copy it three
    // times.
    #[inline(always)]
    pub(crate) fn probe_or_send<L: LogStateReader<C>>(&mut self, log: &L, max_entries: u64) -> bool
        ensures sent { after_send C.cmp self.old (L.log_view log.now) max_entries
            ≡ (if result then Some self.new else None) }
        ensures unchanged { result ≡ false → self.new ≡ self.old }
    {
        if !self.inflight.is_none() {
            return false;
        }
        let Some(bounds) = self.bounds(log) else {
            return false;
        };
        if self.searching_end - bounds.matched >= SEARCHED {
            return self.search(log, max_entries);
        }
        self.send_within(log, max_entries, bounds)
    }

    /// Puts in flight what is to be sent next in a search, and returns whether something was.
    #[inline(never)]
    fn search<L: LogStateReader<C>>(&mut self, log: &L, max_entries: u64) -> bool
        requires { IsTrue (is_searched self.old) }
        ensures sent { after_send C.cmp self.old (L.log_view log.now) max_entries
            ≡ (if result then Some self.new else None) }
        ensures unchanged { result ≡ false → self.new ≡ self.old }
    {
        if let Some(probing) = self.with_probe(log) {
            *self = probing;
            return true;
        }
        self.can_send(log) && self.send(log, max_entries.min(1))
    }

    /// Whether the last log id that both logs have is searched for: there are many indexes between
    /// what the follower matches and the searching end.
    fn is_searched(&self) -> bool
        ensures { result ≡ is_searched self.now }
    {
        match self.matching {
            Some(matching) => self.searching_end.saturating_sub(matching.index) > SEARCHED,
            None => self.searching_end >= SEARCHED,
        }
    }

    /// Whether the next request of a search is a probe: of eight numbers, the first two are those
    /// of probes.
    fn is_probe_due<L: LogStateReader<C>>(&self, log: &L) -> bool
        ensures { result ≡ is_probe_due self.now (L.log_view log.now) }
    {
        self.inflight.is_none()
            && self.is_searched()
            && self.curr_inflight_id % 8 < 2
            && self.can_send(log)
    }

    /// Returns this entry with a probe in flight, if one is due and the log has the log id that the
    /// probe asks for: the one before the searching end.
    fn with_probe<L: LogStateReader<C>>(&self, log: &L) -> Option<Self>
        ensures { result ≡ after_probe self.now (L.log_view log.now) }
    {
        if !self.is_probe_due(log) {
            return None;
        }
        let id = self.curr_inflight_id + 1;
        match log.prev_log_id(self.searching_end) {
            Some(prev) => {
                let log_id_range = LogIdRangeOf::new(Some(prev), Some(prev));
                let probe = InflightOf::Logs { id, log_id_range };
                Some(self.with_curr_inflight_id(id).with_inflight(probe))
            }
            None => None,
        }
    }
}
