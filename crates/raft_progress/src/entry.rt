//! What a leader knows about a follower: how far their logs match, and what is in flight to it.
ghost use Rattle.std.specs.Prelude.{◌≡◌, ◌^◌, ◌<◌, ◌≤◌, nat_le, Ok, Err, None, Some, false, true, if◌then◌else◌, is_some, IfSome, IsSome, IsTrue, OnOk, ℕ};
ghost use Rattle.raft_base.specs.LogId.{id_le, id_lt, next_index};
ghost use Rattle.raft_base.specs.Validate.{first_false};
ghost use Rattle.raft_progress.specs.entry.EntryTable.{entry_after_conflict, entry_after_ack};
ghost use Rattle.raft_progress.specs.entry.LateResponse.{RefusesResponsesTo};
ghost use Rattle.raft_progress.specs.entry.EntryValid.{entry_relations};
ghost use Rattle.raft_progress.specs.entry.Request.{FollowsRequest, after_request};
ghost use Rattle.raft_progress.specs.entry.Send.{IsSent, calc_mid, can_send, send_table};
ghost use Rattle.raft_progress.specs.inflight.Inflight.{is_after_prev, is_idle};
ghost use Rattle.raft_progress.specs.inflight.InflightTable.{FollowsTable};
ghost use Rattle.raft_base.specs.LogView.{LogView};
ghost use Rattle.raft_progress.specs.declared.entry.ProgressEntryOf.{ProgressEntryOf};
ghost use Rattle.raft_progress.specs.declared.inflight.InflightOf.TheVariants.{None as Idle};

mod probe;

use crate::inflight::{InflightError, InflightOf};
use crate::progress::{ProgressPart, is_below};
pub use crate::search::{SearchEvent, search_run};
use raft_base::{
    CommittedLeaderId, DisplayOption, Invalid, LogIdOf, LogIdOptionExt, LogStateReader, Validate,
};
use std::alloc::AllocError;
use std::fmt;

/// What a leader knows about a follower.
///
/// The last log that both have is not before matching and is below the searching end. Probes narrow
/// this stretch: logs are sent that begin inside it, an ack raises matching, and a conflict lowers
/// the searching end. The part of an entry in a progress is its matching log id.
#[derive(Copy, PartialEq, Eq)]
pub struct ProgressEntryOf<C> {
    /// The last log id that is known to match.
    pub matching: Option<LogIdOf<C>>,
    /// The number of the last request that was sent.
    pub curr_inflight_id: u64,
    /// What is in flight.
    pub inflight: InflightOf<C>,
    /// The index after the last log that may match.
    pub searching_end: u64,
}

/// The indexes that decide what is sent next: the ones after matching, after what is to be purged,
/// and after the log.
#[derive(Clone, Copy)]
struct SendBounds {
    matched: u64,
    purged: u64,
    logged: u64,
}

/// What a leader knows about a follower, with the default leader ids.
pub type ProgressEntry<NID> = ProgressEntryOf<CommittedLeaderId<NID>>;

// Handwritten, because a derived `clone` clones the leaders, and a clone of a leader need not equal
// the leader.
impl<C: Copy> Clone for ProgressEntryOf<C> {
    ghost is_clone = { λ entry copy. copy ≡ entry };

    fn clone(&self) -> Result<Self, AllocError> {
        Ok(*self)
    }
}

impl<C: Ord + Copy> ProgressPart<Option<LogIdOf<C>>> for ProgressEntryOf<C> {
    ghost part_of = { λ entry. entry.matching };

    fn part(&self) -> Option<LogIdOf<C>> {
        self.matching
    }
}

impl<C: Ord + Copy> ProgressEntryOf<C> {
    ghost use Rattle.std.specs.Borrow.{sem};
    ghost use Rattle.std.specs.Io.BufRead.{Rests};
    ghost use Rattle.raft_progress.specs.contracts.entry.ProgressEntryOf.{the_row};

    /// Returns the entry of a follower that matches up to a log id and no further. It requires that
    /// `has_next_index` of the log id is true.
    pub fn new(matching: Option<LogIdOf<C>>) -> Self
        requires { next_index matching < 2 ^ 64 }
        ensures { result ≡ record {
          matching = matching;
          curr_inflight_id = 0;
          inflight = Idle;
          searching_end = next_index matching;
        } }
    {
        ProgressEntryOf {
            matching,
            curr_inflight_id: 0,
            inflight: InflightOf::None,
            searching_end: matching.next_index(),
        }
    }

    /// Returns the entry of a follower that does not match from the index `end` on, and of which
    /// nothing else is known.
    pub fn empty(end: u64) -> Self
        ensures { result ≡ record {
          matching = None;
          curr_inflight_id = 0;
          inflight = Idle;
          searching_end = end;
        } }
    {
        ProgressEntryOf {
            matching: None,
            curr_inflight_id: 0,
            inflight: InflightOf::None,
            searching_end: end,
        }
    }

    /// Returns this entry with another number of the last request.
    pub fn with_curr_inflight_id(mut self, id: u64) -> Self
        ensures { result ≡ record self { curr_inflight_id = id } }
    {
        self.curr_inflight_id = id;
        self
    }

    /// Returns this entry with something in flight. It requires that nothing is in flight, which
    /// `is_none` tests.
    pub fn with_inflight(mut self, inflight: InflightOf<C>) -> Self
        requires { IsTrue (is_idle self.inflight) }
        ensures { result ≡ record self { inflight = inflight } }
    {
        self.inflight = inflight;
        self
    }

    /// Whether logs are in flight that begin before a log id, so that the log id is among them or
    /// past them.
    pub fn is_log_range_inflight(&self, upto: &LogIdOf<C>) -> bool
        ensures { result ≡ is_after_prev C.cmp self.now.inflight upto.now }
    {
        match self.inflight {
            InflightOf::Logs { log_id_range, .. } => log_id_range.prev < Some(*upto),
            _ => false,
        }
    }

    /// Takes the response that the follower has all logs up to a log id. Matching becomes that log
    /// id, and the entry is valid, even if it was not valid before. Matching is never lowered. A
    /// refused response leaves the entry as it was.
    #[inline(always)]
    pub fn update_matching(
        &mut self,
        request_id: u64,
        matching: Option<LogIdOf<C>>,
    ) -> Result<(), InflightError>
        ensures table { FollowsTable (entry_after_ack C.cmp self.old request_id matching)
            self.old result self.new }
        ensures matched { OnOk result (self.new.matching ≡ matching) }
        ensures valid { OnOk result (first_false (entry_relations C.cmp self.new) ≡ None) }
        ensures monotone { IsTrue (id_le C.cmp self.old.matching self.new.matching) }
    {
        // All tests come first, so that a refusal leaves the entry as it was.
        self.inflight.check_ack(request_id, matching)?;
        if log_id_below(matching, self.matching) {
            return Err(InflightError::MatchingRegress);
        }
        if !matching.has_next_index() {
            return Err(InflightError::IndexTooLarge);
        }
        self.inflight.take_ack(matching);
        self.matching = matching;
        self.searching_end = self.searching_end.max(matching.next_index());
        Ok(())
    }

    /// Takes the response that the follower does not match at an index. The searching end becomes
    /// that index if it was past it. A refused response leaves the entry as it was.
    ///
    /// The response to a heartbeat has no request id, and what is in flight stays in flight. A
    /// valid entry stays valid if the response has a request id. The response to a heartbeat may
    /// end the search before the logs in flight, and the entry is not valid until their response is
    /// taken.
    pub fn update_conflicting(
        &mut self,
        request_id: Option<u64>,
        conflict: u64,
    ) -> Result<(), InflightError>
        ensures table { FollowsTable (entry_after_conflict self.old request_id conflict) self.old
            result self.new }
        ensures valid { IsSome request_id → first_false (entry_relations C.cmp self.old) ≡ None →
            first_false (entry_relations C.cmp self.new) ≡ None }
    {
        let mut inflight = self.inflight;
        if let Some(id) = request_id {
            inflight.conflict(id, conflict)?;
        }
        if conflict < self.searching_end {
            if Some(conflict) <= self.matching.index() {
                return Err(InflightError::ConflictBelowMatching);
            }
            self.searching_end = conflict;
        }
        self.inflight = inflight;
        Ok(())
    }

    /// Drops what is in flight, as lost. Then `next_send` sends again.
    ///
    /// If a request or its response was lost, no response ends what is in flight, and each
    /// `next_send` returns `Err`. So a leader calls this if a response takes too long. A late
    /// response is refused by its id, because nothing is in flight, and what is sent next has a
    /// greater id.
    pub fn give_up(&mut self)
        ensures idle { self.new ≡ record self.old { inflight = Idle } }
        ensures refuses_late { (id : ℕ) → RefusesResponsesTo C.cmp self.new id }
        ensures refuses_older { (log : LogView C) (max_entries : ℕ) (sent : ProgressEntryOf C) →
            send_table C.cmp self.new log max_entries ≡ Ok sent →
            (id : ℕ) → id ≤ self.old.curr_inflight_id → RefusesResponsesTo C.cmp sent id }
    {
        self.inflight = InflightOf::None;
    }

    /// Whether the precondition of `next_send` with a log holds.
    pub fn can_send<L: LogStateReader<C>>(&self, log: &L) -> bool
        ensures { result ≡ can_send self.now (L.log_view log.now) }
    {
        !self.inflight.is_none() || self.bounds(log).is_some()
    }

    /// Returns the indexes that decide what is sent if nothing is in flight, or `None` if
    /// `can_send` is false then.
    // The test and the send share them, so that neither the log nor matching is read twice.
    #[inline(always)]
    fn bounds<L: LogStateReader<C>>(&self, log: &L) -> Option<SendBounds>
        ensures allowed { is_idle self.now.inflight ≡ true →
            is_some result ≡ can_send self.now (L.log_view log.now) }
        ensures bounds { IfSome result (λ b. (b.matched ≡ next_index self.now.matching)
            × (b.purged ≡ next_index (L.log_view log.now).purge_upto)
            × (b.logged ≡ next_index (L.log_view log.now).last)) }
    {
        let matched = next_index_up_to(self.matching, self.searching_end)?;
        let logged = next_index_up_to(log.last_log_id().copied(), u64::MAX)?;
        let purged = next_index_up_to(log.purge_upto().copied(), u64::MAX)?;
        if logged < self.searching_end || self.curr_inflight_id == u64::MAX {
            return None;
        }
        Some(SendBounds {
            matched,
            purged,
            logged,
        })
    }

    /// Puts in flight what is to be sent next: at most `max_entries` logs, or a snapshot. Returns
    /// what was put in flight.
    ///
    /// Let `matched` be the index after matching, and `end` the searching end. Logs start at
    /// `matched + (end - matched) / 16 * 8`, so that each response cuts off about half of the
    /// stretch between the two. If the stretch has fewer than 16 indexes, logs start at `matched`.
    /// They never start at an index that is to be purged. If the logs that a probe needs are
    /// purged, or if `max_entries` is 0 in a probe, a snapshot is sent.
    ///
    /// `Err` contains what is in flight already, or `Inflight::None` if there is no log to send.
    /// `Ok` contains `Inflight::None` if the log ids of the log do not rise, because then there is
    /// nothing to send; a request number is used all the same. It requires `can_send`.
    #[inline(always)]
    pub fn next_send<L: LogStateReader<C>>(
        &mut self,
        log: &L,
        max_entries: u64,
    ) -> Result<&InflightOf<C>, &InflightOf<C>>
        requires { IsTrue (can_send self.old (L.log_view log.now)) }
        ensures* after { sem 𝓛 (Rests (the_row C.row) self.entry
            (IsSent (send_table C.cmp self.old (L.log_view log.now) max_entries) result)) }
    {
        if self.send(log, max_entries) {
            Ok(&self.inflight)
        } else {
            Err(&self.inflight)
        }
    }

    /// Whether something was sent, or at least a request id was taken.
    #[inline(always)]
    fn send<L: LogStateReader<C>>(&mut self, log: &L, max_entries: u64) -> bool
        requires { IsTrue (can_send self.old (L.log_view log.now)) }
        ensures { send_table C.cmp self.old (L.log_view log.now) max_entries
            ≡ (if result then Ok self.new else Err self.new) }
    {
        if !self.inflight.is_none() {
            return false;
        }
        let bounds = SendBounds {
            matched: self.matching.next_index(),
            purged: log.purge_upto().next_index(),
            logged: log.last_log_id().next_index(),
        };
        self.send_within(log, max_entries, bounds)
    }

    /// Sends by these bounds. Returns whether something was sent, or at least a request id was
    /// taken.
    #[inline(always)]
    fn send_within<L: LogStateReader<C>>(
        &mut self,
        log: &L,
        max_entries: u64,
        bounds: SendBounds,
    ) -> bool
        requires idle { IsTrue (is_idle self.old.inflight) }
        requires allowed { IsTrue (can_send self.old (L.log_view log.now)) }
        requires matched { bounds.matched ≡ next_index self.old.matching }
        requires purged { bounds.purged ≡ next_index (L.log_view log.now).purge_upto }
        requires logged { bounds.logged ≡ next_index (L.log_view log.now).last }
        ensures { send_table C.cmp self.old (L.log_view log.now) max_entries
            ≡ (if result then Ok self.new else Err self.new) }
    {
        let SendBounds {
            matched,
            purged,
            logged,
        } = bounds;
        let end = self.searching_end;
        let id = self.curr_inflight_id + 1;
        let start = calc_mid(matched, end).max(purged);
        let until = start.saturating_add(max_entries).min(logged);
        if end < purged || (start == until && matched < end) {
            let last = log.snapshot_last_log_id().copied();
            self.curr_inflight_id = id;
            self.inflight = InflightOf::snapshot(last).with_id(id);
            return true;
        }
        if start == until {
            return false;
        }
        self.curr_inflight_id = id;
        self.inflight = InflightOf::logs(log.prev_log_id(start), log.prev_log_id(until)).with_id(
            id,
        );
        true
    }

    /// Puts in flight what is to be sent next, if `can_send` is true, and returns it. The result is
    /// `InflightOf::None` if nothing was sent. Then the entry is as it was, unless the log ids of
    /// the log do not rise: then a request number is used.
    #[inline(always)]
    pub(crate) fn send_next<L: LogStateReader<C>>(
        &mut self,
        log: &L,
        max_entries: u64,
    ) -> InflightOf<C>
        ensures { FollowsRequest (after_request C.cmp self.old (L.log_view log.now) max_entries)
            self.old result self.new }
    {
        if !self.inflight.is_none() {
            return InflightOf::None;
        }
        if let Some(bounds) = self.bounds(log) {
            if self.send_within(log, max_entries, bounds) {
                return self.inflight;
            }
        }
        InflightOf::None
    }

    /// Whether the precondition of `sending_start` holds: the index after matching is at most the
    /// searching end.
    pub fn can_start(&self) -> bool
        ensures { result ≡ nat_le (next_index self.now.matching) self.now.searching_end }
    {
        is_below_index(self.matching, self.searching_end)
    }

    /// Returns the index at which the next probe starts, and the searching end. The first is
    /// `matched + (end - matched) / 16 * 8`, with `matched` the index after matching and `end` the
    /// searching end. It requires `can_start`.
    pub fn sending_start(&self) -> (u64, u64)
        requires { next_index self.now.matching ≤ self.now.searching_end }
        ensures { result ≡ (
          calc_mid (next_index self.now.matching) self.now.searching_end,
          self.now.searching_end,
        ) }
    {
        let end = self.searching_end;
        (calc_mid(self.matching.next_index(), end), end)
    }
}

/// Returns the index at which the next probe between `matched` and the searching end starts.
fn calc_mid(matched: u64, end: u64) -> u64
    requires { matched ≤ end }
    ensures value { result ≡ calc_mid matched end }
    ensures within { result ≤ end }
{
    matched + (end - matched) / 16 * 8
}

/// Returns the index after a log id, and 0 for `None`, if that is at most `end`.
#[inline(always)]
fn next_index_up_to<C: Copy>(id: Option<LogIdOf<C>>, end: u64) -> Option<u64>
    ensures { result ≡ (if nat_le (next_index id) end then Some (next_index id) else None) }
{
    match id {
        None => Some(0),
        Some(id) if id.index < end => Some(id.index + 1),
        Some(_) => None,
    }
}

/// Whether a log id is absent or has an index below `end`.
fn is_below_index<C: Copy>(id: Option<LogIdOf<C>>, end: u64) -> bool
    ensures { result ≡ nat_le (next_index id) end }
{
    id.index() < Some(end)
}

/// Whether a log id is below another one.
// The operator of an option is not inlined, and reads both from memory.
#[inline(always)]
fn log_id_below<C: Ord + Copy>(id: Option<LogIdOf<C>>, other: Option<LogIdOf<C>>) -> bool
    ensures { result ≡ id_lt C.cmp id other }
{
    match (id, other) {
        (_, None) => false,
        (None, Some(_)) => true,
        (Some(id), Some(other)) => is_below(&id, &other),
    }
}

impl<C: Ord + Copy> Validate for ProgressEntryOf<C> {
    ghost broken = { λ entry. first_false (entry_relations C.cmp entry) };

    fn validate(&self) -> Result<(), Invalid> {
        if !is_below_index(self.matching, self.searching_end) {
            return Err(Invalid::MatchingPastEnd);
        }
        match self.inflight {
            InflightOf::None => Ok(()),
            InflightOf::Logs { log_id_range, .. } => {
                log_id_range.validate()?;
                if !(self.matching <= log_id_range.prev) {
                    Err(Invalid::MatchingPastPrev)
                } else if !is_below_index(log_id_range.prev, self.searching_end) {
                    Err(Invalid::PrevPastEnd)
                } else {
                    Ok(())
                }
            }
            InflightOf::Snapshot { last_log_id, .. } => {
                if self.matching < last_log_id {
                    Ok(())
                } else {
                    Err(Invalid::SnapshotNotPastMatching)
                }
            }
        }
    }
}

// Handwritten, because the text has the name `ProgressEntry` and not `ProgressEntryOf`.
impl<C: fmt::Debug> fmt::Debug for ProgressEntryOf<C> {
    fn fmt<W: fmt::Write>(&self, f: &mut fmt::Formatter<W>) -> fmt::Result {
        f.debug_struct("ProgressEntry")
            .field("matching", &self.matching)
            .field("curr_inflight_id", &self.curr_inflight_id)
            .field("inflight", &self.inflight)
            .field("searching_end", &self.searching_end)
            .finish()
    }
}

impl<C: fmt::Display + Copy> fmt::Display for ProgressEntryOf<C> {
    fn fmt<W: fmt::Write>(&self, f: &mut fmt::Formatter<W>) -> fmt::Result {
        let ProgressEntryOf {
            matching,
            inflight,
            searching_end,
            ..
        } = self;
        let matching = DisplayOption(matching);
        write!(f, "{{[{matching}, {searching_end}), inflight:{inflight}}}")
    }
}
