//! What a leader sends to the members, and what it learns from their responses.
ghost use Rattle.std.specs.Prelude.{◌≡◌, false, None, Some, IfErr, IsOk, IsTrue, OnErr, OnOk};
ghost use Rattle.std.specs.Option.{option_map};
ghost use Rattle.raft_base.specs.LogId.{id_le};
ghost use Rattle.steps_handlers.specs.Compared.{compared};
ghost use Rattle.steps_handlers.specs.Leadership.{IsFlushRefusal, WritesEntry, WritesMember, entry_of, flushed_entry, granted_by, is_leading};
ghost use Rattle.steps_handlers.specs.Responses.{SendsNext, TakesResponse, after_conflict, after_match, after_outcome, after_response, as_refused, end_after, heartbeat_to, number_after};
ghost use Rattle.steps_handlers.specs.declared.message.RequestNumber.TheVariants.{Heartbeat as HeartbeatNumber};
ghost use Rattle.raft_progress.specs.tracked.Followers.{IsResponse, member_value};
ghost use Rattle.raft_progress.specs.tracked.Tracked.{tracked_view};
ghost use Rattle.raft_progress.specs.declared.entry.ProgressEntryOf.{ProgressEntryOf};
ghost use Rattle.raft_progress.specs.declared.inflight.InflightOf.TheVariants.{None as Idle};
ghost use Rattle.raft_state.specs.raft_state.VoteAndLog.{log_view_of};
ghost use Rattle.raft_state.specs.raft_state.Valid.{none_or_logged};

use super::Leader;
use crate::error::{FlushError, ResponseError};
use crate::message::{Heartbeat, Outcome, RequestNumber, Response};
use crate::state::State;
use raft_base::{
    Instant, LeaderIdentity, LogIdOf, LogIdOptionExt, LogStateReader, Node, NodeId, log_id_below,
};
use raft_progress::{InflightError, InflightOf, Progress, ProgressEntryOf, Tracked};
use raft_state::RaftStateIn;
use raft_state::laws::sends_from_log;

impl<NID: NodeId, N: Node, C: Ord + Copy + Drop> Leader<NID, N, C> {
    /// Returns what to send to a member next, and puts it in flight: a probe, entries, or the
    /// snapshot.
    ///
    /// If 16 or more indexes are between what the member matches and the searching end, the last
    /// log id that both logs have is searched for, and no request has more than one entry. Requests
    /// whose number leaves 1 or 2 when divided by 8 are probes: they have no entries, and ask
    /// whether the member has the log id before the searching end. The others halve what is
    /// searched. So a member that has the whole log is sent none of it again, and if probes are
    /// lost, others follow.
    ///
    /// `InflightOf::None` means that there is nothing to send, that something is in flight already,
    /// or that a send is not allowed (`can_send`): send a heartbeat, which `heartbeat` returns. The
    /// result is `None` if the id is no member's.
    pub fn next_request<I: Instant, L: Drop>(
        &mut self,
        state: &RaftStateIn<NID, N, I, L, C>,
        to: &NID,
        max_entries: u64,
    ) -> Option<InflightOf<C>>
        ensures { SendsNext NID.eq C.Ord to.now (log_view_of state.now) max_entries
            self.old self.new result }
    {
        // Called for the proof alone: what is sent is from the log.
        sends_from_log::<C>();
        let sending = self.followers.next_request(to, state, max_entries);
        self.last_request = number_after(self.last_request, &sending);
        sending
    }

    /// Returns what a heartbeat to a member says, or `None` if the id is no member's. It may be sent
    /// at any time, and is not in flight.
    ///
    /// It asks whether the member has the last log id that it may have, so a member that has the
    /// whole log says so. The response counts until the next request is sent to the member.
    pub fn heartbeat<I: Instant, L: Drop>(
        &self,
        state: &RaftStateIn<NID, N, I, L, C>,
        to: &NID,
    ) -> Option<Heartbeat<C>>
        ensures { result ≡ option_map (heartbeat_to (log_view_of state.now))
            (entry_of NID.eq self.now to.now) }
    {
        match self.followers.progress().try_get(to) {
            Some(entry) => Some(Heartbeat {
                request: RequestNumber::Heartbeat(entry.curr_inflight_id),
                prev: state.prev_log_id(entry.searching_end),
            }),
            None => None,
        }
    }

    /// Takes a member's response to a request. An acknowledgement raises the member's match. A
    /// conflict lowers the end of the search for it, to where the member's log ends if that is
    /// lower. The response to a heartbeat does the same. If it raises the match, what is in flight
    /// is dropped, because the member has it.
    ///
    /// A response that is late, doubled or does not fit what is in flight is refused and changes
    /// nothing, and so is a response to another leader. A node that is elected again numbers its
    /// requests anew. So the leader id of a response, and not its number alone, says which request
    /// it answers.
    pub fn handle_response<L>(
        &mut self,
        from: &NID,
        response: &Response<L, C>,
    ) -> Result<(), ResponseError>
        ensures takes { TakesResponse NID.eq C.Ord from.now response.now self.old self.new result }
        ensures monotone { IsTrue
            (id_le C.cmp (granted_by self.old) (granted_by self.new)) }
    {
        if response.leader_id != self.leader_id {
            return Err(ResponseError::Foreign);
        }
        let Some(taken) = take_response(&mut self.followers, from, response) else {
            return Err(ResponseError::UnknownMember);
        };
        taken
    }

    /// Takes what is in flight to a member as lost, so that it is sent again. A late response to it
    /// is refused.
    pub fn give_up(&mut self, to: &NID)
        ensures unknown { entry_of NID.eq self.old to.now ≡ None → self.new ≡ self.old }
        ensures idle { (entry : ProgressEntryOf C) → entry_of NID.eq self.old to.now ≡ Some entry →
            WritesEntry NID.eq self.old to.now (record entry { inflight = Idle }) self.new }
    {
        if let Some(found) = self.followers.progress().try_get(to).copied() {
            let mut entry = found;
            entry.give_up();
            let _reply = self.followers.update(to, entry);
        }
    }
}

impl<NID: NodeId, N: Node, C: Ord + Copy + Default + Drop + 'static> Leader<NID, N, C> {
    /// Counts the leader itself like any voter, once its log is on disk up to a log id. Less than
    /// was on disk before changes nothing.
    ///
    /// The state's vote must still be the committed vote for this leader. Otherwise the node may
    /// have followed another leader since, and its log may have entries of that leader in place of
    /// its own.
    pub fn handle_flushed<I: Instant, L: LeaderIdentity<Id = NID, Committed = C> + Drop>(
        &mut self,
        state: &State<NID, N, I, L>,
        upto: Option<LogIdOf<C>>,
    ) -> Result<(), FlushError>
        ensures leads { let by = compared NID.Ord N.eq L.LeaderIdentity C.Ord in
            IsOk result → IsTrue (is_leading by self.old state.now) }
        ensures logged { OnOk result (IsTrue (none_or_logged C.eq (log_view_of state.now) upto)) }
        ensures counted { OnOk result ((entry : ProgressEntryOf C) →
            entry_of NID.eq self.old self.old.id ≡ Some entry →
            IsTrue (id_le C.cmp entry.matching upto) →
            WritesEntry NID.eq self.old self.old.id (flushed_entry upto) self.new) }
        ensures stale { (entry : ProgressEntryOf C) →
            entry_of NID.eq self.old self.old.id ≡ Some entry →
            id_le C.cmp entry.matching upto ≡ false → self.new ≡ self.old }
        ensures not_counted { entry_of NID.eq self.old self.old.id ≡ None → (x : NID) →
            entry_of NID.eq self.new x ≡ entry_of NID.eq self.old x }
        ensures members { self.new.followers.membership ≡ self.old.followers.membership }
        ensures node { self.new ≡ record self.old { followers = self.new.followers } }
        ensures refused { let by = compared NID.Ord N.eq L.LeaderIdentity C.Ord in
            IfErr result (IsFlushRefusal by self.old upto state.now) }
        ensures err { OnErr result (self.new ≡ self.old) }
        ensures monotone { IsTrue
            (id_le C.cmp (granted_by self.old) (granted_by self.new)) }
    {
        if !self.leads(state) {
            return Err(FlushError::NotLeader);
        }
        if !upto.has_next_index() {
            return Err(FlushError::NoNextIndex);
        }
        if !state.is_logged(&upto) {
            return Err(FlushError::NotLogged);
        }
        let entry = ProgressEntryOf::<C>::new(upto);
        let _reply = self.followers.update(&self.id, entry);
        Ok(())
    }
}

/// Returns the greatest number of a request, once this is sent.
fn number_after<C>(last: u64, sending: &Option<InflightOf<C>>) -> u64
    ensures { result ≡ number_after last sending.now }
{
    match sending {
        Some(InflightOf::Logs { id, .. } | InflightOf::Snapshot { id, .. }) => last.max(*id),
        _ => last,
    }
}

/// Takes a response into what is known of its sender. The result is `None` for an unknown sender.
#[inline(always)]
fn take_response<NID: NodeId, N: Node, L, C: Ord + Copy>(
    followers: &mut Tracked<NID, N, ProgressEntryOf<C>, Option<LogIdOf<C>>>,
    from: &NID,
    response: &Response<L, C>,
) -> Option<Result<(), ResponseError>>
    ensures step { IsResponse (member_value NID.eq (tracked_view followers.old) from.now)
        (λ entry. after_response C.cmp entry response.now)
        (λ next. WritesMember NID.eq (tracked_view followers.old) from.now next
        (tracked_view followers.new))
        (tracked_view followers.old) result (tracked_view followers.new) }
    ensures default { (tracked_view followers.new).progress.default_part
        ≡ (tracked_view followers.old).progress.default_part }
    ensures monotone { IsTrue (id_le C.cmp (tracked_view followers.old).progress.granted
        (tracked_view followers.new).progress.granted) }
{
    let number = match response.request {
        RequestNumber::InFlight(number) => number,
        RequestNumber::Heartbeat(number) => {
            return take_heartbeat(followers, from, number, &response.outcome);
        }
    };
    match response.outcome {
        Outcome::Matches(upto) => refuse(followers.acknowledge(from, number, upto)),
        Outcome::Conflict { index, last } => {
            refuse(take_conflict(followers, from, Some(number), index, last))
        }
        Outcome::HigherVote(_) => if_known(followers, from, Err(ResponseError::HigherVote)),
    }
}

/// Takes the response to a heartbeat with a number into what is known of its sender, unless it is
/// late. The result is `None` for an unknown sender.
// Not inlined, because most responses are to requests in flight.
#[inline(never)]
fn take_heartbeat<NID: NodeId, N: Node, L, C: Ord + Copy>(
    followers: &mut Tracked<NID, N, ProgressEntryOf<C>, Option<LogIdOf<C>>>,
    from: &NID,
    number: u64,
    outcome: &Outcome<L, C>,
) -> Option<Result<(), ResponseError>>
    ensures step { IsResponse (member_value NID.eq (tracked_view followers.old) from.now)
        (λ entry. after_outcome C.cmp entry (HeartbeatNumber number) outcome.now)
        (λ next. WritesMember NID.eq (tracked_view followers.old) from.now next
        (tracked_view followers.new))
        (tracked_view followers.old) result (tracked_view followers.new) }
    ensures default { (tracked_view followers.new).progress.default_part
        ≡ (tracked_view followers.old).progress.default_part }
    ensures monotone { IsTrue (id_le C.cmp (tracked_view followers.old).progress.granted
        (tracked_view followers.new).progress.granted) }
{
    let last = match followers.progress().try_get(from) {
        Some(entry) => entry.curr_inflight_id,
        None => return None,
    };
    match *outcome {
        Outcome::HigherVote(_) => Some(Err(ResponseError::HigherVote)),
        _ if last != number => Some(Err(ResponseError::LateHeartbeat)),
        Outcome::Matches(upto) => refuse(take_match(followers, from, upto)),
        Outcome::Conflict { index, last } => {
            refuse(take_conflict(followers, from, None, index, last))
        }
    }
}

/// Takes a match up to a log id, if it is past what is known of the member: nothing is in flight to
/// it then.
fn take_match<NID: NodeId, N: Node, C: Ord + Copy>(
    followers: &mut Tracked<NID, N, ProgressEntryOf<C>, Option<LogIdOf<C>>>,
    from: &NID,
    upto: Option<LogIdOf<C>>,
) -> Option<Result<(), InflightError>>
    ensures step { IsResponse (member_value NID.eq (tracked_view followers.old) from.now)
        (λ entry. after_match C.cmp entry upto)
        (λ next. WritesMember NID.eq (tracked_view followers.old) from.now next
        (tracked_view followers.new))
        (tracked_view followers.old) result (tracked_view followers.new) }
    ensures default { (tracked_view followers.new).progress.default_part
        ≡ (tracked_view followers.old).progress.default_part }
    ensures monotone { IsTrue (id_le C.cmp (tracked_view followers.old).progress.granted
        (tracked_view followers.new).progress.granted) }
{
    let Some(found) = followers.progress().try_get(from).copied() else {
        return None;
    };
    if !log_id_below(found.matching, upto) {
        return Some(Ok(()));
    }
    if !upto.has_next_index() {
        return Some(Err(InflightError::IndexTooLarge));
    }
    let entry = ProgressEntryOf {
        matching: upto,
        inflight: InflightOf::None,
        searching_end: found.searching_end.max(upto.next_index()),
        ..found
    };
    let _reply = followers.update(from, entry);
    Some(Ok(()))
}

/// Takes a conflict: the search ends at its index, or where the member's log ends. A hint that
/// cannot be right is dropped.
#[inline(always)]
fn take_conflict<NID: NodeId, N: Node, C: Ord + Copy>(
    followers: &mut Tracked<NID, N, ProgressEntryOf<C>, Option<LogIdOf<C>>>,
    from: &NID,
    request: Option<u64>,
    index: u64,
    last: Option<u64>,
) -> Option<Result<(), InflightError>>
    ensures step { IsResponse (member_value NID.eq (tracked_view followers.old) from.now)
        (λ entry. after_conflict entry request index last)
        (λ next. WritesMember NID.eq (tracked_view followers.old) from.now next
        (tracked_view followers.new))
        (tracked_view followers.old) result (tracked_view followers.new) }
    ensures default { (tracked_view followers.new).progress.default_part
        ≡ (tracked_view followers.old).progress.default_part }
    ensures monotone { IsTrue (id_le C.cmp (tracked_view followers.old).progress.granted
        (tracked_view followers.new).progress.granted) }
{
    let taken = followers.conflict(from, request, index);
    if let Some(Ok(())) = taken {
        let _hint = followers.conflict(from, None, end_after(last));
    }
    taken
}

/// Returns the index after the last one, at most the greatest index, and 0 for an empty log.
fn end_after(last: Option<u64>) -> u64
    ensures { result ≡ end_after last }
{
    match last {
        Some(index) => index.saturating_add(1),
        None => 0,
    }
}

/// Returns an answer to a member, and `None` for an unknown id.
#[inline(always)]
fn if_known<NID: NodeId, N: Node, C: Ord + Copy>(
    followers: &Tracked<NID, N, ProgressEntryOf<C>, Option<LogIdOf<C>>>,
    id: &NID,
    answer: Result<(), ResponseError>,
) -> Option<Result<(), ResponseError>>
    ensures { result ≡ option_map (λ entry. answer)
        (member_value NID.eq (tracked_view followers.now) id.now) }
{
    match followers.progress().try_get(id) {
        Some(_) => Some(answer),
        None => None,
    }
}

/// Returns the result with its refusal as a refusal of the leader.
#[inline(always)]
fn refuse(taken: Option<Result<(), InflightError>>) -> Option<Result<(), ResponseError>>
    ensures { result ≡ option_map as_refused taken }
{
    match taken {
        Some(Ok(())) => Some(Ok(())),
        Some(Err(refused)) => Some(Err(ResponseError::Inflight(refused))),
        None => None,
    }
}
