//! How many entries a new leader sends to a follower until both have the same log.

use crate::asserts::assert_right;
use crate::leader::{LeaderOf, Led, leader_of};
use crate::states::{Append, Entry, Id, Server, members};
use raft_base::leader_id_std::CommittedLeaderId;
use raft_base::{LogIdOf, LogIdRangeOf, LogStateReader, UTime, VoteIn};
use raft_progress::InflightOf;
use raft_state::{EntryPayload, LogIdListOf, is_key_list};
use std::alloc::{AllocError, Global};
use std::test::Fail;
use steps_handlers::{HandlerError, RequestNumber, handle_append_entries};
use tests_support::memory::both_made;

/// The first log id of each leader in a log, and the last log id.
type Keys = &'static [(u64, u64)];

/// The log of the leader before its own entry: 990 entries of term 1, and ten of term 3, of which
/// the last one has a membership.
const LOG: Keys = &[(1, 0), (3, 990), (3, 998)];

/// Followers, their logs, and how many entries the leader sends to them at most.
const ROWS: &[(&str, Keys, u64)] = &[
    ("it is up to date", &[(1, 0), (3, 990), (3, 999)], 1),
    ("it lacks the last ten entries", &[(1, 0), (1, 989)], 12),
    ("ten of another leader", &[(1, 0), (2, 990), (2, 999)], 80),
    ("it has no entries", &[], 1010),
];

/// A server with the committed vote for node 1 in a term, and with this log.
fn server(alloc: Global, term: u64, rows: Keys) -> Result<Server, AllocError> {
    let mut keys = Vec::new(alloc);
    for (term, index) in rows {
        keys.push(LogIdOf::new(CommittedLeaderId { term: *term }, *index))?;
    }
    let mut state = Server::try_default(alloc)?;
    state.vote = UTime::without_utime(VoteIn::new_committed(term, 1));
    if is_key_list(&keys) {
        state.log_ids = LogIdListOf::new(keys);
    }
    Ok(state)
}

/// The entry (3, 999), which has a membership.
fn last_entry(alloc: Global) -> Result<Vec<Entry>, AllocError> {
    let payload = EntryPayload::Membership(members(alloc)?);
    let log_id = LogIdOf::new(CommittedLeaderId { term: 3 }, 999);
    let mut entries = Vec::new(alloc);
    entries.extend(Some(Entry { log_id, payload }))?;
    Ok(entries)
}

/// Appends entries to the log of a leader that has not begun yet, and makes it the leader.
fn append_and_lead(state: &mut Server, entries: &[Entry]) -> Result<LeaderOf, HandlerError> {
    if state.can_append_entries(entries) {
        state.append_entries(entries)?;
    }
    leader_of(state)
}

/// The leader 1 of term 4, which has an entry of its own on disk.
fn new_leader(alloc: Global) -> Result<Led, HandlerError> {
    let (mut state, entries) = both_made(server(alloc, 4, LOG), last_entry(alloc))?;
    let leader = append_and_lead(&mut state, &entries)?;
    Ok(Led { state, leader })
}

/// The index after a log id.
fn end(log_id: Id) -> u64 {
    log_id.map_or(0, |found| found.index.saturating_add(1))
}

impl Led {
    /// The request that has the entries of a range.
    fn append(
        &self,
        number: u64,
        range: LogIdRangeOf<CommittedLeaderId>,
        alloc: Global,
    ) -> Result<Append, AllocError> {
        let mut entries = Vec::new(alloc);
        for index in end(range.prev)..end(range.last) {
            if let Some(log_id) = self.state.get_log_id(index) {
                let payload = EntryPayload::Blank;
                entries.push(Entry { log_id, payload })?;
            }
        }
        Ok(Append {
            leader_id: self.state.vote.get().leader_id,
            request: RequestNumber::InFlight(number),
            prev: range.prev,
            entries,
            committed: None,
        })
    }

    /// Sends to node 2 until there is nothing to send. Returns how many entries were sent.
    fn send_all(&mut self, follower: &mut Server, alloc: Global) -> Result<u64, HandlerError> {
        let mut sent = 0u64;
        for _ in 0..100 {
            let Some(InflightOf::Logs { id, log_id_range }) = self.send(2) else {
                return Ok(sent);
            };
            let request = self.append(id, log_id_range, alloc)?;
            sent = sent.saturating_add(request.entries.len() as u64);
            let (response, _changes) = handle_append_entries(follower, &request)?;
            self.leader.handle_response(&2, &response)?;
        }
        Ok(sent)
    }

    /// Sends to node 2 so. Returns how many entries were sent, if both have the same log then.
    fn catch_up(
        &mut self,
        follower: &mut Server,
        alloc: Global,
    ) -> Result<Option<u64>, HandlerError> {
        let sent = self.send_all(follower, alloc)?;
        let is_same = follower.last_log_id() == self.state.last_log_id();
        Ok((is_same && follower.is_sound()).then_some(sent))
    }
}

/// Returns how many entries a new leader sends to a follower, if both have the same log then.
fn entries_sent(alloc: Global, rows: Keys) -> Result<Option<u64>, HandlerError> {
    let mut led = new_leader(alloc)?;
    let mut follower = server(alloc, 1, rows)?;
    led.catch_up(&mut follower, alloc)
}

/// Returns the name of the first follower that is sent too many entries.
fn fails(alloc: Global) -> Result<Option<&'static str>, HandlerError> {
    for (name, rows, most) in ROWS {
        match entries_sent(alloc, rows)? {
            Some(sent) if sent <= *most => (),
            _ => return Ok(Some(*name)),
        }
    }
    Ok(None)
}

#[test]
fn a_new_leader_sends_few_entries_again(rt: HostRuntime) -> Result<(), Fail> {
    assert_right(&rt, "the followers", fails(rt.alloc())?);
    Ok(())
}
