//! Short lives of one state, compared after each call with a plain list of its log ids and a scan
//! of its memberships.

use crate::laws::purge_to;
use crate::support::asserts::assert_right;
use crate::support::rows::{Row, id, row};
use crate::support::states::{DefaultState as State, NEW, follower};
use raft_base::{LogId, LogStateReader};
use raft_members::{Membership, StoredMembership};
use raft_state::{EntryPayload, SnapshotMeta, is_key_list};
use std::alloc::{AllocError, Global};
use std::collections::{BTreeMap, BTreeSet};
use std::test::Fail;
use tests_support::memory::both_made;
use tests_support::words::{log_ids, number, words};

type Entry = raft_state::Entry<u64, u64, u64>;

type Snapshot = SnapshotMeta<u64, u64>;

/// The lives: a line has a name and the calls in turn, with a `;` between. Each begins with a new
/// state that has the committed vote of leader 9.
///
/// A call has whether it may be made, its name, and words: log ids by leader and index, and for
/// each membership its log id and its one voter behind a `:`, by whom it is known. An entry without
/// a voter is blank.
const LIVES: &str = "
entries with several memberships are committed in turn: ok append 1.0:7,1.1,1.2:8,1.3; \
    ok commit 1.1; no commit 1.1; ok commit 1.2; ok append 2.4,2.5:9; no truncate 2; \
    ok truncate 5; ok append 3.5
indexes that are missing are refused: no append 1.2; ok append 1.0:7,1.1; no append 1.3; \
    no append 1.1; no append 1.2,1.4; no commit 2.1; ok append 1.2
entries of many leaders are truncated: ok append 1.0,1.1,2.2,2.3; \
    ok append 3.4,4.5,5.6,6.7,7.8,7.9,8.10; ok append 9.11; ok truncate 10; ok truncate 9; \
    ok truncate 3; ok append 4.3,5.4; ok commit 5.4; no truncate 4
a snapshot that the log has leaves what is past it: ok append 1.0:7,1.1,1.2:8,1.3,1.4:9,1.5; \
    ok install 1.3 1.2:8; ok truncate 4; ok append 2.4:6; ok commit 2.4
a snapshot with the effective membership commits it: ok append 1.0:7,1.1,1.2:8,1.3; \
    ok install 1.2 1.2:8
a snapshot before the effective membership commits its own: ok append 1.0:7,1.1,1.2,1.3:8; \
    ok install 1.2 1.1:5
a snapshot before a committed membership leaves both memberships: \
    ok append 1.0:7,1.1,1.2:8,1.3,1.4:9; ok install 1.1 1.0:7; ok commit 1.4
a snapshot that the log does not have takes the place of all: ok append 1.0:7,1.1:8,1.2; \
    no install 2.6 -:5; no install 2.6 0.5:5; no install 2.6 2.7:5; \
    no install 2.18446744073709551615 1.1:8; ok install 2.6 1.1:8; no install 2.6 1.1:8; \
    ok append 2.7
a snapshot takes the place of a log that conflicts with it: ok append 3.0:7,3.1,3.2,3.3:8; \
    no install 2.1 2.1:5; ok install 4.1 3.0:7; ok append 4.2
";

/// The log id of an entry or of a membership, and its voter, or 0 if there is none.
fn member(word: &str) -> (Row, u64) {
    match word.split_once(':') {
        Some((at, voter)) => (row(at), number(voter)),
        None => (row(word), 0),
    }
}

/// Keeps the entries whose index is below another one, or those that are not.
fn keep(entries: &mut Vec<(Row, u64)>, below: bool, index: u64) {
    entries.retain(|entry| starts_before(entry.0, index) == below);
}

/// What a state has to hold. An entry is a log id and the voter of its membership, or 0.
#[derive(Drop)]
pub struct Plain {
    /// The entries, from the one of the last snapshot on.
    log: Vec<(Row, u64)>,
    /// The entries with a membership: the one of the last snapshot, and those in the log.
    members: Vec<(Row, u64)>,
    /// How many of these memberships are not known to be committed.
    pending: usize,
    committed: Row,
}

impl Plain {
    /// Nothing.
    pub fn new(alloc: Global) -> Result<Self, AllocError> {
        Ok(Plain {
            log: Vec::new(alloc),
            members: vec![in alloc; (None, 0)]?,
            pending: 0,
            committed: None,
        })
    }

    /// The last log id.
    fn last(&self) -> Row {
        match self.log.last() {
            Some(entry) => entry.0,
            None => None,
        }
    }

    fn append(&mut self, entries: &str) -> Result<(), AllocError> {
        for word in entries.split(',') {
            let entry = member(word);
            self.log.push(entry)?;
            if entry.1 != 0 {
                self.members.push(entry)?;
                self.pending = 1;
            }
        }
        Ok(())
    }

    fn truncate(&mut self, since: u64) {
        keep(&mut self.log, true, since);
        let before = self.members.len();
        keep(&mut self.members, true, since);
        if self.members.len() < before {
            self.pending = 0;
        }
    }

    fn commit(&mut self, upto: Row) {
        self.committed = upto;
        if self.member(0).0 <= self.committed {
            self.pending = 0;
        }
    }

    /// Installs a snapshot up to a log id, with a membership at a log id and its voter.
    fn install(&mut self, upto: (u64, u64), members: (Row, u64)) -> Result<(), AllocError> {
        let last = Some(upto);
        if self.at(upto.1) == last {
            keep(&mut self.log, false, upto.1);
            keep(&mut self.members, false, upto.1.saturating_add(1));
        } else {
            self.log.clear();
            self.log.push((last, 0))?;
            self.members.clear();
        }
        self.pending = self.pending.min(self.members.len());
        self.members.insert(0, members)?;
        self.committed = last;
        Ok(())
    }

    /// The log id at an index.
    fn at(&self, index: u64) -> Row {
        for (at, _) in &self.log {
            if starts_before(*at, index.saturating_add(1)) && !starts_before(*at, index) {
                return *at;
            }
        }
        None
    }

    /// The last membership, or the one before those that are not known to be committed.
    fn member(&self, pending: usize) -> (Row, u64) {
        let place = self.members.len().saturating_sub(1).saturating_sub(pending);
        self.members.get(place).copied().unwrap_or((None, 0))
    }

    /// Makes a call of a name with its words.
    fn make(&mut self, name: &str, first: &str, second: &str) -> Result<(), AllocError> {
        let upto = row(first);
        match name {
            "append" => self.append(first)?,
            "truncate" => self.truncate(number(first)),
            "commit" => self.commit(upto),
            "install" => self.install(upto.unwrap_or((0, 0)), member(second))?,
            _ => {}
        }
        Ok(())
    }

    /// Whether a state has this log, these memberships and these log ids, and is sound.
    fn is_of(&self, state: &State) -> bool {
        let memberships = &state.membership_state;
        let (last, known) = (self.member(0), self.member(self.pending));
        let are_right = [
            self.has_log_of(state),
            state.committed == id(self.committed),
            *memberships.effective().log_id() == id(last.0),
            *memberships.committed().log_id() == id(known.0),
            memberships.effective().is_voter(&last.1) == (last.1 != 0),
            memberships.committed().is_voter(&known.1) == (known.1 != 0),
            is_key_list(state.log_ids.key_log_ids()),
            state.is_sound(),
        ];
        !are_right.contains(&false)
    }

    /// Whether a state reads this log at each index.
    fn has_log_of(&self, state: &State) -> bool {
        for index in 0..13 {
            if state.get_log_id(index) != id(self.at(index)) {
                return false;
            }
        }
        state.last_log_id().copied() == id(self.last())
    }
}

/// Whether a row is absent, or its index is below another one.
fn starts_before(row: Row, index: u64) -> bool {
    match row {
        None => true,
        Some(row) => row.1 < index,
    }
}

/// The membership of one voter, whose node is 0.
fn of_voter(alloc: Global, voter: u64) -> Result<Membership<u64, u64>, AllocError> {
    let voters: BTreeSet<u64> = [voter].iter().copied().collect(alloc)?;
    Membership::new_unchecked(vec![in alloc; voters]?, BTreeMap::new(alloc))
}

/// The entries of a word.
fn entries(alloc: Global, word: &str) -> Result<Vec<Entry>, AllocError> {
    let mut entries = Vec::new(alloc);
    for entry in word.split(',') {
        let (at, voter) = member(entry);
        let payload = if voter == 0 {
            EntryPayload::Blank
        } else {
            EntryPayload::Membership(of_voter(alloc, voter)?)
        };
        if let Some(log_id) = id(at) {
            entries.extend(Some(Entry { log_id, payload }))?;
        }
    }
    Ok(entries)
}

/// The snapshot up to a log id, with a membership by its word.
fn snapshot(alloc: Global, upto: Row, member_word: &str) -> Result<Snapshot, AllocError> {
    let (at, voter) = member(member_word);
    let members = of_voter(alloc, voter)?;
    Ok(SnapshotMeta {
        last_log_id: id(upto),
        last_membership: StoredMembership::new(id(at), members),
        snapshot_id: String::new(alloc),
    })
}

// A value that may have been refused is handed on as it is, so that the callers, which own nothing,
// have one exit path.

/// Appends entries, if that may be.
pub fn append(
    state: &mut State,
    entries: Result<Vec<Entry>, AllocError>,
) -> Result<bool, AllocError> {
    let entries = &entries?;
    let may = state.can_append_entries(entries);
    if may {
        state.append_entries(entries)?;
    }
    Ok(may)
}

/// Appends log ids, of one leader or of several, if that may be.
pub fn extend(
    state: &mut State,
    ids: Result<Vec<LogId<u64>>, AllocError>,
) -> Result<bool, AllocError> {
    let ids = &ids?;
    if state.log_ids.can_extend_from_same_leader(ids) {
        state.extend_log_ids_from_same_leader(ids)?;
    } else if state.log_ids.can_extend(ids) {
        state.extend_log_ids(ids)?;
    } else {
        return Ok(false);
    }
    Ok(true)
}

/// Installs a snapshot, if that may be.
pub fn install(
    state: &mut State,
    snapshot: Result<Snapshot, AllocError>,
) -> Result<bool, AllocError> {
    let snapshot = snapshot?;
    if !state.can_install_snapshot(&snapshot) {
        return Ok(false);
    }
    state.install_snapshot(snapshot)?;
    Ok(true)
}

/// Truncates the log, if that may be, and answers whether that is told of the effective membership.
fn truncate(state: &mut State, since: u64) -> Result<bool, AllocError> {
    if !state.can_truncate_log(since) {
        return Ok(false);
    }
    let before = *state.membership_state.effective().log_id();
    let is_reverted = state.truncate_log(since)?;
    Ok(is_reverted == (*state.membership_state.effective().log_id() != before))
}

/// Commits a log id that the log has, if that may be, and answers whether that is more than before.
fn commit(state: &mut State, upto: Option<LogId<u64>>) -> Result<bool, AllocError> {
    let committed = state.committed;
    if !state.is_logged(&upto) || !state.can_commit(&upto) {
        return Ok(false);
    }
    Ok(state.update_committed(&upto)? == Some(committed))
}

/// Purges, if that may be.
pub fn purge(state: &mut State, upto: &LogId<u64>) -> Result<bool, AllocError> {
    if !state.can_purge_log(upto) {
        return Ok(false);
    }
    purge_to(state, upto)?;
    Ok(true)
}

/// Makes a call of a state, if that may be.
pub fn make(
    alloc: Global,
    state: &mut State,
    [name, first, second]: [&str; 3],
) -> Result<bool, AllocError> {
    let upto = row(first);
    match (name, id(upto)) {
        ("append", _) => append(state, entries(alloc, first)),
        ("extend", _) => extend(state, log_ids(alloc, first)),
        ("truncate", _) => truncate(state, number(first)),
        ("commit", upto) => commit(state, upto),
        ("install", _) => install(state, snapshot(alloc, upto, second)),
        ("purge", Some(upto)) => purge(state, &upto),
        _ => Ok(false),
    }
}

/// Makes the calls of a life. Returns the first one that is wrong, or after which the state is not
/// what it has to be.
fn wrong_call<'a>(
    alloc: Global,
    (state, plain): &mut (State, Plain),
    calls: &'a str,
) -> Result<Option<&'a str>, AllocError> {
    for call in calls.split(';') {
        let [may, name, first, second, ..] = words(call);
        let is_made = make(alloc, state, [name, first, second])?;
        if is_made {
            plain.make(name, first, second)?;
        }
        if is_made != (may == "ok") || !plain.is_of(state) {
            return Ok(Some(call));
        }
    }
    Ok(None)
}

/// Returns the first call of a life that is wrong, if there is one.
fn wrong_in_life(alloc: Global, calls: &str) -> Result<Option<&str>, AllocError> {
    let mut begun = both_made(follower(alloc, NEW), Plain::new(alloc))?;
    wrong_call(alloc, &mut begun, calls)
}

#[test]
fn states_live_as_plain_lists_do(rt: HostRuntime) -> Result<(), Fail> {
    let alloc = rt.alloc();
    for life in LIVES.trim().lines() {
        let (title, calls) = life.split_once(':').unwrap_or((life, ""));
        let wrong = wrong_in_life(alloc, calls);
        assert_right(&rt, title, wrong.unwrap_or(Some("out of memory")));
    }
    Ok(())
}
