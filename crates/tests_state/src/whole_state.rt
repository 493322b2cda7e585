//! A whole state (`raft_state.rt`), and callers over any kind of leader ids: one commits what is
//! granted, one finds what a follower lacks.
ghost use Rattle.raft_base.specs.LogId.{id_le, id_lt};
ghost use Rattle.raft_base.specs.LogView.{has_id, may_ask};
ghost use Rattle.raft_progress.specs.progress.VecProgress.{view};
ghost use Rattle.raft_state.specs.raft_state.Commit.{state_after_commit};
ghost use Rattle.raft_state.specs.log_id_list.FullLog.{full_log};
ghost use Rattle.raft_state.specs.log_id_list.LogReads.{last_id};
ghost use Rattle.raft_state.specs.raft_state.VoteAndLog.{log_view_of};
ghost use Rattle.raft_state.specs.raft_state.Valid.{broken_relation};
ghost use Rattle.std.specs.List.{list_all};
ghost use Rattle.std.specs.Prelude.{◌≡◌, IfOk, IfSome, IsTrue, None, OnErr, false, slice_get};

use crate::laws::send;
use crate::support::asserts::assert_row;
use crate::support::rows::{Row, id};
use crate::support::states::{DefaultState, StandardState, State, VALID, fill, state};
use raft_base::order::log_id_at_most;
use raft_base::{
    Instant, LeaderId, LeaderIdentity, LogId, LogIdRangeOf, LogStateReader, Node, NodeId,
    RaftLogId, ServerState, UTime, Validate, VoteIn, leader_id_std,
};
use raft_members::quorum::QuorumSet;
use raft_progress::{InflightOf, Progress, ProgressEntryOf};
use raft_state::{FollowersOf, ForwardToLeader, RaftStateIn};
use std::alloc::{AllocError, Global};
use std::test::Fail;
use tests_support::allocations::is_free_on;
use tests_support::memory::{equals, is_yes, with_made};
use tests_support::plain_log::Numbered;
use tests_support::printing::debugs;
use tests_support::words::{number, words};

/// A leader with a valid state commits what a quorum of its followers has, if that is in its log
/// and more than is committed.
fn commit_granted<
    NID: NodeId,
    N: Node,
    I: Instant,
    L: Drop,
    C: Ord + Copy + Drop,
    QS: QuorumSet<NID>,
>(
    state: &mut RaftStateIn<NID, N, I, L, C>,
    followers: &FollowersOf<C, NID, QS>,
) -> Result<bool, AllocError>
    ensures valid { IfOk result (λ more. IsTrue more → broken_relation C.cmp state.old ≡ None) }
    ensures in_log { IfOk result (λ more. IsTrue more → IsTrue (id_le C.cmp
        (view followers.now).granted (last_id (full_log state.old.log_ids)))) }
    ensures committed { IfOk result (λ more. IsTrue more →
        state.new ≡ state_after_commit C.cmp (view followers.now).granted state.old) }
    ensures greater { IfOk result (λ more. IsTrue more →
        IsTrue (id_lt C.cmp state.old.committed state.new.committed)) }
    ensures stays_valid { broken_relation C.cmp state.old ≡ None →
        broken_relation C.cmp state.new ≡ None }
    ensures kept { IfOk result (λ more. more ≡ false → state.new ≡ state.old) }
    ensures err { OnErr result (state.new ≡ state.old) }
{
    let granted = *followers.granted();
    if state.validate().is_err()
        || !log_id_at_most(granted, state.last_log_id().copied())
        || !state.can_commit(&granted)
    {
        return Ok(false);
    }
    let before = state.update_committed(&granted)?;
    Ok(before.is_some())
}

/// A follower takes of a leader's entries those that its log does not have.
fn lacking<'a, NID: NodeId, N: Node, I: Instant, L: Drop, C: Ord + Copy + Drop, Ent: RaftLogId<C>>(
    state: &RaftStateIn<NID, N, I, L, C>,
    entries: &'a [Ent],
) -> &'a [Ent]
    requires { IsTrue (list_all (λ e. may_ask C.cmp (log_view_of state.now) (Ent.id_of e))
        entries.now) }
    ensures { IfSome (slice_get result.now 0)
        (λ e. has_id C.eq (log_view_of state.now) (Ent.id_of e) ≡ false) }
{
    let place = state.first_conflicting_index(entries);
    &entries[place..]
}

/// Rows of states, whose log is (1,1) to (1,3) and (3,4), and what their validation says.
const RELATIONS: &str = "2 1.1 1.1 - - - ok; 3 1.1 1.1 - - - PurgedNext; 2 3.0 3.4 - - - ok";

/// Whether the state of a row is found valid, or its first broken relation has the row's name.
pub fn validates(alloc: Global, state: &DefaultState, row: &str) -> bool {
    let [_, _, _, _, _, _, name, ..] = words(row);
    match state.validate() {
        Ok(()) => name == "ok",
        Err(broken) => debugs(alloc, &broken, name),
    }
}

/// Rows of valid states, and whether a state is sound, and its log has the purge point and what is
/// committed.
const SOUND: [(&str, [bool; 3]); 4] = [
    (VALID, [true, true, true]),
    ("2 3.0 3.4 - - -", [false, false, true]),
    ("2 3.0 3.0 - - -", [false, false, false]),
    ("2 1.1 3.4 - 1.1 3.4", [false, true, true]),
];

/// Whether the state of a row is valid, and as sound as its row says.
fn is_sound_as(state: &DefaultState, want: [bool; 3]) -> bool {
    let are_right = [
        state.is_sound(),
        state.purge_upto_is_logged(),
        state.committed_is_logged(),
    ];
    are_right == want && state.validate() == Ok(())
}

/// The first log id of the valid state's log, and its last one.
const FIRST: Row = Some((1, 1));

const LAST: Row = Some((3, 4));

/// Whether the valid state reads as it should, and equals itself.
fn reads_right(state: &mut DefaultState) -> bool {
    let are_right = [
        state.get_log_id(2) == id(Some((1, 2))),
        state.prev_log_id(5) == id(LAST),
        state.last_log_id().copied() == id(LAST),
        state.last_purged_log_id().copied() == id(FIRST),
        state.is_purged_or_logged(&id(LAST)),
        state.validate() == Ok(()),
        *state == *state,
    ];
    are_right == [true; 7]
}

/// Whether a state is another one than a new state.
fn is_not_new(alloc: Global, state: &DefaultState) -> Result<bool, AllocError> {
    let new = DefaultState::try_default(alloc)?;
    Ok(*state != new)
}

/// Whether a state has as many entries as wanted before the first one that it lacks.
pub fn has_before(
    state: &DefaultState,
    entries: Result<Vec<LogId<u64>>, AllocError>,
    want: &str,
) -> Result<bool, AllocError> {
    let entries = &entries?;
    if !state.can_ask_all(entries) {
        return Ok(false);
    }
    let lacking = lacking(state, entries).len() as u64;
    Ok(entries.len() as u64 == lacking.saturating_add(number(want)))
}

/// Whether the valid state commits its last log id once.
fn commits(state: &mut DefaultState) -> bool {
    let last = id(LAST);
    state.can_commit(&last)
        && state.update_committed(&last) == Ok(Some(id(FIRST)))
        && state.can_commit(&last)
        && state.update_committed(&last) == Ok(None)
}

/// Whether a state whose voters are 1 and 2, and whose node 3 is a learner, leads with a committed
/// vote: requests are forwarded to this node with what it is, the node 1 is a follower, and the node
/// 3 has this role.
fn leads_with<
    L: LeaderIdentity<Id = u64, Committed = C> + Drop,
    C: Numbered + Default + Drop + 'static,
>(
    state: &mut State<L, C>,
    leader_id: L,
    (node_id, leader_node): (Option<u64>, Option<u64>),
    role: ServerState,
) -> bool {
    let committed = true;
    state.vote = UTime::without_utime(VoteIn {
        leader_id,
        committed,
    });
    let forward = ForwardToLeader {
        leader_id: node_id,
        leader_node,
    };
    equals(state.forward_to_leader(), &forward)
        && state.calc_server_state(&1) == ServerState::Follower
        && state.calc_server_state(&3) == role
}

/// Whether the valid state leads with a vote for the node 3, and with one for no member.
fn leads(state: &mut DefaultState) -> bool {
    let to = (Some(3), Some(6));
    leads_with(state, LeaderId::new(1, 3), to, ServerState::Leader)
        && leads_with(
            state,
            LeaderId::new(1, 9),
            (None, None),
            ServerState::Learner,
        )
}

/// Whether a committed vote of term 1 for nobody leads no one.
fn nobody_leads(alloc: Global, state: &mut StandardState) -> Result<bool, AllocError> {
    fill(alloc, state, VALID)?;
    let leader_id = leader_id_std::LeaderId {
        term: 1,
        voted_for: None,
    };
    Ok(leads_with(state, leader_id, (None, None), ServerState::Learner))
}

/// Example state 3. Keys (1, 1), (3, 4), the valid state; `purged_next` 3; purge point (3, 0),
/// and (3, 0) committed too, which is valid and not in the log.
#[test]
fn a_state_validates_and_is_sound(rt: HostRuntime) -> Result<(), Fail> {
    for row in RELATIONS.split(';') {
        let made = state(rt.alloc(), row);
        let is_right = with_made(made, |state| Ok(validates(rt.alloc(), state, row)));
        assert_row(&rt, row, is_yes(is_right));
    }
    for (row, want) in &SOUND {
        let made = state(rt.alloc(), row);
        let is_right = with_made(made, |state| Ok(is_sound_as(state, *want)));
        assert_row(&rt, row, is_yes(is_right));
    }
    Ok(())
}

/// Example state 4. Vote (1, 3) committed, voters {1, 2}, nodes 1 => 4, 2 => 5, 3 => 6:
/// requests are forwarded to node 3 at 6. A standard vote for nobody forwards them to nobody.
#[test]
fn a_state_reads_and_leads(rt: HostRuntime) -> Result<(), Fail> {
    let alloc = rt.alloc();
    let name = "RaftState::{validate, eq}, get_log_id and other reads";
    assert!(rt; is_free_on(&rt, alloc, name, state(alloc, VALID), reads_right)?);
    assert!(rt; with_made(state(alloc, VALID), |state| is_not_new(alloc, state))?);
    let name = "RaftState::update_committed";
    assert!(rt; is_free_on(&rt, alloc, name, state(alloc, VALID), commits)?);
    assert!(rt;
        with_made(
            state(alloc, VALID),
            |state| Ok::<_, AllocError>(leads(state))
        )?
    );
    let standard = StandardState::try_default(alloc);
    assert!(rt; with_made(standard, |state| nobody_leads(alloc, state))?);
    Ok(())
}

/// Whether a send, the conflict that answers it and the next send lead where they should.
fn sends_right(state: &DefaultState) -> bool {
    let mut follower = ProgressEntryOf::empty(5);
    let is_sent = send(state, &mut follower, 10);
    let log_id_range = LogIdRangeOf::new(id(FIRST), id(LAST));
    let are_logs = follower.inflight
        == InflightOf::Logs {
            id: 1,
            log_id_range,
        };
    let is_taken = follower.update_conflicting(Some(1), 1).is_ok() && follower.searching_end == 1;
    let is_sent_again = send(state, &mut follower, 10);
    let last_log_id = None;
    let is_snapshot = follower.inflight == InflightOf::Snapshot { id: 2, last_log_id };
    is_sent && are_logs && is_taken && is_sent_again && is_snapshot
}

/// Example state 6. The valid state sends logs from (1, 1) to (3, 4), takes the conflict at 1,
/// and sends an absent snapshot.
#[test]
fn a_leader_sends(rt: HostRuntime) -> Result<(), Fail> {
    let is_right = with_made(state(rt.alloc(), VALID), |state| Ok(sends_right(state)));
    assert_row(&rt, "sends", is_yes(is_right));
    Ok(())
}
