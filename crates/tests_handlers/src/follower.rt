//! Requests to a voter and a follower, the start of a cluster, and a restart.

use crate::asserts::assert_right;
use crate::states::{Append, Disk, Entry, Id, Server, at, members, request, server, snapshot};
use raft_base::leader_id_std::{CommittedLeaderId, LeaderId};
use raft_base::{EmptyNode, LeaderAdv, LeaderKind, LeaderStd, LogStateReader, VoteIn, VoteOf};
use raft_state::VoteStateReader;
use std::alloc::{AllocError, Global};
use std::test::Fail;
use steps_handlers::{
    AppendError, Changes, HandlerError, InstallSnapshot, Outcome, SnapshotChanges, SnapshotError,
    StartError, State, VoteRequest, handle_append_entries, handle_install_snapshot,
    handle_vote_request, restart_server, start_cluster,
};
use tests_support::facts::first_wrong;

type Answer = Outcome<LeaderId<u64>, CommittedLeaderId>;

/// What a follower answers to a request to append entries, and what has changed.
fn append(
    state: &mut Server,
    request: Result<Append, AllocError>,
) -> Result<(Answer, Changes<CommittedLeaderId>), AppendError> {
    let (response, changes) = handle_append_entries(state, &request?)?;
    Ok((response.outcome, changes))
}

/// Returns the name of the first request to append entries that is answered in another way.
fn wrong_append(state: &mut Server, alloc: Global) -> Option<&'static str> {
    let none = Changes::none();
    let truncated = Changes {
        log_from: Some(3),
        ..none
    };
    let all = Changes {
        vote: true,
        log_from: Some(3),
        committed: at(4, 3),
    };
    let higher = Outcome::HigherVote(VoteIn::new_committed(3, 1));
    let matching = Outcome::Matches(at(4, 3));
    let conflict = Outcome::Conflict {
        index: 3,
        last: Some(2),
    };
    let earlier = append(state, request(alloc, 2, at(2, 3), &[(2, 4)], None));
    let gap = append(state, request(alloc, 3, at(2, 3), &[(3, 5)], None));
    let foreign = append(state, request(alloc, 3, at(3, 3), &[], None));
    let new = append(state, request(alloc, 4, at(2, 2), &[(4, 3)], at(4, 9)));
    first_wrong(&[
        ("an earlier leader", earlier == Ok((higher, none))),
        ("a gap", gap == Err(AppendError::NotInOrder)),
        ("another prev", foreign == Ok((conflict, truncated))),
        ("a later leader", new == Ok((matching, all))),
        ("the last log id", state.last_log_id().copied() == at(4, 3)),
    ])
}

/// What a follower answers to a request to install the snapshot up to a log id, and what has
/// changed.
fn install(
    state: &mut Server,
    alloc: Global,
    upto: Id,
) -> Result<(Answer, SnapshotChanges), SnapshotError> {
    let request = InstallSnapshot {
        leader_id: LeaderId::new(3, 1),
        request: 7,
        meta: snapshot(alloc, upto)?,
    };
    let (response, changes) = handle_install_snapshot(state, &request)?;
    Ok((response.outcome, changes))
}

/// Returns the name of the first request to install a snapshot that is answered in another way.
fn wrong_install(state: &mut Server, alloc: Global) -> Option<&'static str> {
    let nothing = SnapshotChanges {
        vote: false,
        installed: false,
        drops_log: false,
    };
    let all = SnapshotChanges {
        installed: true,
        drops_log: true,
        ..nothing
    };
    let known = (Outcome::Matches(at(1, 1)), nothing);
    let taken = (Outcome::Matches(at(3, 9)), all);
    let old = install(state, alloc, at(1, 1));
    let last = install(state, alloc, at(3, u64::MAX));
    let new = install(state, alloc, at(3, 9));
    first_wrong(&[
        ("all of it is committed", old == Ok(known)),
        (
            "no index is after it",
            last == Err(SnapshotError::DoesNotFit),
        ),
        ("it is past the log", new == Ok(taken)),
        ("the last log id", state.last_log_id().copied() == at(3, 9)),
    ])
}

/// Whether a voter grants a vote of term 4 to a node, whose log ends with a log id.
pub fn grants(state: &mut Server, node: u64, last_log_id: Id) -> bool {
    let vote = VoteIn::new(4, node);
    handle_vote_request(state, &VoteRequest { vote, last_log_id }).granted
}

/// Returns the name of the first request for a vote that is answered in another way.
fn wrong_vote(state: &mut Server) -> Option<&'static str> {
    first_wrong(&[
        ("a shorter log", !grants(state, 2, at(2, 2))),
        ("a log as long", grants(state, 2, at(2, 3))),
        ("the vote", *state.vote_ref() == VoteIn::new(4, 2)),
    ])
}

/// Returns the name of the first fact that is wrong after a restart: the vote and the log are those
/// of the disk, and what the disk knows to be committed is committed.
fn wrong_restart(state: &Server) -> Option<&'static str> {
    first_wrong(&[
        ("the vote", *state.vote_ref() == VoteIn::new_committed(3, 1)),
        ("the last log id", state.last_log_id().copied() == at(2, 3)),
        ("the committed log id", state.committed == at(1, 1)),
        ("a voter", state.is_voter(&2)),
        ("sound", state.is_sound()),
    ])
}

/// What a server is asked.
#[derive(Clone, Copy)]
enum Asked {
    Append,
    Install,
    Vote,
    Restart,
}

/// Returns the name of the first fact that is wrong with what a server is asked.
fn wrong(alloc: Global, asked: Asked) -> Result<Option<&'static str>, AllocError> {
    let mut state = server(alloc)?;
    Ok(match asked {
        Asked::Append => wrong_append(&mut state, alloc),
        Asked::Install => wrong_install(&mut state, alloc),
        Asked::Vote => wrong_vote(&mut state),
        Asked::Restart => wrong_restart(&state),
    })
}

#[test]
fn requests_are_answered(rt: HostRuntime) -> Result<(), Fail> {
    let alloc = rt.alloc();
    assert_right(&rt, "entries", wrong(alloc, Asked::Append)?);
    assert_right(&rt, "a snapshot", wrong(alloc, Asked::Install)?);
    assert_right(&rt, "a vote", wrong(alloc, Asked::Vote)?);
    assert_right(&rt, "a restart", wrong(alloc, Asked::Restart)?);
    Ok(())
}

/// Whether a voter grants its vote to two nodes in one term.
fn grants_twice<K: LeaderKind<u64>>(alloc: Global) -> Result<bool, AllocError> {
    let mut state = State::<u64, EmptyNode, u64, K::Leader>::try_default(alloc)?;
    let mut granted = true;
    for node in [2, 3] {
        let request = VoteRequest {
            vote: VoteOf::<u64, K>::new(4, node),
            last_log_id: None,
        };
        granted &= handle_vote_request(&mut state, &request).granted;
    }
    Ok(granted)
}

/// Two leaders of a term are compared by their nodes at openraft's default leader ids alone.
#[test]
fn votes_in_one_term(rt: HostRuntime) -> Result<(), Fail> {
    assert!(rt; grants_twice::<LeaderAdv>(rt.alloc())?);
    assert!(rt; !grants_twice::<LeaderStd>(rt.alloc())?);
    Ok(())
}

/// Starts the cluster of the nodes 1, 2 and 3, and returns the number of entries.
fn start(state: &mut Server, alloc: Global) -> Result<usize, StartError> {
    let entries: Vec<Entry> = start_cluster(state, &1, members(alloc)?)?;
    Ok(entries.len())
}

/// Whether a server whose disk has nothing starts a cluster, once.
fn starts_once(alloc: Global) -> Result<bool, HandlerError> {
    let mut state: Server = restart_server(alloc, &Disk::try_default(alloc)?)?;
    let first = start(&mut state, alloc);
    let again = start(&mut state, alloc);
    Ok((first, again) == (Ok(1), Err(StartError::NotAllowed)) && state.is_voter(&2))
}

#[test]
fn a_cluster_starts_once(rt: HostRuntime) -> Result<(), Fail> {
    assert!(rt; starts_once(rt.alloc())?);
    Ok(())
}
