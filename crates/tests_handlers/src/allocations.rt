//! Handlers with each allocation refused in turn, or all of them.

use crate::candidate::{campaign, is_elected};
use crate::follower::grants;
use crate::leader::{LeaderOf, Led};
use crate::states::{Disk, Entry, Id, Server, at, entries, members, request, server, snapshot};
use raft_base::leader_id_std::{CommittedLeaderId, LeaderId};
use raft_base::{LogStateReader, VoteIn};
use raft_members::{ChangeMembers, ChangeMembershipErrorOf};
use raft_state::EntryPayload;
use std::alloc::{AllocError, Global};
use std::collections::BTreeSet;
use std::io;
use std::test::Fail;
use steps_handlers::{
    ChangeError, HandlerError, InstallSnapshot, Leader, Outcome, ProposeError, RequestNumber,
    Response, handle_append_entries, handle_install_snapshot, restart_server, start_cluster,
};
use tests_support::allocations::{Allocation, is_free, is_free_on, is_swept, refuse_each};
use tests_support::memory::both_made;

/// The calls that allocate.
#[derive(Clone, Copy)]
enum Call {
    Append,
    Install,
    Restart,
    Start,
    Campaign,
    Elect,
    Resume,
    Blank,
    Propose,
    Change,
    Leave,
}

const CALLS: &[(Call, &str)] = &[
    (Call::Append, "handle_append_entries"),
    (Call::Install, "handle_install_snapshot"),
    (Call::Restart, "restart_server"),
    (Call::Start, "start_cluster"),
    (Call::Campaign, "Candidate::campaign"),
    (Call::Elect, "Leader::new"),
    (Call::Resume, "Leader::resume"),
    (Call::Blank, "Leader::propose_blank"),
    (Call::Propose, "Leader::propose"),
    (Call::Change, "Leader::propose_change"),
    (Call::Leave, "Leader::leave_joint"),
];

/// Whether a call did its work, or its allocation error.
fn is_done<T: Drop, E: Copy + From<AllocError> + PartialEq>(
    allocation: Allocation,
    made: Result<T, E>,
) -> Result<bool, AllocError> {
    let Some(refused) = made.err() else {
        return Ok(true);
    };
    if refused == E::from(AllocError) {
        return Err(AllocError);
    }
    allocation.made(false)
}

/// What a call made, or an allocation error in the place of any refusal.
fn in_memory<T: Drop, E: Drop>(made: Result<T, E>) -> Result<T, AllocError> {
    match made {
        Ok(made) => Ok(made),
        Err(_) => Err(AllocError),
    }
}

/// A follower appends a membership.
fn append(allocation: Allocation, state: &mut Server) -> Result<bool, AllocError> {
    let request = request(allocation.alloc, 3, at(2, 3), &[(3, 4)], None);
    let (members, mut request) = both_made(members(allocation.alloc), request)?;
    if let Some(first) = request.entries.first_mut() {
        first.payload = EntryPayload::Membership(members);
    }
    allocation.refuse();
    is_done(allocation, handle_append_entries(state, &request))
}

/// A follower installs a snapshot.
fn install(allocation: Allocation, state: &mut Server) -> Result<bool, AllocError> {
    let request = InstallSnapshot {
        leader_id: LeaderId::new(3, 1),
        request: 1,
        meta: snapshot(allocation.alloc, at(3, 9))?,
    };
    allocation.refuse();
    is_done(allocation, handle_install_snapshot(state, &request))
}

/// A server restarts with a snapshot and an entry after it.
fn restart(allocation: Allocation) -> Result<bool, AllocError> {
    let log = entries(allocation.alloc, &[(3, 10)]);
    let (snapshot, entries) = both_made(snapshot(allocation.alloc, at(3, 9)), log)?;
    let disk = Disk {
        vote: VoteIn::new(3, 1),
        snapshot,
        entries,
        committed: None,
    };
    allocation.refuse();
    is_done(
        allocation,
        restart_server::<_, _, u64, _, _>(allocation.alloc, &disk),
    )
}

/// A new server starts a cluster.
fn start(allocation: Allocation, state: &mut Server) -> Result<bool, AllocError> {
    let members = members(allocation.alloc)?;
    allocation.refuse();
    is_done(
        allocation,
        start_cluster::<_, _, _, _, u64>(state, &1, members),
    )
}

/// A candidate that is elected becomes a leader.
fn elect(allocation: Allocation) -> Result<bool, AllocError> {
    let mut state = server(allocation.alloc)?;
    let mut candidate = in_memory(campaign(&mut state))?;
    let _elected = is_elected(&mut candidate);
    allocation.refuse();
    is_done(allocation, Leader::new(&mut state, &candidate))
}

/// A leader proposes an entry, blank or with data.
fn propose(allocation: Allocation, state: &mut Server, is_blank: bool) -> Result<bool, AllocError> {
    let leader = in_memory(Leader::resume(1, state, 0))?;
    allocation.refuse();
    let made: Result<Entry, ProposeError> = if is_blank {
        leader.propose_blank(state)
    } else {
        leader.propose(state, 7)
    };
    is_done(allocation, made)
}

/// The leader 1 of a state, resumed, all of whose log is on disk at the nodes 1 and 2.
fn granted(state: &Server) -> Result<LeaderOf, HandlerError> {
    let upto = state.last_log_id().copied();
    let mut leader = Leader::resume(1, state, 0)?;
    leader.handle_flushed(state, upto)?;
    let _sent = leader.next_request(state, &2, 8);
    let response = Response::<LeaderId<u64>, CommittedLeaderId> {
        leader_id: leader.leader_id(),
        request: RequestNumber::InFlight(1),
        outcome: Outcome::Matches(upto),
    };
    leader.handle_response(&2, &response)?;
    Ok(leader)
}

/// Whether a change of the members was made, or its allocation error.
fn is_changed(
    allocation: Allocation,
    made: Result<Entry, ChangeError<CommittedLeaderId, u64>>,
) -> Result<bool, AllocError> {
    match made {
        Ok(_) => Ok(true),
        Err(ChangeError::Entry(ProposeError::OutOfMemory))
        | Err(ChangeError::Change(ChangeMembershipErrorOf::OutOfMemory)) => Err(AllocError),
        Err(_) => allocation.made(false),
    }
}

/// A leader proposes the voters 1 and 2.
fn change(allocation: Allocation, state: &mut Server) -> Result<bool, AllocError> {
    let mut leader = in_memory(granted(state))?;
    let ids: BTreeSet<u64> = [1, 2].iter().copied().collect(allocation.alloc)?;
    allocation.refuse();
    let made = leader.propose_change(state, ChangeMembers::ReplaceAllVoters(ids), false);
    is_changed(allocation, made)
}

/// A leader leaves a joint membership.
fn leave(allocation: Allocation, state: &mut Server) -> Result<bool, AllocError> {
    let mut leader = in_memory(granted(state))?;
    allocation.refuse();
    is_changed(allocation, leader.leave_joint(state, false))
}

/// Makes a call.
fn make(allocation: Allocation, state: &mut Server, call: Call) -> Result<bool, AllocError> {
    match call {
        Call::Append => append(allocation, state),
        Call::Install => install(allocation, state),
        Call::Restart => restart(allocation),
        Call::Start => start(allocation, state),
        Call::Campaign => {
            allocation.refuse();
            is_done(allocation, campaign(state))
        }
        Call::Elect => elect(allocation),
        Call::Resume => {
            allocation.refuse();
            is_done(allocation, Leader::resume(1, state, 0))
        }
        Call::Blank => propose(allocation, state, true),
        Call::Propose => propose(allocation, state, false),
        Call::Change => change(allocation, state),
        Call::Leave => leave(allocation, state),
    }
}

impl Led {
    /// Commits the leader's own entry, and the joint membership on the way to the voters 1 and 2 if
    /// there shall be one.
    fn begin(&mut self, alloc: Global, is_joint: bool) -> Result<Id, HandlerError> {
        let own = self.commit_upto(1, at(3, 4))?;
        if !is_joint {
            return Ok(own);
        }
        let joint = self.change(alloc, &[1, 2])?;
        self.commit_upto(2, joint)
    }
}

/// The state of a leader that has begun.
fn led(alloc: Global, is_joint: bool) -> Result<Server, HandlerError> {
    let mut led = Led::new(alloc)?;
    led.begin(alloc, is_joint)?;
    Ok(led.state)
}

/// The state that a call borrows.
fn borrowed(alloc: Global, call: Call) -> Result<Server, AllocError> {
    match call {
        Call::Start => Server::try_default(alloc),
        Call::Change => in_memory(led(alloc, false)),
        Call::Leave => in_memory(led(alloc, true)),
        _ => server(alloc),
    }
}

/// Whether all calls are right with each allocation refused in turn.
fn are_swept(rt: &impl Print, alloc: Global) -> io::Result<bool> {
    let mut are_right = true;
    for (call, name) in CALLS {
        let call = *call;
        let borrowed = |alloc: Global| borrowed(alloc, call);
        let make = |allocation: Allocation, state: &mut Server| make(allocation, state, call);
        are_right &= is_swept(rt, alloc, name, borrowed, make)?;
    }
    Ok(are_right)
}

#[test]
fn allocations(rt: HostRuntime) -> Result<(), Fail> {
    assert!(rt; are_swept(&rt, rt.alloc())?);
    Ok(())
}

/// Whether a leader sends, takes responses and commits without an allocation.
fn is_leader_free(rt: &impl Print, alloc: Global) -> io::Result<bool> {
    let name =
        "Leader::{next_request, heartbeat, handle_response, handle_flushed, give_up, commit}";
    let mut led = in_memory(Led::new(alloc))?;
    refuse_each(alloc);
    let is_right = led.wrong_in_life().is_none();
    is_free(rt, alloc, name, is_right)
}

/// Whether a candidate counts votes and says how its election stands without an allocation.
fn is_candidate_free(rt: &impl Print, alloc: Global) -> io::Result<bool> {
    let mut state = server(alloc)?;
    let mut candidate = in_memory(campaign(&mut state))?;
    refuse_each(alloc);
    let is_right = is_elected(&mut candidate);
    is_free(
        rt,
        alloc,
        "Candidate::{handle_vote_response, tally}",
        is_right,
    )
}

#[test]
fn no_allocations(rt: HostRuntime) -> Result<(), Fail> {
    let alloc = rt.alloc();
    let votes = |state: &mut Server| grants(state, 2, at(2, 3));
    assert!(rt; is_free_on(&rt, alloc, "handle_vote_request", server(alloc), votes)?);
    assert!(rt; is_candidate_free(&rt, alloc)?);
    assert!(rt; is_leader_free(&rt, alloc)?);
    Ok(())
}
