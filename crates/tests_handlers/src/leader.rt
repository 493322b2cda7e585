//! A leader of the voters 1, 2 and 3: what it sends, takes, commits and changes.

use crate::asserts::assert_leader;
use crate::states::{Entry, Id, Server, at, server};
use raft_base::leader_id_std::{CommittedLeaderId, LeaderId};
use raft_base::{EmptyNode, VoteIn};
use raft_members::ChangeMembers;
use raft_progress::{InflightError, InflightOf};
use std::alloc::{AllocError, Global};
use std::collections::BTreeSet;
use std::mem;
use std::test::Fail;
use steps_handlers::{
    ChangeError, CommitError, HandlerError, Heartbeat, Leader, Outcome, RequestNumber, Response,
    ResponseError,
};
use tests_support::facts::first_wrong;

pub type LeaderOf = Leader<u64, EmptyNode, CommittedLeaderId>;

/// A leader with its state.
#[derive(Drop)]
pub struct Led {
    pub state: Server,
    pub leader: LeaderOf,
}

/// Makes the node of a state's vote the leader, with a blank entry of its own, which is on disk.
pub fn leader_of(state: &mut Server) -> Result<LeaderOf, HandlerError> {
    let mut leader = Leader::resume(1, state, 0)?;
    let own: Entry = leader.propose_blank(state)?;
    leader.handle_flushed(state, Some(own.log_id))?;
    Ok(leader)
}

/// A request with this number, which has the log ids after one up to another one.
fn logs(number: u64, prev: Id, last: Id) -> Option<InflightOf<CommittedLeaderId>> {
    Some(InflightOf::logs(prev, last).with_id(number))
}

/// The refusal of a response to another request than the one in flight.
fn late(in_flight: u64, received: u64) -> Result<(), ResponseError> {
    let mine = Some(in_flight);
    Err(ResponseError::Inflight(InflightError::InvalidRequestId { mine, received }))
}

/// A heartbeat with this number, which asks for a log id.
fn beat(number: u64, prev: Id) -> Option<Heartbeat<CommittedLeaderId>> {
    let request = RequestNumber::Heartbeat(number);
    Some(Heartbeat { request, prev })
}

impl Led {
    /// The leader 1 of term 3, whose log is that of `server` and a blank entry (3, 4), which is on
    /// disk.
    pub fn new(alloc: Global) -> Result<Self, HandlerError> {
        let mut state = server(alloc)?;
        let leader = leader_of(&mut state)?;
        Ok(Led { state, leader })
    }

    /// Returns what is sent to a node next.
    pub fn send(&mut self, to: u64) -> Option<InflightOf<CommittedLeaderId>> {
        self.leader.next_request(&self.state, &to, 64)
    }

    /// Returns the heartbeat to a node.
    fn beat(&self, to: u64) -> Option<Heartbeat<CommittedLeaderId>> {
        self.leader.heartbeat(&self.state, &to)
    }

    /// Takes the response of a node that matches up to a log id.
    fn take(&mut self, from: u64, request: RequestNumber, upto: Id) -> Result<(), ResponseError> {
        let response = Response::<LeaderId<u64>, CommittedLeaderId> {
            leader_id: self.leader.leader_id(),
            request,
            outcome: Outcome::Matches(upto),
        };
        self.leader.handle_response(&from, &response)
    }

    /// Takes the response of a node to a request that matches up to a log id.
    pub fn matches(&mut self, from: u64, number: u64, upto: Id) -> Result<(), ResponseError> {
        self.take(from, RequestNumber::InFlight(number), upto)
    }

    /// Takes the response of a node to a heartbeat that matches up to a log id.
    fn beat_matches(&mut self, from: u64, number: u64, upto: Id) -> Result<(), ResponseError> {
        self.take(from, RequestNumber::Heartbeat(number), upto)
    }

    fn commit(&mut self) -> Result<Id, CommitError> {
        self.leader.commit(&mut self.state)
    }

    /// Gives up what is in flight to a node, and returns what is sent then.
    fn send_again(&mut self, to: u64) -> Option<InflightOf<CommittedLeaderId>> {
        self.leader.give_up(&to);
        self.send(to)
    }

    /// Returns the name of the first fact of a leader's life that is wrong.
    pub fn wrong_in_life(&mut self) -> Option<&'static str> {
        let own = at(3, 4);
        first_wrong(&[
            ("all", self.send(2) == logs(1, None, own)),
            ("one at a time", self.send(2) == Some(InflightOf::None)),
            ("before its own", self.matches(2, 1, at(2, 3)) == Ok(())),
            ("not by counting", self.commit() == Ok(None)),
            ("its own", self.matches(2, 1, own) == Ok(())),
            ("a quorum has it", self.commit() == Ok(own)),
            ("another node", self.send(3) == logs(1, None, own)),
            ("it is lost", self.send_again(3) == logs(2, None, own)),
            ("a late response", self.matches(3, 1, own) == late(2, 1)),
            ("a heartbeat", self.beat(3) == beat(2, at(2, 3))),
            ("it matches", self.beat_matches(3, 2, own) == Ok(())),
            ("no more", self.send(3) == Some(InflightOf::None)),
            ("it leads", !self.leader.must_step_down(&self.state)),
            ("a higher vote", self.state.promise(VoteIn::new(4, 2))),
            ("then not", self.leader.must_step_down(&self.state)),
        ])
    }

    /// Leads on, as after a restart, with requests after number 7. Returns the name of the first
    /// fact that is wrong then.
    fn wrong_after_restart(&mut self) -> Result<Option<&'static str>, HandlerError> {
        let own = at(3, 4);
        let late_beat = Err(ResponseError::LateHeartbeat);
        self.leader = Leader::resume(1, &self.state, 7)?;
        self.leader.handle_flushed(&self.state, own)?;
        Ok(first_wrong(&[
            ("a request", self.send(3) == logs(8, None, own)),
            ("an earlier one", self.matches(3, 1, own) == late(8, 1)),
            ("a heartbeat", self.beat(2) == beat(7, own)),
            ("an earlier beat", self.beat_matches(2, 1, own) == late_beat),
            ("not granted", self.commit() == Ok(None)),
            ("its own", self.beat_matches(2, 7, own) == Ok(())),
            ("a quorum has it", self.commit() == Ok(own)),
        ]))
    }

    /// Changes the voters to these, if the leader may. Returns the log id of the new membership.
    pub fn change(&mut self, alloc: Global, voters: &[u64]) -> Result<Id, AllocError> {
        let ids: BTreeSet<u64> = voters.iter().copied().collect(alloc)?;
        let change = ChangeMembers::ReplaceAllVoters(ids);
        let made: Result<Entry, _> = self.leader.propose_change(&mut self.state, change, false);
        Ok(proposed(&made))
    }

    /// Leaves a joint membership, if the leader may. Returns the log id of the new membership.
    fn leave(&mut self) -> Id {
        proposed(&self.leader.leave_joint(&mut self.state, false))
    }

    /// Writes all up to a log id to disk, sends it to node 2, takes its acknowledgement, and
    /// commits. Returns what is committed then, if that is new.
    pub fn commit_upto(&mut self, request: u64, upto: Id) -> Result<Id, HandlerError> {
        self.leader.handle_flushed(&self.state, upto)?;
        let _sent = self.send(2);
        self.matches(2, request, upto)?;
        Ok(self.commit()?)
    }

    /// Returns the name of the first fact that is wrong while node 3 leaves in two steps.
    fn wrong_in_change(&mut self, alloc: Global) -> Result<Option<&'static str>, HandlerError> {
        let early = self.change(alloc, &[1, 2])?;
        self.commit_upto(1, at(3, 4))?;
        let not_joint = self.leave();
        let joint = self.change(alloc, &[1, 2])?;
        let soon = self.leave();
        let committed = self.commit_upto(2, at(3, 5))?;
        let left = self.leave();
        let end = self.commit_upto(3, at(3, 6))?;
        Ok(first_wrong(&[
            ("early", early.is_none()),
            ("not joint", not_joint.is_none()),
            ("joint", joint == at(3, 5)),
            ("soon", soon.is_none()),
            ("committed", committed == joint),
            ("left", left == at(3, 6)),
            ("the end", end == left),
            ("a member", self.leader.member(&2).is_some()),
            ("no member", self.leader.member(&3).is_none()),
        ]))
    }

    /// A second leader of the term commits, changes the voters, and appends an entry.
    fn go_on(&mut self, alloc: Global) -> Result<Entry, HandlerError> {
        self.commit_upto(101, at(3, 4))?;
        let joint = self.change(alloc, &[1, 2])?;
        self.commit_upto(102, joint)?;
        Ok(self.leader.propose(&mut self.state, 7)?)
    }

    /// Makes a second leader of the term, which goes on. Returns the name of the first fact that is
    /// wrong with the former leader then.
    fn wrong_with_former(&mut self, alloc: Global) -> Result<Option<&'static str>, HandlerError> {
        self.commit_upto(1, at(3, 4))?;
        let mut former = Leader::resume(1, &self.state, 100)?;
        mem::swap(&mut self.leader, &mut former);
        let _entry = self.go_on(alloc)?;
        self.leader = former;
        let not_effective = HandlerError::Commit(CommitError::NotEffective);
        let refused = self.commit_upto(2, at(3, 6));
        let changed = self.change(alloc, &[1, 3])?;
        Ok(first_wrong(&[
            ("a commit", refused == Err(not_effective)),
            ("a change", changed.is_none()),
            ("a step", self.leave().is_none()),
            ("what is committed", self.state.committed == at(3, 5)),
        ]))
    }

    /// Returns the name of the first fact that is wrong in a part of a leader's life.
    fn wrong_in(
        &mut self,
        alloc: Global,
        part: Part,
    ) -> Result<Option<&'static str>, HandlerError> {
        match part {
            Part::Life => Ok(self.wrong_in_life()),
            Part::AfterRestart => self.wrong_after_restart(),
            Part::Change => self.wrong_in_change(alloc),
            Part::WithFormer => self.wrong_with_former(alloc),
        }
    }

    /// Returns what is wrong in a part of a leader's life, and the leader as it is then.
    fn shown(&mut self, alloc: Global, part: Part) -> Result<Option<String>, HandlerError> {
        match self.wrong_in(alloc, part)? {
            Some(what) => Ok(Some(format!(in alloc; "{what}\n{}", self.leader)?)),
            None => Ok(None),
        }
    }
}

/// The log id of an entry that a change has appended.
fn proposed(made: &Result<Entry, ChangeError<CommittedLeaderId, u64>>) -> Id {
    match made {
        Ok(entry) => Some(entry.log_id),
        Err(_) => None,
    }
}

/// What a leader does.
#[derive(Clone, Copy)]
enum Part {
    Life,
    AfterRestart,
    Change,
    WithFormer,
}

/// Returns what is wrong in a part of a new leader's life, with the leader below it.
fn wrong(alloc: Global, part: Part) -> Result<Option<String>, HandlerError> {
    let mut led = Led::new(alloc)?;
    led.shown(alloc, part)
}

#[test]
fn a_leader_sends_and_commits(rt: HostRuntime) -> Result<(), Fail> {
    assert_leader(&rt, "a leader", wrong(rt.alloc(), Part::Life)?);
    Ok(())
}

#[test]
fn a_leader_leads_on(rt: HostRuntime) -> Result<(), Fail> {
    assert_leader(
        &rt,
        "after a restart",
        wrong(rt.alloc(), Part::AfterRestart)?,
    );
    Ok(())
}

#[test]
fn a_member_leaves_in_two_steps(rt: HostRuntime) -> Result<(), Fail> {
    assert_leader(&rt, "a change", wrong(rt.alloc(), Part::Change)?);
    Ok(())
}

#[test]
fn a_former_leader_is_refused(rt: HostRuntime) -> Result<(), Fail> {
    assert_leader(&rt, "a former leader", wrong(rt.alloc(), Part::WithFormer)?);
    Ok(())
}
