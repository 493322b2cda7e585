//! Texts of requests, responses, candidates, leaders and refusals.

use crate::asserts::assert_right;
use crate::candidate::{Asking, campaign, is_elected};
use crate::leader::Led;
use crate::states::{Id, Server, Snapshot, at, request, server};
use raft_base::VoteIn;
use raft_base::leader_id_std::{CommittedLeaderId, LeaderId};
use raft_progress::InflightError;
use std::alloc::{AllocError, Global};
use std::test::Fail;
use steps_handlers::{
    AppendError, CampaignError, ChangeError, CommitError, FlushError, HandlerError,
    InstallSnapshot, LeadError, Outcome, ProposeError, RequestNumber, Response, ResponseError,
    RestartError, ResumeError, SnapshotError, StartError, VoteRequest, VoteResponse,
};
use tests_support::memory::with_made;
use tests_support::printing::{debugs, displays};

/// The text of a request to append a blank entry.
const APPEND: &str =
    "AppendEntries { leader_id: LeaderId { term: 3, voted_for: Some(1) }, request: InFlight(7), \
    prev: None, entries: [Entry { log_id: LogId { leader_id: CommittedLeaderId { term: 3 }, \
    index: 0 }, payload: blank }], committed: None }";

/// What messages display, one in each line.
const MESSAGES: &str = "vote request T3-N1:uncommitted, last log id 2-4
vote request T3-N1:uncommitted, last log id None
vote response T3-N1:uncommitted, granted
vote response T3-N1:uncommitted, refused
append request 7, leader T3-N1, prev None, entries 1, committed None
snapshot request 8, leader T3-N1, last log id None
response 7, leader 3, matches 2-4
response heartbeat 9, leader 3, conflict at 5, last index 3
response 7, leader 3, higher vote T3-N1:uncommitted";

/// What the candidate of term 6 displays, which all but node 3 elect.
const VOTES: &str = "candidate 1, vote T6-N1:uncommitted, last log id 2-3
  1 has voted
  2 has voted
  3 has not voted";

/// What a leader of term 3 displays, whose own entry only node 3 lacks.
const MEMBERS: &str = "leader 1 of 3, granted 3-4
  1 ##### {[3-4, 5), inflight:None}
  2 ##### {[3-4, 5), inflight:None}
  3 ????. {[None, 4), inflight:None}";

/// A refusal of each call.
const REFUSALS: &[HandlerError] = &[
    HandlerError::Append(AppendError::TruncatesCommitted),
    HandlerError::Snapshot(SnapshotError::DoesNotFit),
    HandlerError::Start(StartError::NotInMembers),
    HandlerError::Restart(RestartError::CommittedNotLogged),
    HandlerError::Campaign(CampaignError::NotVoter),
    HandlerError::Lead(LeadError::NotElected),
    HandlerError::Resume(ResumeError::NotLeader),
    HandlerError::Propose(ProposeError::NotInOrder),
    HandlerError::Flush(FlushError::NoNextIndex),
    HandlerError::Response(ResponseError::LateHeartbeat),
    HandlerError::Response(ResponseError::Inflight(InflightError::AckOutOfRange)),
    HandlerError::Commit(CommitError::NotEffective),
    HandlerError::OutOfMemory,
];

/// What they display, one in each line.
const REASONS: &str = "a committed entry would be truncated
the snapshot does not fit
the server is not a member of the new cluster
the committed log id is not in the log
the node is no voter
the candidate is not elected
the vote is another one
the entries are not in order
there is no greater index
the response is to a heartbeat before the last request
ack out of range
the leader counts by another membership
out of memory";

/// A vote request in term 3.
fn asks(last_log_id: Id) -> VoteRequest<LeaderId<u64>, CommittedLeaderId> {
    let vote = VoteIn::new(3, 1);
    VoteRequest { vote, last_log_id }
}

/// The response of a voter in term 3.
fn votes(granted: bool) -> VoteResponse<LeaderId<u64>> {
    let vote = VoteIn::new(3, 1);
    VoteResponse { vote, granted }
}

/// A response to a leader of term 3.
fn responds(
    request: RequestNumber,
    outcome: Outcome<LeaderId<u64>, CommittedLeaderId>,
) -> Response<LeaderId<u64>, CommittedLeaderId> {
    Response {
        leader_id: CommittedLeaderId { term: 3 },
        request,
        outcome,
    }
}

/// The text of all messages.
fn messages(alloc: Global) -> Result<String, AllocError> {
    let append = request(alloc, 3, None, &[(3, 0)], None)?;
    let install = InstallSnapshot {
        leader_id: LeaderId::new(3, 1),
        request: 8,
        meta: Snapshot::try_default(alloc)?,
    };
    let conflict = Outcome::Conflict {
        index: 5,
        last: Some(3),
    };
    let number = RequestNumber::InFlight(7);
    format!(in alloc;
        "{}\n{}\n{}\n{}\n{append}\n{install}\n{}\n{}\n{}",
        asks(at(2, 4)),
        asks(None),
        votes(true),
        votes(false),
        responds(number, Outcome::Matches(at(2, 4))),
        responds(RequestNumber::Heartbeat(9), conflict),
        responds(number, Outcome::HigherVote(VoteIn::new(3, 1))),
    )
}

/// Returns the first wanted line of a text that is another one.
fn other_line(made: &str, want: &'static str) -> Option<&'static str> {
    let mut lines = made.lines();
    for line in want.lines() {
        if lines.next() != Some(line) {
            return Some(line);
        }
    }
    None
}

#[test]
fn messages_display(rt: HostRuntime) -> Result<(), Fail> {
    let made = messages(rt.alloc())?;
    assert_right(&rt, "messages", other_line(made.as_str(), MESSAGES));
    Ok(())
}

/// Returns the first text that is not that of its refusal.
fn wrong_reason(alloc: Global) -> Option<&'static str> {
    for (refusal, reason) in REFUSALS.iter().zip(REASONS.lines()) {
        if !displays(alloc, refusal, reason) {
            return Some(reason);
        }
    }
    None
}

#[test]
fn refusals_display(rt: HostRuntime) -> Result<(), Fail> {
    assert_right(&rt, "refusals", wrong_reason(rt.alloc()));
    let joint = ChangeError::<CommittedLeaderId, u64>::NotJoint;
    assert!(rt; displays(rt.alloc(), &joint, "the membership is not joint"));
    Ok(())
}

/// Whether the candidate of term 6 displays its votes.
fn votes_display(state: &mut Server, alloc: Global) -> Result<bool, CampaignError> {
    let mut candidate: Asking = campaign(state)?;
    let _elected = is_elected(&mut candidate);
    Ok(displays(alloc, &candidate, VOTES))
}

/// Whether a leader displays its members.
fn members_display(alloc: Global) -> Result<bool, HandlerError> {
    let mut led = Led::new(alloc)?;
    led.commit_upto(1, at(3, 4))?;
    Ok(displays(alloc, &led.leader, MEMBERS))
}

/// Whether a request to append a blank entry has its debug text.
fn append_prints(alloc: Global) -> Result<bool, AllocError> {
    Ok(debugs(alloc, &request(alloc, 3, None, &[(3, 0)], None)?, APPEND))
}

#[test]
fn nodes_print(rt: HostRuntime) -> Result<(), Fail> {
    let alloc = rt.alloc();
    let votes = |state: &mut Server| votes_display(state, alloc);
    assert!(rt; with_made(server(alloc), votes) == Ok(true));
    assert!(rt; members_display(alloc) == Ok(true));
    assert!(rt; append_prints(alloc) == Ok(true));
    Ok(())
}
