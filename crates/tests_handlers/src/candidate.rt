//! A candidate of the voters 1, 2 and 3.

use crate::states::{Server, server};
use raft_base::leader_id_std::{CommittedLeaderId, LeaderId};
use raft_base::{EmptyNode, VoteIn};
use std::test::Fail;
use steps_handlers::{CampaignError, Candidate, HandlerError, Leader, Tally, VoteResponse};
use tests_support::memory::with_made;

pub type Asking = Candidate<u64, EmptyNode, LeaderId<u64>, CommittedLeaderId>;

/// Begins a campaign in term 6.
pub fn campaign(state: &mut Server) -> Result<Asking, CampaignError> {
    Candidate::campaign(1, 5, state)
}

/// Counts the vote of node 2, and returns whether the candidate is elected. Nodes 2 and 3 are said
/// to have refused before.
pub fn is_elected(candidate: &mut Asking) -> bool {
    let vote = VoteIn::new(6, 1);
    let granted = true;
    let before = [candidate.tally(&[]), candidate.tally(&[2, 3])];
    candidate.handle_vote_response(&2, &VoteResponse { vote, granted });
    before == [Tally::Pending, Tally::Lost] && candidate.tally(&[2, 3]) == Tally::Won
}

/// Whether a candidate is elected by one more vote than its own, and leads then.
fn leads(state: &mut Server) -> Result<bool, HandlerError> {
    let mut candidate = campaign(state)?;
    let is_elected = is_elected(&mut candidate);
    let leader = Leader::new(state, &candidate)?;
    Ok(is_elected && leader.leads(state))
}

#[test]
fn votes_elect(rt: HostRuntime) -> Result<(), Fail> {
    assert!(rt; with_made(server(rt.alloc()), leads)?);
    Ok(())
}
