//! A candidate: it votes for itself, asks the others for their votes, and counts them.
ghost use Rattle.std.specs.Prelude.{◌≡◌, ◌↔◌, length, max, false, IfErr, IfOk, IsTrue, OnErr};
ghost use Rattle.std.specs.List.{filter, list_all};
ghost use Rattle.std.specs.Set.{ClonesAreEqual};
ghost use Rattle.steps_handlers.specs.Campaign.{Campaigns, CountsVoteOf, HasMajorities, IsCampaignRefusal, can_have_majorities, grants_vote, has_vote_of, may_campaign, can_have_vote_of};
ghost use Rattle.steps_handlers.specs.Compared.{compared};
ghost use Rattle.steps_handlers.specs.declared.candidate.Tally.TheVariants.{Lost, Won};
ghost use Rattle.raft_members.specs.quorum.Majority.{is_majority};
ghost use Rattle.raft_state.specs.raft_state.Sound.{IsSound};
ghost use Rattle.raft_state.specs.raft_state.VoteAndLog.{vote_of};

use crate::error::CampaignError;
use crate::message::{VoteRequest, VoteResponse};
use crate::state::State;
use raft_base::{
    DisplayOption, Instant, LeaderIdentity, LogIdOf, LogStateReader, Node, NodeId, VoteIn,
};
use raft_members::membership::Configs;
use raft_progress::laws::{granted_is_threshold, quorums_know_granted};
use raft_progress::{Progress, Tracked};
use raft_state::{RaftStateIn, VoteStateReader};
use std::collections::BTreeSet;
use std::fmt;
use std::marker::Model;

/// Whether a node may campaign and lead: it is a voter of the effective or of the committed
/// membership.
///
/// A voter that a change has removed may lead until it knows that the change is committed, because
/// its log may be needed to commit it.
pub fn may_lead<NID: NodeId, N: Node, I: Instant, L: Drop, C: Ord + Copy + Drop>(
    id: &NID,
    state: &RaftStateIn<NID, N, I, L, C>,
) -> bool
    ensures { result ≡ may_campaign NID.eq id.now state.now.membership_state }
{
    state.membership_state.is_voter(id) || state.membership_state.committed().is_voter(id)
}

/// The result of an election so far.
#[derive(Debug, Clone, Copy, PartialEq, Eq)]
pub enum Tally {
    /// A majority of each config has voted for the candidate.
    Won,
    /// The candidate may still be elected.
    Pending,
    /// So many voters have refused that the others are no majority of some config.
    Lost,
}

/// A node that asks the voters of its effective membership for their votes.
#[derive(Debug, Drop)]
pub struct Candidate<NID: NodeId, N: Node, L, C> {
    id: NID,
    vote: VoteIn<L>,
    last_log_id: Option<LogIdOf<C>>,
    votes: Tracked<NID, N, bool, bool>,
}

impl<NID: NodeId, N: Node, L, C> Model for Candidate<NID, N, L, C> {
    ghost use Rattle.std.specs.Prelude.{◌≡◌, false};
    ghost use Rattle.steps_handlers.specs.Campaign.{Campaign};
    ghost use Rattle.raft_progress.specs.tracked.Tracked.{tracked_view};

    ghost Value = { Campaign NID N L C };

    ghost view = { λ a. record {
      id = a.id;
      vote = a.vote;
      last_log_id = a.last_log_id;
      votes = tracked_view a.votes;
    } };

    ghost invariant = { λ a. (tracked_view a.votes).progress.default_part ≡ false };
}

impl<
    NID: NodeId,
    N: Node,
    L: LeaderIdentity<Id = NID, Committed = C> + Drop,
    C: Ord + Copy + Default + Drop + 'static,
> Candidate<NID, N, L, C> {
    /// Begins a campaign of a node in the term after the greatest one that it has heard of, which
    /// is at least that of its vote: the state promises the new vote, and the candidate votes for
    /// itself.
    ///
    /// A voter of the effective or of the committed membership may campaign. Write the vote to disk
    /// before any message leaves. After a refusal the state is as it was.
    pub fn campaign<I: Instant>(
        id: NID,
        greatest_term: u64,
        state: &mut State<NID, N, I, L>,
    ) -> Result<Self, CampaignError>
        requires clones_are_equal { ClonesAreEqual N.eq N.is_clone }
        ensures campaigns { let by = compared NID.Ord N.eq L.LeaderIdentity C.Ord in
            IfOk result (Campaigns by id greatest_term state.old state.new) }
        ensures refused { IfErr result (IsCampaignRefusal NID.eq id
            (max greatest_term (L.term_of (vote_of state.old).leader_id))
            state.old.membership_state) }
        ensures err { OnErr result (state.new ≡ state.old) }
        ensures sound { IsSound C.eq C.cmp state.old → IsSound C.eq C.cmp state.new }
    {
        if !may_lead(&id, state) {
            return Err(CampaignError::NotVoter);
        }
        let term = greatest_term.max(L::term(state.vote_ref().leader_id()));
        if term == u64::MAX {
            return Err(CampaignError::NoNextTerm);
        }
        let vote = VoteIn::new(term + 1, id);
        let last_log_id = state.last_log_id().copied();
        let members = state.membership_state.effective().membership();
        let Ok(members) = members.try_clone() else {
            return Err(CampaignError::OutOfMemory);
        };
        let Ok(mut votes) = Tracked::new(members, false) else {
            return Err(CampaignError::OutOfMemory);
        };
        let _reply = votes.update(&id, true);
        let _promised = state.promise(vote);
        Ok(Candidate {
            id,
            vote,
            last_log_id,
            votes,
        })
    }

    /// Returns the request that the candidate sends to each other voter.
    pub fn request(&self) -> VoteRequest<L, C>
        ensures { result ≡ record { vote = self.now.vote; last_log_id = self.now.last_log_id } }
    {
        VoteRequest {
            vote: self.vote,
            last_log_id: self.last_log_id,
        }
    }

    /// Counts the vote of a member, if the response grants this very vote. Any other response
    /// changes nothing: compare its vote's term with the greatest one that you have heard of.
    pub fn handle_vote_response(&mut self, from: &NID, response: &VoteResponse<L>)
        ensures counted { IsTrue (grants_vote L.eq self.old.vote response.now) →
            CountsVoteOf NID.eq from.now self.old self.new }
        ensures ignored { grants_vote L.eq self.old.vote response.now ≡ false →
            self.new ≡ self.old }
    {
        if response.granted && response.vote == self.vote {
            let _reply = self.votes.update(from, true);
        }
    }

    /// Returns the result of the election so far, if these nodes have refused. A node that has voted
    /// for the candidate counts as a voter for it, even if it is among these.
    ///
    /// The election is won if a majority of each config has voted for the candidate. Otherwise it is
    /// lost if those who have voted or have not refused are no majority of some config: then stop
    /// waiting, and campaign again after a while.
    pub fn tally(&self, refused: &[NID]) -> Tally
        ensures won { (result ≡ Won) ↔ HasMajorities NID.eq self.now }
        ensures lost { (result ≡ Lost)
            ↔ ((HasMajorities NID.eq self.now → ⊥)
            × (can_have_majorities NID.eq self.now refused.now ≡ false)) }
    {
        if self.is_elected() {
            return Tally::Won;
        }
        if self.can_be_elected(refused) {
            return Tally::Pending;
        }
        Tally::Lost
    }

    /// Whether those who have voted or have not refused are a majority of each config.
    fn can_be_elected(&self, refused: &[NID]) -> bool
        ensures { result ≡ can_have_majorities NID.eq self.now refused.now }
    {
        let configs = self.votes.membership().get_joint_config().as_slice();
        if configs.is_empty() {
            return false;
        }
        self.can_have_each(configs, refused)
    }

    /// Whether those who have voted or have not refused are a majority of each of the configs.
    fn can_have_each(&self, configs: &[BTreeSet<NID>], refused: &[NID]) -> bool
        ensures { result ≡ list_all
            (λ c. is_majority NID.eq c.keys (can_have_vote_of NID.eq self.now refused.now))
            configs.now }
    {
        configs.iter().all(|config| self.can_have(config, refused))
    }

    /// Whether those who have voted or have not refused are a majority of a config.
    fn can_have(&self, config: &BTreeSet<NID>, refused: &[NID]) -> bool
        ensures { result
            ≡ is_majority NID.eq config.now.keys (can_have_vote_of NID.eq self.now refused.now) }
    {
        self.count_open(config, refused) > config.len() / 2
    }

    /// Counts the members of a config that have voted or have not refused.
    fn count_open(&self, config: &BTreeSet<NID>, refused: &[NID]) -> usize
        ensures { result
            ≡ length (filter (can_have_vote_of NID.eq self.now refused.now) config.now.keys) }
    {
        config
            .iter()
            .filter(|id| self.can_have_vote_of(id, refused))
            .count()
    }

    /// Whether a node has voted for the candidate, or has not refused.
    fn can_have_vote_of(&self, id: &NID, refused: &[NID]) -> bool
        ensures { result ≡ can_have_vote_of NID.eq self.now refused.now id.now }
    {
        self.has_vote_of(id) || !refused.contains(id)
    }

    /// Whether a node has voted for the candidate.
    fn has_vote_of(&self, id: &NID) -> bool
        ensures { result ≡ has_vote_of NID.eq self.now id.now }
    {
        match self.votes.progress().try_get(id) {
            Some(has_voted) => *has_voted,
            None => false,
        }
    }

    /// Whether the candidate is elected: a majority of each config has voted for it.
    pub fn is_elected(&self) -> bool
        ensures { IsTrue result ↔ HasMajorities NID.eq self.now }
    {
        quorums_know_granted(&self.votes);
        granted_is_threshold::<NID, bool, bool, Configs<NID>>();
        *self.votes.progress().granted()
    }

    /// Returns the id of the node that campaigns.
    pub fn id(&self) -> NID
        ensures { result ≡ self.now.id }
    {
        self.id
    }

    /// Returns the vote that the candidate asks for.
    pub fn vote(&self) -> VoteIn<L>
        ensures { result ≡ self.now.vote }
    {
        self.vote
    }
}

/// The first line has the candidate's vote, and its last log id. Each member has a further line.
// Handwritten, because each member has a line of its own.
impl<NID: NodeId, N: Node, L: fmt::Display, C: fmt::Display + Copy> fmt::Display
    for Candidate<NID, N, L, C> {
    fn fmt<W: fmt::Write>(&self, f: &mut fmt::Formatter<W>) -> fmt::Result {
        let Candidate {
            id,
            vote,
            last_log_id,
            votes,
        } = self;
        write!(
            f,
            "candidate {id}, vote {vote}, last log id {}",
            DisplayOption(last_log_id)
        )?;
        for (id, has_voted) in votes.progress().iter() {
            let said = if *has_voted {
                "has voted"
            } else {
                "has not voted"
            };
            write!(f, "\n  {id} {said}")?;
        }
        Ok(())
    }
}
