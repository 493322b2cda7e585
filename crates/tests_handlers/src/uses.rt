//! First callers of the handlers, as the page for callers shows them.
ghost use Rattle.std.specs.Prelude.{◌≡◌, ◌∷◌, [], ℕ, Some, true, IfOk, IsTrue};
ghost use Rattle.std.specs.Option.{option_cmp};
ghost use Rattle.std.specs.Ordering.{is_le};
ghost use Rattle.std.specs.Set.{ClonesAreEqual};
ghost use Rattle.raft_base.specs.LeaderIdStd.{std_log_id_cmp};
ghost use Rattle.steps_handlers.specs.Append.{has_all, last_id_of_request};
ghost use Rattle.raft_base.specs.LogId.{id_le};
ghost use Rattle.steps_handlers.specs.Leadership.{entry_of};
ghost use Rattle.steps_handlers.specs.declared.message.RequestNumber.TheVariants.{InFlight};
ghost use Rattle.raft_progress.specs.declared.entry.ProgressEntryOf.{ProgressEntryOf};
ghost use Rattle.raft_state.specs.membership_state.Memberships.{in_effect};
ghost use Rattle.raft_state.specs.raft_state.Sound.{purged_or_logged};

use raft_base::leader_id_std::{CommittedLeaderId, LeaderId};
use raft_base::{EmptyNode, Instant, LeaderIdentity, LogIdOf, Node, NodeId};
use raft_state::EntryOf;
use steps_handlers::{
    AppendEntries, AppendError, CampaignError, Candidate, HandlerError, Leader, Outcome, State,
    VoteRequest, handle_append_entries, handle_vote_request,
};

type Server = State<u64, EmptyNode, u64, LeaderId<u64>>;

type Append = AppendEntries<LeaderId<u64>, CommittedLeaderId, u64, EmptyNode, u64>;

type Entry = EntryOf<CommittedLeaderId, u64, EmptyNode, u64>;

/// Whether a voter grants its vote to a candidate.
pub fn votes(state: &mut Server, request: &VoteRequest<LeaderId<u64>, CommittedLeaderId>) -> bool {
    handle_vote_request(state, request).granted
}

/// Whether the log of a follower matches that of its leader now.
pub fn follows(state: &mut Server, request: &Append) -> Result<bool, AppendError> {
    let (response, _changes) = handle_append_entries(state, request)?;
    Ok(matches!(response.outcome, Outcome::Matches(_)))
}

/// Whether a node is elected by its own vote. The only voter is.
pub fn elects_itself(id: u64, state: &mut Server) -> Result<bool, CampaignError>
    ensures alone { (in_effect state.old.membership_state).configs ≡ (id ∷ []) ∷ [] →
        IfOk result (λ is_elected. IsTrue is_elected) }
{
    let candidate = Candidate::campaign(id, 0, state)?;
    Ok(candidate.is_elected())
}

/// Leads on with a blank entry of its own, which it commits once a quorum has the entry on disk.
/// Returns the log id of the entry. The only voter has committed the entry then. Requests are numbered
/// after `last_request`, which is at least each number that the node has used in this term.
pub fn commits_alone(
    id: u64,
    state: &mut Server,
    last_request: u64,
) -> Result<LogIdOf<CommittedLeaderId>, HandlerError>
    ensures alone { (in_effect state.old.membership_state).configs ≡ (id ∷ []) ∷ [] → IfOk result
        (λ own. IsTrue (is_le (option_cmp std_log_id_cmp (Some own) state.new.committed))) }
{
    let mut leader = Leader::resume(id, state, last_request)?;
    let entry: Entry = leader.propose_blank(state)?;
    // Here a program writes the entry to disk.
    leader.handle_flushed(state, Some(entry.log_id))?;
    leader.commit(state)?;
    Ok(entry.log_id)
}

/// A member takes a request that its leader has put in flight, and the leader takes the response.
/// Returns whether the member's log matches the leader's up to the last log id of the request. If it
/// does, the member has every entry of the request, and the leader knows that. If the request is a
/// heartbeat, the leader may know of more.
pub fn replicates<
    NID: NodeId,
    N: Node,
    I: Instant,
    L: LeaderIdentity<Id = NID, Committed = C> + Drop,
    C: Ord + Copy + Default + Drop + 'static,
    D,
>(
    leader: &mut Leader<NID, N, C>,
    member: &NID,
    state: &mut State<NID, N, I, L>,
    request: &AppendEntries<L, C, NID, N, D>,
) -> Result<bool, HandlerError>
    requires clones_are_equal { ClonesAreEqual N.eq N.is_clone }
    ensures has { IfOk result (λ matches. IsTrue matches →
        IsTrue (has_all C.eq state.new request.now.entries.items)) }
    ensures knows { IfOk result (λ matches. IsTrue matches →
        (number : ℕ) → request.now.request ≡ InFlight number →
        (entry : ProgressEntryOf C) → entry_of NID.eq leader.new member.now ≡ Some entry →
        entry.matching ≡ last_id_of_request request.now.prev request.now.entries.items) }
    ensures knows_as_much { IfOk result (λ matches. IsTrue matches →
        (entry : ProgressEntryOf C) → entry_of NID.eq leader.new member.now ≡ Some entry →
        IsTrue (id_le C.cmp
        (last_id_of_request request.now.prev request.now.entries.items) entry.matching)) }
    ensures knows_what_is_there { IfOk result (λ matches. IsTrue matches →
        (number : ℕ) → request.now.request ≡ InFlight number →
        (entry : ProgressEntryOf C) → entry_of NID.eq leader.new member.now ≡ Some entry →
        IsTrue (purged_or_logged C.eq state.new entry.matching)) }
{
    let (response, _changes) = handle_append_entries(state, request)?;
    // Here a program writes the changes to the member's disk, and sends the response.
    leader.handle_response(member, &response)?;
    match response.outcome {
        Outcome::Matches(_) => Ok(true),
        _ => Ok(false),
    }
}
