//! Calls of the handlers are steps of a run.
//!
//! Each function makes one call, and reads the keys of the log after it for the proof alone: they are
//! in order. It promises that the call is a step, and what the call itself promises (`call`).
ghost use Rattle.std.specs.Prelude.{◌≡◌, if◌then◌else◌, false, IfOk, IfSome, IsTrue};
ghost use Rattle.std.specs.Option.{option_map};
ghost use Rattle.std.specs.Ordering.{partial_ge};
ghost use Rattle.std.specs.Set.{ClonesAreEqual};
ghost use Rattle.raft_base.specs.UTime.{moment_of, utime_of};
ghost use Rattle.raft_base.specs.Vote.{vote_cmp};
ghost use Rattle.steps_handlers.specs.Append.{Answers};
ghost use Rattle.steps_handlers.specs.Changes.{AppendsMembers, members_after_leave};
ghost use Rattle.raft_state.specs.membership_state.Apply.{members_after_change};
ghost use Rattle.steps_handlers.specs.Campaign.{Campaigns, CountsVoteOf, grants_vote};
ghost use Rattle.steps_handlers.specs.Compared.{compared};
ghost use Rattle.steps_handlers.specs.Follow.{heard};
ghost use Rattle.steps_handlers.specs.Leadership.{BecomesLeader, Commits, entry_of};
ghost use Rattle.steps_handlers.specs.Proposals.{AppendsOwn};
ghost use Rattle.steps_handlers.specs.Responses.{SendsNext, heartbeat_to};
ghost use Rattle.steps_handlers.specs.Restart.{Restores};
ghost use Rattle.steps_handlers.specs.Snapshot.{AnswersSnapshot};
ghost use Rattle.steps_handlers.specs.Vote.{Grants};
ghost use Rattle.steps_safety.specs.Called.{AppendIsStep, CampaignIsStep, ChangeIsStep, CommitIsStep, CountIsStep, ElectionIsStep, HearingIsStep, HeartbeatIsStep, InstallIsStep, ProposalIsStep, RestartIsStep, SendIsStep, VoteIsStep};
ghost use Rattle.raft_state.specs.SnapshotMeta.{IsSnapshotCopy};
ghost use Rattle.raft_state.specs.raft_state.VoteAndLog.{log_view_of, vote_of};
ghost use Rattle.raft_state.specs.declared.entry.payload.EntryPayload.TheVariants.{Blank, Normal};

use raft_base::{Instant, LeaderIdentity, LogIdOf, Node, NodeId, VoteIn};
use raft_members::ChangeMembers;
use raft_progress::InflightOf;
use raft_state::EntryOf;
use std::alloc::Global;
use std::fmt::Debug;
use steps_handlers::{
    AppendEntries, AppendError, CampaignError, Candidate, ChangeError, Changes, CommitError,
    Heartbeat, InstallSnapshot, LeadError, Leader, ProposeError, Response, RestartError,
    SnapshotChanges, SnapshotError, State, Stored, VoteRequest, VoteResponse,
    handle_append_entries, handle_install_snapshot, handle_vote_request, restart_server,
};

/// Answers a candidate, as `handle_vote_request` does.
pub fn answers_candidate<NID: NodeId, N: Node, I: Instant, L: LeaderIdentity<Id = NID> + Drop, D>(
    state: &mut State<NID, N, I, L>,
    request: &VoteRequest<L, L::Committed>,
) -> VoteResponse<L>
    ensures step { VoteIsStep D NID.Ord N.eq L.LeaderIdentity L.Committed.Ord
        request.now state.old result state.new }
    ensures call { Grants L.order L.Committed.cmp request.now state.old result state.new }
{
    let response = handle_vote_request(state, request);
    let _after = state.log_ids.key_log_ids();
    response
}

/// Answers a leader that has sent entries, as `handle_append_entries` does.
pub fn answers_leader<NID: NodeId, N: Node, I: Instant, L: LeaderIdentity<Id = NID> + Drop, D>(
    state: &mut State<NID, N, I, L>,
    request: &AppendEntries<L, L::Committed, NID, N, D>,
) -> Result<(Response<L, L::Committed>, Changes<L::Committed>), AppendError>
    requires clones_are_equal { ClonesAreEqual N.eq N.is_clone }
    ensures step { IfOk result (λ made. AppendIsStep D NID.Ord N.eq L.LeaderIdentity L.Committed.Ord
        request.now state.old made.0.outcome state.new) }
    ensures call { IfOk result (λ made. Answers L.Committed.Ord NID.eq N.eq request.now
        made.0.outcome state.old state.new) }
{
    let made = handle_append_entries(state, request);
    let _after = state.log_ids.key_log_ids();
    made
}

/// Answers a leader that has sent a snapshot, as `handle_install_snapshot` does.
pub fn answers_snapshot<NID: NodeId, N: Node, I: Instant, L: LeaderIdentity<Id = NID> + Drop, D>(
    state: &mut State<NID, N, I, L>,
    request: &InstallSnapshot<L, L::Committed, NID, N>,
) -> Result<(Response<L, L::Committed>, SnapshotChanges), SnapshotError>
    requires clones_are_equal { ClonesAreEqual N.eq N.is_clone }
    ensures step { IfOk result (λ made. InstallIsStep D NID.Ord N.eq L.LeaderIdentity L.Committed.Ord
        request.now state.old made.0.outcome state.new) }
    ensures call { IfOk result (λ made. AnswersSnapshot L.Committed.Ord L.eq
        (IsSnapshotCopy NID.eq N.eq) request.now.meta made.0.outcome
        (heard L.order request.now.leader_id state.old) state.new) }
{
    let made = handle_install_snapshot(state, request);
    let _after = state.log_ids.key_log_ids();
    made
}

/// Takes the vote that a response has, as `promise` of the state does: only if it is at least the
/// present one.
pub fn hears<NID: NodeId, N: Node, I: Instant, L: LeaderIdentity<Id = NID> + Drop, D>(
    state: &mut State<NID, N, I, L>,
    vote: VoteIn<L>,
) -> bool
    ensures step { HearingIsStep D NID.Ord N.eq L.LeaderIdentity L.Committed.Ord
        vote state.old state.new }
    ensures answer { result ≡ partial_ge (vote_cmp L.order) vote (vote_of state.old) }
    ensures call { state.new ≡ (if result
        then record state.old { vote = utime_of vote (moment_of state.old.vote) } else state.old) }
{
    let promised = state.promise(vote);
    let _after = state.log_ids.key_log_ids();
    promised
}

/// Begins a campaign, as `Candidate::campaign` does.
pub fn campaigns<
    NID: NodeId,
    N: Node,
    I: Instant,
    L: LeaderIdentity<Id = NID, Committed = C> + Drop,
    C: Ord + Copy + Default + Drop + 'static,
    D,
>(
    id: NID,
    greatest_term: u64,
    state: &mut State<NID, N, I, L>,
) -> Result<Candidate<NID, N, L, C>, CampaignError>
    requires clones_are_equal { ClonesAreEqual N.eq N.is_clone }
    ensures step { IfOk result (λ made. CampaignIsStep D NID.Ord N.eq L.LeaderIdentity C.Ord
        id state.old made state.new) }
    ensures call { let by = compared NID.Ord N.eq L.LeaderIdentity C.Ord in
        IfOk result (Campaigns by id greatest_term state.old state.new) }
{
    let made = Candidate::campaign(id, greatest_term, state);
    let _after = state.log_ids.key_log_ids();
    made
}

/// Counts a vote, as `Candidate::handle_vote_response` does.
pub fn counts<
    NID: NodeId,
    N: Node,
    I: Instant,
    L: LeaderIdentity<Id = NID, Committed = C> + Drop,
    C: Ord + Copy + Default + Drop + 'static,
    D,
>(candidate: &mut Candidate<NID, N, L, C>, from: &NID, response: &VoteResponse<L>)
    ensures step { CountIsStep I D NID.Ord N.eq L.LeaderIdentity C.Ord
        from.now response.now candidate.old candidate.new }
    ensures call { IsTrue (grants_vote L.eq candidate.old.vote response.now) →
        CountsVoteOf NID.eq from.now candidate.old candidate.new }
    ensures ignored { grants_vote L.eq candidate.old.vote response.now ≡ false →
        candidate.new ≡ candidate.old }
{
    candidate.handle_vote_response(from, response);
}

/// Makes an elected candidate the leader, as `Leader::new` does.
pub fn leads<
    NID: NodeId,
    N: Node,
    I: Instant,
    L: LeaderIdentity<Id = NID, Committed = C> + Drop,
    C: Ord + Copy + Default + Drop + 'static,
    D,
>(
    state: &mut State<NID, N, I, L>,
    candidate: &Candidate<NID, N, L, C>,
) -> Result<Leader<NID, N, C>, LeadError>
    requires clones_are_equal { ClonesAreEqual N.eq N.is_clone }
    ensures step { IfOk result (λ _. ElectionIsStep D NID.Ord N.eq L.LeaderIdentity C.Ord
        candidate.now state.old state.new) }
    ensures call { let by = compared NID.Ord N.eq L.LeaderIdentity C.Ord in
        IfOk result (BecomesLeader by candidate.now state.old state.new) }
{
    let made = Leader::new(state, candidate);
    let _after = state.log_ids.key_log_ids();
    made
}

/// Proposes a blank entry, as `Leader::propose_blank` does.
pub fn proposes_blank<
    NID: NodeId,
    N: Node,
    I: Instant,
    L: LeaderIdentity<Id = NID, Committed = C> + Drop,
    C: Ord + Copy + Default + Drop + 'static,
    D: Drop,
>(
    leader: &Leader<NID, N, C>,
    state: &mut State<NID, N, I, L>,
) -> Result<EntryOf<C, NID, N, D>, ProposeError>
    requires clones_are_equal { ClonesAreEqual N.eq N.is_clone }
    ensures step { IfOk result (λ entry. ProposalIsStep D NID.Ord N.eq L.LeaderIdentity C.Ord
        leader.now state.old entry state.new) }
    ensures call { let by = compared NID.Ord N.eq L.LeaderIdentity C.Ord in
        IfOk result (AppendsOwn by leader.now Blank state.old state.new) }
{
    let made = leader.propose_blank(state);
    let _after = state.log_ids.key_log_ids();
    made
}

/// Proposes an entry with data, as `Leader::propose` does.
pub fn proposes<
    NID: NodeId,
    N: Node,
    I: Instant,
    L: LeaderIdentity<Id = NID, Committed = C> + Drop,
    C: Ord + Copy + Default + Drop + 'static,
    D: Drop,
>(
    leader: &Leader<NID, N, C>,
    state: &mut State<NID, N, I, L>,
    data: D,
) -> Result<EntryOf<C, NID, N, D>, ProposeError>
    requires clones_are_equal { ClonesAreEqual N.eq N.is_clone }
    ensures step { IfOk result (λ entry. ProposalIsStep D NID.Ord N.eq L.LeaderIdentity C.Ord
        leader.now state.old entry state.new) }
    ensures call { let by = compared NID.Ord N.eq L.LeaderIdentity C.Ord in
        IfOk result (AppendsOwn by leader.now (Normal «data») state.old state.new) }
{
    let made = leader.propose(state, data);
    let _after = state.log_ids.key_log_ids();
    made
}

/// Proposes a change of the membership, as `Leader::propose_change` does.
pub fn proposes_change<
    NID: NodeId,
    N: Node,
    I: Instant,
    L: LeaderIdentity<Id = NID, Committed = C> + Drop,
    C: Ord + Copy + Debug + Default + Drop + 'static,
    D: Drop,
>(
    leader: &mut Leader<NID, N, C>,
    state: &mut State<NID, N, I, L>,
    change: ChangeMembers<NID, N>,
    retain: bool,
) -> Result<EntryOf<C, NID, N, D>, ChangeError<C, NID>>
    requires clones_are_equal { ClonesAreEqual N.eq N.is_clone }
    ensures step { IfOk result (λ entry. ChangeIsStep D NID.Ord N.eq L.LeaderIdentity C.Ord
        leader.old state.old entry state.new) }
    ensures call { let by = compared NID.Ord N.eq L.LeaderIdentity C.Ord in
        let next = members_after_change NID.eq NID.cmp state.old.membership_state change retain in
        IfOk result (AppendsMembers by next leader.old state.old leader.new state.new) }
{
    let made = leader.propose_change(state, change, retain);
    let _after = state.log_ids.key_log_ids();
    made
}

/// Proposes the step from a joint membership to its last config, as `Leader::leave_joint` does.
pub fn leaves_joint<
    NID: NodeId,
    N: Node,
    I: Instant,
    L: LeaderIdentity<Id = NID, Committed = C> + Drop,
    C: Ord + Copy + Debug + Default + Drop + 'static,
    D: Drop,
>(
    leader: &mut Leader<NID, N, C>,
    state: &mut State<NID, N, I, L>,
    retain: bool,
) -> Result<EntryOf<C, NID, N, D>, ChangeError<C, NID>>
    requires clones_are_equal { ClonesAreEqual N.eq N.is_clone }
    ensures step { IfOk result (λ entry. ChangeIsStep D NID.Ord N.eq L.LeaderIdentity C.Ord
        leader.old state.old entry state.new) }
    ensures call { let by = compared NID.Ord N.eq L.LeaderIdentity C.Ord in
        let next = members_after_leave NID.eq NID.cmp state.old.membership_state retain in
        IfOk result (AppendsMembers by next leader.old state.old leader.new state.new) }
{
    let made = leader.leave_joint(state, retain);
    let _after = state.log_ids.key_log_ids();
    made
}

/// Puts in flight what to send to a member next, as `Leader::next_request` does.
pub fn sends<
    NID: NodeId,
    N: Node,
    I: Instant,
    L: LeaderIdentity<Id = NID, Committed = C> + Drop,
    C: Ord + Copy + Default + Drop + 'static,
    D,
>(
    leader: &mut Leader<NID, N, C>,
    state: &State<NID, N, I, L>,
    to: &NID,
    max_entries: u64,
) -> Option<InflightOf<C>>
    ensures step { IfSome result (SendIsStep D NID.Ord N.eq L.LeaderIdentity C.Ord leader.old state.now) }
    ensures call { SendsNext NID.eq C.Ord to.now (log_view_of state.now) max_entries
        leader.old leader.new result }
{
    let _keys = state.log_ids.key_log_ids();
    leader.next_request(state, to, max_entries)
}

/// Returns what a heartbeat to a member says, as `Leader::heartbeat` does.
pub fn sends_heartbeat<
    NID: NodeId,
    N: Node,
    I: Instant,
    L: LeaderIdentity<Id = NID, Committed = C> + Drop,
    C: Ord + Copy + Default + Drop + 'static,
    D,
>(leader: &Leader<NID, N, C>, state: &State<NID, N, I, L>, to: &NID) -> Option<Heartbeat<C>>
    ensures step { IfSome result (HeartbeatIsStep D NID.Ord N.eq L.LeaderIdentity C.Ord
        leader.now state.now) }
    ensures call { result ≡ option_map (heartbeat_to (log_view_of state.now))
        (entry_of NID.eq leader.now to.now) }
{
    let _keys = state.log_ids.key_log_ids();
    leader.heartbeat(state, to)
}

/// Commits, as `Leader::commit` does.
pub fn commits<
    NID: NodeId,
    N: Node,
    I: Instant,
    L: LeaderIdentity<Id = NID, Committed = C> + Drop,
    C: Ord + Copy + Default + Drop + 'static,
    D,
>(
    leader: &Leader<NID, N, C>,
    state: &mut State<NID, N, I, L>,
) -> Result<Option<LogIdOf<C>>, CommitError>
    ensures step { IfOk result (λ _. CommitIsStep D NID.Ord N.eq L.LeaderIdentity C.Ord
        leader.now state.old state.new) }
    ensures call { IfOk result (Commits NID.eq C.Ord leader.now state.old state.new) }
{
    let made = leader.commit(state);
    let _after = state.log_ids.key_log_ids();
    made
}

/// Restarts a server, as `restart_server` does.
pub fn restarts<NID: NodeId, N: Node, I: Instant, L: LeaderIdentity<Id = NID> + Drop, D>(
    alloc: Global,
    stored: &Stored<L, L::Committed, NID, N, D>,
) -> Result<State<NID, N, I, L>, RestartError>
    requires clones_are_equal { ClonesAreEqual N.eq N.is_clone }
    ensures step { IfOk result (λ state. RestartIsStep D NID.Ord N.eq L.LeaderIdentity L.Committed.Ord
        stored.now.vote stored.now.snapshot stored.now.entries.items stored.now.committed state) }
    ensures call { IfOk result (Restores L.Committed.Ord NID.eq N.eq stored.now.snapshot
        stored.now.entries.items stored.now.committed) }
{
    let state = restart_server(alloc, stored)?;
    let _after = state.log_ids.key_log_ids();
    Ok(state)
}
