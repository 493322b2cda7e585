//! A story of three servers that is a run, over any leader ids.
//!
//! The first server is elected, and writes an entry that reaches nobody. So does the third one in a
//! later term. Then the third one is elected again, replicates its log with another entry to the
//! second one, and commits it. Then it hears of the first one again. The first one answers a
//! heartbeat that the logs conflict, and its log is cut. It answers the next heartbeat that the
//! logs match. It takes the new entries, and knows that they are committed.
//!
//! The contract of each part says what the part makes of a run, and that of `three_servers` that a
//! run ends with what it returns. So `laws::runs_are_safe` speaks of these calls.
ghost use Rattle.std.specs.Prelude.{◌≡◌, ℕ, false, IfSome, IsTrue};
ghost use Rattle.tests_safety.specs.Story.{AreLogged, Beats, EndsRun, Exchanges, HearsAgain, IsAsWritten, IsKnown, IsOfCampaign, IsStarted, LeadsAlone, LeadsBack, LeadsInVain, LeadsWith, Sends, TellsStory, Wins};
ghost use Rattle.raft_state.specs.log_id_list.FullLog.{full_log};
ghost use Rattle.raft_state.specs.raft_state.VoteAndLog.{vote_of};

use raft_base::{EmptyNode, LeaderIdentity, LogIdOf, LogIdOptionExt, LogStateReader, VoteIn};
use raft_members::Membership;
use raft_progress::InflightOf;
use raft_state::{EntryOf, EntryPayload, RaftStateIn, VoteStateReader};
use std::alloc::Global;
use steps_handlers::{AppendEntries, Leader, Outcome, RequestNumber, State};
use steps_safety::{first, step};

/// What is known of a server.
#[derive(PartialEq, Drop)]
pub struct Known<L, C> {
    /// Its vote.
    pub vote: VoteIn<L>,
    /// Its last log id.
    pub last: Option<LogIdOf<C>>,
    /// The last log id that it knows to be committed.
    pub committed: Option<LogIdOf<C>>,
}

/// What the three servers have come to, and what the first one has answered to the heartbeats of a
/// leader that it had not heard of.
#[derive(PartialEq, Drop)]
pub struct Story<L, C> {
    pub one: Known<L, C>,
    pub two: Known<L, C>,
    pub three: Known<L, C>,
    /// The answer to the first heartbeat, at which its log was cut.
    pub cut: Outcome<L, C>,
    /// The answer to the second heartbeat, which the leader has counted.
    pub found: Outcome<L, C>,
}

/// A server campaigns, past a term that it has heard of. Another one votes for it, and it leads.
pub fn wins<
    L: LeaderIdentity<Id = u64, Committed = C> + Drop,
    C: Ord + Copy + Default + Drop + 'static,
>(
    id: u64,
    term: u64,
    state: &mut State<u64, EmptyNode, u64, L>,
    voter: &u64,
    other: &mut State<u64, EmptyNode, u64, L>,
) -> Option<Leader<u64, EmptyNode, C>>
    ensures run { IfSome result (Wins ℕ ⟦<u64 as Ord>⟧ ⟦<EmptyNode as PartialEq>⟧.eq
        L.LeaderIdentity C.Ord id voter.now
        state.old state.new other.old other.new) }
    ensures of_campaign { IfSome result (λ _.
        IsOfCampaign L.LeaderIdentity id (vote_of state.new).leader_id) }
{
    let Ok(mut candidate) = step::campaigns::<u64, EmptyNode, u64, L, C, u64>(id, term, state)
    else {
        return None;
    };
    let request = candidate.request();
    let response = step::answers_candidate::<u64, EmptyNode, u64, L, u64>(other, &request);
    step::counts::<u64, EmptyNode, u64, L, C, u64>(&mut candidate, voter, &response);
    let made = step::leads::<u64, EmptyNode, u64, L, C, u64>(state, &candidate);
    drop(candidate);
    let Ok(leader) = made else {
        return None;
    };
    Some(leader)
}

/// A leader writes a blank entry at the end of its log, which is not empty.
pub fn writes<
    L: LeaderIdentity<Id = u64, Committed = C> + Drop,
    C: Ord + Copy + Default + Drop + 'static,
>(leader: &Leader<u64, EmptyNode, C>, state: &mut State<u64, EmptyNode, u64, L>) -> Option<()>
    ensures run { IfSome result (λ _. LeadsAlone ℕ ⟦<u64 as Ord>⟧ ⟦<EmptyNode as PartialEq>⟧.eq
        L.LeaderIdentity C.Ord
        state.old state.new leader.now leader.now) }
    ensures vote { IfSome result (λ _. vote_of state.new ≡ vote_of state.old) }
{
    let Some(_last) = state.last_log_id().copied() else {
        return None;
    };
    let Ok(_entry) = step::proposes_blank::<u64, EmptyNode, u64, L, C, u64>(leader, state) else {
        return None;
    };
    Some(())
}

/// A server is elected, as in `wins`, and writes a blank entry, which reaches nobody.
pub fn leads_in_vain<
    L: LeaderIdentity<Id = u64, Committed = C> + Drop,
    C: Ord + Copy + Default + Drop + 'static,
>(
    id: u64,
    term: u64,
    state: &mut State<u64, EmptyNode, u64, L>,
    voter: &u64,
    other: &mut State<u64, EmptyNode, u64, L>,
) -> Option<()>
    ensures run { IfSome result (λ _. LeadsInVain ℕ ⟦<u64 as Ord>⟧ ⟦<EmptyNode as PartialEq>⟧.eq
        L.LeaderIdentity C.Ord id voter.now
        state.old state.new other.old other.new) }
    ensures of_campaign { IfSome result (λ _.
        IsOfCampaign L.LeaderIdentity id (vote_of state.new).leader_id) }
{
    let Some(leader) = wins(id, term, state, voter, other) else {
        return None;
    };
    let wrote = writes(&leader, state);
    drop(leader);
    let Some(()) = wrote else {
        return None;
    };
    Some(())
}

/// Returns what the entry at an index holds. Index 0 has the membership, and every other entry is
/// blank.
fn payload_at(
    members: &Membership<u64, EmptyNode>,
    index: u64,
) -> Option<EntryPayload<u64, EmptyNode, u64>>
    ensures read { IfSome result (IsAsWritten members.now.configs index) }
{
    if index != 0 {
        return Some(EntryPayload::Blank);
    }
    let Ok(stored) = members.try_clone() else {
        return None;
    };
    Some(EntryPayload::Membership(stored))
}

/// Reads entries of a log from the disk.
fn entries<
    L: LeaderIdentity<Id = u64, Committed = C> + Drop,
    C: Ord + Copy + Default + Drop + 'static,
>(
    state: &State<u64, EmptyNode, u64, L>,
    members: &Membership<u64, EmptyNode>,
    from: u64,
    until: u64,
) -> Option<Vec<EntryOf<C, u64, EmptyNode, u64>>>
    ensures logged { IfSome result (λ read.
        AreLogged members.now.configs (full_log state.now.log_ids) read.items) }
{
    let mut read = Vec::new(*members.get_joint_config().allocator());
    for index in from..until {
        let Some(log_id) = state.get_log_id(index) else {
            return None;
        };
        let Some(payload) = payload_at(members, index) else {
            return None;
        };
        let Ok(()) = read.push(EntryOf { log_id, payload }) else {
            return None;
        };
    }
    Some(read)
}

/// A leader sends a follower the entries that it may lack.
pub fn sends<
    L: LeaderIdentity<Id = u64, Committed = C> + Drop,
    C: Ord + Copy + Default + Drop + 'static,
>(
    leader: &mut Leader<u64, EmptyNode, C>,
    state: &State<u64, EmptyNode, u64, L>,
    to: &u64,
    members: &Membership<u64, EmptyNode>,
) -> Option<AppendEntries<L, C, u64, EmptyNode, u64>>
    ensures run { IfSome result (Sends ℕ ⟦<u64 as Ord>⟧ ⟦<EmptyNode as PartialEq>⟧.eq
        L.LeaderIdentity C.Ord
        members.now.configs state.now leader.old leader.new) }
    ensures own { IfSome result (λ request. request.leader_id ≡ (vote_of state.now).leader_id) }
{
    let Some(sending) = step::sends::<u64, EmptyNode, u64, L, C, u64>(leader, state, to, 64) else {
        return None;
    };
    let InflightOf::Logs { id, log_id_range } = sending else {
        return None;
    };
    let (prev, last) = (log_id_range.prev, log_id_range.last);
    if !prev.has_next_index() || !last.has_next_index() {
        return None;
    }
    let Some(entries) = entries(state, members, prev.next_index(), last.next_index()) else {
        return None;
    };
    Some(AppendEntries {
        leader_id: state.vote_ref().leader_id,
        request: RequestNumber::InFlight(id),
        prev,
        entries,
        committed: state.committed,
    })
}

/// A leader sends a heartbeat to a follower.
pub fn beats<
    L: LeaderIdentity<Id = u64, Committed = C> + Drop,
    C: Ord + Copy + Default + Drop + 'static,
>(
    leader: &Leader<u64, EmptyNode, C>,
    state: &State<u64, EmptyNode, u64, L>,
    to: &u64,
    alloc: Global,
) -> Option<AppendEntries<L, C, u64, EmptyNode, u64>>
    ensures run { IfSome result (Beats ℕ ⟦<u64 as Ord>⟧ ⟦<EmptyNode as PartialEq>⟧.eq
        L.LeaderIdentity C.Ord
        state.now leader.now) }
    ensures own { IfSome result (λ request. request.leader_id ≡ (vote_of state.now).leader_id) }
{
    let Some(heartbeat) = step::sends_heartbeat::<u64, EmptyNode, u64, L, C, u64>(leader, state, to)
    else {
        return None;
    };
    Some(AppendEntries {
        leader_id: state.vote_ref().leader_id,
        request: heartbeat.request,
        prev: heartbeat.prev,
        entries: Vec::new(alloc),
        committed: state.committed,
    })
}

/// A follower answers a request, and the leader takes the answer. Returns what it is.
pub fn exchanges<
    L: LeaderIdentity<Id = u64, Committed = C> + Drop,
    C: Ord + Copy + Default + Drop + 'static,
>(
    leader: &mut Leader<u64, EmptyNode, C>,
    to: &u64,
    follower: &mut State<u64, EmptyNode, u64, L>,
    request: &AppendEntries<L, C, u64, EmptyNode, u64>,
) -> Option<Outcome<L, C>>
    ensures run { IfSome result (λ outcome. Exchanges ℕ ⟦<u64 as Ord>⟧ ⟦<EmptyNode as PartialEq>⟧.eq
        L.LeaderIdentity C.Ord to.now
        follower.old follower.new request.now outcome leader.old leader.new) }
{
    let Ok(made) = step::answers_leader::<u64, EmptyNode, u64, L, u64>(follower, request) else {
        return None;
    };
    let Ok(()) = leader.handle_response(to, &made.0) else {
        return None;
    };
    Some(made.0.outcome)
}

/// A leader sends a heartbeat to a follower, and takes the answer. Returns what it is.
pub fn asks<
    L: LeaderIdentity<Id = u64, Committed = C> + Drop,
    C: Ord + Copy + Default + Drop + 'static,
>(
    leader: &mut Leader<u64, EmptyNode, C>,
    state: &State<u64, EmptyNode, u64, L>,
    to: &u64,
    follower: &mut State<u64, EmptyNode, u64, L>,
    alloc: Global,
) -> Option<Outcome<L, C>>
    ensures run { IfSome result (λ outcome. LeadsBack ℕ ⟦<u64 as Ord>⟧ ⟦<EmptyNode as PartialEq>⟧.eq
        L.LeaderIdentity C.Ord to.now
        state.now follower.old follower.new outcome leader.old leader.new) }
{
    let Some(request) = beats(leader, state, to, alloc) else {
        return None;
    };
    exchanges(leader, to, follower, &request)
}

/// A leader, whose log is on disk, counts itself, and commits what a quorum has. Returns the log id
/// up to which its log is committed then.
pub fn commits<
    L: LeaderIdentity<Id = u64, Committed = C> + Drop,
    C: Ord + Copy + Default + Drop + 'static,
>(
    leader: &mut Leader<u64, EmptyNode, C>,
    state: &mut State<u64, EmptyNode, u64, L>,
) -> Option<LogIdOf<C>>
    ensures run { IfSome result (λ _. LeadsAlone ℕ ⟦<u64 as Ord>⟧ ⟦<EmptyNode as PartialEq>⟧.eq
        L.LeaderIdentity C.Ord
        state.old state.new leader.old leader.new) }
{
    let upto = state.last_log_id().copied();
    let Ok(()) = leader.handle_flushed(state, upto) else {
        return None;
    };
    let Ok(committed) = step::commits::<u64, EmptyNode, u64, L, C, u64>(leader, state) else {
        return None;
    };
    committed
}

/// A leader writes an entry, replicates it to a follower, and commits it. Returns the log id up to
/// which its log is committed then.
pub fn replicates<
    L: LeaderIdentity<Id = u64, Committed = C> + Drop,
    C: Ord + Copy + Default + Drop + 'static,
>(
    leader: &mut Leader<u64, EmptyNode, C>,
    state: &mut State<u64, EmptyNode, u64, L>,
    to: &u64,
    follower: &mut State<u64, EmptyNode, u64, L>,
    members: &Membership<u64, EmptyNode>,
) -> Option<LogIdOf<C>>
    ensures run { IfSome result (λ _. LeadsWith ℕ ⟦<u64 as Ord>⟧ ⟦<EmptyNode as PartialEq>⟧.eq
        L.LeaderIdentity C.Ord
        members.now.configs to.now state.old state.new follower.old follower.new leader.old leader.new) }
{
    let Some(()) = writes(leader, state) else {
        return None;
    };
    let Some(request) = sends(leader, state, to, members) else {
        return None;
    };
    let Some(_outcome) = exchanges(leader, to, follower, &request) else {
        return None;
    };
    commits(leader, state)
}

/// A leader hears of a follower again. A first request is lost. The answer to a heartbeat is that
/// the logs conflict, and the answer to the next one that they match, so nothing is in flight any
/// more. Then the follower takes the entries that are sent again. Returns the answers to the
/// heartbeats.
pub fn hears_again<
    L: LeaderIdentity<Id = u64, Committed = C> + Drop,
    C: Ord + Copy + Default + Drop + 'static,
>(
    leader: &mut Leader<u64, EmptyNode, C>,
    state: &State<u64, EmptyNode, u64, L>,
    to: &u64,
    follower: &mut State<u64, EmptyNode, u64, L>,
    members: &Membership<u64, EmptyNode>,
) -> Option<(Outcome<L, C>, Outcome<L, C>)>
    ensures run { IfSome result (λ answers. HearsAgain
        ℕ ⟦<u64 as Ord>⟧ ⟦<EmptyNode as PartialEq>⟧.eq L.LeaderIdentity C.Ord
        members.now.configs to.now
        state.now follower.old follower.new answers.0 answers.1 leader.old leader.new) }
{
    let alloc = *members.get_joint_config().allocator();
    let Some(_lost) = sends(leader, state, to, members) else {
        return None;
    };
    let Some(cut) = asks(leader, state, to, follower, alloc) else {
        return None;
    };
    let Some(found) = asks(leader, state, to, follower, alloc) else {
        return None;
    };
    let Some(request) = sends(leader, state, to, members) else {
        return None;
    };
    let Some(_outcome) = exchanges(leader, to, follower, &request) else {
        return None;
    };
    Some((cut, found))
}

/// A new server, in a cluster with these members.
fn server<
    L: LeaderIdentity<Id = u64, Committed = C> + Drop,
    C: Ord + Copy + Default + Drop + 'static,
>(
    alloc: Global,
    id: &u64,
    members: &Membership<u64, EmptyNode>,
) -> Option<State<u64, EmptyNode, u64, L>>
    ensures started { IfSome result (IsStarted L.LeaderIdentity C.Ord members.now.configs) }
{
    let Ok(members) = members.try_clone() else {
        return None;
    };
    let Ok(mut state) = first::begins::<u64, EmptyNode, u64, L>(alloc) else {
        return None;
    };
    let Ok(_entries) = first::starts::<u64, EmptyNode, u64, L, u64>(&mut state, id, members) else {
        return None;
    };
    Some(state)
}

/// The story: the first server and then the third one are elected and write an entry. The third one
/// is elected again, replicates and commits its log, and hears of the first one again. Returns what
/// the first one has answered to its heartbeats then.
pub fn tell<
    L: LeaderIdentity<Id = u64, Committed = C> + Drop,
    C: Ord + Copy + Default + Drop + 'static,
>(
    one: &mut State<u64, EmptyNode, u64, L>,
    two: &mut State<u64, EmptyNode, u64, L>,
    three: &mut State<u64, EmptyNode, u64, L>,
    members: &Membership<u64, EmptyNode>,
) -> Option<(Outcome<L, C>, Outcome<L, C>)>
    ensures tells { IfSome result (λ answers. TellsStory
        ℕ ⟦<u64 as Ord>⟧ ⟦<EmptyNode as PartialEq>⟧.eq L.LeaderIdentity C.Ord
        members.now.configs 1 2 3 one.old two.old three.old one.new two.new three.new answers.0 answers.1) }
{
    let Some(()) = leads_in_vain(1, 0, one, &2, two) else {
        return None;
    };
    let Some(()) = leads_in_vain(3, 1, three, &2, two) else {
        return None;
    };
    let Some(mut leader) = wins(3, 2, three, &2, two) else {
        return None;
    };
    let Some(_committed) = replicates(&mut leader, three, &2, two, members) else {
        return None;
    };
    hears_again(&mut leader, three, &1, one, members)
}

/// Reads what is known of a server.
fn knows<L: Copy + Drop, C: Ord + Copy + Drop>(
    state: &RaftStateIn<u64, EmptyNode, u64, L, C>,
) -> Known<L, C>
    ensures { IsKnown state.now result }
{
    Known {
        vote: *state.vote_ref(),
        last: state.last_log_id().copied(),
        committed: state.committed,
    }
}

/// The servers 1, 2 and 3, which are the members of a cluster, go through the story. The result is
/// `None` if there is no memory.
pub fn three_servers<
    L: LeaderIdentity<Id = u64, Committed = C> + Drop,
    C: Ord + Copy + Default + Drop + 'static,
>(alloc: Global, members: &Membership<u64, EmptyNode>) -> Option<Story<L, C>>
    requires exact { (x y : C) → IsTrue (C.eq x y) → x ≡ y }
    requires one_default { (a b : L) → L.Default.is_default a → L.Default.is_default b → a ≡ b }
    requires one_term { (a b : L) → L.committed a ≡ L.committed b → L.term_of a ≡ L.term_of b }
    ensures run { IfSome result (EndsRun ℕ ℕ ⟦<u64 as Ord>⟧ ⟦<EmptyNode as PartialEq>⟧.eq
        L.LeaderIdentity C.Ord 1 2 3) }
{
    let one = server::<L, C>(alloc, &1, members);
    let two = server::<L, C>(alloc, &2, members);
    let three = server::<L, C>(alloc, &3, members);
    let Some(mut servers) = one.zip(two).zip(three) else {
        return None;
    };
    let told = tell(&mut servers.0.0, &mut servers.0.1, &mut servers.1, members);
    let one = knows(&servers.0.0);
    let two = knows(&servers.0.1);
    let three = knows(&servers.1);
    drop(servers);
    let Some(answers) = told else {
        return None;
    };
    Some(Story {
        one,
        two,
        three,
        cut: answers.0,
        found: answers.1,
    })
}
