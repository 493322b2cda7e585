//! A restart: the state of a server from what its disk has.
ghost use Rattle.std.specs.Prelude.{◌≡◌, ◌≤◌, None, IfErr, IfOk, IsOkAnd, IsTrue, OnOk, drop, length};
ghost use Rattle.std.specs.Set.{ClonesAreEqual};
ghost use Rattle.steps_handlers.specs.Restart.{entries_past, snapshot_fits, CommitsKnown, HasNotRun, IsRestartRefusal, Restores};
ghost use Rattle.steps_handlers.specs.Inner.Restart.{HasSnapshotAlone, RefusedUnlessFits};
ghost use Rattle.raft_state.specs.Accepted.{accepted_from};
ghost use Rattle.raft_state.specs.raft_state.Sound.{IsSound};
ghost use Rattle.raft_state.specs.raft_state.VoteAndLog.{vote_of};

use crate::error::{RestartError, SnapshotError};
use crate::log::{append_new, are_plain, commit};
use crate::snapshot::install;
use crate::state::State;
use raft_base::{Instant, LeaderIdentity, LogIdOf, Node, NodeId, VoteIn};
use raft_state::{AcceptedIn, EntryOf, RaftStateIn, SnapshotMetaOf, VoteStateReader};
use std::alloc::{AllocError, Global};

/// What the disk of a server has.
#[derive(Drop)]
pub struct Stored<L, C, NID: NodeId, N: Node, D> {
    /// The vote.
    pub vote: VoteIn<L>,
    /// What is known of the last snapshot.
    pub snapshot: SnapshotMetaOf<C, NID, N>,
    /// The entries of the log, with consecutive indexes. Those that the snapshot has may be
    /// missing.
    pub entries: Vec<EntryOf<C, NID, N, D>>,
    /// The last log id that is known to be committed, as that of the last entry that was applied.
    pub committed: Option<LogIdOf<C>>,
}

impl<L: Default, C: Copy, NID: NodeId, N: Node, D> Stored<L, C, NID, N, D> {
    ghost use Rattle.steps_handlers.specs.Restart.{IsEmptyDisk};

    /// Returns the disk of a server that has never run: the vote of term 0, no snapshot, no entry,
    /// and nothing committed. It replaces `Default`, which has no allocator. It never allocates, so
    /// the result is always `Ok`.
    pub fn try_default(alloc: Global) -> Result<Self, AllocError>
        ensures empty { IsOkAnd result (IsEmptyDisk L.is_default) }
    {
        let snapshot = SnapshotMetaOf::try_default(alloc)?;
        Ok(Stored {
            vote: VoteIn::default(),
            snapshot,
            entries: Vec::new(alloc),
            committed: None,
        })
    }
}

/// Restarts a server: returns the state that its disk tells. Its log is the snapshot and the
/// entries after it, and their memberships are effective. What is known to be committed is
/// committed, and so is the membership before the effective one. No leader is known, so nothing is
/// accepted.
///
/// The server has not run yet: it is a learner, its vote has no moment, and its storage has done
/// nothing.
///
/// If the entry at the last index of the snapshot has another log id, the install of the snapshot
/// was interrupted: then no entry is taken, and you remove all of them from disk.
pub fn restart_server<NID: NodeId, N: Node, I: Instant, L: LeaderIdentity<Id = NID> + Drop, D>(
    alloc: Global,
    stored: &Stored<L, L::Committed, NID, N, D>,
) -> Result<State<NID, N, I, L>, RestartError>
    requires clones_are_equal { ClonesAreEqual N.eq N.is_clone }
    ensures vote { IfOk result (λ state. vote_of state ≡ stored.now.vote) }
    ensures accepted { IfOk result (λ state. (leader : L) × L.Default.is_default leader
        × (state.accepted ≡ accepted_from leader None)) }
    ensures not_run { IfOk result
        (HasNotRun L.Default.is_default L.Committed.Default.is_default) }
    ensures restores { IfOk result (Restores L.Committed.Ord NID.eq N.eq stored.now.snapshot
        stored.now.entries.items stored.now.committed) }
    ensures refused { IfErr result (IsRestartRefusal L.Committed.eq L.Committed.cmp
        stored.now.snapshot stored.now.entries.items stored.now.committed) }
    ensures sound { IfOk result (IsSound L.Committed.eq L.Committed.cmp) }
{
    let mut state: State<NID, N, I, L> = from_snapshot(alloc, &stored.snapshot)?;
    let place = first_past(stored.snapshot.last_log_id, &stored.entries);
    let new = &stored.entries[place..];
    append_new(&mut state, new, are_plain(new))?;
    commit(&mut state, stored.committed)?;
    commit_known(&mut state)?;
    state.accepted = AcceptedIn::new(L::default(), None);
    *state.vote.get_mut() = stored.vote;
    Ok(state)
}

/// Commits up to the log id of the committed membership, if the log has it: a membership is
/// proposed once the one before it is committed.
fn commit_known<NID: NodeId, N: Node, I: Instant, L: Drop, C: Ord + Copy + Drop>(
    state: &mut RaftStateIn<NID, N, I, L, C>,
) -> Result<(), AllocError>
    ensures known { OnOk result (CommitsKnown C.eq C.cmp state.old.committed
        state.old.membership_state state.new) }
    ensures rest { state.new ≡ record state.old {
      committed = state.new.committed;
      membership_state = state.new.membership_state;
    } }
    ensures sound { IsSound C.eq C.cmp state.old → IsSound C.eq C.cmp state.new }
{
    let known = *state.membership_state.committed().log_id();
    if !state.is_logged(&known) || !state.can_commit(&known) {
        return Ok(());
    }
    state.update_committed(&known)?;
    Ok(())
}

/// Returns a new state with a snapshot, if there is one.
fn from_snapshot<NID: NodeId, N: Node, I: Instant, L: LeaderIdentity<Id = NID> + Drop>(
    alloc: Global,
    snapshot: &SnapshotMetaOf<L::Committed, NID, N>,
) -> Result<State<NID, N, I, L>, SnapshotError>
    requires clones_are_equal { ClonesAreEqual N.eq N.is_clone }
    ensures snapshot { IfOk result (HasSnapshotAlone NID.eq N.eq snapshot.now) }
    ensures not_run { IfOk result
        (HasNotRun L.Default.is_default L.Committed.Default.is_default) }
    ensures fits { OnOk result (IsTrue (snapshot_fits L.Committed.cmp
        snapshot.now.last_log_id snapshot.now.last_membership)) }
    ensures refused { IfErr result (RefusedUnlessFits
        (snapshot_fits L.Committed.cmp snapshot.now.last_log_id snapshot.now.last_membership)) }
    ensures sound { IfOk result (IsSound L.Committed.eq L.Committed.cmp) }
{
    let mut state = State::<NID, N, I, L>::try_default(alloc)?;
    if snapshot.last_log_id.is_some() {
        // An install takes a committed vote.
        let mut vote = *state.vote_ref();
        vote.commit();
        let _promised = state.promise(vote);
        let _installed = install(&mut state, snapshot)?;
    }
    Ok(state)
}

/// Returns the place of the first entry past the last log id of a snapshot, or the number of
/// entries if there is none, or if another leader's entry has the index of that log id.
fn first_past<NID: NodeId, N: Node, C: Ord + Copy, D>(
    last: Option<LogIdOf<C>>,
    entries: &[EntryOf<C, NID, N, D>],
) -> usize
    ensures within { result ≤ length entries.now }
    ensures past { drop result entries.now ≡ entries_past C.eq last entries.now }
{
    let Some(upto) = last else {
        return 0;
    };
    for (place, entry) in entries.iter().enumerate() {
        let log_id = entry.log_id;
        if upto.index < log_id.index {
            return place;
        }
        if log_id.index == upto.index && log_id.leader_id != upto.leader_id {
            return entries.len();
        }
    }
    entries.len()
}
