//! The whole state of a node: how it is made and read. Its other functions are in `append`,
//! `catch_up`, `install`, `log`, `role`, `snapshot`, `sound`, `truncate` and `validate`.
ghost use Rattle.std.specs.Prelude.{◌≡◌, ◌&&◌, true, false, IsTrue, IfOk, None, Some, if◌then◌else◌};
ghost use Rattle.std.specs.Option.{option_copied};
ghost use Rattle.std.specs.Ordering.{partial_ge};
ghost use Rattle.std.specs.Set.{ClonesAreEqual};
ghost use Rattle.raft_base.specs.LogId.{id_le};
ghost use Rattle.raft_base.specs.UTime.{moment_of, utime_of};
ghost use Rattle.raft_base.specs.Vote.{vote_cmp};
ghost use Rattle.raft_state.specs.Accepted.{leader_of, accepted_id, after_accept};
ghost use Rattle.raft_state.specs.log_id_list.FullLog.{full_log};
ghost use Rattle.raft_state.specs.raft_state.Role.{is_initialized};
ghost use Rattle.raft_state.specs.log_id_list.LogReads.{last_id};
ghost use Rattle.raft_state.specs.raft_state.NewState.{IsNewState, HasNewVote};
ghost use Rattle.raft_state.specs.SnapshotMeta.{IsSnapshotCopy};
ghost use Rattle.raft_state.specs.raft_state.Sound.{IsSound};
ghost use Rattle.raft_state.specs.raft_state.VoteAndLog.{log_view_of, vote_of};
ghost use Rattle.raft_state.specs.raft_state.Valid.{broken_relation};

pub use crate::accepted::Accepted;
use crate::accepted::AcceptedIn;
pub use crate::io_state::{IOState, LogIOId};
use crate::io_state::{IOStateIn, LogIOIdOf};
use crate::log_id_list::LogIdListOf;
use crate::membership_state::MembershipStateOf;
pub use crate::membership_state::{ChangeHandler, MembershipState};
pub use crate::snapshot_meta::SnapshotMeta;
use crate::snapshot_meta::SnapshotMetaOf;
pub use crate::vote_state_reader::VoteStateReader;
pub use raft_base::LogStateReader;
use raft_base::{
    Instant, LeaderAdv, LeaderIdentity, LeaderKind, LogIdOf, Node, NodeId, ServerState, UTime,
    VoteIn,
};
use std::alloc::{AllocError, Global};
use std::fmt;

/// The whole state of a node, as it is after storage has done all that it was told to do.
///
/// A node decides by this state and not by what is on disk, which may be behind. The progress of
/// storage is in `io_state`.
#[derive(PartialEq, Eq, Drop)]
pub struct RaftStateIn<NID: NodeId, N: Node, I: Instant, L, C: Ord + Copy> {
    /// The vote, and the moment of its last update.
    pub vote: UTime<VoteIn<L>, I>,
    /// The last log id that is known to be committed.
    pub committed: Option<LogIdOf<C>>,
    /// The index after the last purged one, or 0 if nothing was purged.
    pub purged_next: u64,
    /// The log ids, from the last purged one on.
    pub log_ids: LogIdListOf<C>,
    /// The last committed membership, and the effective one.
    pub membership_state: MembershipStateOf<C, NID, N>,
    /// The last snapshot.
    pub snapshot_meta: SnapshotMetaOf<C, NID, N>,
    /// The role of the node, as it was last calculated. Only the caller writes it: when the vote or
    /// a membership has changed, it stores the result of `calc_server_state` here.
    pub server_state: ServerState,
    /// What the node has accepted of the leader's log.
    pub accepted: AcceptedIn<L, C>,
    /// The progress of storage. Only the caller writes it, when storage has done something.
    pub io_state: IOStateIn<L, C>,
    /// The log id up to which the log is to be purged, when nobody reads it any more.
    pub purge_upto: Option<LogIdOf<C>>,
}

/// The state of a node, for a kind of leader ids.
pub type RaftStateOf<NID, N, I, K> = RaftStateIn<
    NID,
    N,
    I,
    <K as LeaderKind<NID>>::Leader,
    <K as LeaderKind<NID>>::Committed,
>;

/// The state of a node, with the default leader ids.
pub type RaftState<NID, N, I> = RaftStateOf<NID, N, I, LeaderAdv>;

impl<NID: NodeId, N: Node, I: Instant, L: Drop, C: Ord + Copy + Drop> LogStateReader<C>
    for RaftStateIn<NID, N, I, L, C> {
    ghost use Rattle.raft_state.specs.log_id_list.LogReadsLawful.{id_at-indexed};

    ghost log_view = { log_view_of };

    fn get_log_id(&self, index: u64) -> Option<LogIdOf<C>> {
        self.log_ids.get_from_end(index)
    }

    fn last_log_id(&self) -> Option<&LogIdOf<C>> {
        self.log_ids.last()
    }

    fn committed(&self) -> Option<&LogIdOf<C>> {
        self.committed.as_ref()
    }

    fn io_applied(&self) -> Option<&LogIdOf<C>> {
        self.io_state.applied.as_ref()
    }

    fn io_snapshot_last_log_id(&self) -> Option<&LogIdOf<C>> {
        self.io_state.snapshot.as_ref()
    }

    fn io_purged(&self) -> Option<&LogIdOf<C>> {
        self.io_state.purged.as_ref()
    }

    fn snapshot_last_log_id(&self) -> Option<&LogIdOf<C>> {
        self.snapshot_meta.last_log_id.as_ref()
    }

    fn purge_upto(&self) -> Option<&LogIdOf<C>> {
        self.purge_upto.as_ref()
    }

    fn last_purged_log_id(&self) -> Option<&LogIdOf<C>> {
        if self.purged_next == 0 {
            None
        } else {
            self.log_ids.first()
        }
    }

    ghost indexed = { λ s i. id_at-indexed (full_log s.log_ids) i };
}

impl<NID: NodeId, N: Node, I: Instant, L: Drop, C: Ord + Copy> VoteStateReader<L>
    for RaftStateIn<NID, N, I, L, C> {
    ghost vote_of = { vote_of };

    fn vote_ref(&self) -> &VoteIn<L> {
        self.vote.get()
    }
}

/// Whether a leader is at least another one.
fn is_no_lesser<L: LeaderIdentity>(leader: &L, than: &L) -> bool
    ensures { result ≡ partial_ge L.order leader.now than.now }
{
    match L::compare(leader, than) {
        Some(ordering) => ordering.is_ge(),
        None => false,
    }
}

impl<
    NID: NodeId,
    N: Node,
    I: Instant,
    C: Ord + Copy + Default + Drop + 'static,
    L: LeaderIdentity<Id = NID, Committed = C> + Drop,
> RaftStateIn<NID, N, I, L, C> {
    /// Returns the state of a new node, or an allocation error. It replaces `Default`, which has no
    /// allocator. Its vote is of term 0, before each term in which a node votes.
    pub fn try_default(alloc: Global) -> Result<Self, AllocError>
        ensures new { IfOk result IsNewState }
        ensures new_vote { IfOk result (λ s. (leader : L) × (elected : C)
            × L.Default.is_default leader × C.Default.is_default elected
            × HasNewVote leader elected s) }
        ensures first_term { IfOk result (λ s. L.term_of (vote_of s).leader_id ≡ 0) }
        ensures valid { IfOk result (λ s. broken_relation C.cmp s ≡ None) }
        ensures sound { IfOk result (IsSound C.eq C.cmp) }
    {
        // What may fail is made first, so that little is owned at each exit.
        let membership_state = MembershipStateOf::try_default(alloc)?;
        let snapshot_meta = SnapshotMetaOf::try_default(alloc)?;
        let leader_id = L::default();
        let vote = VoteIn {
            leader_id,
            committed: false,
        };
        let flushed = LogIOIdOf::new(C::default(), None);
        Ok(RaftStateIn {
            vote: UTime::without_utime(vote),
            committed: None,
            purged_next: 0,
            log_ids: LogIdListOf::new(Vec::new(alloc)),
            membership_state,
            snapshot_meta,
            server_state: ServerState::Learner,
            accepted: AcceptedIn::new(leader_id, None),
            io_state: IOStateIn::new(vote, flushed, None, None, None),
            purge_upto: None,
        })
    }

    /// Returns an equal state, with the memberships shared and with clones of the nodes in the
    /// snapshot's membership, or an allocation error.
    pub fn try_clone(&self) -> Result<Self, AllocError>
        requires clones_are_equal { ClonesAreEqual N.eq N.is_clone }
        ensures snapshot { IfOk result (λ copy.
            IsSnapshotCopy NID.eq N.eq self.now.snapshot_meta copy.snapshot_meta) }
        ensures rest { IfOk result (λ copy.
            copy ≡ record self.now { snapshot_meta = copy.snapshot_meta }) }
    {
        self.with_snapshot_meta(self.snapshot_meta.try_clone()?)
    }

    /// Whether the node has a log or has voted. Only a node that is not initialized may start a new
    /// cluster.
    pub fn is_initialized(&self) -> bool
        ensures { (unset : L) × L.Default.is_default unset × (result
            ≡ is_initialized L.eq (full_log self.now.log_ids) (vote_of self.now) unset) }
    {
        let unset = L::default();
        let vote = self.vote.get();
        self.log_ids.last().is_some() || vote.committed || vote.leader_id != unset
    }

    /// Returns the last log id that was accepted from the vote's leader.
    pub fn accepted(&self) -> Option<&LogIdOf<C>>
        ensures { option_copied result
            ≡ accepted_id L.eq self.now.accepted (vote_of self.now).leader_id }
    {
        self.accepted
            .last_accepted_log_id(self.vote.get().leader_id())
    }

    /// Whether the preconditions of `update_accepted` hold: the vote is committed, and its leader
    /// is at least the leader of what was accepted before.
    pub fn can_accept(&self) -> bool
        ensures { result ≡ ((vote_of self.now).committed
            && partial_ge L.order (vote_of self.now).leader_id (leader_of self.now.accepted)) }
    {
        let vote = self.vote.get();
        vote.is_committed() && is_no_lesser(vote.leader_id(), self.accepted.leader_id())
    }

    /// Takes a log id that was accepted from the vote's leader, if it is greater than the last one
    /// that was accepted from this leader. What was accepted from another leader is replaced. It
    /// requires `can_accept`. If the log id is not past the log, a sound state stays sound.
    ///
    /// A leader calls this for each entry that it appends to its own log. A follower may call it
    /// after it has appended a leader's entries, or has found that it has them: up to that log id,
    /// and no further, its log is the leader's.
    pub fn update_accepted(&mut self, accepted: Option<LogIdOf<C>>)
        requires committed { (vote_of self.old).committed ≡ true }
        requires no_lesser_leader { IsTrue (partial_ge L.order (vote_of self.old).leader_id
            (leader_of self.old.accepted)) }
        ensures taken { self.new ≡ record self.old {
          accepted = after_accept L.eq C.cmp
              self.old.accepted (vote_of self.old).leader_id accepted;
        } }
        ensures sound { IsSound C.eq C.cmp self.old →
            IsTrue (id_le C.cmp accepted (last_id (full_log self.old.log_ids))) →
            IsSound C.eq C.cmp self.new }
    {
        let leader_id = self.vote.get().leader_id;
        self.accepted.update(leader_id, accepted);
    }

    /// Promises a vote, if it is at least the present one, and returns whether it did. The moment
    /// of the vote's last update stays. A sound state stays sound.
    ///
    /// A vote never falls: a node that has promised a vote accepts nothing from a lesser leader.
    /// Write the vote to disk before any message leaves.
    #[must_use]
    pub fn promise(&mut self, vote: VoteIn<L>) -> bool
        ensures answer { result ≡ partial_ge (vote_cmp L.order) vote (vote_of self.old) }
        ensures taken { self.new ≡ (if result
            then record self.old { vote = utime_of vote (moment_of self.old.vote) } else self.old) }
        ensures monotone { IsTrue
            (partial_ge (vote_cmp L.order) (vote_of self.new) (vote_of self.old)) }
        ensures sound { IsSound C.eq C.cmp self.old → IsSound C.eq C.cmp self.new }
    {
        if vote >= *self.vote.get() {
            *self.vote.get_mut() = vote;
            true
        } else {
            false
        }
    }
}

impl<NID: NodeId, N: Node, I: Instant, L: Drop, C: Ord + Copy + Drop> RaftStateIn<NID, N, I, L, C> {
    ghost use Rattle.std.specs.Borrow.{sem, Lends};
    ghost use Rattle.raft_state.specs.contracts.raft_state.RaftStateIn.{the_row};
    ghost use Rattle.raft_state.specs.contracts.io_state.IOStateIn.{the_row as the_io_row};

    /// Returns the vote.
    pub fn vote_ref(&self) -> &VoteIn<L>
        ensures { result.now ≡ vote_of self.now }
    {
        self.vote.get()
    }

    /// Returns the moment of the vote's last update, if there was one.
    pub fn vote_last_modified(&self) -> Option<I>
        ensures { result ≡ moment_of self.now.vote }
    {
        self.vote.utime()
    }

    /// Lends the progress of storage for writing. Nothing else changes.
    pub fn io_state_mut(&mut self) -> &mut IOStateIn<L, C>
        ensures* written { sem 𝓛 (Lends (the_row NID.row N.row I.row L.row C.row NID.PartialEq
            NID.Ord.own NID.PartialOrd.own NID.Debug NID.Display NID.Hash.own NID.Default
            N.PartialEq N.Debug N.Clone N.NodeDefault.own C.Ord.own C.PartialEq C.PartialOrd.own)
            (the_io_row L.row C.row) self.entry result
            (λ io. record self.old { io_state = io })) }
        ensures value { result.now ≡ self.old.io_state }
    {
        &mut self.io_state
    }

    /// Returns the progress of storage.
    pub fn io_state(&self) -> &IOStateIn<L, C>
        ensures { result.now ≡ self.now.io_state }
    {
        &self.io_state
    }
}

impl<NID: NodeId, N: Node, I: Instant, L: Copy, C: Ord + Copy + Drop> RaftStateIn<NID, N, I, L, C> {
    /// Returns an equal state with another snapshot. The memberships are shared.
    fn with_snapshot_meta(
        &self,
        snapshot_meta: SnapshotMetaOf<C, NID, N>,
    ) -> Result<Self, AllocError>
        ensures { IfOk result (λ copy. copy ≡ record self.now { snapshot_meta = snapshot_meta }) }
    {
        Ok(RaftStateIn {
            vote: same_vote(&self.vote),
            committed: self.committed,
            purged_next: self.purged_next,
            log_ids: self.log_ids.try_clone()?,
            membership_state: self.membership_state.try_clone()?,
            snapshot_meta,
            server_state: self.server_state,
            accepted: AcceptedIn {
                leader_id: self.accepted.leader_id,
                log_id: self.accepted.log_id,
            },
            io_state: self.io_state,
            purge_upto: self.purge_upto,
        })
    }
}

/// Returns an equal vote with its moment.
fn same_vote<L: Copy, I: Instant>(vote: &UTime<VoteIn<L>, I>) -> UTime<VoteIn<L>, I>
    ensures { result ≡ vote.now }
{
    match vote.utime() {
        Some(moment) => UTime::new(moment, *vote.get()),
        None => UTime::without_utime(*vote.get()),
    }
}

/// A clone shares the memberships, and clones the nodes in the snapshot's membership.
impl<NID: NodeId, N: Node, I: Instant, L: Copy, C: Ord + Copy + Drop> Clone
    for RaftStateIn<NID, N, I, L, C> {
    ghost is_clone = { λ state copy.
        ⟦<SnapshotMetaOf<C, NID, N> as Clone>⟧.is_clone state.snapshot_meta copy.snapshot_meta
        × (copy ≡ record state { snapshot_meta = copy.snapshot_meta }) };

    fn clone(&self) -> Result<Self, AllocError> {
        self.with_snapshot_meta(self.snapshot_meta.clone()?)
    }
}

// Handwritten, because the text has the name `RaftState` and not `RaftStateIn`.
impl<NID: NodeId, N: Node, I: Instant, L: fmt::Debug, C: Ord + Copy + fmt::Debug> fmt::Debug
    for RaftStateIn<NID, N, I, L, C> {
    fn fmt<W: fmt::Write>(&self, f: &mut fmt::Formatter<W>) -> fmt::Result {
        f.debug_struct("RaftState")
            .field("vote", &self.vote)
            .field("committed", &self.committed)
            .field("purged_next", &self.purged_next)
            .field("log_ids", &self.log_ids)
            .field("membership_state", &self.membership_state)
            .field("snapshot_meta", &self.snapshot_meta)
            .field("server_state", &self.server_state)
            .field("accepted", &self.accepted)
            .field("io_state", &self.io_state)
            .field("purge_upto", &self.purge_upto)
            .finish()
    }
}
