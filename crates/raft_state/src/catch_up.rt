//! Catching up a follower with the state of its leader.
ghost use Rattle.std.specs.Prelude.{◌≡◌, ◌+◌, ◌-◌, ◌*◌, ◌/◌, ◌^◌, ◌<◌, ◌≤◌, ℕ, List, IsTrue};
ghost use Rattle.raft_base.specs.LogId.{id_le, next_index};
ghost use Rattle.raft_progress.specs.catch_up.CatchUp.{MatchesAll};
ghost use Rattle.raft_progress.specs.catch_up.HonestRun.{HonestRunEnds};
ghost use Rattle.raft_progress.specs.progress.VecProgress.{view};
ghost use Rattle.raft_progress.specs.search.Search.{stretch};
ghost use Rattle.raft_state.specs.raft_state.CatchUp.{state_can_catch_up};
ghost use Rattle.raft_state.specs.raft_state.Round.{IsCaughtUp, IsInOrderByMatch, IsRoundEnd, Visits};
ghost use Rattle.raft_state.specs.raft_state.VoteAndLog.{log_view_of};

use crate::raft_state::RaftStateIn;
use raft_base::{Instant, LogIdOf, Node, NodeId, Validate};
use raft_members::quorum::QuorumSet;
use raft_progress::catch_up::{can_catch_up_entry, catch_up_entry};
use raft_progress::entry::ProgressEntryOf;
use raft_progress::progress::{Progress, VecProgress};

/// The progress of a leader's followers: an entry for each, compared by its matching log id.
pub type FollowersOf<C, NID, QS> = VecProgress<NID, ProgressEntryOf<C>, Option<LogIdOf<C>>, QS>;

impl<NID: NodeId, N: Node, I: Instant, L: Drop, C: Ord + Copy + Drop> RaftStateIn<NID, N, I, L, C> {
    /// Whether the preconditions of `catch_up` hold: the state is valid, its purge point is in its
    /// log, and [`can_catch_up_entry`] is true for that log.
    pub fn can_catch_up(&self, entry: &ProgressEntryOf<C>, agree: u64, max_entries: u64) -> bool
        ensures { result ≡ state_can_catch_up C.eq C.cmp self.now entry.now agree max_entries }
    {
        self.validate().is_ok()
            && self.purge_upto_is_logged()
            && can_catch_up_entry(self, entry, agree, max_entries)
    }

    /// Sends to a follower whose log agrees with this one below the index `agree`, and takes its
    /// responses, until it has all. Returns the number of conflicts and the number of acks; see
    /// [`catch_up_entry`]. It requires `can_catch_up`.
    pub fn catch_up(
        &self,
        entry: &mut ProgressEntryOf<C>,
        agree: u64,
        max_entries: u64,
    ) -> (u64, u64)
        requires { IsTrue (state_can_catch_up C.eq C.cmp self.now entry.old agree max_entries) }
        ensures run { HonestRunEnds C.cmp (log_view_of self.now) max_entries
            entry.old agree entry.new result.0 result.1 }
        ensures caught_up { MatchesAll C.eq (log_view_of self.now) entry.new }
        ensures monotone { IsTrue (id_le C.cmp entry.old.matching entry.new.matching) }
        ensures conflicts { (k : ℕ) → stretch entry.old / 16 < 2 ^ k → result.0 ≤ k }
        ensures acks { let left =
            next_index (log_view_of self.now).last - next_index entry.old.matching in
            result.1 * max_entries < left + max_entries }
    {
        // This read is for the proof: by its contract the log has all that is sent.
        let _is_logged = self.purge_upto_is_logged();
        catch_up_entry(self, entry, agree, max_entries)
    }

    /// Catches up followers one after another, each with the index below which its log agrees.
    /// Returns the number of followers that were caught up. Each of them is updated once, at the
    /// end of its honest run. A follower that is unknown, or for which `can_catch_up` is false, is
    /// skipped and changes nothing: neither the entries of the progress, nor granted, nor the
    /// counts.
    ///
    /// If at least one voter was caught up, and the followers that were caught up are a quorum, the
    /// last log id is granted, or more if a voter matched past it before.
    pub fn catch_up_all<QS: QuorumSet<NID>>(
        &self,
        progress: &mut FollowersOf<C, NID, QS>,
        followers: &[(NID, u64)],
        max_entries: u64,
    ) -> u64
        requires { IsInOrderByMatch NID.eq C.cmp QS.has_quorum (view progress.old) }
        ensures ordered { IsInOrderByMatch NID.eq C.cmp QS.has_quorum (view progress.new) }
        ensures round { let can = state_can_catch_up C.eq C.cmp self.now in
            (ran : List NID) × IsRoundEnd NID.eq C.eq C.cmp QS.has_quorum (log_view_of self.now)
            max_entries can (view progress.old) followers.now result (view progress.new) ran }
    {
        let mut count = 0;
        for follower in followers {
            if self.visit(progress, &follower.0, follower.1, max_entries) {
                count += 1;
            }
        }
        count
    }

    /// Catches a follower up if it is known and `can_catch_up` is true. Returns whether it did.
    fn visit<QS: QuorumSet<NID>>(
        &self,
        progress: &mut FollowersOf<C, NID, QS>,
        id: &NID,
        agree: u64,
        max_entries: u64,
    ) -> bool
        requires { IsInOrderByMatch NID.eq C.cmp QS.has_quorum (view progress.old) }
        ensures ordered { IsInOrderByMatch NID.eq C.cmp QS.has_quorum (view progress.new) }
        ensures visited { let can = state_can_catch_up C.eq C.cmp self.now in
            Visits NID.eq C.cmp QS.has_quorum (log_view_of self.now) max_entries can
            (view progress.old) id.now agree result (view progress.new) }
        ensures caught_up { IsTrue result →
            IsCaughtUp NID.eq C.eq (log_view_of self.now) (view progress.new) id.now }
    {
        match progress.try_get(id).copied() {
            None => false,
            Some(found) => {
                if !self.can_catch_up(&found, agree, max_entries) {
                    return false;
                }
                let mut entry = found;
                // A round counts followers, so the numbers of conflicts and acks are not used.
                let _ = self.catch_up(&mut entry, agree, max_entries);
                // The id was found above, so this is no `Err`. The caller reads granted from the
                // progress after the round.
                let _ = progress.update(id, entry);
                true
            }
        }
    }
}
