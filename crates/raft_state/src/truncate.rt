//! Truncating a log, with the memberships in it.
ghost use Rattle.std.specs.Prelude.{◌≡◌, ◌<◌, ℕ, None, false, true, IsTrue, IfOk, IsOk, OnOk, OnErr};
ghost use Rattle.raft_state.specs.Accepted.{accepted_upto};
ghost use Rattle.raft_state.specs.log_id_list.FullLog.{full_log};
ghost use Rattle.raft_state.specs.log_id_list.LogEdits.{front};
ghost use Rattle.raft_state.specs.log_id_list.LogReads.{id_at, last_id};
ghost use Rattle.raft_state.specs.membership_state.MembershipMoves.{after_truncate, is_cut};
ghost use Rattle.raft_state.specs.raft_state.Sound.{IsSound};
ghost use Rattle.raft_state.specs.raft_state.VoteAndLog.{log_view_of};
ghost use Rattle.raft_state.specs.raft_state.Truncate.{can_truncate_log};
ghost use Rattle.raft_state.specs.raft_state.Valid.{broken_relation, none_or_logged};

use crate::log_id_list::LogIdListOf;
use crate::raft_state::RaftStateIn;
use raft_base::order::{index_below, log_id_at_most};
use raft_base::{Instant, LogIdOf, LogIdOptionExt, Node, NodeId};
use std::alloc::AllocError;

impl<NID: NodeId, N: Node, I: Instant, L: Drop, C: Ord + Copy + Drop> RaftStateIn<NID, N, I, L, C> {
    /// Whether the precondition of `truncate_log` holds: the index is past what is committed, the
    /// committed log id is not above the last one that stays, and `membership_state.can_truncate`
    /// is true of the index.
    ///
    /// The second condition follows from the first if the committed log id is in the log. Otherwise
    /// it need not, because log ids are compared by their leaders first.
    pub fn can_truncate_log(&self, since: u64) -> bool
        ensures { result ≡ can_truncate_log C.cmp since self.now }
    {
        index_below(self.committed.index(), Some(since))
            && log_id_at_most(self.committed, last_below(&self.log_ids, since))
            && self.membership_state.can_truncate(since)
    }

    /// Truncates the log from an index on, as a follower does with log ids that conflict with the
    /// leader's. It requires `can_truncate_log`. What was accepted past the log's new end is then
    /// accepted only up to that end. Returns whether the effective membership was truncated too, in
    /// which case the committed one is effective again. It returns an allocation error only in that
    /// case. A valid state stays valid, and a sound one sound.
    ///
    /// After an error nothing has changed.
    pub fn truncate_log(&mut self, since: u64) -> Result<bool, AllocError>
        requires { IsTrue (can_truncate_log C.cmp since self.old) }
        ensures log { OnOk result
            (full_log self.new.log_ids ≡ front (full_log self.old.log_ids) since) }
        ensures ok { OnOk result (self.new ≡ record self.old {
          log_ids = self.new.log_ids;
          membership_state = after_truncate since self.old.membership_state;
          accepted = accepted_upto C.cmp self.old.accepted (last_id (full_log self.new.log_ids));
        }) }
        ensures answer { IfOk result (λ reverted.
            reverted ≡ is_cut since self.old.membership_state) }
        ensures err { OnErr result (self.new ≡ self.old) }
        ensures valid { broken_relation C.cmp self.old ≡ None →
            broken_relation C.cmp self.new ≡ None }
        ensures sound { IsSound C.eq C.cmp self.old → IsSound C.eq C.cmp self.new }
        ensures kept { OnOk result ((index : ℕ) → index < since →
            id_at (full_log self.new.log_ids) index ≡ id_at (full_log self.old.log_ids) index) }
        ensures committed_stays_logged { OnOk result
            (none_or_logged C.eq (log_view_of self.old) self.old.committed ≡ true →
            none_or_logged C.eq (log_view_of self.new) self.new.committed ≡ true) }
        ensures no_memory { is_cut since self.old.membership_state ≡ false → IsOk result }
    {
        // This read is for the proof: by its contract the keys are in order.
        let _keys = self.log_ids.key_log_ids();
        let reverted = self.membership_state.revert(since)?;
        self.log_ids.truncate(since);
        self.accepted.keep_upto(self.log_ids.last().copied());
        Ok(reverted)
    }
}

/// Returns the last log id with an index below this one, if there is one.
pub(crate) fn last_below<C: Ord + Copy>(log_ids: &LogIdListOf<C>, index: u64) -> Option<LogIdOf<C>>
    ensures { result ≡ last_id (front (full_log log_ids.now) index) }
{
    // This read is for the proof: by its contract the keys are in order.
    let _keys = log_ids.key_log_ids();
    let last = log_ids.last().copied();
    if index_below(last.index(), Some(index)) {
        last
    } else if index == 0 {
        None
    } else {
        log_ids.get(index - 1)
    }
}
