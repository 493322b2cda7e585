//! Sound states, and which log ids a log has.
ghost use Rattle.std.specs.Prelude.{◌≡◌, ◌↔◌, IsTrue};
ghost use Rattle.raft_state.specs.Inner.SoundTest.{passes_sound};
ghost use Rattle.raft_state.specs.raft_state.Sound.{IsSound, purged_or_logged};
ghost use Rattle.raft_state.specs.raft_state.VoteAndLog.{log_view_of};
ghost use Rattle.raft_state.specs.raft_state.Valid.{none_or_logged};

use crate::raft_state::RaftStateIn;
use raft_base::order::{log_id_at_most, same_optional_log_ids};
use raft_base::{Instant, LogIdOf, Node, NodeId, Validate};

impl<NID: NodeId, N: Node, I: Instant, L: Drop, C: Ord + Copy + Drop> RaftStateIn<NID, N, I, L, C> {
    /// Whether the state is sound, which is what an engine may build on: the state is valid, its
    /// log has the purge point and the committed log id, what was accepted is not past the log,
    /// both memberships are purged or in the log, and the effective membership is the committed one
    /// if its log id is at most the committed log id.
    ///
    /// A new state is sound, and the functions that change a state keep it sound: each under the
    /// condition of its test, and some under one more test, which their documentation names.
    pub fn is_sound(&self) -> bool
        ensures { IsTrue result ↔ IsSound C.eq C.cmp self.now }
    {
        self.passes_sound()
    }

    /// Whether each relation of a sound state holds.
    fn passes_sound(&self) -> bool
        ensures { result ≡ passes_sound C.eq C.cmp self.now }
    {
        let committed = *self.membership_state.committed().log_id();
        let effective = *self.membership_state.effective().log_id();
        self.validate().is_ok()
            && self.purge_upto_is_logged()
            && self.committed_is_logged()
            && log_id_at_most(self.accepted.log_id, self.log_ids.last().copied())
            && self.is_purged_or_logged(&committed)
            && self.is_purged_or_logged(&effective)
            && (!log_id_at_most(effective, self.committed)
                || same_optional_log_ids(effective, committed))
    }

    /// Whether a log id is absent, or the log has it at its index. Of what is purged the log has
    /// only the last log id.
    pub fn is_logged(&self, log_id: &Option<LogIdOf<C>>) -> bool
        ensures { result ≡ none_or_logged C.eq (log_view_of self.now) log_id.now }
    {
        match log_id {
            None => true,
            Some(id) => same_optional_log_ids(self.log_ids.get(id.index), Some(*id)),
        }
    }

    /// Whether a log id is absent, its index is purged, or the log has it at its index.
    ///
    /// It also compares log ids up to the committed index, which `has_log_id` takes as known.
    pub fn is_purged_or_logged(&self, log_id: &Option<LogIdOf<C>>) -> bool
        ensures { result ≡ purged_or_logged C.eq self.now log_id.now }
    {
        match log_id {
            None => true,
            Some(id) => id.index < self.purged_next || self.is_logged(log_id),
        }
    }
}
