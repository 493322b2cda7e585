//! Changes of a state's log, and look-ups in it: what is appended, committed and purged, and where
//! entries conflict.
ghost use Rattle.std.specs.Prelude.{◌≡◌, ◌+◌, ◌<◌, ◌≤◌, ℕ, true, false, IsTrue, IfOk, IfNone, IfSome, IsOk, OnOk, OnErr, None, Some, [], map, max, length, take, slice_get, nat_le, nat_lt, if◌then◌else◌};
ghost use Rattle.std.specs.List.{list_all, prefix_len};
ghost use Rattle.std.specs.Option.{option_or};
ghost use Rattle.raft_base.specs.LogId.{id_le, index_of, next_index};
ghost use Rattle.raft_base.specs.LogIndex.{index_le};
ghost use Rattle.raft_base.specs.LogView.{has_id, may_ask};
ghost use Rattle.raft_state.specs.raft_state.Appended.{begins_at_zero};
ghost use Rattle.raft_state.specs.raft_state.Commit.{state_after_commit, committed_before, state_commits, state_may_commit};
ghost use Rattle.raft_state.specs.log_id_list.FullLog.{end_index, full_log, same_log};
ghost use Rattle.raft_state.specs.Inner.LeaderRange.{HasOneLeader};
ghost use Rattle.raft_state.specs.log_id_list.LogConditions.{all_follow, all_follow_of_one_leader};
ghost use Rattle.raft_state.specs.log_id_list.LogEdits.{log_after_extend, log_after_purge};
ghost use Rattle.raft_state.specs.log_id_list.LogKept.{HasIds, KeepsIds};
ghost use Rattle.raft_state.specs.log_id_list.LogReads.{id_at, last_id};
ghost use Rattle.raft_state.specs.raft_state.Purge.{first_after_purge, may_purge};
ghost use Rattle.raft_state.specs.raft_state.Sound.{IsSound};
ghost use Rattle.raft_state.specs.raft_state.VoteAndLog.{log_view_of};
ghost use Rattle.raft_state.specs.raft_state.Valid.{broken_relation, none_or_logged};

use crate::log_id_list::LeaderRange;
use crate::raft_state::RaftStateIn;
use raft_base::order::log_id_below;
use raft_base::{Instant, LogIdOf, LogStateReader, Node, NodeId, RaftLogId};
use std::alloc::AllocError;

impl<NID: NodeId, N: Node, I: Instant, L: Drop, C: Ord + Copy + Drop> RaftStateIn<NID, N, I, L, C> {
    /// Appends log ids of one leader to the log, as `LogIdListOf::extend_from_same_leader`. It
    /// requires `log_ids.can_extend_from_same_leader`.
    ///
    /// A valid state stays valid, and a sound one sound, if an empty log begins at index 0. Missing
    /// indexes get the leader of the log id before them. Memberships stay as they are: if the
    /// entries store memberships, call `append_entries` instead, which makes these effective too.
    /// Otherwise the state counts by old quorums.
    pub fn extend_log_ids_from_same_leader<LID: RaftLogId<C>>(
        &mut self,
        new_log_ids: &[LID],
    ) -> Result<(), AllocError>
        requires { IsTrue (all_follow_of_one_leader C.cmp C.eq
            (last_id (full_log self.old.log_ids)) (map LID.id_of new_log_ids.now)) }
        ensures log { OnOk result (IsTrue (same_log C.eq (full_log self.new.log_ids)
            (log_after_extend (full_log self.old.log_ids) (map LID.id_of new_log_ids.now)))) }
        ensures last { OnOk result (last_id (full_log self.new.log_ids)
            ≡ option_or (last_id (map LID.id_of new_log_ids.now))
            (last_id (full_log self.old.log_ids))) }
        ensures kept { OnOk result
            (KeepsIds C.eq (full_log self.old.log_ids) (full_log self.new.log_ids)) }
        ensures own { OnOk result
            (HasIds C.eq (map LID.id_of new_log_ids.now) (full_log self.new.log_ids)) }
        ensures rest { self.new ≡ record self.old { log_ids = self.new.log_ids } }
        ensures err { OnErr result (self.new ≡ self.old) }
        ensures valid { broken_relation C.cmp self.old ≡ None → IsTrue
            (begins_at_zero (full_log self.old.log_ids) (map LID.id_of new_log_ids.now)) →
            broken_relation C.cmp self.new ≡ None }
        ensures sound { IsSound C.eq C.cmp self.old → IsTrue
            (begins_at_zero (full_log self.old.log_ids) (map LID.id_of new_log_ids.now)) →
            IsSound C.eq C.cmp self.new }
        ensures no_memory { new_log_ids.now ≡ [] → IsOk result }
    {
        // This read is for the proof: by its contract the keys are in order.
        let _keys = self.log_ids.key_log_ids();
        self.log_ids.extend_from_same_leader(new_log_ids)?;
        Ok(())
    }

    /// Appends log ids to the log, as `LogIdListOf::extend`. It requires `log_ids.can_extend`.
    ///
    /// Memberships stay as they are, a valid state valid, and a sound state sound, as with
    /// `extend_log_ids_from_same_leader`.
    pub fn extend_log_ids<LID: RaftLogId<C>>(
        &mut self,
        new_log_ids: &[LID],
    ) -> Result<(), AllocError>
        requires { IsTrue (all_follow C.cmp (last_id (full_log self.old.log_ids))
            (map LID.id_of new_log_ids.now)) }
        ensures log { OnOk result (IsTrue (same_log C.eq (full_log self.new.log_ids)
            (log_after_extend (full_log self.old.log_ids) (map LID.id_of new_log_ids.now)))) }
        ensures last { OnOk result (last_id (full_log self.new.log_ids)
            ≡ option_or (last_id (map LID.id_of new_log_ids.now))
            (last_id (full_log self.old.log_ids))) }
        ensures kept { OnOk result
            (KeepsIds C.eq (full_log self.old.log_ids) (full_log self.new.log_ids)) }
        ensures own { OnOk result
            (HasIds C.eq (map LID.id_of new_log_ids.now) (full_log self.new.log_ids)) }
        ensures rest { self.new ≡ record self.old { log_ids = self.new.log_ids } }
        ensures err { OnErr result (self.new ≡ self.old) }
        ensures valid { broken_relation C.cmp self.old ≡ None → IsTrue
            (begins_at_zero (full_log self.old.log_ids) (map LID.id_of new_log_ids.now)) →
            broken_relation C.cmp self.new ≡ None }
        ensures sound { IsSound C.eq C.cmp self.old → IsTrue
            (begins_at_zero (full_log self.old.log_ids) (map LID.id_of new_log_ids.now)) →
            IsSound C.eq C.cmp self.new }
        ensures no_memory { new_log_ids.now ≡ [] → IsOk result }
    {
        // This read is for the proof: by its contract the keys are in order.
        let _keys = self.log_ids.key_log_ids();
        self.log_ids.extend(new_log_ids)?;
        Ok(())
    }

    /// Whether the precondition of `update_committed` holds: the log id is not greater than the
    /// committed one, or `membership_state.can_commit` is true of it.
    pub fn can_commit(&self, log_id: &Option<LogIdOf<C>>) -> bool
        ensures { result ≡ state_may_commit C.cmp log_id.now self.now }
    {
        if log_id_below(self.committed, *log_id) {
            self.membership_state.can_commit(log_id)
        } else {
            true
        }
    }

    /// Takes a greater committed log id, commits the effective membership if it is not past the log
    /// id, and returns the log id that was committed before. Another log id changes nothing, and
    /// `None` is returned. It requires `can_commit`. It returns an allocation error only
    /// if a membership is committed. If the log id is not past the log, a valid state stays valid.
    /// If `is_logged` is true of the log id, a sound state stays sound.
    ///
    /// After an error nothing has changed.
    #[inline(always)]
    pub fn update_committed(
        &mut self,
        committed: &Option<LogIdOf<C>>,
    ) -> Result<Option<Option<LogIdOf<C>>>, AllocError>
        requires { IsTrue (state_may_commit C.cmp committed.now self.old) }
        ensures answer { IfOk result (λ before.
            before ≡ committed_before C.cmp committed.now self.old) }
        ensures ok { OnOk result (self.new ≡ state_after_commit C.cmp committed.now self.old) }
        ensures err { OnErr result (self.new ≡ self.old) }
        ensures valid { broken_relation C.cmp self.old ≡ None →
            IsTrue (id_le C.cmp committed.now (last_id (full_log self.old.log_ids))) →
            broken_relation C.cmp self.new ≡ None }
        ensures sound { IsSound C.eq C.cmp self.old →
            IsTrue (none_or_logged C.eq (log_view_of self.old) committed.now) →
            IsSound C.eq C.cmp self.new }
        ensures stays_logged { OnOk result
            (none_or_logged C.eq (log_view_of self.old) self.old.committed ≡ true →
            none_or_logged C.eq (log_view_of self.old) committed.now ≡ true →
            none_or_logged C.eq (log_view_of self.new) self.new.committed ≡ true) }
        ensures no_memory { state_commits C.cmp committed.now self.old ≡ false → IsOk result }
    {
        // This read is for the proof: by its contract the keys are in order.
        let _keys = self.log_ids.key_log_ids();
        // Both are copied first, so that they are not read again after the commit.
        let (before, upto) = (self.committed, *committed);
        if !log_id_below(before, upto) {
            return Ok(None);
        }
        self.membership_state.commit(&upto)?;
        self.committed = upto;
        Ok(Some(before))
    }

    /// Whether the precondition of `first_conflicting_index` holds: `can_ask` is true of the log id
    /// of each entry.
    pub fn can_ask_all<Ent: RaftLogId<C>>(&self, entries: &[Ent]) -> bool
        ensures { result ≡ list_all (λ e. may_ask C.cmp (log_view_of self.now) (Ent.id_of e))
            entries.now }
    {
        for entry in entries {
            if !self.can_ask(entry.get_log_id()) {
                return false;
            }
        }
        true
    }

    /// Returns the position of the first entry that the log does not have, or the number of entries
    /// if it has them all. It requires `can_ask_all`.
    ///
    /// Log ids up to the committed index are not compared, as in `has_log_id`, because each log has
    /// what is committed. Use `is_purged_or_logged` to compare a log id with all that is not
    /// purged.
    pub fn first_conflicting_index<Ent: RaftLogId<C>>(&self, entries: &[Ent]) -> usize
        requires { IsTrue (list_all (λ e. may_ask C.cmp (log_view_of self.now) (Ent.id_of e))
            entries.now) }
        ensures place { result ≡ prefix_len (λ e. has_id C.eq (log_view_of self.now) (Ent.id_of e))
            entries.now }
        ensures within { result ≤ length entries.now }
        ensures before { IsTrue (list_all (λ e. has_id C.eq (log_view_of self.now) (Ent.id_of e))
            (take result entries.now)) }
        ensures at { IfSome (slice_get entries.now result)
            (λ e. has_id C.eq (log_view_of self.now) (Ent.id_of e) ≡ false) }
    {
        let mut range = None;
        for (place, entry) in entries.iter().enumerate() {
            if !self.has_entry(entry, &mut range) {
                return place;
            }
        }
        entries.len()
    }

    /// Whether the log has the log id of an entry.
    ///
    /// The range is the one that an earlier look-up found, and is replaced if this one finds
    /// another. Most entries have the leader of the entry before them, so they need no look-up.
    fn has_entry<Ent: RaftLogId<C>>(&self, entry: &Ent, range: &mut Option<LeaderRange<C>>) -> bool
        requires { IfSome range.old
            (λ r. HasOneLeader (full_log self.now.log_ids) r.leader_id r.first r.last) }
        ensures answer { result ≡ has_id C.eq (log_view_of self.now) (Ent.id_of entry.now) }
        ensures range { IfSome range.new
            (λ r. HasOneLeader (full_log self.now.log_ids) r.leader_id r.first r.last) }
    {
        let id = entry.get_log_id();
        if self.is_committed(id.index) {
            return true;
        }
        *range = self.range_of(id.index, *range);
        match range {
            Some(found) => found.leader_id == id.leader_id,
            None => false,
        }
    }

    /// Whether an index is committed.
    fn is_committed(&self, index: u64) -> bool
        ensures { result ≡ nat_lt index (next_index self.now.committed) }
    {
        match self.committed {
            Some(committed) => index <= committed.index,
            None => false,
        }
    }

    /// Returns a range of indexes with one leader that has this index, if there is a log id at it:
    /// the range that was found before, or another one of the log.
    fn range_of(&self, index: u64, found: Option<LeaderRange<C>>) -> Option<LeaderRange<C>>
        requires { IfSome found
            (λ r. HasOneLeader (full_log self.now.log_ids) r.leader_id r.first r.last) }
        ensures none { IfNone result (id_at (full_log self.now.log_ids) index ≡ None) }
        ensures within { IfSome result (λ r. (r.first ≤ index) × (index ≤ r.last)) }
        ensures ids { IfSome result
            (λ r. HasOneLeader (full_log self.now.log_ids) r.leader_id r.first r.last) }
    {
        match found {
            Some(range) if range.contains(index) => Some(range),
            _ => self.log_ids.range_at(index),
        }
    }

    /// Whether the precondition of `purge_log` holds: the list may be purged to the log id, its
    /// index is not below the first index, and there is an index after it.
    pub fn can_purge_log(&self, upto: &LogIdOf<C>) -> bool
        ensures { result ≡ may_purge C.cmp (full_log self.now.log_ids) upto.now }
    {
        if !self.log_ids.can_purge(upto) || upto.index == u64::MAX {
            return false;
        }
        match self.log_ids.first() {
            None => true,
            Some(first) => first.index <= upto.index,
        }
    }

    /// Marks the log as purged up to a log id. It requires `can_purge_log`. It allocates only for
    /// an empty log. If the log id at that index is at most the purge point, a valid state stays
    /// valid. If that index is at most the index of the purge point, a sound state stays sound.
    ///
    /// After an error nothing has changed.
    pub fn purge_log(&mut self, upto: &LogIdOf<C>) -> Result<(), AllocError>
        requires { IsTrue (may_purge C.cmp (full_log self.old.log_ids) upto.now) }
        ensures log { OnOk result
            (full_log self.new.log_ids ≡ log_after_purge (full_log self.old.log_ids) upto.now) }
        ensures rest { OnOk result (self.new ≡ record self.old {
          purged_next = upto.now.index + 1;
          log_ids = self.new.log_ids;
        }) }
        ensures last { OnOk result (last_id (full_log self.new.log_ids)
            ≡ (if nat_le (end_index (full_log self.old.log_ids)) upto.now.index
            then Some upto.now else last_id (full_log self.old.log_ids))) }
        ensures end { OnOk result (end_index (full_log self.new.log_ids)
            ≡ max (end_index (full_log self.old.log_ids)) (upto.now.index + 1)) }
        ensures kept { OnOk result ((index : ℕ) → upto.now.index ≤ index →
            index < end_index (full_log self.old.log_ids) →
            id_at (full_log self.new.log_ids) index ≡ id_at (full_log self.old.log_ids) index) }
        ensures was_empty { OnErr result (full_log self.old.log_ids ≡ []) }
        ensures err { OnErr result (self.new ≡ self.old) }
        ensures valid { broken_relation C.cmp self.old ≡ None → IsTrue (id_le C.cmp
            (first_after_purge (full_log self.old.log_ids) upto.now) self.old.purge_upto) →
            broken_relation C.cmp self.new ≡ None }
        ensures sound { IsSound C.eq C.cmp self.old →
            IsTrue (index_le (Some upto.now.index) (index_of self.old.purge_upto)) →
            IsSound C.eq C.cmp self.new }
    {
        // This read is for the proof: by its contract the keys are in order.
        let _keys = self.log_ids.key_log_ids();
        self.log_ids.purge(upto)?;
        self.purged_next = upto.index + 1;
        Ok(())
    }
}
