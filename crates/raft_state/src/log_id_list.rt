//! The log ids of a whole log, stored by few keys.
ghost use Rattle.std.specs.Prelude.{◌≡◌, ℕ, ◌+◌, ◌≤◌, ◌<◌, ◌&&◌, min, max, length, map, [], None, Some, IsOkAnd, IfOk, IfNone, IfSome, IsOk, OnOk, OnErr, IsTrue, nat_eq, nat_le, nat_lt, if◌then◌else◌};
ghost use Rattle.std.specs.Option.{is_some, option_copied, option_or};
ghost use Rattle.raft_base.specs.LogId.{id_le};
ghost use Rattle.raft_base.specs.LogView.{prev_id};
ghost use Rattle.raft_state.specs.log_id_list.FullLog.{full_log, first_index, end_index, same_log};
ghost use Rattle.raft_state.specs.log_id_list.LogReads.{id_at, first_id, last_id, last_two_share_leader, leader_count};
ghost use Rattle.raft_state.specs.log_id_list.LogEdits.{log_after_append, log_after_extend, front, log_after_purge};
ghost use Rattle.raft_state.specs.log_id_list.LogKept.{HasIds, KeepsIds};
ghost use Rattle.raft_state.specs.log_id_list.LogConditions.{follows, all_follow, all_follow_of_one_leader, can_purge};
ghost use Rattle.raft_state.specs.log_id_list.Keys.{may_be_keys, by_last_leader};
ghost use Rattle.raft_state.specs.Inner.LeaderRange.{HasOneLeader};

mod keys;
pub mod laws;

pub(crate) use keys::LeaderRange;
pub use keys::is_key_list;
use raft_base::{CommittedLeaderId, LogIdOf, RaftLogId};
use std::alloc::{AllocError, Global};
use std::fmt;
use std::marker::Model;

/// The log ids of a log, stored by its keys: the first log id, the first one of each later leader,
/// and the last one.
///
/// A log id between two keys has the leader of the key before it, so the keys determine the log id
/// at each index from the first key's to the last key's. These log ids are the full log, of which
/// the contracts speak. The first log id is mostly that of the last purged entry.
///
/// Keys rise by index and by leader, and only the last two may share a leader. Two lists are equal
/// if their full logs are equal, which is exactly if their keys are.
#[derive(Drop)]
pub struct LogIdListOf<C: Ord + Copy> {
    key_log_ids: Vec<LogIdOf<C>>,
}

/// The log ids of a log with the default leader ids.
pub type LogIdList<NID> = LogIdListOf<CommittedLeaderId<NID>>;

impl<C: Ord + Copy> Model for LogIdListOf<C> {
    ghost use Rattle.std.specs.Prelude.{List, IsTrue};
    ghost use Rattle.raft_base.specs.declared.log_id.LogIdOf.{LogIdOf};
    ghost use Rattle.raft_state.specs.log_id_list.Keys.{may_be_keys};

    ghost Value = { List (LogIdOf C) };

    ghost view = { λ a. a.key_log_ids.items };

    ghost invariant = { λ a. IsTrue (may_be_keys C.cmp a.key_log_ids.items) };
}

impl<C: Ord + Copy> LogIdListOf<C> {
    /// Returns the list with these keys. It requires that `is_key_list` is true of them.
    pub fn new(key_log_ids: Vec<LogIdOf<C>>) -> Self
        requires { IsTrue (may_be_keys C.cmp key_log_ids.items) }
        ensures { result ≡ key_log_ids.items }
    {
        LogIdListOf { key_log_ids }
    }

    /// Returns the list without log ids. It replaces `Default`, which has no allocator. It never
    /// allocates, so the result is always `Ok`.
    pub fn try_default(alloc: Global) -> Result<Self, AllocError>
        ensures { IsOkAnd result (λ list. full_log list ≡ []) }
    {
        Ok(LogIdListOf {
            key_log_ids: Vec::new(alloc),
        })
    }

    /// Returns a list with the same keys, or an allocation error.
    pub fn try_clone(&self) -> Result<Self, AllocError>
        ensures { IfOk result (λ list. list ≡ self.now) }
    {
        let alloc = *self.key_log_ids.allocator();
        let key_log_ids = Vec::from_slice(alloc, &self.key_log_ids)?;
        Ok(LogIdListOf { key_log_ids })
    }

    /// Appends log ids of one leader, one after the other. It requires
    /// `can_extend_from_same_leader`. It reads only the first and the last one, and allocates for
    /// at most two keys, and for none if there are no log ids.
    pub fn extend_from_same_leader<LID: RaftLogId<C>>(
        &mut self,
        new_ids: &[LID],
    ) -> Result<(), AllocError>
        requires { IsTrue (all_follow_of_one_leader C.cmp C.eq (last_id (full_log self.old))
            (map LID.id_of new_ids.now)) }
        ensures ok { OnOk result (IsTrue (same_log C.eq (full_log self.new)
            (log_after_extend (full_log self.old) (map LID.id_of new_ids.now)))) }
        ensures last { OnOk result (last_id (full_log self.new)
            ≡ option_or (last_id (map LID.id_of new_ids.now)) (last_id (full_log self.old))) }
        ensures monotone { OnOk result (IsTrue (id_le C.cmp (last_id (full_log self.old))
            (last_id (full_log self.new)))) }
        ensures kept { OnOk result (KeepsIds C.eq (full_log self.old) (full_log self.new)) }
        ensures own { OnOk result
            (HasIds C.eq (map LID.id_of new_ids.now) (full_log self.new)) }
        ensures err { OnErr result (self.new ≡ self.old) }
        ensures no_memory { new_ids.now ≡ [] → IsOk result }
    {
        keys::extend_by_ends(&mut self.key_log_ids, new_ids)?;
        Ok(())
    }

    /// Whether these log ids may be appended one after the other, and have one leader.
    pub fn can_extend_from_same_leader<LID: RaftLogId<C>>(&self, new_ids: &[LID]) -> bool
        ensures { result ≡ all_follow_of_one_leader C.cmp C.eq (last_id (full_log self.now))
            (map LID.id_of new_ids.now) }
    {
        self.can_extend(new_ids) && keys::share_leader(new_ids)
    }

    /// Appends log ids, one after the other. It requires `can_extend`. It allocates first: for at
    /// most two keys if the log ids have one leader, and otherwise for a key each.
    pub fn extend<LID: RaftLogId<C>>(&mut self, new_ids: &[LID]) -> Result<(), AllocError>
        requires { IsTrue (all_follow C.cmp (last_id (full_log self.old))
            (map LID.id_of new_ids.now)) }
        ensures ok { OnOk result (IsTrue (same_log C.eq (full_log self.new)
            (log_after_extend (full_log self.old) (map LID.id_of new_ids.now)))) }
        ensures last { OnOk result (last_id (full_log self.new)
            ≡ option_or (last_id (map LID.id_of new_ids.now)) (last_id (full_log self.old))) }
        ensures monotone { OnOk result (IsTrue (id_le C.cmp (last_id (full_log self.old))
            (last_id (full_log self.new)))) }
        ensures kept { OnOk result (KeepsIds C.eq (full_log self.old) (full_log self.new)) }
        ensures own { OnOk result
            (HasIds C.eq (map LID.id_of new_ids.now) (full_log self.new)) }
        ensures err { OnErr result (self.new ≡ self.old) }
        ensures no_memory { new_ids.now ≡ [] → IsOk result }
    {
        keys::extend(&mut self.key_log_ids, new_ids)?;
        Ok(())
    }

    /// Whether these log ids may be appended one after the other.
    pub fn can_extend<LID: RaftLogId<C>>(&self, new_ids: &[LID]) -> bool
        ensures { result ≡ all_follow C.cmp (last_id (full_log self.now))
            (map LID.id_of new_ids.now) }
    {
        keys::may_all_follow(self.last().copied(), new_ids)
    }

    /// Appends a log id. It requires `can_append`. Indexes that are missing before it get the
    /// leader of the last log id.
    ///
    /// If the last two log ids share a leader, the last key is moved, and nothing is allocated. So
    /// of several log ids of one leader that are appended in turn, only the first two can fail.
    pub fn append(&mut self, new_log_id: LogIdOf<C>) -> Result<(), AllocError>
        requires { IsTrue (follows C.cmp (last_id (full_log self.old)) new_log_id) }
        ensures ok { OnOk result (IsTrue (same_log C.eq (full_log self.new)
            (log_after_append (full_log self.old) new_log_id))) }
        ensures last { OnOk result (last_id (full_log self.new) ≡ Some new_log_id) }
        ensures last_two { IfSome (last_id (full_log self.old)) (λ last. OnOk result
            (last_two_share_leader C.eq (full_log self.new)
            ≡ C.eq last.leader_id new_log_id.leader_id)) }
        ensures kept { OnOk result (KeepsIds C.eq (full_log self.old) (full_log self.new)) }
        ensures own { OnOk result
            (id_at (full_log self.new) new_log_id.index ≡ Some new_log_id) }
        ensures err { OnErr result (self.new ≡ self.old) }
        ensures no_memory { IsTrue (last_two_share_leader C.eq (full_log self.old)) → IsOk result }
    {
        keys::append(&mut self.key_log_ids, new_log_id)?;
        Ok(())
    }

    /// Whether a log id may be appended: the list is empty, or its last log id has a lesser index
    /// and no greater leader.
    pub fn can_append(&self, new_log_id: LogIdOf<C>) -> bool
        ensures { result ≡ follows C.cmp (last_id (full_log self.now)) new_log_id }
    {
        keys::may_follow(self.last().copied(), new_log_id)
    }

    /// Keeps the log ids with an index below `at`. It never allocates.
    pub fn truncate(&mut self, at: u64)
        ensures log { full_log self.new ≡ front (full_log self.old) at }
        ensures last { last_id (full_log self.new)
            ≡ prev_id (id_at (full_log self.old)) (min at (end_index (full_log self.old))) }
        ensures end { end_index (full_log self.new)
            ≡ (if nat_lt (first_index (full_log self.old)) at
            then min at (end_index (full_log self.old)) else 0) }
        ensures kept { (index : ℕ) → index < at →
            id_at (full_log self.new) index ≡ id_at (full_log self.old) index }
    {
        keys::truncate(&mut self.key_log_ids, at);
    }

    /// Removes the log ids below `upto`. It requires `can_purge`. The remaining log ids keep their
    /// leaders, even the one at the index of `upto`.
    ///
    /// If the list is empty, or `upto` is past its last index, only `upto` remains. If `upto` is
    /// below the first index, nothing changes. Otherwise the first index becomes the index of
    /// `upto`. It allocates only for an empty list.
    pub fn purge(&mut self, upto: &LogIdOf<C>) -> Result<(), AllocError>
        requires { IsTrue (can_purge C.cmp (last_id (full_log self.old)) upto.now) }
        ensures ok { OnOk result (full_log self.new ≡ log_after_purge (full_log self.old)
            upto.now) }
        ensures first { OnOk result (first_index (full_log self.new)
            ≡ max (first_index (full_log self.old)) upto.now.index) }
        ensures last { OnOk result (last_id (full_log self.new)
            ≡ (if nat_le (end_index (full_log self.old)) upto.now.index
            then Some upto.now else last_id (full_log self.old))) }
        ensures end { OnOk result (end_index (full_log self.new)
            ≡ max (end_index (full_log self.old)) (upto.now.index + 1)) }
        ensures kept { OnOk result ((index : ℕ) → upto.now.index ≤ index →
            index < end_index (full_log self.old) →
            id_at (full_log self.new) index ≡ id_at (full_log self.old) index) }
        ensures was_empty { OnErr result (full_log self.old ≡ []) }
        ensures err { OnErr result (self.new ≡ self.old) }
    {
        keys::purge(&mut self.key_log_ids, *upto)?;
        Ok(())
    }

    /// Whether the log may be purged up to a log id: the log is empty, the index is not past the
    /// last one, or the leader of the log id is not less than the last one's.
    pub fn can_purge(&self, upto: &LogIdOf<C>) -> bool
        ensures { result ≡ can_purge C.cmp (last_id (full_log self.now)) upto.now }
    {
        match self.last() {
            None => true,
            Some(last) => upto.index <= last.index || last.leader_id <= upto.leader_id,
        }
    }

    /// Returns the log id at an index, from the first index to the last one, and `None` for others.
    pub fn get(&self, index: u64) -> Option<LogIdOf<C>>
        ensures id { result ≡ id_at (full_log self.now) index }
        ensures found { is_some result ≡ (nat_le (first_index (full_log self.now)) index
            && nat_lt index (end_index (full_log self.now))) }
    {
        keys::get(&self.key_log_ids, index)
    }

    /// Returns the log id at an index, as `get` does. It looks between the last two keys first.
    // Most log ids that a node looks up have the leader of the last one. The last two keys, if they
    // share that leader, are the ends of its log ids.
    pub(crate) fn get_from_end(&self, index: u64) -> Option<LogIdOf<C>>
        ensures { result ≡ id_at (full_log self.now) index }
    {
        keys::get_from_end(&self.key_log_ids, index)
    }

    /// Returns a range of indexes with one leader that has this index, if there is a log id at it.
    pub(crate) fn range_at(&self, index: u64) -> Option<LeaderRange<C>>
        ensures none { IfNone result (id_at (full_log self.now) index ≡ None) }
        ensures within { IfSome result (λ r. (r.first ≤ index) × (index ≤ r.last)) }
        ensures ids { IfSome result
            (λ r. HasOneLeader (full_log self.now) r.leader_id r.first r.last) }
    {
        keys::range_at(&self.key_log_ids, index)
    }

    /// Returns the first log id, if there is one.
    pub fn first(&self) -> Option<&LogIdOf<C>>
        ensures { option_copied result ≡ first_id (full_log self.now) }
    {
        self.key_log_ids.first()
    }

    /// Returns the last log id, if there is one.
    pub fn last(&self) -> Option<&LogIdOf<C>>
        ensures { option_copied result ≡ last_id (full_log self.now) }
    {
        self.key_log_ids.last()
    }

    /// Returns the keys: at most one more than the log has leaders.
    pub fn key_log_ids(&self) -> &[LogIdOf<C>]
        ensures keys { result.now ≡ self.now }
        ensures canonical { IsTrue (may_be_keys C.cmp result.now) }
        ensures few { length result.now ≤ leader_count C.eq (full_log self.now) + 1 }
    {
        &self.key_log_ids
    }

    /// Returns the keys of the last leader: the last two keys if they share a leader, and otherwise
    /// the last one. There are two exactly if the last two log ids share a leader.
    pub fn by_last_leader(&self) -> &[LogIdOf<C>]
        ensures keys { result.now ≡ by_last_leader C.eq self.now }
        ensures two_keys { nat_eq (length result.now) 2
            ≡ last_two_share_leader C.eq (full_log self.now) }
    {
        keys::by_last_leader(&self.key_log_ids)
    }
}

impl<C: Ord + Copy> Clone for LogIdListOf<C> {
    ghost is_clone = { λ a copy. copy ≡ a };

    fn clone(&self) -> Result<Self, AllocError> {
        self.try_clone()
    }
}

impl<C: Ord + Copy> PartialEq for LogIdListOf<C> {
    ghost use Rattle.std.specs.Cmp.{partial_equiv_from_equiv};
    ghost use Rattle.raft_state.specs.log_id_list.FullLogLawful.{same_full_log-equiv};

    ghost eq = { λ a b. same_log C.eq (full_log a) (full_log b) };

    ghost laws = { partial_equiv_from_equiv (same_full_log-equiv C.Eq.laws) };

    // Full logs are equal exactly if the keys are.
    fn eq(&self, other: &Self) -> bool {
        self.key_log_ids == other.key_log_ids
    }
}

impl<C: Ord + Copy> Eq for LogIdListOf<C> {
    ghost use Rattle.raft_state.specs.log_id_list.FullLogLawful.{same_full_log-equiv};

    ghost laws = { same_full_log-equiv C.Eq.laws };
}

// Handwritten, because the text has the name `LogIdList` and not `LogIdListOf`.
impl<C: Ord + Copy + fmt::Debug> fmt::Debug for LogIdListOf<C> {
    fn fmt<W: fmt::Write>(&self, f: &mut fmt::Formatter<W>) -> fmt::Result {
        f.debug_struct("LogIdList")
            .field("key_log_ids", &self.key_log_ids)
            .finish()
    }
}
