//! Appending log entries, with the memberships that they store.
ghost use Rattle.std.specs.Prelude.{◌≡◌, ◌++◌, [], None, false, IsTrue, IsOk, IfOk, OnOk, OnErr, map, is_some, nat_eq};
ghost use Rattle.std.specs.List.{list_any};
ghost use Rattle.std.specs.Option.{option_or};
ghost use Rattle.std.specs.Set.{ClonesAreEqual};
ghost use Rattle.raft_state.specs.raft_state.Appended.{are_consecutive, last_stored, may_append_entries, memberships_follow, AppendsMemberships};
ghost use Rattle.raft_state.specs.log_id_list.FullLog.{full_log, same_log};
ghost use Rattle.raft_state.specs.log_id_list.LogKept.{HasIds, KeepsIds};
ghost use Rattle.raft_state.specs.log_id_list.LogReads.{last_id};
ghost use Rattle.raft_state.specs.raft_state.Sound.{IsSound};
ghost use Rattle.raft_state.specs.raft_state.Valid.{broken_relation};
ghost use Rattle.raft_base.specs.LogId.{next_index};
ghost use Rattle.raft_members.specs.membership.Stored.{log_id_of};

use crate::entry::{LogEntry, RaftPayload};
use crate::membership_state::MembershipStateOf;
use crate::raft_state::RaftStateIn;
use raft_base::order::{index_below, log_id_below};
use raft_base::{Instant, LogIdOf, LogIdOptionExt, Node, NodeId, RaftLogId};
use raft_members::{EffectiveMembershipOf, Membership};
use std::alloc::AllocError;

impl<NID: NodeId, N: Node, I: Instant, L: Drop, C: Ord + Copy + Drop> RaftStateIn<NID, N, I, L, C> {
    /// Whether the preconditions of `append_entries` hold: `log_ids.can_extend` is true of the
    /// entries, their indexes are consecutive from the end of the log on (from 0 for an empty log),
    /// and each entry that stores a membership comes after the effective membership.
    pub fn can_append_entries<Ent: LogEntry<C, Membership<NID, N>>>(&self, entries: &[Ent]) -> bool
        ensures { result
            ≡ may_append_entries C.cmp Ent.id_of Ent.membership entries.now self.now }
    {
        self.log_ids.can_extend(entries)
            && are_consecutive(self.log_ids.last().copied(), entries)
            && can_follow(*self.membership_state.effective().log_id(), entries)
    }

    /// Appends entries to the log, and makes the memberships that they store effective, one after
    /// the other. It requires `can_append_entries`, so the log afterwards is the log before
    /// followed by the log ids of the entries. The memberships are cloned. A valid state stays
    /// valid, and a sound one sound.
    ///
    /// After an error nothing has changed.
    pub fn append_entries<Ent: LogEntry<C, Membership<NID, N>>>(
        &mut self,
        entries: &[Ent],
    ) -> Result<(), AllocError>
        requires clones_are_equal { ClonesAreEqual N.eq N.is_clone }
        requires may { IsTrue
            (may_append_entries C.cmp Ent.id_of Ent.membership entries.now self.old) }
        ensures log { OnOk result (IsTrue (same_log C.eq (full_log self.new.log_ids)
            (full_log self.old.log_ids ++ map Ent.id_of entries.now))) }
        ensures last { OnOk result (last_id (full_log self.new.log_ids)
            ≡ option_or (last_id (map Ent.id_of entries.now))
            (last_id (full_log self.old.log_ids))) }
        ensures kept { OnOk result
            (KeepsIds C.eq (full_log self.old.log_ids) (full_log self.new.log_ids)) }
        ensures own { OnOk result
            (HasIds C.eq (map Ent.id_of entries.now) (full_log self.new.log_ids)) }
        ensures memberships { OnOk result (AppendsMemberships NID.eq N.eq Ent.id_of Ent.membership
            entries.now self.old.membership_state self.new.membership_state) }
        ensures no_membership { list_any (λ e. is_some (Ent.membership e)) entries.now ≡ false →
            self.new.membership_state ≡ self.old.membership_state }
        ensures effective { OnOk result (log_id_of self.new.membership_state.effective
            ≡ last_stored Ent.id_of (λ e. is_some (Ent.membership e))
            (log_id_of self.old.membership_state.effective) entries.now) }
        ensures rest { self.new ≡ record self.old {
          log_ids = self.new.log_ids;
          membership_state = self.new.membership_state;
        } }
        ensures err { OnErr result (self.new ≡ self.old) }
        ensures valid { broken_relation C.cmp self.old ≡ None →
            broken_relation C.cmp self.new ≡ None }
        ensures sound { IsSound C.eq C.cmp self.old → IsSound C.eq C.cmp self.new }
        ensures no_memory { entries.now ≡ [] → IsOk result }
    {
        // This read is for the proof: by its contract the keys are in order.
        let _keys = self.log_ids.key_log_ids();
        if !store_membership(entries) {
            return self.extend_log_ids(entries);
        }
        let membership_state = self.memberships_after(entries)?;
        self.log_ids.extend(entries)?;
        self.membership_state = membership_state;
        Ok(())
    }

    /// Returns the memberships after those of the entries have become effective.
    fn memberships_after<Ent: LogEntry<C, Membership<NID, N>>>(
        &self,
        entries: &[Ent],
    ) -> Result<MembershipStateOf<C, NID, N>, AllocError>
        requires clones_are_equal { ClonesAreEqual N.eq N.is_clone }
        requires follow { IsTrue (memberships_follow C.cmp Ent.id_of
            (λ e. is_some (Ent.membership e))
            (log_id_of self.now.membership_state.effective) entries.now) }
        ensures { IfOk result (λ m. AppendsMemberships NID.eq N.eq Ent.id_of Ent.membership
            entries.now self.now.membership_state m) }
    {
        let mut memberships = self.membership_state.try_clone()?;
        for entry in entries {
            if let Some(membership) = entry.get_membership() {
                let log_id = Some(*entry.get_log_id());
                let effective = EffectiveMembershipOf::new_arc(log_id, membership.try_clone()?)?;
                memberships.append(effective);
            }
        }
        Ok(memberships)
    }
}

/// Whether an entry stores a membership.
fn store_membership<NID: NodeId, N: Node, Ent: RaftPayload<Membership<NID, N>>>(
    entries: &[Ent],
) -> bool
    ensures { result ≡ list_any (λ e. is_some (Ent.membership e)) entries.now }
{
    entries.iter().any(|entry| entry.get_membership().is_some())
}

/// Whether the entries have consecutive indexes, from the index after a log id on, or from 0 if it
/// is absent.
fn are_consecutive<C: Copy, Ent: RaftLogId<C>>(last: Option<LogIdOf<C>>, entries: &[Ent]) -> bool
    ensures { result ≡ are_consecutive last (map Ent.id_of entries.now) }
{
    let mut last = last;
    for entry in entries {
        let log_id = *entry.get_log_id();
        if !is_next(last, log_id.index) {
            return false;
        }
        last = Some(log_id);
    }
    true
}

/// Whether an index is the one after a log id, or 0 if it is absent.
fn is_next<C: Copy>(last: Option<LogIdOf<C>>, index: u64) -> bool
    ensures { result ≡ nat_eq index (next_index last) }
{
    match last {
        None => index == 0,
        Some(last) => last.index < index && index - last.index == 1,
    }
}

/// Whether each entry with a membership comes after the one before it, and the first one after a
/// log id.
fn can_follow<C: Ord + Copy, NID: NodeId, N: Node, Ent: LogEntry<C, Membership<NID, N>>>(
    effective: Option<LogIdOf<C>>,
    entries: &[Ent],
) -> bool
    ensures { result ≡ memberships_follow C.cmp Ent.id_of (λ e. is_some (Ent.membership e))
        effective entries.now }
{
    let mut last = effective;
    for entry in entries {
        if entry.get_membership().is_some() {
            let log_id = Some(*entry.get_log_id());
            if !log_id_below(last, log_id) || !index_below(last.index(), log_id.index()) {
                return false;
            }
            last = log_id;
        }
    }
    true
}
