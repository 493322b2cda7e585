//! What a leader commits.
ghost use Rattle.std.specs.Prelude.{◌≡◌, ◌<◌, IfErr, IfOk, IsTrue, length};
ghost use Rattle.raft_base.specs.LogId.{id_le};
ghost use Rattle.steps_handlers.specs.Leadership.{ChangedQuorumsHave, Commits, IsGreatestMatch, QuorumsHave, RefusesCommit, counts_by_effective, granted_by, is_of_leader};
ghost use Rattle.raft_state.specs.raft_state.Sound.{IsSound};

use super::Leader;
use crate::error::CommitError;
use raft_base::order::same_optional_log_ids;
use raft_base::{Instant, LogIdOf, Node, NodeId, log_id_below};
use raft_members::membership::Configs;
use raft_progress::laws::{granted_is_threshold, quorums_know_granted};
use raft_progress::{Progress, ProgressEntryOf};
use raft_state::RaftStateIn;

impl<NID: NodeId, N: Node, C: Ord + Copy + Drop> Leader<NID, N, C> {
    /// Returns the last log id that a quorum of the membership has: the greatest one that a
    /// majority of each config matches.
    ///
    /// Each quorum of the membership, and of what one change makes of it, has a voter whose match
    /// is at least that.
    pub fn granted(&self) -> Option<LogIdOf<C>>
        ensures granted { result ≡ granted_by self.now }
        ensures greatest { IsGreatestMatch NID.eq C.cmp self.now result }
        ensures quorums { 0 < length self.now.followers.membership.configs →
            QuorumsHave NID.eq C.cmp self.now result }
        ensures changed_quorums { 0 < length self.now.followers.membership.configs →
            ChangedQuorumsHave NID.eq C.cmp NID.cmp self.now result }
    {
        quorums_know_granted(&self.followers);
        granted_is_threshold::<NID, ProgressEntryOf<C>, Option<LogIdOf<C>>, Configs<NID>>();
        *self.followers.progress().granted()
    }

    /// Whether the leader counts by the effective membership of a state. It does not if another
    /// `Leader` of its term has changed the membership.
    pub(super) fn counts_by_effective<I: Instant, L: Drop>(
        &self,
        state: &RaftStateIn<NID, N, I, L, C>,
    ) -> bool
        ensures { result ≡ counts_by_effective C.eq self.now state.now.membership_state }
    {
        same_optional_log_ids(
            self.members_at,
            *state.membership_state.effective().log_id(),
        )
    }

    /// Whether a quorum of the membership has an entry of this leader's own.
    pub fn has_own_granted(&self) -> bool
        ensures { result ≡ is_of_leader C.eq self.now.leader_id (granted_by self.now) }
    {
        match self.granted() {
            Some(granted) => granted.leader_id == self.leader_id,
            None => false,
        }
    }

    /// Commits what a quorum of the membership has, if that is an entry of this leader's own and is
    /// not committed yet. Returns the log id up to which the log is committed then, so what may be
    /// applied, or `None` if nothing new is committed.
    ///
    /// An entry of an earlier leader is never committed by counting: the leader's own entry commits
    /// all before it. A refusal other than `OutOfMemory` shows a fault of a member or of the disk:
    /// stop leading. After each refusal the state is as it was.
    pub fn commit<I: Instant, L: Drop>(
        &self,
        state: &mut RaftStateIn<NID, N, I, L, C>,
    ) -> Result<Option<LogIdOf<C>>, CommitError>
        ensures committed { IfOk result (Commits NID.eq C.Ord self.now state.old state.new) }
        ensures monotone { IsTrue (id_le C.cmp state.old.committed state.new.committed) }
        ensures refused { IfErr result (RefusesCommit C.Ord self.now state.old state.new) }
        ensures sound { IsSound C.eq C.cmp state.old → IsSound C.eq C.cmp state.new }
    {
        let granted = self.granted();
        if !self.has_own_granted() || !log_id_below(state.committed, granted) {
            return Ok(None);
        }
        if !self.counts_by_effective(state) {
            return Err(CommitError::NotEffective);
        }
        if !state.is_logged(&granted) {
            return Err(CommitError::NotLogged);
        }
        if !state.can_commit(&granted) {
            return Err(CommitError::MembershipNotInOrder);
        }
        match state.update_committed(&granted) {
            Ok(_before) => Ok(granted),
            Err(_) => Err(CommitError::OutOfMemory),
        }
    }
}
