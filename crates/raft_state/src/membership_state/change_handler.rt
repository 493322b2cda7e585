//! The handler that changes the effective membership.
ghost use Rattle.std.specs.Prelude.{◌≡◌, ◌<◌, None, IfOk, IfErr, true, length};
ghost use Rattle.std.specs.Result.{result_err};
ghost use Rattle.std.specs.Set.{ClonesAreEqual};
ghost use Rattle.raft_members.specs.quorum.Coherence.{is_coherent};
ghost use Rattle.raft_members.specs.membership.Members.{members_of, HasMembers};
ghost use Rattle.raft_members.specs.membership.ReplaceAll.{OnlyMemory, TwoChanges};
ghost use Rattle.raft_members.specs.membership.Valid.{IsValid};
ghost use Rattle.raft_state.specs.membership_state.Apply.{members_after_change, in_progress, IsApplyRefusal};
ghost use Rattle.raft_state.specs.membership_state.Memberships.{in_effect};
ghost use Rattle.raft_state.specs.Inner.Refusal.{refusal_of};

use super::MembershipStateOf;
use raft_base::{CommittedLeaderId, Node, NodeId};
use raft_members::{
    ChangeMembers, ChangeMembershipError, ChangeMembershipErrorOf, InProgressOf, Membership,
};
use std::fmt::Debug;

/// Changes the effective membership, if it is committed.
#[derive(Drop)]
pub struct ChangeHandlerOf<'m, C, NID: NodeId, N: Node> {
    /// The memberships of the node.
    pub state: &'m MembershipStateOf<C, NID, N>,
}

/// Changes the effective membership, if it is committed, with the default leader ids.
pub type ChangeHandler<'m, NID, N> = ChangeHandlerOf<'m, CommittedLeaderId<NID>, NID, N>;

impl<'m, C: Ord + Copy + Default + Debug + Drop, NID: NodeId, N: Node> ChangeHandlerOf<
    'm,
    C,
    NID,
    N,
> {
    /// Returns what a change makes of the effective membership, as `Membership::change` does. It
    /// returns an error while an earlier change is in progress.
    ///
    /// With `retain`, a voter that is in no config any more stays as a learner. Without it, the
    /// voter loses its node. Nothing becomes effective: call `append_entries` with an entry that
    /// stores this membership, or `append`.
    ///
    /// A leader calls this only after an entry of its own is committed, which nothing here can
    /// test. Otherwise two leaders, one after the other, may switch from one joint membership to
    /// either config, and quorums of the two need not meet.
    pub fn apply(
        &self,
        change: ChangeMembers<NID, N>,
        retain: bool,
    ) -> Result<Membership<NID, N>, ChangeMembershipErrorOf<C, NID>>
        requires clones_are_equal { ClonesAreEqual N.eq N.is_clone }
        ensures committed { IfOk result (λ _. in_progress C.eq self.now.state.now ≡ None) }
        ensures valid { IfOk result (λ _. IsValid NID.eq
            (members_after_change NID.eq NID.cmp self.now.state.now change retain)) }
        ensures valid_itself { IfOk result (λ m. IsValid NID.eq (members_of NID.cmp m)) }
        ensures changed { IfOk result (λ m. HasMembers N.eq NID.cmp m
            (members_after_change NID.eq NID.cmp self.now.state.now change retain)) }
        ensures coherent { IfOk result (λ m. let old = in_effect self.now.state.now in
            0 < length old.configs → is_coherent NID.eq old.configs m.configs ≡ true) }
        ensures two_changes { IfOk result (TwoChanges NID.eq NID.cmp
            (members_of NID.cmp (in_effect self.now.state.now)) change) }

        // An earlier change comes first. Without one, the refusals are those of a change.
        ensures refused { IfErr result (IsApplyRefusal C.eq NID.eq NID.cmp self.now.state.now
            (members_after_change NID.eq NID.cmp self.now.state.now change retain)) }
        ensures only_memory { IfErr result (λ e. in_progress C.eq self.now.state.now ≡ None →
            OnlyMemory NID.eq (members_of NID.cmp (in_effect self.now.state.now)) change e) }
    {
        self.ensure_committed()?;
        match self.state.effective().membership().change(change, retain) {
            Ok(changed) => Ok(changed),
            Err(refused) => Err(refusal_of(refused)),
        }
    }

    /// Returns an error while the effective membership is not committed. It never allocates.
    pub fn ensure_committed(&self) -> Result<(), InProgressOf<C>>
        ensures { result_err result ≡ in_progress C.eq self.now.state.now }
    {
        let effective = *self.state.effective().log_id();
        let committed = *self.state.committed().log_id();
        if effective == committed {
            Ok(())
        } else {
            Err(InProgressOf {
                committed,
                membership_log_id: effective,
            })
        }
    }
}

/// Returns the error of a change of a membership alone, which is never in progress.
fn refusal_of<C: Ord + Copy + Default + Debug, NID: NodeId>(
    refused: ChangeMembershipError<NID>,
) -> ChangeMembershipErrorOf<C, NID>
    ensures { result ≡ refusal_of refused }
{
    match refused {
        ChangeMembershipErrorOf::EmptyMembership(e) => ChangeMembershipErrorOf::EmptyMembership(e),
        ChangeMembershipErrorOf::LearnerNotFound(e) => ChangeMembershipErrorOf::LearnerNotFound(e),
        ChangeMembershipErrorOf::InProgress(_) | ChangeMembershipErrorOf::OutOfMemory => {
            ChangeMembershipErrorOf::OutOfMemory
        }
    }
}
