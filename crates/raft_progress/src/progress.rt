//! The progress of a cluster: a value for each voter and learner, and the greatest part that a
//! quorum of the voters has reached.

mod conditions;
mod entries;
mod part;
mod positions;
mod recount;
mod replay_any_steps;
pub(crate) mod sides;
mod stat;
mod steps;
mod vec_progress;

pub use crate::tracked::{MembershipProgress, Step, Tracked, replay};
pub use crate::{entry, inflight};
pub use part::ProgressPart;
pub(crate) use part::is_below;
use raft_members::quorum::QuorumSet;
pub use replay_any_steps::replay_any;
pub use stat::Stat;
use std::alloc::{AllocError, Global};
pub use steps::{AnyStep, Reply};
pub use vec_progress::VecProgress;

/// The values of voters and learners over a quorum set, and what
/// a quorum of the voters has reached.
pub trait Progress<ID: Copy + Ord, V: ProgressPart<P>, P: Copy + Ord, QS: QuorumSet<ID>>: Drop {
    ghost use Rattle.std.specs.Prelude.{◌≡◌, ◌↔◌, false, IfOk, IsSome, IsTrue, Some, length};
    ghost use Rattle.std.specs.Borrow.{sem};
    ghost use Rattle.std.specs.Fn.{FnOnceTakesAtMut};
    ghost use Rattle.std.specs.Option.{ForSome, option_copied, option_copied_mut};
    ghost use Rattle.std.specs.Slice.Iter.{iter_rest};
    ghost use Rattle.raft_progress.specs.progress.InOrder.{IsInOrder};
    ghost use Rattle.raft_progress.specs.progress.Lends.{IsAnsweredUpdate, Leaves, LendsGranted, LendsValue};
    ghost use Rattle.raft_progress.specs.progress.NewProgress.{LearnersFit};
    ghost use Rattle.raft_progress.specs.progress.ProgressView.{ProgressView, learner_ids, state};
    ghost use Rattle.raft_progress.specs.progress.ProgressState.{voter_of};
    ghost use Rattle.raft_progress.specs.progress.Statistics.{CountsGoOn};
    ghost use Rattle.raft_progress.specs.progress.Steps.{falls};
    ghost use Rattle.raft_progress.specs.progress.Upgrade.{CanUpgrade, IsUpgraded};
    ghost use Rattle.raft_progress.specs.progress.Updated.{IsGreaterOf, IsNotLower, IsNotLowerIfGreater, NeverFalls};
    ghost use Rattle.raft_progress.specs.progress.UpgradeFold.{IsUpgradeFold};

    /// What contracts see of a progress.
    ghost view_of: { Self → ProgressView ID V P QS };

    /// Returns the granted value: the greatest part that a quorum of the voters has reached, which
    /// is at least the default's part.
    fn granted(&self) -> &P
        ensures { result.now ≡ (view_of self.now).granted };

    /// Returns the value of an id, if the id is known.
    fn try_get(&self, id: &ID) -> Option<&V>
        ensures { option_copied result ≡ (state ID.eq (view_of self.now)).value id.now };

    /// Returns the value of a known id. It requires that `try_get` returns a value.
    fn get(&self, id: &ID) -> &V
        requires { IsSome ((state ID.eq (view_of self.now)).value id.now) }
        ensures { (state ID.eq (view_of self.now)).value id.now ≡ Some result.now };

    /// Lends the value of an id for writing.
    ///
    /// Nothing is recomputed and nothing moves. If the part of a voter changes, the progress may be
    /// out of order afterwards, which `is_in_order` tests. Otherwise it stays in order
    /// (`laws::kept_parts_keep_order`).
    fn get_mut(&mut self, id: &ID) -> Option<&mut V>
        ensures* writes_back { sem 𝓛
            (LendsValue Self.row V.row view_of ID.eq self.entry id.now result) }
        ensures value { option_copied_mut result ≡ (state ID.eq (view_of self.old)).value id.now };

    /// Whether an id is a voter, or `None` for an unknown id.
    fn is_voter(&self, id: &ID) -> Option<bool>
        ensures { result ≡ voter_of (state ID.eq (view_of self.now)) id.now };

    /// Returns the number of voters. An update makes at most k quorum tests if this number is less
    /// than 2^k.
    fn voter_count(&self) -> usize
        ensures { result ≡ (view_of self.now).voter_count };

    /// Whether the progress is in order, which updates and upgrades require.
    ///
    /// A new progress is in order, and each function here except `get_mut` keeps it in order. Only
    /// a write through `get_mut` or `VecProgress::iter_mut` that changes an id or a voter's part
    /// can lose the order, and not each such write does (`laws::kept_parts_keep_order`). A clone of
    /// a progress in order is in order if clones of values have the same part, and clones of quorum
    /// sets the same quorums (`laws::clones_keep_order`). The test changes nothing.
    fn is_in_order(&mut self) -> bool
        ensures answer { IsTrue result ↔
            IsInOrder ID.eq P.cmp V.part_of QS.has_quorum (view_of self.old) }
        ensures same { view_of self.new ≡ view_of self.old }
        ensures ordered { IsTrue result →
            IsInOrder ID.eq P.cmp V.part_of QS.has_quorum (view_of self.new) };

    /// Returns the quorum set.
    fn quorum_set(&self) -> &QS
        ensures { result.now ≡ (view_of self.now).quorum_set };

    /// Returns the ids and their values: the voters, then the learners.
    fn iter(&self) -> std::slice::Iter<(ID, V)>
        ensures { iter_rest result ≡ (view_of self.now).entries };

    /// Changes the value of an id by `f`. Returns granted, as an error if the id is unknown.
    ///
    /// A value's part may not fall, because a follower keeps what it has acknowledged. A voter
    /// whose part exceeds granted moves up past the voters directly before it whose parts are less.
    /// If its part was at most granted before, the shortest prefix of the entries that is a quorum
    /// determines granted. A learner never changes granted. The call never allocates.
    ///
    /// For example, voters 0 to 4 are `id:value`, granted is 3, and voter 1 goes from 2 to 4:
    ///
    /// - before, `4:5 0:4 2:3 1:2 3:3`: the voters whose parts exceed granted come first;
    /// - written, `4:5 0:4 2:3 1:4 3:3`;
    /// - moved, `4:5 0:4 1:4 2:3 3:3`: past voter 2, and not past voter 0, which has the same part;
    /// - tested, `4:5 0:4 1:4`: the prefix up to its new position has three of five voters, so
    ///   granted is 4.
    fn update_with<F: FnOnce(&mut V)>(&mut self, id: &ID, f: F) -> Result<&P, &P>
        requires ordered { IsInOrder ID.eq P.cmp V.part_of QS.has_quorum (view_of self.old) }
        requires callable { ForSome ((state ID.eq (view_of self.old)).value id.now)
            (FnOnceTakesAtMut F.FnOnce f) }
        requires monotone { NeverFalls ID.eq P.cmp V.part_of (Leaves F.FnOnce f)
            (view_of self.old) id.now }
        ensures* after { sem 𝓛 (LendsGranted Self.row view_of self.entry
            (IsAnsweredUpdate ID.eq P.cmp V.part_of QS.has_quorum
            (Leaves F.FnOnce f) id.now result)) };

    /// Whether a value's part is below the part of the id's present value.
    ///
    /// If it is, `update` may not be called, and `increase_to` may not be called with a greater
    /// value.
    fn would_fall(&self, id: &ID, value: &V) -> bool
        ensures answer { result
            ≡ falls P.cmp V.part_of ((state ID.eq (view_of self.now)).value id.now) value.now }
        ensures monotone { result ≡ false →
            IsNotLower ID.eq P.cmp V.part_of (view_of self.now) id.now value.now };

    /// Writes the value of an id. Returns granted, as an error if the id is unknown. The part may
    /// not fall, which `would_fall` tests.
    fn update(&mut self, id: &ID, value: V) -> Result<&P, &P>
        requires ordered { IsInOrder ID.eq P.cmp V.part_of QS.has_quorum (view_of self.old) }
        requires monotone { IsNotLower ID.eq P.cmp V.part_of (view_of self.old) id.now value }
        ensures* after { sem 𝓛 (LendsGranted Self.row view_of self.entry
            (IsAnsweredUpdate ID.eq P.cmp V.part_of QS.has_quorum
            (λ v w. w ≡ value) id.now result)) };

    /// Writes the value of an id if it is greater than the present one, and counts an update in
    /// either case. Returns granted, as an error if the id is unknown. The part of a greater value
    /// may not fall, which `would_fall` tests.
    fn increase_to(&mut self, id: &ID, value: V) -> Result<&P, &P>
    where
        V: PartialOrd,
        requires ordered { IsInOrder ID.eq P.cmp V.part_of QS.has_quorum (view_of self.old) }
        requires monotone { IsNotLowerIfGreater ID.eq P.cmp V.part_of V.partial_cmp
            (view_of self.old) id.now value }
        ensures* after { sem 𝓛 (LendsGranted Self.row view_of self.entry
            (IsAnsweredUpdate ID.eq P.cmp V.part_of QS.has_quorum
            (IsGreaterOf V.partial_cmp value) id.now result)) };

    /// Whether the learners fit a quorum set: no learner is repeated, and none is a voter.
    ///
    /// This is a precondition of `VecProgress::new` and of `upgrade_quorum_set`. The test returns
    /// an error if an allocation fails.
    fn learners_fit(alloc: Global, quorum_set: &QS, learners: &[ID]) -> Result<bool, AllocError>
        ensures { IfOk result (λ fits.
            IsTrue fits ↔ LearnersFit ID.eq (QS.is_voter quorum_set.now) learners.now) };

    /// Whether no value that an upgrade would inherit is below the new default.
    ///
    /// This is a precondition of `upgrade_quorum_set`, because values never fall, and no value is
    /// below the default. The test returns an error if an allocation fails.
    fn can_upgrade(&self, quorum_set: &QS, learners: &[ID], default: &V) -> Result<bool, AllocError>
        ensures { IfOk result (λ can. IsTrue can ↔ CanUpgrade ID.eq P.cmp V.part_of
            (QS.is_voter quorum_set.now) learners.now default.now
            (state ID.eq (view_of self.now)).value) };

    /// Returns a progress with another quorum set that inherits the values of the ids that stay, or
    /// an allocation error.
    ///
    /// Granted is recomputed under the new quorum set, so it may be less than before, because the
    /// new voters may have reached less. The learners are in the given order. The counts continue
    /// from the present ones, and each present id counts an update, even an id that does not stay.
    /// `self` stays as it is, also if an allocation fails.
    fn upgrade_quorum_set(
        &self,
        quorum_set: QS,
        learners: &[ID],
        default: V,
    ) -> Result<Self, AllocError>
    where
        V: Clone,
        requires ordered { IsInOrder ID.eq P.cmp V.part_of QS.has_quorum (view_of self.now) }
        requires clones_have_the_part { (v w : V) → V.is_clone v w → V.part_of w ≡ V.part_of v }
        requires learners_fit { LearnersFit ID.eq (QS.is_voter quorum_set) learners.now }
        requires can_upgrade { CanUpgrade ID.eq P.cmp V.part_of (QS.is_voter quorum_set)
            learners.now default (state ID.eq (view_of self.now)).value }
        ensures made { IfOk result (λ made.
            IsUpgraded ID.eq V.is_clone V.part_of (QS.is_voter quorum_set)
            quorum_set learners.now default (state ID.eq (view_of self.now)).value
            (state ID.eq (view_of made))) }
        ensures ordered { IfOk result (λ made.
            IsInOrder ID.eq P.cmp V.part_of QS.has_quorum (view_of made)) }
        ensures fold { IfOk result (λ made.
            IsUpgradeFold ID.eq ID.cmp P.cmp V.part_of V.is_clone QS.has_quorum QS.is_voter
            (view_of self.now) quorum_set learners.now default (view_of made)) }
        ensures learners { IfOk result (λ made. learner_ids (view_of made) ≡ learners.now) }
        ensures counts { IfOk result (λ made.
            CountsGoOn (length (view_of self.now).entries) (view_of made).voter_count
            (view_of self.now).stat (view_of made).stat) };
}
