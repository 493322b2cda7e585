//! How a follower's acknowledgement is taken in place.
ghost use Rattle.std.specs.Prelude.{◌≡◌, false};
ghost use Rattle.std.specs.Map.{keys_of};
ghost use Rattle.std.specs.Option.{ForSome, option_cmp};
ghost use Rattle.raft_base.specs.LogId.{log_id_cmp};
ghost use Rattle.raft_progress.specs.Inner.Sides.{AreSidesOf};
ghost use Rattle.raft_progress.specs.Inner.Settled.{HasVotersOfSet};
ghost use Rattle.raft_progress.specs.Inner.ViewAnswers.{IsViewWrite};
ghost use Rattle.raft_progress.specs.declared.progress.steps.Reply.TheVariants.{Granted};
ghost use Rattle.raft_progress.specs.entry.EntryTable.{entry_after_ack};
ghost use Rattle.raft_progress.specs.progress.InOrder.{IsInOrder};
ghost use Rattle.raft_progress.specs.progress.ProgressView.{state};
ghost use Rattle.raft_progress.specs.progress.VecProgress.{view};
ghost use Rattle.raft_progress.specs.tracked.Followers.{IsResponse};

use super::VecProgress;
use crate::entry::ProgressEntryOf;
use crate::inflight::InflightError;
use crate::progress::sides::Sides;
use raft_base::LogIdOf;
use raft_members::quorum::QuorumSet;

impl<ID: Copy + Ord, C: Ord + Copy, QS: QuorumSet<ID>> VecProgress<
    ID,
    ProgressEntryOf<C>,
    Option<LogIdOf<C>>,
    QS,
> {
    /// Takes the response that a follower has all logs up to a log id, and recomputes granted by
    /// counting voters. The result is `None` for an unknown id.
    // One look-up serves the read and the write, and the entry is changed in place.
    #[inline(always)]
    pub(crate) fn acknowledge(
        &mut self,
        id: &ID,
        request_id: u64,
        matching: Option<LogIdOf<C>>,
        sides: Option<&Sides>,
    ) -> Option<Result<(), InflightError>>
        requires ordered { IsInOrder ID.eq (option_cmp (log_id_cmp C.cmp)) (λ e. e.matching)
            QS.has_quorum (view self.old) }
        requires voters { HasVotersOfSet ID.eq QS.is_voter (view self.old) }
        requires sides { ForSome sides (λ s. self.old.positions.stale ≡ false →
            AreSidesOf ID.eq (QS.has_quorum (view self.old).quorum_set)
            (keys_of self.old.positions.sorted.items) s.now) }
        ensures step { IsResponse ((state ID.eq (view self.old)).value id.now)
            (λ entry. entry_after_ack C.cmp entry request_id matching)
            (λ next. IsViewWrite ID.eq (option_cmp (log_id_cmp C.cmp)) (λ e. e.matching) QS.has_quorum
            (view self.old) id.now next (Granted (view self.new).granted) (view self.new))
            (view self.old) result (view self.new) }
        ensures ordered { IsInOrder ID.eq (option_cmp (log_id_cmp C.cmp)) (λ e. e.matching)
            QS.has_quorum (view self.new) }
    {
        // This read is for the proof: it shows that each count fits a u64.
        let _counts = (self.stat.move_count, self.stat.is_quorum_count);
        let Some(position) = self.index(id) else {
            return None;
        };
        let entry = &mut self.entries[position];
        let before = entry.1.matching;
        if let Err(refused) = entry.1.update_matching(request_id, matching) {
            return Some(Err(refused));
        }
        self.stat.update_count = self.stat.update_count.saturating_add(1);
        self.restore_order(position, before, matching, true, sides);
        Some(Ok(()))
    }
}
