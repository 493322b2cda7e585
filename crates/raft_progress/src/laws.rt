//! Laws of progresses. A caller that needs one in a proof calls its function, which does nothing.
ghost use Rattle.std.specs.Prelude.{Option};
ghost use Rattle.std.specs.declared.cmp.Ordering.{Ordering};
ghost use Rattle.raft_progress.specs.entry.Sendable.{AckKeepsSendable, BeginsSendable, ConflictKeepsSendable, GiveUpKeepsSendable, GrowthKeepsSendable, SendKeepsSendable, SendableCanSend};
ghost use Rattle.raft_progress.specs.progress.Calls.{IncreasesAreSteps, RunsAreRunsOfValues, RunsCompose, RunsNeverFall, UpdatesAreSteps, UpgradesAreSteps};
ghost use Rattle.raft_progress.specs.progress.Comparisons.{comparisons_ordered};
ghost use Rattle.raft_progress.specs.progress.LoggedMatches.{GrantedIsLogged};
ghost use Rattle.raft_progress.specs.progress.Kept.{ClonesKeepOrder, KeptPartsKeepOrder, SamePartKeepsParts};
ghost use Rattle.raft_progress.specs.progress.Threshold.{CountedValuesTie, GrantedIsThreshold, MeetingQuorumsKnowGranted};
ghost use Rattle.raft_progress.specs.search.Purged.{PurgedWithinStays};
ghost use Rattle.raft_progress.specs.tracked.Elected.{ElectedLacksNothing, GrantedMeet};
ghost use Rattle.raft_progress.specs.tracked.Known.{ChangeKeepsGranted, KnownOverChanges, KnownStays};
ghost use Rattle.raft_progress.specs.tracked.Tracked.{ChangedQuorumsHaveGranted, GrantedIsCounted, QuorumsHaveGranted, TrackedIsReady};
ghost use Rattle.raft_progress.specs.tracked.TrackedCalls.{ReplaysAreRunsOfValues, ReplaysCompose, ReplaysNeverFall, TrackedChangesAreSteps, TrackedUpdatesAreSteps};
ghost use Rattle.raft_progress.specs.tracked.TrackedState.{has_quorum};

use crate::progress::ProgressPart;
use crate::tracked::Tracked;
use raft_base::{LogIdOf, LogStateReader, Node, NodeId};
use raft_members::quorum::QuorumSet;

/// A progress that was in order is still in order after values have been written through `get_mut`
/// or `iter_mut`, if the ids and the voters' parts are as they were.
///
/// So a caller that changes only what a value contains beside its part may go on with updates, and
/// need not call `is_in_order`.
pub fn kept_parts_keep_order<ID: Copy + Ord, V: ProgressPart<P>, P: Copy + Ord, QS: QuorumSet<ID>>()
    ensures ordered { KeptPartsKeepOrder ID V P QS ID.eq V.part_of P.cmp QS.has_quorum }
    ensures same_part { SamePartKeepsParts ID V P QS ID.eq V.part_of }
{}

/// In any tracked progress granted is the counted value. If the membership has a config, each
/// quorum of it, and each quorum of what one change makes of it, has a voter whose part is at least
/// granted.
///
/// This needs no replay: a new tracked progress and a clone have it too.
pub fn quorums_know_granted<NID: NodeId, N: Node, V: ProgressPart<P>, P: Copy + Ord>(
    cluster: &Tracked<NID, N, V, P>,
)
    ensures ready { TrackedIsReady cluster.now }
    ensures granted { GrantedIsCounted cluster.now }
    ensures quorums { QuorumsHaveGranted cluster.now }
    ensures changed_quorums { ChangedQuorumsHaveGranted cluster.now }
{}

/// In a progress that is in order, a part is at most granted exactly if it is at most the default's
/// part, or a quorum with a voter has reached it.
///
/// So an index is committed exactly if a quorum matches up to it, a vote is won exactly if a quorum
/// has voted, and granted is at least a moment exactly if a quorum has responded since that moment.
pub fn granted_is_threshold<ID: Copy + Ord, V: ProgressPart<P>, P: Copy + Ord, QS: QuorumSet<ID>>()
    ensures { GrantedIsThreshold ID V P QS ID.eq P.cmp V.part_of QS.has_quorum }
{}

/// In a progress that is in order, if any two quorums of its quorum set share a voter, each quorum
/// has a voter whose part is at least granted. This also holds for quorums of a stated size, and
/// for your own quorum sets.
pub fn meeting_quorums_know_granted<
    ID: Copy + Ord,
    V: ProgressPart<P>,
    P: Copy + Ord,
    QS: QuorumSet<ID>,
>()
    ensures { MeetingQuorumsKnowGranted ID V P QS ID.eq P.cmp V.part_of QS.has_quorum }
{}

/// In a progress that is in order, if each matching log id and the default's are in the leader's
/// log or purged from it, granted is too.
///
/// So a leader need not look up what it commits, if each matching log id that it has taken is in
/// its log.
pub fn granted_is_logged<
    ID: Copy + Ord,
    V: ProgressPart<Option<LogIdOf<C>>>,
    C: Ord + Copy,
    QS: QuorumSet<ID>,
>()
    ensures { GrantedIsLogged ID V C QS ID.eq C.eq C.cmp V.part_of QS.has_quorum }
{}

/// A state has one counted value: two counted values tie, and a part that ties with a counted value
/// is counted.
pub fn counted_values_tie<ID: Copy + Ord, V: ProgressPart<P>, P: Copy + Ord, QS: QuorumSet<ID>>()
    ensures { CountedValuesTie ID V P QS P.cmp V.part_of QS.has_quorum }
{}

/// A clone of a progress that is in order is in order.
pub fn clones_keep_order<
    ID: Copy + Ord,
    V: ProgressPart<P> + Clone,
    P: Copy + Ord,
    QS: QuorumSet<ID> + Clone,
>()
    ensures { ClonesKeepOrder ID V P QS ID.eq V.part_of P.cmp QS.has_quorum V.is_clone QS.is_clone }
{}

/// Calls that were made are steps of a run, and two runs compose to one if the second begins where
/// the first ended. So what is proved of a replay holds for any list of calls: replies and values
/// are a run of the steps, and granted never falls without an upgrade.
///
/// Values need no order, because only an increase compares them. So the law also holds for a
/// leader's followers, for whom `replay_any` cannot be called, and for each order of the values.
pub fn calls_are_runs<
    ID: Copy + Ord,
    V: ProgressPart<P> + Clone,
    P: Copy + Ord,
    QS: QuorumSet<ID>,
>()
    ensures compose { (order : V → V → Option Ordering) →
        let by = comparisons_ordered ID.Ord P.Ord order V.ProgressPart V.Clone in
        RunsCompose ID V P QS by QS.has_quorum QS.is_voter }
    ensures values { (order : V → V → Option Ordering) →
        let by = comparisons_ordered ID.Ord P.Ord order V.ProgressPart V.Clone in
        RunsAreRunsOfValues ID V P QS by QS.has_quorum QS.is_voter }
    ensures monotone { (order : V → V → Option Ordering) →
        let by = comparisons_ordered ID.Ord P.Ord order V.ProgressPart V.Clone in
        RunsNeverFall ID V P QS by QS.has_quorum QS.is_voter }
    ensures updates { (order : V → V → Option Ordering) →
        let by = comparisons_ordered ID.Ord P.Ord order V.ProgressPart V.Clone in
        UpdatesAreSteps ID V P QS by QS.has_quorum QS.is_voter }
    ensures increases { (order : V → V → Option Ordering) →
        let by = comparisons_ordered ID.Ord P.Ord order V.ProgressPart V.Clone in
        IncreasesAreSteps ID V P QS by QS.has_quorum QS.is_voter }
    ensures upgrades { (order : V → V → Option Ordering) →
        let by = comparisons_ordered ID.Ord P.Ord order V.ProgressPart V.Clone in
        UpgradesAreSteps ID V P QS by QS.has_quorum QS.is_voter }
{}

/// Calls of a `Tracked` that were made are steps of a replay, and two replays compose to one if the
/// second begins where the first ended. The calls are an update, and `change_to` with what a change
/// makes of the membership. Over a replay, replies, membership and values are a run of the steps,
/// and granted never falls without a change.
///
/// Values need no order, because only an increase compares them.
pub fn tracked_calls_are_runs<NID: NodeId, N: Node, V: ProgressPart<P> + Clone, P: Copy + Ord>()
    ensures compose { (order : V → V → Option Ordering) →
        let by = comparisons_ordered NID.Ord P.Ord order V.ProgressPart V.Clone in
        ReplaysCompose NID N V P by N.eq }
    ensures values { (order : V → V → Option Ordering) →
        let by = comparisons_ordered NID.Ord P.Ord order V.ProgressPart V.Clone in
        ReplaysAreRunsOfValues NID N V P by N.eq }
    ensures monotone { (order : V → V → Option Ordering) →
        let by = comparisons_ordered NID.Ord P.Ord order V.ProgressPart V.Clone in
        ReplaysNeverFall NID N V P by N.eq }
    ensures updates { (order : V → V → Option Ordering) →
        let by = comparisons_ordered NID.Ord P.Ord order V.ProgressPart V.Clone in
        TrackedUpdatesAreSteps NID N V P by N.eq }
    ensures changes { (order : V → V → Option Ordering) →
        let by = comparisons_ordered NID.Ord P.Ord order V.ProgressPart V.Clone in
        TrackedChangesAreSteps NID N V P by N.eq }
{}

/// After a change of a membership that has a config, each quorum of the new membership has a voter
/// whose present part is at least what was granted before. So what was committed stays known after
/// the change, even if less is granted then.
pub fn change_keeps_granted<NID: NodeId, N: Node, V: ProgressPart<P> + Clone, P: Copy + Ord>()
    ensures { ChangeKeepsGranted NID N V P NID.eq NID.cmp N.eq P.cmp V.part_of V.is_clone }
{}

/// What each quorum of a membership knows stays known over steps without a change, and over changes
/// that are made while it is granted.
///
/// So over several changes, what was granted stays known if it is granted again before each further
/// change.
///
/// Values need no order, because only an increase compares them.
pub fn known_stays<NID: NodeId, N: Node, V: ProgressPart<P> + Clone, P: Copy + Ord>()
    ensures without_change { (order : V → V → Option Ordering) →
        let by = comparisons_ordered NID.Ord P.Ord order V.ProgressPart V.Clone in
        KnownStays NID N V P by N.eq }
    ensures over_changes { (order : V → V → Option Ordering) →
        let by = comparisons_ordered NID.Ord P.Ord order V.ProgressPart V.Clone in
        KnownOverChanges NID N V P by N.eq }
{}

/// Elections meet commits. If matching log ids and votes are counted under memberships that share a
/// config, as before and after one change, and a quorum has voted, then some voter of both
/// memberships matches what is granted of the matching log ids and has voted. So a candidate whose
/// log is at least as up to date as the log of each of its voters has everything that is committed.
pub fn granted_meet<
    NID: NodeId,
    N: Node,
    M: Node,
    V: ProgressPart<P>,
    P: Copy + Ord,
    W: ProgressPart<Q>,
    Q: Copy + Ord,
>()
    ensures voter { GrantedMeet NID N M V P W Q NID.eq NID.cmp P.cmp V.part_of Q.cmp W.part_of }
    ensures lacks_nothing { ElectedLacksNothing NID N M V P W Q NID.eq NID.cmp P.cmp V.part_of
        Q.cmp W.part_of }
{}

/// If no send of a list has its purge point at or past an index, no send that was not skipped has
/// it there. This is the premise of the sharper bound of `search_run`, from its events alone.
pub fn none_purged_past<C: Ord + Copy, L: LogStateReader<C>>()
    ensures { PurgedWithinStays L C C.cmp L.log_view }
{}

/// Once `can_send` has been true for a follower to which nothing was in flight, it stays true while
/// the log only grows. `IsSendable` holds from then on, over sends, over accepted responses and
/// over `give_up`, until a request id or an index is the greatest u64.
///
/// The premises are that an ack of a snapshot is not past the leader's log, which an ack of logs
/// cannot be, and that the log has what its snapshot has.
pub fn can_send_stays<C: Ord + Copy, L: LogStateReader<C>>()
    ensures begins { BeginsSendable C }
    ensures sends { (log : L) → SendKeepsSendable C C.cmp (L.log_view log) }
    ensures acks { AckKeepsSendable C C.cmp }
    ensures conflicts { ConflictKeepsSendable C }
    ensures gives_up { GiveUpKeepsSendable C }
    ensures grows { GrowthKeepsSendable C }
    ensures can_send { SendableCanSend C }
{}
