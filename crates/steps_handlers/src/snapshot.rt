//! A follower: a snapshot that a leader sends.
ghost use Rattle.std.specs.Prelude.{◌≡◌, Ok, false, true, IfOk, IsOk, OnOk, OnErr};
ghost use Rattle.std.specs.Set.{ClonesAreEqual};
ghost use Rattle.raft_base.specs.LogId.{id_lt};
ghost use Rattle.steps_handlers.specs.Append.{IfHigherVote};
ghost use Rattle.steps_handlers.specs.Follow.{heard, higher_vote_response, is_followed, vote_heard};
ghost use Rattle.steps_handlers.specs.Snapshot.{install_refusal, snapshot_refusal, AnswersSnapshot, Installs, RefusedFor};
ghost use Rattle.steps_handlers.specs.Written.{nothing_installed, WritesInstall, WritesSnapshot};
ghost use Rattle.steps_handlers.specs.declared.message.RequestNumber.TheVariants.{InFlight};
ghost use Rattle.raft_state.specs.SnapshotMeta.{IsSnapshotCopy};
ghost use Rattle.raft_state.specs.raft_state.Sound.{IsSound};

use crate::changes::SnapshotChanges;
use crate::error::SnapshotError;
use crate::message::{InstallSnapshot, Outcome, RequestNumber, Response};
use crate::state::State;
use crate::vote::follow;
use raft_base::order::log_id_below;
use raft_base::{Instant, LeaderIdentity, Node, NodeId};
use raft_state::{SnapshotMetaOf, VoteStateReader};

/// Handles a leader's request to install a snapshot. It promises the leader's vote, and the
/// snapshot takes the place of the log up to its last log id, unless all of it is committed
/// already: then the log stays as it is.
///
/// Returns the response, and what has changed. Write that to disk before any message leaves, the
/// vote first. If the snapshot was installed, the state machine and the disk take it.
///
/// A snapshot that is not past what is committed never fails (`no_memory`).
///
/// After an error the vote is the leader's, and nothing else has changed. Write the vote to disk, or
/// treat the error as a crash. Both are right, because no answer was sent.
pub fn handle_install_snapshot<
    NID: NodeId,
    N: Node,
    I: Instant,
    L: LeaderIdentity<Id = NID> + Drop,
>(
    state: &mut State<NID, N, I, L>,
    request: &InstallSnapshot<L, L::Committed, NID, N>,
) -> Result<(Response<L, L::Committed>, SnapshotChanges), SnapshotError>
    requires clones_are_equal { ClonesAreEqual N.eq N.is_clone }
    ensures leader { IfOk result (λ made.
        made.0.leader_id ≡ L.committed request.now.leader_id) }
    ensures request { IfOk result (λ made. made.0.request ≡ InFlight request.now.request) }
    ensures vote { state.new.vote ≡ vote_heard L.order request.now.leader_id state.old }
    ensures not_followed { let leader = L.committed request.now.leader_id in
        let number = InFlight request.now.request in
        is_followed L.order request.now.leader_id state.old ≡ false → result
        ≡ Ok (higher_vote_response leader number state.old, nothing_installed) }
    ensures followed { IfOk result (λ made. IfHigherVote made.0.outcome
        (λ _. is_followed L.order request.now.leader_id state.old ≡ false)) }
    ensures answers { IfOk result (λ made. AnswersSnapshot L.Committed.Ord L.eq
        (IsSnapshotCopy NID.eq N.eq) request.now.meta made.0.outcome
        (heard L.order request.now.leader_id state.old) state.new) }
    ensures writes { IfOk result (λ made. WritesSnapshot L.Committed.Ord L.eq
        (is_followed L.order request.now.leader_id state.old) request.now.meta made.1
        state.old state.new) }
    ensures refused { RefusedFor (snapshot_refusal L.order L.Committed.cmp L.Committed.eq
        request.now.leader_id request.now.meta state.old) result }
    ensures err { OnErr result (state.new ≡ heard L.order request.now.leader_id state.old) }
    ensures no_memory { id_lt L.Committed.cmp state.old.committed request.now.meta.last_log_id
        ≡ false → IsOk result }
    ensures sound { IsSound L.Committed.eq L.Committed.cmp state.old →
        IsSound L.Committed.eq L.Committed.cmp state.new }
{
    let leader_id = L::to_committed(&request.leader_id);
    let number = RequestNumber::InFlight(request.request);
    let promised = *state.vote_ref();
    let Some(is_new) = follow(state, request.leader_id) else {
        let response = Response {
            leader_id,
            request: number,
            outcome: Outcome::HigherVote(promised),
        };
        let changes = SnapshotChanges {
            vote: false,
            installed: false,
            drops_log: false,
        };
        return Ok((response, changes));
    };
    let mut changes = install(state, &request.meta)?;
    changes.vote = is_new;
    let response = Response {
        leader_id,
        request: number,
        outcome: Outcome::Matches(request.meta.last_log_id),
    };
    Ok((response, changes))
}

/// Installs a snapshot of the leader that the vote is for, unless all of it is committed. Returns
/// what has changed, which is not the vote.
///
/// After an error nothing has changed.
pub(crate) fn install<NID: NodeId, N: Node, I: Instant, L: LeaderIdentity<Id = NID> + Drop>(
    state: &mut State<NID, N, I, L>,
    meta: &SnapshotMetaOf<L::Committed, NID, N>,
) -> Result<SnapshotChanges, SnapshotError>
    requires clones_are_equal { ClonesAreEqual N.eq N.is_clone }
    ensures writes { IfOk result (λ changes.
        WritesInstall L.Committed.Ord true meta.now changes state.old state.new) }
    ensures installs { OnOk result (Installs L.Committed.Ord L.eq (IsSnapshotCopy NID.eq N.eq)
        meta.now state.old state.new) }
    ensures refused { RefusedFor (install_refusal L.order L.Committed.cmp L.Committed.eq
        meta.now state.old) result }
    ensures err { OnErr result (state.new ≡ state.old) }
    ensures no_memory { id_lt L.Committed.cmp state.old.committed meta.now.last_log_id ≡ false →
        IsOk result }
    ensures sound { IsSound L.Committed.eq L.Committed.cmp state.old →
        IsSound L.Committed.eq L.Committed.cmp state.new }
{
    if !log_id_below(state.committed, meta.last_log_id) {
        return Ok(SnapshotChanges {
            vote: false,
            installed: false,
            drops_log: false,
        });
    }
    if !state.can_install_snapshot(meta) {
        return Err(SnapshotError::DoesNotFit);
    }
    let is_logged = state.is_logged(&meta.last_log_id);
    state.install_snapshot(meta.try_clone()?)?;
    Ok(SnapshotChanges {
        vote: false,
        installed: true,
        drops_log: !is_logged,
    })
}
