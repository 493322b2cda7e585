//! Callers of the laws over a leader's followers, whose values are progress entries and have no
//! order.
ghost use Rattle.raft_base.specs.LogId.{log_id_cmp, next_index};
ghost use Rattle.raft_progress.specs.progress.InOrder.{IsInOrder};
ghost use Rattle.raft_progress.specs.progress.LoggedMatches.{MatchesAreLogged, is_logged_or_purged};
ghost use Rattle.raft_progress.specs.progress.VecProgress.{view};
ghost use Rattle.std.specs.Option.{option_cmp};
ghost use Rattle.std.specs.Prelude.{◌≡◌, ◌<◌, ◌≤◌, ◌^◌, IsTrue, true};

use raft_base::{LogIdOf, LogIdOptionExt, LogStateReader};
use raft_members::quorum::QuorumSet;
use raft_progress::entry::ProgressEntryOf;
use raft_progress::laws::{can_send_stays, granted_is_logged};
use raft_progress::progress::{Progress as _, ProgressPart, VecProgress};

/// What is granted of followers whose matches are in the log, which then has it too.
fn commit_upto<ID: Copy + Ord, C: Ord + Copy + Drop, QS: QuorumSet<ID>, L: LogStateReader<C>>(
    followers: &VecProgress<ID, ProgressEntryOf<C>, Option<LogIdOf<C>>, QS>,
    log: &L,
) -> Option<LogIdOf<C>>
    requires ordered { IsInOrder ID.eq (option_cmp (log_id_cmp C.cmp)) (λ e. e.matching)
        QS.has_quorum (view followers.now) }
    requires logged { MatchesAreLogged ID.eq C.eq (λ e. e.matching) (L.log_view log.now)
        (view followers.now) }
    ensures { is_logged_or_purged C.eq (L.log_view log.now) result ≡ true }
{
    granted_is_logged::<ID, ProgressEntryOf<C>, C, QS>();
    *followers.granted()
}

/// Whether a log has the index of a log id, or a later one.
fn reaches<C: Ord + Copy, L: LogStateReader<C>>(log: &L, id: Option<LogIdOf<C>>) -> bool
    ensures { IsTrue result → next_index id ≤ next_index (L.log_view log.now).last }
{
    id.index() <= log.last_log_id().copied().index()
}

/// Whether a log has grown, and its indexes are below the greatest u64.
fn has_grown<C: Ord + Copy, L: LogStateReader<C>>(log: &L, later: &L) -> bool
    ensures more { IsTrue result → next_index (L.log_view log.now).last
        ≤ next_index (L.log_view later.now).last }
    ensures last { IsTrue result → next_index (L.log_view later.now).last < 2 ^ 64 }
    ensures purged { IsTrue result → next_index (L.log_view later.now).purge_upto < 2 ^ 64 }
{
    reaches(later, log.last_log_id().copied())
        && later.last_log_id().copied().has_next_index()
        && later.purge_upto().copied().has_next_index()
}

/// Sends, takes an ack and sends again, once the log has grown. It asks only once whether it can.
fn sends_twice<C: Ord + Copy, L: LogStateReader<C>>(
    follower: &mut ProgressEntryOf<C>,
    log: &L,
    acked: Option<LogIdOf<C>>,
    later: &L,
) -> bool {
    can_send_stays::<C, L>();
    if !follower.inflight.is_none() || !follower.can_send(log) || follower.curr_inflight_id > 99 {
        return false;
    }
    if !reaches(log, acked) || !reaches(log, log.snapshot_last_log_id().copied()) {
        return false;
    }
    if follower.next_send(log, 8).is_err() {
        return false;
    }
    let request = follower.curr_inflight_id;
    if follower.update_matching(request, acked).is_err() || !has_grown(log, later) {
        return false;
    }
    follower.next_send(later, 8).is_ok()
}
