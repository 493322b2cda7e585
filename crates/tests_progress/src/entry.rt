//! Progress entries: examples of responses and sends, and callers that take acks and send.
ghost use Rattle.raft_base.specs.LogId.{id_le, log_id_cmp};
ghost use Rattle.raft_base.specs.Validate.{first_false};
ghost use Rattle.raft_progress.specs.declared.entry.ProgressEntryOf.{ProgressEntryOf};
ghost use Rattle.raft_progress.specs.entry.EntryValid.{entry_relations};
ghost use Rattle.raft_progress.specs.entry.Send.{send_table};
ghost use Rattle.raft_progress.specs.progress.InOrder.{IsInOrder};
ghost use Rattle.raft_progress.specs.progress.ProgressView.{state};
ghost use Rattle.raft_progress.specs.progress.VecProgress.{view};
ghost use Rattle.std.specs.Option.{option_cmp};
ghost use Rattle.std.specs.Prelude.{◌≡◌, IfSome, IsTrue, None, Ok, Some, false};

use crate::support::entry_rows::{compare, entry, in_flight};
use crate::support::values::purged_log;
use raft_base::leader_id_std::CommittedLeaderId as Leader;
use raft_base::{LogIdOf, LogStateReader};
use raft_members::quorum::QuorumSet;
use raft_progress::entry::ProgressEntryOf;
use raft_progress::inflight::InflightOf;
use raft_progress::progress::{Progress, VecProgress};
use std::test::Fail;
use tests_support::plain_log::{id, log_below};

/// Takes a follower's ack of all up to a log id. A match never falls, so neither the update nor the
/// order of the progress needs a test.
pub fn take_ack<ID: Copy + Ord, C: Ord + Copy + Drop + 'static, QS: QuorumSet<ID>>(
    followers: &mut VecProgress<ID, ProgressEntryOf<C>, Option<LogIdOf<C>>, QS>,
    id: &ID,
    request: u64,
    upto: Option<LogIdOf<C>>,
) -> bool
    requires ordered { IsInOrder ID.eq (option_cmp (log_id_cmp C.cmp)) (λ e. e.matching)
        QS.has_quorum (view followers.old) }
    ensures ordered { IsInOrder ID.eq (option_cmp (log_id_cmp C.cmp)) (λ e. e.matching)
        QS.has_quorum (view followers.new) }
    ensures matched { IsTrue result → (entry : ProgressEntryOf C)
        × ((state ID.eq (view followers.new)).value id.now ≡ Some entry)
        × (entry.matching ≡ upto) × (first_false (entry_relations C.cmp entry) ≡ None) }
    ensures monotone { IsTrue (id_le C.cmp (view followers.old).granted
        (view followers.new).granted) }
    ensures refused { result ≡ false → view followers.new ≡ view followers.old }
{
    match followers.try_get(id).copied() {
        None => false,
        Some(found) => {
            let mut entry = found;
            if entry.update_matching(request, upto).is_err() {
                return false;
            }
            let _ = followers.update(id, entry);
            true
        }
    }
}

/// What is sent next to a follower, no more than 64 logs, where a send is allowed.
pub fn sent_next<C: Ord + Copy, L: LogStateReader<C>>(
    entry: &mut ProgressEntryOf<C>,
    log: &L,
) -> Option<InflightOf<C>>
    ensures { IfSome result (λ sending.
        (send_table C.cmp entry.old (L.log_view log.now) 64 ≡ Ok entry.new)
        × (sending ≡ entry.new.inflight)) }
{
    if !entry.can_send(log) {
        return None;
    }
    match entry.next_send(log, 64) {
        Ok(sending) => Some(*sending),
        Err(_) => None,
    }
}

/// The search in a log of 100 goes by probes, each half of the way on. Heartbeats shorten the
/// search, and no further than the match. Responses of a stranger to logs are refused, and a
/// heartbeat leaves an entry that is invalid until the response.
pub const HUNDRED: &str = "
- 100 0 -; send - 10 sent | - 100 1 1:1.47>1.57; conflict 1 47 ok | - 47 1 -; \
    send - 10 sent | - 47 2 2:1.15>1.25; conflict 2 15 ok | - 15 2 -; \
    send - 10 sent | - 15 3 3:->1.9; conflict 3 0 ConflictNotAtPrev
1.4 20 0 -; conflict - 10 ok | 1.4 10 0 -; conflict - 3 ConflictBelowMatching; conflict - 10 ok; \
    conflict - 5 ok | 1.4 5 0 -
- 100 1 1:1.47>1.57; ack 2 1.50 mine:1; ack 1 1.46 AckOutOfRange; ack 1 1.58 AckOutOfRange; \
    ack 1 - AckOutOfRange; conflict 1 46 ConflictNotAtPrev; conflict - 30 ok | - 30 1 1:1.47>1.57; \
    validate PrevPastEnd; conflict 1 47 ok | - 30 1 -; validate valid
";

/// Entries with the first relation that they break, and where their next probes start.
pub const READS: &str = "
1.5 5 0 -; validate MatchingPastEnd
1.18446744073709551615 18446744073709551615 0 -; validate MatchingPastEnd
- 9 0 1:1.5>1.4; validate RangeOrder
1.5 9 0 1:1.4>1.8; validate MatchingPastPrev
- 18446744073709551615 0 1:1.18446744073709551615>2.0; validate PrevPastEnd
1.8 9 0 2:1.8; validate SnapshotNotPastMatching
- 9 0 2:-; validate SnapshotNotPastMatching
- 9 2 2:1.8; validate valid
- 32 0 -; start 16 32
- 15 0 -; start 0 15
- 0 0 -; start 0 0
1.4 4 7 -; start no
";

/// Sends over a log of ten, with nothing to be purged and no snapshot: after the match, without
/// limit, of no entries, of nothing new, while logs are in flight, and past the end. Responses
/// below the match are refused, and what is in flight stays. Responses to a snapshot are taken up
/// to the greatest index but one.
const TEN: &str = "
1.4 5 0 -; send - 3 sent | 1.4 5 1 1:1.4>1.7; send - 3 unsent
1.4 5 0 -; send - 18446744073709551615 sent | 1.4 5 1 1:1.4>1.9
- 10 0 -; send - 0 sent | - 10 1 1:-
1.9 10 0 -; send - 3 unsent
- 11 0 -; send - 3 no
- 9 18446744073709551615 -; send - 3 no
1.8 9 0 0:1.2>1.9; ack 0 1.5 MatchingRegress; conflict 0 2 ConflictBelowMatching
- 9 0 -; ack 0 - mine:-
- 9 0 2:1.8; ack 2 1.7 SnapshotAckRegress; ack 2 1.18446744073709551615 IndexTooLarge; \
    conflict 2 3 ConflictOnSnapshot; ack 2 1.12 ok | 1.12 13 0 -; send - 3 no
";

/// The search in a log of 21, to be purged up to index 4, ends with a snapshot. One that is lost is
/// sent once more, and late responses to the first are refused.
pub const PURGED: &str = "
- 10 0 -; send - 10 sent | - 10 1 1:1.4>1.14; conflict 1 4 ok | - 4 1 -; \
    send - 10 sent | - 4 2 2:1.6; give-up | - 4 2 -; conflict 2 4 mine:-; \
    send - 10 sent | - 4 3 3:1.6; ack 2 1.6 mine:3; ack 3 1.6 ok | 1.6 7 3 -
";

/// If the ids of a log do not rise, a send puts nothing in flight and yet takes a request id.
const FALLING: &str = "5.4 5 0 -; send - 10 sent | 5.4 5 1 -; send - 10 sent | 5.4 5 2 -";

/// No send is allowed in a log that is to be purged up to the greatest index.
const FAR: &str = "- 9 0 -; send - 3 no";

/// Whether entries are made as they should.
pub fn are_made() -> bool {
    let matched = ProgressEntryOf::<Leader>::new(id(1, 4)).with_curr_inflight_id(7);
    matched.with_inflight(in_flight("1:1.5>1.9")) == entry("1.4 5 7 1:1.5>1.9")
        && ProgressEntryOf::<Leader>::empty(100) == entry("- 100 0 -")
}

/// Example progress 18. The search by probes at 47 and 15, and the search that ends at purge
/// point 4; sends after the match, without limit, of no entries and past the end; heartbeats;
/// responses that nobody asked for; states in which no send is allowed.
/// Example progress 19. `sending_start` of entries that end at 32, 15 and 0, and the relations
/// that an entry must keep.
#[test]
fn responses_and_sends_are_as_worked(rt: HostRuntime) -> Result<(), Fail> {
    let alloc = rt.alloc();
    compare::<Leader>(&rt, log_below(alloc, 100, None), HUNDRED);
    compare::<Leader>(&rt, log_below(alloc, 10, None), READS);
    compare::<Leader>(&rt, log_below(alloc, 10, None), TEN);
    compare::<Leader>(&rt, log_below(alloc, 8, id(5, 4)), FALLING);
    compare::<Leader>(&rt, purged_log(alloc, 21, 4, id(1, 6)), PURGED);
    compare::<Leader>(&rt, purged_log(alloc, 10, u64::MAX, None), FAR);
    Ok(())
}
