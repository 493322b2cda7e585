//! What is in flight: examples of responses and reads.

use crate::support::asserts::assert_right;
use crate::support::entry_rows::{in_flight, taken};
use raft_base::Validate;
use raft_base::leader_id_std::CommittedLeaderId as Leader;
use raft_progress::inflight::{InflightOf, RequestId};
use std::test::Fail;
use tests_support::plain_log::id;
use tests_support::words::{log_id, number, words};

/// What is in flight, and responses to it in turn, each with its request, the log id or index in
/// it, what it is answered, and what it leaves in flight unless that stays.
const RESPONSES: &str = "
1:1.5>3.10; ack 9 3.10 mine:1; ack 1 2.20 AckOutOfRange; ack 1 2.4 AckOutOfRange; \
    ack 1 1.4 AckOutOfRange; ack 1 3.11 AckOutOfRange; ack 1 - AckOutOfRange; ack 1 1.5 ok; \
    conflict 1 4 ConflictNotAtPrev; conflict 2 5 mine:1; ack 1 2.7 ok 1:2.7>3.10; ack 1 3.10 ok -
1:1.5>3.10; conflict 1 5 ok -; conflict 0 0 mine:-; ack 0 - mine:-
3:->1.9; conflict 3 0 ConflictNotAtPrev
2:1.8; ack 1 1.8 mine:2; ack 2 1.7 SnapshotAckRegress; conflict 2 3 ConflictOnSnapshot; \
    conflict 3 3 mine:2; ack 2 1.12 ok -
";

/// Takes a response. Returns whether it is answered as its row says.
fn is_answered(inflight: &mut InflightOf<Leader>, row: &str) -> bool {
    let [name, request, argument, want, left, ..] = words(row);
    let request = number(request);
    let wanted = if left.is_empty() {
        *inflight
    } else {
        in_flight(left)
    };
    let answer = if name == "ack" {
        inflight.ack(request, log_id(argument))
    } else {
        inflight.conflict(request, number(argument))
    };
    answer == taken(want, request) && *inflight == wanted
}

/// Returns the first response that is answered wrong, if there is one.
pub fn wrong_response() -> Option<&'static str> {
    for line in RESPONSES.trim().lines() {
        let (first, rows) = line.split_once(';').unwrap_or((line, ""));
        let mut inflight = in_flight::<Leader>(first);
        for row in rows.split(';') {
            if !is_answered(&mut inflight, row) {
                return Some(row);
            }
        }
    }
    None
}

/// Whether logs in flight read back.
pub fn reads_back() -> bool {
    let logs = InflightOf::<Leader>::logs(id(1, 2), id(1, 5)).with_id(7);
    let are_right = [
        logs.get_id() == Some(7) && logs.id() == 7,
        logs.is_sending_log() && !logs.is_sending_snapshot(),
        logs.is_my_id(RequestId::AppendEntries { id: 7 }),
        logs.assert_my_id(7) == Ok(()),
        logs.validate() == Ok(()),
        InflightOf::<Leader>::logs(id(1, 5), id(1, 5)).is_none(),
    ];
    !are_right.contains(&false)
}

/// Example progress 17. Logs from (1, 5) to (3, 10) and a snapshot in flight: each ack and each
/// conflict.
#[test]
fn responses_are_answered_case_by_case(rt: HostRuntime) -> Result<(), Fail> {
    assert_right(&rt, "responses", wrong_response());
    Ok(())
}
