//! Answers to runs of which the first line says when configs count.

use crate::rows::Row;

/// The first line of a cluster whose configs count once they are applied.
const APPLIED: &str = r#"{"event":"started","voters":[[1,2,3]],"configs":"applied"}
"#;

/// The first line of a cluster whose configs count from their append on.
const APPENDED: &str = r#"{"event":"started","voters":[[1,2,3]],"configs":"appended"}
"#;

/// Server 1 leads in term 1, and writes the config of servers 1 to 4. Servers 1 and 2 have it.
const WRITTEN: &str = r#"{"event":"campaigned","server":1,"term":1}
{"event":"granted","server":2,"term":1,"candidate":1}
{"event":"wrote","leader":1,"term":1,"content":102,"voters":[[1,2,3,4]]}
{"event":"appended","server":1,"term":1,"leader":1,"index":1}
{"event":"acked","server":1,"term":1,"leader":1,"index":1}
{"event":"appended","server":2,"term":1,"leader":1,"index":1}
{"event":"acked","server":2,"term":1,"leader":1,"index":1}
"#;

/// Server 1 writes the config of servers 1 to 5. Servers 1, 2 and 4 have it.
const SECOND: &str = r#"{"event":"wrote","leader":1,"term":1,"content":103,"voters":[[1,2,3,4,5]]}
{"event":"appended","server":1,"term":1,"leader":1,"index":2}
{"event":"acked","server":1,"term":1,"leader":1,"index":2}
{"event":"appended","server":2,"term":1,"leader":1,"index":2}
{"event":"acked","server":2,"term":1,"leader":1,"index":2}
{"event":"appended","server":4,"term":1,"leader":1,"index":2}
{"event":"acked","server":4,"term":1,"leader":1,"index":2}
"#;

/// Server 1 writes a command. Servers 1, 4 and 5 have it.
const COMMAND: &str = r#"{"event":"wrote","leader":1,"term":1,"content":7}
{"event":"appended","server":1,"term":1,"leader":1,"index":3}
{"event":"acked","server":1,"term":1,"leader":1,"index":3}
{"event":"appended","server":4,"term":1,"leader":1,"index":3}
{"event":"acked","server":4,"term":1,"leader":1,"index":3}
{"event":"appended","server":5,"term":1,"leader":1,"index":3}
{"event":"acked","server":5,"term":1,"leader":1,"index":3}
"#;

/// A commit of the first entry.
const COMMITTED_1: &str = r#"{"event":"committed","leader":1,"term":1,"index":1}
"#;

/// A commit of the first two entries.
const COMMITTED_2: &str = r#"{"event":"committed","leader":1,"term":1,"index":2}
"#;

/// A commit of the first three entries.
const COMMITTED_3: &str = r#"{"event":"committed","leader":1,"term":1,"index":3}
"#;

/// Runs whose first line says when configs count.
pub const ROWS: [Row; 10] = [
    // A leader commits a config by the one before.
    (
        &[APPLIED, WRITTEN, COMMITTED_1],
        0,
        "safe: 8 events, 4 servers, 1 term with a leader, 1 committed, 1 membership change\n",
    ),
    // The next config is committed by the first one, which is known then, and a command by the next
    // one.
    (
        &[
            APPLIED,
            WRITTEN,
            COMMITTED_1,
            SECOND,
            COMMITTED_2,
            COMMAND,
            COMMITTED_3,
        ],
        0,
        "safe: 24 events, 5 servers, 1 term with a leader, 3 committed, 2 membership changes\n",
    ),
    // No line says that the leader commits the config.
    (
        &[
            APPLIED,
            WRITTEN,
            r#"{"event":"applied","server":2,"index":1}"#,
        ],
        0,
        "safe: 8 events, 4 servers, 1 term with a leader, 1 committed, 1 membership change, 1 commit \
            inferred\n",
    ),
    // Two configs follow the initial one, of which neither is known.
    (
        &[APPLIED, WRITTEN, SECOND, COMMITTED_2],
        1,
        "line 16: leader 1 commits index 2 in term 1: the config of the quorum is not known to be \
            committed\n  no line so far says that a leader committed index 1\n",
    ),
    (
        &[
            APPLIED,
            WRITTEN,
            SECOND,
            r#"{"event":"committed","leader":1,"term":1,"index":2,"counted_at":0}"#,
        ],
        1,
        "line 16: leader 1 commits index 2 in term 1: more than one config follows the config of the \
            quorum\n",
    ),
    // Servers 1 and 2 are no majority of servers 1 to 4.
    (
        &[
            APPLIED,
            WRITTEN,
            COMMITTED_1,
            r#"{"event":"wrote","leader":1,"term":1,"content":7}
{"event":"appended","server":1,"term":1,"leader":1,"index":2}
{"event":"acked","server":1,"term":1,"leader":1,"index":2}
{"event":"committed","leader":1,"term":1,"index":2,"counted_at":1}"#,
        ],
        1,
        "line 13: leader 1 commits index 2 in term 1: no quorum has acknowledged the entries\n  \
            no quorum so far has acknowledged index 2 to 1 in term 1, only 1\n",
    ),
    // If configs count from their append on, a leader first commits an entry of its own term.
    (
        &[APPENDED, WRITTEN, COMMITTED_1],
        1,
        "line 4: leader 1 writes an entry in term 1: the leader has not committed an own entry and the \
            config in effect\n",
    ),
    // All lines that say the start agree on when configs count.
    (
        &[APPENDED, "{\"event\":\"started\",\"voters\":[[1,2,3]]}\n"],
        0,
        "safe: 0 events, 3 servers, 0 terms with a leader, 0 committed, 0 membership changes\n",
    ),
    (
        &[APPLIED, "{\"event\":\"started\",\"voters\":[[1,2,3]]}\n"],
        2,
        "line 2: only the first line says how the cluster starts, and this one says another start\n",
    ),
    (
        &[r#"{"event":"started","voters":[[1,2,3]],"configs":1}"#],
        2,
        "line 1: `configs` of `started` is 1, and has to be `appended` or `applied`\n",
    ),
];
