//! Answers to recorded runs.

use crate::rows::Row;
use std::alloc::{AllocError, Global};
use std::test::Fail;
use trace_judge::run::run;
use trace_judge::{Lines, Progress};

/// The cluster of the rows: server 1 leads in term 1 by the vote of server 2, and writes an entry,
/// which is the second of the engine. Server 2 takes it. Server 3, which has no entry, campaigns in
/// term 2.
pub const LED: &str = r#"{"event":"started","voters":[[1,2,3]],"first":2}
{"event":"campaigned","server":1,"term":1}
{"event":"granted","server":2,"term":1,"candidate":1}
{"event":"wrote","leader":1,"term":1,"index":2,"content":7}
{"event":"appended","server":1,"term":1,"leader":1,"prev":1,"entries":[[1,7]]}
{"event":"acked","server":1,"term":1,"leader":1,"index":2}
{"event":"appended","server":2,"term":1,"leader":1,"prev":1,"entries":[[1,7]]}
{"event":"campaigned","server":3,"term":2}
"#;

/// Runs that begin with the lines of `LED`.
pub const ROWS: [Row; 19] = [
    (
        &[LED],
        0,
        "safe: 7 events, 3 servers, 1 term with a leader, 0 committed, 0 membership changes\n",
    ),
    (
        &[
            LED,
            r#"{"event":"granted","server":2,"term":1,"candidate":1}"#,
        ],
        0,
        "safe: 7 events, 3 servers, 1 term with a leader, 0 committed, 0 membership changes, 1 vote left out\n",
    ),
    (
        &[
            LED,
            r#"{"event":"granted","server":2,"term":1,"candidate":3}"#,
        ],
        1,
        "line 9: server 2 votes in term 1 for 3: the candidate has not campaigned in the term\n  \
            line 8: server 3 campaigns in term 2\n  line 3: server 2 votes in term 1 for 1\n",
    ),
    (
        &[
            LED,
            r#"{"event":"granted","server":2,"term":2,"candidate":3}"#,
        ],
        1,
        "line 9: server 2 votes in term 2 for 3: the candidate's log is not as up to date as the \
            server's\n  line 8: server 3 campaigns in term 2\n  line 4: leader 1 writes index 2 in term 1\n",
    ),
    (
        &[
            LED,
            r#"{"event":"committed","leader":1,"term":1,"index":2}"#,
        ],
        1,
        "line 9: leader 1 commits index 2 in term 1: no quorum has acknowledged the entries\n  no \
            quorum so far has acknowledged index 2 to 1 in term 1, only 1\n",
    ),
    (
        &[
            LED,
            r#"{"event":"acked","server":2,"term":1,"leader":1,"index":2}
{"event":"committed","leader":1,"term":1,"index":2}

{"event":"applied","server":2,"index":2}"#,
        ],
        0,
        "safe: 10 events, 3 servers, 1 term with a leader, 1 committed, 0 membership changes\n",
    ),
    (
        &[LED, r#"{"event":"restarted","server":1,"index":1}"#],
        1,
        "line 9: server 1 restarts with index 1: the server has lost durable entries\n  line 6: server 1 \
            acknowledges index 2 to 1 in term 1\n",
    ),
    (
        &[LED, r#"{"event":"restarted","server":1,"index":0}"#],
        2,
        "line 9: `index` of `restarted` is 0, and has to be a number from `first - 1` on, and \
            below 2^64 - 1\n",
    ),
    (
        &[LED, r#"{"event":"applied","server":1,"index":2}"#],
        1,
        "line 9: server 1 applies up to index 2: the entries are not known to be committed\n  no \
            line so far says that 1 committed index 2\n",
    ),
    // Server 2 has the entry and has applied it, so it has acknowledged it before it crashed, and
    // the leader has committed it. If the server has not crashed, its lines say what it has
    // acknowledged.
    (
        &[
            LED,
            r#"{"event":"restarted","server":2,"index":2}
{"event":"applied","server":2,"index":2}
{"event":"applied","server":1,"index":2}"#,
        ],
        0,
        "safe: 10 events, 3 servers, 1 term with a leader, 1 committed, 0 membership changes, 1 commit \
            inferred, 1 acknowledgement inferred\n",
    ),
    (
        &[LED, r#"{"event":"applied","server":2,"index":2}"#],
        1,
        "line 9: server 2 applies up to index 2: the entries are not known to be committed\n  no \
            line so far says that 1 committed index 2\n",
    ),
    (
        &[
            LED,
            r#"{"event":"acked","server":[2],"term":1,"leader":1,"index":2}"#,
        ],
        2,
        "line 9: `server` of `acked` is [2], and has to be a text, or a number below 2^64\n",
    ),
    (
        &[
            LED,
            r#"{"event":"wrote","leader":1,"term":1,"index":3,"content":8,"voters":[[1,2]]}"#,
        ],
        1,
        "line 9: leader 1 writes an entry in term 1: the leader has not committed an own entry and the \
            config in effect\n",
    ),
    (
        &[
            LED,
            r#"{"event":"appended","server":3,"term":2,"leader":3,"index":1}"#,
        ],
        1,
        "line 9: server 3 installs a snapshot up to index 1 of 3 in term 2: the leader is not \
            elected in the term\n  no quorum so far has voted for 3 in term 2, only 3\n",
    ),
    (
        &[
            LED,
            r#"{"event":"appended","server":2,"term":1,"leader":1,"index":2}
{"event":"acked","server":2,"term":1,"leader":1,"index":2}
{"event":"committed","leader":1,"term":1,"index":2}"#,
        ],
        0,
        "safe: 10 events, 3 servers, 1 term with a leader, 1 committed, 0 membership changes\n",
    ),
    (
        &[
            LED,
            r#"{"event":"appended","server":2,"term":1,"leader":1,"index":3}"#,
        ],
        1,
        "line 9: server 2 installs a snapshot up to index 3 of 1 in term 1: the leader has not \
            written so many entries\n  no line so far says that 1 wrote index 3 in term 1\n",
    ),
    (
        &[LED, r#"{"event":"elected"}"#],
        2,
        "line 9: there is no event \"elected\"\n",
    ),
    (
        &[LED, "{"],
        2,
        "line 9: it is no JSON at column 1: the line ends too early\n",
    ),
    (
        &[LED, r#"{"event":"started","voters":[[1,2,3]]}"#],
        2,
        "line 9: only the first line says how the cluster starts, and this one says another start\n",
    ),
];

/// The names of lists, in their order.
const NAMES: [&str; 5] = ["a", "b", "c", "d", "e"];

/// Lists of lines, which `--` separates, and the status and the answer. Server 1 leads in term 1 by
/// the vote of server 2.
const LISTS: [(&str, u8, &str); 12] = [
    // Each server has its own list.
    (
        r#"{"event":"started","voters":[[1,2,3]],"first":2}
{"event":"campaigned","server":1,"term":1}
{"event":"wrote","leader":1,"term":1,"index":2,"content":7}
{"event":"appended","server":1,"term":1,"leader":1,"prev":1,"entries":[[1,7]]}
{"event":"acked","server":1,"term":1,"leader":1,"index":2}
{"event":"committed","leader":1,"term":1,"index":2}
{"event":"applied","server":1,"index":2}
--
{"event":"started","voters":[[1,2,3]],"first":2}
{"event":"granted","server":2,"term":1,"candidate":1}
{"event":"appended","server":2,"term":1,"leader":1,"prev":1,"entries":[[1,7]]}
{"event":"acked","server":2,"term":1,"leader":1,"index":2}
--
{"event":"started","voters":[[1,2,3]],"first":2}
{"event":"campaigned","server":3,"term":2}
"#,
        0,
        "safe: 10 events, 3 servers, 1 term with a leader, 1 committed, 0 membership changes\n",
    ),
    // The second list waits for a leader of which no line says anything, and the third one for the
    // second.
    (
        r#"{"event":"started","voters":[[1,2,3]]}
{"event":"campaigned","server":1,"term":1}
{"event":"wrote","leader":1,"term":1,"content":7}
{"event":"committed","leader":1,"term":1,"index":1}
--
{"event":"granted","server":2,"term":1,"candidate":1}
{"event":"acked","server":2,"term":4,"leader":3,"index":1}
{"event":"acked","server":2,"term":1,"leader":1,"index":1}
--
{"event":"campaigned","server":3,"term":2}
"#,
        1,
        "b:2: server 2 acknowledges index 1 to 3 in term 4: the leader is not elected in the \
            term\n  no line so far says that 3 campaigned in term 4\na:4: leader 1 commits index \
            1 in term 1: no quorum has acknowledged the entries\n  no quorum so far has \
            acknowledged index 1 to 1 in term 1\n",
    ),
    // No line of a list comes before an earlier one.
    (
        r#"{"event":"started","voters":[[1]]}
--
{"event":"granted","server":2,"term":1,"candidate":1}
{"event":"campaigned","server":1,"term":1}
"#,
        1,
        "b:1: server 2 votes in term 1 for 1: the candidate has not campaigned in the term\n  no \
            line so far says that 1 campaigned in term 1\n",
    ),
    // The last line of a list is judged.
    (
        r#"{"event":"started","voters":[[1]]}
--
{"event":"campaigned","server":1,"term":1}
{"event":"applied","server":1,"index":1}"#,
        1,
        "b:2: server 1 applies up to index 1: the entries are not known to be committed\n  no \
            line so far says that a leader committed index 1\n",
    ),
    // A line that is no event ends the run, whatever other lists have.
    (
        r#"{"event":"started","voters":[[1]]}
{"event":"applied","server":1,"index":1}
--
{"event":"campaigned","server":1,"term":1}
{"event":"elected"}
"#,
        2,
        "b:2: there is no event \"elected\"\n",
    ),
    // A process that restarts says the start again.
    (
        r#"{"event":"started","voters":[[1,2],[3]]}
{"event":"started","voters":[[1,2],[3]],"first":1,"pid":7}
--
{"event":"campaigned","server":1,"term":1}
{"first":1,"voters":[[1,2],[3]],"event":"started"}
"#,
        0,
        "safe: 1 event, 3 servers, 0 terms with a leader, 0 committed, 0 membership changes\n",
    ),
    (
        r#"{"event":"started","voters":[[1,2],[3]]}
--
{"event":"started","voters":[[1,2],[3]],"first":2}
"#,
        2,
        "b:1: only the first line says how the cluster starts, and this one says another start\n",
    ),
    (
        r#"{"event":"started","voters":[[1,2],[3]]}
{"event":"started","voters":[[1,2,3]]}
"#,
        2,
        "a:2: only the first line says how the cluster starts, and this one says another start\n",
    ),
    // The first line is one of the first list.
    (
        r#"{"event":"campaigned","server":1,"term":1}
--
{"event":"started","voters":[[1]]}
"#,
        2,
        "a:1: the first line has to be `started`\n",
    ),
    // Server 3 has not acknowledged what it applies, and its lines do not wait for another one.
    (
        r#"{"event":"started","voters":[[1,2,3]]}
{"event":"granted","server":1,"term":1,"candidate":2}
--
{"event":"campaigned","server":2,"term":1}
{"event":"wrote","leader":2,"term":1,"content":7}
{"event":"wrote","leader":2,"term":1,"content":8}
{"event":"appended","server":2,"term":1,"leader":2,"prev":0,"entries":[[1,7],[1,8]]}
{"event":"acked","server":2,"term":1,"leader":2,"index":2}
{"event":"committed","leader":2,"term":1,"index":2}
--
{"event":"appended","server":3,"term":1,"leader":2,"prev":0,"entries":[[1,7],[1,8]]}
{"event":"acked","server":3,"term":1,"leader":2,"index":1}
{"event":"applied","server":3,"index":2}
"#,
        1,
        "b:6: leader 2 commits index 2 in term 1: no quorum has acknowledged the entries\n  no \
            quorum so far has acknowledged index 2 to 2 in term 1, only 2\nc:3: server 3 applies \
            up to index 2: the entries are not known to be committed\n  no line so far says that \
            2 committed index 2\n",
    ),
    // The second vote of server 3 comes first, which nothing helps, and then the line of which no
    // list that waits has the missing event.
    (
        r#"{"event":"started","voters":[[1,2,3]]}
{"event":"granted","server":1,"term":1,"candidate":3}
{"event":"campaigned","server":1,"term":4}
--
{"event":"granted","server":2,"term":5,"candidate":1}
--
{"event":"campaigned","server":3,"term":1}
{"event":"granted","server":3,"term":1,"candidate":2}
--
{"event":"granted","server":4,"term":5,"candidate":3}
--
{"event":"granted","server":5,"term":7,"candidate":6}
"#,
        1,
        "c:2: server 3 votes in term 1 for 2: the candidate has not campaigned in the term\n  \
            c:1: server 3 campaigns in term 1\nb:1: server 2 votes in term 5 for 1: the candidate \
            has not campaigned in the term\n  no line so far says that 1 campaigned in term 5\n\
            e:1: server 5 votes in term 7 for 6: the candidate has not campaigned in the term\n  \
            no line so far says that 6 campaigned in term 7\nd:1: server 4 votes in term 5 for 3: \
            the candidate has not campaigned in the term\n  no line so far says that 3 campaigned \
            in term 5\n",
    ),
    // Lists may be empty.
    (
        r#"{"event":"started","voters":[[1]]}
--
--
"#,
        0,
        "safe: 0 events, 1 server, 0 terms with a leader, 0 committed, 0 membership changes\n",
    ),
];

/// Whether this is the status and the answer to lists of lines.
fn are_answered(alloc: Global, row: &str, status: u8, answer: &str) -> Result<bool, AllocError> {
    let mut said = String::new(alloc);
    let mut lists = Vec::new(alloc);
    for (i, text) in row.split("--\n").enumerate() {
        let name = String::from_str(alloc, NAMES.get(i).copied().unwrap_or("more"))?;
        lists.push(Lines::new(alloc, text.as_bytes(), Some(name)))?;
    }
    Ok(
        run(alloc, &mut lists, Progress::silent(), false, &mut said) == status
            && said.as_str() == answer,
    )
}

#[test]
fn answers_to_lists(rt: HostRuntime) -> Result<(), Fail> {
    for (row, status, answer) in &LISTS {
        assert!(rt; are_answered(rt.alloc(), row, *status, answer)?, "{row}");
    }
    Ok(())
}

/// The lines of the processes of a run in which servers 2 and 4 crash after an entry is on their
/// disks and before the line of it, and restart.
const RESTARTED: [&str; 3] = [
    r#"{"event":"restarted","server":2,"index":1,"last_term":1}
{"event":"campaigned","server":2,"term":2}
"#,
    r#"{"event":"campaigned","server":3,"term":1}
{"event":"wrote","leader":3,"term":1,"content":7}
{"event":"granted","server":3,"term":2,"candidate":2}
"#,
    r#"{"event":"granted","server":4,"term":1,"candidate":3}
{"event":"restarted","server":4,"index":1,"last_term":1}
{"event":"acked","server":4,"term":1,"leader":3,"index":1}
"#,
];

/// The orders of these lists.
const ORDERS: [[usize; 3]; 6] = [
    [0, 1, 2],
    [0, 2, 1],
    [1, 0, 2],
    [1, 2, 0],
    [2, 0, 1],
    [2, 1, 0],
];

/// Returns the status of the run in this order of its lists.
fn restarted_in(alloc: Global, order: &[usize]) -> Result<u8, AllocError> {
    let mut said = String::new(alloc);
    let mut lists = Vec::new(alloc);
    let start = r#"{"event":"started","voters":[[2,3,4]]}"#;
    lists.push(Lines::new(alloc, start.as_bytes(), None))?;
    for place in order {
        let lines = RESTARTED.get(*place).copied().unwrap_or("");
        lists.push(Lines::new(alloc, lines.as_bytes(), None))?;
    }
    Ok(run(alloc, &mut lists, Progress::silent(), false, &mut said))
}

#[test]
fn restarts_are_safe_in_each_order(rt: HostRuntime) -> Result<(), Fail> {
    for order in &ORDERS {
        let status = restarted_in(rt.alloc(), order)?;
        assert!(rt; status == 0, "{}{}{}", order[0], order[1], order[2]);
    }
    Ok(())
}
