//! The lines that refused lines contradict.

use crate::answers::LED;
use crate::rows::Row;

/// A server takes an entry of the leader of term 2, and keeps one of the leader of term 1 before it.
const KEPT: &str = r#"{"event":"started","voters":[[1,2,3]]}
{"event":"campaigned","server":1,"term":1}
{"event":"granted","server":2,"term":1,"candidate":1}
{"event":"wrote","leader":1,"term":1,"index":1,"content":7}
{"event":"appended","server":1,"term":1,"leader":1,"prev":0,"entries":[[1,7]]}
{"event":"campaigned","server":3,"term":2}
{"event":"granted","server":2,"term":2,"candidate":3}
{"event":"wrote","leader":3,"term":2,"index":1,"content":8}
{"event":"wrote","leader":3,"term":2,"index":2,"content":9}
{"event":"appended","server":1,"term":2,"leader":3,"prev":1,"entries":[[2,9]]}"#;

/// Runs whose answers name a line before the refused one.
pub const ROWS: [Row; 9] = [
    // A later acknowledgement of fewer entries does not make the earlier one void.
    (
        &[
            LED,
            r#"{"event":"acked","server":1,"term":1,"leader":1,"index":1}
{"event":"restarted","server":1,"index":1}"#,
        ],
        1,
        "line 10: server 1 restarts with index 1: the server has lost durable entries\n  line 6: server 1 \
            acknowledges index 2 to 1 in term 1\n",
    ),
    // The server has reached a later term by its own campaign.
    (
        &[
            LED,
            r#"{"event":"appended","server":3,"term":1,"leader":1,"index":2}"#,
        ],
        1,
        "line 9: server 3 installs a snapshot up to index 2 of 1 in term 1: the server has reached or \
            passed the term already\n  line 8: server 3 campaigns in term 2\n",
    ),
    // The leader of term 3 has not written an entry of its own.
    (
        &[
            LED,
            r#"{"event":"campaigned","server":2,"term":3}
{"event":"granted","server":1,"term":3,"candidate":2}
{"event":"committed","leader":2,"term":3,"index":2}"#,
        ],
        1,
        "line 11: leader 2 commits index 2 in term 3: the last committed entry is of an earlier \
            term\n  line 4: leader 1 writes index 2 in term 1\n",
    ),
    // A server drops the leader's entry, by entries or by a snapshot.
    (
        &[
            LED,
            r#"{"event":"appended","server":2,"term":1,"leader":1,"prev":1,"entries":[]}"#,
        ],
        1,
        "line 9: server 2 takes entries after index 1 from 1 in term 1: the server drops entries that \
            match the leader's log\n  line 4: leader 1 writes index 2 in term 1\n",
    ),
    (
        &[
            LED,
            r#"{"event":"appended","server":2,"term":1,"leader":1,"index":1}"#,
        ],
        1,
        "line 9: server 2 installs a snapshot up to index 1 of 1 in term 1: the server drops entries \
            that match the leader's log\n  line 4: leader 1 writes index 2 in term 1\n",
    ),
    // The candidate has no entry, which server 4 has not either.
    (
        &[
            LED,
            r#"{"event":"granted","server":4,"term":2,"candidate":3}
{"event":"granted","server":1,"term":2,"candidate":3}"#,
        ],
        1,
        "line 10: server 1 votes in term 2 for 3: the candidate's log is not as up to date as the \
            server's\n  line 8: server 3 campaigns in term 2\n  line 4: leader 1 writes index 2 in term 1\n",
    ),
    // A server says its vote for itself twice.
    (
        &[
            LED,
            r#"{"event":"granted","server":3,"term":2,"candidate":3}"#,
        ],
        1,
        "line 9: server 3 votes in term 2 for 3: the server has reached or passed the term \
            already\n  leave this line out: `campaigned` is the vote of a server for itself\n",
    ),
    // The leader may still write the second entry.
    (
        &[
            LED,
            r#"{"event":"appended","server":2,"term":1,"leader":1,"prev":1,"entries":[[1,7],[1,8]]}"#,
        ],
        1,
        "line 9: server 2 takes entries after index 1 from 1 in term 1: the server's log is a \
            prefix of neither its earlier log nor the leader's log\n  no line so far says that 1 \
            wrote index 3 in term 1\n",
    ),
    // The answer names the entry that is in place of the one that the server keeps.
    (
        &[KEPT],
        1,
        "line 10: server 1 takes entries after index 1 from 3 in term 2: the server's log is a \
            prefix of neither its earlier log nor the leader's log\n  line 8: leader 3 writes \
            index 1 in term 2\n  at index 1 the server has the content 7 of term 1, and the \
            leader 8 of term 2\n",
    ),
];
