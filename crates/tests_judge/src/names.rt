//! Answers to runs whose servers and contents are texts or numbers.

use crate::rows::Row;

/// Runs whose servers and contents are texts or numbers.
pub const ROWS: [Row; 9] = [
    // Servers and contents are texts.
    (
        &[
            r#"{"event":"started","voters":[["a","b",3]]}
{"event":"campaigned","server":"a","term":1}
{"event":"granted","server":"b","term":1,"candidate":"a"}
{"event":"wrote","leader":"a","term":1,"content":"x"}
{"event":"appended","server":3,"term":1,"leader":"a","prev":0,"entries":[[1,"x"]]}"#,
        ],
        0,
        "safe: 4 events, 3 servers, 1 term with a leader, 0 committed, 0 membership changes\n",
    ),
    // An escaped text is the plain one.
    (
        &[
            r#"{"event":"started","voters":[["a","b",3]]}
{"event":"campaigned","server":"\u0061","term":1}
{"event":"granted","server":"b","term":1,"candidate":"a"}
{"event":"wrote","leader":"a","term":1,"content":"\u0078"}
{"event":"appended","server":"\u0062","term":1,"leader":"a","prev":0,"entries":[[1,"x"]]}
{"event":"acked","server":"b","term":1,"leader":"\u0061","index":1}"#,
        ],
        0,
        "safe: 5 events, 3 servers, 1 term with a leader, 0 committed, 0 membership changes\n",
    ),
    // The answer has names as the line has them.
    (
        &[
            r#"{"event":"started","voters":[["a","b",3]]}
{"event":"campaigned","server":"a","term":1}
{"event":"granted","server":"b","term":1,"candidate":3}"#,
        ],
        1,
        "line 3: server \"b\" votes in term 1 for 3: the candidate has not campaigned in the \
            term\n  no line so far says that 3 campaigned in term 1\n",
    ),
    // Different texts are different contents.
    (
        &[
            r#"{"event":"started","voters":[["a","b",3]]}
{"event":"campaigned","server":"a","term":1}
{"event":"granted","server":"b","term":1,"candidate":"a"}
{"event":"wrote","leader":"a","term":1,"content":"x"}
{"event":"appended","server":3,"term":1,"leader":"a","prev":0,"entries":[[1,"y"]]}"#,
        ],
        1,
        "line 5: server 3 takes entries after index 0 from \"a\" in term 1: the server's log is a \
            prefix of neither its earlier log nor the leader's log\n  line 4: leader \"a\" writes \
            index 1 in term 1\n  at index 1 the server has the content \"y\" of term 1, and the \
            leader \"x\" of term 1\n",
    ),
    // The server "1" has the vote of the server 1, and its own.
    (
        &[
            r#"{"event":"started","voters":[[1,"1",2]]}
{"event":"campaigned","server":"1","term":1}
{"event":"granted","server":1,"term":1,"candidate":"1"}
{"event":"wrote","leader":"1","term":1,"content":7}"#,
        ],
        0,
        "safe: 3 events, 3 servers, 1 term with a leader, 0 committed, 0 membership changes\n",
    ),
    // The contents 7 and "7" are different.
    (
        &[
            r#"{"event":"started","voters":[[1]]}
{"event":"campaigned","server":1,"term":1}
{"event":"wrote","leader":1,"term":1,"content":7}
{"event":"appended","server":1,"term":1,"leader":1,"prev":0,"entries":[[1,"7"]]}"#,
        ],
        1,
        "line 4: server 1 takes entries after index 0 from 1 in term 1: the server's log is a \
            prefix of neither its earlier log nor the leader's log\n  line 3: leader 1 writes \
            index 1 in term 1\n  at index 1 the server has the content \"7\" of term 1, and the \
            leader 7 of term 1\n",
    ),
    // The greatest numbers are names too, and the first text gets no number of theirs.
    (
        &[
            r#"{"event":"started","voters":[["a",9223372036854775808,18446744073709551615]]}
{"event":"campaigned","server":18446744073709551615,"term":1}
{"event":"granted","server":9223372036854775808,"term":1,"candidate":18446744073709551615}
{"event":"granted","server":"a","term":1,"candidate":18446744073709551615}
{"event":"wrote","leader":18446744073709551615,"term":1,"content":18446744073709551615}"#,
        ],
        0,
        "safe: 4 events, 3 servers, 1 term with a leader, 0 committed, 0 membership changes\n",
    ),
    // A name is not below 0, has no fraction, and is not 2^64.
    (
        &[
            r#"{"event":"started","voters":[["a",3]]}
{"event":"campaigned","server":-3,"term":1}"#,
        ],
        2,
        "line 2: `server` of `campaigned` is -3, and has to be a text, or a number below 2^64\n",
    ),
    (
        &[r#"{"event":"started","voters":[["a",18446744073709551616]]}"#],
        2,
        "line 1: `voters` of `started` is [[\"a\",1.8446744073709552e+19]], and has to be a list \
            of one config or two, each a list of servers that is not empty\n",
    ),
];
