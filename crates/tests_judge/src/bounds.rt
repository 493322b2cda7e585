//! Answers to fields and names at their bounds.

use crate::answers::LED;
use crate::rows::Row;

/// A run whose first entry has the greatest index, and a second line of it.
const LAST_INDEX: &str = r#"{"event":"started","voters":[[1]],"first":18446744073709551615}
{"event":"campaigned","server":1,"term":1}
{"event":"wrote","leader":1,"term":1,"index":18446744073709551615,"content":7}
{"event":"wrote","leader":1,"term":1,"index":18446744073709551615,"content":7}"#;

/// A campaign in term 0 of a server whose name begins so.
const CAMPAIGN: &str = r#"{"event":"started","voters":[[1]]}
{"event":"campaigned","term":0,"server":""#;

/// Twenty letters of a name.
const LETTERS: &str = "aaaaaaaaaaaaaaaaaaaa";

/// Runs with fields and names at their bounds.
pub const ROWS: [Row; 6] = [
    // If the term of the last entry is there, it is a number.
    (
        &[
            LED,
            r#"{"event":"restarted","server":2,"index":2,"last_term":"1"}"#,
        ],
        2,
        "line 9: `last_term` of `restarted` is \"1\", and has to be a number below 2^64\n",
    ),
    (
        &[
            LED,
            r#"{"event":"restarted","server":2,"index":2,"last_term":1}"#,
        ],
        0,
        "safe: 8 events, 3 servers, 1 term with a leader, 0 committed, 0 membership changes\n",
    ),
    // No index follows the greatest one.
    (
        &[LAST_INDEX],
        1,
        "line 4: leader 1 writes index 18446744073709551615 in term 1: its last entry has index \
            18446744073709551615, so the leader has it already\n",
    ),
    // A name of 72 bytes is shown whole.
    (
        &[CAMPAIGN, LETTERS, LETTERS, LETTERS, "éaaaaaaaaaa\"}"],
        1,
        "line 2: server \"\
            aaaaaaaaaaaaaaaaaaaa\
            aaaaaaaaaaaaaaaaaaaa\
            aaaaaaaaaaaaaaaaaaaa\
            éaaaaaaaaaa\" campaigns in term 0: the server has reached or passed the term already\n",
    ),
    // Of a longer name at most 80 bytes are shown. The letter of two bytes is shown if both are among them.
    (
        &[
            CAMPAIGN,
            LETTERS,
            LETTERS,
            LETTERS,
            "aaaaaaaaaaaaaaaaaaéaaaaaaaaaa\"}",
        ],
        1,
        "line 2: server \"\
            aaaaaaaaaaaaaaaaaaaa\
            aaaaaaaaaaaaaaaaaaaa\
            aaaaaaaaaaaaaaaaaaaa\
            aaaaaaaaaaaaaaaaaaé\".. campaigns in term 0: the server has reached or passed the term \
            already\n",
    ),
    (
        &[
            CAMPAIGN,
            LETTERS,
            LETTERS,
            LETTERS,
            "aaaaaaaaaaaaaaaaaaaéaaaaaaaaaa\"}",
        ],
        1,
        "line 2: server \"\
            aaaaaaaaaaaaaaaaaaaa\
            aaaaaaaaaaaaaaaaaaaa\
            aaaaaaaaaaaaaaaaaaaa\
            aaaaaaaaaaaaaaaaaaa\".. campaigns in term 0: the server has reached or passed the term \
            already\n",
    ),
];
