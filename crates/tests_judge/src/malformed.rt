//! Answers to lines that are no events.

use crate::answers::LED;
use crate::rows::Row;

/// A first line, but for its voters.
const STARTED: &str = r#"{"event":"started","voters":"#;

/// Runs with a line that is no event.
pub const ROWS: [Row; 17] = [
    // Lines that are no JSON.
    (
        &[LED, r#"{"event":"campaigned" "server":1}"#],
        2,
        "line 9: it is no JSON at column 23: this may not follow in JSON, or it is nested deeper \
            than 127\n",
    ),
    (
        &[LED, r#"{"event":"campaigned","server":1,"term":1e999}"#],
        2,
        "line 9: it is no JSON at column 46: the number is too large\n",
    ),
    (
        &["\u{feff}", STARTED, "[[1]]}"],
        2,
        "line 1: it begins with a byte order mark, which is no JSON\n",
    ),
    (
        &["\n", STARTED, "[[1]]}"],
        2,
        "line 1: it is empty, and the first line has to be `started`\n",
    ),
    // A value without a name of an event.
    (
        &[LED, r#"["campaigned"]"#],
        2,
        "line 9: it is no JSON object with a text `event`\n",
    ),
    // One field is missing or wrong.
    (
        &[LED, r#"{"event":"acked","server":2,"term":1,"leader":1}"#],
        2,
        "line 9: `acked` lacks `index`, which is a number from `first - 1` on, and below 2^64 - \
            1\n",
    ),
    (
        &[
            LED,
            r#"{"event":"appended","server":2,"term":1,"leader":1,"prev":1}"#,
        ],
        2,
        "line 9: `appended` lacks `entries`, which is a list of pairs, each of a term and a \
            content\n",
    ),
    (
        &[
            LED,
            r#"{"event":"appended","server":2,"term":1,"leader":1,"prev":1,"entries":null}"#,
        ],
        2,
        "line 9: `entries` of `appended` is null, and has to be a list of pairs, each of a term \
            and a content\n",
    ),
    (
        &[
            LED,
            r#"{"event":"appended","server":2,"term":1,"leader":1,"prev":1,"entries":[[1,7],[1]]}"#,
        ],
        2,
        "line 9: `entries` of `appended` is [[1,7],[1]], and has to be a list of pairs, each of a \
            term and a content\n",
    ),
    (
        &[
            LED,
            r#"{"event":"committed","leader":1,"term":1,"index":2,"counted_at":0}"#,
        ],
        2,
        "line 9: `counted_at` of `committed` is 0, and has to be a number from `first - 1` on, \
            and below 2^64 - 1\n",
    ),
    (
        &[
            LED,
            r#"{"event":"wrote","leader":1,"term":1,"content":8,"voters":[[1,2],[]]}"#,
        ],
        2,
        "line 9: `voters` of `wrote` is [[1,2],[]], and has to be a list of one config or two, \
            each a list of servers that is not empty\n",
    ),
    // No number of entries follows the greatest index.
    (
        &[
            LED,
            r#"{"event":"applied","server":1,"index":18446744073709551615}"#,
        ],
        2,
        "line 9: `index` of `applied` is 18446744073709551615, and has to be a number from `first \
            - 1` on, and below 2^64 - 1\n",
    ),
    // No cluster can start so.
    (
        &[STARTED, "[]}"],
        2,
        "line 1: `voters` of `started` is [], and has to be a list of one config or two, each a \
            list of servers that is not empty\n",
    ),
    (
        &[STARTED, "[[]]}"],
        2,
        "line 1: `voters` of `started` is [[]], and has to be a list of one config or two, each a \
            list of servers that is not empty\n",
    ),
    (
        &[STARTED, "[[1],[2],[3]]}"],
        2,
        "line 1: `voters` of `started` is [[1],[2],[3]], and has to be a list of one config or \
            two, each a list of servers that is not empty\n",
    ),
    (
        &[STARTED, "[[1]],\"first\":-1}"],
        2,
        "line 1: `first` of `started` is -1, and has to be a number below 2^64\n",
    ),
    // A long value is cut.
    (
        &[
            STARTED,
            "[[1,1,1,1,1,1,1,1,1,1,1,1,1,1,1,1,1,1,1,1,1,1,1,1,1,1,1,1,1,1,1,1,1,1,1,1,1,1,1,1],2]}",
        ],
        2,
        "line 1: `voters` of `started` is \
            [[1,1,1,1,1,1,1,1,1,1,1,1,1,1,1,1,1,1,1,1,1,1,1,1,1,1,1,1,1,1,1,1,1,1,1,1,1,1,1,.., \
            and has to be a list of one config or two, each a list of servers that is not empty\n",
    ),
];
