//! Answers to runs of which the judge fills in events, and whose members change.

use crate::answers::LED;
use crate::first_caller::judged;
use crate::rows::Row;
use std::alloc::{AllocError, Global};
use std::test::Fail;

/// Runs that begin with the lines of `LED`.
pub const ROWS: [Row; 17] = [
    // A line of the leader is lost, or is there twice.
    (
        &[
            LED,
            r#"{"event":"wrote","leader":1,"term":1,"index":4,"content":8}"#,
        ],
        1,
        "line 9: leader 1 writes index 4 in term 1: its last entry has index 2, so a line is missing\n",
    ),
    (
        &[
            LED,
            r#"{"event":"wrote","leader":1,"term":1,"index":2,"content":7}"#,
        ],
        1,
        "line 9: leader 1 writes index 2 in term 1: its last entry has index 2, so the leader has it \
            already\n",
    ),
    // The leader counts by all that it has written, or by what the line says.
    (
        &[
            LED,
            r#"{"event":"acked","server":2,"term":1,"leader":1,"index":2}
{"event":"wrote","leader":1,"term":1,"index":3,"content":8}
{"event":"committed","leader":1,"term":1,"index":2,"counted_at":4}"#,
        ],
        1,
        "line 11: leader 1 commits index 2 in term 1: the leader has not written so many entries\n",
    ),
    (
        &[
            LED,
            r#"{"event":"acked","server":2,"term":1,"leader":1,"index":2}
{"event":"wrote","leader":1,"term":1,"index":3,"content":8}
{"event":"committed","leader":1,"term":1,"index":2,"counted_at":3}"#,
        ],
        0,
        "safe: 10 events, 3 servers, 1 term with a leader, 1 committed, 0 membership changes\n",
    ),
    // The members change from 1, 2, 3 to 1, 2, 3, 4, of which three servers are a majority.
    (
        &[
            LED,
            r#"{"event":"acked","server":2,"term":1,"leader":1,"index":2}
{"event":"committed","leader":1,"term":1,"index":2}
{"event":"wrote","leader":1,"term":1,"index":3,"content":8,"voters":[[1,2,3,4]]}
{"event":"appended","server":1,"term":1,"leader":1,"prev":2,"entries":[[1,8]]}
{"event":"acked","server":1,"term":1,"leader":1,"index":3}
{"event":"appended","server":2,"term":1,"leader":1,"index":3}
{"event":"acked","server":2,"term":1,"leader":1,"index":3}
{"event":"committed","leader":1,"term":1,"index":3}"#,
        ],
        1,
        "line 16: leader 1 commits index 3 in term 1: no quorum has acknowledged the entries\n  \
            no quorum so far has acknowledged index 3 to 1 in term 1, only 1, 2\n",
    ),
    (
        &[
            LED,
            r#"{"event":"acked","server":2,"term":1,"leader":1,"index":2}
{"event":"committed","leader":1,"term":1,"index":2}
{"event":"wrote","leader":1,"term":1,"index":3,"content":8,"voters":[[1,2,3,4]]}
{"event":"appended","server":1,"term":1,"leader":1,"prev":2,"entries":[[1,8]]}
{"event":"acked","server":1,"term":1,"leader":1,"index":3}
{"event":"appended","server":2,"term":1,"leader":1,"index":3}
{"event":"acked","server":2,"term":1,"leader":1,"index":3}
{"event":"appended","server":4,"term":1,"leader":1,"index":3}
{"event":"acked","server":4,"term":1,"leader":1,"index":3}
{"event":"committed","leader":1,"term":1,"index":3}
{"event":"wrote","leader":1,"term":1,"index":4,"content":8,"voters":[[1,2,3,4]]}"#,
        ],
        0,
        "safe: 18 events, 4 servers, 1 term with a leader, 2 committed, 1 membership change\n",
    ),
    // A content has one list of voters, from its first entry on.
    (
        &[
            LED,
            r#"{"event":"acked","server":2,"term":1,"leader":1,"index":2}
{"event":"committed","leader":1,"term":1,"index":2}
{"event":"wrote","leader":1,"term":1,"index":3,"content":8,"voters":[[1,2,3,4]]}
{"event":"wrote","leader":1,"term":1,"index":4,"content":8,"voters":[[1,2,4]]}"#,
        ],
        2,
        "line 12: an earlier line has the `content` with other `voters` or none\n",
    ),
    (
        &[
            LED,
            r#"{"event":"wrote","leader":1,"term":1,"index":3,"content":7,"voters":[[1,2,3,4]]}"#,
        ],
        2,
        "line 9: an earlier line has the `content` with other `voters` or none\n",
    ),
    // Voters that have no server in common.
    (
        &[
            LED,
            r#"{"event":"acked","server":2,"term":1,"leader":1,"index":2}
{"event":"committed","leader":1,"term":1,"index":2}
{"event":"wrote","leader":1,"term":1,"index":3,"content":8,"voters":[[4,5,6]]}"#,
        ],
        1,
        "line 11: leader 1 writes an entry in term 1: quorums of the new config and the config in effect \
            are not known to intersect\n",
    ),
    // Server 3 has taken an entry, and crashed before it recorded this.
    (
        &[
            LED,
            r#"{"event":"restarted","server":3,"index":2,"last_term":1}"#,
        ],
        1,
        "line 9: server 3 restarts with index 2: the server does not have so many entries\n",
    ),
    (
        &[
            LED,
            r#"{"event":"wrote","leader":1,"term":1,"index":3,"content":8}
{"event":"restarted","server":2,"index":3,"last_term":1}"#,
        ],
        0,
        "safe: 9 events, 3 servers, 1 term with a leader, 0 committed, 0 membership changes, 1 append \
            inferred\n",
    ),
    (
        &[
            LED,
            r#"{"event":"restarted","server":2,"index":2,"last_term":2}"#,
        ],
        1,
        "line 9: server 2 restarts with index 2: the server's log is a prefix of neither its earlier log \
            nor the leader's log\n",
    ),
    // The answer names the line that the refused one contradicts: a vote, a campaign, or an entry.
    (
        &[
            LED,
            r#"{"event":"campaigned","server":2,"term":2}
{"event":"granted","server":1,"term":2,"candidate":2}
{"event":"granted","server":1,"term":2,"candidate":3}"#,
        ],
        1,
        "line 11: server 1 votes in term 2 for 3: the server has reached or passed the term already\n  \
            line 10: server 1 votes in term 2 for 2\n",
    ),
    (
        &[
            LED,
            r#"{"event":"granted","server":3,"term":1,"candidate":1}"#,
        ],
        1,
        "line 9: server 3 votes in term 1 for 1: the server has reached or passed the term already\n  \
            line 8: server 3 campaigns in term 2\n",
    ),
    (
        &[
            LED,
            r#"{"event":"campaigned","server":"b","term":3}
{"event":"campaigned","server":"b","term":2}"#,
        ],
        1,
        "line 10: server \"b\" campaigns in term 2: the server has reached or passed the term already\n  \
            line 9: server \"b\" campaigns in term 3\n",
    ),
    (
        &[
            LED,
            r#"{"event":"appended","server":4,"term":1,"leader":1,"prev":1,"entries":[[1,8]]}"#,
        ],
        1,
        "line 9: server 4 takes entries after index 1 from 1 in term 1: the server's log is a \
            prefix of neither its earlier log nor the leader's log\n  line 4: leader 1 writes \
            index 2 in term 1\n  at index 2 the server has the content 8 of term 1, and the \
            leader 7 of term 1\n",
    ),
    (
        &[
            LED,
            r#"{"event":"appended","server":4,"term":1,"leader":1,"prev":1,"entries":[]}
{"event":"acked","server":4,"term":1,"leader":1,"index":2}"#,
        ],
        1,
        "line 10: server 4 acknowledges index 2 to 1 in term 1: the server has not kept the leader's \
            entries since the term\n  line 4: leader 1 writes index 2 in term 1\n",
    ),
];

/// Returns the status of a run in which so many campaigns fail after those of `LED`, and then a
/// server restarts with an entry of the leader of term 1.
fn restarted_after(alloc: Global, campaigns: u64) -> Result<u8, AllocError> {
    let mut text = String::from_str(alloc, LED)?;
    for number in 0..campaigns {
        let term = number.saturating_add(3);
        writeln!(
            text,
            "{{\"event\":\"campaigned\",\"server\":3,\"term\":{term}}}"
        )?;
    }
    text.push_str(r#"{"event":"restarted","server":4,"index":2,"last_term":1}"#)?;
    let (status, _said) = judged(alloc, text.as_str())?;
    Ok(status)
}

#[test]
fn failed_campaigns_hide_no_leader(rt: HostRuntime) -> Result<(), Fail> {
    for campaigns in [0, 63, 64, 200] {
        let status = restarted_after(rt.alloc(), campaigns)?;
        assert!(rt; status == 0, "{campaigns} campaigns");
    }
    Ok(())
}
