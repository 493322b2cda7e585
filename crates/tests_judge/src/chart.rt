//! Charts of runs.

use std::alloc::{AllocError, Global};
use std::test::Fail;
use trace_judge::run::run;
use trace_judge::{Lines, Progress};

/// Runs, and the rows of their charts.
const CHARTS: [(&str, &str); 2] = [
    // A restart loses an entry, a follower installs a snapshot, and the old leader truncates its
    // log.
    (
        r#"{"event":"started","voters":[["n1","n2","10.0.0.3:2380"]]}
{"event":"campaigned","server":"n1","term":1}
{"event":"granted","server":"n2","term":1,"candidate":"n1"}
{"event":"wrote","leader":"n1","term":1,"content":7}
{"event":"wrote","leader":"n1","term":1,"content":9}
{"event":"appended","server":"n1","term":1,"leader":"n1","prev":0,"entries":[[1,7],[1,9]]}
{"event":"appended","server":"10.0.0.3:2380","term":1,"leader":"n1","prev":0,"entries":[[1,7],[1,9]]}
{"event":"restarted","server":"10.0.0.3:2380","index":1}
{"event":"appended","server":"n2","term":1,"leader":"n1","prev":0,"entries":[[1,7]]}
{"event":"campaigned","server":"n2","term":2}
{"event":"granted","server":"10.0.0.3:2380","term":2,"candidate":"n2"}
{"event":"wrote","leader":"n2","term":2,"content":8}
{"event":"appended","server":"n2","term":2,"leader":"n2","prev":1,"entries":[[2,8]]}
{"event":"acked","server":"n2","term":2,"leader":"n2","index":2}
{"event":"appended","server":"10.0.0.3:2380","term":2,"leader":"n2","index":2}
{"event":"acked","server":"10.0.0.3:2380","term":2,"leader":"n2","index":2}
{"event":"committed","leader":"n2","term":2,"index":2}
{"event":"appended","server":"n1","term":2,"leader":"n2","prev":1,"entries":[[2,8]]}
{"event":"applied","server":"10.0.0.3:2380","index":2}
{"event":"wrote","leader":"n2","term":2,"content":10,"voters":[["n1","n2"]]}
{"event":"acked","server":"n1","term":2,"leader":"n2","index":3}
"#,
        "
number  n1          n2          10.0.0.3..  what happens
     4  L1          F1          F0          n1 leads in term 1
     8  L1  |aa     F1          F1  |a      10.0.0.3.. restarts with 1 of 2
    12  L1  |aa     L2  |a      F2  |a      n2 leads in term 2
    15  L1  |aa     L2  |ab     F2  |ab     10.0.0.3.. installs a snapshot
    17  L1  |aa     L2  ab|     F2  |ab     n2 commits index 2
    18  F2  |ab     L2  ab|     F2  |ab     n1 truncates 1 of 2
    20  F2  |ab     L2  ab|     F2  ab|     n2 changes to n1,n2
    21  F2  |ab     L2  ab|     F2  ab|     the run is refused here
",
    ),
    // The eighth server has no column.
    (
        r#"{"event":"started","voters":[[1,2,3,4,5,6,7,8]]}
{"event":"campaigned","server":8,"term":1}
{"event":"granted","server":1,"term":1,"candidate":8}
{"event":"granted","server":2,"term":1,"candidate":8}
{"event":"granted","server":3,"term":1,"candidate":8}
{"event":"granted","server":4,"term":1,"candidate":8}
{"event":"wrote","leader":8,"term":1,"content":7}
"#,
        "There are more than seven servers, and the first seven are drawn.

number  1           2           3           4           5           6           7           what happens
     7  F1          F1          F1          F1          F0          F0          F0          8 leads in term 1
",
    ),
];

/// Whether the chart of a run has these rows.
fn has_rows(alloc: Global, text: &str, rows: &str) -> Result<bool, AllocError> {
    let mut said = String::new(alloc);
    let mut lists = Vec::new(alloc);
    lists.push(Lines::new(alloc, text.as_bytes(), None))?;
    run(alloc, &mut lists, Progress::silent(), true, &mut said);
    Ok(said.as_str().contains(rows))
}

#[test]
fn draws_each_run(rt: HostRuntime) -> Result<(), Fail> {
    for (text, rows) in &CHARTS {
        assert!(rt; has_rows(rt.alloc(), text, rows)?, "{text}");
    }
    Ok(())
}
