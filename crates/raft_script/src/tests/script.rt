//! Scripts, line by line.
ghost use Rattle.raft_script.specs.Script.{RunsScript};
ghost use Rattle.std.specs.Prelude.{◌≢◌, Some};

use crate::script::run;
use crate::tests::support::{REPLIES, SCRIPT, assert_answers, push_times};
use std::alloc::Global;
use std::io::Write;
use std::test::Fail;

/// Scripts and their replies: a row is a script, `=` and the replies, and semicolons stand for line
/// feeds. A row that begins with `#` says what those after it show.
const ANSWERED: &[u8] = b"\
=
;  ;=
init 0 0,1,2,3,4 6;update 6 9;update 1 2;update 2 3;update 3 1;update 4 5;update 0 4;\
    update 3 2;update 3 3;update 1 4;update 9 1;\
    =granted 0;granted 0;granted 0;granted 1;granted 2;granted 3;granted 3;granted 3;granted 4;\
    unknown 4;
init 0 1,2,3 -;update 1 4;update 2 6;update 2 5;update 7 1;\
    =granted 0;granted 4;would-fall;unknown 4;
init 0 0,1,2,3,4 -;update 0 5;update 1 3;update 2 4;update 2 10;update 3 6;\
    =granted 0;granted 0;granted 3;granted 3;granted 5;
init 0 0,1,2,3,4 -;update 1 2;update 2 3;update 1 3;update 4 8;update 0 5;\
    =granted 0;granted 0;granted 0;granted 3;granted 3;
# Repeated voters count once, and a voter is no learner.
init 0 1,1,2 3,3,2;update 1 5;update 2 3;=granted 0;granted 3;
# Spaces, leading zeros, the greatest number and a last line without a line feed.
  init   00  001,1 -  ;;   ;update 01   18446744073709551615;\
    update 18446744073709551615 00000000000000000000000000007\
    =granted 18446744073709551615;unknown 18446744073709551615;
# Voters come and go, and what each has stays with it.
init 0 1,2,3 -;update 1 5;update 2 5;change add-nodes 4 retain 0;change add-ids 4 retain 0;\
    update 4 6;change add-ids 4 retain 0;change replace 4 drop 0;change replace 4 drop 0;\
    update 1 9;init 0 none 1;update 1 3;change add-ids 1 retain 0;\
    =granted 0;granted 5;granted 5;granted 0;granted 5;granted 5;granted 5;granted 6;unknown 6;\
    granted 0;granted 3;
# An empty config has no quorum, and no change leads to one.
init 0 - 1;update 1 4;change add-nodes 2 retain 0;change add-ids 1 retain 0;\
    change replace - retain 0;\
    =granted 0;refused empty;refused empty;refused empty;
init 0 1,2,3/- -;update 1 5;update 2 5;update 3 5;=granted 0;granted 0;granted 0;";

/// Example script 1. Twelve lines from `init 0 1,2 3` on, and no input.
/// Example script 2. Voters come and go; an empty config beside another one and alone; repeated
/// ids; the examples of updates as scripts.
/// Example script 4. Leading zeros, spaces, the greatest number, and a last line without a line
/// feed.
#[test]
fn answers_scripts(rt: HostRuntime) -> Result<(), Fail> {
    for row in ANSWERED.split(|byte| *byte == b'\n') {
        if row.first() != Some(&b'#') {
            let mut sides = row.split(|byte| *byte == b'=');
            let script = sides.next().unwrap_or(b"");
            let replies = sides.next().unwrap_or(b"");
            assert_answers(&rt, rt.alloc(), script, replies, 0)?;
        }
    }
    Ok(())
}

/// Returns the replies to a script, and its status. Unless the status is 1, they are the replies of
/// a run of the whole script.
fn replies_to(alloc: Global, script: &[u8]) -> (Vec<u8>, u8)
    ensures { result.1 ≢ 1 → RunsScript (Some script.now) result.1 result.0.items }
{
    let mut out = Vec::new(alloc);
    let status = run(alloc, script, &mut out);
    (out, status)
}

/// Example script 1. The script ends at a bad line.
#[test]
fn ends_at_a_bad_line(rt: HostRuntime) -> Result<(), Fail> {
    let (replies, status) = replies_to(rt.alloc(), SCRIPT);
    assert_eq!(rt; status, 2);
    assert_eq!(rt; replies.as_slice(), REPLIES);
    Ok(())
}

/// Example script 6. 51 updates of a hundred voters.
#[test]
fn counts_a_hundred_voters(rt: HostRuntime) -> Result<(), Fail> {
    let mut script = b"init 0 0".as_slice().to_vec(rt.alloc())?;
    for id in 1..100 {
        write!(script, ",{id}")?;
    }
    push_times(&mut script, b" -;", 1)?;
    for id in 0..51u64 {
        write!(script, "update {id} {};", id + 1)?;
    }
    let mut replies = Vec::new(rt.alloc());
    push_times(&mut replies, b"granted 0;", 50)?;
    push_times(&mut replies, b"granted 1;", 1)?;
    assert_answers(&rt, rt.alloc(), script.as_slice(), replies.as_slice(), 0)
}
