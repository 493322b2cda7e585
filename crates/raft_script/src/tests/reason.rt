//! Why a line cannot be run.

use crate::script::run_explained;
use crate::tests::support::{push_times, text_of};
use std::alloc::Global;
use std::test::Fail;

/// Scripts and the reasons why they end: a row is a script, `=` and the reason, and semicolons
/// stand for line feeds.
const ENDED: &[u8] = b"\
init 0 1 -;update 1 5;=
;;init 0 1 -;Update 1 5;x=line 4: `Update` is no command
init 0 1=line 1: a word is missing at the end
init -1 1 -=line 1: `-1` is no number
init 0 1,,2 -=line 1: `1,,2` is no list of configs
init 0 none none=line 1: `none` is no list
init 0 1/-/2 - -=line 1: `-` is one word too many
init 0 1 -;increase one 5=line 2: `one` is no number
init 0 1 -;change add-voters 4 retain 0=line 2: `add-voters` is no kind of change
init 0 1 -;change add 4 keep 0=line 2: `keep` is neither `retain` nor `drop`
update 1 5=line 1: no `init` has succeeded before this step
init 0 1 -;update\t1 5=line 2: `update\\t1` is no command
init 0 1 -;update 1 \xff`=line 2: `\\xff`` is no number";

/// Whether the reason for the end of a script is this one.
fn has_reason(alloc: Global, script: &[u8], due: &[u8]) -> Result<bool, Fail> {
    let script = text_of(alloc, script)?;
    let mut reason = String::new(alloc);
    let status = run_explained(alloc, script.as_slice(), &mut Vec::new(alloc), &mut reason);
    let said = reason.as_bytes();
    if due.is_empty() {
        return Ok(status == 0 && said.is_empty());
    }
    Ok(status == 2 && said.strip_suffix(b"\n".as_slice()) == Some(due))
}

#[test]
fn says_why_a_line_cannot_be_run(rt: HostRuntime) -> Result<(), Fail> {
    for row in ENDED.split(|byte| *byte == b'\n') {
        let mut sides = row.split(|byte| *byte == b'=');
        let script = sides.next().unwrap_or(b"");
        let due = sides.next().unwrap_or(b"");
        assert!(rt; has_reason(rt.alloc(), script, due)?, "{:?}", row);
    }
    Ok(())
}

/// Forty bytes of a word are shown.
#[test]
fn cuts_a_long_word(rt: HostRuntime) -> Result<(), Fail> {
    for (len, dots) in [(40, b"".as_slice()), (41, b".."), (100_000, b"..")] {
        let mut script = Vec::new(rt.alloc());
        push_times(&mut script, b"x", len)?;
        let mut due = b"line 1: `".as_slice().to_vec(rt.alloc())?;
        push_times(&mut due, b"x", 40)?;
        due.extend_from_slice(dots)?;
        due.extend_from_slice(b"` is no command")?;
        assert!(rt;
            has_reason(rt.alloc(), script.as_slice(), due.as_slice())?,
            "{len}"
        );
    }
    Ok(())
}
