//! Tests of parsing a line.

use crate::tests::support::{assert_answers, push_times};
use std::test::Fail;

/// Lines of no known form.
const BAD_LINES: &[u8] = b"\
x
init 0 1
init 0 1 - -
init 0 1,,2 -
init 0 1, -
init 0 ,1 -
init 0 -- -
init 0 1/none -
upd
update 1
update 1 2 3
update 1 +5
update 1 0x5
update 1 18446744073709551616
update\t1 5
update 1 5\r
update 1 \xff
\0
change add-ids 4 keep 0
change add-ids 4/5 retain 0
change add-voters 4 retain 0";

/// Example script 3. Odd numbers, lists, words and bytes; lines that are incomplete or have a
/// word too many.
#[test]
fn names_bad_lines(rt: HostRuntime) -> Result<(), Fail> {
    for line in BAD_LINES.split(|byte| *byte == b'\n') {
        for ending in [b"".as_slice(), b";", b";update 1 9;"] {
            let mut script = b"init 0 1 -;update 1 2;;".as_slice().to_vec(rt.alloc())?;
            script.extend_from_slice(line)?;
            script.extend_from_slice(ending)?;
            let replies = b"granted 2;bad line 4;";
            assert_answers(&rt, rt.alloc(), script.as_slice(), replies, 2)?;
        }
    }
    Ok(())
}

#[test]
fn takes_long_lines(rt: HostRuntime) -> Result<(), Fail> {
    let mut script = b"init 0 1".as_slice().to_vec(rt.alloc())?;
    push_times(&mut script, b",2", 50_000)?;
    push_times(&mut script, b" -;update 1 5;update", 1)?;
    push_times(&mut script, b" ", 200_000)?;
    push_times(&mut script, b"2 4;", 1)?;
    push_times(&mut script, b"9", 200_000)?;
    let replies = b"granted 0;granted 4;bad line 4;";
    assert_answers(&rt, rt.alloc(), script.as_slice(), replies, 2)
}
