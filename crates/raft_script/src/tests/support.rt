//! A script with its replies, and runs of scripts that are compared with given replies.

use crate::script::run;
use std::alloc::{AllocError, Global};
use std::process::Abort;
use std::test::Fail;

/// Twelve lines, of which the last is a bad one.
pub const SCRIPT: &[u8] = b"\
init 0 1,2 3
update 1 5
update 2 3
change add-ids 3 retain 0
update 3 4
change add-ids 4 retain 0
update 9 1
update 3 2
change remove 1,2,3 drop 0
change replace 2,3 retain 4
increase 2 7
update 1";

/// The replies to the script.
pub const REPLIES: &[u8] = b"\
granted 0
granted 3
granted 3
granted 3
refused no-node 4
unknown 3
would-fall
refused empty
below-default 2
granted 5
bad line 12
";

/// Returns the text of a row, with line feeds.
pub fn text_of(alloc: Global, row: &[u8]) -> Result<Vec<u8>, Fail> {
    let mut text = Vec::new(alloc);
    for byte in row {
        text.push(if *byte == b';' { b'\n' } else { *byte })?;
    }
    Ok(text)
}

/// Runs a script, and compares what it writes and its status.
pub fn assert_answers<R: Abort>(
    rt: &R,
    alloc: Global,
    script: &[u8],
    replies: &[u8],
    status: u8,
) -> Result<(), Fail> {
    let script = text_of(alloc, script)?;
    let replies = text_of(alloc, replies)?;
    let mut out = Vec::new(alloc);
    let ended = run(alloc, script.as_slice(), &mut out);
    assert_eq!(rt;
        out.as_slice(),
        replies.as_slice(),
        "of {:?}",
        script.as_slice()
    );
    assert_eq!(rt; ended, status, "of {:?}", script.as_slice());
    Ok(())
}

/// Appends a piece several times.
pub fn push_times(text: &mut Vec<u8>, piece: &[u8], times: u64) -> Result<(), AllocError> {
    for _ in 0..times {
        text.extend_from_slice(piece)?;
    }
    Ok(())
}
