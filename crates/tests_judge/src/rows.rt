//! Rows of runs, with the answers to them.

use crate::first_caller::judged;
use crate::{answers, applied, bounds, contradicted, fills, malformed, names};
use std::alloc::{AllocError, Global};
use std::test::Fail;

/// The parts of a run, then the exit status for it, and the answer to it.
pub type Row = (&'static [&'static str], u8, &'static str);

/// The tables of rows.
const TABLES: [&[Row]; 7] = [
    &answers::ROWS,
    &applied::ROWS,
    &bounds::ROWS,
    &contradicted::ROWS,
    &fills::ROWS,
    &malformed::ROWS,
    &names::ROWS,
];

/// Whether this is the status and the answer to a run of these parts.
fn is_answered(
    alloc: Global,
    parts: &[&str],
    status: u8,
    answer: &str,
) -> Result<bool, AllocError> {
    let mut text = String::new(alloc);
    for part in parts {
        text.push_str(part)?;
    }
    let (given, said) = judged(alloc, text.as_str())?;
    Ok(given == status && said.as_str() == answer)
}

/// Returns the answer of the first row whose run has another one.
fn first_wrong(alloc: Global, rows: &[Row]) -> Result<Option<&'static str>, AllocError> {
    for (parts, status, answer) in rows {
        if !is_answered(alloc, parts, *status, answer)? {
            return Ok(Some(*answer));
        }
    }
    Ok(None)
}

#[test]
fn answers_to_each_row(rt: HostRuntime) -> Result<(), Fail> {
    for rows in TABLES {
        let wrong = first_wrong(rt.alloc(), rows)?;
        assert!(rt; wrong.is_none(), "{}", wrong.unwrap_or(""));
    }
    Ok(())
}
