//! Assertions in functions of their own. In a test each of them would be an exit path, on which all
//! values of the test are dropped, and each drop is proved.

use std::process::Abort;

/// Stops the test if a row is wrong, and prints the row.
pub fn assert_row(rt: &impl Abort, row: &str, is_right: bool) {
    assert!(rt; is_right, "at {row}");
}

/// Stops the test if something is wrong in a row, and prints the row and what is wrong.
pub fn assert_right(rt: &impl Abort, row: &str, wrong: Option<&str>) {
    let what = wrong.unwrap_or("");
    assert!(rt; wrong.is_none(), "at {row}: {what}");
}
