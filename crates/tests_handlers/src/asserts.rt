//! An assertion in a function of its own. In a test it would be an exit path, on which all values of
//! the test are dropped, and each drop is proved.

use std::process::Abort;

/// Stops the test if something is wrong in a row, and prints the row and what is wrong.
pub fn assert_right(rt: &impl Abort, row: &str, wrong: Option<&str>) {
    let what = wrong.unwrap_or("");
    assert!(rt; wrong.is_none(), "at {row}: {what}");
}

/// Stops the test if something is wrong with a leader, and prints the row, what is wrong, and the
/// leader.
pub fn assert_leader(rt: &impl Abort, row: &str, wrong: Option<String>) {
    if let Some(what) = wrong {
        assert_right(rt, row, Some(what.as_str()));
    }
}
