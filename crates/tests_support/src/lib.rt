//! What the crates of tests share: a node of a caller's own type, calls whose allocations are
//! refused, facts with names, values that are made in ample memory, a log as plain data, the texts
//! that values print, and rows of words. It has no test of its own, and ships nothing.
//!
//! A new test is most often a new row. Two forms serve it:
//!
//! - A table of calls is a text with a row of [words] in each line. A test goes over its lines, and
//!   prints the row that fails.
//! - Several [facts] about one value are a list of names and results. The test asserts that the
//!   first wrong one is `None`, and so prints the name of the fact that fails.
#![tactic(auto)]

pub mod address;
pub mod allocations;
pub mod facts;
pub mod memory;
pub mod plain_log;
pub mod printing;
pub mod words;
