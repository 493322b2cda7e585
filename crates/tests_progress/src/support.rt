//! What tests share: assertions, calls of an entry with a table of their answers, memberships,
//! steps of a progress, values, and what the words of rows mean.

pub mod asserts;
pub mod entry_calls;
pub mod entry_rows;
pub mod members;
pub mod progress_rows;
pub mod steps;
pub mod table;
pub mod values;
