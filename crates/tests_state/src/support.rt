//! What the tests share: whole states by rows of words, the words of other rows, and values that
//! are dropped at little cost.

pub mod asserts;
pub mod memory;
pub mod rows;
pub mod states;
pub mod words;
