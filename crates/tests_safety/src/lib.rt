//! The tests of `steps_safety`. It ships nothing.
//!
//! `laws` has callers of the theorem, over both kinds of leader ids. `story` has a program of three
//! servers that is a run, and `stories` runs it.
#![tactic(auto)]

pub mod laws;
#[cfg(test)]
mod stories;
pub mod story;
