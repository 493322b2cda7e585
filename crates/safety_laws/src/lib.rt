//! The safety of Raft, as theorems: if every server keeps the rules of `specs`, the cluster is
//! safe.
//!
//! The functions of `laws` do nothing: the contract of each is a theorem. `rule` and `counting` have
//! words of the theorems about recorded traces that code reads too.
#![tactic(auto)]

pub mod counting;
pub mod laws;
pub mod rule;
