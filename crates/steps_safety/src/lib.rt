//! The steps of servers keep Raft's rules.
//!
//! `laws` has the theorem: every run of servers that change their states only by the handlers is
//! safe. `step` has calls of the handlers, whose contracts say that each is a step of a run, and
//! `first` has the servers of the first world.
#![tactic(auto)]

pub mod first;
pub mod laws;
pub mod step;
