//! A judge of recorded runs. It reads what the servers of any Raft did, one event a line, and says
//! whether each event was allowed by what came before.
//!
//! A caller hands lists of lines to `run::run`, one of each process, as `Lines` over any reader.
//! `run` looks for an order of all lines that keeps the order of each list, and writes its answer
//! as a text. If it returns 0, this is a theorem: the lines are a run that is safe.
#![tactic(auto)]

mod chart;
mod counted;
mod counts;
mod event;
mod facts;
mod fault;
mod field;
mod fill;
mod followed;
mod input;
mod judge;
mod missing;
mod names;
mod progress;
mod reason;
pub mod run;
mod start;
mod text;
mod waiting;
mod why;

pub use input::Lines;
pub use progress::Progress;
