//! A checker of recorded traces of any Raft: whether each event was allowed by what came before.
//!
//! `event` and `entry` have what an engine records. `check` checks a whole trace, `merge` lists of
//! events without an order between them, and `checker` one event after the other. `memberships` are
//! the configs of the layer, and `term` its terms. If all events are allowed, this is a theorem: the
//! trace is an execution in which every server keeps the rules of `safety_laws`, so it is safe.
#![tactic(auto)]

pub mod check;
pub mod checker;
pub mod entry;
pub mod event;
pub mod held;
pub mod memberships;
pub mod merge;
pub mod term;
