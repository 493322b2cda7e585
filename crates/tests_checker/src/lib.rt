//! The tests of `trace_checker`. It ships nothing.
//!
//! `checked` has a caller, as an engine has the need of it. `refused` has events that the checker
//! refuses, each for its rule, and those that it takes. `when_applied` has them for configs that
//! count once they are applied. `growing` has a cluster whose memberships become known while it
//! grows. `merged` has lists of events, one of each server, that have an allowed order or none.
//! `recorded` reads the rows of all these. `memberships` has what the checker asks of memberships
//! and of terms, `allocations` the checker with its allocations refused, and `texts` debug texts.
#![tactic(auto)]

#[cfg(test)]
mod allocations;
pub mod checked;
#[cfg(test)]
mod growing;
#[cfg(test)]
mod memberships;
#[cfg(test)]
mod merged;
#[cfg(test)]
mod recorded;
#[cfg(test)]
mod refused;
#[cfg(test)]
mod texts;
#[cfg(test)]
mod when_applied;
