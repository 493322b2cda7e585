//! The tests of `raft_members`, through its public calls alone, and in `support` what they share.
//! It ships nothing.
//!
//! A file has the tests of the module of `raft_members` that has its name. Those that go over all
//! modules have the name of what they test: `compared` with the original, `allocations` for
//! allocations that are refused, `laws` by their callers, and `texts` of memberships.
#![tactic(auto)]

#[cfg(test)]
mod allocations;
#[cfg(test)]
mod at_least;
#[cfg(test)]
mod change;
#[cfg(test)]
mod coherent;
#[cfg(test)]
mod compared;
#[cfg(test)]
mod effective;
#[cfg(test)]
mod error;
#[cfg(test)]
mod first_caller;
#[cfg(test)]
mod joint;
#[cfg(test)]
mod laws;
#[cfg(test)]
mod membership;
#[cfg(test)]
mod quorum_set;
#[cfg(test)]
mod support;
#[cfg(test)]
mod texts;
