//! The tests of `raft_progress`, through its public calls alone, and in `support` what they share.
//! It ships nothing.
//!
//! A file has the tests of the module of `raft_progress` that has its name. Those that go over
//! several modules have the name of what they test: `at_least` quorums of a stated size, `events`
//! of any kind against a table, lives `compared` with the original, `allocations` for allocations
//! that are refused, `laws` by their callers, `follower_laws` by callers over a leader's followers,
//! ids whose order is `reversed`, `texts`, and `uses` of the theorem.
#![tactic(auto)]

#[cfg(test)]
mod allocations;
#[cfg(test)]
mod at_least;
#[cfg(test)]
mod compared;
#[cfg(test)]
mod entry;
#[cfg(test)]
mod events;
#[cfg(test)]
mod first_caller;
#[cfg(test)]
mod follower_laws;
#[cfg(test)]
mod followers;
#[cfg(test)]
mod inflight;
#[cfg(test)]
mod laws;
#[cfg(test)]
mod part;
#[cfg(test)]
mod replay_any_steps;
#[cfg(test)]
mod reversed;
#[cfg(test)]
mod search;
#[cfg(test)]
mod stat;
#[cfg(test)]
mod support;
#[cfg(test)]
mod texts;
#[cfg(test)]
mod tracked;
#[cfg(test)]
mod uses;
#[cfg(test)]
mod vec_progress;
