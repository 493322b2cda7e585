//! The tests of `raft_base`, through its public calls alone. It ships nothing.
//!
//! A file has the tests of the module of `raft_base` that has its name, and `order` has those of
//! all comparisons. Those that go over all modules have the name of what they test: `texts`,
//! `compared` with the original, and `allocations` for allocations that are refused.
//!
//! A function makes the values and says which of them is wrong, and the test asserts that once,
//! because an assertion beside values that a test owns is expensive to prove.
#![tactic(auto)]

#[cfg(test)]
mod allocations;
#[cfg(test)]
mod asserts;
#[cfg(test)]
mod compared;
#[cfg(test)]
mod first_caller;
#[cfg(test)]
mod instant;
#[cfg(test)]
mod leader_id_std;
#[cfg(test)]
mod log_id_range;
#[cfg(test)]
mod log_index_option_ext;
#[cfg(test)]
mod node;
#[cfg(test)]
mod order;
#[cfg(test)]
mod raft_log_id;
#[cfg(test)]
mod texts;
#[cfg(test)]
mod utime;
#[cfg(test)]
mod vote;
