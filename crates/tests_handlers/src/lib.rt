//! Tests of `steps_handlers`: requests, and what servers answer. What a clause says exactly has no
//! row here, so each call is made once, and the tests are over standard Raft's leader ids alone.
#![tactic(auto)]

#[cfg(test)]
mod allocations;
#[cfg(test)]
mod asserts;
#[cfg(test)]
mod candidate;
#[cfg(test)]
mod catch_up;
#[cfg(test)]
mod follower;
#[cfg(test)]
mod heard_vote;
#[cfg(test)]
mod leader;
#[cfg(test)]
mod states;
#[cfg(test)]
mod texts;
#[cfg(test)]
mod uses;
