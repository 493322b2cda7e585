//! The tests of `raft_state`, through its public calls alone, and in `support` what they share. It
//! ships nothing.
//!
//! A file has the tests of the module of `raft_state` that has its name; those of the module
//! `raft_state` are in `whole_state`. Those that go over several modules have the name of what they
//! test: `compared` and `compared_states` with the original, `allocations` for allocations that are
//! refused, `laws` by their callers, short `lives` of one state, a kind of leaders by their
//! `region`, and `texts`.
#![tactic(auto)]

#[cfg(test)]
mod accepted;
#[cfg(test)]
mod allocations;
#[cfg(test)]
mod catch_up;
#[cfg(test)]
mod compared;
#[cfg(test)]
mod compared_states;
#[cfg(test)]
mod entry;
#[cfg(test)]
mod first_caller;
#[cfg(test)]
mod io_state;
#[cfg(test)]
mod laws;
#[cfg(test)]
mod lives;
#[cfg(test)]
mod log_id_list;
#[cfg(test)]
mod membership_state;
#[cfg(test)]
mod region;
#[cfg(test)]
mod support;
#[cfg(test)]
mod texts;
#[cfg(test)]
mod whole_state;
