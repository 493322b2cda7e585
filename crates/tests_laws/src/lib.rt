//! The tests of `safety_laws`. It ships nothing.
//!
//! `laws` has callers of its theorems, each as an engine has the need of one, over both kinds of
//! leader ids. `follower` and `leader` have steps as code, whose contracts say that they keep the
//! rules.
#![tactic(auto)]

pub mod follower;
pub mod laws;
pub mod leader;
