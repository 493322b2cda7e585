//! Quorums: the sets of ids that may decide for all voters.

mod at_least;
mod coherent;
mod coherent_impl;
mod joint;
mod joint_impl;
pub mod laws;
mod quorum_set;
mod quorum_set_impl;

pub use at_least::AtLeast;
pub use coherent::{Coherent, FindCoherent};
pub use joint::{AsJoint, Joint};
pub(crate) use joint_impl::{ids_of_each, least_of_each};
pub use quorum_set::QuorumSet;
