//! What tests share: assertions, examples as rows of words, memberships, and quorums.

pub mod asserts;
pub mod lines;
pub mod memberships;
pub mod quorums;
