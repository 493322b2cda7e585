//! Counts of what a progress has done.

/// Counts of what a progress has done. A count at the greatest u64 stays there.
#[derive(Debug, Clone, Default, PartialEq, Eq, Drop)]
pub struct Stat {
    /// Updates, including those of unknown ids.
    pub update_count: u64,
    /// Updates in which a voter's part changed and exceeded what was granted before, including
    /// those in which the voter kept its position.
    pub move_count: u64,
    /// Tests whether some voters are a quorum. A decision by their number counts as one test.
    pub is_quorum_count: u64,
}
