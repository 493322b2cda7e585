//! Steps of a membership and its progress.

use raft_base::{Node, NodeId};
use raft_members::change_members::ChangeMembers;

/// A step of a membership and its progress.
#[derive(Drop)]
pub enum Step<NID: NodeId, N: Node, V> {
    /// Writes the value of an id.
    Update(NID, V),
    /// Writes the value of an id if it is greater than the present one.
    IncreaseTo(NID, V),
    /// Changes the membership, and switches to the voters and learners of the changed one. Removed
    /// voters become learners with `retain`, and lose their values without it. Ids that stay keep
    /// their values, and all others have the default.
    Change {
        /// The change of the membership.
        change: ChangeMembers<NID, N>,
        /// Whether removed voters stay as learners.
        retain: bool,
        /// The value of ids that are new.
        default: V,
    },
}
