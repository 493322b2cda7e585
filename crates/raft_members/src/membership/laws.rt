//! Laws of memberships. A caller that needs one in a proof calls its function, which does nothing.
ghost use Rattle.raft_members.specs.quorum.Reached.{ChangeKeepsReached};

use raft_base::{Node, NodeId};

/// If the voters of a membership with a config have reached a value (a quorum has, or all have),
/// each quorum of the membership contains a voter that has reached it, and so does each quorum of
/// what one change makes of the membership.
///
/// So a change of the voters does not lose an entry that is granted.
pub fn change_keeps_reached<NID: NodeId, N: Node>()
    ensures { ChangeKeepsReached NID N NID.eq NID.cmp }
{}
