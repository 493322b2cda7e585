//! The learners of a membership.
ghost use Rattle.std.specs.Iterator.{YieldsFirst, item_count};
ghost use Rattle.raft_members.specs.membership.Learners.{learners_ahead};

use super::configs::has_id;
use raft_base::{Node, NodeId};
use std::collections::BTreeSet;
use std::collections::btree_map::Keys;

/// The ids of a membership's learners, each once, ascending: the nodes that are in no config.
#[derive(Drop)]
pub struct LearnerIds<'a, NID: NodeId, N: Node> {
    pub(crate) nodes: Keys<'a, NID, N>,
    pub(crate) configs: &'a [BTreeSet<NID>],
}

impl<'a, NID: NodeId, N: Node> Iterator for LearnerIds<'a, NID, N> {
    type Item = NID;

    ghost next_gives = { YieldsFirst (learners_ahead NID.eq) };

    ghost remaining = { item_count (learners_ahead NID.eq) };

    fn next(&mut self) -> Option<NID> {
        while let Some(id) = self.nodes.next() {
            if !has_id(self.configs, id) {
                return Some(*id);
            }
        }
        None
    }
}
