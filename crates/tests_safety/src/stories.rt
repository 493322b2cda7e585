//! The story of three servers, over both kinds of leader ids.

ghost use Rattle.std.specs.Prelude.{◌≡◌, IsTrue};

use crate::story::{Known, Story, three_servers};
use raft_base::{EmptyNode, LeaderId, LeaderIdentity, LogIdOf, VoteIn, leader_id_std};
use raft_members::Membership;
use std::alloc::{AllocError, Global};
use std::test::Fail;
use steps_handlers::Outcome;

/// The members 1, 2 and 3.
fn members(alloc: Global) -> Result<Membership<u64, EmptyNode>, AllocError> {
    let nodes = (1..=3).map(|id| (id, EmptyNode::new())).collect(alloc)?;
    Membership::from_nodes(alloc, nodes)
}

/// What a server should know at the end: it has the vote of the leader that was elected last, whose
/// entry its log has at index 2.
fn follows<L, C: Copy>(leader_id: L, committed_id: C, has_committed: bool) -> Known<L, C> {
    let entry = LogIdOf {
        leader_id: committed_id,
        index: 2,
    };
    Known {
        vote: VoteIn {
            leader_id,
            committed: true,
        },
        last: Some(entry),
        committed: has_committed.then_some(entry),
    }
}

/// What the story should come to, if the last leader has these ids. The second server does not know
/// yet that the entry is committed. The log of the first one had another entry at index 1, and was
/// cut there. Then it matched the leader's up to index 0.
fn expected<L: Copy, C: Copy + Default>(leader_id: L, committed_id: C) -> Story<L, C> {
    Story {
        one: follows(leader_id, committed_id, true),
        two: follows(leader_id, committed_id, false),
        three: follows(leader_id, committed_id, true),
        cut: Outcome::Conflict {
            index: 1,
            last: Some(0),
        },
        found: Outcome::Matches(Some(LogIdOf {
            leader_id: C::default(),
            index: 0,
        })),
    }
}

/// Whether the servers 1, 2 and 3 go through the story, and the last leader has these ids.
fn comes_true<
    L: LeaderIdentity<Id = u64, Committed = C> + Drop,
    C: Ord + Copy + Default + Drop + 'static,
>(alloc: Global, leader_id: L, committed_id: C) -> bool
    requires exact { (x y : C) → IsTrue (C.eq x y) → x ≡ y }
    requires one_default { (a b : L) → L.Default.is_default a → L.Default.is_default b → a ≡ b }
    requires one_term { (a b : L) → L.committed a ≡ L.committed b → L.term_of a ≡ L.term_of b }
{
    match members(alloc) {
        Ok(members) => three_servers(alloc, &members) == Some(expected(leader_id, committed_id)),
        Err(_) => false,
    }
}

/// Leader ids of a term and a node, as they are by default.
#[test]
fn default_ids_tell_the_story(rt: HostRuntime) -> Result<(), Fail> {
    let leader = LeaderId::new(3, 3);
    assert!(rt; comes_true(rt.alloc(), leader, leader));
    Ok(())
}

/// Leader ids of standard Raft.
#[test]
fn standard_ids_tell_the_story(rt: HostRuntime) -> Result<(), Fail> {
    let leader = leader_id_std::LeaderId::new(3, 3);
    assert!(rt; comes_true(rt.alloc(), leader, leader.to_committed()));
    Ok(())
}
