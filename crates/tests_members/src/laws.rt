//! Callers of the laws of quorums and of changes, each as an engine has the need.
ghost use Rattle.raft_members.specs.quorum.AtLeast.{ids_of, need_of};
ghost use Rattle.raft_members.specs.quorum.Meeting.{HaveSameQuorums, ShareCommonVoter, ShareMember, ShareVoter};
ghost use Rattle.raft_members.specs.quorum.Reached.{EachQuorumKnows};
ghost use Rattle.raft_members.specs.membership.Stored.{membership_of};
ghost use Rattle.std.specs.List.{IsDistinct};
ghost use Rattle.std.specs.Prelude.{◌+◌, ◌<◌, ◌≡◌, IfOk, IfSome, IsTrue, false, length, true};
ghost use Rattle.std.specs.Set.{ClonesAreEqual, distinct_count, is_member};

use crate::support::asserts::assert_row;
use raft_base::{Node, NodeId};
use raft_members::membership::laws::change_keeps_reached;
use raft_members::quorum::laws::{
    at_least_quorums_meet, coherent_quorums_meet, empty_config_has_no_quorum,
    equal_configs_have_same_quorums, majority_has_voter, need_past_ids_has_no_quorum,
    no_configs_take_every_set, quorums_meet,
};
use raft_members::quorum::{AtLeast, Joint, QuorumSet};
use raft_members::{ChangeMembers, ChangeMembershipError, Membership, StoredMembershipOf};
use std::alloc::{AllocError, Global};
use tests_support::words::{ids, members};

/// Whether ids are a majority of a config. Then one of them is in it: no one but voters decides.
fn has_decided<ID: Copy + Ord>(config: &Vec<ID>, ids: &[ID]) -> bool
    ensures { IsDistinct ID.eq ids.now → IsTrue result →
        (id : ID) × (is_member ID.eq config.now.items id ≡ true)
        × (is_member ID.eq ids.now id ≡ true) }
{
    majority_has_voter::<ID>();
    config.is_quorum(ids)
}

/// Whether two candidates have both been elected. Then some voter has voted for both.
fn are_both_elected<NID: NodeId, N: Node>(
    members: &Membership<NID, N>,
    first: &[NID],
    second: &[NID],
) -> Result<bool, AllocError>
    ensures { IsDistinct NID.eq first.now → IsDistinct NID.eq second.now →
        0 < length members.now.configs →
        IfOk result (λ both. IsTrue both → ShareVoter NID.eq members.now.configs
        (is_member NID.eq first.now) (is_member NID.eq second.now)) }
{
    let quorums = members.to_quorum_set()?;
    if !quorums.is_quorum(first) {
        return Ok(false);
    }
    quorums_meet::<NID>();
    let has_second = quorums.is_quorum(second);
    Ok(has_second)
}

/// Changes the members where a quorum of them, and one of the new ones, has voted. Then some voter
/// of both memberships is in both quorums.
fn change_elected<NID: NodeId, N: Node>(
    from: &Membership<NID, N>,
    change: ChangeMembers<NID, N>,
    before: &[NID],
    after: &[NID],
) -> Result<Option<Membership<NID, N>>, ChangeMembershipError<NID>>
    requires clones_are_equal { ClonesAreEqual N.eq N.is_clone }
    ensures { IsDistinct NID.eq before.now → IsDistinct NID.eq after.now →
        0 < length from.now.configs →
        IfOk result (λ made. IfSome made (λ to. ShareCommonVoter NID.eq from.now.configs
        to.configs (is_member NID.eq before.now) (is_member NID.eq after.now))) }
{
    let quorums = from.to_quorum_set()?;
    if !quorums.is_quorum(before) {
        return Ok(None);
    }
    let to = from.change(change, true)?;
    let later = to.to_quorum_set()?;
    coherent_quorums_meet::<NID>();
    let is_later_quorum = later.is_quorum(after);
    if !is_later_quorum {
        return Ok(None);
    }
    Ok(Some(to))
}

/// Whether one quorum has committed and another one, of another size, has elected. Then some id is
/// in both.
fn has_committed_and_elected<ID: Copy + Ord>(
    commits: &AtLeast<ID>,
    elects: &AtLeast<ID>,
    holders: &[ID],
    voters: &[ID],
) -> bool
    ensures { ids_of elects.now ≡ ids_of commits.now →
        distinct_count ID.eq (ids_of commits.now) < need_of commits.now + need_of elects.now →
        IsDistinct ID.eq holders.now → IsDistinct ID.eq voters.now → IsTrue result →
        ShareMember ID.eq (ids_of commits.now)
        (is_member ID.eq holders.now) (is_member ID.eq voters.now) }
{
    if !commits.is_quorum(holders) {
        return false;
    }
    at_least_quorums_meet::<ID>();
    let is_elected = elects.is_quorum(voters);
    is_elected
}

/// Whether ids are a quorum: never, where more are needed than there are.
fn is_enough<ID: Copy + Ord>(quorums: &AtLeast<ID>, ids: &[ID]) -> bool
    ensures { distinct_count ID.eq (ids_of quorums.now) < need_of quorums.now →
        IsDistinct ID.eq ids.now → result ≡ false }
{
    need_past_ids_has_no_quorum::<ID>();
    quorums.is_quorum(ids)
}

/// Whether ids decide for an empty config, and where there are no configs: never, and always. So
/// who asks before a cluster has begun asks first whether it has a config.
fn decide_for_none<ID: Copy + Ord>(alloc: Global, ids: &[ID]) -> (bool, bool)
    ensures empty { IsDistinct ID.eq ids.now → result.0 ≡ false }
    ensures no_configs { IsDistinct ID.eq ids.now → result.1 ≡ true }
{
    empty_config_has_no_quorum::<ID>();
    no_configs_take_every_set::<ID>();
    let empty: Vec<ID> = Vec::new(alloc);
    let configs: Vec<Vec<ID>> = Vec::new(alloc);
    (empty.is_quorum(ids), Joint::from(configs).is_quorum(ids))
}

/// A clone of a stored membership, which has the same voters and quorums.
fn copy_of<C: Copy, NID: NodeId, N: Node>(
    stored: &StoredMembershipOf<C, NID, N>,
) -> Result<StoredMembershipOf<C, NID, N>, AllocError>
    requires clones_are_equal { ClonesAreEqual N.eq N.is_clone }
    ensures { IfOk result (λ copy. HaveSameQuorums NID.eq (membership_of stored.now).configs
        (membership_of copy).configs) }
{
    equal_configs_have_same_quorums::<NID>();
    stored.try_clone()
}

/// Whether a joint of quorums of a stated size equals its clone: always, if there is memory.
fn joint_copy_is_equal<ID: Copy + Ord>(
    joint: &Joint<ID, AtLeast<ID>, Vec<AtLeast<ID>>>,
) -> Result<bool, AllocError>
    ensures { IfOk result (λ same. IsTrue same) }
{
    let copy = joint.try_clone()?;
    Ok(*joint == copy)
}

/// Changes the members, of one config at least, only where a quorum of them holds an entry. Then
/// every quorum of the new membership contains a node that holds it.
fn change_once_held<NID: NodeId, N: Node>(
    from: &Membership<NID, N>,
    holders: &[NID],
    change: ChangeMembers<NID, N>,
    retain: bool,
) -> Result<Option<Membership<NID, N>>, ChangeMembershipError<NID>>
    requires clones_are_equal { ClonesAreEqual N.eq N.is_clone }
    ensures { IsDistinct NID.eq holders.now → 0 < length from.now.configs →
        IfOk result (λ made. IfSome made (λ to.
        EachQuorumKnows NID.eq to.configs (λ id. true) (is_member NID.eq holders.now))) }
{
    let quorums = from.to_quorum_set()?;
    if !quorums.is_quorum(holders) {
        return Ok(None);
    }
    change_keeps_reached::<NID, N>();
    let to = from.change(change, retain)?;
    Ok(Some(to))
}

/// Whether node 4 is a voter beside 1, 2 and 3, once the members have changed. They change only if
/// a quorum of them holds an entry.
fn has_voter(alloc: Global, holders: &[u64]) -> Result<Option<bool>, ChangeMembershipError<u64>> {
    let change = ChangeMembers::AddVoterIds(ids(alloc, "4")?);
    let from = members(alloc, "1,2,3", "1=1,2=2,3=3,4=4")?;
    Ok(match change_once_held(&from, holders, change, true)? {
        Some(to) => Some(to.is_voter(&4)),
        None => None,
    })
}

#[test]
fn members_change_once_a_quorum_holds_an_entry(rt: HostRuntime) {
    let early = has_voter(rt.alloc(), &[1]);
    assert_row(&rt, "held by 1", early == Ok(None));
    let late = has_voter(rt.alloc(), &[1, 3]);
    assert_row(&rt, "held by 1 and 3", late == Ok(Some(true)));
}
