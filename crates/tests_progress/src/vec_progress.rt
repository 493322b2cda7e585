//! A progress: its reads, its writes in place, its learners, and upgrades through a joint.

use crate::support::asserts::assert_row;
use crate::support::members::members;
use crate::support::progress_rows::{Configs, Numbers, are_replayed, begun, play};
use raft_progress::progress::Progress;
use raft_progress::tracked::MembershipProgress;
use std::alloc::{AllocError, Global};
use std::test::Fail;
use tests_support::memory::{is_yes, with_made};
use tests_support::words::list;

/// Upgrades of configs, of which two are refused.
const UPGRADES: &str = "update 0 5 0; update 1 6 5; update 5 9 5; upgrade 0,1,2 5 1 below:2; \
    upgrade 0,1,2 5,5 1 bad; upgrade 0,1,2/3,4,5 6 0 0; update 3 7 5; update 4 8 5; \
    upgrade 3,4,5 1 0 8; value 5 9; value 1 6";

/// Writes a value in place. Returns whether the id is known.
pub fn set(progress: &mut Numbers, id: u64, value: u64) -> bool {
    match progress.get_mut(&id) {
        Some(current) => {
            *current = value;
            true
        }
        None => false,
    }
}

/// Changes an id to another one in place.
pub fn rename(progress: &mut Numbers, from: u64, to: u64) {
    for entry in progress.iter_mut() {
        if entry.0 == from {
            entry.0 = to;
        }
    }
}

/// Whether a progress of the voters 0 to 4 and the learners 6 and 7 is read, and written in place,
/// as it should be.
fn reads_and_writes(alloc: Global, progress: &mut Numbers) -> Result<bool, AllocError> {
    let are_right = [
        progress.voter_count() == 5 && progress.quorum_set().len() == 5,
        progress.is_voter(&1) == Some(true) && progress.is_voter(&3) == Some(true),
        progress.is_voter(&7) == Some(false) && progress.is_voter(&8) == None,
        *progress.granted() == 0 && *progress.default_part() == 0,
        are_replayed(alloc, progress, "update 6 5 0; value 6 5; value 9 -")?,
        set(progress, 6, 10) && progress.try_get(&6) == Some(&10),
        !set(progress, 9, 1),
    ];
    Ok(!are_right.contains(&false))
}

/// Values of the voters 0 to 2 and a learner that are written in place, and whether they are in
/// order.
const WRITES: [([u64; 4], bool); 6] = [
    ([9, 0, 0, 0], true),
    ([9, 9, 0, 0], false),
    ([0, 0, 0, 0], true),
    ([0, 0, 9, 0], false),
    ([0, 0, 0, 7], true),
    ([0, 0, 0, 0], true),
];

/// Whether a progress of the voters 0 to 2 and a learner is in order after each write.
fn are_in_order(progress: &mut Numbers) -> bool {
    for (values, want) in &WRITES {
        for (entry, value) in progress.iter_mut().zip(values) {
            entry.1 = *value;
        }
        if progress.is_in_order() != *want {
            return false;
        }
    }
    true
}

/// Whether a progress of the voters 0 to 2 and the learner 5 knows that learner by the id 8.
fn is_renamed(alloc: Global, progress: &mut Numbers) -> Result<bool, AllocError> {
    rename(progress, 5, 8);
    let is_known = progress.index(&8) == Some(3) && progress.index(&5) == None;
    Ok(is_known && are_replayed(alloc, progress, "update 8 4 0")?)
}

/// Whether learners fit the voters 0 to 2.
fn fit(alloc: Global, learners: &[u64]) -> Result<bool, AllocError> {
    Numbers::learners_fit(alloc, &list(alloc, "0,1,2")?, learners)
}

/// Example progress 4. {0, 1, 2} with learner 5, then {0, 1, 2} and {3, 4, 5} with learner 6,
/// then {3, 4, 5} with learner 1: granted is 0, 5, 5, 0, 5, 5, 8. Id 5 keeps 9 and id 1 keeps
/// 6.
/// Example progress 5. Over a joint, after three updates, an upgrade to the same voters: with
/// default 1 the reply is `BelowDefault(2)`, with learners 5, 5 it is `BadLearners`.
/// Example progress 9. Voters 0 to 2, learner 5: writes of 9 and 0 in place lose the order and
/// restore it.
/// Example progress 10. Voters 0 to 2, learner 5: `iter_mut` makes the learner 8, at position
/// 3. Then 5 is unknown, and `update` of 8 returns 0.
/// Example progress 11. Voters 0 to 2: learners 6, 6 and learner 0 do not fit, and no learners
/// fit.
/// Example progress 12. Voters 0 to 4, learners 6 and 7: who is a voter; the value of 6 is 5,
/// and 10 after `get_mut`; 9 is unknown.
#[test]
fn a_progress_is_as_worked(rt: HostRuntime) -> Result<(), Fail> {
    let alloc = rt.alloc();
    play::<Configs>(&rt, alloc, "0,1,2 5 0", UPGRADES);
    let five = begun(alloc, "0,1,2,3,4 6,7 0");
    let is_right = with_made(five, |progress| reads_and_writes(alloc, progress));
    assert_row(&rt, "reads and writes", is_yes(is_right));
    let is_right = with_made(
        begun(alloc, "0,1,2 5 0"),
        |progress| Ok(are_in_order(progress)),
    );
    assert_row(&rt, "order", is_yes(is_right));
    let is_right = with_made(
        begun(alloc, "0,1,2 5 0"),
        |progress| is_renamed(alloc, progress),
    );
    assert_row(&rt, "another id", is_yes(is_right));
    let fits = [fit(alloc, &[6, 6]), fit(alloc, &[0]), fit(alloc, &[])];
    assert_row(&rt, "learners", fits == [Ok(false), Ok(false), Ok(true)]);
    Ok(())
}

/// Whether a progress by a membership of the voters 1 and 2 goes over to a joint one.
fn goes_over(
    alloc: Global,
    progress: &mut MembershipProgress<u64, u64, u64>,
) -> Result<bool, AllocError> {
    let to = members(alloc, "1,2/2,3")?;
    let is_allowed = progress.can_upgrade_to(&to, &0)?;
    if !is_allowed || !progress.is_in_order() {
        return Ok(false);
    }
    let upgraded = progress.upgraded_to(&to, 0)?;
    Ok(upgraded.is_voter(&3) == Some(true))
}

#[test]
fn a_progress_goes_over_to_a_membership(rt: HostRuntime) -> Result<(), Fail> {
    let alloc = rt.alloc();
    let progress = MembershipProgress::of(&members(alloc, "1,2")?, 0);
    let is_right = with_made(progress, |progress| goes_over(alloc, progress));
    assert_row(&rt, "a membership", is_yes(is_right));
    Ok(())
}
