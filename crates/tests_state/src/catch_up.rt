//! Followers that are caught up with a leader's state, over leader ids of a caller's own.

use crate::region::RegionLeader;
use crate::support::rows::{Row, id};
use crate::support::states::{State, VALID, fill, log_of};
use raft_base::LogStateReader;
use raft_progress::{Progress, ProgressEntryOf, VecProgress};
use raft_state::FollowersOf;
use std::alloc::{AllocError, Global};
use std::test::Fail;
use tests_support::allocations::{is_free, refuse_each};
use tests_support::memory::{both_made, with_made};
use tests_support::words::list;

type Leading = State<RegionLeader, RegionLeader>;

/// The progress of followers.
type Followers<C> = FollowersOf<C, u64, Vec<u64>>;

/// How many of these followers a round catches up, if the progress is in order.
fn caught_up<L: Drop, C: Ord + Copy + Drop + 'static>(
    state: &State<L, C>,
    followers: &mut Followers<C>,
    agreed: &[(u64, u64)],
) -> Option<u64> {
    if !followers.is_in_order() {
        return None;
    }
    Some(state.catch_up_all(followers, agreed, 10))
}

/// Whether a follower of which only the length of the log is known is caught up by so many
/// conflicts and acks, or cannot be.
fn catches_up(state: &Leading, length: u64, agree: u64, want: Option<(u64, u64)>) -> bool {
    let mut follower = ProgressEntryOf::empty(length);
    if !state.can_catch_up(&follower, agree, 10) {
        return want == None;
    }
    let counts = state.catch_up(&mut follower, agree, 10);
    want == Some(counts)
        && follower.matching == state.last_log_id().copied()
        && follower.searching_end == length
        && follower.inflight.is_none()
}

/// Whether a round catches up so many followers, after which this is granted.
fn rounds(
    state: &Leading,
    progress: &mut Followers<RegionLeader>,
    followers: &[(u64, u64)],
    want: u64,
    granted: Row,
) -> bool {
    caught_up(state, progress, followers) == Some(want) && *progress.granted() == id(granted)
}

/// Whether a follower alone is caught up as it should be, over a log of a hundred and over a purged
/// one.
fn alone_right(state: &Leading, purged: &Leading) -> bool {
    let are_right = [
        catches_up(state, 100, 70, Some((1, 6))),
        catches_up(state, 100, 0, Some((2, 10))),
        catches_up(state, 100, 101, None),
        catches_up(purged, 5, 3, Some((0, 1))),
        catches_up(purged, 5, 1, None),
    ];
    !are_right.contains(&false)
}

/// Whether rounds over the voters 1, 2 and 3 and the learner 4 lead where they should.
fn rounds_right(state: &Leading, progress: &mut Followers<RegionLeader>) -> bool {
    let last = Some((1, 99));
    let are_right = [
        rounds(state, progress, &[(1, 70), (4, 0), (9, 3)], 2, None),
        rounds(state, progress, &[(2, 101), (2, 0), (1, 100)], 2, last),
        progress.try_get(&3) == Some(&ProgressEntryOf::empty(100)),
    ];
    !are_right.contains(&false)
}

/// Whether followers are caught up as they should be, one alone and in rounds, without an
/// allocation.
fn are_caught_up(
    rt: &impl Print,
    alloc: Global,
    state: &Leading,
    purged: &Leading,
    progress: &mut Followers<RegionLeader>,
) -> bool {
    refuse_each(alloc);
    let is_right = rounds_right(state, progress) && alone_right(state, purged);
    let name = "RaftState::{can_catch_up, catch_up, catch_up_all}";
    is_free(rt, alloc, name, is_right).unwrap_or(false)
}

/// The voters 1, 2 and 3 and the learner 4, of whose logs only the end 100 is known.
fn followers(alloc: Global) -> Result<Followers<RegionLeader>, AllocError> {
    let voters = list(alloc, "1,2,3")?;
    if !Followers::<RegionLeader>::learners_fit(alloc, &voters, &[4])? {
        return Err(AllocError);
    }
    VecProgress::new(alloc, voters, &[4], ProgressEntryOf::empty(100))
}

/// Whether followers are caught up so, by a state with a log of leader 1 from 0 to 99, and by one
/// with a purged log.
fn catches_up_right(
    rt: &impl Print,
    alloc: Global,
    (state, purged): &mut (Leading, Leading),
) -> Result<bool, AllocError> {
    let (log_ids, mut progress) = both_made(log_of(alloc, "1.0,1.99"), followers(alloc))?;
    state.log_ids = log_ids;
    fill(alloc, purged, VALID)?;
    Ok(are_caught_up(rt, alloc, state, purged, &mut progress))
}

/// Example state 7. A log from 0 to 99: a follower that agrees up to 70 takes 1 conflict and 6
/// acks, and one that agrees up to 0 takes 2 and 10. Two rounds of voters 1 to 3 and learner 4:
/// granted is none, then (1, 99).
#[test]
fn followers_are_caught_up(rt: HostRuntime) -> Result<(), Fail> {
    let alloc = rt.alloc();
    let states = both_made(Leading::try_default(alloc), Leading::try_default(alloc));
    assert!(rt; with_made(states, |states| catches_up_right(&rt, alloc, states))?);
    Ok(())
}
