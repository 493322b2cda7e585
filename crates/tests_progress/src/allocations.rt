//! Progresses, replays and searches, with each allocation refused in turn or all of them.

use super::{entry, inflight, search};
use crate::support::asserts::assert_call;
use crate::support::entry_rows::wrong_row as wrong_in_entry;
use crate::support::members::{TrackedNumbers, members};
use crate::support::progress_rows::{
    By, Numbers, Quorums as _, are_replayed, begun, lived, steps, wrong_row,
};
use crate::support::values::purged_log;
use crate::tracked as worked;
use crate::vec_progress::{rename, set};
use raft_base::leader_id_std::CommittedLeaderId as Leader;
use raft_members::quorum::{AtLeast, QuorumSet};
use raft_progress::progress::{AnyStep, Progress, Reply, VecProgress, replay_any};
use raft_progress::tracked::{Tracked, replay};
use std::alloc::{AllocError, Global};
use std::io;
use std::test::Fail;
use tests_support::allocations::{
    Allocation, is_free, is_free_on, is_swept, is_swept_by, refuse_each,
};
use tests_support::memory::{both_made, clone_of};
use tests_support::plain_log::{PlainLog, id, log_below};

/// Updates of the voters 1 to 3 and a learner 5, after which 3 alone is still at 0.
const UPDATES: &str = "update 1 5 0; update 2 6 5; update 5 9 5";

/// The progress after these updates.
fn moved(alloc: Global) -> Result<Numbers, AllocError> {
    lived(alloc, "1,2,3 5 0; update 1 5 0; update 2 6 5; update 5 9 5")
}

/// An equal progress, whose learner was 8 and became 5 through `iter_mut` before the updates.
fn renamed(alloc: Global) -> Result<Numbers, AllocError> {
    let mut progress = begun(alloc, "1,2,3 8 0")?;
    rename(&mut progress, 8, 5);
    let _ = are_replayed(alloc, &mut progress, UPDATES)?;
    Ok(progress)
}

/// Makes a progress of the voters 1 to 3 and the learners 5 and 6.
fn new_one(allocation: Allocation) -> Result<Numbers, AllocError> {
    let voters = [1, 2, 3].to_vec(allocation.alloc)?;
    if !Numbers::learners_fit(allocation.alloc, &voters, &[5, 6])? {
        return Err(AllocError);
    }
    allocation.refuse();
    Numbers::new(allocation.alloc, voters, &[5, 6], 7)
}

/// Clones a progress.
fn cloned(allocation: Allocation, progress: &Numbers) -> Result<Numbers, AllocError> {
    allocation.refuse();
    progress.try_clone()
}

/// Upgrades any progress to the voters 2 to 4 and the learner 1.
fn upgraded<P: Progress<u64, u64, u64, Vec<u64>>>(
    allocation: Allocation,
    old: &mut P,
) -> Result<P, AllocError> {
    let voters = [2, 3, 4].to_vec(allocation.alloc)?;
    let fits = P::learners_fit(allocation.alloc, &voters, &[1])?;
    let is_allowed = old.can_upgrade(&voters, &[1], &0)?;
    if !fits || !is_allowed || !old.is_in_order() {
        return Err(AllocError);
    }
    allocation.refuse();
    old.upgrade_quorum_set(voters, &[1], 0)
}

type Replies = Vec<Reply<u64, u64>>;

/// The position of the first reply of out of memory, if that is no update of a row.
fn refused_place(rows: &str, replies: &[Reply<u64, u64>]) -> Option<usize> {
    for (place, row) in rows.split(';').enumerate() {
        if replies.get(place) == Some(&Reply::OutOfMemory) {
            let is_update = row.contains("update") || row.contains("increase");
            return if is_update { None } else { Some(place) };
        }
    }
    None
}

/// Whether the step at a position was out of memory, and the other steps replied and left what they
/// do without it.
fn are_others<T: PartialEq + Drop>(
    (replies, left): (&Replies, &T),
    place: usize,
    without: Result<(T, Replies), AllocError>,
) -> Result<bool, AllocError> {
    let (other, others) = without?;
    let mut rest = others.iter();
    for (at, reply) in replies.iter().enumerate() {
        if at != place && rest.next() != Some(reply) {
            return Ok(false);
        }
    }
    let is_whole = rest.next().is_none() && !others.contains(&Reply::OutOfMemory);
    Ok(is_whole && other == *left)
}

/// Steps of a progress that has moved, with two upgrades.
const STEPS: &str = "update 3 4; upgrade 2,3,4 1 0; update 3 8; upgrade 1,3 - 4; increase 3 9";

/// Replays steps of a progress, which has to be in order.
fn replayed(
    alloc: Global,
    progress: &mut Numbers,
    steps: Vec<AnyStep<u64, u64, Vec<u64>>>,
) -> Result<Replies, AllocError> {
    if !progress.is_in_order() {
        return Err(AllocError);
    }
    replay_any(alloc, progress, steps)
}

/// The progress that has moved, after the steps without the one at a position, and their replies.
fn replayed_without(alloc: Global, place: usize) -> Result<(Numbers, Replies), AllocError> {
    let mut progress = moved(alloc)?;
    let replies = replayed(alloc, &mut progress, steps(alloc, STEPS, Some(place))?)?;
    Ok((progress, replies))
}

/// Makes the call of a name.
fn call_of_progress(
    name: &str,
    allocation: Allocation,
    progress: &mut Numbers,
) -> Result<Numbers, AllocError> {
    match name {
        "VecProgress::new" => new_one(allocation),
        "VecProgress::try_clone" => cloned(allocation, progress),
        _ => upgraded(allocation, progress),
    }
}

#[test]
fn allocations_of_progresses(rt: HostRuntime) -> Result<(), Fail> {
    let alloc = rt.alloc();
    let begun = |alloc: Global| moved(alloc);
    for name in [
        "VecProgress::new",
        "VecProgress::try_clone",
        "Progress::upgrade_quorum_set",
    ] {
        let call = |allocation: Allocation, progress: &mut Numbers| {
            call_of_progress(name, allocation, progress)
        };
        assert_call(&rt, name, is_swept(&rt, alloc, name, begun, call));
    }
    let call = |allocation: Allocation, progress: &mut Numbers| {
        let steps = steps(allocation.alloc, STEPS, None)?;
        allocation.refuse();
        replayed(allocation.alloc, progress, steps)
    };
    let is_right = |alloc: Global, made: (&Replies, &Numbers), _: (&Replies, &Numbers)| {
        match refused_place(STEPS, made.0) {
            Some(place) => are_others(made, place, replayed_without(alloc, place)),
            None => Ok(false),
        }
    };
    let name = "replay_any";
    assert_call(
        &rt,
        name,
        is_swept_by(&rt, alloc, name, begun, call, is_right),
    );
    Ok(())
}

/// The membership of two voters and a learner, and their progress at 0, as the worked steps begin.
fn tracked(alloc: Global) -> Result<TrackedNumbers, AllocError> {
    Tracked::new(members(alloc, "1,2")?, 0)
}

/// The membership after the worked steps without the one at a position, and their replies.
fn tracked_without(alloc: Global, place: usize) -> Result<(TrackedNumbers, Replies), AllocError> {
    let steps = worked::steps(alloc, worked::STEPS, Some(place))?;
    let mut cluster = tracked(alloc)?;
    let replies = replay(alloc, &mut cluster, steps)?;
    Ok((cluster, replies))
}

/// Makes the call of a name, and returns what it makes beside its membership.
fn call_of_tracked(
    name: &str,
    allocation: Allocation,
    cluster: &mut TrackedNumbers,
) -> Result<Option<TrackedNumbers>, AllocError> {
    let to = members(
        allocation.alloc,
        if name == "Tracked::new" {
            "1,2"
        } else {
            "1,2/2,3"
        },
    )?;
    allocation.refuse();
    match name {
        "Tracked::new" => Ok(Some(Tracked::new(to, 0)?)),
        "Tracked::try_clone" => Ok(Some(cluster.try_clone()?)),
        _ => match cluster.change_to(to, 0) {
            Reply::Granted(0) => Ok(None),
            _ => Err(AllocError),
        },
    }
}

#[test]
fn allocations_of_tracked(rt: HostRuntime) -> Result<(), Fail> {
    let alloc = rt.alloc();
    let begun = |alloc: Global| tracked(alloc);
    for name in ["Tracked::new", "Tracked::try_clone", "Tracked::change_to"] {
        let call = |allocation: Allocation, cluster: &mut TrackedNumbers| {
            call_of_tracked(name, allocation, cluster)
        };
        assert_call(&rt, name, is_swept(&rt, alloc, name, begun, call));
    }
    let call = |allocation: Allocation, cluster: &mut TrackedNumbers| {
        let steps = worked::steps(allocation.alloc, worked::STEPS, None)?;
        allocation.refuse();
        replay(allocation.alloc, cluster, steps)
    };
    type Left<'a> = (&'a Replies, &'a TrackedNumbers);
    let is_right = |alloc: Global, made: Left<'_>, _: Left<'_>| {
        match refused_place(worked::STEPS, made.0) {
            Some(place) => are_others(made, place, tracked_without(alloc, place)),
            None => Ok(false),
        }
    };
    assert_call(
        &rt,
        "replay",
        is_swept_by(&rt, alloc, "replay", begun, call, is_right),
    );
    Ok(())
}

/// Calls of the progress that has moved, and what it then reads.
const GOES_ON: &str = "update 1 7 6; update 9 7 unknown:6; increase 3 8 7; update 2 9 8; \
    value 2 9; value 8 -; entries 2=9,3=8,1=7,5=9; counts 7 5";

/// Whether a progress that has moved goes on as it should, and then differs from what it was.
fn goes_on(alloc: Global, progress: &mut Numbers, before: &Numbers) -> bool {
    let was_equal = *progress == *before;
    let wrong = wrong_row(alloc, progress, GOES_ON, "", By::Calls);
    let are_right = [
        was_equal,
        matches!(wrong, Ok(None)),
        set(progress, 5, 10),
        progress.is_voter(&5) == Some(false),
        progress.quorum_set().is_quorum(&[1, 3]),
        *progress == *progress,
        *progress != *before,
    ];
    !are_right.contains(&false)
}

/// Whether a progress that has moved goes on as it should, without an allocation.
fn goes_on_free(
    rt: &impl Print,
    alloc: Global,
    name: &str,
    progress: Result<Numbers, AllocError>,
) -> io::Result<bool> {
    let held = both_made(progress, moved(alloc));
    is_free_on(
        rt,
        alloc,
        name,
        held,
        |held| goes_on(alloc, &mut held.0, &held.1),
    )
}

/// Whether some ids are quorums of three of the ids 0 to 4.
fn are_quorums(three_of_five: &AtLeast<u64>) -> bool {
    three_of_five.is_quorum(&[0, 2, 4])
        && !three_of_five.is_quorum(&[0, 2, 9])
        && three_of_five.need() == 3
}

#[test]
fn no_allocations_of_progresses(rt: HostRuntime) -> Result<(), Fail> {
    let alloc = rt.alloc();
    let name = "VecProgress, updates and reads";
    assert_call(&rt, name, goes_on_free(&rt, alloc, name, moved(alloc)));
    let name = "VecProgress, those of a clone";
    assert_call(
        &rt,
        name,
        goes_on_free(&rt, alloc, name, clone_of(moved(alloc))),
    );
    assert_call(
        &rt,
        name,
        goes_on_free(&rt, alloc, name, clone_of(renamed(alloc))),
    );
    let name = "is_quorum of an AtLeast";
    let three = AtLeast::of_word(alloc, "3:0,1,2,3,4");
    assert_call(
        &rt,
        name,
        is_free_on(&rt, alloc, name, three, |three| are_quorums(three)),
    );
    let (name, both) = ("Tracked::eq", both_made(tracked(alloc), tracked(alloc)));
    assert_call(
        &rt,
        name,
        is_free_on(&rt, alloc, name, both, |both| both.0 == both.1),
    );
    let name = "Tracked::update";
    let updates = is_free_on(&rt, alloc, name, tracked(alloc), |cluster| {
        cluster.update(&1, 5) == Reply::Granted(0) && cluster.update(&9, 5) == Reply::Unknown(0)
    });
    assert_call(&rt, name, updates);
    Ok(())
}

/// Whether calls of entries, and searches, are as worked, over a log from 0 to 99, and over one
/// from 0 to 20 that is to be purged up to index 4.
fn searches_are_as_worked(log: &PlainLog<Leader>, purged: &PlainLog<Leader>) -> bool {
    let are_right = [
        wrong_in_entry(log, entry::HUNDRED).is_none(),
        wrong_in_entry(log, entry::READS).is_none(),
        wrong_in_entry(purged, entry::PURGED).is_none(),
        search::halves(log),
        search::ends_with_a_snapshot(purged, log),
        entry::are_made(),
    ];
    !are_right.contains(&false)
}

#[test]
fn no_allocations_of_searches(rt: HostRuntime) -> Result<(), Fail> {
    let alloc = rt.alloc();
    let name = "ProgressEntry and search_run";
    let logs = both_made(
        log_below(alloc, 100, None),
        purged_log(alloc, 21, 4, id(1, 6)),
    );
    let of_searches = is_free_on(&rt, alloc, name, logs, |logs| {
        searches_are_as_worked(&logs.0, &logs.1)
    });
    assert_call(&rt, name, of_searches);
    let name = "Inflight, responses and reads";
    refuse_each(alloc);
    let are_right = inflight::wrong_response().is_none();
    let is_right = are_right && inflight::reads_back();
    assert_call(&rt, name, is_free(&rt, alloc, name, is_right));
    Ok(())
}
