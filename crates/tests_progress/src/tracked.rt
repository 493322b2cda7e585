//! A membership that changes with its progress: replays and single steps. More rows of changes
//! stand in the tests of the program.
ghost use Rattle.raft_progress.specs.progress.Comparisons.{comparisons};
ghost use Rattle.raft_progress.specs.tracked.Headline.{QuorumsKnowGranted};
ghost use Rattle.raft_progress.specs.tracked.TrackedState.{TrackedView, tracked_state};
ghost use Rattle.raft_progress.specs.tracked.TrackedSteps.{IsTrackedRun};
ghost use Rattle.std.specs.Ordering.{nat_cmp};
ghost use Rattle.std.specs.Prelude.{◌≡◌, IfOk, List, Ok, ℕ};
ghost use Rattle.std.specs.Set.{ClonesAreEqual};

use crate::support::asserts::assert_made;
use crate::support::members::{TrackedNumbers, members};
use crate::support::progress_rows::{has_entries, reply_of};
use raft_base::{EmptyNode, Node, NodeId};
use raft_members::change_members::ChangeMembers;
use raft_members::membership::Membership;
use raft_progress::progress::{Progress, ProgressPart, Reply};
use raft_progress::tracked::{Step, Tracked, replay};
use std::alloc::{AllocError, Global};
use std::test::Fail;
use tests_support::facts::first_wrong;
use tests_support::memory::equals;
use tests_support::words::{ids, number, words};

/// What is granted after some steps of a membership and its progress: each quorum of the membership
/// that they end with has a voter with at least that value.
pub fn granted_of<NID: NodeId, N: Node>(
    alloc: Global,
    membership: Membership<NID, N>,
    steps: Vec<Step<NID, N, u64>>,
) -> Result<u64, AllocError>
    requires clones_are_equal { ClonesAreEqual N.eq N.is_clone }
    ensures { let by = comparisons NID.Ord ⟦<u64 as Ord>⟧ ⟦<u64 as PartialOrd>⟧
        ⟦<u64 as ProgressPart<u64>>⟧ ⟦<u64 as Clone>⟧ in
        IfOk result (λ granted.
        (first last : TrackedView NID N ℕ ℕ) × (replies : List (Reply NID ℕ))
        × (first.membership ≡ membership)
        × IsTrackedRun by N.eq (tracked_state NID.eq first) steps.items replies
        (tracked_state NID.eq last)
        × QuorumsKnowGranted NID.eq nat_cmp (λ v. v) last × (granted ≡ last.progress.granted)) }
{
    let mut cluster = Tracked::new(membership, 0u64)?;
    let _replies = replay(alloc, &mut cluster, steps)?;
    Ok(*cluster.progress().granted())
}

/// Steps of the voters 1 and 2 and a learner 3, of which half are refused, and their replies. A
/// change has its ids and the default.
pub const STEPS: &str = "update 1 5 0; update 2 3 3; add 3 0 3; update 3 4 3; add 4 0 refused:4; \
    update 9 1 unknown:3; update 3 2 falls; remove 1,2,3 0 refused:-; replace 2,3 4 below:2; \
    increase 2 7 5";

/// The step of a row.
fn step(alloc: Global, row: &str) -> Result<Step<u64, EmptyNode, u64>, AllocError> {
    let [name, first, second, ..] = words(row);
    let (id, value) = (number(first), number(second));
    if name == "update" {
        return Ok(Step::Update(id, value));
    }
    if name == "increase" {
        return Ok(Step::IncreaseTo(id, value));
    }
    let ids = ids(alloc, first)?;
    let change = match name {
        "add" => ChangeMembers::AddVoterIds(ids),
        "remove" => ChangeMembers::RemoveVoters(ids),
        _ => ChangeMembers::ReplaceAllVoters(ids),
    };
    Ok(Step::Change {
        change,
        retain: name != "remove",
        default: value,
    })
}

/// The steps of rows without the one at a position.
pub fn steps(
    alloc: Global,
    rows: &str,
    without: Option<usize>,
) -> Result<Vec<Step<u64, EmptyNode, u64>>, AllocError> {
    let mut steps = Vec::new(alloc);
    for (place, row) in rows.split(';').enumerate() {
        if Some(place) != without {
            steps.push(step(alloc, row)?)?;
        }
    }
    Ok(steps)
}

/// Replays the steps as one list, and returns the first one whose reply is wrong, or that there are
/// more replies than steps.
fn wrong_reply(
    alloc: Global,
    cluster: &mut TrackedNumbers,
) -> Result<Option<&'static str>, AllocError> {
    let replies = replay(alloc, cluster, steps(alloc, STEPS, None)?)?;
    for (place, row) in STEPS.split(';').enumerate() {
        if replies.get(place) != Some(&reply_of(row)) {
            return Ok(Some(row));
        }
    }
    let has_more = replies.len() > STEPS.split(';').count();
    Ok(has_more.then_some("more replies than steps"))
}

/// Returns what is wrong after the steps: a reply, or what they lead to.
fn wrong_after(
    alloc: Global,
    cluster: &mut TrackedNumbers,
) -> Result<Option<&'static str>, AllocError> {
    let wrong = wrong_reply(alloc, cluster)?;
    let stat = cluster.progress().stat();
    let counts = [stat.update_count, stat.move_count];
    let to = members(alloc, "1,2/1,2,3");
    Ok(wrong.or(first_wrong(&[
        (
            "the entries",
            has_entries(cluster.progress(), "2=7,1=5,3=4"),
        ),
        ("the counts", counts == [8, 6]),
        ("the membership", equals(to, cluster.membership())),
    ])))
}

/// Returns what is wrong after the steps of a new membership of the voters 1 and 2.
fn wrong_in_replay(alloc: Global) -> Result<Option<&'static str>, AllocError> {
    let mut cluster = Tracked::new(members(alloc, "1,2")?, 0)?;
    wrong_after(alloc, &mut cluster)
}

/// Example progress 8. Voters 1 and 2, learner 3: ten steps in one list, of which half are
/// refused. The replies and the end. A change counts each node as an update, and each that rises as
/// a move.
#[test]
fn a_replay_goes_on_after_each_refusal(rt: HostRuntime) -> Result<(), Fail> {
    assert_made(&rt, "a replay", wrong_in_replay(rt.alloc()));
    Ok(())
}
