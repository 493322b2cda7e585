//! What is compared of a value: the number beside a text, and a log id of standard Raft.
ghost use Rattle.raft_base.specs.LeaderIdStd.{std_log_id_cmp};
ghost use Rattle.raft_progress.specs.progress.CountedValue.{IsCounted};
ghost use Rattle.raft_progress.specs.progress.InOrder.{IsInOrder};
ghost use Rattle.raft_progress.specs.progress.ProgressView.{state};
ghost use Rattle.raft_progress.specs.progress.VecProgress.{view};
ghost use Rattle.raft_progress.specs.tracked.Headline.{QuorumsKnowGranted};
ghost use Rattle.raft_progress.specs.tracked.Tracked.{tracked_view};
ghost use Rattle.std.specs.Option.{option_cmp};
ghost use Rattle.std.specs.Prelude.{nat_eq};

use crate::support::asserts::assert_row;
use crate::support::members::members;
use crate::support::steps::{made, updated};
use raft_base::leader_id_std::CommittedLeaderId;
use raft_base::{EmptyNode, LogIdOf};
use raft_members::quorum::QuorumSet;
use raft_progress::progress::{AnyStep, Progress, ProgressPart, Reply, VecProgress, replay_any};
use raft_progress::tracked::{Step, Tracked, replay};
use std::alloc::{AllocError, Global};
use std::process::Abort;
use std::test::Fail;
use tests_support::memory::{is_yes, with_made};
use tests_support::plain_log::id;
use tests_support::words::list;

/// A part and a text.
#[derive(Clone, PartialEq, Drop)]
struct Noted {
    part: u64,
    text: String,
}

impl ProgressPart<u64> for Noted {
    ghost part_of = { λ n. n.part };

    fn part(&self) -> u64 {
        self.part
    }
}

fn make_noted(alloc: Global, part: u64, text: &str) -> Result<Noted, AllocError> {
    Ok(Noted {
        part,
        text: String::from_str(alloc, text)?,
    })
}

/// Updates with their number and text, and what each grants.
const UPDATES: [(u64, u64, &str, u64); 4] = [
    (3, 9, "a", 0),
    (1, 2, "b", 0),
    (2, 3, "c", 2),
    (1, 2, "d", 2),
];

/// The values after them.
const VALUES: [(u64, u64, &str); 4] = [(0, 0, "foo"), (1, 2, "d"), (2, 3, "c"), (3, 9, "a")];

/// Whether a progress of noted numbers grants and holds what it should.
fn holds(
    rt: &impl Abort,
    alloc: Global,
    progress: &mut VecProgress<u64, Noted, u64, Vec<u64>>,
) -> Result<bool, AllocError> {
    for (id, part, text, granted) in &UPDATES {
        if updated(rt, progress, *id, make_noted(alloc, *part, text)?) != Ok(*granted) {
            return Ok(false);
        }
    }
    for (id, part, text) in &VALUES {
        let want = make_noted(alloc, *part, text)?;
        if progress.try_get(id) != Some(&want) {
            return Ok(false);
        }
    }
    Ok(true)
}

/// Example progress 13. Values of a number and a text, compared by the number: granted is 0, 0,
/// 2, 2.
#[test]
fn values_hold_a_text(rt: HostRuntime) -> Result<(), Fail> {
    let alloc = rt.alloc();
    let (voters, default) = (list(alloc, "0,1,2")?, make_noted(alloc, 0, "foo"));
    let progress = made(&rt, alloc, voters, &[3], default?);
    let is_right = with_made(progress, |progress| holds(&rt, alloc, progress));
    assert_row(&rt, "values of a text", is_yes(is_right));
    Ok(())
}

/// How far a log has come: its last log id, if there is one.
type Last = Option<LogIdOf<CommittedLeaderId>>;

/// Makes the steps. Granted is then the greatest log id, by term and then by index, that a quorum
/// has reached.
fn replies_of<QS: QuorumSet<u64>>(
    alloc: Global,
    progress: &mut VecProgress<u64, Last, Last, QS>,
    steps: Vec<AnyStep<u64, Last, QS>>,
) -> Result<Vec<Reply<u64, Last>>, AllocError>
    requires { IsInOrder nat_eq (option_cmp std_log_id_cmp) (λ last. last) QS.has_quorum
        (view progress.old) }
    ensures { IsCounted (option_cmp std_log_id_cmp) (λ last. last) QS.has_quorum
        (state nat_eq (view progress.new)) (view progress.new).granted }
{
    replay_any(alloc, progress, steps)
}

/// Makes the steps of a membership and its progress. Each quorum of the membership then has a voter
/// with at least what is granted.
fn tracked_replies_of(
    alloc: Global,
    cluster: &mut Tracked<u64, EmptyNode, Last, Last>,
    steps: Vec<Step<u64, EmptyNode, Last>>,
) -> Result<Vec<Reply<u64, Last>>, AllocError>
    ensures { QuorumsKnowGranted nat_eq (option_cmp std_log_id_cmp) (λ last. last)
        (tracked_view cluster.new) }
{
    replay(alloc, cluster, steps)
}

/// What is granted as the last log ids of three voters become known.
const GRANTED: [Reply<u64, Last>; 3] = [
    Reply::Granted(None),
    Reply::Granted(Some(LogIdOf {
        leader_id: CommittedLeaderId { term: 1 },
        index: 5,
    })),
    Reply::Granted(Some(LogIdOf {
        leader_id: CommittedLeaderId { term: 2 },
        index: 1,
    })),
];

/// Whether of the last log ids of three voters of a membership the middle one is granted.
fn tracked_grants(alloc: Global) -> Result<bool, AllocError> {
    let mut cluster = Tracked::new(members(alloc, "1,2,3")?, None)?;
    let steps = vec![in alloc;
        Step::Update(1, id(1, 5)),
        Step::Update(2, id(2, 3)),
        Step::Update(3, id(2, 1)),
    ]?;
    let replies = tracked_replies_of(alloc, &mut cluster, steps)?;
    Ok(replies.as_slice() == GRANTED.as_slice())
}

/// Example progress 15. Voters 1 to 3 over log ids of standard Raft, updates (1, 5), (2, 3),
/// (2, 1): granted is none, (1, 5), (2, 1).
#[test]
fn log_ids_are_granted_by_term_then_index(rt: HostRuntime) -> Result<(), Fail> {
    assert!(rt; tracked_grants(rt.alloc())?);
    Ok(())
}
