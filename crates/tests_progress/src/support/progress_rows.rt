//! Lives of a progress of numbers, by rows of words.
//!
//! A life is a line of rows with `;` between. Its first row has the voters, the learners and their
//! default, as `0,1,2 5 0`, and if the quorum set counts its calls the greatest number of quorum
//! tests of an update. The rows after that are steps with their reply, and at the end reads:
//!
//! | row | its arguments | its answer |
//! |---|---|---|
//! | `update`, `increase` | an id and a value | the reply |
//! | `upgrade` | voters, learners and a default | the reply |
//! | `value` | an id | the value, or `-` if the id is unknown |
//! | `counts` | none | the updates and the moves |
//! | `entries` | none | all of them in their order, as `1=6,0=5` |
//!
//! A reply is the number that is granted, `unknown:GRANTED`, `falls`, `below:ID`, `bad` for bad
//! learners, or `refused:ID`, with `-` for a config that would be empty. The word of a quorum set
//! is the list of its voters; in a joint a `/` is between them. Of quorums of a stated size it is
//! `SIZE:IDS`.

ghost use Rattle.raft_progress.specs.progress.InOrder.{IsInOrder};
ghost use Rattle.raft_progress.specs.progress.VecProgress.{view};
ghost use Rattle.std.specs.Ordering.{nat_cmp};
ghost use Rattle.std.specs.Prelude.{nat_eq};

use crate::support::asserts::assert_made;
use raft_members::quorum::{AtLeast, Joint, QuorumSet};
use raft_progress::progress::{AnyStep, Progress, Reply, VecProgress, replay_any};
use std::alloc::{AllocError, Global};
use std::process::Abort;
use tests_support::words::{list, lists, number, words};

/// A quorum set that has a word.
pub trait Quorums: QuorumSet<u64> {
    /// The quorum set of a word.
    fn of_word(alloc: Global, word: &str) -> Result<Self, AllocError>;

    /// How often it was asked, if it counts that.
    fn calls(&self) -> Option<u64> {
        None
    }
}

impl Quorums for Vec<u64> {
    fn of_word(alloc: Global, word: &str) -> Result<Self, AllocError> {
        list(alloc, word)
    }
}

/// Configs of a cluster as one.
pub type Configs = Joint<u64, Vec<u64>, Vec<Vec<u64>>>;

impl Quorums for Configs {
    fn of_word(alloc: Global, word: &str) -> Result<Self, AllocError> {
        Ok(Joint::new(lists(alloc, word)?))
    }
}

impl Quorums for AtLeast<u64> {
    fn of_word(alloc: Global, word: &str) -> Result<Self, AllocError> {
        let (need, ids) = word.split_once(':').unwrap_or(("1", word));
        AtLeast::new(alloc, &list(alloc, ids)?, (number(need) as usize).max(1))
    }
}

/// A progress of numbers.
pub type ProgressOf<QS> = VecProgress<u64, u64, u64, QS>;

/// A progress of numbers by voters.
pub type Numbers = ProgressOf<Vec<u64>>;

/// A new progress by its row.
pub fn begun<QS: Quorums>(alloc: Global, row: &str) -> Result<ProgressOf<QS>, AllocError> {
    let [voters, learner_word, default, ..] = words(row);
    let quorum_set = QS::of_word(alloc, voters)?;
    let learners = list(alloc, learner_word)?;
    if !ProgressOf::<QS>::learners_fit(alloc, &quorum_set, &learners)? {
        return Err(AllocError);
    }
    VecProgress::new(alloc, quorum_set, &learners, number(default))
}

/// The reply of a word.
fn reply(word: &str) -> Reply<u64, u64> {
    let (name, rest) = word.split_once(':').unwrap_or((word, word));
    match name {
        "unknown" => Reply::Unknown(number(rest)),
        "falls" => Reply::WouldFall,
        "below" => Reply::BelowDefault(number(rest)),
        "bad" => Reply::BadLearners,
        "refused" if rest == "-" => Reply::Refused(None),
        "refused" => Reply::Refused(Some(number(rest))),
        _ => Reply::Granted(number(rest)),
    }
}

/// The reply to the step of a row.
pub fn reply_of(row: &str) -> Reply<u64, u64> {
    let [name, _, _, third, fourth, ..] = words(row);
    reply(if name == "upgrade" { fourth } else { third })
}

/// The step of a row, and none of a read.
fn step<QS: Quorums>(
    alloc: Global,
    row: &str,
) -> Result<Option<AnyStep<u64, u64, QS>>, AllocError> {
    let [name, first, second, default, ..] = words(row);
    Ok(Some(match name {
        "update" => AnyStep::Update(number(first), number(second)),
        "increase" => AnyStep::IncreaseTo(number(first), number(second)),
        "upgrade" => AnyStep::Upgrade {
            quorum_set: QS::of_word(alloc, first)?,
            learners: list(alloc, second)?,
            default: number(default),
        },
        _ => return Ok(None),
    }))
}

/// The steps of rows without the one at a position.
pub fn steps<QS: Quorums>(
    alloc: Global,
    rows: &str,
    without: Option<usize>,
) -> Result<Vec<AnyStep<u64, u64, QS>>, AllocError> {
    let mut steps = Vec::new(alloc);
    for (place, row) in rows.split(';').enumerate() {
        if Some(place) != without {
            steps.extend(step(alloc, row)?)?;
        }
    }
    Ok(steps)
}

/// What an update lends, as a reply.
fn reply_of_lent(granted: Result<&u64, &u64>) -> Reply<u64, u64> {
    match granted {
        Ok(granted) => Reply::Granted(*granted),
        Err(granted) => Reply::Unknown(*granted),
    }
}

/// The reply to a step of a progress in order: by a replay of this step, or by a call of its own.
/// An upgrade, and an increase to a lesser value, are always replayed.
fn answer<QS: Quorums>(
    alloc: Global,
    progress: &mut ProgressOf<QS>,
    row: &str,
    by_replay: bool,
) -> Result<Option<Reply<u64, u64>>, AllocError>
    requires ordered { IsInOrder nat_eq nat_cmp (λ v. v) QS.has_quorum (view progress.old) }
{
    let [name, first, second, ..] = words(row);
    let (id, value) = (number(first), number(second));
    let falls = progress.would_fall(&id, &value);
    if by_replay || name == "upgrade" || (name == "increase" && falls) {
        return Ok(replay_any(alloc, progress, steps(alloc, row, None)?)?.pop());
    }
    if falls {
        return Ok(Some(Reply::WouldFall));
    }
    Ok(Some(match name {
        "update" => reply_of_lent(progress.update(&id, value)),
        _ => reply_of_lent(progress.increase_to(&id, value)),
    }))
}

/// Whether a progress has the entries of a word, each id at its position.
pub fn has_entries<QS: QuorumSet<u64>>(progress: &ProgressOf<QS>, word: &str) -> bool {
    let mut entries = progress.iter();
    let mut position = 0usize;
    for entry in word.split(',') {
        let (id, value) = entry.split_once('=').unwrap_or((entry, ""));
        let (id, value) = (number(id), number(value));
        if entries.next() != Some(&(id, value)) || progress.index(&id) != Some(position) {
            return false;
        }
        position = position.saturating_add(1);
    }
    entries.next().is_none()
}

/// Whether an id has the value of a word, by both calls.
fn has_value<QS: QuorumSet<u64>>(progress: &ProgressOf<QS>, id: u64, word: &str) -> bool {
    match progress.try_get(&id) {
        Some(value) => *value == number(word) && *progress.get(&id) == *value && word != "-",
        None => word == "-",
    }
}

/// Whether a progress is read as a row says.
fn is_read<QS: QuorumSet<u64>>(progress: &ProgressOf<QS>, row: &str) -> bool {
    let [name, first, second, ..] = words(row);
    match name {
        "value" => has_value(progress, number(first), second),
        "entries" => has_entries(progress, first),
        _ => {
            let stat = progress.stat();
            let counts = [stat.update_count, stat.move_count];
            name == "counts" && counts == [number(first), number(second)]
        }
    }
}

/// Whether so many quorum tests were made as are counted, and no more than they may be. An upgrade
/// asks the next quorum set, which nobody has asked before.
fn are_made(tests: u64, calls: [Option<u64>; 2], most: &str, is_upgraded: bool) -> bool {
    match calls {
        [_, Some(calls)] if is_upgraded => tests == calls,
        [Some(before), Some(calls)] => {
            tests == calls.saturating_sub(before) && tests <= number(most)
        }
        _ => true,
    }
}

/// Whether a row is answered as it says, by a call or by a replay. The test of the order is no
/// quorum test that is counted.
fn is_answered<QS: Quorums>(
    alloc: Global,
    progress: &mut ProgressOf<QS>,
    row: &str,
    most: &str,
    by_replay: bool,
) -> Result<bool, AllocError> {
    if step::<QS>(alloc, row)?.is_none() {
        return Ok(is_read(progress, row));
    }
    if !progress.is_in_order() {
        return Ok(false);
    }
    let (count, before) = (
        progress.stat().is_quorum_count,
        progress.quorum_set().calls(),
    );
    let reply = answer(alloc, progress, row, by_replay)?;
    let tests = progress.stat().is_quorum_count.saturating_sub(count);
    let calls = [before, progress.quorum_set().calls()];
    let is_upgraded = row.contains("upgrade") && matches!(reply, Some(Reply::Granted(_)));
    Ok(reply == Some(reply_of(row)) && are_made(tests, calls, most, is_upgraded))
}

/// Whether the steps of rows, as one list, are replied to, and leave what the reads say.
pub fn are_replayed<QS: Quorums>(
    alloc: Global,
    progress: &mut ProgressOf<QS>,
    rows: &str,
) -> Result<bool, AllocError> {
    if !progress.is_in_order() {
        return Ok(false);
    }
    let replies = replay_any(alloc, progress, steps(alloc, rows, None)?)?;
    let mut place = 0usize;
    for row in rows.split(';') {
        match replies.get(place) {
            Some(reply) if *reply != reply_of(row) => return Ok(false),
            None if !is_read(progress, row) => return Ok(false),
            _ => place = place.saturating_add(1),
        }
    }
    Ok(true)
}

/// How the steps of a life are made.
#[derive(Clone, Copy, PartialEq)]
pub enum By {
    Calls,
    Replays,
    OneReplay,
}

/// Returns the first row that a progress answers otherwise, if there is one, or all of them.
pub fn wrong_row<'a, QS: Quorums>(
    alloc: Global,
    progress: &mut ProgressOf<QS>,
    rows: &'a str,
    most: &str,
    by: By,
) -> Result<Option<&'a str>, AllocError> {
    if by == By::OneReplay {
        return Ok((!are_replayed(alloc, progress, rows)?).then_some(rows));
    }
    for row in rows.split(';') {
        if !is_answered(alloc, progress, row, most, by == By::Replays)? {
            return Ok(Some(row));
        }
    }
    Ok(None)
}

/// Returns the first row that a new progress answers otherwise, if there is one, or all of them.
fn wrong_of_life<'a, QS: Quorums>(
    alloc: Global,
    first: &str,
    rows: &'a str,
    most: &str,
    by: By,
) -> Result<Option<&'a str>, AllocError> {
    let mut progress = begun::<QS>(alloc, first)?;
    wrong_row(alloc, &mut progress, rows, most, by)
}

/// Stops the test at a row of a life that is wrong, with its steps by calls, by replays of a step
/// each, and by one replay.
pub fn play<QS: Quorums>(rt: &impl Abort, alloc: Global, first: &str, rows: &str) {
    let [_, _, _, most, ..] = words(first);
    for by in [By::Calls, By::Replays, By::OneReplay] {
        assert_made(rt, first, wrong_of_life::<QS>(alloc, first, rows, most, by));
    }
}

/// Plays lives one after another.
pub fn play_all<QS: Quorums>(rt: &impl Abort, alloc: Global, lives: &str) {
    for life in lives.trim().lines() {
        let (first, rows) = life.split_once(';').unwrap_or((life, ""));
        play::<QS>(rt, alloc, first, rows);
    }
}

/// The progress that a life leaves, if its steps are replied to.
pub fn lived(alloc: Global, life: &str) -> Result<Numbers, AllocError> {
    let (first, rows) = life.split_once(';').unwrap_or((life, ""));
    let mut progress = begun(alloc, first)?;
    if are_replayed(alloc, &mut progress, rows)? {
        Ok(progress)
    } else {
        Err(AllocError)
    }
}
