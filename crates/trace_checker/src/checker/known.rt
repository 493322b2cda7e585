//! Which configs are known to be committed, if configs count once they are applied.
ghost use Rattle.std.specs.Prelude.{◌≡◌, ◌⊎◌, ◌<◌, ◌≤◌, ◌&&◌, ◌||◌, ◌++◌, ◌∷◌, ℕ, Bool, [], OnErr, OnOk, drop, length, map, nat_le, nat_lt, nat_eq, take, IsTrue, List, None};
ghost use Rattle.safety_laws.specs.Configs.{effective_config};
ghost use Rattle.safety_laws.specs.Log.{Entry, IsPrefix};
ghost use Rattle.std.specs.Set.{is_member};
ghost use Rattle.std.specs.List.{IsDistinct};
ghost use Rattle.trace_checker.specs.Inner.CheckerState.{config_in, no_config_in, same_entry_by};
ghost use Rattle.trace_checker.specs.Inner.Known.{any_covers, at_most_one_in, commit_in, covers, elected_in, is_config_known};
ghost use Rattle.trace_checker.specs.Inner.Noted.{Continues, IsNoted};
ghost use Rattle.trace_checker.specs.Checker.{tests_when};
ghost use Rattle.safety_laws.specs.declared.counting.ConfigsCount.TheVariants.{WhenApplied};
ghost use Rattle.trace_checker.specs.Inner.Logs.{AreDistinct, AreLogs, IsExact, config_at, log_at};

use super::configs::Configs;
use super::leader::Leader;
use super::logs::Logs;
use crate::term::Term;
use safety_laws::counting::ConfigsCount;
use std::alloc::{AllocError, Global};
use std::marker::Model;

/// What a leader has committed.
#[derive(Clone, Copy)]
pub struct Commit {
    /// The rank of the leader's term.
    pub rank: u128,
    /// The leader has counted by the last config among so many first entries.
    pub counted_at: usize,
    /// The log of the committed entries.
    pub log: usize,
}

/// What leaders have committed, the newest last.
#[derive(Drop)]
pub struct Commits {
    list: Vec<Commit>,
    /// No commit has a log with a greater number. By it most questions about a log that no commit
    /// covers are answered without a search.
    greatest: usize,
}

impl Model for Commits {
    ghost use Rattle.std.specs.Prelude.{List};
    ghost use Rattle.trace_checker.specs.Inner.Known.{AreUpTo};
    ghost use Rattle.trace_checker.specs.declared.checker.known.Commit.{Commit};

    ghost Value = { List Commit };

    ghost view = { λ c. c.list.items };

    ghost invariant = { λ c. AreUpTo c.greatest c.list.items };
}

impl Commits {
    /// Returns no commits.
    pub fn new(alloc: Global) -> Self
        ensures { result ≡ [] }
    {
        Commits {
            list: Vec::new(alloc),
            greatest: 0,
        }
    }
}

/// Whether a commit covers all entries of a log, and is of an earlier term than this one, or of
/// this one and counted at a shorter length.
fn covers<T: Term, D: Copy + Ord>(
    logs: &Logs<T, D>,
    commit: &Commit,
    rank: u128,
    counted_at: usize,
    log: usize,
) -> bool
    ensures { IsExact (same_entry_by T.eq D.eq) → AreDistinct logs.now → result
        ≡ covers (same_entry_by T.eq D.eq) rank counted_at (log_at logs.now log)
        (commit_in logs.now commit.now) }
{
    if rank < commit.rank {
        return false;
    }
    if commit.rank == rank && counted_at <= commit.counted_at {
        return false;
    }
    logs.begins_with(commit.log, log)
}

/// Whether the last config of a log is known: the log has none, or a leader of an earlier term than
/// this one has committed the log, or one of this term, counting at a shorter length.
pub fn is_known<T: Term, D: Copy + Ord>(
    logs: &Logs<T, D>,
    commits: &Commits,
    rank: u128,
    counted_at: usize,
    log: usize,
) -> bool
    ensures { (holds : D → Bool) → IsExact (same_entry_by T.eq D.eq) → AreLogs holds logs.now →
        log < length logs.now.logs → result ≡ is_config_known (same_entry_by T.eq D.eq) holds rank
        counted_at (log_at logs.now log) (map (commit_in logs.now) commits.now) }
{
    if logs.config(log) == 0 {
        return true;
    }
    // A log begins only with logs of lesser numbers, so no commit covers this one.
    if commits.greatest < log && log <= logs.count() {
        return false;
    }
    is_covered(logs, &commits.list, rank, counted_at, log)
}

/// Whether a leader of an earlier term than this one has committed all entries of a log, or one of
/// this term, counting at a shorter length.
fn is_covered<T: Term, D: Copy + Ord>(
    logs: &Logs<T, D>,
    commits: &[Commit],
    rank: u128,
    counted_at: usize,
    log: usize,
) -> bool
    ensures { IsExact (same_entry_by T.eq D.eq) → AreDistinct logs.now → result
        ≡ any_covers (same_entry_by T.eq D.eq) rank counted_at (log_at logs.now log)
        (map (commit_in logs.now) commits.now) }
{
    // Most questions are about what was committed last.
    for i in (0..commits.len()).rev() {
        if covers(logs, &commits[i], rank, counted_at, log) {
            return true;
        }
    }
    false
}

/// Returns the log up to the config before the last config of a log, the empty log if there is
/// none.
pub fn config_before<T: Term, D: Copy + Ord>(logs: &Logs<T, D>, log: usize) -> usize
    ensures config { (holds : D → Bool) → AreLogs holds logs.now → log < length logs.now.logs →
        result ≤ config_at logs.now log }
    ensures at_most_one { (holds : D → Bool) → AreLogs holds logs.now → log < length logs.now.logs →
        (n : ℕ) → at_most_one_in holds (drop n (log_at logs.now log))
        ≡ nat_le (length (log_at logs.now result)) n }
    ensures is { (holds : D → Bool) → AreLogs holds logs.now → log < length logs.now.logs →
        log_at logs.now result ≡ take (length (log_at logs.now result)) (log_at logs.now log) }
{
    let last = logs.config(log);
    logs.config(logs.first(last, logs.len(last).saturating_sub(1)))
}

/// Whether at most one config follows the first entries of a log.
pub fn follows_at_most_one<T: Term, D: Copy + Ord>(
    logs: &Logs<T, D>,
    log: usize,
    len: usize,
) -> bool
    ensures { (holds : D → Bool) → AreLogs holds logs.now → log < length logs.now.logs → result
        ≡ at_most_one_in holds (drop len (log_at logs.now log)) }
{
    logs.len(config_before(logs, log)) <= len
}

/// Whether the config of a log is known to a candidate, and a quorum of it has voted for the
/// candidate.
fn is_elected_by<T: Term, N: Copy + Eq, D: Copy + Ord, C: Configs<N, D>>(
    configs: &C,
    logs: &Logs<T, D>,
    commits: &Commits,
    leader: &Leader<T, N>,
    config: usize,
) -> bool
    ensures { (holds : D → Bool) → IsExact (same_entry_by T.eq D.eq) →
        AreLogs (C.holds_config configs.now) logs.now → config < length logs.now.logs →
        IsDistinct N.eq leader.now.voters.items → result
        ≡ (is_config_known (same_entry_by T.eq D.eq) (C.holds_config configs.now)
        (T.rank leader.now.term) 0 (log_at logs.now config) (map (commit_in logs.now) commits.now)
        && C.has_quorum configs.now (effective_config (config_in (C.holds_config configs.now)) None
        (log_at logs.now config)) (is_member N.eq leader.now.voters.items)) }
{
    if !is_known(logs, commits, leader.term.rank(), 0, config) {
        return false;
    }
    configs.is_quorum(logs.config_content(config), &leader.voters)
}

/// Whether a candidate is elected: by the last config of its log or by the one before it, if that
/// one is known to it.
fn is_elected_by_known<T: Term, N: Copy + Eq, D: Copy + Ord, C: Configs<N, D>>(
    configs: &C,
    logs: &Logs<T, D>,
    commits: &Commits,
    leader: &Leader<T, N>,
) -> bool
    ensures { let k = tests_when WhenApplied T.Term N.PartialEq D.PartialEq C.Configs configs.now in
        IsExact (same_entry_by T.eq D.eq) → AreLogs (C.holds_config configs.now) logs.now →
        leader.now.log < length logs.now.logs → IsDistinct N.eq leader.now.voters.items → result
        ≡ elected_in k WhenApplied (map (commit_in logs.now) commits.now) leader.now.term
        (take leader.now.start (log_at logs.now leader.now.log))
        (is_member N.eq leader.now.voters.items) }
{
    let log = logs.first(leader.log, leader.start);
    if is_elected_by(configs, logs, commits, leader, logs.config(log)) {
        return true;
    }
    is_elected_by(configs, logs, commits, leader, config_before(logs, log))
}

/// Whether a candidate is elected by those who have voted for it.
pub fn is_elected<T: Term, N: Copy + Eq, D: Copy + Ord, C: Configs<N, D>>(
    counting: ConfigsCount,
    configs: &C,
    logs: &Logs<T, D>,
    commits: &Commits,
    leader: &Leader<T, N>,
) -> bool
    ensures { let k = tests_when counting T.Term N.PartialEq D.PartialEq C.Configs configs.now in
        IsExact (same_entry_by T.eq D.eq) → AreLogs (C.holds_config configs.now) logs.now →
        leader.now.log < length logs.now.logs → IsDistinct N.eq leader.now.voters.items → result
        ≡ elected_in k counting (map (commit_in logs.now) commits.now) leader.now.term
        (take leader.now.start (log_at logs.now leader.now.log))
        (is_member N.eq leader.now.voters.items) }
{
    match counting {
        ConfigsCount::WhenAppended => {
            let log = logs.first(leader.log, leader.start);
            configs.is_quorum(logs.config_content(log), &leader.voters)
        }
        ConfigsCount::WhenApplied => is_elected_by_known(configs, logs, commits, leader),
    }
}

/// Notes a commit. If it continues the newest one, it takes the place of that one.
///
/// # Errors
///
/// Out of memory. The commits are then as they were.
pub fn note_commit<T: Term, D: Copy + Ord>(
    logs: &Logs<T, D>,
    commits: &mut Commits,
    commit: Commit,
) -> Result<(), AllocError>
    ensures noted { OnOk result (IsNoted (same_entry_by T.eq D.eq) logs.now commits.old
        commit commits.new) }
    ensures err { OnErr result (commits.new ≡ commits.old) }
{
    note_in(logs, &mut commits.list, commit)?;
    commits.greatest = commits.greatest.max(commit.log);
    Ok(())
}

/// Notes a commit in a list. If it continues the newest one, it takes the place of that one.
///
/// # Errors
///
/// Out of memory. The list is then as it was.
fn note_in<T: Term, D: Copy + Ord>(
    logs: &Logs<T, D>,
    commits: &mut Vec<Commit>,
    commit: Commit,
) -> Result<(), AllocError>
    ensures noted { OnOk result (IsNoted (same_entry_by T.eq D.eq) logs.now commits.old.items commit
        commits.new.items) }
    ensures err { OnErr result (commits.new.items ≡ commits.old.items) }
{
    let count = commits.len();
    if 0 < count && continues(logs, &commits[count - 1], &commit) {
        commits[count - 1] = commit;
        return Ok(());
    }
    commits.push(commit)?;
    Ok(())
}

/// Whether a commit is of the same term as an earlier one, counted at the same length, and has all
/// its entries.
fn continues<T: Term, D: Copy + Ord>(logs: &Logs<T, D>, earlier: &Commit, commit: &Commit) -> bool
    ensures { IsTrue result → Continues (same_entry_by T.eq D.eq) logs.now earlier.now commit.now }
{
    if commit.rank != earlier.rank {
        return false;
    }
    if commit.counted_at != earlier.counted_at {
        return false;
    }
    logs.begins_with(commit.log, earlier.log)
}
