//! Which rule an event breaks. The checker tests before whether the leader is elected.
ghost use Rattle.std.specs.Prelude.{◌≡◌, ◌⊎◌, ◌<◌, ◌≤◌, ◌++◌, ℕ, Bool, IsNone, None, drop, length, map, take};
ghost use Rattle.safety_laws.specs.declared.counting.ConfigsCount.TheVariants.{WhenApplied};
ghost use Rattle.safety_laws.specs.Log.{last_term};
ghost use Rattle.trace_checker.specs.Inner.Kept.{leader_in, server_in};
ghost use Rattle.trace_checker.specs.Inner.Known.{at_most_one_in, commit_in, is_config_known};
ghost use Rattle.trace_checker.specs.Inner.Logs.{AreDistinct, AreLogs, IsExact, log_at};
ghost use Rattle.trace_checker.specs.Inner.CheckerState.{ack_rule, append_rule, commit_rule, config_rule, counted_rule, grant_rule, knows, restart_rule, same_entry_by, up_to_date_by, write_rule, apply_rule};

use super::configs::Configs;
use super::counting::is_applied;
use super::known::{Commits, follows_at_most_one, is_known};
use super::leader::Leader;
use super::logs::Logs;
use super::server::Server;
use crate::entry::Entry;
use crate::term::Term;
use safety_laws::counting::ConfigsCount;
use safety_laws::rule::Rule;

/// Returns the rule that a vote for a candidate breaks, if there is one.
pub fn grant_rule<T: Term, N: Copy + Eq, D: Copy + Ord>(
    logs: &Logs<T, D>,
    server: &Server<N>,
    leader: &Leader<T, N>,
    id: N,
    rank: u128,
    candidate: N,
) -> Option<Rule>
    ensures { result ≡ grant_rule T.rank N.eq (server_in logs.now server.now)
        (leader_in logs.now leader.now) id rank candidate }
{
    if rank < server.term() || rank <= server.voted {
        return Some(Rule::PassedTerm);
    }
    if candidate == id {
        return Some(Rule::OwnCandidate);
    }
    if !is_up_to_date(logs, logs.first(leader.log, leader.start), server.log) {
        return Some(Rule::CandidateBehind);
    }
    None
}

/// Whether a log is at least as up to date as another.
fn is_up_to_date<T: Term, D: Copy + Ord>(logs: &Logs<T, D>, log: usize, other: usize) -> bool
    ensures { result ≡ up_to_date_by T.rank (log_at logs.now log) (log_at logs.now other) }
{
    let last = last_term(logs, log);
    let other_last = last_term(logs, other);
    other_last < last || other_last == last && logs.len(other) <= logs.len(log)
}

/// Returns the rank of the term of the last entry, 0 for an empty log.
fn last_term<T: Term, D: Copy + Ord>(logs: &Logs<T, D>, log: usize) -> u128
    ensures { result ≡ last_term T.rank (log_at logs.now log) }
{
    match logs.last(log) {
        Some(entry) => entry.term.rank(),
        None => 0,
    }
}

/// Returns the rule that a server breaks by keeping so many entries and appending these, if there
/// is one.
pub fn append_rule<T: Term, N: Copy + Eq, D: Copy + Ord>(
    logs: &Logs<T, D>,
    server: &Server<N>,
    leader: &Leader<T, N>,
    rank: u128,
    keep: usize,
    entries: &[Entry<T, D>],
) -> Option<Rule>
    ensures rule { IsExact (same_entry_by T.eq D.eq) → AreDistinct logs.now → result
        ≡ append_rule (same_entry_by T.eq D.eq) (server_in logs.now server.now)
        (leader_in logs.now leader.now) rank keep entries.now }
    ensures fits { IsNone result → keep ≤ length (log_at logs.now server.now.log) }
{
    if rank < server.term() {
        return Some(Rule::PassedTerm);
    }
    if logs.len(server.log) < keep {
        return Some(Rule::MissingEntries);
    }
    let matching = logs.common_len(server.log, leader.log);
    let old = logs.common_with(server.log, keep, entries);
    if old < matching.saturating_sub(keep) {
        return Some(Rule::DropsMatching);
    }
    if old == entries.len() {
        return None;
    }
    if keep <= matching && logs.common_with(leader.log, keep, entries) == entries.len() {
        return None;
    }
    Some(Rule::ForeignEntries)
}

/// Returns the log of a server that keeps so many entries and appends these, if this breaks no
/// rule. It is a prefix of the server's or of the leader's log.
pub fn next_log<T: Term, N: Copy + Eq, D: Copy + Ord>(
    logs: &Logs<T, D>,
    server: &Server<N>,
    leader: &Leader<T, N>,
    keep: usize,
    entries: &[Entry<T, D>],
) -> usize
    ensures log { (rank : ℕ) → IsExact (same_entry_by T.eq D.eq) →
        append_rule (same_entry_by T.eq D.eq) (server_in logs.now server.now)
        (leader_in logs.now leader.now) rank keep entries.now ≡ None →
        log_at logs.now result ≡ take keep (log_at logs.now server.now.log) ++ entries.now }
    ensures earlier { (result ≤ server.now.log) ⊎ (result ≤ leader.now.log) }
{
    let old = logs.common_with(server.log, keep, entries);
    if old == entries.len() {
        return logs.first(server.log, keep.saturating_add(old));
    }
    let new = logs.common_with(leader.log, keep, entries);
    logs.first(leader.log, keep.saturating_add(new))
}

/// Returns the rule that an acknowledgement breaks, if there is one.
pub fn ack_rule<T: Term, N: Copy + Eq, D: Copy + Ord>(
    logs: &Logs<T, D>,
    server: &Server<N>,
    leader: &Leader<T, N>,
    rank: u128,
    len: usize,
) -> Option<Rule>
    ensures { IsExact (same_entry_by T.eq D.eq) → AreDistinct logs.now → result
        ≡ ack_rule (same_entry_by T.eq D.eq) (server_in logs.now server.now)
        (leader_in logs.now leader.now) rank len }
{
    if server.term() < rank {
        return Some(Rule::TermNotReached);
    }
    if logs.len(leader.log) < len {
        return Some(Rule::NotWritten);
    }
    if !logs.begins_with(server.log, logs.first(leader.log, len)) {
        return Some(Rule::NotKept);
    }
    if server.kept_since(rank, len) < len {
        return Some(Rule::NotKept);
    }
    None
}

/// Returns the rule that a server breaks by applying entries, if there is one besides that they are
/// committed.
pub fn apply_rule<T: Term, N: Copy + Eq, D: Copy + Ord>(
    logs: &Logs<T, D>,
    server: &Server<N>,
    leader: &Leader<T, N>,
    len: usize,
) -> Option<Rule>
    ensures { IsExact (same_entry_by T.eq D.eq) → AreDistinct logs.now → result
        ≡ apply_rule (same_entry_by T.eq D.eq) (server_in logs.now server.now)
        (leader_in logs.now leader.now) len }
{
    if logs.len(leader.log) < len {
        return Some(Rule::NotWritten);
    }
    if !logs.begins_with(server.log, logs.first(leader.log, len)) {
        return Some(Rule::NotInLog);
    }
    None
}

/// Returns the rule that a restart with so many entries breaks, if there is one.
pub fn restart_rule<T: Term, N: Copy + Eq, D: Copy + Ord>(
    logs: &Logs<T, D>,
    server: &Server<N>,
    len: usize,
) -> Option<Rule>
    ensures { result ≡ restart_rule (server_in logs.now server.now) len }
{
    if len < server.durable {
        return Some(Rule::LostAcked);
    }
    if logs.len(server.log) < len {
        return Some(Rule::MissingEntries);
    }
    None
}

/// Returns the rule that a leader breaks by writing an entry, if there is one.
pub fn write_rule<T: Term, N: Copy + Eq, D: Copy + Ord, C: Configs<N, D>>(
    counting: ConfigsCount,
    configs: &C,
    logs: &Logs<T, D>,
    leader: &Leader<T, N>,
    term: T,
    entry: Entry<T, D>,
) -> Option<Rule>
    ensures { AreLogs (C.holds_config configs.now) logs.now → leader.now.log < length logs.now.logs
        → result ≡ write_rule counting T.eq (C.holds_config configs.now) (C.intersects configs.now)
        (leader_in logs.now leader.now) term entry }
{
    if entry.term != term {
        return Some(Rule::OtherTerm);
    }
    config_rule(counting, configs, logs, leader, entry.content)
}

/// Returns the rule that a leader breaks by proposing the config of a content, if it holds one and
/// there is such a rule.
fn config_rule<T: Term, N: Copy + Eq, D: Copy + Ord, C: Configs<N, D>>(
    counting: ConfigsCount,
    configs: &C,
    logs: &Logs<T, D>,
    leader: &Leader<T, N>,
    content: D,
) -> Option<Rule>
    ensures { AreLogs (C.holds_config configs.now) logs.now → leader.now.log < length logs.now.logs
        → result ≡ config_rule counting (C.holds_config configs.now) (C.intersects configs.now)
        (leader_in logs.now leader.now) content }
{
    if !configs.holds_config(content) {
        return None;
    }
    let config = logs.config_content(leader.log);
    if !configs.do_intersect(config, Some(content)) {
        return Some(Rule::ApartConfigs);
    }
    if !configs.do_intersect(Some(content), Some(content)) {
        return Some(Rule::ApartQuorums);
    }
    if is_applied(counting) {
        return None;
    }
    match leader.committed {
        Some(len) if logs.len(logs.config(leader.log)) <= len => None,
        _ => Some(Rule::EarlyConfig),
    }
}

/// Returns the rule that a commit breaks, if there is one besides the acknowledgements of a quorum.
pub fn commit_rule<T: Term, N: Copy + Eq, D: Copy + Ord>(
    counting: ConfigsCount,
    logs: &Logs<T, D>,
    commits: &Commits,
    leader: &Leader<T, N>,
    len: usize,
    counted_at: usize,
) -> Option<Rule>
    ensures { (holds : D → Bool) → IsExact (same_entry_by T.eq D.eq) → AreLogs holds logs.now →
        leader.now.log < length logs.now.logs → result ≡ commit_rule counting
        (leader_in logs.now leader.now) len counted_at (is_config_known (same_entry_by T.eq D.eq)
        holds (T.rank leader.now.term) counted_at
        (take counted_at (log_at logs.now leader.now.log)) (map (commit_in logs.now) commits.now))
        (at_most_one_in holds (drop counted_at (take len
        (log_at logs.now leader.now.log)))) None }
{
    if len <= leader.start {
        return Some(Rule::EarlierTerm);
    }
    if is_applied(counting) {
        return known_commit_rule(logs, commits, leader, len, counted_at);
    }
    if counted_at < len {
        return Some(Rule::CountedEarly);
    }
    if logs.len(leader.log) < counted_at {
        return Some(Rule::NotWritten);
    }
    None
}

/// Returns the rule that a commit breaks, if configs count once they are applied and there is one
/// besides the acknowledgements of a quorum.
fn known_commit_rule<T: Term, N: Copy + Eq, D: Copy + Ord>(
    logs: &Logs<T, D>,
    commits: &Commits,
    leader: &Leader<T, N>,
    len: usize,
    counted_at: usize,
) -> Option<Rule>
    ensures { (holds : D → Bool) → IsExact (same_entry_by T.eq D.eq) → AreLogs holds logs.now →
        leader.now.log < length logs.now.logs → result ≡ counted_rule WhenApplied
        (leader_in logs.now leader.now) len counted_at (is_config_known (same_entry_by T.eq D.eq)
        holds (T.rank leader.now.term) counted_at
        (take counted_at (log_at logs.now leader.now.log)) (map (commit_in logs.now) commits.now))
        (at_most_one_in holds (drop counted_at (take len
        (log_at logs.now leader.now.log)))) None }
{
    if len < counted_at {
        return Some(Rule::CountedLate);
    }
    if logs.len(leader.log) < len {
        return Some(Rule::NotWritten);
    }
    let rank = leader.term.rank();
    let counted = logs.first(leader.log, counted_at);
    if !is_known(logs, commits, rank, counted_at, counted) {
        return Some(Rule::UnknownConfig);
    }
    if !follows_at_most_one(logs, logs.first(leader.log, len), counted_at) {
        return Some(Rule::ConfigsFollow);
    }
    None
}

/// Whether a leader of a term of at most this rank has committed these entries.
pub fn knows<T: Term, N: Copy + Eq, D: Copy + Ord>(
    logs: &Logs<T, D>,
    leader: &Leader<T, N>,
    rank: u128,
    prefix: usize,
) -> bool
    ensures { IsExact (same_entry_by T.eq D.eq) → AreDistinct logs.now → result
        ≡ knows T.rank (same_entry_by T.eq D.eq) rank (log_at logs.now prefix)
        (leader_in logs.now leader.now) }
{
    match leader.committed {
        Some(len) => {
            if rank < leader.term.rank() {
                return false;
            }
            if len < logs.len(prefix) {
                return false;
            }
            logs.begins_with(logs.first(leader.log, len), prefix)
        }
        None => false,
    }
}
