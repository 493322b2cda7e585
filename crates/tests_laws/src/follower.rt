//! What a follower does with an append request, and when it grants a vote.
ghost use Rattle.safety_laws.specs.AppendEntries.{after_append_entries};
ghost use Rattle.safety_laws.specs.Log.{last_term};
ghost use Rattle.tests_laws.specs.Follower.{entries_of, number, IsCutAtConflict, IsShared, MayTake, MayVote};
ghost use Rattle.std.specs.Prelude.{◌≡◌, ◌≤◌, ◌↔◌, IsTrue, OnOk, OnErr, length};

use safety_laws::laws::consistency_check_suffices;
use std::alloc::AllocError;

/// An entry of a log.
#[derive(Clone, Copy)]
pub struct LogEntry {
    /// The term of the leader that wrote it.
    pub term: u64,
    /// The content.
    pub content: u64,
}

/// Returns how many of these entries a log has after its first `from`, compared by term.
fn shared(log: &[LogEntry], from: usize, entries: &[LogEntry]) -> usize
    requires { from ≤ length log.now }
    ensures { IsShared log.now from entries.now result }
{
    for (i, entry) in entries.iter().enumerate() {
        if i >= log.len() - from || log[from + i].term != entry.term {
            return i;
        }
    }
    entries.len()
}

/// Appends a leader's entries, which follow its first `from`: entries that the log has stay, and at
/// the first conflict the log is truncated.
///
/// If memory is out, the log is as it was or truncated at that conflict, and nothing is
/// acknowledged.
pub fn append(log: &mut Vec<LogEntry>, from: usize, entries: &[LogEntry]) -> Result<(), AllocError>
    requires { from ≤ length log.old.items }
    ensures ok { OnOk result (entries_of log.new.items
        ≡ after_append_entries number from (entries_of log.old.items) (entries_of entries.now)) }
    ensures err { OnErr result (IsCutAtConflict log.old.items from entries.now log.new.items) }
{
    let kept = shared(log, from, entries);
    if kept < entries.len() {
        log.truncate(from + kept);
        log.extend_from_slice(&entries[kept..])?;
    }
    Ok(())
}

/// Appends a leader's entries and so keeps the rules: if an elected leader has sent them, and the
/// log has the term of the entry before them, the server may append them and acknowledge them.
pub fn take_entries(
    log: &mut Vec<LogEntry>,
    from: usize,
    entries: &[LogEntry],
) -> Result<(), AllocError>
    requires { from ≤ length log.old.items }
    ensures { OnOk result (MayTake (entries_of log.old.items) from (entries_of entries.now)
        (entries_of log.new.items)) }
{
    consistency_check_suffices::<u64, u64, u64>();
    append(log, from, entries)
}

/// Returns the term of the last entry, 0 for an empty log.
fn last_term_of(log: &[LogEntry]) -> u64
    ensures { result ≡ last_term number (entries_of log.now) }
{
    let len = log.len();
    if len == 0 { 0 } else { log[len - 1].term }
}

/// Whether a server that has reached a term and has this log may grant its vote in the term
/// `asked`, to a candidate whose log has `len` entries and ends in the term `last`.
pub fn may_vote(term: u64, log: &[LogEntry], asked: u64, last: u64, len: usize) -> bool
    ensures { IsTrue result ↔ MayVote term (entries_of log.now) asked last len }
{
    let own = last_term_of(log);
    term < asked && (own < last || (own == last && log.len() <= len))
}

#[cfg(test)]
mod tests {
    use super::{LogEntry, append, may_vote};
    use std::test::Fail;

    fn is_overwritten(log: &[LogEntry]) -> bool {
        log.len() == 2 && log[0].term == 1 && log[1].term == 3
    }

    #[test]
    fn conflict_is_overwritten(rt: HostRuntime) -> Result<(), Fail> {
        let first = LogEntry {
            term: 1,
            content: 10,
        };
        let second = LogEntry {
            term: 2,
            content: 20,
        };
        let mut log = vec![in rt.alloc(); first, second]?;
        append(
            &mut log,
            1,
            &[LogEntry {
                term: 3,
                content: 30,
            }],
        )?;
        assert!(rt; is_overwritten(&log));
        Ok(())
    }

    // the term that is reached and the term that is asked for, the candidate's last term and
    // length, and whether the vote may be granted by a server whose log is one entry of term 2
    const VOTES: [(u64, u64, u64, usize, bool); 5] = [
        (2, 3, 2, 1, true),
        (2, 3, 3, 0, true),
        (3, 3, 2, 1, false),
        (2, 3, 2, 0, false),
        (2, 3, 1, 5, false),
    ];

    fn are_by_rule() -> bool {
        let log = [LogEntry {
            term: 2,
            content: 0,
        }];
        VOTES.iter().all(|&(term, asked, last, len, vote)| may_vote(term, &log, asked, last, len)
            == vote)
    }

    #[test]
    fn votes_are_by_rule(rt: HostRuntime) -> Result<(), Fail> {
        assert!(rt; are_by_rule());
        Ok(())
    }
}
