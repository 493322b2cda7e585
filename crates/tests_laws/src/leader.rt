//! When a leader may commit, and when it may propose a membership.
ghost use Rattle.tests_laws.specs.Leader.{MayCommit, MayPropose};
ghost use Rattle.std.specs.List.{IsDistinct};
ghost use Rattle.std.specs.Prelude.{IsTrue};

use raft_members::quorum::QuorumSet;

/// Whether a leader may commit the first `n` entries of its log: `acked` are the servers that have
/// acknowledged them, `from` is the length of the log with which the leader was elected, and
/// `written` is the length of its log now, in which `voters` are in effect.
pub fn can_commit<ID: Copy + Ord, QS: QuorumSet<ID>>(
    from: usize,
    written: usize,
    voters: &QS,
    acked: &[ID],
    n: usize,
) -> bool
    ensures { IsDistinct ID.eq acked.now → IsTrue result →
        MayCommit ID.eq (QS.has_quorum voters.now) from written acked.now n }
{
    if n <= from || written < n {
        return false;
    }
    voters.is_quorum(acked)
}

/// Whether a leader may propose a membership: `committed` first entries of its log are committed,
/// the last entry that holds a membership is among the first `configs`, and it was elected with a
/// log of `from` entries.
pub fn can_propose(from: usize, committed: usize, configs: usize) -> bool
    ensures { IsTrue result → MayPropose from committed configs }
{
    if committed <= from || committed < configs {
        return false;
    }
    true
}

#[cfg(test)]
mod tests {
    use super::{can_commit, can_propose};
    use std::test::Fail;

    #[test]
    fn own_entries_are_committed_by_a_majority(rt: HostRuntime) -> Result<(), Fail> {
        let voters = vec![in rt.alloc(); 1u64, 2, 3]?;
        assert!(rt; can_commit(1, 3, &voters, &[1, 2], 2));
        assert!(rt; !can_commit(1, 3, &voters, &[2], 2));
        assert!(rt; !can_commit(1, 3, &voters, &[1, 2], 1));
        Ok(())
    }

    #[test]
    fn memberships_follow_an_own_commit(rt: HostRuntime) -> Result<(), Fail> {
        assert!(rt; can_propose(1, 2, 2));
        assert!(rt; !can_propose(2, 2, 1));
        assert!(rt; !can_propose(1, 2, 3));
        Ok(())
    }
}
