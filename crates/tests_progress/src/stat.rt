//! Lives of a progress: what is granted, the order of the entries, and what is counted. The quorum
//! tests that are counted are those that a list of voters was asked.
ghost use Rattle.raft_members.specs.quorum.Majority.{is_majority};
ghost use Rattle.raft_members.specs.quorum.MajorityLawful.{is_majority-superset};
ghost use Rattle.std.specs.Prelude.{nat_eq};
ghost use Rattle.std.specs.Set.{is_member};

use crate::support::progress_rows::{Quorums, play, play_all};
use raft_members::quorum::QuorumSet;
use std::alloc::{AllocError, Global};
use std::cell::Cell;
use std::test::Fail;
use tests_support::words::{list, number};

/// A list of voters that counts how often it is asked. It writes the two calls of a quorum set that
/// have no body, and nothing else.
#[derive(Drop)]
struct Asked {
    voters: Vec<u64>,
    calls: Cell<u64>,
}

impl QuorumSet<u64> for Asked {
    ghost has_quorum = { λ a s. is_majority nat_eq a.voters.items s };

    ghost is_voter = { λ a. is_member nat_eq a.voters.items };

    ghost superset = { λ a. is_majority-superset nat_eq a.voters.items };

    fn is_quorum(&self, ids: &[u64]) -> bool {
        self.calls.set(self.calls.get().saturating_add(1));
        self.voters.is_quorum(ids)
    }

    fn ids(&self, alloc: Global) -> Result<Vec<u64>, AllocError> {
        self.voters.ids(alloc)
    }
}

impl Quorums for Asked {
    fn of_word(alloc: Global, word: &str) -> Result<Self, AllocError> {
        let voters = match word.split_once(':') {
            Some((first, end)) => (number(first)..number(end)).collect(alloc)?,
            None => list(alloc, word)?,
        };
        Ok(Asked {
            voters,
            calls: Cell::new(0),
        })
    }

    fn calls(&self) -> Option<u64> {
        Some(self.calls.get())
    }
}

/// The updates of the first run: of voters 0 to 4 and a learner 6.
pub const FIRST_RUN: &str = "update 6 9 0; update 1 2 0; update 2 3 0; update 3 1 1; update 4 5 2; \
    update 0 4 3; update 3 2 3; update 3 3 3; update 1 4 4; update 9 1 unknown:4";

/// Lives. The first row of each ends with the number of binary digits of the number of voters. In
/// an upgrade each old id counts an update, and each voter that rises past what was granted by then
/// a move.
const LIVES: &str = "
0,1,2,3,4 - 0 3; update 0 5 0; update 1 3 0; update 2 4 3; update 2 10 3; update 3 6 5; counts 5 5
0,1,2,3,4 - 0 3; update 1 2 0; update 2 3 0; update 1 3 0; update 4 8 3; update 0 5 3; \
    entries 4=8,0=5,2=3,1=3,3=0
0,1,2,3,4 6,7 0 3; entries 0=0,1=0,2=0,3=0,4=0,6=0,7=0
0,1,2,3,4 6,7 0 3; update 7 7 0; update 3 3 0; update 1 1 0; \
    entries 3=3,1=1,0=0,2=0,4=0,6=0,7=7
0,1,2,3,4 6 0 3; update 6 6 0; entries 0=0,1=0,2=0,3=0,4=0,6=6
0,1,2,3,4 6 0 3; update 6 6 0; update 4 4 0; entries 4=4,0=0,1=0,2=0,3=0,6=6
0,1,2 7 0 2; increase 0 5 0; increase 0 4 0; increase 1 6 5; increase 1 6 5; \
    increase 9 6 unknown:5; entries 1=6,0=5,2=0,7=0; counts 5 2
0,1,2 - 0 2; update 0 5 0; update 1 6 5; upgrade 2,3,4 1 0 0; counts 5 2; \
    entries 2=0,3=0,4=0,1=6
0,1,2 5 0 2; update 0 5 0; update 1 6 5; update 5 9 5; upgrade 0,1,2 5 1 below:2; \
    upgrade 0,1,2 5,5 1 bad; upgrade 0,1,2 2 0 bad; entries 1=6,0=5,2=0,5=9; counts 3 2
1,2,3 - 0 2; update 1 4 0; update 2 6 4; update 2 5 falls; update 7 1 unknown:4; \
    entries 2=6,1=4,3=0; counts 3 2
";

// An upgrade that always lacks memory fails here, and so does a replay.
/// Example progress 1. Voters 0 to 4, learner 6, ten updates: granted is 0, 0, 0, 1, 2, 3, 3,
/// 3, 4, and then the id is unknown.
/// Example progress 2. Voters 0 to 4, by updates and by replays: granted, the order of the
/// entries, the updates, the moves and the quorum tests. There are at most as many tests as the
/// number of voters has binary digits.
/// Example progress 5. After three updates an upgrade to the same voters: with default 1 the
/// reply is `BelowDefault(2)`, with learners 5, 5 it is `BadLearners`.
/// Example progress 6. Voters 0 to 2, updates (0, 5), (1, 6), then voters 2 to 4 with learner
/// 1: granted is 0, 5, 0. Id 1 keeps 6.
/// Example progress 7. Voters 1 to 3, updates (1, 4), (2, 6), (2, 5), (7, 1): granted 0,
/// granted 4, would fall, unknown id with granted 4.
#[test]
fn lives_are_as_worked(rt: HostRuntime) -> Result<(), Fail> {
    play::<Asked>(&rt, rt.alloc(), "0,1,2,3,4 6 0 3", FIRST_RUN);
    play_all::<Asked>(&rt, rt.alloc(), LIVES);
    Ok(())
}

/// Example progress 3. Voters 0 to 99, updates (i, i + 1) for i from 0 to 50: granted is 0
/// fifty times, then 1.
#[test]
fn a_hundred_voters(rt: HostRuntime) -> Result<(), Fail> {
    let mut rows = String::new(rt.alloc());
    for i in 0..51u64 {
        let row = format!(in rt.alloc(); "update {i} {} {};", i + 1, i / 50)?;
        rows.push_str(&row)?;
    }
    rows.push_str("counts 51 51")?;
    play::<Asked>(&rt, rt.alloc(), "0:100 - 0 7", &rows);
    Ok(())
}
