//! How a leader is shown.

use super::Leader;
use raft_base::{DisplayOption, LogIdOf, Node, NodeId};
use raft_progress::{Progress, ProgressEntryOf};
use std::fmt;

/// How many cells the bar of a member has at most.
const CELLS: u64 = 16;

/// The first line has the leader and the last log id that a quorum has. Each member has a further
/// line, the voters first, with a bar and with what is known of the member.
///
/// A bar goes from the first index to the greatest searching end: `#` is what the member matches,
/// `?` what is searched, and `.` what it does not have.
// Handwritten, because each member has a line of its own.
impl<NID: NodeId, N: Node, C: Ord + Copy + fmt::Display> fmt::Display for Leader<NID, N, C> {
    fn fmt<W: fmt::Write>(&self, f: &mut fmt::Formatter<W>) -> fmt::Result {
        let Leader { id, leader_id, .. } = self;
        let granted = DisplayOption(self.followers.progress().granted());
        write!(f, "leader {id} of {leader_id}, granted {granted}")?;
        let mut end = 0;
        for (_, entry) in self.followers.progress().iter() {
            end = entry.searching_end.max(end);
        }
        let width = end / CELLS + 1;
        for (id, entry) in self.followers.progress().iter() {
            let bar = Bar {
                matched: end_of(entry.matching) / width,
                searched: entry.searching_end / width,
                cells: end / width,
            };
            write!(f, "\n  {id} {bar} {entry}")?;
        }
        Ok(())
    }
}

/// The bar of a member.
#[derive(Clone, Copy)]
struct Bar {
    matched: u64,
    searched: u64,
    cells: u64,
}

impl fmt::Display for Bar {
    fn fmt<W: fmt::Write>(&self, f: &mut fmt::Formatter<W>) -> fmt::Result {
        for cell in 0..self.cells {
            f.write_str(if cell < self.matched {
                "#"
            } else if cell < self.searched {
                "?"
            } else {
                "."
            })?;
        }
        Ok(())
    }
}

/// Returns the index after a log id, at most the greatest index, and 0 if there is no log id.
fn end_of<C: Copy>(log_id: Option<LogIdOf<C>>) -> u64 {
    match log_id {
        Some(found) => found.index.saturating_add(1),
        None => 0,
    }
}
