//! The text of a progress.

use super::VecProgress;
use crate::progress::Progress;
use crate::progress::part::ProgressPart;
use raft_members::quorum::QuorumSet;
use std::fmt;
use std::fmt::Display;

impl<
    ID: Copy + Ord + Display,
    V: ProgressPart<P> + Display,
    P: Copy + Ord,
    QS: QuorumSet<ID>,
> Display for VecProgress<ID, V, P, QS> {
    fn fmt<W: fmt::Write>(&self, f: &mut fmt::Formatter<W>) -> fmt::Result {
        f.write_str("{")?;
        let mut is_first = true;
        for (id, value) in self.iter() {
            if !is_first {
                f.write_str(", ")?;
            }
            write!(f, "{id}: {value}")?;
            is_first = false;
        }
        f.write_str("}")
    }
}
