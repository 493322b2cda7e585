//! When two progresses are equal, and the text of what is compared.

use super::VecProgress;
use std::fmt;

/// The text has what is compared, and no more.
impl<ID: Copy + Ord + fmt::Debug, V: fmt::Debug, P: fmt::Debug, QS: fmt::Debug> fmt::Debug
    for VecProgress<ID, V, P, QS> {
    fn fmt<W: fmt::Write>(&self, f: &mut fmt::Formatter<W>) -> fmt::Result {
        f.debug_struct("VecProgress")
            .field("quorum_set", &self.quorum_set)
            .field("granted", &self.granted)
            .field("default_part", &self.default_part)
            .field("voter_count", &self.voter_count)
            .field("entries", &self.entries)
            .field("stat", &self.stat)
            .finish()
    }
}

impl<ID: Copy + Ord, V: PartialEq, P: Copy + Ord, QS: PartialEq> PartialEq
    for VecProgress<ID, V, P, QS> {
    ghost use Rattle.std.specs.Cmp.{on_per};
    ghost use Rattle.raft_progress.specs.progress.Equal.{equal};
    ghost use Rattle.raft_progress.specs.progress.EqualLawful.{equal-per};
    ghost use Rattle.raft_progress.specs.progress.VecProgress.{view};

    ghost eq = { λ a b. equal ID.eq V.eq P.eq QS.eq (view a) (view b) };

    ghost laws = { on_per view
        (equal-per ID.PartialEq.laws V.PartialEq.laws P.PartialEq.laws QS.PartialEq.laws) };

    fn eq(&self, other: &Self) -> bool {
        self.quorum_set == other.quorum_set
            && self.granted == other.granted
            && self.voter_count == other.voter_count
            && self.entries == other.entries
            && self.default_part == other.default_part
            && self.stat == other.stat
    }
}

impl<ID: Copy + Ord, V: Eq, P: Copy + Ord, QS: Eq> Eq for VecProgress<ID, V, P, QS> {
    ghost use Rattle.std.specs.Cmp.{on_equiv};
    ghost use Rattle.raft_progress.specs.progress.EqualLawful.{equal-equiv};
    ghost use Rattle.raft_progress.specs.progress.VecProgress.{view};

    ghost laws = { on_equiv view (equal-equiv ID.Eq.laws V.Eq.laws P.Eq.laws QS.Eq.laws) };
}
