//! The greatest part that a quorum has reached, recomputed from all voters.
ghost use Rattle.std.specs.Prelude.{◌≡◌, ◌≤◌, [], false, length, filter, take};
ghost use Rattle.std.specs.Option.{ForSome};
ghost use Rattle.std.specs.List.{IsDistinct};
ghost use Rattle.std.specs.Map.{keys_of};
ghost use Rattle.raft_progress.specs.Inner.Recount.{IsGreatest, at_least, reaches};

use super::conditions::is_below_bound;
use super::part::ProgressPart;
use super::positions::FEW;
use raft_members::quorum::QuorumSet;

/// Writes the ids of the voters whose part is at least `least` to the beginning of the scratch
/// space `scratch`. Returns their number.
fn gather<ID: Copy, V: ProgressPart<P>, P: Copy + Ord>(
    voters: &[(ID, V)],
    least: P,
    scratch: &mut [ID],
) -> usize
    requires { length voters.now ≤ length scratch.old }
    ensures within { result ≤ length voters.now }
    ensures prefix { take result scratch.new ≡
        keys_of (filter (at_least P.cmp V.part_of least) voters.now) }
{
    let mut n = 0;
    for entry in voters {
        if least.cmp(&entry.1.part()).is_le() {
            scratch[n] = entry.0;
            n += 1;
        }
    }
    n
}

/// Whether the voters with a part of at least `part` are a quorum.
// Inlined, because a call would add a tenth to the test of a few voters.
#[inline(always)]
fn is_reached<ID: Copy + Ord, V: ProgressPart<P>, P: Copy + Ord, QS: QuorumSet<ID>>(
    quorum_set: &QS,
    voters: &[(ID, V)],
    part: P,
    scratch: &mut [ID],
) -> bool
    requires scratch { length voters.now ≤ length scratch.old }
    requires distinct { IsDistinct ID.eq (keys_of voters.now) }
    ensures { result ≡ reaches ID.eq P.cmp V.part_of
        (QS.has_quorum quorum_set.now) voters.now part }
{
    let n = gather(voters, part, scratch);
    quorum_set.is_quorum(&scratch[..n])
}

/// Returns a lower bound of what `count` returns: the part of a voter that equals `granted`, if
/// there are many voters, a quorum has reached that part, and it exceeds the default's part.
/// Otherwise it returns the default's part.
#[inline(always)]
fn lower_bound<ID: Copy + Ord, V: ProgressPart<P>, P: Copy + Ord, QS: QuorumSet<ID>>(
    quorum_set: &QS,
    voters: &[(ID, V)],
    default_part: P,
    granted: P,
    scratch: &mut [ID],
) -> P
    requires scratch { length voters.now ≤ length scratch.old }
    requires distinct { IsDistinct ID.eq (keys_of voters.now) }
    ensures { IsGreatest ID.eq P.cmp V.part_of (QS.has_quorum quorum_set.now)
        voters.now [] default_part result }
{
    if voters.len() <= FEW {
        return default_part;
    }
    for entry in voters {
        let part = entry.1.part();
        if granted.cmp(&part).is_eq() {
            if default_part.cmp(&part).is_lt() && is_reached(quorum_set, voters, part, scratch) {
                return part;
            }
            return default_part;
        }
    }
    default_part
}

/// Returns the least part of the voters above `granted`.
// It has no contract, because any part may be tested in its place.
fn least_above<ID: Copy + Ord, V: ProgressPart<P>, P: Copy + Ord>(
    voters: &[(ID, V)],
    granted: P,
) -> Option<P> {
    let mut least: Option<P> = None;
    for entry in voters {
        let part = entry.1.part();
        if granted.cmp(&part).is_lt() && is_below_bound(part, least) {
            least = Some(part);
        }
    }
    least
}

/// Returns an upper bound of what `count` returns: the least part above `granted`, if there are
/// many voters and no quorum has reached that part.
#[inline(always)]
fn upper_bound<ID: Copy + Ord, V: ProgressPart<P>, P: Copy + Ord, QS: QuorumSet<ID>>(
    quorum_set: &QS,
    voters: &[(ID, V)],
    granted: P,
    scratch: &mut [ID],
) -> Option<P>
    requires scratch { length voters.now ≤ length scratch.old }
    requires distinct { IsDistinct ID.eq (keys_of voters.now) }
    ensures { ForSome result (λ part. reaches ID.eq P.cmp V.part_of
        (QS.has_quorum quorum_set.now) voters.now part ≡ false) }
{
    if voters.len() <= FEW {
        return None;
    }
    match least_above(voters, granted) {
        Some(part) => {
            if is_reached(quorum_set, voters, part, scratch) {
                None
            } else {
                Some(part)
            }
        }
        None => None,
    }
}

/// Returns the greatest of the default's part and of the voters' parts that a quorum has reached.
// If there are many voters, `granted` is tested first, and the least part above it. If `granted` is
// the greatest part, as it is in a progress in order, no other part is tested, because each greater
// one is reached by fewer voters.
pub(crate) fn count<ID: Copy + Ord, V: ProgressPart<P>, P: Copy + Ord, QS: QuorumSet<ID>>(
    quorum_set: &QS,
    voters: &[(ID, V)],
    default_part: P,
    granted: P,
    scratch: &mut [ID],
) -> P
    requires scratch { length voters.now ≤ length scratch.old }
    requires distinct { IsDistinct ID.eq (keys_of voters.now) }
    ensures { IsGreatest ID.eq P.cmp V.part_of (QS.has_quorum quorum_set.now)
        voters.now voters.now default_part result }
{
    let mut best = lower_bound(quorum_set, voters, default_part, granted, scratch);
    let unreached = upper_bound(quorum_set, voters, granted, scratch);
    for entry in voters {
        let part = entry.1.part();
        if best.cmp(&part).is_lt()
            && is_below_bound(part, unreached)
            && is_reached(quorum_set, voters, part, scratch)
        {
            best = part;
        }
    }
    best
}
