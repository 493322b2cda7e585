//! Log ids by their numbers, and memberships at them, over any committed leader.
ghost use Rattle.std.specs.Prelude.{◌≡◌};

use raft_base::LogIdOf;
use raft_members::EffectiveMembershipOf;
use std::alloc::{AllocError, Global};
use std::rc::Rc;
use tests_support::plain_log::Numbered;
use tests_support::words::{members, number};

/// A leader by its number, and an index.
pub type Row = Option<(u64, u64)>;

/// The row of a word, as of `2.9`, and none of `-`.
pub fn row(word: &str) -> Row {
    let (leader, index) = word.split_once('.')?;
    Some((number(leader), number(index)))
}

/// A log id of the leader of a number.
pub fn log_id<C: Numbered>(leader: u64, index: u64) -> LogIdOf<C>
    ensures { result.index ≡ index }
{
    LogIdOf::new(C::numbered(leader), index)
}

/// The log id of a row.
pub fn id<C: Numbered>(row: Row) -> Option<LogIdOf<C>> {
    match row {
        Some((leader, index)) => Some(log_id(leader, index)),
        None => None,
    }
}

/// An effective membership with `u64` ids and nodes.
pub type Effective<C> = EffectiveMembershipOf<C, u64, u64>;

/// A membership of the voters of a word at a log id, with the nodes 1=>4, 2=>5 and 3=>6.
pub fn effective<C: Numbered + Drop>(
    alloc: Global,
    log_id: Row,
    voters: &str,
) -> Result<Rc<Effective<C>>, AllocError> {
    EffectiveMembershipOf::new_arc(id(log_id), members(alloc, voters, "1=4,2=5,3=6")?)
}
