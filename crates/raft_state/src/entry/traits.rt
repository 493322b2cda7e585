//! The traits of log entries, for a caller's own entry types.
//!
//! The traits are generic in the type of memberships, which is `Membership<NID, N>` for the entries
//! here.
ghost use Rattle.std.specs.Prelude.{◌≡◌, Bool, None, Some, false, true};
ghost use Rattle.std.specs.declared.option.Option.{Option};
ghost use Rattle.std.specs.Option.{option_copied};

use raft_base::{LogIdOf, RaftLogId};
use std::fmt::{Debug, Display};

/// A value that may be blank, and may store a membership.
pub trait RaftPayload<M> {
    /// Whether a value is blank.
    ghost blank: { Self → Bool };

    /// The membership that a value stores, if there is one.
    ghost membership: { Self → Option M };

    /// Whether the value is blank.
    fn is_blank(&self) -> bool
        ensures { result ≡ blank self.now };

    /// Returns the membership, if there is one.
    fn get_membership(&self) -> Option<&M>
        ensures { option_copied result ≡ membership self.now };

    /// A blank value stores no membership.
    ghost blank_stores_none: { (a : Self) → blank a ≡ true → membership a ≡ None };
}

/// A value with a log id that may store a membership: what `append_entries` takes. Every type with
/// both traits is one.
pub trait LogEntry<C, M>: RaftLogId<C> + RaftPayload<M> {}

impl<C, M, T: RaftLogId<C> + RaftPayload<M>> LogEntry<C, M> for T {}

/// A log entry. The first parameter is the committed leader id of its log id.
///
/// If an entry is given another log id, its contents stay.
pub trait RaftEntry<C, M>: RaftPayload<M> + RaftLogId<C> + Debug + Display + Sized {
    ghost use Rattle.raft_base.specs.declared.log_id.LogIdOf.{LogIdOf};

    /// Returns a blank entry with a log id.
    fn new_blank(log_id: LogIdOf<C>) -> Self
        ensures log_id { Self.id_of result ≡ log_id }
        ensures blank { Self.blank result ≡ true };

    /// Returns an entry with a log id that stores a membership.
    fn new_membership(log_id: LogIdOf<C>, membership: M) -> Self
        ensures log_id { Self.id_of result ≡ log_id }
        ensures membership { Self.membership result ≡ Some membership }
        ensures not_blank { Self.blank result ≡ false };

    /// An entry that is given another log id stores the same membership.
    ghost keeps_membership: { (a : Self) (id : LogIdOf C)
        → Self.membership (Self.with_id a id) ≡ Self.membership a };

    /// An entry that is given another log id is blank exactly if it was blank.
    ghost keeps_blank: { (a : Self) (id : LogIdOf C)
        → Self.blank (Self.with_id a id) ≡ Self.blank a };
}

/// A log entry that is made from a program's own data, before it is given its log id.
pub trait FromAppData<T> {
    /// Whether an entry may be made from the data.
    ghost is_made_of: { T → Self → Type 0 };

    /// Returns an entry with the data.
    fn from_app_data(app_data: T) -> Self
        ensures { is_made_of app_data result };
}
