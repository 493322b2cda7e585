//! Values that are identified by a log id.
ghost use Rattle.std.specs.Prelude.{◌≡◌, refl};

use super::LogIdOf;

/// A value that a log id identifies, such as a log entry or the log id itself.
///
/// The parameter is the type of the committed leader id in the log ids. For `LogId<NID>` it is
/// `CommittedLeaderId<NID>`.
pub trait RaftLogId<C> {
    ghost use Rattle.raft_base.specs.declared.log_id.LogIdOf.{LogIdOf};

    /// The log id of a value.
    ghost id_of: { Self → LogIdOf C };

    /// The value with another log id.
    ghost with_id: { Self → LogIdOf C → Self };

    /// Returns the log id.
    fn get_log_id(&self) -> &LogIdOf<C>
        ensures { result.now ≡ id_of self.now };

    /// Gives the value another log id, and changes nothing else.
    fn set_log_id(&mut self, log_id: &LogIdOf<C>)
        ensures { self.new ≡ with_id self.old log_id.now };

    /// A value that is given a log id has that log id.
    ghost has_id: { (a : Self) (id : LogIdOf C) → id_of (with_id a id) ≡ id };

    /// A value that is given its own log id does not change.
    ghost own_id: { (a : Self) → with_id a (id_of a) ≡ a };

    /// If a value is given two log ids in turn, it has only the last one.
    ghost last_id: { (a : Self) (id next : LogIdOf C)
        → with_id (with_id a id) next ≡ with_id a next };
}

impl<C: Copy> RaftLogId<C> for LogIdOf<C> {
    ghost id_of = { λ a. a };

    ghost with_id = { λ a id. id };

    fn get_log_id(&self) -> &LogIdOf<C> {
        self
    }

    fn set_log_id(&mut self, log_id: &LogIdOf<C>) {
        *self = *log_id;
    }

    ghost has_id = { λ a id. refl };

    ghost own_id = { λ a. refl };

    ghost last_id = { λ a id next. refl };
}
