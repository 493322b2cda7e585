//! Log ids that may be absent, such as the last log id of a log that may be empty.
ghost use Rattle.std.specs.Prelude.{◌≡◌, ◌<◌, ◌^◌, ℕ, nat_lt};
ghost use Rattle.std.specs.declared.option.Option.{Option};
ghost use Rattle.std.specs.Option.{option_copied, option_map};
ghost use Rattle.raft_base.specs.LogIndex.{next_index_of};

use super::LogIdOf;

/// The index of a log id that may be absent.
pub trait LogIdOptionExt {
    /// The index, if there is one.
    ghost index_of: { Self → Option ℕ };

    /// Returns the index, if there is one.
    fn index(&self) -> Option<u64>
        ensures { result ≡ index_of self.now };

    /// Whether the precondition of `next_index` holds: the next index is below 2^64.
    fn has_next_index(&self) -> bool
        ensures { result ≡ nat_lt (next_index_of (index_of self.now)) (2 ^ 64) };

    /// Returns the index after this one, or 0 if there is none. It requires `has_next_index`.
    fn next_index(&self) -> u64
        requires { next_index_of (index_of self.now) < 2 ^ 64 }
        ensures { result ≡ next_index_of (index_of self.now) };
}

impl<C> LogIdOptionExt for Option<LogIdOf<C>> {
    ghost index_of = { option_map (λ id. id.index) };

    fn index(&self) -> Option<u64> {
        match self {
            Some(log_id) => Some(log_id.index),
            None => None,
        }
    }

    fn has_next_index(&self) -> bool {
        self.index() != Some(u64::MAX)
    }

    fn next_index(&self) -> u64 {
        match self {
            Some(log_id) => log_id.index + 1,
            None => 0,
        }
    }
}

impl<C> LogIdOptionExt for Option<&LogIdOf<C>> {
    ghost index_of = { λ id. option_map (λ a. a.index) (option_copied id) };

    fn index(&self) -> Option<u64> {
        match self {
            Some(log_id) => Some(log_id.index),
            None => None,
        }
    }

    fn has_next_index(&self) -> bool {
        self.index() != Some(u64::MAX)
    }

    fn next_index(&self) -> u64 {
        match self {
            Some(log_id) => log_id.index + 1,
            None => 0,
        }
    }
}
