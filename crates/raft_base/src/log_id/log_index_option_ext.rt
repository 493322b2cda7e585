//! Indexes that may be absent, such as the last index of a log that may be empty.
ghost use Rattle.std.specs.Prelude.{◌≡◌, ◌+◌, ◌<◌, ◌^◌, ℕ, nat_lt, IsSome};
ghost use Rattle.std.specs.declared.option.Option.{Option};
ghost use Rattle.raft_base.specs.LogIndex.{index_before, index_plus, next_index_of};

/// Arithmetic with an index that may be absent.
pub trait LogIndexOptionExt: Sized {
    /// The index, if there is one.
    ghost view: { Self → Option ℕ };

    /// Whether the precondition of `next_index` holds: the next index is below 2^64.
    fn has_next_index(&self) -> bool
        ensures { result ≡ nat_lt (next_index_of (view self.now)) (2 ^ 64) };

    /// Returns the index after this one, or 0 if there is none. It requires `has_next_index`.
    fn next_index(&self) -> u64
        requires { next_index_of (view self.now) < 2 ^ 64 }
        ensures { result ≡ next_index_of (view self.now) };

    /// Returns the index before this one, or `None` before 0. It requires that there is an index,
    /// which `is_some` tests.
    fn prev_index(&self) -> Self
        requires { IsSome (view self.now) }
        ensures { view result ≡ index_before (view self.now) };

    /// Whether the precondition of `add` holds: the index after the sum is below 2^64.
    fn can_add(&self, places: u64) -> bool
        ensures { result ≡ nat_lt (next_index_of (view self.now) + places) (2 ^ 64) };

    /// Returns the index that many positions further on. It requires `can_add`.
    fn add(&self, places: u64) -> Self
        requires { next_index_of (view self.now) + places < 2 ^ 64 }
        ensures { view result ≡ index_plus (view self.now) places };
}

impl LogIndexOptionExt for Option<u64> {
    ghost view = { λ index. index };

    fn has_next_index(&self) -> bool {
        match self {
            Some(index) => *index < u64::MAX,
            None => true,
        }
    }

    fn next_index(&self) -> u64 {
        match self {
            Some(index) => *index + 1,
            None => 0,
        }
    }

    fn prev_index(&self) -> Option<u64> {
        match self {
            Some(index) => index.checked_sub(1),
            None => None,
        }
    }

    fn can_add(&self, places: u64) -> bool {
        match self {
            Some(index) => *index < u64::MAX && places <= u64::MAX - 1 - *index,
            None => true,
        }
    }

    fn add(&self, places: u64) -> Option<u64> {
        Some(self.next_index() + places).prev_index()
    }
}
