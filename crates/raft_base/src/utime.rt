//! A value with the moment of its last update.
ghost use Rattle.std.specs.Prelude.{◌≡◌, Some, None, IfOk, IsTrue};
ghost use Rattle.std.specs.Ordering.{is_ge};
ghost use Rattle.std.specs.Option.{option_cmp};
ghost use Rattle.std.specs.Set.{ClonesAreEqual};

use crate::instant::Instant;
use std::alloc::AllocError;
use std::fmt;

/// A value, and the moment of its last update, if there was one.
///
/// A follower waits for its leader from the moment at which it last heard from the leader, so a
/// vote is stored with that moment. Two are equal if their values and their moments are equal.
#[derive(Debug, Clone, PartialEq, Eq, Drop)]
pub struct UTime<T, I: Instant> {
    data: T,
    utime: Option<I>,
}

impl<T: Drop, I: Instant> UTime<T, I> {
    ghost use Rattle.std.specs.Borrow.{sem, Lends};
    ghost use Rattle.raft_base.specs.UTime.{data_of, moment_of, utime_of};
    ghost use Rattle.raft_base.specs.contracts.utime.UTime.{the_row};

    /// Returns a value that is updated now.
    pub fn new(now: I, value: T) -> Self
        ensures { result ≡ utime_of value (Some now) }
    {
        UTime {
            data: value,
            utime: Some(now),
        }
    }

    /// Returns a value that was never updated.
    pub fn without_utime(value: T) -> Self
        ensures { result ≡ utime_of value None }
    {
        UTime {
            data: value,
            utime: None,
        }
    }

    /// Returns the moment of the last update, if there was one.
    pub fn utime(&self) -> Option<I>
        ensures { result ≡ moment_of self.now }
    {
        self.utime
    }

    /// Returns the value without its moment.
    pub fn into_inner(self) -> T
        ensures { result ≡ data_of self }
    {
        self.data
    }

    /// Replaces the value. Its last update is now.
    pub fn update(&mut self, now: I, value: T)
        ensures { self.new ≡ utime_of value (Some now) }
    {
        self.data = value;
        self.utime = Some(now);
    }

    /// Marks the value as updated now, which must not be before its last update.
    pub fn touch(&mut self, now: I)
        requires { IsTrue (is_ge (option_cmp I.cmp (Some now) (moment_of self.old))) }
        ensures { self.new ≡ utime_of (data_of self.old) (Some now) }
    {
        self.utime = Some(now);
    }

    /// Returns the value.
    pub fn get(&self) -> &T
        ensures { result.now ≡ data_of self.now }
    {
        &self.data
    }

    /// Lends the value for writing. Its moment stays.
    pub fn get_mut(&mut self) -> &mut T
        ensures* written { sem 𝓛 (Lends (the_row T.row I.row) T.row self.entry result
            (λ value. utime_of value (moment_of self.old))) }
        ensures value { result.now ≡ data_of self.old }
    {
        &mut self.data
    }
}

impl<T: Clone + PartialEq + Drop, I: Instant> UTime<T, I> {
    ghost use Rattle.raft_base.specs.UTime.{data_of, moment_of};

    /// Returns an equal value with the same moment and a clone of the data, or an allocation error.
    pub fn try_clone(&self) -> Result<Self, AllocError>
        requires clones_are_equal { ClonesAreEqual T.eq T.is_clone }
        ensures value { IfOk result (λ copy. IsTrue (T.eq (data_of self.now) (data_of copy))) }
        ensures moment { IfOk result (λ copy. moment_of copy ≡ moment_of self.now) }
    {
        Ok(UTime {
            data: self.data.clone()?,
            utime: self.utime,
        })
    }
}

/// The default value, never updated.
impl<T: Default, I: Instant> Default for UTime<T, I> {
    ghost use Rattle.raft_base.specs.UTime.{data_of, moment_of};

    ghost is_default = { λ stamped. T.is_default (data_of stamped) × (moment_of stamped ≡ None) };

    fn default() -> Self {
        UTime {
            data: T::default(),
            utime: None,
        }
    }
}

impl<T: fmt::Display, I: Instant> fmt::Display for UTime<T, I> {
    fn fmt<W: fmt::Write>(&self, f: &mut fmt::Formatter<W>) -> fmt::Result {
        let UTime { data, utime } = self;
        match utime {
            Some(moment) => write!(f, "{data}@{}", moment.ticks()),
            None => write!(f, "{data}"),
        }
    }
}
