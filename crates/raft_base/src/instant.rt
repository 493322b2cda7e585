//! Moments of a clock.
ghost use Rattle.std.specs.Prelude.{◌≡◌, ◌-◌, ℕ, refl};
ghost use Rattle.std.specs.Ordering.{nat_cmp};

use std::fmt::Debug;

/// A moment, as a number of ticks of a clock. The type decides how long a tick lasts.
///
/// The caller reads the clock and passes moments on. Nothing here asks for the time.
pub trait Instant: Copy + Ord + Debug + 'static {
    /// The ticks of a moment.
    ghost ticks_of: { Self → ℕ };

    /// Returns the ticks that the clock shows at the moment.
    fn ticks(&self) -> u64
        ensures { result ≡ ticks_of self.now };

    /// Returns the ticks from this moment to `now`, or 0 if `now` is not later.
    fn elapsed(&self, now: Self) -> u64
        ensures { result ≡ ticks_of now - ticks_of self.now }
    {
        now.ticks().saturating_sub(self.ticks())
    }

    /// Moments are ordered as their ticks.
    ghost by_ticks: { (a b : Self) → Self.cmp a b ≡ nat_cmp (ticks_of a) (ticks_of b) };
}

impl Instant for u64 {
    ghost ticks_of = { λ n. n };

    fn ticks(&self) -> u64 {
        *self
    }

    ghost by_ticks = { λ a b. refl };
}
