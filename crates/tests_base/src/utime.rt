//! Values with the moment of their last update.
ghost use Rattle.raft_base.specs.UTime.{data_of, moment_of, utime_of};
ghost use Rattle.std.specs.Option.{option_cmp};
ghost use Rattle.std.specs.Ordering.{is_ge};
ghost use Rattle.std.specs.Prelude.{if◌then◌else◌, ◌≡◌, Some};

use crate::asserts::{assert_call, assert_row};
use raft_base::{Instant, UTime};
use std::alloc::{AllocError, Global};
use tests_support::allocations::{is_free, refuse_each};
use tests_support::memory::{equals, is_yes};

/// Marks a value as updated now, unless it was updated later than that.
fn touch_in_turn<T: Drop, I: Instant>(value: &mut UTime<T, I>, now: I)
    ensures { value.new ≡ (if is_ge (option_cmp I.cmp (Some now) (moment_of value.old))
        then utime_of (data_of value.old) (Some now) else value.old) }
{
    if Some(now) >= value.utime() {
        value.touch(now);
    }
}

/// Adds one to a count, at the moment that it has.
fn count_up(count: &mut UTime<u8, u64>)
    requires { data_of count.old ≡ 7 }
    ensures { count.new ≡ utime_of 8 (moment_of count.old) }
{
    let value = count.get_mut();
    *value = *value + 1;
}

/// Whether a count that is touched, and then written, has the moment of the later touch.
fn is_stamped() -> bool {
    let mut count = UTime::new(3u64, 7);
    touch_in_turn(&mut count, 9);
    touch_in_turn(&mut count, 6);
    count_up(&mut count);
    count == UTime::new(9, 8)
}

/// Whether a text is cloned with its moment.
fn is_cloned(alloc: Global) -> Result<bool, AllocError> {
    let stamped = UTime::new(3u64, String::from_str(alloc, "voted")?);
    Ok(equals(stamped.try_clone(), &stamped))
}

#[test]
fn values_are_stamped(rt: HostRuntime) {
    assert_row(&rt, "a clone", is_yes(is_cloned(rt.alloc())));
    refuse_each(rt.alloc());
    let is_free = is_free(&rt, rt.alloc(), "UTime", is_stamped());
    assert_call(&rt, "UTime", is_free);
}
