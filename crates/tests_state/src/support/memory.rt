//! Values that are put in the place of others, or are only compared. Here they are dropped at less
//! cost than in a function that knows their type.

use std::alloc::AllocError;

/// Puts a value in the place of another one, if there was memory for it.
pub fn put<T: Drop>(place: &mut T, value: Result<T, AllocError>) -> Result<(), AllocError> {
    *place = value?;
    Ok(())
}

/// Whether a value equals another one, or the allocation error of the value.
pub fn try_equals<T: PartialEq + Drop>(
    made: Result<T, AllocError>,
    other: &T,
) -> Result<bool, AllocError> {
    Ok(made? == *other)
}
