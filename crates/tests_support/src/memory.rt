//! Values that are made in ample memory, as tests always have it. If an allocation of a value
//! failed, the test fails as it does at a wrong value. A value that a test hands to one of these
//! functions is dropped there, where a drop costs less to prove than in the test.

use std::alloc::AllocError;

/// Whether an answer is yes, and there was memory for it.
pub fn is_yes(answer: Result<bool, AllocError>) -> bool {
    answer.unwrap_or(false)
}

/// Two values, if there was memory for both.
pub fn both_made<A: Drop, B: Drop>(
    first: Result<A, AllocError>,
    second: Result<B, AllocError>,
) -> Result<(A, B), AllocError> {
    Ok((first?, second?))
}

/// Returns what a call of a value returns, if there was memory for the value.
///
/// A test does not own the value, so its exit paths do not drop it.
pub fn with_made<T: Drop, A, E: From<AllocError>, C: FnOnce(&mut T) -> Result<A, E>>(
    value: Result<T, AllocError>,
    call: C,
) -> Result<A, E>
    requires may_call { C.IsAlwaysCallable call }
{
    let mut value = value?;
    call(&mut value)
}

/// Whether two values are equal, if there was memory for both.
pub fn are_equal<T: PartialEq + Drop>(
    made: Result<T, AllocError>,
    want: Result<T, AllocError>,
) -> bool {
    match both_made(made, want) {
        Ok(values) => values.0 == values.1,
        Err(_) => false,
    }
}

/// Whether a value equals another one, if there was memory for it.
pub fn equals<T: PartialEq + Drop>(made: Result<T, AllocError>, other: &T) -> bool {
    match made {
        Ok(made) => made == *other,
        Err(_) => false,
    }
}

/// Whether a value differs from another one, if there was memory for it.
pub fn differs<T: PartialEq + Drop>(made: Result<T, AllocError>, other: &T) -> bool {
    match made {
        Ok(made) => made != *other,
        Err(_) => false,
    }
}

/// The clone of a value, if there was memory for both.
pub fn clone_of<T: Clone + Drop>(value: Result<T, AllocError>) -> Result<T, AllocError> {
    value?.clone()
}
