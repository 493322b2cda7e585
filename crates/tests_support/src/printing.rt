//! The texts that values print. A text for which there is no memory is wrong.

use raft_base::MessageSummary;
use std::alloc::{AllocError, Global};
use std::fmt::{Debug, Display};

/// Whether a text that was made is the wanted one.
fn is(made: Result<String, AllocError>, text: &str) -> bool {
    match made {
        Ok(made) => made.as_str() == text,
        Err(_) => false,
    }
}

/// Whether a value displays as the text.
pub fn displays<T: Display>(alloc: Global, value: &T, text: &str) -> bool {
    is(format!(in alloc; "{value}"), text)
}

/// Whether a value's debug form is the text.
pub fn debugs<T: Debug>(alloc: Global, value: &T, text: &str) -> bool {
    is(format!(in alloc; "{value:?}"), text)
}

/// Whether a value's summary is the text.
pub fn sums_up<T: MessageSummary<T>>(alloc: Global, value: &T, text: &str) -> bool {
    is(value.summary(alloc), text)
}

/// Whether a value, for which there was memory, displays as the first text and has the debug form
/// of the second one.
pub fn prints<T: Debug + Display + Drop>(
    alloc: Global,
    made: Result<T, AllocError>,
    [display, debug]: [&str; 2],
) -> bool {
    match made {
        Ok(made) => displays(alloc, &made, display) && debugs(alloc, &made, debug),
        Err(_) => false,
    }
}
