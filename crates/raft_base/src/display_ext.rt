//! Texts of values that may be absent.

use std::fmt;

/// Displays a value that may be absent: by its own text, or as `None`.
#[derive(Clone, Copy)]
pub struct DisplayOption<'a, T>(pub &'a Option<T>);

impl<T: fmt::Display> fmt::Display for DisplayOption<'_, T> {
    fn fmt<W: fmt::Write>(&self, f: &mut fmt::Formatter<W>) -> fmt::Result {
        match self.0 {
            Some(value) => write!(f, "{value}"),
            None => f.write_str("None"),
        }
    }
}
