//! Facts that a test asserts, each with a name that its failure prints.

/// The name of a fact, and whether it holds.
pub type Fact<'a> = (&'a str, bool);

/// Returns the name of the first fact that does not hold, if there is one.
pub fn first_wrong<'a>(facts: &[Fact<'a>]) -> Option<&'a str> {
    for (name, holds) in facts {
        if !*holds {
            return Some(*name);
        }
    }
    None
}
