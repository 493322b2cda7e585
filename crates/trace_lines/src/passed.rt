//! The lines that a reader has passed. They exist only in proofs.
ghost use Rattle.std.specs.Prelude.{◌≡◌, ℕ, List, [], ◌∷◌, ◌++◌};
ghost use Rattle.std.specs.Borrow.{ftrue};

use std::marker::Model;

/// The lines that a reader has passed, in their order. It takes no memory.
#[derive(Drop)]
pub(crate) struct Passed {
    ghost lines: { List (List ℕ) },
}

impl Model for Passed {
    ghost also_owns = { λ _. ftrue };
}

impl Passed {
    /// Returns that no line was passed.
    pub(crate) fn none() -> Passed
        ensures { result.lines ≡ [] }
    {
        Passed {}
    }

    /// Returns that one line more was passed.
    pub(crate) fn and(&self, _line: &Vec<u8>) -> Passed
        ensures { result.lines ≡ self.now.lines ++ _line.now.items ∷ [] }
    {
        Passed {}
    }
}
