//! The names of files that were begun (docs/architecture.md).

ghost use Rattle.std.specs.Prelude.{◌≡◌, ℕ, List, [], ◌∷◌, ◌++◌};
ghost use Rattle.std.specs.Borrow.{ftrue};

use std::marker::Model;

/// Names, in order, which proofs alone read: it takes no memory, and its methods do nothing at run
/// time.
#[derive(Drop)]
pub(crate) struct Begun {
    ghost names: { List (List ℕ) },
}

impl Model for Begun {
    ghost also_owns = { λ _. ftrue };
}

impl Begun {
    /// No name.
    pub(crate) fn new() -> Begun
        ensures { result.names ≡ [] }
    {
        Begun {}
    }

    /// These and another name behind them.
    pub(crate) fn and(&self, name: &[u8]) -> Begun
        ensures { result.names ≡ self.now.names ++ name.now ∷ [] }
    {
        Begun {}
    }
}
