//! Bytes that crossed an interface, which only clauses read.

ghost use Rattle.std.specs.Prelude.{◌≡◌, ℕ, List, [], ◌++◌};
ghost use Rattle.std.specs.Borrow.{ftrue};

use std::marker::Model;

/// Bytes that were passed on, oldest first. It has no size: only clauses read it.
#[derive(Drop)]
pub struct Noted {
    pub ghost bytes: { List ℕ },
}

impl Model for Noted {
    ghost also_owns = { λ _. ftrue };
}

impl Noted {
    /// No byte.
    pub fn new() -> Noted
        ensures { result.bytes ≡ [] }
    {
        Noted {}
    }

    /// These bytes followed by a piece.
    pub fn and(&self, _piece: &[u8]) -> Noted
        ensures { result.bytes ≡ self.now.bytes ++ _piece.now }
    {
        Noted {}
    }
}
