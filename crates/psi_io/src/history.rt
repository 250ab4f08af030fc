//! The reads that a shelf was asked for and their answers, which only clauses read.

ghost use Rattle.std.specs.Prelude.{◌≡◌, List, [], ◌∷◌, ◌++◌};
ghost use Rattle.std.specs.Borrow.{ftrue};
ghost use Rattle.psi_io.specs.Shelf.{Read, Given};

use crate::noted::Noted;
use std::marker::Model;

/// The reads that a shelf was asked for, and the answers of those that succeeded, oldest first. It has no size: only
/// clauses read it.
#[derive(Drop)]
pub(crate) struct History {
    pub ghost asked: { List Read },
    pub ghost gave: { List Given },
}

impl Model for History {
    ghost also_owns = { λ _. ftrue };
}

impl History {
    /// No read.
    pub(crate) fn new() -> History
        ensures { result ≡ record { asked = []; gave = [] } }
    {
        History {}
    }

    /// The history with one more read: that of a file of this name that may have `most` bytes.
    pub(crate) fn ask(&self, _name: &[u8], _most: u32) -> History
        ensures { result ≡ record { asked = self.now.asked ++ (record { name = _name.now; most = _most }) ∷ []; gave = self.now.gave } }
    {
        History {}
    }

    /// The history with one more answer: the noted bytes, for such a file.
    pub(crate) fn give(&self, _name: &[u8], _most: u32, _noted: &Noted) -> History
        ensures { result ≡ record { asked = self.now.asked; gave = self.now.gave ++ (record { name = _name.now; most = _most; bytes = _noted.now.bytes }) ∷ [] } }
    {
        History {}
    }
}
