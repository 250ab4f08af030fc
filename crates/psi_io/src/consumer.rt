//! The contract of what takes bytes piece by piece.

ghost use Rattle.std.specs.Prelude.{◌≡◌, ℕ, ◌++◌, List, OnOk};

use crate::OutOfMemory;

/// What takes bytes, a piece at a time, each whole.
///
/// Two meanings belong to a consumer. `taken` is all that it took since it was made, oldest first.
/// `setting` is what no piece changes: what it was made over, say. A consumer that doesn't name it has
/// nothing of the kind.
pub trait Consumer {
    ghost taken: { Self → List ℕ };

    ghost Setting: { Type 0 } = { Unit {0} };

    ghost setting: { Self → Self.Setting };

    /// Takes a piece.
    ///
    /// # Errors
    ///
    /// [`OutOfMemory`] if an allocation fails; no clause says when.
    /// What the consumer took is then not said.
    fn take(&mut self, piece: &[u8]) -> Result<(), OutOfMemory>
        ensures taken { OnOk result (taken self.new ≡ taken self.old ++ piece.now) }
        ensures setting { setting self.new ≡ setting self.old };
}

impl Consumer for Vec<u8> {
    ghost taken = { λ bytes. bytes.items };

    ghost setting = { λ bytes. tt };

    /// Appends the piece.
    ///
    /// # Errors
    ///
    /// [`OutOfMemory`] where the vector has no room for the piece and can't get it.
    fn take(&mut self, piece: &[u8]) -> Result<(), OutOfMemory> {
        self.extend_from_slice(piece)
    }
}
