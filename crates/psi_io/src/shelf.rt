//! The contract of a shelf.

ghost use Rattle.std.specs.Prelude.{◌≡◌, ℕ, ◌+◌, ◌≤◌, ◌^◌, ◌++◌, List, [], ◌∷◌, Option, length, take, IfOk, IfSome, OnOk, OnErr, IsErrOf};
ghost use Rattle.psi_io.specs.Counts.{Rose};
ghost use Rattle.psi_io.specs.Shelf.{Read, Given, Delivered};
ghost use Rattle.psi_io.specs.declared.shelf.ShelfFault.TheVariants.{OutOfMemory};

use crate::consumer::Consumer;
use std::alloc::{AllocError, Global};

/// Why a read gave no bytes.
#[derive(Clone, Copy, Debug, PartialEq, Eq)]
pub enum ShelfFault {
    /// The file isn't there or could not be read. It comes only where the name's count of faults
    /// rose in this call, or stands at the greatest u64.
    Failed,
    /// An allocation for what the file holds failed.
    OutOfMemory,
}

impl From<AllocError> for ShelfFault {
    ghost from_gives = { λ _ fault. fault ≡ OutOfMemory };

    fn from(_error: AllocError) -> ShelfFault {
        ShelfFault::OutOfMemory
    }
}

/// Files, each under a name.
///
/// Five meanings belong to a shelf. `told` gives the bytes under a name, where the model has
/// them: a shelf over real files has none there, and no call changes `told`. `asked` lists
/// the reads that the shelf was asked for since it was made, oldest first, whatever came of them.
/// `gave` lists the answers of the reads that succeeded, oldest first: the name, the bound, and the
/// bytes that were returned or that the consumer took. A read that fails adds nothing. Every shelf has
/// it, whatever `told` has of its files.
/// `faults` is the count of faults of a name, which never falls. `gives` says of a name that no
/// read of it is to fail, now or later: no count rises there. A shelf over real files says it of
/// no name.
pub trait Shelf {
    ghost told: { Self → List ℕ → Option (List ℕ) };

    ghost asked: { Self → List Read };

    ghost gave: { Self → List Given };

    ghost faults: { Self → List ℕ → ℕ };

    ghost gives: { Self → List ℕ → Type 0 } = { λ _ _. ⊥ };

    /// Reads the file of this name up to its end, but at most `most + 1` bytes of it, and hands them
    /// to a consumer piece by piece, in their order, so that they needn't be held whole.
    ///
    /// # Errors
    ///
    /// [`ShelfFault::Failed`] only where the count of this name rose or stands at the greatest u64,
    /// and [`ShelfFault::OutOfMemory`] if an allocation failed, here or for the consumer.
    /// What the consumer took by then is not said.
    fn feed<C: Consumer>(&mut self, name: &str, most: u32, to: &mut C) -> Result<(), ShelfFault>
        requires { most ≤ 2 ^ 30 }
        ensures bytes { OnOk result (IfSome (told self.old name.now) (λ bytes. C.taken to.new ≡ C.taken to.old ++ take (most + 1) bytes)) }
        ensures front { OnOk result (take (length (C.taken to.old)) (C.taken to.new) ≡ C.taken to.old) }
        ensures bound { OnOk result (length (C.taken to.new) ≤ length (C.taken to.old) + (most + 1)) }
        ensures setting { C.setting to.new ≡ C.setting to.old }
        ensures failed { IsErrOf result ShelfFault.Failed → Rose (faults self.old name.now) (faults self.new name.now) }
        ensures counts { (other : List ℕ) → faults self.old other ≤ faults self.new other }
        ensures same { told self.new ≡ told self.old }
        ensures noted { asked self.new ≡ asked self.old ++ (record { name = name.now; most = most }) ∷ [] }
        ensures gave { OnOk result (Delivered (gave self.old) (gave self.new) name.now most (C.taken to.old) (C.taken to.new)) }
        ensures gave_none { OnErr result (gave self.new ≡ gave self.old) }
        ensures given { gives self.old name.now → IsErrOf result ShelfFault.Failed → ⊥ }
        ensures spared { gives self.old name.now → faults self.new ≡ faults self.old }
        ensures gives_on { (other : List ℕ) → gives self.old other → gives self.new other };

    /// Reads the file of this name up to its end, but at most `most + 1` bytes of it, so that the
    /// caller sees from the length alone whether the file has more than `most` bytes.
    ///
    /// # Errors
    ///
    /// [`ShelfFault::Failed`] only where the count of this name rose or stands at the greatest
    /// u64, and [`ShelfFault::OutOfMemory`] if an allocation failed.
    fn read(&mut self, alloc: Global, name: &str, most: u32) -> Result<Vec<u8>, ShelfFault>
        requires { most ≤ 2 ^ 30 }
        ensures bytes { IfOk result (λ read. IfSome (told self.old name.now) (λ bytes. read.items ≡ take (most + 1) bytes)) }
        ensures bound { IfOk result (λ read. length read.items ≤ most + 1) }
        ensures failed { IsErrOf result ShelfFault.Failed → Rose (faults self.old name.now) (faults self.new name.now) }
        ensures counts { (other : List ℕ) → faults self.old other ≤ faults self.new other }
        ensures same { told self.new ≡ told self.old }
        ensures noted { asked self.new ≡ asked self.old ++ (record { name = name.now; most = most }) ∷ [] }
        ensures gave { IfOk result (λ read. gave self.new ≡ gave self.old ++ (record { name = name.now; most = most; bytes = read.items }) ∷ []) }
        ensures gave_none { OnErr result (gave self.new ≡ gave self.old) }
        ensures given { gives self.old name.now → IsErrOf result ShelfFault.Failed → ⊥ }
        ensures spared { gives self.old name.now → faults self.new ≡ faults self.old }
        ensures gives_on { (other : List ℕ) → gives self.old other → gives self.new other };
}
