//! A shelf of files in memory.

ghost use Rattle.std.specs.Prelude.{◌≡◌, ◌≢◌, ℕ, ◌+◌, ◌≤◌, ◌^◌, ◌↔◌, ◌++◌, List, [], ◌∷◌, Some, length, take, position, IfOk, IfSome, OnOk, OnErr, IsErrOf};
ghost use Rattle.psi_io.specs.Counts.{counted, Rose};
ghost use Rattle.psi_io.specs.MemoryShelf.{has_name, told_of, faults_of, FailsToRead, after_read, after_refused_read, after_failed_read, after_put};
ghost use Rattle.psi_io.specs.Shelf.{Delivered};

use crate::OutOfMemory;
use crate::consumer::Consumer;
use crate::history::History;
use crate::memory_file::MemoryFile;
use crate::shelf::{Shelf, ShelfFault};
use std::alloc::Global;
use std::marker::Model;

/// A shelf of files in memory, whose reads fail where it was set so. Its `told` has the bytes that
/// were last put under a name, and nothing under a name that isn't there.
///
/// Reads are numbered from 1, in the order in which they were asked for. All names that aren't there
/// share one count of faults, and a name that is first put begins with it. The number of a read and
/// each count stand still at the greatest u64.
#[derive(Drop)]
pub struct MemoryShelf {
    files: Vec<MemoryFile>,
    absent: u64,
    history: History,
    reads: u64,
    fails: Vec<u64>,
    alloc: Global,
}

impl Model for MemoryShelf {
    ghost use Rattle.std.specs.Prelude.{◌≡◌, ◌-◌, ◌^◌, length, min};
    ghost use Rattle.psi_io.specs.MemoryShelf.{ShelfContents};

    ghost Value = { ShelfContents };

    ghost view = { λ shelf. record {
      files = shelf.files.items;
      absent = shelf.absent;
      asked = shelf.history.asked;
      gave = shelf.history.gave;
      fails = shelf.fails.items;
    } };

    // The number of the last read.
    ghost invariant = { λ shelf. shelf.reads ≡ min (length shelf.history.asked) (2 ^ 64 - 1) };
}

impl MemoryShelf {
    /// Returns a shelf without files. The reads whose numbers are in `fails` fail.
    pub fn new(alloc: Global, fails: Vec<u64>) -> MemoryShelf
        ensures files { result.files ≡ [] }
        ensures absent { result.absent ≡ 0 }
        ensures asked { result.asked ≡ [] }
        ensures gave { result.gave ≡ [] }
        ensures fails { result.fails ≡ fails.items }
    {
        MemoryShelf {
            files: Vec::new(alloc),
            absent: 0,
            history: History::new(),
            reads: 0,
            fails,
            alloc,
        }
    }

    /// Puts bytes under a name, in place of those that were there.
    ///
    /// # Errors
    ///
    /// [`OutOfMemory`] if an allocation fails. The shelf then stays as
    /// it was.
    #[tactic(auto, using(crate::proofs::FilesLemmas::told_after_put, crate::proofs::FilesLemmas::others_after_put, crate::proofs::FilesLemmas::counts_after_put))]
    pub fn put(&mut self, name: &str, bytes: &[u8]) -> Result<(), OutOfMemory>
        ensures told { OnOk result (told_of self.new name.now ≡ Some bytes.now) }
        ensures others { (other : List ℕ) → other ≢ name.now → told_of self.new other ≡ told_of self.old other }
        ensures counts { (other : List ℕ) → faults_of self.new other ≡ faults_of self.old other }
        ensures after { OnOk result (self.new ≡ after_put self.old name.now bytes.now) }
        ensures refused { OnErr result (self.new ≡ self.old) }
    {
        let bytes = Vec::from_slice(self.alloc, bytes)?;
        self.put_copy(name, bytes)
    }

    // Puts bytes under a name that the shelf keeps.
    fn put_copy(&mut self, name: &str, bytes: Vec<u8>) -> Result<(), OutOfMemory>
        ensures after { OnOk result (self.new ≡ after_put self.old name.now bytes.items) }
        ensures refused { OnErr result (self.new ≡ self.old) }
    {
        match place_of(self.files.as_slice(), name) {
            Some(place) => self.files[place].replace(bytes),
            None => {
                let name = String::from_str(self.alloc, name)?;
                self.files.push(MemoryFile::new(name, bytes, self.absent))?;
            }
        }
        Ok(())
    }
}

/// The place of the first file of this name.
fn place_of(files: &[MemoryFile], name: &str) -> Option<usize>
    ensures { result ≡ position (has_name name.now) files.now }
{
    files.iter().position(|file| file.has_name(name))
}

impl Shelf for MemoryShelf {
    ghost use Rattle.psi_io.specs.MemoryShelf.{Gives};

    ghost told = { told_of };

    ghost asked = { λ shelf. shelf.asked };

    ghost gave = { λ shelf. shelf.gave };

    ghost faults = { faults_of };

    ghost gives = { Gives };

    /// Hands the bytes that were last put under the name, cut at `most + 1`, to the consumer, as one
    /// piece.
    ///
    /// # Errors
    ///
    /// [`ShelfFault::Failed`] exactly where the number of the read is in `fails` or the name isn't
    /// there. The count of the name rises by one there, and no other read raises a count.
    /// [`ShelfFault::OutOfMemory`] if an allocation of the consumer fails: such a read has its
    /// number, and raises no count.
    fn feed<C: Consumer>(&mut self, name: &str, most: u32, to: &mut C) -> Result<(), ShelfFault>
        requires { most ≤ 2 ^ 30 }
        ensures fails { IsErrOf result ShelfFault.Failed ↔ FailsToRead self.old name.now }
        ensures raised { IsErrOf result ShelfFault.Failed → faults_of self.new name.now ≡ counted (faults_of self.old name.now) }
        ensures after { OnOk result (self.new ≡ after_read self.old name.now most) }
        ensures after_failed { IsErrOf result ShelfFault.Failed → self.new ≡ after_failed_read self.old name.now most }
        ensures after_refused { IsErrOf result ShelfFault.OutOfMemory → self.new ≡ after_refused_read self.old name.now most }

        // What every shelf keeps.
        ensures bytes { OnOk result (IfSome (told_of self.old name.now) (λ bytes. C.taken to.new ≡ C.taken to.old ++ take (most + 1) bytes)) }
        ensures front { OnOk result (take (length (C.taken to.old)) (C.taken to.new) ≡ C.taken to.old) }
        ensures bound { OnOk result (length (C.taken to.new) ≤ length (C.taken to.old) + (most + 1)) }
        ensures setting { C.setting to.new ≡ C.setting to.old }
        ensures failed { IsErrOf result ShelfFault.Failed → Rose (faults_of self.old name.now) (faults_of self.new name.now) }
        ensures counts { (other : List ℕ) → faults_of self.old other ≤ faults_of self.new other }
        ensures same { told_of self.new ≡ told_of self.old }
        ensures noted { self.new.asked ≡ self.old.asked ++ (record { name = name.now; most = most }) ∷ [] }
        ensures gave { OnOk result (Delivered self.old.gave self.new.gave name.now most (C.taken to.old) (C.taken to.new)) }
        ensures gave_none { OnErr result (self.new.gave ≡ self.old.gave) }
    {
        self.history = self.history.ask(name.as_bytes(), most);
        self.reads = self.reads.saturating_add(1);
        let fails = self.fails.contains(&self.reads);
        match place_of(self.files.as_slice(), name) {
            Some(place) if fails => {
                self.files[place].count_fault();
                Err(ShelfFault::Failed)
            }
            Some(place) => match self.files[place].feed(most, to) {
                Ok(noted) => {
                    self.history = self.history.give(name.as_bytes(), most, &noted);
                    Ok(())
                }
                Err(fault) => Err(fault),
            },
            None => {
                self.absent = self.absent.saturating_add(1);
                Err(ShelfFault::Failed)
            }
        }
    }

    /// Reads the bytes that were last put under the name, cut at `most + 1`.
    ///
    /// # Errors
    ///
    /// [`ShelfFault::Failed`] exactly where the number of the read is in `fails` or the name isn't
    /// there. The count of the name rises by one there, and no other read raises a count.
    /// [`ShelfFault::OutOfMemory`] if an allocation fails: such a read has its
    /// number, and raises no count.
    fn read(&mut self, alloc: Global, name: &str, most: u32) -> Result<Vec<u8>, ShelfFault>
        requires { most ≤ 2 ^ 30 }
        ensures fails { IsErrOf result ShelfFault.Failed ↔ FailsToRead self.old name.now }
        ensures raised { IsErrOf result ShelfFault.Failed → faults_of self.new name.now ≡ counted (faults_of self.old name.now) }
        ensures after { OnOk result (self.new ≡ after_read self.old name.now most) }
        ensures after_failed { IsErrOf result ShelfFault.Failed → self.new ≡ after_failed_read self.old name.now most }
        ensures after_refused { IsErrOf result ShelfFault.OutOfMemory → self.new ≡ after_refused_read self.old name.now most }

        // What every shelf keeps.
        ensures bytes { IfOk result (λ read. IfSome (told_of self.old name.now) (λ bytes. read.items ≡ take (most + 1) bytes)) }
        ensures bound { IfOk result (λ read. length read.items ≤ most + 1) }
        ensures failed { IsErrOf result ShelfFault.Failed → Rose (faults_of self.old name.now) (faults_of self.new name.now) }
        ensures counts { (other : List ℕ) → faults_of self.old other ≤ faults_of self.new other }
        ensures same { told_of self.new ≡ told_of self.old }
        ensures noted { self.new.asked ≡ self.old.asked ++ (record { name = name.now; most = most }) ∷ [] }
        ensures gave { IfOk result (λ read. self.new.gave ≡ self.old.gave ++ (record { name = name.now; most = most; bytes = read.items }) ∷ []) }
        ensures gave_none { OnErr result (self.new.gave ≡ self.old.gave) }
    {
        let mut bytes = Vec::new(alloc);
        self.feed(name, most, &mut bytes)?;
        Ok(bytes)
    }
}
