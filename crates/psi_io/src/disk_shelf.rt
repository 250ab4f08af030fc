//! A shelf over the files of the system.

ghost use Rattle.std.specs.Prelude.{◌≡◌, ◌+◌, ◌≤◌, ◌^◌, ◌↔◌, ◌++◌, [], ◌∷◌, length, take, IfOk, IfSome, IsOkAnd, OnOk, OnErr, IsErrOf};
ghost use Rattle.std.specs.IoError.{error_kind};
ghost use Rattle.psi_io.specs.Counts.{counted, Rose};
ghost use Rattle.psi_io.specs.Shelf.{Delivered, ReadUpTo, TookFile};

use crate::consumer::Consumer;
use crate::history::History;
use crate::noted::Noted;
use crate::shelf::{Shelf, ShelfFault};
use std::alloc::Global;
use std::io::{Error, ErrorKind, Read};
use std::marker::Model;
use std::rt::Files;
use std::{fs, io};

/// The most bytes that one turn of a read asks for.
const CHUNK: usize = 8192;

/// A shelf over the files of the system, opened through the runtime that it is lent. Its `told` has
/// nothing, and it is seen as the reads that it was asked for, the answers that it
/// gave, and its count of faults: one number for all names, which stands still at the greatest u64.
#[derive(Drop)]
pub struct DiskShelf<'r, R: Files> {
    rt: &'r R,
    history: History,
    count: u64,
}

impl<'r, R: Files> Model for DiskShelf<'r, R> {
    ghost use Rattle.psi_io.specs.Shelf.{OverFiles};

    ghost Value = { OverFiles };

    ghost view = { λ shelf. record { asked = shelf.history.asked; gave = shelf.history.gave; count = shelf.count } };
}

impl<'r, R: Files> DiskShelf<'r, R> {
    /// Returns a shelf over the files of this runtime, with no read and no fault yet.
    pub fn new(rt: &'r R) -> DiskShelf<'r, R>
        ensures asked { result.asked ≡ [] }
        ensures gave { result.gave ≡ [] }
        ensures count { result.count ≡ 0 }
    {
        DiskShelf {
            rt,
            history: History::new(),
            count: 0,
        }
    }
}

/// The answer to an error of the system: `OutOfMemory`, or else a fault.
fn fault_of(error: &Error) -> ShelfFault
    ensures { (result ≡ ShelfFault.OutOfMemory) ↔ (error_kind error.now ≡ ErrorKind.OutOfMemory) }
{
    match error.kind() {
        ErrorKind::OutOfMemory => ShelfFault::OutOfMemory,
        _ => ShelfFault::Failed,
    }
}

/// Hands the bytes that a reader has left, but at most `most + 1` of them, to a consumer, and notes them. It takes no
/// more from the reader than it hands over, and stops only at the reader's end or at `most + 1` bytes.
pub(crate) fn feed_front<F: Read, C: Consumer>(
    file: &mut F,
    most: u32,
    to: &mut C,
) -> Result<Noted, ShelfFault>
    requires { most ≤ 2 ^ 30 }
    ensures bytes { IfOk result (λ noted. IfSome (F.remaining file.old) (λ bytes. noted.bytes ≡ take (most + 1) bytes)) }
    ensures read { IfOk result (λ noted. ReadUpTo most noted.bytes (F.remaining file.old) (F.remaining file.new)) }
    ensures taken { IfOk result (λ noted. C.taken to.new ≡ C.taken to.old ++ noted.bytes) }
    ensures bound { IfOk result (λ noted. length noted.bytes ≤ most + 1) }
    ensures setting { C.setting to.new ≡ C.setting to.old }
{
    let limit = most as usize + 1;
    let mut chunk = [0u8; CHUNK];
    let mut noted = Noted::new();
    let mut given = 0;
    while given < limit {
        let wanted = CHUNK.min(limit - given);
        let count = match file.read(&mut chunk[..wanted]) {
            Ok(count) => count,
            Err(error) => return Err(fault_of(&error)),
        };
        if count == 0 {
            break;
        }
        let piece = &chunk[..count];
        to.take(piece)?;
        noted = noted.and(piece);
        given += count;
    }
    Ok(noted)
}

/// Hands the bytes of a file that was to be opened, but at most `most + 1` of them, to a consumer, and notes them.
fn feed_opened<F: Read + Drop, C: Consumer>(
    opened: io::Result<F>,
    most: u32,
    to: &mut C,
) -> Result<Noted, ShelfFault>
    requires { most ≤ 2 ^ 30 }
    // There are none where the file wasn't opened.
    ensures bytes { IfOk result (λ noted. IsOkAnd opened (λ file. IfSome (F.remaining file) (λ bytes. noted.bytes ≡ take (most + 1) bytes))) }
    ensures read { IfOk result (λ noted. IsOkAnd opened (λ file. (left : F) × ReadUpTo most noted.bytes (F.remaining file) (F.remaining left))) }
    ensures taken { IfOk result (λ noted. C.taken to.new ≡ C.taken to.old ++ noted.bytes) }
    ensures bound { IfOk result (λ noted. length noted.bytes ≤ most + 1) }
    ensures setting { C.setting to.new ≡ C.setting to.old }
{
    match opened {
        Ok(mut file) => feed_front(&mut file, most, to),
        Err(error) => Err(fault_of(&error)),
    }
}

impl<R: Files> Shelf for DiskShelf<'_, R> {
    ghost use Rattle.std.specs.Prelude.{None};

    ghost told = { λ shelf name. None };

    ghost asked = { λ shelf. shelf.asked };

    ghost gave = { λ shelf. shelf.gave };

    ghost faults = { λ shelf name. shelf.count };

    /// Opens the file of this name and reads it, chunk by chunk, up to its end or to `most + 1`
    /// bytes. Each chunk is a piece for the consumer.
    ///
    /// # Errors
    ///
    /// [`ShelfFault::Failed`] where the file can't be opened or read, and
    /// [`ShelfFault::OutOfMemory`] if an allocation fails, also for the consumer. With each of them
    /// the count rises by one.
    fn feed<C: Consumer>(&mut self, name: &str, most: u32, to: &mut C) -> Result<(), ShelfFault>
        requires { most ≤ 2 ^ 30 }
        ensures still { OnOk result (self.new.count ≡ self.old.count) }
        ensures raised { OnErr result (self.new.count ≡ counted self.old.count) }
        // The bytes are those of a file that was opened, up to its end or to `most + 1` of them.
        ensures whole { OnOk result (TookFile R.File.remaining most (C.taken to.old) (C.taken to.new)) }

        // What every shelf keeps.
        ensures front { OnOk result (take (length (C.taken to.old)) (C.taken to.new) ≡ C.taken to.old) }
        ensures bound { OnOk result (length (C.taken to.new) ≤ length (C.taken to.old) + (most + 1)) }
        ensures setting { C.setting to.new ≡ C.setting to.old }
        ensures failed { IsErrOf result ShelfFault.Failed → Rose self.old.count self.new.count }
        ensures counts { self.old.count ≤ self.new.count }
        ensures noted { self.new.asked ≡ self.old.asked ++ (record { name = name.now; most = most }) ∷ [] }
        ensures gave { OnOk result (Delivered self.old.gave self.new.gave name.now most (C.taken to.old) (C.taken to.new)) }
        ensures gave_none { OnErr result (self.new.gave ≡ self.old.gave) }
    {
        self.history = self.history.ask(name.as_bytes(), most);
        match feed_opened(fs::open(self.rt, name), most, to) {
            Ok(noted) => {
                self.history = self.history.give(name.as_bytes(), most, &noted);
                Ok(())
            }
            Err(fault) => {
                self.count = self.count.saturating_add(1);
                Err(fault)
            }
        }
    }

    /// Opens the file of this name and reads it, chunk by chunk, up to its end or to `most + 1`
    /// bytes. Memory grows with what is read.
    ///
    /// # Errors
    ///
    /// [`ShelfFault::Failed`] where the file can't be opened or read, and
    /// [`ShelfFault::OutOfMemory`] if an allocation fails. With each of them the count rises by one.
    fn read(&mut self, alloc: Global, name: &str, most: u32) -> Result<Vec<u8>, ShelfFault>
        requires { most ≤ 2 ^ 30 }
        ensures still { OnOk result (self.new.count ≡ self.old.count) }
        ensures raised { OnErr result (self.new.count ≡ counted self.old.count) }
        // The bytes are those of a file that was opened, up to its end or to `most + 1` of them.
        ensures whole { IfOk result (λ read. TookFile R.File.remaining most [] read.items) }

        // What every shelf keeps.
        ensures bound { IfOk result (λ read. length read.items ≤ most + 1) }
        ensures failed { IsErrOf result ShelfFault.Failed → Rose self.old.count self.new.count }
        ensures counts { self.old.count ≤ self.new.count }
        ensures noted { self.new.asked ≡ self.old.asked ++ (record { name = name.now; most = most }) ∷ [] }
        ensures gave { IfOk result (λ read. self.new.gave ≡ self.old.gave ++ (record { name = name.now; most = most; bytes = read.items }) ∷ []) }
        ensures gave_none { OnErr result (self.new.gave ≡ self.old.gave) }
    {
        let mut bytes = Vec::new(alloc);
        self.feed(name, most, &mut bytes)?;
        Ok(bytes)
    }
}
