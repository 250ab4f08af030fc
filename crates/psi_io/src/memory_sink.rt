//! A sink in memory.

ghost use Rattle.std.specs.Prelude.{◌≡◌, ◌≤◌, ◌↔◌, ◌++◌, [], length, take, IfOk, OnOk, OnErr, IsErr};
ghost use Rattle.psi_io.specs.Counts.{Rose};
ghost use Rattle.psi_io.specs.MemorySink.{FailsToWrite, taken_count, after_write, after_failed_write};

use crate::OutOfMemory;
use crate::sink::{Sink, SinkFault};
use std::alloc::Global;
use std::marker::Model;

/// A sink in memory, with a room that is reserved when it is made, which takes a bounded number of
/// bytes in a write and fails at chosen writes. Its `held` has what it holds.
///
/// Writes are numbered from 1. The number of a write and the count of faults stand still at the
/// greatest u64.
#[derive(Drop)]
pub struct MemorySink {
    bytes: Vec<u8>,
    room: usize,
    most: usize,
    fails: Vec<u64>,
    writes: u64,
    count: u64,
}

impl Model for MemorySink {
    ghost use Rattle.std.specs.Prelude.{◌+◌, ◌≤◌, vec_len, vec_capacity};
    ghost use Rattle.psi_io.specs.MemorySink.{SinkContents};

    ghost Value = { SinkContents };

    ghost view = { λ sink. record {
      bytes = sink.bytes.items;
      room = sink.room;
      most = sink.most;
      fails = sink.fails.items;
      writes = sink.writes;
      count = sink.count;
    } };

    ghost invariant = { λ sink. (1 ≤ sink.most) × (vec_len sink.bytes + sink.room ≤ vec_capacity sink.bytes) };
}

impl MemorySink {
    /// Returns an empty sink with room for `room` bytes, which it reserves. A write takes at most `most`
    /// bytes, and the writes whose numbers are in `fails` fail.
    ///
    /// # Errors
    ///
    /// [`OutOfMemory`] where the room can't be reserved.
    pub fn new(
        alloc: Global,
        room: usize,
        most: usize,
        fails: Vec<u64>,
    ) -> Result<MemorySink, OutOfMemory>
        requires { 1 ≤ most }
        ensures bytes { IfOk result (λ sink. sink.bytes ≡ []) }
        ensures room { IfOk result (λ sink. sink.room ≡ room) }
        ensures most { IfOk result (λ sink. sink.most ≡ most) }
        ensures fails { IfOk result (λ sink. sink.fails ≡ fails.items) }
        ensures writes { IfOk result (λ sink. sink.writes ≡ 0) }
        ensures count { IfOk result (λ sink. sink.count ≡ 0) }
    {
        let bytes = Vec::with_capacity(alloc, room)?;
        Ok(MemorySink {
            bytes,
            room,
            most,
            fails,
            writes: 0,
            count: 0,
        })
    }

    /// Returns what the sink holds: the bytes that it took since it was made.
    pub fn bytes(&self) -> &[u8]
        ensures { result.now ≡ self.now.bytes }
    {
        self.bytes.as_slice()
    }

    /// Returns the number of its writes that failed.
    pub fn count(&self) -> u64
        ensures { result ≡ self.now.count }
    {
        self.count
    }
}

impl Sink for MemorySink {
    ghost use Rattle.std.specs.Prelude.{Some};
    ghost use Rattle.psi_io.specs.MemorySink.{Takes};

    ghost held = { λ sink. Some sink.bytes };

    ghost took = { λ sink. sink.bytes };

    ghost faults = { λ sink. sink.count };

    ghost takes = { Takes };

    /// Takes the least of the piece's length, `most` and the room that is left.
    ///
    /// # Errors
    ///
    /// [`SinkFault::Failed`] exactly where the number of the write is in `fails`, or the piece
    /// isn't empty and no room is left. The count of faults rises by one there and nowhere else.
    fn write(&mut self, piece: &[u8]) -> Result<usize, SinkFault>
        ensures fails { IsErr result ↔ FailsToWrite self.old piece.now }
        ensures taken { IfOk result (λ count. count ≡ taken_count self.old piece.now) }
        ensures after { OnOk result (self.new ≡ after_write self.old piece.now) }
        ensures after_failed { OnErr result (self.new ≡ after_failed_write self.old) }

        // What every sink keeps.
        ensures within { IfOk result (λ count. count ≤ length piece.now) }
        ensures progress { IfOk result (λ count. 1 ≤ length piece.now → 1 ≤ count) }
        ensures grew { IfOk result (λ count. self.new.bytes ≡ self.old.bytes ++ take count piece.now) }
        ensures failed { OnErr result (Rose self.old.count self.new.count) }
        ensures kept { OnErr result (self.new.bytes ≡ self.old.bytes) }
        ensures counts { self.old.count ≤ self.new.count }
    {
        self.writes = self.writes.saturating_add(1);
        let no_room = self.room == 0 && !piece.is_empty();
        if no_room || self.fails.contains(&self.writes) {
            self.count = self.count.saturating_add(1);
            return Err(SinkFault::Failed);
        }
        let taken = piece.len().min(self.most.min(self.room));
        self.bytes.extend_from_slice(&piece[..taken]).unwrap();
        self.room -= taken;
        Ok(taken)
    }
}
