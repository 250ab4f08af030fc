//! The block in which the lines of a text are gathered before they are written.

ghost use Rattle.std.specs.Prelude.{◌≡◌, [], ◌++◌, IfOk, OnOk};
ghost use Rattle.psi_log_writer.specs.Sending.{Sends};

use crate::OutOfMemory;
use psi_io::{Sink, SinkFault, write_all};
use std::alloc::Global;
use std::marker::Model;

// The number of bytes of a block.
const SIZE: usize = 65_536;

/// A block of 65,536 bytes in which the lines of a text are gathered, so that a sink is written to once a
/// block and not once a line. It is seen as the bytes that wait in it.
///
/// Only `reserve` allocates.
#[derive(Drop)]
pub struct Block {
    bytes: Vec<u8>,
}

impl Model for Block {
    ghost use Rattle.std.specs.Prelude.{ℕ, ◌≤◌, List, vec_len, vec_capacity};

    ghost Value = { List ℕ };

    ghost view = { λ b. b.bytes.items };

    ghost invariant = { λ b. (65536 ≤ vec_capacity b.bytes) × (vec_len b.bytes ≤ 65536) };
}

impl Block {
    /// Returns an empty block, with its room of 65,536 bytes.
    ///
    /// Returns `OutOfMemory` if an allocation fails; no clause says when that is.
    pub fn reserve(alloc: Global) -> Result<Block, OutOfMemory>
        ensures { IfOk result (λ block. block ≡ []) }
    {
        let bytes = Vec::with_capacity(alloc, SIZE)?;
        Ok(Block { bytes })
    }

    /// Lets go of what waits in it.
    pub(crate) fn clear(&mut self)
        ensures { self.new ≡ [] }
    {
        self.bytes.clear();
    }

    /// Puts a text after what waits, and writes whole blocks to the sink as soon as they are full.
    pub(crate) fn put<O: Sink>(&mut self, text: &[u8], out: &mut O) -> Result<(), SinkFault>
        ensures { Sends result
            (record { held = O.held out.old; took = O.took out.old; faults = O.faults out.old; takes = O.takes out.old })
            (record { held = O.held out.new; took = O.took out.new; faults = O.faults out.new; takes = O.takes out.new })
            self.new (self.old ++ text.now) }
    {
        let room = SIZE - self.bytes.len();
        if text.len() < room {
            self.bytes.extend_from_slice(text).unwrap();
            return Ok(());
        }
        self.bytes.extend_from_slice(&text[..room]).unwrap();
        self.flush(out)?;
        let rest = &text[room..];
        let whole = rest.len() - rest.len() % SIZE;
        write_piece(&rest[..whole], out)?;
        self.bytes.extend_from_slice(&rest[whole..]).unwrap();
        Ok(())
    }

    /// Writes what waits to the sink; nothing waits then.
    pub(crate) fn flush<O: Sink>(&mut self, out: &mut O) -> Result<(), SinkFault>
        ensures sent { Sends result
            (record { held = O.held out.old; took = O.took out.old; faults = O.faults out.old; takes = O.takes out.old })
            (record { held = O.held out.new; took = O.took out.new; faults = O.faults out.new; takes = O.takes out.new })
            [] self.old }
        ensures none { OnOk result (self.new ≡ []) }
    {
        write_piece(self.bytes.as_slice(), out)?;
        self.bytes.clear();
        Ok(())
    }
}

/// Writes a piece to the sink, past the block.
///
/// # Errors
///
/// [`SinkFault::Failed`] only where the sink's count rose in this call or stands at the greatest u64.
pub fn write_piece<O: Sink>(piece: &[u8], out: &mut O) -> Result<(), SinkFault>
    ensures { Sends result
        (record { held = O.held out.old; took = O.took out.old; faults = O.faults out.old; takes = O.takes out.old })
        (record { held = O.held out.new; took = O.took out.new; faults = O.faults out.new; takes = O.takes out.new })
        [] piece.now }
{
    write_all(out, piece)
}
