//! A sink over a writer of the system.

ghost use Rattle.std.specs.Prelude.{◌≡◌, ℕ, ◌≤◌, ◌++◌, List, [], length, take, IfOk, OnOk, OnErr};
ghost use Rattle.std.specs.Io.KnownBytes.{Appends};
ghost use Rattle.psi_io.specs.Sink.{TookPrefix};
ghost use Rattle.psi_io.specs.StdSink.{AppendsFront};
ghost use Rattle.psi_io.specs.Counts.{counted, Rose};

use crate::noted::Noted;
use crate::sink::{Sink, SinkFault};
use std::io::Write;
use std::marker::Model;

/// A sink over a writer of the system, as its output. Its `held` has nothing, and it is
/// seen as the writer, with the meaning that this has of its own, the bytes that the writer accepted
/// since the sink was made, and the count of faults, which stands still at the greatest u64.
#[derive(Drop)]
pub struct StdSink<W: Write> {
    writer: W,
    took: Noted,
    count: u64,
}

impl<W: Write> Model for StdSink<W> {
    ghost use Rattle.psi_io.specs.StdSink.{OverWriter};

    ghost Value = { OverWriter W };

    ghost view = { λ sink. record { writer = sink.writer; took = sink.took.bytes; count = sink.count } };
}

impl<W: Write> StdSink<W> {
    /// Returns a sink over this writer, with no byte and no fault yet.
    pub fn new(writer: W) -> StdSink<W>
        ensures writer { result.writer ≡ writer }
        ensures took { result.took ≡ [] }
        ensures count { result.count ≡ 0 }
    {
        StdSink {
            writer,
            took: Noted::new(),
            count: 0,
        }
    }
}

/// One write and a flush: the number of bytes that the writer accepted, and a fault where it failed, accepted none of a
/// piece that isn't empty, or couldn't be flushed.
fn write_and_flush<W: Write>(writer: &mut W, piece: &[u8]) -> (usize, Result<(), SinkFault>)
    ensures within { result.0 ≤ length piece.now }
    ensures progress { OnOk result.1 (1 ≤ length piece.now → 1 ≤ result.0) }
    ensures appended { Appends (W.contents writer.old) (W.contents writer.new) (take result.0 piece.now) }
{
    let count = match writer.write(piece) {
        Ok(count) => count,
        Err(_) => return (0, Err(SinkFault::Failed)),
    };
    if count == 0 && !piece.is_empty() {
        return (count, Err(SinkFault::Failed));
    }
    match writer.flush() {
        Ok(()) => (count, Ok(())),
        Err(_) => (count, Err(SinkFault::Failed)),
    }
}

impl<W: Write> Sink for StdSink<W> {
    ghost use Rattle.std.specs.Prelude.{None};

    ghost held = { λ sink. None };

    ghost took = { λ sink. sink.took };

    ghost faults = { λ sink. sink.count };

    /// Writes once and flushes. The writer took the bytes that the answer counts, and no others. Whatever is recorded
    /// as accepted was appended to what the writer holds, where that is known.
    ///
    /// # Errors
    ///
    /// [`SinkFault::Failed`] where the writer fails, takes no byte of a piece that isn't empty, or
    /// can't be flushed. The count of faults rises by one there and nowhere else, and the writer
    /// may have taken a front of the piece.
    fn write(&mut self, piece: &[u8]) -> Result<usize, SinkFault>
        ensures written { IfOk result (λ count. Appends (W.contents self.old.writer) (W.contents self.new.writer) (take count piece.now)) }
        ensures partly { OnErr result (AppendsFront (W.contents self.old.writer) (W.contents self.new.writer) piece.now) }
        ensures still { OnOk result (self.new.count ≡ self.old.count) }
        ensures raised { OnErr result (self.new.count ≡ counted self.old.count) }
        ensures appended { (bytes : List ℕ) → self.new.took ≡ self.old.took ++ bytes → Appends (W.contents self.old.writer) (W.contents self.new.writer) bytes }

        // What every sink keeps.
        ensures within { IfOk result (λ count. count ≤ length piece.now) }
        ensures progress { IfOk result (λ count. 1 ≤ length piece.now → 1 ≤ count) }
        ensures took { IfOk result (λ count. self.new.took ≡ self.old.took ++ take count piece.now) }
        ensures took_part { OnErr result (TookPrefix self.old.took self.new.took piece.now) }
        ensures failed { OnErr result (Rose self.old.count self.new.count) }
        ensures counts { self.old.count ≤ self.new.count }
    {
        let (count, answer) = write_and_flush(&mut self.writer, piece);
        self.took = self.took.and(&piece[..count]);
        match answer {
            Ok(()) => Ok(count),
            Err(fault) => {
                self.count = self.count.saturating_add(1);
                Err(fault)
            }
        }
    }
}
