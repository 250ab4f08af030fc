//! The block in which the lines of a table are gathered before they are written.

ghost use Rattle.std.specs.Prelude.{◌≡◌, ℕ, ◌<◌, [], ◌++◌, length, IfOk, OnOk};
ghost use Rattle.psi_log_writer.specs.Sending.{Sends};
ghost use Rattle.psi_report.specs.Samples.{IsSampleOf};
ghost use Rattle.psi_table.specs.Lines.{header_line, stream_line};
ghost use Rattle.psi_table.specs.Paths.{AreSumsFor, AreOfStream};
ghost use Rattle.psi_table.specs.PathLines.{paths_header_line, path_line};

use crate::header::header_line;
use crate::line::put_line;
use crate::path_header::paths_header_line;
use crate::path_line::{LONGEST, Walked, put_path_line};
use psi_io::{Sink, SinkFault};
use psi_log_writer::write_piece;
use psi_net_model::{Net, OutOfMemory};
use psi_state::Outcome;
use std::alloc::Global;
use std::marker::Model;

// The number of bytes with which a block is full.
const FULL: usize = 65_536;

/// The lines of a table, of samples or of their paths, that wait to be written. They go to a sink in blocks: where 65,536 bytes or more wait, all of them
/// do before one more line is put. It is seen as the bytes that wait.
///
/// Only `begin` and `begin_paths` allocate, and as much for each network.
#[derive(Drop)]
pub struct Rows {
    bytes: Vec<u8>,
}

impl Model for Rows {
    ghost use Rattle.std.specs.Prelude.{ℕ, ◌≤◌, List, vec_capacity};

    ghost Value = { List ℕ };

    ghost view = { λ r. r.bytes.items };

    ghost invariant = { λ r. 111936 ≤ vec_capacity r.bytes };
}

impl Rows {
    /// Returns the header of the table of a network's samples, which waits, with space for a block and a line.
    ///
    /// # Errors
    ///
    /// [`OutOfMemory`] where there is no memory for it.
    pub fn begin(alloc: Global, net: &Net) -> Result<Rows, OutOfMemory>
        ensures { IfOk result (λ rows. rows ≡ header_line net.now) }
    {
        Rows::reserve(alloc, header_line(alloc, net)?)
    }

    /// Returns the header of the table of a network's paths, which waits, with space for a block and a line.
    ///
    /// # Errors
    ///
    /// [`OutOfMemory`] if an allocation fails.
    pub fn begin_paths(alloc: Global, net: &Net) -> Result<Rows, OutOfMemory>
        ensures { IfOk result (λ rows. rows ≡ paths_header_line net.now) }
    {
        Rows::reserve(alloc, paths_header_line(alloc, net)?)
    }

    // Returns a header that waits, with space for a block and a line. Each byte of the space is written here once, so a table of
    // few rows has as much resident memory as a long one.
    fn reserve(alloc: Global, header: Vec<u8>) -> Result<Rows, OutOfMemory>
        ensures { IfOk result (λ rows. rows ≡ header.items) }
    {
        let mut bytes = vec![in alloc; 0; FULL + LONGEST]?;
        bytes.clear();
        bytes.extend_from_slice(header.as_slice())?;
        Ok(Rows { bytes })
    }

    /// Puts the row of a stream behind what waits, which is written first where a block is full. A sample that is met has a
    /// state within the network's capacities.
    ///
    /// # Errors
    ///
    /// [`SinkFault::Failed`] only where the sink's count rose in this call or stands at the greatest u64.
    pub fn put<O: Sink>(
        &mut self,
        net: &Net,
        stream: u64,
        outcome: &Outcome,
        out: &mut O,
    ) -> Result<(), SinkFault>
        requires { IsSampleOf net.now outcome.now }
        ensures { Sends result
            (record { held = O.held out.old; took = O.took out.old; faults = O.faults out.old; takes = O.takes out.old })
            (record { held = O.held out.new; took = O.took out.new; faults = O.faults out.new; takes = O.takes out.new })
            self.new (self.old ++ stream_line net.now stream outcome.now) }
    {
        self.make_room(out)?;
        put_line(&mut self.bytes, net, stream, outcome);
        Ok(())
    }

    /// Puts the row of a stream's path after what waits, which is written first where a block is full. Where the stream's
    /// sample is met, the sums of the walk have to be those of its path, under whatever seed; where it is not met, they are
    /// not read.
    ///
    /// # Errors
    ///
    /// [`SinkFault::Failed`] only where the sink's count rose in this call or stands at the greatest u64.
    pub fn put_path<O: Sink>(
        &mut self,
        net: &Net,
        stream: u64,
        outcome: &Outcome,
        walked: &Walked<'_>,
        out: &mut O,
    ) -> Result<(), SinkFault>
        requires { AreSumsFor net.now walked.now.walk.now }
        ensures { (seed : ℕ) → AreOfStream net.now seed walked.now.steps stream outcome.now walked.now.walk.now → Sends result
            (record { held = O.held out.old; took = O.took out.old; faults = O.faults out.old; takes = O.takes out.old })
            (record { held = O.held out.new; took = O.took out.new; faults = O.faults out.new; takes = O.takes out.new })
            self.new (self.old ++ path_line net.now seed walked.now.steps stream outcome.now) }
    {
        self.make_room(out)?;
        put_path_line(&mut self.bytes, net, stream, outcome, walked);
        Ok(())
    }

    // Writes what waits where a block is full.
    fn make_room<O: Sink>(&mut self, out: &mut O) -> Result<(), SinkFault>
        ensures sent { Sends result
            (record { held = O.held out.old; took = O.took out.old; faults = O.faults out.old; takes = O.takes out.old })
            (record { held = O.held out.new; took = O.took out.new; faults = O.faults out.new; takes = O.takes out.new })
            self.new self.old }
        ensures room { OnOk result (length self.new < 65536) }
    {
        if self.bytes.len() < FULL {
            return Ok(());
        }
        self.flush(out)
    }

    /// Writes what waits; nothing waits then.
    ///
    /// # Errors
    ///
    /// [`SinkFault::Failed`] only where the sink's count rose in this call or stands at the greatest u64.
    pub fn flush<O: Sink>(&mut self, out: &mut O) -> Result<(), SinkFault>
        ensures sent { Sends result
            (record { held = O.held out.old; took = O.took out.old; faults = O.faults out.old; takes = O.takes out.old })
            (record { held = O.held out.new; took = O.took out.new; faults = O.faults out.new; takes = O.takes out.new })
            self.new self.old }
        ensures none { OnOk result (self.new ≡ []) }
    {
        write_piece(self.bytes.as_slice(), out)?;
        self.bytes.clear();
        Ok(())
    }
}
