//! The call that does all that a program of tables does.

ghost use Rattle.std.specs.Prelude.{◌≡◌, ◌≤◌, length, IfOk};
ghost use Rattle.psi_io.specs.Shelf.{AgreesSince};
ghost use Rattle.psi_program.specs.Finished.{IsFinished};
ghost use Rattle.psi_program.specs.SeenBy.{shelf_call, sink_seen};
ghost use Rattle.psi_streams.specs.Asked.{IsInRange, seen_result};
ghost use Rattle.psi_streams.specs.Named.{faults};
ghost use Rattle.psi_streams.specs.Seen.{IsGiven};
ghost use Rattle.psi_streams.specs.Ended.{IsEndingOf};

use crate::naming::finish;
use crate::work::perform;
use psi_command::{Status, Table};
use psi_io::{Shelf, Sink};
use psi_reply::Ending;
use std::alloc::Global;

/// What the arguments of a program ask for.
#[derive(Clone, Copy, Debug)]
pub struct Asked<'w> {
    /// The samples.
    pub table: Table<'w>,
    /// The number of steps of the paths that begin in them, at most 4,290,772,992, where the table is to be one of paths.
    pub steps: Option<u32>,
}

/// What is to be done: what the arguments ask for, under the name of a program.
#[derive(Drop)]
pub(crate) struct Task<'w> {
    pub(crate) name: &'w [u8],
    pub(crate) asked: Asked<'w>,
}

/// Draws what is asked for and prints its table. Otherwise it reports at which place the arguments offend, or why there is no
/// table, under the name of the program, which has at most 10 bytes. It returns how that ended.
///
/// It allocates before the first byte is written, and as much for each number of streams and of steps. The file of the network
/// is read once, up to one byte more than it may have.
pub fn run<F: Shelf, O: Sink, E: Sink>(
    alloc: Global,
    name: &[u8],
    asked: Result<Asked<'_>, u8>,
    shelf: &mut F,
    out: &mut O,
    err: &mut E,
) -> Status
    requires name { length name.now ≤ 10 }
    requires ranges { IfOk asked IsInRange }
    // The call ended by its cause, and with the text of its ending, whole or in part.
    ensures finished { IsFinished (faults name.now) (IsEndingOf name.now (shelf_call F.gave F.asked F.faults shelf.old shelf.new) (F.gives shelf.old) (seen_result asked.entry)) (O.takes out.old) (E.takes err.old)
        (sink_seen O.held O.took O.faults out.old out.new) (sink_seen E.held E.took E.faults err.old err.new) result }
    // The answers agree with what the shelf tells.
    ensures agrees { AgreesSince (F.told shelf.old) (F.gave shelf.old) (F.gave shelf.new) }
    // Where the shelf gives the network file, no count of it rose.
    ensures spared { IsGiven (F.gives shelf.old) (seen_result asked.entry) → F.faults shelf.new ≡ F.faults shelf.old }
{
    match asked {
        Ok(asked) => perform(alloc, &Task { name, asked }, shelf, out, err),
        Err(place) => finish(name, &Ending::Usage(place), out, err),
    }
}
