//! `replay NET LOG`: the reading of the log, which is judged as it comes.

ghost use Rattle.std.specs.Prelude.{◌≡◌, ◌++◌, ℕ, List, [], ◌∷◌, Option, Ok};
ghost use Rattle.psi_io.specs.Shelf.{AgreesSince};
ghost use Rattle.psi_program.specs.Seen.{seen_with};
ghost use Rattle.psi_program.specs.SeenBy.{shelf_call};
ghost use Rattle.psi_command.specs.Command.{replay, log_file};
ghost use Rattle.psi_reply.specs.Ended.{ending_of};
ghost use Rattle.psi_program.specs.Ending.{HasRead};
ghost use Rattle.psi_run.specs.Reads.{read_of};
ghost use Rattle.psi_run.specs.Ending.{IsEnding};
ghost use Rattle.psi_run.specs.Files.{IsNetAt};

use crate::files::feed_log;
use psi_io::Shelf;
use psi_net::Net;
use psi_replay::StreamReplay;
use psi_reply::{Ending, verdict_ending};
use std::alloc::Global;

/// The work for a replay: the log is read and judged, piece by piece.
pub(crate) fn work<'w, F: Shelf>(
    alloc: Global,
    shelf: &mut F,
    net: &Net,
    log: &'w str,
) -> Ending<'w>
    ensures ending { (told : List ℕ → Option (List ℕ)) → AgreesSince told (F.gave shelf.old) (F.gave shelf.new) → (name : List ℕ) → IsNetAt told name net.now
        → IsEnding (seen_with (shelf_call F.gave F.asked F.faults shelf.old shelf.new) told)
        (Ok (replay name log.now)) (ending_of result) }
    ensures read { F.gives shelf.old log.now → HasRead (ending_of result) }
    ensures spared { F.gives shelf.old log.now → F.faults shelf.new ≡ F.faults shelf.old }
    // The answers agree with what the shelf's model has.
    ensures agrees { AgreesSince (F.told shelf.old) (F.gave shelf.old) (F.gave shelf.new) }
    ensures asked { F.asked shelf.new ≡ F.asked shelf.old ++ read_of (log_file log.now) ∷ [] }
{
    let system = net.system();
    let mut replay = StreamReplay::new(alloc, &system);
    match feed_log(shelf, log, &mut replay) {
        Ok(()) => verdict_ending(alloc, replay.verdict()),
        Err(ending) => ending,
    }
}
