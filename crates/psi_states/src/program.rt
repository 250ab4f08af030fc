//! The call that does all that the program does.

ghost use Rattle.std.specs.Prelude.{◌≡◌, ◌≢◌, ℕ, List, ◌⊎◌, Some, None, Ok, map, string_bytes, IfOk};
ghost use Rattle.psi_program.specs.Run.{HasRun};
ghost use Rattle.psi_io.specs.Counts.{Rose};
ghost use Rattle.psi_net_model.specs.Network.{Network};
ghost use Rattle.psi_net.specs.Reading.{network_of};
ghost use Rattle.psi_command.specs.Status.{status_code, IsReplied};
ghost use Rattle.psi_command.specs.Tables.{Table, table_of};
ghost use Rattle.psi_reply.specs.Reply.{Reply};
ghost use Rattle.psi_streams.specs.Asked.{seen_result, IsInRange};
ghost use Rattle.psi_streams.specs.Call.{IsRun, AreTaken};
ghost use Rattle.psi_streams.specs.Means.{IsTableOf, Means};
ghost use Rattle.psi_streams.specs.Reply.{reply_to};
ghost use Rattle.psi_streams.specs.Run.{IsRunOf};
ghost use Rattle.psi_streams.specs.Seen.{IsGiven};
ghost use Rattle.psi_program.specs.SeenBy.{shelf_seen, sink_seen, call_seen};
ghost use Rattle.psi_states.specs.Program.{asked_of, states};

use psi_command::{Status, table_of};
use psi_io::{Shelf, Sink};
use psi_streams::Asked;
use std::alloc::Global;

// What the words ask for, or the place of the word that offends.
fn asked_of(words: &[String]) -> Result<Asked<'_>, u8>
    ensures asked { seen_result result ≡ asked_of (table_of (map string_bytes words.now)) }
    ensures ranges { IfOk result IsInRange }
{
    match table_of(words) {
        Ok(table) => Ok(Asked { table, steps: None }),
        Err(place) => Err(place),
    }
}

/// Draws the samples that the arguments ask for, and prints their table. It returns how that ended.
///
/// | Words | Table |
/// |---|---|
/// | `NET SEED FIRST COUNT` | the samples of the network in NET, one for each stream FIRST, .., FIRST + COUNT - 1, as `psi sample NET SEED STREAM` prints them |
/// | `NET SEED FIRST COUNT closed TOTAL` | the samples of the closed network with TOTAL customers, as `psi closed NET SEED STREAM TOTAL` prints them |
///
/// SEED and FIRST are numbers of at most 2 to the power 64 less 1, COUNT is 1 to 4,294,967,295, TOTAL at most 256, and the
/// last stream is at most 2 to the power 64 less 1. The table is comma-separated values (RFC 4180, with a line feed alone at
/// each end). Its header is `stream`, `horizon`, `queue.` with the name of each queue and `reward.` with the name of each
/// reward. A row has the stream, the horizon, the number of customers in each queue and the value of each reward. A
/// sample that is not met has empty fields after its stream.
///
/// It allocates before the first byte is written, and as much for each COUNT. The table goes to out in blocks
/// of some 65,536 bytes. With any other status than `Done`, `NotCoupled` and `WriteFault` nothing is written to out, and one
/// line to err says why.
///
/// | Status | Line |
/// |---|---|
/// | `Usage` | `psi_states: usage word N` |
/// | `NetRefused` | `psi_states: network refused CODE NAME SECTION NUMBER KEY` |
/// | `ReadFault` | `psi_states: cannot read network` |
/// | `OutOfMemory` | `psi_states: out of memory` |
/// | `NotClosed` | `psi_states: not closed event E` |
/// | `NoSuchTotal` | `psi_states: no state with this total` |
///
/// The file NET is read once, up to one byte more than it may have. Where the shelf gives it, and out and err take their
/// texts, no count rises, and the status is neither `ReadFault` nor `WriteFault`.
pub(crate) fn run<F: Shelf, O: Sink, E: Sink>(
    alloc: Global,
    words: &[String],
    shelf: &mut F,
    out: &mut O,
    err: &mut E,
) -> Status
    // What each status says of the words, the shelf and the sinks.
    ensures call { IsRun states (call_seen (map string_bytes words.now) (shelf_seen F.told F.asked F.faults shelf.old shelf.new)
        (sink_seen O.held O.took O.faults out.old out.new) (sink_seen E.held E.took E.faults err.old err.new)) result }

    // The headline: where the words ask for the table of a network's samples, the shelf tells a file that reads as a
    // network, no count of faults rose in this call and memory didn't run out, what is printed is the table of its samples.
    ensures headline { (name : List ℕ) (seed first count : ℕ) (bytes : List ℕ) (net : Network)
        → table_of (map string_bytes words.now) ≡ Ok (record { net = name; seed = seed; first = first; count = count; total = None })
        → F.told shelf.old name ≡ Some bytes → network_of bytes ≡ Ok net
        → ¬ (Rose (F.faults shelf.old name) (F.faults shelf.new name))
        → ¬ (Rose (O.faults out.old) (O.faults out.new)) → ¬ (Rose (E.faults err.old) (E.faults err.new))
        → result ≢ Status.OutOfMemory
        → IsTableOf None (O.held out.old) (O.held out.new) result net seed first count }

    // What crossed the edges is a run of the program: the same over the bytes that were read and accepted, whatever the
    // shelf and the sinks tell.
    ensures edge { HasRun (IsRunOf states) (map string_bytes words.now)
        (record { gave = F.gave shelf.old; out = O.took out.old; err = E.took err.old; tally = record { asked = F.asked shelf.old; files = F.faults shelf.old; out = O.faults out.old; err = E.faults err.old } })
        (record { gave = F.gave shelf.new; out = O.took out.new; err = E.took err.new; tally = record { asked = F.asked shelf.new; files = F.faults shelf.new; out = O.faults out.new; err = E.faults err.new } })
        (status_code result) }

    // What a status of a reply means for the table, closed or not, whatever counts rose.
    ensures means { (table : Table) → table_of (map string_bytes words.now) ≡ Ok table → IsReplied result
        → Means (record { table = table; steps = None }) (F.told shelf.old) (O.held out.old) (O.held out.new) result }

    // Where the shelf gives the network file, and out and err take the reply's texts and the line on memory that ran out, no
    // count of faults rises in this call, and the status is the reply's or `OutOfMemory`.
    ensures spared { (reply : Reply) → reply_to states.name (states.asked (map string_bytes words.now)) (F.told shelf.old) ≡ Some reply
        → IsGiven (F.gives shelf.old) (states.asked (map string_bytes words.now))
        → AreTaken states.name (O.takes out.old) (E.takes err.old) (states.asked (map string_bytes words.now)) reply
        → (F.faults shelf.new ≡ F.faults shelf.old) × (O.faults out.new ≡ O.faults out.old) × (E.faults err.new ≡ E.faults err.old)
        × ((result ≡ reply.status) ⊎ (result ≡ Status.OutOfMemory)) }
{
    let asked = asked_of(words);
    psi_streams::run(alloc, b"psi_states", asked, shelf, out, err)
}
