//! The call that does all that the program does.

ghost use Rattle.std.specs.Prelude.{◌≡◌, ◌⊎◌, Some, map, string_bytes};
ghost use Rattle.psi_program.specs.SeenBy.{shelf_seen, sink_seen, call_seen};
ghost use Rattle.psi_program.specs.Run.{HasRun};
ghost use Rattle.psi_merge.specs.Status.{status_code};
ghost use Rattle.psi_merge.specs.Reply.{Reply, reply_to};
ghost use Rattle.psi_merge.specs.Spared.{AreGiven, AreTaken};
ghost use Rattle.psi_merge.specs.Call.{IsRun, MergesReports};
ghost use Rattle.psi_merge.specs.Run.{IsRunOf};

use crate::files::work;
use crate::status::Status;
use psi_io::{Shelf, Sink};
use psi_program::finish;
use std::alloc::Global;

/// Reads the reports in the files that the words name, and prints the report of all their samples; it returns how that
/// ended.
///
/// The words are names of files, one at least, none of which begins with a minus sign. Each file is read in the order of
/// the words, and has the report of samples of one network, as `psi report` or this program prints it, in at most
/// 1,048,576 bytes. The report of all is that of the samples of the first file, then those of the second, and so on: its
/// counts and sums are the sums of theirs, its horizons are all of theirs, and its extremes the least and the greatest
/// of theirs. Nothing is written to out unless all files are read and merged, and with any other status but `WriteFault`
/// one line to err gives the reason.
///
/// | Status | Line |
/// |---|---|
/// | `Usage` | `psi_merge: usage: psi_merge FILE..` |
/// | `Refused` | `psi_merge: refused CAUSE NAME line L FILE` |
/// | `OtherNetwork` | `psi_merge: other network line L FILE` |
/// | `TooLarge` | `psi_merge: too large line L FILE` |
/// | `ReadFault` | `psi_merge: cannot read FILE` |
/// | `OutOfMemory` | `psi_merge: out of memory` |
///
/// FILE is the word that names the first file for which there is no report of all. L is the first line of it that is
/// wrong, counted from 1, or 0 for the text as a whole; of another network, the line of the first sum that isn't of the
/// queue or the reward of the first file's sum at its place; where a number would be too large, the line of that
/// number. CAUSE and NAME are `0 TooLong`, `1 Row` where a line is no row of a report, `2 Text` where each line is a
/// row but the text isn't that of the report that they make up, and `3 Samples` where the rows aren't those of samples
/// of a network: horizons are powers of two of at most 2^22 that ascend, their counts are those of the samples that are
/// met, there are 1 to 32 queues and at most 64 rewards, of which no two of a kind have one name, queues hold 0 to
/// 65,535 customers, rewards come to a magnitude of at most 2,097,120,000,000,000, and each sum is one that as many
/// values as samples are met may have, with this least and this greatest. A count of 2^64 or more, or a sum whose
/// magnitude is 10^37 or more, is too large.
///
/// A file is needed only where those before it are accepted and merged. Each that is needed is read once, in the order of
/// the words and up to one byte more than it may have; none is read after one that is refused or couldn't be read.
/// Where the shelf gives each file that is needed, and out and err take their texts, no count rises, and the status is
/// neither `ReadFault` nor `WriteFault`.
pub(crate) fn run<F: Shelf, O: Sink, E: Sink>(
    alloc: Global,
    words: &[String],
    shelf: &mut F,
    out: &mut O,
    err: &mut E,
) -> Status
    // What each status says of the words, the shelf and the sinks.
    ensures call { IsRun (call_seen (map string_bytes words.now) (shelf_seen F.told F.asked F.faults shelf.old shelf.new)
        (sink_seen O.held O.took O.faults out.old out.new) (sink_seen E.held E.took E.faults err.old err.new)) result }

    // The headline: the reports of lists of samples of one network that a file may describe are merged into the report
    // of all lists, one after another.
    ensures headline { MergesReports (call_seen (map string_bytes words.now) (shelf_seen F.told F.asked F.faults shelf.old shelf.new)
        (sink_seen O.held O.took O.faults out.old out.new) (sink_seen E.held E.took E.faults err.old err.new)) result }

    // What crossed the edges is a run of the program: the same over the bytes that were read and accepted, whatever the
    // models of the shelf and the sinks have.
    ensures edge { HasRun IsRunOf (map string_bytes words.now)
        (record { gave = F.gave shelf.old; out = O.took out.old; err = E.took err.old; tally = record { asked = F.asked shelf.old; files = F.faults shelf.old; out = O.faults out.old; err = E.faults err.old } })
        (record { gave = F.gave shelf.new; out = O.took out.new; err = E.took err.new; tally = record { asked = F.asked shelf.new; files = F.faults shelf.new; out = O.faults out.new; err = E.faults err.new } })
        (status_code result) }

    // Where the shelf gives each file that is needed, and out and err take the reply's texts and the line that reports
    // out of memory, no count of faults rises in this call, and the status is the reply's or `OutOfMemory`.
    ensures spared { (reply : Reply) → reply_to (F.told shelf.old) (map string_bytes words.now) ≡ Some reply
        → AreGiven (F.gives shelf.old) (F.told shelf.old) (map string_bytes words.now)
        → AreTaken (O.takes out.old) (E.takes err.old) (map string_bytes words.now) reply
        → (F.faults shelf.new ≡ F.faults shelf.old) × (O.faults out.new ≡ O.faults out.old) × (E.faults err.new ≡ E.faults err.old)
        × ((result ≡ reply.status) ⊎ (result ≡ Status.OutOfMemory)) }
{
    let ending = work(alloc, words, shelf);
    finish(ending.status(), Status::WriteFault, ending.text(), out, err)
}
