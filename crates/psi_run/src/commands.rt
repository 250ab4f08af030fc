//! What a call does for its words: the work before the first byte, and the writing.

ghost use Rattle.std.specs.Prelude.{◌≡◌, ℕ, ◌++◌, List, Option, Ok, map, drop};
ghost use Rattle.psi_io.specs.Shelf.{AgreesSince};
ghost use Rattle.psi_program.specs.Seen.{ShelfCall, seen_with};
ghost use Rattle.psi_program.specs.SeenBy.{shelf_call, sink_seen};
ghost use Rattle.psi_command.specs.Command.{files_of};
ghost use Rattle.psi_command.specs.Request.{asked, requested, IsInRange, AsksInRange};
ghost use Rattle.psi_program.specs.Ending.{HasRead};
ghost use Rattle.psi_program.specs.Finished.{IsFinished};
ghost use Rattle.psi_run.specs.Reads.{read_of, AreGiven};
ghost use Rattle.psi_reply.specs.Ending.{faults};
ghost use Rattle.psi_run.specs.Ending.{IsEnding, IsEndingOf, EndsAnyhow};
ghost use Rattle.psi_reply.specs.Ended.{ending_of};
ghost use Rattle.psi_run.specs.Files.{IsNetAt};

mod certify;
mod replay;

use crate::files::network_at;
use crate::writing::finish;
use psi_command::{Question, Request, Status};
use psi_io::{Shelf, Sink};
use psi_net::Net;
use psi_reply::{
    Ending, check_ending, closed_ending, couple_ending, exact_ending, report_ending, reward_ending,
    sample_ending, trial_ending,
};
use std::alloc::Global;

/// Does what is asked for: the work for the command, before the first byte is written, and then the writing.
pub(crate) fn perform<F: Shelf, O: Sink, E: Sink>(
    alloc: Global,
    request: Request<'_>,
    shelf: &mut F,
    out: &mut O,
    err: &mut E,
) -> Status
    requires { AsksInRange request }
    // The work has an ending, with the reads that it names; where the shelf gives each file that is named, no read
    // failed.
    ensures finished { let command = Ok (requested request.entry) in
        let seen : ShelfCall = shelf_call F.gave F.asked F.faults shelf.old shelf.new in
        IsFinished faults (EndsAnyhow seen (F.gives shelf.old) command)
        (O.takes out.old) (E.takes err.old)
        (sink_seen O.held O.took O.faults out.old out.new) (sink_seen E.held E.took E.faults err.old err.new) result }
    // The answers agree with what the shelf's model has.
    ensures agrees { AgreesSince (F.told shelf.old) (F.gave shelf.old) (F.gave shelf.new) }
    // And no count rose there.
    ensures spared { AreGiven (F.gives shelf.old) (Ok (requested request.entry)) → F.faults shelf.new ≡ F.faults shelf.old }
{
    match request {
        Request::About { net, question } => finish(&work(alloc, shelf, net, question), out, err),
        Request::Trial { number } => finish(&trial_ending(alloc, number), out, err),
        Request::Certify { net, seed, stream } => {
            certify::perform(alloc, shelf, net, seed, stream, out, err)
        }
    }
}

// The work for a question about a network: the network is read, and the question answered.
fn work<'w, F: Shelf>(
    alloc: Global,
    shelf: &mut F,
    name: &'w str,
    question: Question<'w>,
) -> Ending<'w>
    requires { IsInRange question }
    ensures ending { IsEndingOf (shelf_call F.gave F.asked F.faults shelf.old shelf.new)
        (Ok (asked name.now question.entry)) (ending_of result) }
    // The answers agree with what the shelf's model has.
    ensures agrees { AgreesSince (F.told shelf.old) (F.gave shelf.old) (F.gave shelf.new) }
    ensures read { AreGiven (F.gives shelf.old) (Ok (asked name.now question.entry)) → HasRead (ending_of result) }
    ensures spared { AreGiven (F.gives shelf.old) (Ok (asked name.now question.entry)) → F.faults shelf.new ≡ F.faults shelf.old }
{
    match network_at(alloc, shelf, name) {
        Ok(net) => answer(alloc, shelf, &net, question),
        Err(ending) => ending,
    }
}

// The work on the network of a file.
#[tactic(auto, using(crate::proofs::ReadFilesLemmas::nothing_behind, psi_io::proofs::AgreeingLemmas::agrees_unmoved))]
fn answer<'w, F: Shelf>(
    alloc: Global,
    shelf: &mut F,
    net: &Net,
    question: Question<'w>,
) -> Ending<'w>
    requires { IsInRange question }
    ensures ending { (told : List ℕ → Option (List ℕ)) → AgreesSince told (F.gave shelf.old) (F.gave shelf.new) → (name : List ℕ) → IsNetAt told name net.now
        → IsEnding (seen_with (shelf_call F.gave F.asked F.faults shelf.old shelf.new) told)
        (Ok (asked name question.entry)) (ending_of result) }
    // The answers agree with what the shelf's model has.
    ensures agrees { AgreesSince (F.told shelf.old) (F.gave shelf.old) (F.gave shelf.new) }
    // The files that are named after the network's are read.
    ensures asked { (name : List ℕ) → F.asked shelf.new ≡ F.asked shelf.old ++ map read_of (drop 1 (files_of (asked name question.entry))) }
    ensures read { (name : List ℕ) → AreGiven (F.gives shelf.old) (Ok (asked name question.entry)) → HasRead (ending_of result) }
    ensures spared { (name : List ℕ) → AreGiven (F.gives shelf.old) (Ok (asked name question.entry)) → F.faults shelf.new ≡ F.faults shelf.old }
{
    match question {
        Question::Sample { seed, stream } => sample_ending(alloc, net, seed, stream),
        Question::Check => check_ending(alloc, net),
        Question::Report { seed, first, count } => { report_ending(alloc, net, seed, first, count) }
        Question::Couple { seed, stream } => couple_ending(alloc, net, seed, stream),
        Question::Reward { seed, stream, name } => { reward_ending(alloc, net, seed, stream, name) }
        Question::Exact { seed, stream, h } => exact_ending(alloc, net, seed, stream, h),
        Question::Closed {
            seed,
            stream,
            total,
        } => closed_ending(alloc, net, seed, stream, total),
        Question::Replay { log } => replay::work(alloc, shelf, net, log),
    }
}
