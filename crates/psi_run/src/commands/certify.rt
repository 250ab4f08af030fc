//! `sample NET SEED STREAM log`: the log of a sample.

ghost use Rattle.std.specs.Prelude.{◌≡◌, ◌^◌, ◌≤◌, Ok};
ghost use Rattle.psi_io.specs.Shelf.{AgreesSince};
ghost use Rattle.psi_program.specs.Seen.{ShelfCall};
ghost use Rattle.psi_program.specs.SeenBy.{shelf_call, sink_seen};
ghost use Rattle.psi_log_format.specs.Text.{log_text};
ghost use Rattle.psi_log_writer.specs.Recorded.{log_of};
ghost use Rattle.psi_command.specs.Command.{certify};
ghost use Rattle.psi_reply.specs.Sample.{sampled};
ghost use Rattle.psi_reply.specs.Reply.{log_reply, certify_reply};
ghost use Rattle.psi_program.specs.Ending.{HasRead};
ghost use Rattle.psi_program.specs.Finished.{IsFinished};
ghost use Rattle.psi_reply.specs.Ending.{faults, EndsWith};
ghost use Rattle.psi_run.specs.Ending.{IsEndingOf};

use crate::files::network_at;
use crate::writing::finish;
use psi_command::Status;
use psi_event::EventLaw;
use psi_horizon::Plan;
use psi_io::{Shelf, Sink};
use psi_log::{Header, LineBuf};
use psi_log_writer::{Block, log_fits, write_log};
use psi_net::Net;
use psi_past::Past;
use psi_region::Follower;
use psi_reply::{Ending, plan_for, unmet_ending};
use psi_state::{Outcome, State};
use std::alloc::Global;

// Writes the log of the run of the header's horizon, which ends with this state, or the line on one that is
// too long. Its allocations come first; then the run is done once for the length of its log, and once more
// for its text, which is written as the lines come.
fn write_run<L: EventLaw, P: Past + Drop, F: Follower + Drop, O: Sink, E: Sink>(
    alloc: Global,
    plan: &mut Plan<'_, L, P, F>,
    header: &Header,
    state: &State,
    out: &mut O,
    err: &mut E,
) -> Status
    requires some { 1 ≤ header.now.horizon }
    requires most { header.now.horizon ≤ 2 ^ plan.old.system.limit }
    requires version { header.now.version ≡ 2 }
    ensures { let text = log_text (log_of L.function plan.old.system (P.words plan.old.past) header.now state.now) in
        IsFinished faults (λ ending. EndsWith ending (log_reply text)) (O.takes out.old) (E.takes err.old)
        (sink_seen O.held O.took O.faults out.old out.new) (sink_seen E.held E.took E.faults err.old err.new) result }
{
    let Ok(mut line) = LineBuf::reserve(alloc) else {
        return finish(&Ending::OutOfMemory, out, err);
    };
    let Ok(mut block) = Block::reserve(alloc) else {
        return finish(&Ending::OutOfMemory, out, err);
    };
    let fits = log_fits(plan, header, state, &mut line);
    if !fits {
        return finish(&Ending::LogTooLong, out, err);
    }
    match write_log(plan, header, state, &mut line, &mut block, out) {
        Ok(()) => Status::Done,
        Err(_) => Status::WriteFault,
    }
}

// The log of a sample of the network, written, or the reply instead of it.
fn write_sample<O: Sink, E: Sink>(
    alloc: Global,
    net: &Net,
    seed: u64,
    stream: u64,
    out: &mut O,
    err: &mut E,
) -> Status
    ensures { IsFinished faults (λ ending. EndsWith ending (certify_reply net.now seed stream (sampled net.now seed stream))) (O.takes out.old) (E.takes err.old)
        (sink_seen O.held O.took O.faults out.old out.new) (sink_seen E.held E.took E.faults err.old err.new) result }
{
    let queues = net.queues();
    let Ok(mut plan) = plan_for(alloc, net, seed, stream) else {
        return finish(&Ending::OutOfMemory, out, err);
    };
    let outcome = plan.sample();
    match outcome {
        Outcome::Met { horizon, state } => {
            let header = Header {
                version: 2,
                queues,
                seed,
                stream,
                horizon,
            };
            let status = write_run(alloc, &mut plan, &header, &state, out, err);
            drop(plan);
            status
        }
        Outcome::NotMet { limit } => {
            drop(plan);
            finish(&unmet_ending(alloc, limit), out, err)
        }
    }
}

/// The log of a sample: the network is read, a sample of it is drawn, and the run of its horizon is written.
///
/// The log goes to out in pieces, so it is no text of an ending. It is as if it were: there is an ending
/// whose text was written, whole or in part.
pub(crate) fn perform<F: Shelf, O: Sink, E: Sink>(
    alloc: Global,
    shelf: &mut F,
    net: &str,
    seed: u64,
    stream: u64,
    out: &mut O,
    err: &mut E,
) -> Status
    ensures finished { let seen : ShelfCall = shelf_call F.gave F.asked F.faults shelf.old shelf.new in
        IsFinished faults (λ ending. IsEndingOf seen (Ok (certify net.now seed stream)) ending × (F.gives shelf.old net.now → HasRead ending)) (O.takes out.old) (E.takes err.old)
        (sink_seen O.held O.took O.faults out.old out.new) (sink_seen E.held E.took E.faults err.old err.new) result }
    // The answers agree with what the shelf's model has.
    ensures agrees { AgreesSince (F.told shelf.old) (F.gave shelf.old) (F.gave shelf.new) }
    ensures spared { F.gives shelf.old net.now → F.faults shelf.new ≡ F.faults shelf.old }
{
    match network_at(alloc, shelf, net) {
        Ok(net) => write_sample(alloc, &net, seed, stream, out, err),
        Err(ending) => finish(&ending, out, err),
    }
}
