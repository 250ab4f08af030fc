//! What a call does for its arguments: it allocates, draws the table and writes it.

ghost use Rattle.std.specs.Prelude.{◌≡◌, ◌+◌, ◌^◌, ◌≤◌, ℕ, Ok, length, IfSome};
ghost use Rattle.psi_io.specs.Shelf.{AgreesSince};
ghost use Rattle.psi_closed.specs.Diagram.{IsTotal};
ghost use Rattle.psi_net_model.specs.Network.{caps_of};
ghost use Rattle.psi_program.specs.Finished.{IsFinished};
ghost use Rattle.psi_program.specs.SeenBy.{shelf_call, sink_seen};
ghost use Rattle.psi_streams.specs.Asked.{seen_asked, IsInRange};
ghost use Rattle.psi_reply.specs.Closed.{AreMovesOf};
ghost use Rattle.psi_reply.specs.Ending.{EndsWith};
ghost use Rattle.psi_reply.specs.Report.{samples_of};
ghost use Rattle.psi_streams.specs.Named.{named_reply, faults};
ghost use Rattle.psi_streams.specs.Reply.{table_reply, closed_samples_of, closed_states_reply, asked_reply};
ghost use Rattle.psi_streams.specs.Ended.{IsEndingOf};

use crate::drawing::{ClosedStreams, OpenStreams};
use crate::naming::finish;
use crate::program::Task;
use crate::table::{table_status, write_table};
use crate::tabling::Tabling;
use psi_command::Status;
use psi_io::{Shelf, Sink};
use psi_kinds::Move;
use psi_net_model::Net;
use psi_past::SeedPast;
use psi_reply::{Ending, closed_plan, has_room, moves_of, plan_for};
use psi_run::network_at;
use std::alloc::Global;

// Writes the table of a network's samples or of their paths, or reports why there is none.
fn write_open<O: Sink, E: Sink>(
    alloc: Global,
    net: &Net,
    task: &Task<'_>,
    out: &mut O,
    err: &mut E,
) -> Status
    requires name { length task.now.name.now ≤ 10 }
    requires streams { task.now.asked.table.first + task.now.asked.table.count ≤ 2 ^ 64 }
    requires few { IfSome task.now.asked.steps (λ steps. steps ≤ 4290772992) }
    ensures { IsFinished (faults task.now.name.now) (λ ending. EndsWith ending (table_reply task.now.asked.steps net.now task.now.asked.table.seed task.now.asked.table.first (samples_of net.now task.now.asked.table.seed task.now.asked.table.first task.now.asked.table.count)))
        (O.takes out.old) (E.takes err.old)
        (sink_seen O.held O.took O.faults out.old out.new) (sink_seen E.held E.took E.faults err.old err.new) result }
{
    let table = &task.asked.table;
    let Ok(plan) = plan_for(alloc, net, table.seed, table.first) else {
        return finish(task.name, &Ending::OutOfMemory, out, err);
    };
    let mut streams = OpenStreams::new(net, table.seed, plan);
    let Ok(mut tabling) = Tabling::begin(alloc, net, table.seed, task.asked.steps) else {
        return finish(task.name, &Ending::OutOfMemory, out, err);
    };
    let written = write_table(&mut streams, &mut tabling, table.first, table.count, out);
    table_status(written)
}

// As `write_open`, for a closed network of these moves.
fn write_moves<O: Sink, E: Sink>(
    alloc: Global,
    net: &Net,
    moves: &[Move],
    task: &Task<'_>,
    total: u16,
    out: &mut O,
    err: &mut E,
) -> Status
    requires moves { AreMovesOf net.now.events moves.now }
    requires fits { IsTotal (caps_of net.now) total }
    requires name { length task.now.name.now ≤ 10 }
    requires streams { task.now.asked.table.first + task.now.asked.table.count ≤ 2 ^ 64 }
    requires few { IfSome task.now.asked.steps (λ steps. steps ≤ 4290772992) }
    ensures { IsFinished (faults task.now.name.now) (λ ending. EndsWith ending (table_reply task.now.asked.steps net.now task.now.asked.table.seed task.now.asked.table.first (closed_samples_of net.now task.now.asked.table.seed total task.now.asked.table.first task.now.asked.table.count)))
        (O.takes out.old) (E.takes err.old)
        (sink_seen O.held O.took O.faults out.old out.new) (sink_seen E.held E.took E.faults err.old err.new) result }
{
    let table = &task.asked.table;
    let past = SeedPast::new(table.seed, table.first);
    let Ok(plan) = closed_plan(alloc, net, moves, past, total) else {
        return finish(task.name, &Ending::OutOfMemory, out, err);
    };
    let mut streams = ClosedStreams::new(net, table.seed, plan);
    let Ok(mut tabling) = Tabling::begin(alloc, net, table.seed, task.asked.steps) else {
        return finish(task.name, &Ending::OutOfMemory, out, err);
    };
    let written = write_table(&mut streams, &mut tabling, table.first, table.count, out);
    table_status(written)
}

// As `write_open`, for a closed network, whose events have to be moves.
fn write_closed<O: Sink, E: Sink>(
    alloc: Global,
    net: &Net,
    task: &Task<'_>,
    total: u16,
    out: &mut O,
    err: &mut E,
) -> Status
    requires name { length task.now.name.now ≤ 10 }
    requires streams { task.now.asked.table.first + task.now.asked.table.count ≤ 2 ^ 64 }
    requires few { IfSome task.now.asked.steps (λ steps. steps ≤ 4290772992) }
    requires most { total ≤ 256 }
    ensures { IsFinished (faults task.now.name.now) (λ ending. EndsWith ending (named_reply task.now.name.now (closed_states_reply task.now.asked.steps net.now task.now.asked.table.seed task.now.asked.table.first task.now.asked.table.count total)))
        (O.takes out.old) (E.takes err.old)
        (sink_seen O.held O.took O.faults out.old out.new) (sink_seen E.held E.took E.faults err.old err.new) result }
{
    let moves = match moves_of(alloc, net) {
        Ok(moves) => moves,
        Err(ending) => return finish(task.name, &ending, out, err),
    };
    if !has_room(net, total) {
        return finish(task.name, &Ending::NoSuchTotal, out, err);
    }
    write_moves(alloc, net, moves.as_slice(), task, total, out, err)
}

// As `write_open` or `write_closed`, as the arguments ask.
fn write_states<O: Sink, E: Sink>(
    alloc: Global,
    net: &Net,
    task: &Task<'_>,
    out: &mut O,
    err: &mut E,
) -> Status
    requires name { length task.now.name.now ≤ 10 }
    requires ranges { IsInRange task.now.asked }
    ensures { IsFinished (faults task.now.name.now) (λ ending. EndsWith ending (named_reply task.now.name.now (asked_reply (seen_asked task.now.asked) net.now)))
        (O.takes out.old) (E.takes err.old)
        (sink_seen O.held O.took O.faults out.old out.new) (sink_seen E.held E.took E.faults err.old err.new) result }
{
    match task.asked.table.total {
        Some(total) => write_closed(alloc, net, task, total, out, err),
        None => write_open(alloc, net, task, out, err),
    }
}

/// Does what is asked for: it reads the network, allocates all that it needs, and draws and writes the table.
///
/// The table goes to out in pieces, so it is no text of an ending. It is as if it were: there is an ending whose text was
/// written, whole or in part.
pub(crate) fn perform<F: Shelf, O: Sink, E: Sink>(
    alloc: Global,
    task: &Task<'_>,
    shelf: &mut F,
    out: &mut O,
    err: &mut E,
) -> Status
    requires name { length task.now.name.now ≤ 10 }
    requires ranges { IsInRange task.now.asked }
    ensures finished { IsFinished (faults task.now.name.now) (IsEndingOf task.now.name.now (shelf_call F.gave F.asked F.faults shelf.old shelf.new) (F.gives shelf.old) (Ok (seen_asked task.now.asked))) (O.takes out.old) (E.takes err.old)
        (sink_seen O.held O.took O.faults out.old out.new) (sink_seen E.held E.took E.faults err.old err.new) result }
    // The answers agree with what the shelf tells.
    ensures agrees { AgreesSince (F.told shelf.old) (F.gave shelf.old) (F.gave shelf.new) }
    // Where the shelf gives the network file, no count rose.
    ensures spared { F.gives shelf.old task.now.asked.table.net.now → F.faults shelf.new ≡ F.faults shelf.old }
{
    match network_at(alloc, shelf, task.asked.table.net) {
        Ok(net) => write_states(alloc, &net, task, out, err),
        Err(ending) => finish(task.name, &ending, out, err),
    }
}
