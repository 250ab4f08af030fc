//! Logs: their lines, their writing, what a log that was read tells, and its replay.

ghost use Rattle.std.specs.Prelude.{◌≡◌, ◌≤◌, ◌^◌};

use psi_event::EventLaw;
use psi_follow::plan_of;
use psi_horizon::Plan;
use psi_io::MemorySink;
use psi_log::{Form, Log, LogReader, read_log};
use psi_log_format::{Header, LineBuf};
use psi_log_writer::{Block, log_fits, write_log};
use psi_net::Net;
use psi_past::{Past, SeedPast};
use psi_region::Follower;
use psi_replay::{StreamReplay, verdict};
use psi_state::{Bounds, Outcome, State, Step};
use std::alloc::Global;

/// How many bytes a sink has room for: two logs of the greatest run here.
const ROOM: usize = 300_000;

/// Makes a line, and for each network the log of a run, which is written and read; and calls them or not. `None`
/// where memory is wanting. The runs follow sets of states that become one, boxes that become one state, and a set
/// that never does, whose log is longer than a block.
pub(crate) fn make(alloc: Global, calls: bool, net: &Net, pair: &Net, ring: &Net) -> Option<()> {
    make_line(alloc, calls, net)?;
    make_log(alloc, calls, net, 6)?;
    make_log(alloc, calls, pair, 6)?;
    make_log(alloc, calls, ring, 11)
}

fn make_line(alloc: Global, calls: bool, net: &Net) -> Option<()> {
    let mut line = LineBuf::reserve(alloc).ok()?;
    if calls {
        let caps = net.system().caps();
        let whole = Bounds::whole(&caps);
        let step = Step {
            number: 1,
            event: 0,
        };
        line.header(&header_of(caps.len(), 1));
        line.begin(&whole);
        line.step_box(&step, &whole);
        line.step_set(&step, &[caps]);
        line.step_move(&step, &whole, &whole);
        line.end(&caps);
        let _length = line.bytes().len();
    }
    Some(())
}

// The header of a log of so many queues and steps.
fn header_of(queues: u8, horizon: u32) -> Header
    ensures { result ≡ record { version = 2; queues = queues; seed = 0; stream = 0; horizon = horizon } }
{
    Header {
        version: 2,
        queues,
        seed: 0,
        stream: 0,
        horizon,
    }
}

/// What a log is written with.
#[derive(Drop)]
struct Writing {
    line: LineBuf,
    block: Block,
    sink: MemorySink,
}

// The room for a line, a block and two logs.
fn room_to_write(alloc: Global) -> Option<Writing> {
    let line = LineBuf::reserve(alloc).ok()?;
    let block = Block::reserve(alloc).ok()?;
    let sink = MemorySink::new(alloc, ROOM, ROOM, Vec::new(alloc)).ok()?;
    Some(Writing { line, block, sink })
}

// A log that was written of the longest run within the limit, and whatever writes and reads one again.
fn make_log(alloc: Global, calls: bool, net: &Net, limit: u8) -> Option<()>
    requires { limit ≤ 22 }
{
    let system = net.system().with_limit(limit);
    let mut plan = plan_of(alloc, net.system().with_limit(limit), SeedPast::new(0, 0)).ok()?;
    let mut writing = room_to_write(alloc)?;
    write(&mut plan, &system.caps(), &mut writing);
    let log = read_log(alloc, writing.sink.bytes()).ok()?;
    if calls {
        write(&mut plan, &system.caps(), &mut writing);
        call_log(&log);
        let _verdict = verdict(&system, &log);
    }
    let reader = LogReader::open(alloc, writing.sink.bytes()).ok()?;
    if calls {
        let _header = reader.header();
        let _before = reader.before();
        let _region = reader.region();
        let _stays = reader.stays();
        let _left = reader.into_cursor();
        let _replay = StreamReplay::new(alloc, &system);
    }
    Some(())
}

// The log of the longest run, with the state of the sample at its end, where the sample is met, and else the full one.
fn write<E: EventLaw, P: Past + Drop, F: Follower + Drop>(
    plan: &mut Plan<'_, E, P, F>,
    full: &State,
    writing: &mut Writing,
) {
    let state = match plan.sample() {
        Outcome::Met { state, .. } => state,
        Outcome::NotMet { .. } => *full,
    };
    let header = header_of(full.len(), 1 << plan.limit());
    let _fits = log_fits(plan, &header, &state, &mut writing.line);
    let _written = write_log(
        plan,
        &header,
        &state,
        &mut writing.line,
        &mut writing.block,
        &mut writing.sink,
    );
}

#[tactic(auto, using(psi_log::proofs::ToldLemmas::has_state))]
fn call_log(log: &Log) {
    let last = log.header().horizon;
    let _step = log.step(1);
    let _begin = log.region(0);
    match log.region(last) {
        Form::Set { count } if count > 0 => {
            let state = log.state(last, 0);
            let _within = log.state_leq(last, 0, &state);
        }
        _ => {}
    }
    let _end = log.end();
}
