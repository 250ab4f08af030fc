//! A log, measured and written.

ghost use Rattle.std.specs.Prelude.{◌≡◌, ℕ, ◌^◌, ◌++◌, suc, ◌+◌, ◌-◌, ◌*◌, ◌<◌, ◌≤◌, ◌↔◌, [], length, slice_index, IsTrue, IsSome, IfSome, IsOk, OnOk, OnErr, MatchOption};
ghost use Rattle.psi_io.specs.Counts.{Rose};
ghost use Rattle.psi_io.specs.Sink.{appended, GrewByPrefix, TookPrefix};
ghost use Rattle.psi_rate.specs.System.{IsSystem};
ghost use Rattle.psi_log_writer.specs.Recorded.{log_of};
ghost use Rattle.psi_log_writer.specs.Sending.{Sends};
ghost use Rattle.psi_log_writer.specs.Walking.{text_in, IsRoomy, IsToldAfter, IsAmpleAfter, IsWalking};
ghost use Rattle.psi_log_format.specs.Text.{log_text};

use crate::block::Block;
use crate::steps::{most_held, next_line};
use psi_event::EventLaw;
use psi_horizon::Plan;
use psi_io::{Sink, SinkFault};
use psi_log_format::{Header, LineBuf, MOST_LOG_BYTES};
use psi_past::Past;
use psi_region::Follower;
use psi_state::{Bounds, State};

/// Returns whether the log of the run of the header's horizon, with this state at its end, has at most 33,554,432
/// bytes, so that it may be written.
///
/// The run is that of the plan's network and words, from the header's horizon, 1 to 2 to the power `limit`
/// steps before time zero; the header has version 2. The run is done at most once, and the lengths of its
/// lines are added up until those that are left surely fit; no line is kept. The plan's network and its past's
/// words stay as they were. The call does not allocate.
/// [`logs_are_accepted`](crate::logs_are_accepted) has what a checker says of the log.
pub fn log_fits<E: EventLaw, P: Past + Drop, F: Follower + Drop>(
    plan: &mut Plan<'_, E, P, F>,
    header: &Header,
    state: &State,
    line: &mut LineBuf,
) -> bool
    requires some { 1 ≤ header.now.horizon }
    requires most { header.now.horizon ≤ 2 ^ plan.old.system.limit }
    requires version { header.now.version ≡ 2 }
    ensures fits { IsTrue result ↔ (length (log_text (log_of E.function plan.old.system (P.words plan.old.past) header.now state.now)) ≤ 33554432) }
    ensures system { plan.new.system ≡ plan.old.system }
    ensures words { P.words plan.new.past ≡ P.words plan.old.past }
{
    let mut room = MOST_LOG_BYTES as usize;
    let mut told = None;
    for place in 0..header.horizon as u64 + 3 {
        if surely_fits(plan, header, state, place, &told, room) {
            return true;
        }
        line.clear();
        next_line(plan, header, state, place, &mut told, line);
        match room.checked_sub(line.bytes().len()) {
            Some(left) => room = left,
            None => return false,
        }
    }
    true
}

// Whether the lines from a place on surely fit in the room, by what is known of the region before them.
fn surely_fits<E: EventLaw, P: Past + Drop, F: Follower + Drop>(
    plan: &mut Plan<'_, E, P, F>,
    header: &Header,
    state: &State,
    place: u64,
    told: &Option<Bounds>,
    room: usize,
) -> bool
    requires most { header.now.horizon ≤ 2 ^ plan.old.system.limit }
    requires version { header.now.version ≡ 2 }
    requires place { place ≤ header.now.horizon + 2 }
    requires walking { IsWalking E.function P.words plan.old header.now.horizon place told.now }
    ensures fits { let words = P.words plan.old.past in
        IsTrue result → length (log_text (log_of E.function plan.old.system words header.now state.now)) ≤ length (text_in E.function plan.old.system words header.now state.now place) + room }
    ensures same { plan.new ≡ plan.old }
{
    if place < 2 {
        return false;
    }
    // Called for their clauses: the system's parts fit each other, and the range of the state's length.
    let _limit = plan.limit();
    let _queues = state.len();
    let left = header.horizon - (place - 2) as u32;
    is_roomy(plan, left, room) || is_ample(plan, told, left, room)
}

// Whether the lines of `left` steps, and the last line, surely fit in `room` bytes, whatever regions these have. It is
// asked at each 64th step, and answered by the queues, the digits of the capacities and the split number.
fn is_roomy<E: EventLaw, P: Past + Drop, F: Follower + Drop>(
    plan: &Plan<'_, E, P, F>,
    left: u32,
    room: usize,
) -> bool
    ensures { IsTrue result → IsRoomy plan.now.system.caps plan.now.system.split left room }
{
    if left % 64 != 0 {
        return false;
    }
    let caps = plan.caps();
    let digits = count_digits(greatest(&caps));
    let width = width_of(caps.len(), digits, plan.split());
    left as usize * width as usize + 200 <= room
}

// The number of bytes that a step's line has at most, with these numbers of queues, of digits of a capacity and of
// states of a set.
fn width_of(queues: u8, digits: u8, split: u16) -> u32
    requires queues { queues ≤ 32 }
    requires digits { digits ≤ 5 }
    requires split { split ≤ 4096 }
    ensures boxes { 23 + queues * (2 * digits + 5) ≤ result }
    ensures sets { 23 + split * suc (queues * suc digits) ≤ result }
{
    let queues = queues as u32;
    let digits = digits as u32;
    let boxes = queues * (2 * digits + 5);
    let sets = split as u32 * (queues * (digits + 1) + 1);
    23 + boxes.max(sets)
}

// The greatest number of a state.
fn greatest(x: &State) -> u16
    ensures { (i : ℕ) → slice_index x.now i ≤ result }
{
    let mut most = 0;
    for queue in 0..x.len() {
        most = most.max(x.get(queue));
    }
    most
}

// How many decimal digits a number has.
fn count_digits(n: u16) -> u8
    ensures enough { n < 10 ^ result }
    ensures some { 0 < result }
    ensures few { result ≤ 5 }
{
    match n {
        0..=9 => 1,
        10..=99 => 2,
        100..=999 => 3,
        1_000..=9_999 => 4,
        _ => 5,
    }
}

// Whether the lines of the steps that are left, and the last line, surely fit in the room, since the run's region
// is a set: its lines get no longer. It is asked at each 64th step, and answered by the number of its states.
fn is_ample<E: EventLaw, P: Past + Drop, F: Follower + Drop>(
    plan: &mut Plan<'_, E, P, F>,
    told: &Option<Bounds>,
    left: u32,
    room: usize,
) -> bool
    requires fit { IsSystem E.capacities plan.old.system }
    requires begun { IsSome plan.old.run }
    requires told { IfSome plan.old.run (λ r. IsToldAfter E.function plan.old.system (P.words plan.old.past) r.horizon r.done told.now) }
    ensures ample { IsTrue result → IfSome plan.old.run (λ r. IsAmpleAfter E.function plan.old.system (P.words plan.old.past) left room r.horizon r.done) }
    ensures same { plan.new ≡ plan.old }
{
    if left % 64 != 0 || told.is_some() {
        return false;
    }
    let states = plan.states();
    let width = 22 + states.len() * (6 * states[0].len() as usize + 1);
    left as usize * width + 200 <= room
}

/// Writes the log of the run of the header's horizon, with this state at its end, to a sink.
///
/// The run is that of the plan's network and words, from the header's horizon, 1 to 2 to the power `limit`
/// steps before time zero; the header has version 2. It is done once, and the lines of some steps at a time are
/// put into the block; a block goes to the sink when it is full, and the last one at the end. What waited in the
/// block before is let go. The plan's network and its past's words stay as they were. The call does not
/// allocate. [`logs_are_accepted`](crate::logs_are_accepted) has what a checker says of the log.
///
/// # Errors
///
/// [`SinkFault::Failed`] only where the sink's count rose in this call or stands at the greatest u64. What the
/// sink holds then grew by a prefix of the log, and so did what was accepted.
pub fn write_log<E: EventLaw, P: Past + Drop, F: Follower + Drop, O: Sink>(
    plan: &mut Plan<'_, E, P, F>,
    header: &Header,
    state: &State,
    line: &mut LineBuf,
    block: &mut Block,
    out: &mut O,
) -> Result<(), SinkFault>
    requires some { 1 ≤ header.now.horizon }
    requires most { header.now.horizon ≤ 2 ^ plan.old.system.limit }
    requires version { header.now.version ≡ 2 }
    ensures whole { let text = log_text (log_of E.function plan.old.system (P.words plan.old.past) header.now state.now) in
        OnOk result (O.held out.new ≡ appended (O.held out.old) text) }
    ensures prefix { let text = log_text (log_of E.function plan.old.system (P.words plan.old.past) header.now state.now) in
        OnErr result (GrewByPrefix (O.held out.old) (O.held out.new) text) }
    ensures took { let text = log_text (log_of E.function plan.old.system (P.words plan.old.past) header.now state.now) in
        OnOk result (O.took out.new ≡ O.took out.old ++ text) }
    ensures took_part { let text = log_text (log_of E.function plan.old.system (P.words plan.old.past) header.now state.now) in
        OnErr result (TookPrefix (O.took out.old) (O.took out.new) text) }
    ensures failed { OnErr result (Rose (O.faults out.old) (O.faults out.new)) }
    ensures counts { O.faults out.old ≤ O.faults out.new }
    ensures taken { let text = log_text (log_of E.function plan.old.system (P.words plan.old.past) header.now state.now) in
        (n : ℕ) → O.takes out.old n → length text ≤ n → IsOk result }
    ensures spared { let text = log_text (log_of E.function plan.old.system (P.words plan.old.past) header.now state.now) in
        (n : ℕ) → O.takes out.old n → length text ≤ n → O.faults out.new ≡ O.faults out.old }
    ensures takes_on { let text = log_text (log_of E.function plan.old.system (P.words plan.old.past) header.now state.now) in
        (n : ℕ) → O.takes out.old n → OnOk result (O.takes out.new (n - length text)) }
    ensures system { plan.new.system ≡ plan.old.system }
    ensures words { P.words plan.new.past ≡ P.words plan.old.past }
{
    write_lines(plan, header, state, line, block, out)
}

// Writes the log, line by line.
fn write_lines<E: EventLaw, P: Past + Drop, F: Follower + Drop, O: Sink>(
    plan: &mut Plan<'_, E, P, F>,
    header: &Header,
    state: &State,
    line: &mut LineBuf,
    block: &mut Block,
    out: &mut O,
) -> Result<(), SinkFault>
    requires some { 1 ≤ header.now.horizon }
    requires most { header.now.horizon ≤ 2 ^ plan.old.system.limit }
    requires version { header.now.version ≡ 2 }
    ensures sent { Sends result
        (record { held = O.held out.old; took = O.took out.old; faults = O.faults out.old; takes = O.takes out.old })
        (record { held = O.held out.new; took = O.took out.new; faults = O.faults out.new; takes = O.takes out.new })
        [] (log_text (log_of E.function plan.old.system (P.words plan.old.past) header.now state.now)) }
    ensures system { plan.new.system ≡ plan.old.system }
    ensures words { P.words plan.new.past ≡ P.words plan.old.past }
{
    block.clear();
    line.clear();
    let mut told = None;
    for place in 0..header.horizon as u64 + 3 {
        pass_on(line, most_held(header.horizon, place), block, out)?;
        next_line(plan, header, state, place, &mut told, line);
    }
    put_last(line, block, out)
}

// Puts the lines that are held into the block, and all that waits there into the sink.
fn put_last<O: Sink>(line: &LineBuf, block: &mut Block, out: &mut O) -> Result<(), SinkFault>
    ensures { Sends result
        (record { held = O.held out.old; took = O.took out.old; faults = O.faults out.old; takes = O.takes out.old })
        (record { held = O.held out.new; took = O.took out.new; faults = O.faults out.new; takes = O.takes out.new })
        [] (block.old ++ line.now) }
{
    block.put(line.bytes(), out)?;
    block.flush(out)
}

// Puts the lines that are held into the block where they have more bytes than may be held.
fn pass_on<O: Sink>(
    line: &mut LineBuf,
    most: usize,
    block: &mut Block,
    out: &mut O,
) -> Result<(), SinkFault>
    ensures sent { Sends result
        (record { held = O.held out.old; took = O.took out.old; faults = O.faults out.old; takes = O.takes out.old })
        (record { held = O.held out.new; took = O.took out.new; faults = O.faults out.new; takes = O.takes out.new })
        (block.new ++ line.new) (block.old ++ line.old) }
    ensures short { OnOk result (length line.new ≤ most) }
{
    if line.bytes().len() <= most {
        return Ok(());
    }
    block.put(line.bytes(), out)?;
    line.clear();
    Ok(())
}
