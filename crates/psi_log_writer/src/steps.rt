//! The lines of a run, one after another.

ghost use Rattle.std.specs.Prelude.{◌≡◌, ◌+◌, ◌^◌, ◌<◌, ◌≤◌, ◌++◌, suc, Some, length, IsSome, IfSome};
ghost use Rattle.psi_state.specs.State.{IsBelow};
ghost use Rattle.psi_region.specs.Region.{start};
ghost use Rattle.psi_log_format.specs.Text.{begin_text, step_text};
ghost use Rattle.psi_horizon.specs.Planned.{onward};
ghost use Rattle.psi_log_writer.specs.Recorded.{region_of};
ghost use Rattle.psi_log_writer.specs.Walking.{box_words, line_of, line_in, most_held, IsToldAfter, IsWalking};

use psi_event::EventLaw;
use psi_horizon::Plan;
use psi_log_format::{Header, LineBuf};
use psi_past::Past;
use psi_region::Follower;
use psi_state::{Bounds, State, Step};

// How many bytes of lines are held before they are put into the block.
const MANY: usize = 8_192;

/// Appends what stands at a place of the log of the header's run to the lines that are held: the header's lines at 0,
/// the line of the begin at 1, those of the steps, and after them that of the end. The run goes on by the step.
/// Only the line of a step is appended to others; these have at most 8,192 bytes then.
///
/// `told` is the box of the region before the step, where it isn't split, and that of the region after it then.
pub(crate) fn next_line<E: EventLaw, P: Past + Drop, F: Follower + Drop>(
    plan: &mut Plan<'_, E, P, F>,
    header: &Header,
    state: &State,
    place: u64,
    told: &mut Option<Bounds>,
    line: &mut LineBuf,
)
    requires some { 1 ≤ header.now.horizon }
    requires most { header.now.horizon ≤ 2 ^ plan.old.system.limit }
    requires place { place ≤ header.now.horizon + 2 }
    requires walking { IsWalking E.function P.words plan.old header.now.horizon place told.old }
    requires held { length line.old ≤ most_held header.now.horizon place }
    ensures line { line.new ≡ line.old ++ line_in E.function plan.old.system (P.words plan.old.past) header.now state.now place }
    ensures walking { IsWalking E.function P.words plan.new header.now.horizon (suc place) told.new }
    ensures system { plan.new.system ≡ plan.old.system }
    ensures words { P.words plan.new.past ≡ P.words plan.old.past }
{
    if place == 0 {
        line.header(header);
    } else if place == 1 {
        *told = begin_line(plan, header.horizon, line);
    } else if place - 2 < header.horizon as u64 {
        step_line(plan, told, line);
    } else {
        line.end(state);
    }
}

/// How many bytes may be held where the lines of a place are put after them.
pub(crate) fn most_held(horizon: u32, place: u64) -> usize
    ensures { result ≡ most_held horizon place }
{
    if place < 2 || place - 2 >= horizon as u64 {
        return 0;
    }
    MANY
}

// Begins the run of a horizon, and holds the line of the box at which it begins, which is the answer.
fn begin_line<E: EventLaw, P: Past + Drop, F: Follower + Drop>(
    plan: &mut Plan<'_, E, P, F>,
    horizon: u32,
    line: &mut LineBuf,
) -> Option<Bounds>
    requires some { 1 ≤ horizon }
    requires most { horizon ≤ 2 ^ plan.old.system.limit }
    ensures line { line.new ≡ begin_text (region_of (start plan.old.system.caps)) }
    ensures told { IsToldAfter E.function plan.old.system (P.words plan.old.past) horizon 0 result }
    ensures run { plan.new.run ≡ Some (record { horizon = horizon; done = 0 }) }
    ensures system { plan.new.system ≡ plan.old.system }
    ensures words { P.words plan.new.past ≡ P.words plan.old.past }
{
    plan.begin(horizon);
    let whole = plan.bounds()?;
    line.begin(&whole);
    Some(whole)
}

// Does the next step of the run, and puts its line after those that are held, which have at most 8,192 bytes.
// `told` is the box of the region before the step, where it isn't split, and that of the region after it then: it is
// written in its place, since a box has some size.
fn step_line<E: EventLaw, P: Past + Drop, F: Follower + Drop>(
    plan: &mut Plan<'_, E, P, F>,
    told: &mut Option<Bounds>,
    line: &mut LineBuf,
)
    requires begun { IsSome plan.old.run }
    requires left { IfSome plan.old.run (λ r. r.done < r.horizon) }
    requires before { IfSome plan.old.run (λ r. IsToldAfter E.function plan.old.system (P.words plan.old.past) r.horizon r.done told.old) }
    requires room { length line.old ≤ 8192 }
    ensures line { IfSome plan.old.run (λ r. line.new ≡ line.old ++ line_of E.function plan.old.system (P.words plan.old.past) r.horizon r.done) }
    ensures told { IfSome plan.old.run (λ r. IsToldAfter E.function plan.old.system (P.words plan.old.past) r.horizon (suc r.done) told.new) }
    ensures run { plan.new ≡ record plan.old { run = onward plan.old.run } }
{
    // Called for its clause: the system's parts fit each other.
    let _limit = plan.limit();
    let Some(step) = plan.advance() else {
        return;
    };
    match plan.bounds() {
        Some(after) => {
            box_line(&step, told, &after, line);
            *told = Some(after);
        }
        None => {
            line.add_step_set(&step, plan.states());
            *told = None;
        }
    }
}

// Appends the line of a step with the box after it to those that are held: by what changed where the region
// before is a box, and else whole.
fn box_line(step: &Step, before: &Option<Bounds>, after: &Bounds, line: &mut LineBuf)
    requires same { IfSome before.now (λ b. length b.lo ≡ length after.now.lo) }
    requires room { length line.old ≤ 8192 }
    ensures { line.new ≡ line.old ++ step_text step.now (box_words before.now after.now) }
{
    match before {
        Some(from) => line.add_step_move(step, from, after),
        None => line.add_step_box(step, after),
    }
}
