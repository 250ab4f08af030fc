//! Runs of networks that aren't monotone, on packed states once their regions have few.

ghost use Rattle.std.specs.Prelude.{◌≡◌, ◌<◌, ◌≤◌, ℕ, List, None, map, length, slice_index, slice_index_or, All, EachIndex, IsTrue, IfOk, IfSome};
ghost use Rattle.psi_state.specs.State.{box};
ghost use Rattle.psi_state.specs.Sets.{image, single};
ghost use Rattle.psi_event.specs.Numbers.{AreEvents, follow_numbers};
ghost use Rattle.psi_event.specs.Law.{Function, IsClosed};
ghost use Rattle.psi_follow_packed.specs.Programs.{Prepares};
ghost use Rattle.psi_follow_packed.specs.Boxes.{AreCorners};
ghost use Rattle.psi_follow_packed.specs.Views.{low_words, high_words};
ghost use Rattle.psi_follow_packed.specs.UnitEvents.{Encloses};
ghost use Rattle.psi_region.specs.Followed.{followed, ending_of};
ghost use Rattle.psi_follow_sets.specs.Sets.{IsPackedBox, RunsCorners, MeetsAt};
ghost use Rattle.psi_follow_sets.specs.Inner.MachinesKept.{IsMachine, IsBegun};

use crate::boxes::{are_units, bounds_of, enclose_by, halts_of, units_of};
use crate::packed_set::PackedSet;
use psi_event::{EventLaw, PiecewiseLaw};
use psi_follow_packed::{Layout, MaskProgram, PackedPair, UnitEvent};
use psi_region::{Course, Follower};
use psi_state::State;
use std::alloc::{AllocError, Global};
use std::marker::Model;

/// The events on states that are packed into `K` words, and the room for a set of such states.
struct Machine<const K: usize> {
    program: MaskProgram<K>,
    // Which events aren't monotone.
    halts: Vec<bool>,
    // Those of single customers.
    units: Vec<Option<UnitEvent<K>>>,
    // Whether each event that isn't monotone is one of these: then a step of a box costs little.
    all_units: bool,
    set: PackedSet<K>,
}

// By hand, as that of each means to follow a run: its end is a call where it ends, and not all of its steps.
impl<const K: usize> Drop for Machine<K> {
    fn drop(self) {
        let Machine {
            program: _,
            halts: _,
            units: _,
            all_units: _,
            set: _,
        } = self;
    }
}

/// A follower of any network on states that are packed into `K` words: by the corners of a box as long as it has many states, past
/// each event that isn't monotone by its envelope, and by the set of its states once they are few (Bušić, Gaujal and Vincent
/// 2008).
///
/// It is seen as the network that it stands for.
pub struct PackedSets<'n, const K: usize, E: EventLaw> {
    course: Course<'n, E>,
    machine: Machine<K>,
}

impl<'n, const K: usize, E: EventLaw> Model for PackedSets<'n, K, E> {
    ghost use Rattle.std.specs.Prelude.{map};
    ghost use Rattle.psi_region.specs.Followed.{Network};
    ghost use Rattle.psi_follow_sets.specs.Inner.MachinesKept.{IsMachine};

    ghost Value = { Network E };

    ghost view = { λ s. s.course };

    ghost invariant = { λ s. IsMachine K s.course.caps (map E.function s.course.events) s.course.split s.machine };
}

// By hand, so that the end of a follower is a call where it ends, and not all of its steps.
impl<'n, const K: usize, E: EventLaw> Drop for PackedSets<'n, K, E> {
    fn drop(self) {
        let PackedSets {
            course: _,
            machine: _,
        } = self;
    }
}

impl<'n, const K: usize, E: PiecewiseLaw> PackedSets<'n, K, E> {
    /// Returns a follower of this network; `None` where its states don't fit `K` words, or an event declares no pieces.
    /// It allocates room for the events on packed states and for a set of the split number of these.
    ///
    /// # Errors
    ///
    /// `AllocError` if an allocation fails; no clause says when that is. No other call allocates.
    pub fn new(
        alloc: Global,
        course: &Course<'n, E>,
    ) -> Result<Option<PackedSets<'n, K, E>>, AllocError>
        ensures { IfOk result (λ found. IfSome found (λ sets. sets ≡ course.now)) }
    {
        let Some(layout) = Layout::new(course.caps()) else {
            return Ok(None);
        };
        let Some(machine) = machine_of(alloc, layout, course)? else {
            return Ok(None);
        };
        Ok(Some(PackedSets {
            course: course.again(),
            machine,
        }))
    }
}

impl<'n, const K: usize, E: EventLaw> Follower for PackedSets<'n, K, E> {
    ghost stands_for = { λ n. followed E.function n };

    fn ending(&mut self, numbers: &[u16]) -> Option<State> {
        packed_ending(&mut self.machine, &self.course, numbers)
    }
}

// The events on states that are packed so, where each declares its pieces, and room for a set of the split number of
// states.
fn machine_of<const K: usize, E: PiecewiseLaw>(
    alloc: Global,
    layout: Layout<K>,
    course: &Course<'_, E>,
) -> Result<Option<Machine<K>>, AllocError>
    requires { layout.caps ≡ course.now.caps }
    ensures { IfOk result (λ found. IfSome found (λ machine. IsMachine K course.now.caps (map E.function course.now.events) course.now.split machine)) }
{
    let Some(program) = MaskProgram::new(alloc, layout, course.events())? else {
        return Ok(None);
    };
    let halts = halts_of(alloc, course)?;
    let units = units_of(alloc, &program, course)?;
    let all_units = are_units(halts.as_slice(), units.as_slice());
    let set = PackedSet::reserve(alloc, course.split())?;
    Ok(Some(Machine {
        program,
        halts,
        units,
        all_units,
        set,
    }))
}

// The one state with which the region of all states ends after the events of the numbers, the last first, if it
// ends with one: the states are packed once they are few.
fn packed_ending<const K: usize, E: EventLaw>(
    machine: &mut Machine<K>,
    course: &Course<'_, E>,
    numbers: &[u16],
) -> Option<State>
    requires machine { IsMachine K course.now.caps (map E.function course.now.events) course.now.split machine.old }
    requires numbers { AreEvents (length (map E.function course.now.events)) numbers.now }
    ensures ending { result ≡ ending_of (followed E.function course.now) numbers.now }
    ensures machine { IsMachine K course.now.caps (map E.function course.now.events) course.now.split machine.new }
{
    let split = u32::from(course.split());
    let caps = course.caps();
    let mut corners = machine.program.pack(&State::zero(caps.len()), &caps);
    let left = follow_until_few(machine, course, numbers, split, &mut corners);
    coalescence_of_few(machine, course, &numbers[..left], &corners)
}

// The one state that the events of the numbers make of all states of a box, the last first, if they make one of them
// and they are few: they don't where the two corners don't; else the box is followed, and where that decides nothing
// each of its states.
fn coalescence_of_few<const K: usize, E: EventLaw>(
    machine: &mut Machine<K>,
    course: &Course<'_, E>,
    numbers: &[u16],
    x: &PackedPair<K>,
) -> Option<State>
    requires closed { All (λ f. IsClosed course.now.caps f) (map E.function course.now.events) }
    requires begun { IsBegun K course.now.caps (map E.function course.now.events) course.now.split machine.old numbers.now (low_words x.now) (high_words x.now) }
    ensures few { (lo hi : List ℕ) → AreCorners K machine.old.program.packing (low_words x.now) (high_words x.now) lo hi → length (box lo hi) ≤ course.now.split
        → result ≡ single (image (follow_numbers (map E.function course.now.events) numbers.now) (box lo hi)) }
    ensures many { (lo hi : List ℕ) → AreCorners K machine.old.program.packing (low_words x.now) (high_words x.now) lo hi → course.now.split < length (box lo hi) → result ≡ None }
    ensures machine { IsMachine K course.now.caps (map E.function course.now.events) course.now.split machine.new }
{
    let bounds = bounds_of(&machine.program, x);
    let count = bounds.volume_at_most(u32::from(course.split()))?;
    if have_corners_parted(&machine.program, numbers, count, x) {
        return None;
    }
    let tries = if machine.all_units { count } else { count / 16 };
    if let Some(state) = meeting_of_box(machine, course, numbers, tries, x) {
        return Some(state);
    }
    machine.set.meeting(&machine.program, numbers, &bounds)
}

// Whether the events of the numbers, the last first, are seen to make different states of the two corners of a box of
// `count` states. It isn't tried where there are so many numbers that to follow the set may cost less.
fn have_corners_parted<const K: usize>(
    program: &MaskProgram<K>,
    numbers: &[u16],
    count: u32,
    x: &PackedPair<K>,
) -> bool
    requires numbers { EachIndex numbers.now (λ i. slice_index numbers.now i < length program.now.moves) }
    ensures { (caps : List ℕ) (functions : List Function) (lo hi : List ℕ) → Prepares K caps functions program.now → AreCorners K program.now.packing (low_words x.now) (high_words x.now) lo hi
        → IsTrue result → follow_numbers functions numbers.now lo ≡ follow_numbers functions numbers.now hi → ⊥ }
{
    if numbers.len() / 4 > count as usize {
        return false;
    }
    let mut own = *x;
    program.follow(numbers, &mut own);
    !own.low().is(&own.high())
}

// The one state that the events of the numbers make of all states of a box, where its tight boxes come to a single state within
// `tries` numbers, the last first. `None` decides nothing: its states may coalesce all the same.
fn meeting_of_box<const K: usize, E: EventLaw>(
    machine: &Machine<K>,
    course: &Course<'_, E>,
    numbers: &[u16],
    tries: u32,
    x: &PackedPair<K>,
) -> Option<State>
    requires closed { All (λ f. IsClosed course.now.caps f) (map E.function course.now.events) }
    requires begun { IsBegun K course.now.caps (map E.function course.now.events) course.now.split machine.now numbers.now (low_words x.now) (high_words x.now) }
    ensures { IfSome result (λ s. MeetsAt K machine.now.program.packing (map E.function course.now.events) numbers.now (low_words x.now) (high_words x.now) s) }
{
    let mut own = *x;
    let stop = numbers.len().saturating_sub(tries as usize);
    let left = stop + follow_until_few(machine, course, &numbers[stop..], 1, &mut own);
    if !machine.program.box_has_at_most(&own, 1) {
        return None;
    }
    machine.program.follow(&numbers[..left], &mut own);
    Some(machine.program.unpack_one(&own.low()))
}

// Follows the packed corners of a box through the events of the numbers, the last first, until the box has at most `split`
// states, and returns how many numbers are left then. They go from one event that isn't monotone to the next.
fn follow_until_few<const K: usize, E: EventLaw>(
    machine: &Machine<K>,
    course: &Course<'_, E>,
    numbers: &[u16],
    split: u32,
    x: &mut PackedPair<K>,
) -> usize
    requires { IsBegun K course.now.caps (map E.function course.now.events) course.now.split machine.now numbers.now (low_words x.old) (high_words x.old) }
    ensures run { RunsCorners K machine.now.program.packing (map E.function course.now.events) numbers.now split (low_words x.old) (high_words x.old) (low_words x.new) (high_words x.new) result }
    ensures all { (lo hi : List ℕ) → AreCorners K machine.now.program.packing (low_words x.new) (high_words x.new) lo hi → split < length (box lo hi) → result ≡ 0 }
{
    let halts = machine.halts.as_slice();
    let mut left = numbers.len();
    while left > 0 {
        left = machine
            .program
            .follow_while_many(&numbers[..left], halts, split, x);
        if left == 0 || machine.program.box_has_at_most(x, split) {
            return left;
        }
        left -= 1;
        enclose_event(machine, course, numbers[left], x);
    }
    0
}

// Replaces the corners of a box by those of the tight box around what the event of this number makes of it.
fn enclose_event<const K: usize, E: EventLaw>(
    machine: &Machine<K>,
    course: &Course<'_, E>,
    number: u16,
    x: &mut PackedPair<K>,
)
    requires machine { IsMachine K course.now.caps (map E.function course.now.events) course.now.split machine.now }
    requires number { number < length (map E.function course.now.events) }
    requires corners { IsPackedBox K machine.now.program.packing (low_words x.old) (high_words x.old) }
    ensures { Encloses K machine.now.program.packing (slice_index_or (map E.function course.now.events) number (λ x. x)) (low_words x.old) (high_words x.old) (low_words x.new) (high_words x.new) }
{
    match &machine.units.as_slice()[number as usize] {
        Some(unit) => unit.enclose(x),
        None => enclose_by(&machine.program, course.event(number), x),
    }
}
