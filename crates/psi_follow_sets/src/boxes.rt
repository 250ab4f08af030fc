//! Boxes that are followed by their packed corners (Bušić, Gaujal and Vincent 2008): which events aren't monotone, and how
//! a box goes past one of these.

ghost use Rattle.std.specs.Prelude.{◌≡◌, ◌↔◌, ◌<◌, ℕ, List, length, map, slice_index_or, true, false, None, IsTrue, IfOk};
ghost use Rattle.psi_follow_packed.specs.Boxes.{AreMonotoneUnhalted, AreCorners};
ghost use Rattle.psi_event.specs.Law.{Function};
ghost use Rattle.psi_follow_packed.specs.Views.{low_words, high_words};
ghost use Rattle.psi_follow_sets.specs.Sets.{IsPackedBox};
ghost use Rattle.psi_follow_packed.specs.UnitEvents.{Encloses};
ghost use Rattle.psi_follow_sets.specs.Inner.UnitsKept.{AreUnitEvents};

use psi_event::{EventLaw, PiecewiseLaw};
use psi_follow_packed::{MaskProgram, PackedPair, UnitEvent};
use psi_region::Course;
use psi_state::Bounds;
use std::alloc::{AllocError, Global};

// Which events aren't monotone, by their numbers: there a run by corners halts.
pub(crate) fn halts_of<E: EventLaw>(
    alloc: Global,
    course: &Course<'_, E>,
) -> Result<Vec<bool>, AllocError>
    ensures count { IfOk result (λ halts. length halts.items ≡ length (map E.function course.now.events)) }
    ensures monotone { IfOk result (λ halts. AreMonotoneUnhalted course.now.caps (map E.function course.now.events) halts.items) }
{
    let events = course.events();
    let mut halts = Vec::with_capacity(alloc, events.len())?;
    for number in 0..events.len() {
        halts.push_reserved(!events[number].monotone());
    }
    Ok(halts)
}

// The events of single customers, by their numbers.
pub(crate) fn units_of<const K: usize, E: PiecewiseLaw>(
    alloc: Global,
    program: &MaskProgram<K>,
    course: &Course<'_, E>,
) -> Result<Vec<Option<UnitEvent<K>>>, AllocError>
    requires { course.now.caps ≡ program.now.packing.caps }
    ensures count { IfOk result (λ units. length units.items ≡ length (map E.function course.now.events)) }
    ensures units { IfOk result (λ units. AreUnitEvents program.now.packing (map E.function course.now.events) units.items) }
{
    let events = course.events();
    let mut units = Vec::with_capacity(alloc, events.len())?;
    for number in 0..events.len() {
        units.push_reserved(program.unit_event(&events[number]));
    }
    Ok(units)
}

// Whether each event that halts is one of single customers.
pub(crate) fn are_units<const K: usize>(halts: &[bool], units: &[Option<UnitEvent<K>>]) -> bool
    requires { length units.now ≡ length halts.now }
    ensures { IsTrue result ↔ ((i : ℕ) → i < length halts.now → slice_index_or halts.now i false ≡ true → slice_index_or units.now i None ≡ None → ⊥) }
{
    for number in 0..halts.len() {
        if halts[number] && units[number].is_none() {
            return false;
        }
    }
    true
}

// Replaces the corners of a box by those of the event's envelope of it.
pub(crate) fn enclose_by<const K: usize, E: EventLaw>(
    program: &MaskProgram<K>,
    event: &E,
    x: &mut PackedPair<K>,
)
    requires caps { E.capacities event.now ≡ program.now.packing.caps }
    requires corners { IsPackedBox K program.now.packing (low_words x.old) (high_words x.old) }
    ensures { Encloses K program.now.packing (E.function event.now) (low_words x.old) (high_words x.old) (low_words x.new) (high_words x.new) }
{
    let mut bounds = bounds_of(program, x);
    event.envelope(&mut bounds);
    *x = program.pack(&bounds.lo(), &bounds.hi());
}

// The box between two packed corners.
pub(crate) fn bounds_of<const K: usize>(program: &MaskProgram<K>, x: &PackedPair<K>) -> Bounds
    requires { IsPackedBox K program.now.packing (low_words x.now) (high_words x.now) }
    ensures { (lo hi : List ℕ) → AreCorners K program.now.packing (low_words x.now) (high_words x.now) lo hi → result ≡ record { lo = lo; hi = hi } }
{
    let (lo, hi) = program.unpack(x);
    Bounds::new(lo, hi)
}
