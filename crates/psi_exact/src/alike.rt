//! Which queues an event leaves alone in all states, and whether states that differ in these alone are
//! moved alike.

ghost use Rattle.std.specs.Prelude.{◌≡◌, ℕ, ◌<◌, ◌≤◌, List, length, slice_index, IsTrue};
ghost use Rattle.psi_state.specs.State.{IsBelow};
ghost use Rattle.psi_exact.specs.Alike.{IsSpanned, IsSpan, IsOneMove, MovesAlike, IsTop};

use psi_event::EventLaw;
use psi_state::{Bounds, State};

/// The span of an event: the capacities of the queues that it may change, and none for those that have
/// as many customers after it as before it, in all states.
pub(crate) fn span_of<E: EventLaw>(e: &E) -> State
    ensures { IsSpan (E.capacities e.now) (E.function e.now) result }
{
    let mut span = e.caps();
    for place in 0..span.len() {
        span.set(place, spanned(e, place));
    }
    span
}

// The capacity of a queue, or none where the event leaves as many customers in it in all states.
fn spanned<E: EventLaw>(e: &E, place: u8) -> u16
    requires { place < length (E.capacities e.now) }
    ensures { IsSpanned (E.capacities e.now) (E.function e.now) place result }
{
    let capacity = e.caps().get(place);
    for number in 0..capacity as u32 + 1 {
        if !stays(e, place, number as u16) {
            return capacity;
        }
    }
    0
}

// Whether the event leaves the queue at this place with `number` customers, whatever the other queues hold.
fn stays<E: EventLaw>(e: &E, place: u8, number: u16) -> bool
    requires place { place < length (E.capacities e.now) }
    requires number { number ≤ slice_index (E.capacities e.now) place }
    ensures { IsTrue result → (x : List ℕ) → IsBelow x (E.capacities e.now) → slice_index x place ≡ number → slice_index (E.function e.now x) place ≡ number }
{
    let mut bounds = Bounds::whole(&e.caps());
    bounds.set(place, number, number);
    e.envelope(&mut bounds);
    has_alone(&bounds, place, number)
}

// Whether the box has this number alone for a queue.
fn has_alone(bounds: &Bounds, place: u8, number: u16) -> bool
    requires { place < length bounds.now.lo }
    ensures least { IsTrue result → slice_index bounds.now.lo place ≡ number }
    ensures greatest { IsTrue result → slice_index bounds.now.hi place ≡ number }
{
    bounds.least(place) == number && bounds.greatest(place) == number
}

/// Whether the event makes the same of states that agree in the span, there: it is asked once for all of
/// them what it makes of the box that they are.
pub(crate) fn moves_alike<E: EventLaw>(e: &E, span: &State) -> bool
    requires { IsSpan (E.capacities e.now) (E.function e.now) span.now }
    ensures { IsTrue result → MovesAlike (E.capacities e.now) (E.function e.now) span.now }
{
    for state in Bounds::whole(span).states() {
        if !is_one_move(e, span, &state) {
            return false;
        }
    }
    true
}

// Whether the event makes the same of all states that agree with this one in the span, there.
fn is_one_move<E: EventLaw>(e: &E, span: &State, state: &State) -> bool
    requires span { IsSpan (E.capacities e.now) (E.function e.now) span.now }
    requires state { IsBelow state.now span.now }
    ensures { IsTrue result → IsOneMove (E.capacities e.now) (E.function e.now) span.now state.now }
{
    let mut bounds = Bounds::new(*state, top_of(&e.caps(), span, state));
    e.envelope(&mut bounds);
    is_one_in(&bounds, span)
}

// The state with full queues outside the span.
fn top_of(caps: &State, span: &State, state: &State) -> State
    requires spans { length span.now ≡ length state.now }
    requires capacities { length caps.now ≡ length state.now }
    ensures { IsTop caps.now span.now state.now result }
{
    let mut top = *state;
    for place in 0..state.len() {
        top.set(place, top_at(caps, span, state, place));
    }
    top
}

// The number of the state in a queue of the span, and the capacity of another.
fn top_at(caps: &State, span: &State, state: &State, place: u8) -> u16
    requires place { place < length state.now }
    requires spans { length span.now ≡ length state.now }
    requires capacities { length caps.now ≡ length state.now }
    ensures same { 0 < slice_index span.now place → result ≡ slice_index state.now place }
    ensures full { slice_index span.now place ≡ 0 → result ≡ slice_index caps.now place }
{
    if span.get(place) > 0 {
        state.get(place)
    } else {
        caps.get(place)
    }
}

// Whether the box has one number for each queue of the span.
fn is_one_in(bounds: &Bounds, span: &State) -> bool
    requires { length bounds.now.lo ≡ length span.now }
    ensures { IsTrue result → (q : ℕ) → q < length span.now → 0 < slice_index span.now q → slice_index bounds.now.lo q ≡ slice_index bounds.now.hi q }
{
    for place in 0..span.len() {
        if !is_one_at(bounds, span, place) {
            return false;
        }
    }
    true
}

// Whether the box has one number for this queue, if it is one of the span.
fn is_one_at(bounds: &Bounds, span: &State, place: u8) -> bool
    requires place { place < length span.now }
    requires same_length { length bounds.now.lo ≡ length span.now }
    ensures { IsTrue result → 0 < slice_index span.now place → slice_index bounds.now.lo place ≡ slice_index bounds.now.hi place }
{
    span.get(place) == 0 || bounds.least(place) == bounds.greatest(place)
}
