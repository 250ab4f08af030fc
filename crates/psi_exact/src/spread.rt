//! The ranks of what an event makes of all states, from what it makes of few of them.

ghost use Rattle.std.specs.Prelude.{◌≡◌, ℕ, ◌+◌, ◌-◌, ◌*◌, ◌%◌, ◌<◌, ◌≤◌, List, length, slice_index, drop, IsTrue};
ghost use Rattle.psi_state.specs.State.{all_states};
ghost use Rattle.psi_exact.specs.Ranks.{AreRanksOf};
ghost use Rattle.psi_exact.specs.Alike.{IsSpan, MovesAlike, AreFilled, IsFront, IsSpread};

use crate::alike::{moves_alike, span_of};
use psi_event::EventLaw;
use psi_state::{Bounds, State};

// An event is applied to the states of its span alone where there are at least this many times as many states in all.
const LEAST_SAVED: u32 = 8;

/// Writes at the rank of each state the rank of what the event makes of it, where it changes few queues
/// and moves all states alike that agree in these, and returns whether it does: then it is applied only to
/// states with no customers elsewhere, and what it makes of the others follows.
pub(crate) fn spread_images<E: EventLaw>(e: &E, ranks: &mut [u16]) -> bool
    requires few { length (all_states (E.capacities e.now)) ≤ 65536 }
    requires room { length ranks.old ≡ length (all_states (E.capacities e.now)) }
    ensures { IsTrue result → AreRanksOf (E.capacities e.now) (E.function e.now) ranks.new }
{
    let span = span_of(e);
    let most = ranks.len() as u32 / LEAST_SAVED;
    if Bounds::whole(&span).volume_at_most(most).is_none() {
        return false;
    }
    if !moves_alike(e, &span) {
        return false;
    }
    write_bases(e, &span, ranks);
    spread_all(e, &span, ranks);
    true
}

// Applies the event to the states of its span.
fn write_bases<E: EventLaw>(e: &E, span: &State, ranks: &mut [u16])
    requires few { length (all_states (E.capacities e.now)) ≤ 65536 }
    requires room { length ranks.old ≡ length (all_states (E.capacities e.now)) }
    requires span { IsSpan (E.capacities e.now) (E.function e.now) span.now }
    ensures { AreFilled (E.capacities e.now) (E.function e.now) span.now (length span.now) ranks.new }
{
    let bounds = Bounds::whole(&e.caps());
    for state in Bounds::whole(span).states() {
        let mut image = state;
        e.apply(&mut image);
        ranks[bounds.rank(&state) as usize] = bounds.rank(&image) as u16;
    }
}

// Writes what follows for all other states, queue by queue, the last one first.
fn spread_all<E: EventLaw>(e: &E, span: &State, ranks: &mut [u16])
    requires few { length (all_states (E.capacities e.now)) ≤ 65536 }
    requires room { length ranks.old ≡ length (all_states (E.capacities e.now)) }
    requires span { IsSpan (E.capacities e.now) (E.function e.now) span.now }
    requires alike { MovesAlike (E.capacities e.now) (E.function e.now) span.now }
    requires filled { AreFilled (E.capacities e.now) (E.function e.now) span.now (length span.now) ranks.old }
    ensures { AreFilled (E.capacities e.now) (E.function e.now) span.now 0 ranks.new }
{
    let caps = e.caps();
    let mut front = *span;
    let mut stride = 1;
    for place in (0..span.len()).rev() {
        front.set(place, 0);
        spread_queue(e, span, &front, place, stride, ranks);
        stride *= caps.get(place) as usize + 1;
    }
}

// Writes what follows for the states with customers in this queue, if it is outside the span, and none
// in those before it that are.
fn spread_queue<E: EventLaw>(
    e: &E,
    span: &State,
    front: &State,
    place: u8,
    stride: usize,
    ranks: &mut [u16],
)
    requires few { length (all_states (E.capacities e.now)) ≤ 65536 }
    requires room { length ranks.old ≡ length (all_states (E.capacities e.now)) }
    requires span { IsSpan (E.capacities e.now) (E.function e.now) span.now }
    requires alike { MovesAlike (E.capacities e.now) (E.function e.now) span.now }
    requires place { place < length span.now }
    requires front { IsFront span.now place front.now }
    requires stride { stride ≡ length (all_states (drop (place + 1) (E.capacities e.now))) }
    requires filled { AreFilled (E.capacities e.now) (E.function e.now) span.now (place + 1) ranks.old }
    ensures { AreFilled (E.capacities e.now) (E.function e.now) span.now place ranks.new }
{
    if span.get(place) > 0 {
        return;
    }
    let caps = e.caps();
    let bounds = Bounds::whole(&caps);
    let width = caps.get(place) as usize + 1;
    for state in Bounds::whole(front).states() {
        spread_block(ranks, bounds.rank(&state) as usize, stride, width);
    }
}

// Writes the ranks that follow from those of a stride for the other strides of a block.
fn spread_block(ranks: &mut [u16], base: usize, stride: usize, width: usize)
    requires some { 1 ≤ stride }
    requires wide { 1 ≤ width }
    requires within { base + width * stride ≤ length ranks.old }
    requires few { length ranks.old ≤ 65536 }
    ensures { IsSpread base stride width ranks.old ranks.new }
{
    let mut target = base;
    for _number in 1..width {
        target += stride;
        raise_stretch(ranks, base, target, stride);
    }
}

// Writes the ranks of a stretch once more further on, each raised by how far it is.
fn raise_stretch(ranks: &mut [u16], source: usize, target: usize, long: usize)
    requires some { 1 ≤ long }
    requires apart { source + long ≤ target }
    requires within { target + long ≤ length ranks.old }
    requires few { length ranks.old ≤ 65536 }
    ensures each { (c : ℕ) → c < long → slice_index ranks.new (target + c) ≡ (slice_index ranks.old (source + c) + (target - source)) % 65536 }
    ensures before { (k : ℕ) → k < target → slice_index ranks.new k ≡ slice_index ranks.old k }
    ensures behind { (k : ℕ) → target + long ≤ k → slice_index ranks.new k ≡ slice_index ranks.old k }
{
    let by = (target - source) as u16;
    for place in 0..long {
        ranks[target + place] = ranks[source + place].wrapping_add(by);
    }
}
