//! Whether a region holds what an event makes of another's states.

ghost use Rattle.std.specs.Prelude.{◌≡◌, ℕ, List, length, true, None, MatchOption};
ghost use Rattle.psi_state.specs.State.{AreCapacities, IsBelow};
ghost use Rattle.psi_event.specs.Idle.{unchanged};
ghost use Rattle.psi_log_format.specs.Log.{in_box, in_set, IsRegion, IsSet};
ghost use Rattle.psi_replay.specs.Verdict.{states_of, has, covers, is_within, holds_all};
ghost use Rattle.psi_log_format.specs.Listed.{shown};

use crate::regions::holds;
use crate::sets::set_holds;
use psi_event::{EventLaw, Idle};
use psi_log::{BorrowedRegion, Rows};
use psi_region::covers_image;
use psi_state::{Bounds, State};

// Whether a region holds what the event makes of a state. The images of states that follow one another mostly do so
// too, so each is looked for at the place `next` after the last one.
#[inline]
fn holds_image<E: EventLaw>(
    event: &E,
    x: &mut State,
    after: &BorrowedRegion<'_>,
    next: &mut usize,
) -> bool
    requires state { IsBelow x.old (E.capacities event.now) }
    requires after { IsRegion (length (E.capacities event.now)) (shown after.now) }
    ensures { result ≡ has (states_of (shown after.now)) (E.function event.now x.old) }
{
    event.apply(x);
    holds(after, x, next)
}

// Whether a region holds what the event makes of each state of a box.
fn covers_box<E: EventLaw>(event: &E, before: &Bounds, after: &BorrowedRegion<'_>) -> bool
    requires before { IsBelow before.now.hi (E.capacities event.now) }
    requires after { IsRegion (length (E.capacities event.now)) (shown after.now) }
    requires within { is_within (E.capacities event.now) (shown after.now) ≡ true }
    ensures { result ≡ covers (E.function event.now) (in_box before.now) (shown after.now) }
{
    match after {
        BorrowedRegion::Box(to) => box_covers_box(event, before, to),
        BorrowedRegion::Set(_) => box_covers_each(event, before, after),
    }
}

// As `covers_box`, where both are boxes: the corners decide it.
fn box_covers_box<E: EventLaw>(event: &E, before: &Bounds, after: &Bounds) -> bool
    requires before { IsBelow before.now.hi (E.capacities event.now) }
    requires after { IsRegion (length (E.capacities event.now)) (in_box after.now) }
    requires within { is_within (E.capacities event.now) (in_box after.now) ≡ true }
    ensures { result ≡ covers (E.function event.now) (in_box before.now) (in_box after.now) }
{
    covers_image(event, before, after)
}

// As `covers_box`, state by state.
fn box_covers_each<E: EventLaw>(event: &E, before: &Bounds, after: &BorrowedRegion<'_>) -> bool
    requires before { IsBelow before.now.hi (E.capacities event.now) }
    requires after { IsRegion (length (E.capacities event.now)) (shown after.now) }
    ensures { result ≡ covers (E.function event.now) (in_box before.now) (shown after.now) }
{
    let mut next = 0;
    for mut x in before.states() {
        if !holds_image(event, &mut x, after, &mut next) {
            return false;
        }
    }
    true
}

// Whether a box holds what the event makes of each state of a set.
fn set_covers_box<E: EventLaw>(event: &E, before: &Rows<'_>, after: &BorrowedRegion<'_>) -> bool
    requires before { is_within (E.capacities event.now) (in_set before.now.states) ≡ true }
    requires after { IsRegion (length (E.capacities event.now)) (shown after.now) }
    ensures { result ≡ covers (E.function event.now) (in_set before.now.states) (shown after.now) }
{
    let mut next = 0;
    for place in 0..before.len() {
        let mut x = before.get(place);
        if !holds_image(event, &mut x, after, &mut next) {
            return false;
        }
    }
    true
}

// Whether a set holds what the event makes of each state of another.
fn set_covers_set<E: EventLaw>(event: &E, before: &Rows<'_>, after: &Rows<'_>) -> bool
    requires before { is_within (E.capacities event.now) (in_set before.now.states) ≡ true }
    requires after { IsSet (length (E.capacities event.now)) after.now.states }
    ensures { result ≡ covers (E.function event.now) (in_set before.now.states) (in_set after.now.states) }
{
    // In the loop the compiler then needn't look each time where they stand.
    let (from, to) = (before.again(), after.again());
    let mut next = 0;
    // Each state in turn is put here.
    let mut x = State::zero(1);
    for place in 0..from.len() {
        from.get_onto(place, &mut x);
        event.apply(&mut x);
        if !set_holds(&to, &x, &mut next) {
            return false;
        }
    }
    true
}

// Whether a region holds what the event makes of each state of another.
fn covers<'l, E: EventLaw>(
    event: &E,
    before: &BorrowedRegion<'l>,
    after: &BorrowedRegion<'l>,
) -> bool
    requires before { is_within (E.capacities event.now) (shown before.now) ≡ true }
    requires after { IsRegion (length (E.capacities event.now)) (shown after.now) }
    requires within { is_within (E.capacities event.now) (shown after.now) ≡ true }
    ensures { result ≡ covers (E.function event.now) (shown before.now) (shown after.now) }
{
    match before {
        BorrowedRegion::Box(bounds) => {
            // Called for its clause: the corners are in order.
            let _queues = bounds.len();
            covers_box(event, bounds, after)
        }
        BorrowedRegion::Set(rows) => match after {
            BorrowedRegion::Box(_) => set_covers_box(event, rows, after),
            BorrowedRegion::Set(to) => set_covers_set(event, rows, to),
        },
    }
}

// Whether a region holds each state of another; at once where both are the same set.
fn idle_covers<'l>(caps: &State, before: &BorrowedRegion<'l>, after: &BorrowedRegion<'l>) -> bool
    requires valid { AreCapacities caps.now }
    requires before { is_within caps.now (shown before.now) ≡ true }
    requires after { IsRegion (length caps.now) (shown after.now) }
    requires within { is_within caps.now (shown after.now) ≡ true }
    ensures { result ≡ covers unchanged (shown before.now) (shown after.now) }
{
    if let (BorrowedRegion::Set(rows), BorrowedRegion::Set(next)) = (before, after) {
        if rows.are_same(next) {
            return true;
        }
    }
    covers(&Idle::new(*caps), before, after)
}

/// Whether a region holds what a step makes of each state of another. An idle step, which has no event,
/// leaves them as they are.
pub(crate) fn step_covers<'l, E: EventLaw>(
    event: Option<&E>,
    caps: &State,
    before: &BorrowedRegion<'l>,
    after: &BorrowedRegion<'l>,
) -> bool
    requires valid { AreCapacities caps.now }
    requires event { MatchOption event (Unit {0}) (λ e. E.capacities e.now ≡ caps.now) }
    requires before { is_within caps.now (shown before.now) ≡ true }
    requires after { IsRegion (length caps.now) (shown after.now) }
    requires within { is_within caps.now (shown after.now) ≡ true }
    ensures { MatchOption event.entry (result ≡ covers unchanged (shown before.now) (shown after.now)) (λ e. result ≡ covers (E.function e.now) (shown before.now) (shown after.now)) }
{
    match event {
        Some(event) => covers(event, before, after),
        None => idle_covers(caps, before, after),
    }
}

/// Whether a region holds what a step makes of each of its own states: an idle step leaves them as they are.
#[tactic(auto, using(crate::proofs::RegionLemmas::region_covers_itself))]
pub(crate) fn covers_itself<E: EventLaw>(event: Option<&E>, region: &BorrowedRegion<'_>) -> bool
    requires region { MatchOption event (Unit {0}) (λ e. IsRegion (length (E.capacities e.now)) (shown region.now)) }
    requires within { MatchOption event (Unit {0}) (λ e. is_within (E.capacities e.now) (shown region.now) ≡ true) }
    ensures { MatchOption event.entry (result ≡ covers unchanged (shown region.now) (shown region.now)) (λ e. result ≡ covers (E.function e.now) (shown region.now) (shown region.now)) }
{
    match event {
        Some(event) => covers(event, region, region),
        None => true,
    }
}

/// Whether a region has all states of the capacities.
pub(crate) fn holds_all(caps: &State, region: &BorrowedRegion<'_>) -> bool
    requires valid { AreCapacities caps.now }
    requires region { IsRegion (length caps.now) (shown region.now) }
    requires within { is_within caps.now (shown region.now) ≡ true }
    ensures { result ≡ holds_all caps.now (shown region.now) }
{
    covers_box(&Idle::new(*caps), &Bounds::whole(caps), region)
}
