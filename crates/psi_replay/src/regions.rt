//! The rules that speak of the states of a region.

ghost use Rattle.std.specs.Prelude.{◌≡◌, ◌==◌, ◌<◌, ◌≤◌, ℕ, length, slice_index};
ghost use Rattle.psi_state.specs.State.{box};
ghost use Rattle.psi_log_format.specs.Log.{in_box, in_set, IsRegion};
ghost use Rattle.psi_log_format.specs.Listed.{shown};
ghost use Rattle.psi_replay.specs.Verdict.{states_of, has, is_within, is_small};

use crate::sets::set_holds;
use psi_log::{BorrowedRegion, Rows};
use psi_state::{Bounds, MOST_SPLIT, State};

/// Whether a state is one of a region's. In a set it is looked for at the place `next` and before it first, and where it
/// is found, `next` becomes the place after it.
#[inline]
pub(crate) fn holds(region: &BorrowedRegion<'_>, x: &State, next: &mut usize) -> bool
    requires { IsRegion (length x.now) (shown region.now) }
    ensures { result ≡ has (states_of (shown region.now)) x.now }
{
    match region {
        BorrowedRegion::Box(bounds) => bounds.holds(x),
        BorrowedRegion::Set(rows) => set_holds(rows, x, next),
    }
}

/// Whether no state of a region has more customers than a queue has room for.
pub(crate) fn is_within(region: &BorrowedRegion<'_>, caps: &State) -> bool
    requires { IsRegion (length caps.now) (shown region.now) }
    ensures { result ≡ is_within caps.now (shown region.now) }
{
    match region {
        BorrowedRegion::Box(bounds) => box_is_within(bounds, caps),
        BorrowedRegion::Set(rows) => set_is_within(rows, caps),
    }
}

/// Whether a region may be followed by another: a box that is followed by a set has at most 4,096 states.
pub(crate) fn is_small(before: &BorrowedRegion<'_>, after: &BorrowedRegion<'_>) -> bool
    ensures { result ≡ is_small (shown before.now) (shown after.now) }
{
    match (before, after) {
        (BorrowedRegion::Box(bounds), BorrowedRegion::Set(_)) => bounds
            .volume_at_most(MOST_SPLIT)
            .is_some(),
        _ => true,
    }
}

/// Whether a region has one state.
pub(crate) fn is_single(region: &BorrowedRegion<'_>) -> bool
    ensures { result ≡ (length (states_of (shown region.now)) == 1) }
{
    match region {
        BorrowedRegion::Box(bounds) => is_one_state(bounds),
        BorrowedRegion::Set(rows) => rows.len() == 1,
    }
}

// Whether no state of a box has more customers than a queue has room for.
fn box_is_within(bounds: &Bounds, caps: &State) -> bool
    requires { length bounds.now.lo ≡ length caps.now }
    ensures { result ≡ is_within caps.now (in_box bounds.now) }
{
    bounds.hi().leq(caps)
}

// How many customers fit in each queue.
fn least_room(caps: &State) -> u16
    ensures { (queue : ℕ) → queue < length caps.now → result ≤ slice_index caps.now queue }
{
    let mut least = u16::MAX;
    for queue in 0..caps.len() {
        least = least.min(caps.get(queue));
    }
    least
}

// Whether no state of a set has more customers than a queue has room for; at once where no number is above the least
// capacity, which isn't looked for where there are few states.
fn set_is_within(rows: &Rows<'_>, caps: &State) -> bool
    requires { IsRegion (length caps.now) (in_set rows.now.states) }
    ensures { result ≡ is_within caps.now (in_set rows.now.states) }
{
    if rows.len() > 2 && rows.are_at_most(least_room(caps)) {
        return true;
    }
    for place in 0..rows.len() {
        if !rows.leq(place, caps) {
            return false;
        }
    }
    true
}

// Whether a box has one state.
fn is_one_state(bounds: &Bounds) -> bool
    ensures { result ≡ (length (box bounds.now.lo bounds.now.hi) == 1) }
{
    match bounds.volume_at_most(1) {
        Some(count) => count == 1,
        None => false,
    }
}
