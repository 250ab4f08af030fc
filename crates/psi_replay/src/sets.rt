//! The search of a state among those of a set.

ghost use Rattle.std.specs.Prelude.{◌≡◌, ◌<◌, ◌≤◌, length, Some, IsTrue, slice_get};
ghost use Rattle.psi_state.specs.Ascending.{IsRising};
ghost use Rattle.psi_log_format.specs.Log.{IsSet};
ghost use Rattle.psi_replay.specs.Verdict.{has};

use psi_log::Rows;
use psi_state::State;
use std::cmp::Ordering;

// Whether a state of as many queues stands at a place.
#[inline]
fn is_there(rows: &Rows<'_>, place: usize, x: &State) -> bool
    requires { IsSet (length x.now) rows.now.states }
    ensures { IsTrue result → slice_get rows.now.states place ≡ Some x.now }
{
    place < rows.len() && rows.is_there(place, x)
}

// Whether a state, of however many queues, stands at a place.
#[inline]
fn has_at(rows: &Rows<'_>, place: usize, x: &State) -> bool
    ensures { IsTrue result → slice_get rows.now.states place ≡ Some x.now }
{
    place < rows.len() && rows.is_at(place, x)
}

/// Whether a state is one of a set's, which are in ascending order. It is looked for at the place `next` and before
/// it, and else by halving. Where it is found, `next` becomes the place after it.
#[inline]
pub(crate) fn set_holds(rows: &Rows<'_>, x: &State, next: &mut usize) -> bool
    requires { IsSet (length x.now) rows.now.states }
    ensures { result ≡ has rows.now.states x.now }
{
    let place = *next;
    if is_there(rows, place, x) {
        *next = place.wrapping_add(1);
        return true;
    }
    holds_elsewhere(rows, x, next)
}

// The search of a state that isn't at the place `next`. It stays out of the way of the search there.
#[inline(never)]
fn holds_elsewhere(rows: &Rows<'_>, x: &State, next: &mut usize) -> bool
    requires { IsRising rows.now.states }
    ensures { result ≡ has rows.now.states x.now }
{
    if has_at(rows, next.wrapping_sub(1), x) {
        return true;
    }
    let mut low = 0;
    let mut high = rows.len();
    while low < high {
        let middle = middle_of(low, high);
        match rows.get(middle).cmp(x) {
            Ordering::Less => low = middle + 1,
            Ordering::Equal => {
                *next = middle + 1;
                return true;
            }
            Ordering::Greater => high = middle,
        }
    }
    false
}

// The place in the middle between two.
fn middle_of(low: usize, high: usize) -> usize
    requires { low < high }
    ensures least { low ≤ result }
    ensures most { result < high }
{
    low + (high - low) / 2
}
