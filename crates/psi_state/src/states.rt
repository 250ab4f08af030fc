//! The states of a box, one after another.

ghost use Rattle.std.specs.Prelude.{◌≡◌, ◌∷◌, ℕ, List, IfSome, length};
ghost use Rattle.std.specs.Iterator.{at_most};
ghost use Rattle.std.specs.Map.Iter.{TakesFirst, GivesInOrder};
ghost use Rattle.psi_state.specs.State.{box};
ghost use Rattle.psi_state.specs.Boxes.{IsBetween};
ghost use Rattle.psi_state.specs.Listing.{onward, coming};

use crate::{Bounds, State};
use std::marker::Model;

/// The states of a box that are still to come, in lexicographic order: an iterator that is seen as
/// their list.
///
/// A step raises the last queue that isn't at its greatest number and empties those after it to their
/// least numbers, as an odometer does. It does not allocate.
#[derive(Drop)]
pub struct States {
    bounds: Bounds,
    next: Option<State>,
}

impl Model for States {
    ghost use Rattle.std.specs.Prelude.{ℕ, List, IfSome};

    ghost Value = { List (List ℕ) };

    ghost use Rattle.psi_state.specs.Boxes.{IsBetween};
    ghost use Rattle.psi_state.specs.Listing.{coming};

    ghost view = { λ s. coming s.bounds.lo s.bounds.hi s.next };

    ghost invariant = { λ s. IfSome s.next (λ x. IsBetween s.bounds.lo s.bounds.hi x) };
}

impl Bounds {
    /// Returns the states of the box in lexicographic order, from the lower corner to the upper one.
    ///
    /// Its second clause says that an iterator of this type gives the list that it is seen as.
    pub fn states(&self) -> States
        ensures states { result ≡ box self.now.lo self.now.hi }
        ensures runs { GivesInOrder (List ℕ) }
    {
        States {
            bounds: *self,
            next: Some(self.lo()),
        }
    }
}

impl Iterator for States {
    type Item = State;

    ghost next_gives = { TakesFirst (λ (x : List ℕ). x) };

    ghost remaining = { λ s. at_most (length s) };

    fn next(&mut self) -> Option<State> {
        let state = self.next?;
        self.next = following(&self.bounds, state);
        Some(state)
    }
}

// The state that comes after `x` in the list of the box, if `x` isn't the last.
fn following(bounds: &Bounds, x: State) -> Option<State>
    requires { IsBetween bounds.now.lo bounds.now.hi x }
    ensures rest { onward bounds.now.lo bounds.now.hi x ≡ x ∷ coming bounds.now.lo bounds.now.hi result }
    ensures between { IfSome result (λ y. IsBetween bounds.now.lo bounds.now.hi y) }
{
    let lo = bounds.lo();
    let hi = bounds.hi();
    let mut next = x;
    for place in (0..x.len()).rev() {
        let number = x.get(place);
        if number < hi.get(place) {
            next.set(place, number + 1);
            return Some(next);
        }
        next.set(place, lo.get(place));
    }
    None
}
