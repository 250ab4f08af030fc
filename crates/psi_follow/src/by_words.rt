//! Followers on packed states, by how many words a state takes.

ghost use Rattle.std.specs.Prelude.{◌≡◌, length, IfSome};
ghost use Rattle.psi_event.specs.Numbers.{AreEvents};
ghost use Rattle.psi_region.specs.Followed.{AreEnds, states_of, ending_of};
ghost use Rattle.psi_state.specs.State.{AreCapacities};
ghost use Rattle.psi_follow.specs.declared.by_words.ByWords.TheVariants.{One, Two, Three, Four};

use psi_follow_packed::Layout;
use psi_region::Follower;
use psi_state::{Bounds, State};

/// One of four followers, which pack a state into one, two, three or four words.
pub enum ByWords<A: Follower, B: Follower, C: Follower, D: Follower> {
    /// On states of one word.
    One(A),
    /// On states of two words.
    Two(B),
    /// On states of three words.
    Three(C),
    /// On states of four words.
    Four(D),
}

// By hand, so that the end of a follower is a call where it ends, and not all of its steps.
impl<A: Follower + Drop, B: Follower + Drop, C: Follower + Drop, D: Follower + Drop> Drop
    for ByWords<A, B, C, D> {
    fn drop(self) {
        match self {
            ByWords::One(_follower) => {}
            ByWords::Two(_follower) => {}
            ByWords::Three(_follower) => {}
            ByWords::Four(_follower) => {}
        }
    }
}

impl<A: Follower, B: Follower, C: Follower, D: Follower> Follower for ByWords<A, B, C, D> {
    ghost stands_for = { elim [
      | One follower ↦ A.stands_for follower
      | Two follower ↦ B.stands_for follower
      | Three follower ↦ C.stands_for follower
      | Four follower ↦ D.stands_for follower
    ] };

    fn ending(&mut self, numbers: &[u16]) -> Option<State> {
        match self {
            ByWords::One(follower) => follower.ending(numbers),
            ByWords::Two(follower) => follower.ending(numbers),
            ByWords::Three(follower) => follower.ending(numbers),
            ByWords::Four(follower) => follower.ending(numbers),
        }
    }

    fn ends(&mut self, numbers: &[u16]) -> Option<Bounds> {
        match self {
            ByWords::One(follower) => follower.ends(numbers),
            ByWords::Two(follower) => follower.ends(numbers),
            ByWords::Three(follower) => follower.ends(numbers),
            ByWords::Four(follower) => follower.ends(numbers),
        }
    }
}

/// How many words a state of these capacities takes, 1 to 4; 0 where four are too few.
pub(crate) fn words_needed(caps: State) -> u8
    requires { AreCapacities caps }
{
    if Layout::<1>::new(caps).is_some() {
        1
    } else if Layout::<2>::new(caps).is_some() {
        2
    } else if Layout::<3>::new(caps).is_some() {
        3
    } else if Layout::<4>::new(caps).is_some() {
        4
    } else {
        0
    }
}
