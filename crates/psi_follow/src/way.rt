//! The ways to follow a run.

ghost use Rattle.std.specs.Prelude.{◌≡◌, length, IfSome};
ghost use Rattle.psi_event.specs.Numbers.{AreEvents};
ghost use Rattle.psi_region.specs.Followed.{AreEnds, states_of, ending_of};
ghost use Rattle.psi_follow.specs.declared.way.Way.TheVariants.{Regions, Corners, Keyed, PackedCorners, PackedSets};

use crate::by_words::ByWords;
use psi_event::EventLaw;
use psi_follow_keyed::KeyedCorners;
use psi_follow_packed::PackedCorners;
use psi_follow_sets::PackedSets;
use psi_region::{Corners, Follower, Regions};
use psi_state::{Bounds, State};

/// Followers of a monotone network on packed states.
pub type CornersByWords<'n, E> = ByWords<
    PackedCorners<'n, 1, E>,
    PackedCorners<'n, 2, E>,
    PackedCorners<'n, 3, E>,
    PackedCorners<'n, 4, E>,
>;

/// Followers of any network on packed states.
pub type SetsByWords<'n, E> = ByWords<
    PackedSets<'n, 1, E>,
    PackedSets<'n, 2, E>,
    PackedSets<'n, 3, E>,
    PackedSets<'n, 4, E>,
>;

/// A way to follow the runs of a network. No call allocates.
pub enum Way<'n, E: EventLaw> {
    /// By regions, through the events themselves.
    Regions(Regions<'n, E>),
    /// By the least and the greatest state, through the events themselves.
    Corners(Corners<'n, E>),
    /// By the least and the greatest state, with the keys of the queues that customers may join.
    Keyed(KeyedCorners<'n, E>),
    /// By the least and the greatest state, packed.
    PackedCorners(CornersByWords<'n, E>),
    /// By boxes and sets of packed states.
    PackedSets(SetsByWords<'n, E>),
}

// By hand, so that the end of a way is a call where it ends, and not all of its steps.
impl<'n, E: EventLaw> Drop for Way<'n, E> {
    fn drop(self) {
        match self {
            Way::Regions(_follower) => {}
            Way::Corners(_follower) => {}
            Way::Keyed(_follower) => {}
            Way::PackedCorners(_follower) => {}
            Way::PackedSets(_follower) => {}
        }
    }
}

impl<'n, E: EventLaw> Follower for Way<'n, E> {
    ghost stands_for = { elim [
      | Regions follower ↦ ⟦<Regions<'n, E> as Follower>⟧.stands_for follower
      | Corners follower ↦ ⟦<Corners<'n, E> as Follower>⟧.stands_for follower
      | Keyed follower ↦ ⟦<KeyedCorners<'n, E> as Follower>⟧.stands_for follower
      | PackedCorners follower ↦ ⟦<CornersByWords<'n, E> as Follower>⟧.stands_for follower
      | PackedSets follower ↦ ⟦<SetsByWords<'n, E> as Follower>⟧.stands_for follower
    ] };

    fn ending(&mut self, numbers: &[u16]) -> Option<State> {
        match self {
            Way::Regions(follower) => follower.ending(numbers),
            Way::Corners(follower) => follower.ending(numbers),
            Way::Keyed(follower) => follower.ending(numbers),
            Way::PackedCorners(follower) => follower.ending(numbers),
            Way::PackedSets(follower) => follower.ending(numbers),
        }
    }

    fn ends(&mut self, numbers: &[u16]) -> Option<Bounds> {
        match self {
            Way::Regions(follower) => follower.ends(numbers),
            Way::Corners(follower) => follower.ends(numbers),
            Way::Keyed(follower) => follower.ends(numbers),
            Way::PackedCorners(follower) => follower.ends(numbers),
            Way::PackedSets(follower) => follower.ends(numbers),
        }
    }
}
