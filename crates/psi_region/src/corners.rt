//! Runs of monotone networks: of all states only the least and the greatest are followed, and the others stay
//! between the two (Propp and Wilson 1996).

ghost use Rattle.std.specs.Prelude.{◌≡◌, All, length, map, IfSome};
ghost use Rattle.psi_event.specs.Law.{IsMonotone};
ghost use Rattle.psi_event.specs.Numbers.{AreEvents};
ghost use Rattle.psi_region.specs.Followed.{followed, AreEnds, AreMoved, states_of, ending_of};

use crate::course::Course;
use crate::follower::{Follower, one_of};
use psi_event::EventLaw;
use psi_state::{Bounds, State};
use std::marker::Model;

/// A follower of a monotone network: by the least and the greatest state, through the events themselves.
///
/// It is seen as the network that it stands for. No call allocates.
#[derive(Drop)]
pub struct Corners<'n, E: EventLaw> {
    course: Course<'n, E>,
}

impl<'n, E: EventLaw> Model for Corners<'n, E> {
    ghost use Rattle.std.specs.Prelude.{All, map};
    ghost use Rattle.psi_event.specs.Law.{IsClosed, IsMonotone};
    ghost use Rattle.psi_region.specs.Followed.{Network};

    ghost Value = { Network E };

    ghost view = { λ c. c.course };

    ghost invariant = { λ c. All (λ f. IsMonotone c.course.caps f) (map E.function c.course.events) };
}

impl<'n, E: EventLaw> Corners<'n, E> {
    /// Returns a follower of this network, whose events are monotone.
    pub fn new(course: Course<'n, E>) -> Corners<'n, E>
        requires { All (λ f. IsMonotone course.caps f) (map E.function course.events) }
        ensures { result ≡ course.entry }
    {
        Corners { course }
    }
}

impl<'n, E: EventLaw> Follower for Corners<'n, E> {
    ghost stands_for = { λ n. followed E.function n };

    fn ending(&mut self, numbers: &[u16]) -> Option<State> {
        let (least, greatest) = moved_corners(&self.course, numbers);
        one_of(least, greatest)
    }

    fn ends(&mut self, numbers: &[u16]) -> Option<Bounds> {
        let (least, greatest) = moved_corners(&self.course, numbers);
        Some(Bounds::new(least, greatest))
    }
}

// What the events of the numbers, the last first, make of the least and of the greatest state.
fn moved_corners<E: EventLaw>(course: &Course<'_, E>, numbers: &[u16]) -> (State, State)
    requires { AreEvents (length (map E.function course.now.events)) numbers.now }
    ensures { AreMoved (followed E.function course.now) numbers.now result.0 result.1 }
{
    let mut greatest = course.caps();
    let mut least = State::zero(greatest.len());
    for place in (0..numbers.len()).rev() {
        let event = course.event(numbers[place]);
        event.apply(&mut least);
        event.apply(&mut greatest);
    }
    (least, greatest)
}
