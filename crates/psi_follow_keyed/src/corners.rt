//! Runs of monotone networks by their keys.

ghost use Rattle.std.specs.Prelude.{◌≡◌, All, length, map, IfOk, IfSome};
ghost use Rattle.psi_event.specs.Law.{IsMonotone};
ghost use Rattle.psi_event.specs.Numbers.{AreEvents};
ghost use Rattle.psi_region.specs.Followed.{followed, AreEnds, AreMoved, states_of, ending_of};
ghost use Rattle.psi_follow_keyed.specs.Keyed.{IsKeyed};

use crate::keyed::Keyed;
use psi_event::EventLaw;
use psi_region::{Course, Follower, one_of};
use psi_route::RouteLaw;
use psi_state::{Bounds, State};
use std::alloc::{AllocError, Global};
use std::marker::Model;

/// A follower of a monotone network: by the least and the greatest state, with the keys of the queues that customers may join
/// (Propp and Wilson 1996).
///
/// It is seen as the network that it stands for.
pub struct KeyedCorners<'n, E: EventLaw> {
    course: Course<'n, E>,
    keyed: Keyed,
}

impl<'n, E: EventLaw> Model for KeyedCorners<'n, E> {
    ghost use Rattle.std.specs.Prelude.{All, map};
    ghost use Rattle.psi_event.specs.Law.{IsMonotone};
    ghost use Rattle.psi_region.specs.Followed.{Network};
    ghost use Rattle.psi_follow_keyed.specs.Keyed.{IsKeyed};

    ghost Value = { Network E };

    ghost view = { λ c. c.course };

    ghost invariant = { λ c. IsKeyed c.course.caps (map E.function c.course.events) c.keyed
        × All (λ f. IsMonotone c.course.caps f) (map E.function c.course.events) };
}

// By hand, so that the end of a follower is a call where it ends, and not all of its steps.
impl<'n, E: EventLaw> Drop for KeyedCorners<'n, E> {
    fn drop(self) {
        let KeyedCorners {
            course: _,
            keyed: _,
        } = self;
    }
}

impl<'n, E: RouteLaw> KeyedCorners<'n, E> {
    /// Returns a follower of this network, whose events are monotone; `None` where they are none of those that `Keyed`
    /// takes.
    ///
    /// # Errors
    ///
    /// `AllocError` if an allocation fails; no clause says when that is. No other call allocates.
    pub fn new(
        alloc: Global,
        course: &Course<'n, E>,
    ) -> Result<Option<KeyedCorners<'n, E>>, AllocError>
        requires { All (λ f. IsMonotone course.now.caps f) (map E.function course.now.events) }
        ensures { IfOk result (λ found. IfSome found (λ corners. corners ≡ course.now)) }
    {
        let Some(keyed) = Keyed::new(alloc, course.caps(), course.events())? else {
            return Ok(None);
        };
        Ok(Some(KeyedCorners {
            course: course.again(),
            keyed,
        }))
    }
}

impl<'n, E: EventLaw> Follower for KeyedCorners<'n, E> {
    ghost stands_for = { λ n. followed E.function n };

    fn ending(&mut self, numbers: &[u16]) -> Option<State> {
        let (least, greatest) = moved_corners(&self.keyed, &self.course, numbers);
        one_of(least, greatest)
    }

    fn ends(&mut self, numbers: &[u16]) -> Option<Bounds> {
        let (least, greatest) = moved_corners(&self.keyed, &self.course, numbers);
        Some(Bounds::new(least, greatest))
    }
}

// What the events of the numbers, the last first, make of the least and of the greatest state, by keys.
fn moved_corners<E: EventLaw>(
    keyed: &Keyed,
    course: &Course<'_, E>,
    numbers: &[u16],
) -> (State, State)
    requires keyed { IsKeyed course.now.caps (map E.function course.now.events) keyed.now }
    requires numbers { AreEvents (length (map E.function course.now.events)) numbers.now }
    ensures { AreMoved (followed E.function course.now) numbers.now result.0 result.1 }
{
    let mut greatest = course.caps();
    let mut least = State::zero(greatest.len());
    keyed.follow(numbers, &mut least, &mut greatest);
    (least, greatest)
}
