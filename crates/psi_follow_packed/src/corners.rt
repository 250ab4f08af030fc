//! Runs of monotone networks on packed states.

ghost use Rattle.std.specs.Prelude.{◌≡◌, All, length, map, IfOk, IfSome};
ghost use Rattle.psi_event.specs.Law.{IsMonotone};
ghost use Rattle.psi_event.specs.Numbers.{AreEvents};
ghost use Rattle.psi_follow_packed.specs.Programs.{Prepares};
ghost use Rattle.psi_region.specs.Followed.{followed, AreEnds, AreMoved, states_of, ending_of};

use crate::layout::Layout;
use crate::program::MaskProgram;
use psi_event::{EventLaw, PiecewiseLaw};
use psi_region::{Course, Follower, one_of};
use psi_state::{Bounds, State};
use std::alloc::{AllocError, Global};
use std::marker::Model;

/// A follower of a monotone network: by the least and the greatest state, packed into `K` words (Propp and Wilson 1996).
///
/// It is seen as the network that it stands for.
pub struct PackedCorners<'n, const K: usize, E: EventLaw> {
    course: Course<'n, E>,
    program: MaskProgram<K>,
}

impl<'n, const K: usize, E: EventLaw> Model for PackedCorners<'n, K, E> {
    ghost use Rattle.std.specs.Prelude.{All, map};
    ghost use Rattle.psi_event.specs.Law.{IsMonotone};
    ghost use Rattle.psi_region.specs.Followed.{Network};
    ghost use Rattle.psi_follow_packed.specs.Programs.{Prepares};

    ghost Value = { Network E };

    ghost view = { λ c. c.course };

    ghost invariant = { λ c. Prepares K c.course.caps (map E.function c.course.events) c.program
        × All (λ f. IsMonotone c.course.caps f) (map E.function c.course.events) };
}

// By hand, so that the end of a follower is a call where it ends, and not all of its steps.
impl<'n, const K: usize, E: EventLaw> Drop for PackedCorners<'n, K, E> {
    fn drop(self) {
        let PackedCorners {
            course: _,
            program: _,
        } = self;
    }
}

impl<'n, const K: usize, E: PiecewiseLaw> PackedCorners<'n, K, E> {
    /// Returns a follower of this network, whose events are monotone; `None` where its states don't fit `K` words, or
    /// an event declares no pieces.
    ///
    /// # Errors
    ///
    /// `AllocError` if an allocation fails; no clause says when that is. No other call allocates.
    pub fn new(
        alloc: Global,
        course: &Course<'n, E>,
    ) -> Result<Option<PackedCorners<'n, K, E>>, AllocError>
        requires { All (λ f. IsMonotone course.now.caps f) (map E.function course.now.events) }
        ensures { IfOk result (λ found. IfSome found (λ corners. corners ≡ course.now)) }
    {
        let Some(layout) = Layout::new(course.caps()) else {
            return Ok(None);
        };
        let Some(program) = MaskProgram::new(alloc, layout, course.events())? else {
            return Ok(None);
        };
        Ok(Some(PackedCorners {
            course: course.again(),
            program,
        }))
    }
}

impl<'n, const K: usize, E: EventLaw> Follower for PackedCorners<'n, K, E> {
    ghost stands_for = { λ n. followed E.function n };

    fn ending(&mut self, numbers: &[u16]) -> Option<State> {
        let (least, greatest) = moved_corners(&self.program, &self.course, numbers);
        one_of(least, greatest)
    }

    fn ends(&mut self, numbers: &[u16]) -> Option<Bounds> {
        let (least, greatest) = moved_corners(&self.program, &self.course, numbers);
        Some(Bounds::new(least, greatest))
    }
}

// What the events of the numbers, the last first, make of the least and of the greatest state, on packed states.
fn moved_corners<const K: usize, E: EventLaw>(
    program: &MaskProgram<K>,
    course: &Course<'_, E>,
    numbers: &[u16],
) -> (State, State)
    requires program { Prepares K course.now.caps (map E.function course.now.events) program.now }
    requires numbers { AreEvents (length (map E.function course.now.events)) numbers.now }
    ensures { AreMoved (followed E.function course.now) numbers.now result.0 result.1 }
{
    let caps = course.caps();
    let mut corners = program.pack(&State::zero(caps.len()), &caps);
    program.follow(numbers, &mut corners);
    program.unpack(&corners)
}
