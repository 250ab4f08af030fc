//! Runs that are followed by regions (Bušić, Gaujal and Vincent 2008).

ghost use Rattle.std.specs.Prelude.{◌≡◌, length, IfOk};
ghost use Rattle.psi_event.specs.Numbers.{AreEvents};
ghost use Rattle.psi_region.specs.Followed.{followed, ending_of};

use crate::OutOfMemory;
use crate::course::Course;
use crate::follower::Follower;
use crate::region::Region;
use psi_event::EventLaw;
use psi_state::State;
use std::alloc::Global;
use std::marker::Model;

/// A follower of any network: by a region, through the events themselves.
///
/// It is seen as the network that it stands for. Only `reserve` allocates.
#[derive(Drop)]
pub struct Regions<'n, E: EventLaw> {
    course: Course<'n, E>,
    region: Region,
}

impl<'n, E: EventLaw> Model for Regions<'n, E> {
    ghost use Rattle.std.specs.Prelude.{◌≡◌};
    ghost use Rattle.psi_region.specs.Followed.{Network};

    ghost Value = { Network E };

    ghost view = { λ r. r.course };

    ghost invariant = { λ r. r.region.split ≡ r.course.split };
}

impl<'n, E: EventLaw> Regions<'n, E> {
    /// Allocates room for a region of the split number of states.
    ///
    /// Returns `OutOfMemory` if an allocation fails; no clause says when that is.
    pub fn reserve(alloc: Global, course: Course<'n, E>) -> Result<Regions<'n, E>, OutOfMemory>
        ensures { IfOk result (λ regions. regions ≡ course.entry) }
    {
        let region = Region::reserve(alloc, course.split())?;
        Ok(Regions { course, region })
    }
}

impl<'n, E: EventLaw> Follower for Regions<'n, E> {
    ghost stands_for = { λ n. followed E.function n };

    fn ending(&mut self, numbers: &[u16]) -> Option<State> {
        region_ending(&self.course, &mut self.region, numbers)
    }
}

// The one state with which the region of all states ends after the events of the numbers, the last first, if it
// ends with one.
fn region_ending<E: EventLaw>(
    course: &Course<'_, E>,
    region: &mut Region,
    numbers: &[u16],
) -> Option<State>
    requires split { region.old.split ≡ course.now.split }
    requires numbers { AreEvents (length (followed E.function course.now).functions) numbers.now }
    ensures ending { result ≡ ending_of (followed E.function course.now) numbers.now }
    ensures split { region.new.split ≡ region.old.split }
{
    region.start(&course.caps());
    for place in (0..numbers.len()).rev() {
        region.advance(course.event(numbers[place]));
    }
    region.single()
}
