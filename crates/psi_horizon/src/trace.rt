//! The run that goes step by step.

ghost use Rattle.std.specs.Prelude.{◌≡◌, ◌≤◌, length, map, None, IfOk};
ghost use Rattle.psi_rate.specs.Rates.{event_of};
ghost use Rattle.psi_rate.specs.Composition.{picked};
ghost use Rattle.psi_rate.specs.System.{IsSystem};
ghost use Rattle.psi_region.specs.Region.{step, IsArea};

use crate::OutOfMemory;
use psi_event::EventLaw;
use psi_rate::System;
use psi_region::Region;
use std::alloc::Global;

/// How far a run is that was begun: its horizon, and how many of its steps are done.
#[derive(Clone, Copy, Debug)]
pub(crate) struct Progress {
    pub(crate) horizon: u32,
    pub(crate) done: u32,
}

/// The run of a plan that goes step by step: its region after the steps that are done, where one was begun. A sample
/// leaves the region as it is.
#[derive(Drop)]
pub(crate) struct Trace {
    pub(crate) region: Region,
    pub(crate) run: Option<Progress>,
}

impl Trace {
    /// Allocates room for a region of `split` states, 1 to 4,096. No run is begun.
    ///
    /// Returns `OutOfMemory` if an allocation fails; no clause says when that is.
    pub(crate) fn reserve(alloc: Global, split: u16) -> Result<Trace, OutOfMemory>
        requires some { 1 ≤ split }
        requires few { split ≤ 4096 }
        ensures split { IfOk result (λ trace. trace.region.split ≡ split) }
        ensures run { IfOk result (λ trace. trace.run ≡ None) }
    {
        let region = Region::reserve(alloc, split)?;
        Ok(Trace { region, run: None })
    }

    /// Follows the region through the event of a word, and returns the event's number.
    #[inline]
    pub(crate) fn follow<E: EventLaw>(&mut self, system: &System<'_, E>, word: u32) -> u16
        requires fit { IsSystem E.capacities system.now }
        requires area { IsArea system.now.caps self.old.region.area }
        ensures event { result ≡ event_of system.now.rates word }
        ensures number { result ≤ length system.now.events }
        ensures area { self.new.region.area ≡ step self.old.region.split (picked (map E.function system.now.events) system.now.rates word) self.old.region.area }
        ensures split { self.new.region.split ≡ self.old.region.split }
    {
        let (number, event) = system.pick(word);
        match event {
            Some(event) => self.region.advance(event),
            None => self.region.rest(),
        }
        number
    }
}
