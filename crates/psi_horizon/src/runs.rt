//! The numbers of the events of a run.

ghost use Rattle.std.specs.Prelude.{◌≡◌, ◌^◌, ◌≤◌};
ghost use Rattle.psi_rate.specs.System.{IsSystem};
ghost use Rattle.psi_rate.specs.Keeping.{KeepsNumbers, Reaches};
ghost use Rattle.psi_region.specs.Followed.{Followed};
ghost use Rattle.psi_horizon.specs.Planned.{network_of};
ghost use Rattle.psi_horizon.specs.Inner.PlanKept.{IsRun};

use psi_event::EventLaw;
use psi_past::Past;
use psi_rate::{EventNumbers, System};

// Keeps the numbers of the events of a horizon's places, for its run and for the next ones.
pub(crate) fn keep<E: EventLaw, P: Past>(
    system: &System<'_, E>,
    past: &mut P,
    numbers: &mut EventNumbers,
    horizon: u32,
)
    requires most { horizon ≤ 2 ^ system.now.limit }
    requires kept { KeepsNumbers system.now.rates (P.words past.old) (2 ^ system.now.limit) numbers.old }
    ensures kept { KeepsNumbers system.now.rates (P.words past.new) (2 ^ system.now.limit) numbers.new }
    ensures reached { Reaches numbers.new horizon }
    ensures words { P.words past.new ≡ P.words past.old }
{
    numbers.extend_to(system.wheel(), past, horizon);
}

// The numbers of the events of a horizon's run, which a follower goes through. They are kept.
pub(crate) fn run_of<'a, E: EventLaw, P: Past>(
    system: &System<'_, E>,
    past: &mut P,
    numbers: &'a EventNumbers,
    horizon: u32,
) -> &'a [u16]
    requires fit { IsSystem E.capacities system.now }
    requires most { horizon ≤ 2 ^ system.now.limit }
    requires kept { KeepsNumbers system.now.rates (P.words past.old) (2 ^ system.now.limit) numbers.now }
    requires reached { Reaches numbers.now horizon }
    ensures run { (network : Followed) → network ≡ network_of E.function system.now → IsRun E.function system.now (P.words past.old) horizon network result.now }
    ensures kept { KeepsNumbers system.now.rates (P.words past.new) (2 ^ system.now.limit) numbers.now }
    ensures words { P.words past.new ≡ P.words past.old }
{
    numbers.below(system.wheel(), past, horizon)
}
