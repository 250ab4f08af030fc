//! An event of a network, of one of its forms.

ghost use Rattle.std.specs.Prelude.{◌≡◌, ℕ, ◌↔◌, List, Option, IfSome, IsTrue};
ghost use Rattle.psi_state.specs.State.{AreCapacities, IsBelow, box};
ghost use Rattle.psi_state.specs.Sets.{image};
ghost use Rattle.psi_state.specs.Hull.{corners, IsTight};
ghost use Rattle.psi_event.specs.Piecewise.{Does};
ghost use Rattle.psi_event.specs.Law.{IsClosed, IsMonotone, ShowsUpset};

use psi_event::{EventLaw, Idle, Piecewise, PiecewiseLaw};
use psi_guard::Guarded;
use psi_route::Route;
use psi_state::{Bounds, State};

/// An event of a network: a route, a guarded event or the idle one.
///
/// Its capacities, its function on states and the two states whose order it doesn't keep, if there are
/// such, are those of the route, the guarded event or the idle event that it is.
#[derive(Drop, Debug)]
pub enum Event {
    /// Customers come from outside or from a source and join the best queue of a list.
    Route(Route),
    /// Several queues change at once where each of them holds a number within its guard.
    Guarded(Guarded),
    /// Nothing changes.
    Idle(Idle),
}

impl EventLaw for Event {
    ghost use Rattle.psi_kinds.specs.Events.{by_form};
    ghost use Rattle.psi_kinds.specs.Inner.EventsLaws.{by_form-closed};

    ghost capacities = { λ event. by_form ⟦<Route as EventLaw>⟧.capacities ⟦<Guarded as EventLaw>⟧.capacities ⟦<Idle as EventLaw>⟧.capacities event };

    ghost function = { λ event. by_form ⟦<Route as EventLaw>⟧.function ⟦<Guarded as EventLaw>⟧.function ⟦<Idle as EventLaw>⟧.function event };

    ghost upset_pair = { λ event. by_form ⟦<Route as EventLaw>⟧.upset_pair ⟦<Guarded as EventLaw>⟧.upset_pair ⟦<Idle as EventLaw>⟧.upset_pair event };

    ghost closed = { λ event. by_form-closed event };

    fn caps(&self) -> State {
        match self {
            Event::Route(route) => route.caps(),
            Event::Guarded(guarded) => guarded.caps(),
            Event::Idle(idle) => idle.caps(),
        }
    }

    fn apply(&self, x: &mut State) {
        match self {
            Event::Route(route) => route.apply(x),
            Event::Guarded(guarded) => guarded.apply(x),
            Event::Idle(idle) => idle.apply(x),
        }
    }

    fn envelope(&self, b: &mut Bounds) {
        match self {
            Event::Route(route) => route.envelope(b),
            Event::Guarded(guarded) => guarded.envelope(b),
            Event::Idle(idle) => idle.envelope(b),
        }
    }

    fn monotone(&self) -> bool {
        match self {
            Event::Route(route) => route.monotone(),
            Event::Guarded(guarded) => guarded.monotone(),
            Event::Idle(idle) => idle.monotone(),
        }
    }

    fn upset(&self) -> Option<(State, State)> {
        match self {
            Event::Route(route) => route.upset(),
            Event::Guarded(guarded) => guarded.upset(),
            Event::Idle(idle) => idle.upset(),
        }
    }
}

impl PiecewiseLaw for Event {
    fn piecewise(&self) -> Option<Piecewise> {
        match self {
            Event::Route(route) => route.piecewise(),
            Event::Guarded(guarded) => guarded.piecewise(),
            Event::Idle(idle) => idle.piecewise(),
        }
    }
}
