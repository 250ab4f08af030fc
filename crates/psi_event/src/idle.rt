//! The event that changes nothing.

ghost use Rattle.std.specs.Prelude.{◌≡◌, ℕ, ◌↔◌, List, Option, None, IsTrue};
ghost use Rattle.psi_state.specs.State.{AreCapacities, IsBelow, box};
ghost use Rattle.psi_state.specs.Sets.{image};
ghost use Rattle.psi_state.specs.Hull.{corners, IsTight};
ghost use Rattle.psi_event.specs.Law.{IsClosed, IsMonotone, ShowsUpset};
ghost use Rattle.psi_event.specs.Idle.{unchanged};
ghost use Rattle.psi_event.specs.Inner.IdleLaws.{unchanged-closed};

use crate::law::EventLaw;
use psi_state::{Bounds, State};

/// The event that changes nothing: a time at which no event of the network happens.
#[derive(Clone, Copy, Debug)]
pub struct Idle {
    caps: State,
    ghost valid: { AreCapacities caps },
}

impl Idle {
    /// Returns the idle event of a network with these capacities.
    pub fn new(caps: State) -> Idle
        requires { AreCapacities caps }
        ensures caps { ⟦<Idle as EventLaw>⟧.capacities result ≡ caps }
        ensures function { ⟦<Idle as EventLaw>⟧.function result ≡ unchanged }
    {
        Idle { caps }
    }
}

impl EventLaw for Idle {
    ghost capacities = { λ event. event.caps };

    ghost function = { λ _. unchanged };

    ghost upset_pair = { λ _. None };

    ghost closed = { λ event. unchanged-closed event.caps };

    fn caps(&self) -> State {
        self.caps
    }

    fn apply(&self, x: &mut State) {
        // It is as it was.
        let _state = x;
    }

    fn envelope(&self, b: &mut Bounds) {
        // Called for its clause: the corners are in order.
        let _queues = b.len();
    }

    fn monotone(&self) -> bool {
        true
    }

    fn upset(&self) -> Option<(State, State)> {
        None
    }
}
