//! The route as an event.

ghost use Rattle.std.specs.Prelude.{◌≡◌, ℕ, ◌↔◌, List, Option, IsTrue};
ghost use Rattle.psi_state.specs.State.{AreCapacities, IsBelow, box};
ghost use Rattle.psi_state.specs.Sets.{image};
ghost use Rattle.psi_state.specs.Hull.{corners, IsTight};
ghost use Rattle.psi_event.specs.Law.{IsClosed, IsMonotone, ShowsUpset};

use crate::route::Route;
use psi_event::EventLaw;
use psi_state::{Bounds, State};

impl EventLaw for Route {
    ghost use Rattle.psi_route.specs.Routing.{routed, upset_of};
    ghost use Rattle.psi_route.specs.Closed.{routed-closed};
    ghost use Rattle.psi_route.specs.Route.{shape_of};

    ghost capacities = { λ route. route.caps };

    ghost function = { λ route. routed (shape_of route) };

    ghost upset_pair = { λ route. upset_of (shape_of route) };

    ghost closed = { λ route. routed-closed (shape_of route) };

    fn caps(&self) -> State {
        self.caps
    }

    fn apply(&self, x: &mut State) {
        self.move_customers(x);
    }

    fn envelope(&self, b: &mut Bounds) {
        self.spread(b);
    }

    fn monotone(&self) -> bool {
        self.upset().is_none()
    }

    fn upset(&self) -> Option<(State, State)> {
        self.broken()
    }
}
