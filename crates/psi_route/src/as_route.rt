//! Events that may be routes.

ghost use Rattle.std.specs.Prelude.{◌≡◌, IfSome};

use crate::route::Route;
use psi_event::{EventLaw, Idle};

/// An event that may be a route. One that is none needs no more than `impl RouteLaw for It {}`.
///
/// No call allocates.
pub trait RouteLaw: EventLaw {
    /// The route that does what the event does, where the event is a route.
    fn as_route(&self) -> Option<&Route>
        ensures capacities { IfSome result (λ route. ⟦<Route as EventLaw>⟧.capacities route.now ≡ Self.capacities self.now) }
        ensures function { IfSome result (λ route. ⟦<Route as EventLaw>⟧.function route.now ≡ Self.function self.now) }
    {
        None
    }
}

impl RouteLaw for Route {
    fn as_route(&self) -> Option<&Route> {
        Some(self)
    }
}

impl RouteLaw for Idle {}
