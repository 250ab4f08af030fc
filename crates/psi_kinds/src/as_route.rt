//! The route that an event is.

ghost use Rattle.std.specs.Prelude.{◌≡◌, IfSome};

use crate::event::Event;
use psi_event::EventLaw;
use psi_route::{Route, RouteLaw};

impl RouteLaw for Event {
    fn as_route(&self) -> Option<&Route> {
        match self {
            Event::Route(route) => Some(route),
            Event::Guarded(_guarded) => None,
            Event::Idle(_idle) => None,
        }
    }
}
