//! The events of a network, as steps.

ghost use Rattle.std.specs.Prelude.{◌≡◌, ◌<◌, length, IfSome};
ghost use Rattle.psi_follow_keyed.specs.Keys.{IsPlaceOf};
ghost use Rattle.psi_follow_keyed.specs.Steps.{IsLeaving};

use psi_event::EventLaw;
use psi_route::{Route, RouteLaw};
use psi_state::Queues;

/// What an event of such a network does.
#[derive(Clone, Copy)]
pub(crate) enum Step {
    /// Nothing changes.
    Still,
    /// A customer leaves a queue that holds at least `least`.
    Leave {
        /// The queue, counted from 0.
        queue: u8,
        /// The least number of customers with which one leaves.
        least: u16,
        /// The queue's place in the list of targets, or 32 where it is none of them.
        place: u8,
    },
    /// A customer from outside joins the target with the least key.
    Join,
}

impl Step {
    /// Returns the step of an event by which customers leave; `None` where the event isn't a route without targets.
    pub fn leaving<E: RouteLaw>(event: &E, targets: &Queues) -> Option<Step>
        ensures { IfSome result (λ step. IsLeaving (E.capacities event.now) targets.now (E.function event.now) step) }
    {
        let Some(route) = event.as_route() else {
            return None;
        };
        Step::leaving_by(route, targets)
    }

    // As `leaving`, of an event that is known to be this route.
    fn leaving_by(route: &Route, targets: &Queues) -> Option<Step>
        ensures { IfSome result (λ step. IsLeaving (⟦<Route as EventLaw>⟧.capacities route.now) targets.now (⟦<Route as EventLaw>⟧.function route.now) step) }
    {
        if route.targets().len() != 0 {
            return None;
        }
        match route.source() {
            None => Some(Step::Still),
            Some(source) => Some(Step::Leave {
                queue: source.queue,
                least: source.k,
                place: place_of(targets, source.queue),
            }),
        }
    }
}

// The place of a queue in a list of targets, or 32 where it is none of them.
fn place_of(targets: &Queues, queue: u8) -> u8
    ensures { IsPlaceOf targets.now queue result }
{
    for place in 0..targets.len() {
        if targets.get(place) == queue {
            return place;
        }
    }
    32
}
