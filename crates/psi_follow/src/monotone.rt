//! Whether a network is monotone.

ghost use Rattle.std.specs.Prelude.{◌↔◌, IsTrue, All, map};
ghost use Rattle.psi_event.specs.Law.{IsMonotone};

use psi_event::EventLaw;
use psi_region::Course;

// Whether each event of the network is monotone.
pub(crate) fn are_monotone<E: EventLaw>(course: &Course<'_, E>) -> bool
    ensures events { IsTrue result ↔ All (λ e. IsMonotone (E.capacities e) (E.function e)) course.now.events }
    ensures functions { IsTrue result → All (λ f. IsMonotone course.now.caps f) (map E.function course.now.events) }
{
    let events = course.events();
    for number in 0..events.len() {
        if !events[number].monotone() {
            return false;
        }
    }
    true
}
