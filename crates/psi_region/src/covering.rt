//! Whether a box holds the image of another.

ghost use Rattle.std.specs.Prelude.{◌↔◌, IsTrue};
ghost use Rattle.psi_state.specs.State.{IsBelow, box};
ghost use Rattle.psi_region.specs.Covering.{Covers};

use psi_event::EventLaw;
use psi_state::Bounds;

/// Returns whether the event makes of each state of the box `from` a state of the box `to`.
///
/// Both boxes are within the event's capacities. It compares the corners of `to` with those of the
/// envelope of `from`, which is tight, and does not allocate.
pub fn covers_image<E: EventLaw>(e: &E, from: &Bounds, to: &Bounds) -> bool
    requires from { IsBelow from.now.hi (E.capacities e.now) }
    requires to { IsBelow to.now.hi (E.capacities e.now) }
    ensures { IsTrue result ↔ Covers (E.function e.now) (box from.now.lo from.now.hi) (box to.now.lo to.now.hi) }
{
    // Called for its clause: the corners of both are in order.
    let _from = from.lo();
    let _to = to.lo();
    let mut envelope = *from;
    e.envelope(&mut envelope);
    envelope.within(to)
}
