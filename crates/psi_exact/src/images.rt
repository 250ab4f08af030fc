//! The rank of what an event makes of each state.

ghost use Rattle.std.specs.Prelude.{◌≡◌, ◌≤◌, length};
ghost use Rattle.psi_state.specs.State.{all_states};
ghost use Rattle.psi_exact.specs.Ranks.{AreRanksOf};

use crate::spread::spread_images;
use psi_event::EventLaw;
use psi_state::Bounds;

/// Writes at the rank of each state the rank of what the event makes of it.
pub(crate) fn write_images<E: EventLaw>(e: &E, ranks: &mut [u16])
    requires few { length (all_states (E.capacities e.now)) ≤ 65536 }
    requires room { length ranks.old ≡ length (all_states (E.capacities e.now)) }
    ensures { AreRanksOf (E.capacities e.now) (E.function e.now) ranks.new }
{
    if !spread_images(e, ranks) {
        write_each(e, ranks);
    }
}

// Applies the event to each state, as they come one after another.
fn write_each<E: EventLaw>(e: &E, ranks: &mut [u16])
    requires few { length (all_states (E.capacities e.now)) ≤ 65536 }
    requires room { length ranks.old ≡ length (all_states (E.capacities e.now)) }
    ensures { AreRanksOf (E.capacities e.now) (E.function e.now) ranks.new }
{
    let bounds = Bounds::whole(&e.caps());
    let mut rank = 0;
    for state in bounds.states() {
        let mut image = state;
        e.apply(&mut image);
        ranks[rank] = bounds.rank(&image) as u16;
        rank += 1;
    }
}
