//! The ranks of what events make of states, put into a list one event after another.

ghost use Rattle.std.specs.Prelude.{◌≡◌, ◌+◌, ◌*◌, ◌≤◌, ◌<◌, [], length, map, vec_capacity, MatchOption};
ghost use Rattle.psi_state.specs.State.{AreCapacities, all_states};
ghost use Rattle.psi_path_table.specs.Table.{AreRows};
ghost use Rattle.psi_path_table.specs.Inner.FillingKept.{AreImagesAfter};

use psi_event::{EventLaw, Idle};
use psi_rate::System;
use psi_state::{Bounds, State};

/// The most entries that a table has.
pub(crate) const MOST_ENTRIES: u32 = 65_536;

/// Returns the number of states of these capacities. It is `None` exactly where `rows` rows of them have more than 65,536 entries.
pub(crate) fn states_in(caps: &State, rows: u32) -> Option<u32>
    requires some { 1 ≤ rows }
    requires few { rows ≤ 1025 }
    ensures { MatchOption result (65536 < rows * length (all_states caps.now)) (λ states. (states ≡ length (all_states caps.now)) × (rows * states ≤ 65536)) }
{
    let states = Bounds::whole(caps).volume_at_most(MOST_ENTRIES)?;
    if rows * states > MOST_ENTRIES {
        return None;
    }
    Some(states)
}

/// Puts the rank of what each event of a network makes of each state into an empty list, event after event. The ranks of the states
/// themselves follow, for idle steps.
pub(crate) fn fill<E: EventLaw>(system: &System<'_, E>, ranks: &mut Vec<u16>)
    requires few { length (all_states system.now.caps) ≤ 65536 }
    requires none { ranks.old.items ≡ [] }
    requires room { (length system.now.events + 1) * length (all_states system.now.caps) ≤ vec_capacity ranks.old }
    ensures { AreRows system.now.caps (map E.function system.now.events) (length system.now.events + 1) ranks.new.items }
{
    let caps = system.caps();
    for event in system.events() {
        push_images(event, ranks);
    }
    push_images(&Idle::new(caps), ranks);
}

// Puts the rank of what an event makes of each state after the ranks that are there.
fn push_images<E: EventLaw>(event: &E, ranks: &mut Vec<u16>)
    requires few { length (all_states (E.capacities event.now)) ≤ 65536 }
    requires room { length ranks.old.items + length (all_states (E.capacities event.now)) ≤ vec_capacity ranks.old }
    ensures images { AreImagesAfter (E.capacities event.now) (E.function event.now) (length (all_states (E.capacities event.now))) ranks.old.items ranks.new.items }
    ensures room { vec_capacity ranks.new ≡ vec_capacity ranks.old }
{
    let bounds = Bounds::whole(&event.caps());
    for state in bounds.states() {
        let mut image = state;
        event.apply(&mut image);
        ranks.push_reserved(bounds.rank(&image) as u16);
    }
}
