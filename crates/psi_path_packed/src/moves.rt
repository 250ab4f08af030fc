//! The events of a network on packed states, and after them one that is idle.

ghost use Rattle.std.specs.Prelude.{◌≡◌, ◌≤◌, ◌++◌, ◌∷◌, [], All, length, map, IfOk, IfSome};
ghost use Rattle.psi_event.specs.Idle.{unchanged};
ghost use Rattle.psi_event.specs.Piecewise.{Does};
ghost use Rattle.psi_follow_packed.specs.Programs.{Prepares};
ghost use Rattle.psi_follow_packed.specs.Views.{low_word, moving_by};
ghost use Rattle.psi_path_packed.specs.Counts.{IsByFirst};

use psi_event::{Piece, Piecewise, PiecewiseLaw};
use psi_follow_packed::{Layout, PackedEvent};
use psi_state::State;
use std::alloc::{AllocError, Global};

/// Returns the events on states that are packed so, and after them one that changes nothing; `None` where an event declares no pieces,
/// or its second piece changes a state.
pub(crate) fn moves_of<const K: usize, E: PiecewiseLaw>(
    alloc: Global,
    layout: &Layout<K>,
    events: &[E],
) -> Result<Option<Vec<PackedEvent<K>>>, AllocError>
    requires few { length events.now ≤ 65535 }
    requires caps { All (λ e. E.capacities e ≡ layout.now.caps) events.now }
    ensures first { IfOk result (λ found. IfSome found (λ moves. All IsByFirst moves.items)) }
    ensures prepared { IfOk result (λ found. IfSome found (λ moves.
        Prepares K layout.now.caps (map E.function events.now ++ unchanged ∷ []) (record { packing = layout.now; moves = map (moving_by low_word) moves.items }))) }
{
    let mut moves = Vec::with_capacity(alloc, events.len() + 1)?;
    for event in events {
        let Some(pieces) = event.piecewise() else {
            return Ok(None);
        };
        let own = PackedEvent::of(layout, &pieces);
        if !own.is_of_one_piece() {
            return Ok(None);
        }
        moves.push_reserved(own);
    }
    let last = PackedEvent::of(layout, &idle(&layout.caps()));
    if !last.is_of_one_piece() {
        return Ok(None);
    }
    moves.push_reserved(last);
    Ok(Some(moves))
}

// The pieces of an event that changes nothing.
fn idle(caps: &State) -> Piecewise
    ensures { Does caps.now result unchanged }
{
    let queues = caps.len();
    Piecewise {
        bounds: State::zero(queues),
        first: Piece::empty(queues),
        second: Piece::empty(queues),
    }
}
