//! The closed run of a horizon.

ghost use Rattle.std.specs.Prelude.{◌≡◌, ◌<◌, ◌≤◌, ℕ, All, IfSome, Some, length, map};
ghost use Rattle.psi_state.specs.Sets.{single};
ghost use Rattle.psi_kinds.specs.Moves.{moved};
ghost use Rattle.psi_rate.specs.Keeping.{KeepsNumbers};
ghost use Rattle.psi_closed.specs.Closed.{IsOfTotal, total_states, follow_closed, closed_ending};
ghost use Rattle.psi_closed.specs.Planned.{closed_functions, AreMoves};

use crate::Diagram;
use crate::walking::walk;
use psi_kinds::Move;
use psi_past::Past;
use psi_rate::{EventNumbers, Wheel};
use psi_state::State;

// The one state with which the closed run of a horizon ends, if it ends with one. The diagram goes through the numbers
// of the events of its places, which are kept for the next run.
pub(crate) fn ending<P: Past>(
    moves: &[Move],
    wheel: &Wheel,
    past: &mut P,
    numbers: &mut EventNumbers,
    diagram: &mut Diagram,
    horizon: u32,
) -> Option<State>
    requires moves { AreMoves diagram.old.caps moves.now }
    requires same_count { length wheel.now ≡ length moves.now }
    requires kept { KeepsNumbers wheel.now (P.words past.old) horizon numbers.old }
    ensures ending { result ≡ closed_ending diagram.old.caps diagram.old.total (closed_functions diagram.old.caps moves.now wheel.now (P.words past.old)) horizon }
    ensures kept { (most : ℕ) → KeepsNumbers wheel.now (P.words past.old) most numbers.old → KeepsNumbers wheel.now (P.words past.old) most numbers.new }
    ensures words { P.words past.new ≡ P.words past.old }
    ensures caps { diagram.new.caps ≡ diagram.old.caps }
    ensures total { diagram.new.total ≡ diagram.old.total }
{
    numbers.extend_to(wheel, past, horizon);
    let run = numbers.below(wheel, past, horizon);
    follow_numbers(moves, run, diagram)
}

// The one state with which the diagram ends that begins with all states of the total and goes through the moves of
// these numbers, the last one first, if it ends with one. Once it holds one state, that state alone is followed.
fn follow_numbers(moves: &[Move], numbers: &[u16], diagram: &mut Diagram) -> Option<State>
    requires moves { AreMoves diagram.old.caps moves.now }
    requires numbers { All (λ n. n < length moves.now) numbers.now }
    ensures ending { let functions = map (λ m. moved diagram.old.caps m) moves.now in
        result ≡ single (follow_closed diagram.old.caps diagram.old.total functions numbers.now (total_states diagram.old.caps diagram.old.total)) }
    ensures caps { diagram.new.caps ≡ diagram.old.caps }
    ensures total { diagram.new.total ≡ diagram.old.total }
{
    diagram.start();
    for place in (0..numbers.len()).rev() {
        if let Some(state) = one_left(diagram, place) {
            return Some(walk(moves, numbers, place + 1, &diagram.caps(), state));
        }
        diagram.advance(&moves[numbers[place] as usize]);
    }
    diagram.single()
}

// The one state that the diagram holds, if it holds one, at every 64th place: a look costs about as much as a step.
#[inline]
fn one_left(diagram: &Diagram, place: usize) -> Option<State>
    ensures one { IfSome result (λ s. single diagram.now.states ≡ Some s) }
    ensures within { IfSome result (λ s. IsOfTotal diagram.now.caps diagram.now.total s) }
{
    if place % 64 != 63 {
        return None;
    }
    diagram.single()
}
