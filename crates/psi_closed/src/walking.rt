//! What is left of a run once one state is held: a walk of that state.

ghost use Rattle.std.specs.Prelude.{◌≡◌, ◌<◌, ◌≤◌, All, length, map, take};
ghost use Rattle.psi_kinds.specs.Moves.{moved, IsMove};
ghost use Rattle.psi_closed.specs.Closed.{walk_of};
ghost use Rattle.psi_closed.specs.Planned.{AreMoves};

use psi_kinds::Move;
use psi_state::State;

// What the moves of the first `left` of these numbers make of a state, the last one of them first.
pub(crate) fn walk(
    moves: &[Move],
    numbers: &[u16],
    left: usize,
    caps: &State,
    start: State,
) -> State
    requires moves { AreMoves caps.now moves.now }
    requires numbers { All (λ n. n < length moves.now) numbers.now }
    requires left { left ≤ length numbers.now }
    requires long { length start ≡ length caps.now }
    ensures { result ≡ walk_of (map (λ m. moved caps.now m) moves.now) (take left numbers.now) start }
{
    let mut state = start;
    for place in (0..left).rev() {
        make_move(&moves[numbers[place] as usize], caps, &mut state);
    }
    state
}

// Makes a move of a state: where the source holds enough and the target has room, one customer goes.
#[inline]
fn make_move(m: &Move, caps: &State, state: &mut State)
    requires fits { IsMove caps.now m.now }
    requires long { length state.old ≡ length caps.now }
    ensures { state.new ≡ moved caps.now m.now state.old }
{
    let own = state.get(m.from);
    let other = state.get(m.to);
    if own < m.k {
        return;
    }
    if other >= caps.get(m.to) {
        return;
    }
    state.set(m.from, own - 1);
    state.set(m.to, other + 1);
}
