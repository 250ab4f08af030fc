//! The pieces of an event.

ghost use Rattle.std.specs.Prelude.{◌≡◌, ◌≤◌, replicate};

use crate::sides::Sides;
use psi_state::State;

/// What is added to a state and taken from it where each queue's number is on its side of the queue's bound.
#[derive(Clone, Copy, Debug)]
pub struct Piece {
    /// On which side of its bound each queue's number has to be.
    pub sides: Sides,
    /// How many customers come to each queue.
    pub ups: State,
    /// How many customers leave each queue.
    pub downs: State,
}

impl Piece {
    ghost use Rattle.psi_event.specs.Piecewise.{empty_piece};

    /// Returns the piece of a network of `queues` queues, 1 to 32, that applies to each state and changes nothing.
    pub fn empty(queues: u8) -> Piece
        requires some { 1 ≤ queues }
        requires few { queues ≤ 32 }
        ensures { result ≡ empty_piece queues }
    {
        let zero = State::zero(queues);
        Piece {
            sides: Sides::any(queues),
            ups: zero,
            downs: zero,
        }
    }
}

/// The pieces of an event: a bound for each queue, and two pieces. Each piece whose sides hold for a state
/// applies to it; what they add and take is summed.
#[derive(Clone, Copy, Debug)]
pub struct Piecewise {
    /// The bound of each queue, in customers.
    pub bounds: State,
    /// A piece.
    pub first: Piece,
    /// Another piece.
    pub second: Piece,
}
