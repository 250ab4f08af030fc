//! Moves of one customer from a queue to another.

ghost use Rattle.std.specs.Prelude.{◌≡◌};

use crate::Kind;
use psi_route::Full;

/// A move of one customer from one queue to another.
///
/// Queues are counted from 0. Where queue `from` holds at least `k` customers and queue `to` has room for
/// one more, one customer leaves `from` and joins `to`; otherwise nothing changes.
#[derive(Clone, Copy, PartialEq, Eq, Debug)]
pub struct Move {
    /// The queue that the customer leaves.
    pub from: u8,
    /// The least number of customers at which the queue serves, from 1 to its capacity.
    pub k: u16,
    /// The queue that the customer joins, another one.
    pub to: u8,
}

impl Kind {
    ghost use Rattle.psi_kinds.specs.Moves.{move_of};

    /// Returns the move that an event of this kind is, if it is one.
    ///
    /// The moves are the services that have one queue to go to and whose customers stay where that queue is
    /// full. A join of one queue does the same, but isn't taken for a move here.
    #[tactic(auto, using(crate::proofs::MoveLemmas::one_target, crate::proofs::MoveLemmas::other_targets, crate::proofs::MoveLemmas::lost_targets))]
    pub fn as_move(&self) -> Option<Move>
        ensures { result ≡ move_of self.now }
    {
        match self {
            Kind::Service { from, to, full } if *full == Full::Stay && to.len() == 1 => Some(
                Move {
                    from: from.queue,
                    k: from.k,
                    to: to.get(0),
                },
            ),
            _ => None,
        }
    }
}
