//! The kinds of rewards, and why one is refused.

use crate::integers::Numbers;
use crate::rows::Grid;
use psi_state::Queues;

/// What a state is worth, by the numbers of customers that it holds in some queues.
#[derive(Debug, Drop)]
pub enum RewardKind {
    /// The sum of weight times number held, with one weight for each queue.
    Linear {
        /// The queues that count.
        queues: Queues,
        /// Their weights, in the same order, each from -1,000,000,000 to 1,000,000,000.
        weights: Numbers,
    },
    /// The sum of the entries that each queue's row has for the number it holds.
    Table {
        /// The queues that count.
        queues: Queues,
        /// Their rows, in the same order. A row has an entry for each number of customers from 0 to the
        /// queue's capacity, each from -1,000,000,000 to 1,000,000,000.
        table: Grid,
    },
    /// The greatest number held.
    Greatest {
        /// The queues that count.
        queues: Queues,
    },
    /// The least number held.
    Least {
        /// The queues that count.
        queues: Queues,
    },
    /// How many queues hold more than the level.
    Above {
        /// The queues that count.
        queues: Queues,
        /// The level, in customers.
        level: u16,
    },
}

/// Why a reward is refused. Where several causes stand together, `Empty` comes first, then `Repeated`,
/// then `Length`.
#[derive(Clone, Copy, PartialEq, Eq, Debug)]
pub enum RewardRefusal {
    /// Some queue is listed twice.
    Repeated,
    /// The weights or the rows aren't as many as the queues, or a row hasn't one entry more than its
    /// queue has room for customers.
    Length,
    /// No queue is listed.
    Empty,
}
