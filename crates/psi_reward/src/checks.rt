//! Whether the rows of a reward fit its queues.
//!
//! The loop goes from the last queue to the first, since rows fit where the first one and the rest do.

ghost use Rattle.std.specs.Prelude.{◌≡◌, ◌<◌, length, All};
ghost use Rattle.psi_reward.specs.Held.{held};
ghost use Rattle.psi_reward.specs.Refusing.{has_rows};

use crate::rows::Grid;
use psi_state::{Queues, State};

// Whether each queue has a row, with a number for 0 customers up to its capacity.
pub(crate) fn has_rows(caps: &State, queues: &Queues, table: &Grid) -> bool
    requires { All (λ queue. queue < length caps.now) queues.now }
    ensures { result ≡ has_rows (held queues.now caps.now) table.now }
{
    if table.len() != queues.len() as usize {
        return false;
    }
    for place in (0..queues.len()).rev() {
        let cap = caps.get(queues.get(place)) as usize;
        if table.get(place as usize).len() != cap + 1 {
            return false;
        }
    }
    true
}
