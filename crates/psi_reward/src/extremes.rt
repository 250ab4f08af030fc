//! The greatest and the least number held, and how many queues are above a level.
//!
//! The loops go from the last queue to the first, since each of these is defined by a first number and the rest.

ghost use Rattle.std.specs.Prelude.{◌≡◌, pos, ◌<◌, length, map, count_by, nat_lt, All};
ghost use Rattle.psi_reward.specs.Held.{held};
ghost use Rattle.psi_reward.specs.Ranges.{least, greatest};

use psi_state::{Queues, State};

// The greatest number held.
pub(crate) fn greatest_held(queues: &Queues, x: &State) -> i64
    requires some { 0 < length queues.now }
    requires listed { All (λ queue. queue < length x.now) queues.now }
    ensures { result ≡ greatest (map pos (held queues.now x.now)) }
{
    let last = queues.len() - 1;
    let mut greatest = x.get(queues.get(last)) as i64;
    for place in (0..last).rev() {
        greatest = (x.get(queues.get(place)) as i64).max(greatest);
    }
    greatest
}

// The least number held.
pub(crate) fn least_held(queues: &Queues, x: &State) -> i64
    requires listed { All (λ queue. queue < length x.now) queues.now }
    requires some { 0 < length queues.now }
    ensures { result ≡ least (map pos (held queues.now x.now)) }
{
    let last = queues.len() - 1;
    let mut least = x.get(queues.get(last)) as i64;
    for place in (0..last).rev() {
        let held = x.get(queues.get(place)) as i64;
        least = held.min(least);
    }
    least
}

// How many queues hold more than the level.
pub(crate) fn count_above(queues: &Queues, level: u16, x: &State) -> i64
    requires { All (λ queue. queue < length x.now) queues.now }
    ensures { result ≡ pos (count_by (λ v. nat_lt level v) (held queues.now x.now)) }
{
    let mut count: u8 = 0;
    for place in (0..queues.len()).rev() {
        if level < x.get(queues.get(place)) {
            count += 1;
        }
    }
    count as i64
}
