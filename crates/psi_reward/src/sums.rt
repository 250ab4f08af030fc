//! Rewards that are sums over the queues, and their ranges.
//!
//! The loops go from the last queue to the first, since a sum is its first term and the sum of the rest.

ghost use Rattle.std.specs.Prelude.{◌≡◌, ◌+◌, ◌*◌, ◌<◌, ◌≤◌, unsigned_abs, length, map, All};
ghost use Rattle.psi_state.specs.State.{IsBelow};
ghost use Rattle.psi_reward.specs.Held.{held};
ghost use Rattle.psi_reward.specs.Sums.{weighted, entry, added};
ghost use Rattle.psi_reward.specs.Refusing.{IsSmall, ReachRows};
ghost use Rattle.psi_reward.specs.Spans.{IsSpan, IsSpread};

use crate::integers::Numbers;
use crate::rows::Grid;
use psi_state::{Queues, State};

// The sum of weight times number held.
pub(crate) fn weighted_sum(queues: &Queues, weights: &Numbers, x: &State) -> i64
    requires listed { All (λ queue. queue < length x.now) queues.now }
    requires lengths { length weights.now ≡ length queues.now }
    requires small { All IsSmall weights.now }
    ensures { result ≡ added (map weighted weights.now) (held queues.now x.now) }
{
    let mut sum: i64 = 0;
    for place in (0..queues.len()).rev() {
        sum = weighted(weights.get(place as usize), x.get(queues.get(place))) + sum;
    }
    sum
}

// The least and the greatest of these sums over the states between two.
pub(crate) fn weighted_range(
    queues: &Queues,
    weights: &Numbers,
    lo: &State,
    hi: &State,
) -> (i64, i64)
    requires ordered { IsBelow lo.now hi.now }
    requires listed { All (λ queue. queue < length lo.now) queues.now }
    requires lengths { length weights.now ≡ length queues.now }
    requires small { All IsSmall weights.now }
    ensures { IsSpread (added (map weighted weights.now)) (held queues.now lo.now) (held queues.now hi.now) result.0 result.1 }
{
    let (mut least, mut greatest): (i64, i64) = (0, 0);
    for place in (0..queues.len()).rev() {
        let queue = queues.get(place);
        let weight = weights.get(place as usize);
        let (low, high) = weighted_ends(weight, lo.get(queue), hi.get(queue));
        least = low + least;
        greatest = high + greatest;
    }
    (least, greatest)
}

// The least and the greatest of a weight times a number from `low` to `high`: it is that of an end.
fn weighted_ends(weight: i32, low: u16, high: u16) -> (i64, i64)
    requires ordered { low ≤ high }
    requires small { IsSmall weight }
    ensures span { IsSpan (weighted weight) low high result.0 result.1 }
    ensures least_few { unsigned_abs result.0 ≤ 65535000000000 }
    ensures greatest_few { unsigned_abs result.1 ≤ 65535000000000 }
{
    let (first, last) = (weighted(weight, low), weighted(weight, high));
    (first.min(last), first.max(last))
}

// Weight times number.
fn weighted(weight: i32, number: u16) -> i64
    requires { IsSmall weight }
    ensures value { result ≡ weighted weight number }
    ensures few { unsigned_abs result ≤ 65535000000000 }
{
    weight as i64 * number as i64
}

// The sum of the entries that the queues' rows have for the numbers held.
pub(crate) fn table_sum(queues: &Queues, table: &Grid, x: &State) -> i64
    requires listed { All (λ queue. queue < length x.now) queues.now }
    requires lengths { length table.now ≡ length queues.now }
    requires rows { ReachRows queues.now x.now table.now }
    ensures { result ≡ added (map entry table.now) (held queues.now x.now) }
{
    let mut sum: i64 = 0;
    for place in (0..queues.len()).rev() {
        let held = x.get(queues.get(place));
        sum = table.get(place as usize).get(held as usize) as i64 + sum;
    }
    sum
}

// The least and the greatest of these sums over the states between two.
pub(crate) fn table_range(queues: &Queues, table: &Grid, lo: &State, hi: &State) -> (i64, i64)
    requires ordered { IsBelow lo.now hi.now }
    requires listed { All (λ queue. queue < length lo.now) queues.now }
    requires lengths { length table.now ≡ length queues.now }
    requires rows { ReachRows queues.now hi.now table.now }
    ensures { IsSpread (added (map entry table.now)) (held queues.now lo.now) (held queues.now hi.now) result.0 result.1 }
{
    let (mut least, mut greatest): (i64, i64) = (0, 0);
    for place in (0..queues.len()).rev() {
        let row = table.get(place as usize);
        let queue = queues.get(place);
        let (low, high) = row_ends(row, lo.get(queue), hi.get(queue));
        least = low as i64 + least;
        greatest = high as i64 + greatest;
    }
    (least, greatest)
}

// The least and the greatest entry of a row for a number from `low` to `high`.
fn row_ends(row: &Numbers, low: u16, high: u16) -> (i32, i32)
    requires ordered { low ≤ high }
    requires long { high < length row.now }
    ensures span { IsSpan (entry row.now) low high result.0 result.1 }
{
    let mut least = row.get(low as usize);
    let mut greatest = least;
    for number in low..high {
        let next = row.get(number as usize + 1);
        least = least.min(next);
        greatest = greatest.max(next);
    }
    (least, greatest)
}
