//! Which values the figures of a queue or a reward may have.

ghost use Rattle.std.specs.Prelude.{◌≡◌, ◌≤◌, true, unsigned_abs};
ghost use Rattle.psi_report_reader.specs.Sound.{is_customers, is_reward_value, is_extreme, is_ordered, extreme_follows, all_but_one, allows};

use psi_report::{Figure, Item};
use psi_state::MOST_CUSTOMERS;

// The greatest magnitude of a reward's value: 32 queues times 65,535 customers times a weight of 10^9.
const MOST_REWARD_VALUE: u128 = 2_097_120_000_000_000;

// Whether it is a number of customers.
fn is_customers(value: i128) -> bool
    ensures { result ≡ is_customers value }
{
    0 <= value && value <= MOST_CUSTOMERS as i128
}

// Whether it is what a reward may make of a state.
fn is_reward_value(value: i128) -> bool
    ensures { result ≡ is_reward_value value }
{
    value.unsigned_abs() <= MOST_REWARD_VALUE
}

// Whether it is a value that the least or the greatest may have; a sum is neither.
fn is_extreme(item: Item, value: i128) -> bool
    ensures value { result ≡ is_extreme item value }
    ensures few { result ≡ true → unsigned_abs value ≤ 2097120000000000 }
{
    match item {
        Item::Least | Item::Greatest => is_customers(value),
        Item::RewardLeast | Item::RewardGreatest => is_reward_value(value),
        _ => false,
    }
}

// Whether the greatest value isn't below the least, which stands before it.
fn is_ordered(item: Item, last: i128, value: i128) -> bool
    ensures { result ≡ is_ordered item last value }
{
    match item {
        Item::Greatest | Item::RewardGreatest => last <= value,
        _ => true,
    }
}

/// Whether an extreme may follow a figure: it is of the same queue or reward, in its range, and not below the least
/// where it is the greatest.
pub(crate) fn extreme_follows(last: &Figure, figure: &Figure) -> bool
    ensures value { result ≡ extreme_follows last.now figure.now }
    ensures few { result ≡ true → unsigned_abs figure.now.value ≤ 2097120000000000 }
{
    last.name.bytes() == figure.name.bytes()
        && is_extreme(figure.item, figure.value)
        && is_ordered(figure.item, last.value, figure.value)
}

// The sum of `met` values, all of which but the last are `value`.
fn all_but_one(met: u64, value: i128, last: i128) -> i128
    requires value { unsigned_abs value ≤ 2097120000000000 }
    requires last { unsigned_abs last ≤ 2097120000000000 }
    ensures { result ≡ all_but_one met value last }
{
    met.saturating_sub(1) as i128 * value + last
}

/// Whether `met` values with this least and greatest may have the sum.
pub(crate) fn allows(met: u64, low: i128, high: i128, sum: i128) -> bool
    requires low { unsigned_abs low ≤ 2097120000000000 }
    requires high { unsigned_abs high ≤ 2097120000000000 }
    ensures { result ≡ allows met low high sum }
{
    all_but_one(met, low, high) <= sum && sum <= all_but_one(met, high, low)
}
