//! Which figures may stand one after another.

ghost use Rattle.std.specs.Prelude.{◌≡◌, ◌≤◌, true, not, count_by, unsigned_abs};
ghost use Rattle.std.specs.List.{list_all};
ghost use Rattle.psi_report_reader.specs.Sound.{may_follow, may_begin, may_end, same_sum, is_alike, most_of, is_new, are_extremes, agrees_with, agrees, sum_stands, may_stand, figures_flaw};

use crate::figures::{is_alike, is_sum, same_sum};
use crate::values::{allows, extreme_follows};
use psi_report::{Figure, Item};

// Whether an item may follow another, where samples are met or not.
fn may_follow(some: bool, last: Item, item: Item) -> bool
    ensures { result ≡ may_follow some last item }
{
    match (some, last, item) {
        (true, Item::Sum, Item::Least) => true,
        (true, Item::Least, Item::Greatest) => true,
        (true, Item::Greatest, Item::Sum) => true,
        (true, Item::Greatest, Item::RewardSum) => true,
        (true, Item::RewardSum, Item::RewardLeast) => true,
        (true, Item::RewardLeast, Item::RewardGreatest) => true,
        (true, Item::RewardGreatest, Item::RewardSum) => true,
        (false, Item::Sum, Item::Sum) => true,
        (false, Item::Sum, Item::RewardSum) => true,
        (false, Item::RewardSum, Item::RewardSum) => true,
        _ => false,
    }
}

// Whether figures may begin with an item: the sum of a queue.
fn may_begin(item: Item) -> bool
    ensures { result ≡ may_begin item }
{
    matches!(item, Item::Sum)
}

// Whether figures may end with an item, where samples are met or not.
fn may_end(some: bool, item: Item) -> bool
    ensures { result ≡ may_end some item }
{
    matches!(
        (some, item),
        (true, Item::Greatest | Item::RewardGreatest) | (false, Item::Sum | Item::RewardSum)
    )
}

// The most rewards that a network has, or the most queues.
fn most_of(item: Item) -> usize
    ensures { result ≡ most_of item }
{
    match item {
        Item::RewardSum => 64,
        _ => 32,
    }
}

// Whether none of the figures is the sum of the queue or reward that a sum is of.
fn is_unlike(before: &[Figure], sum: &Figure) -> bool
    ensures { result ≡ list_all (λ e. not (is_alike e sum.now)) before.now }
{
    for figure in before {
        if is_alike(figure, sum) {
            return false;
        }
    }
    true
}

// How many of the figures are sums of queues, or of rewards, as a sum is.
fn number_of(before: &[Figure], sum: &Figure) -> usize
    ensures { result ≡ count_by (λ e. same_sum e.item sum.now.item) before.now }
{
    let mut number = 0;
    for figure in before {
        if same_sum(figure.item, sum.item) {
            number += 1;
        }
    }
    number
}

// Whether a sum may come after figures: its queue or reward is another one, and there may be one more.
fn is_new(before: &[Figure], sum: &Figure) -> bool
    ensures { result ≡ is_new before.now sum.now }
{
    is_unlike(before, sum) && number_of(before, sum) < most_of(sum.item)
}

// Whether two figures are the extremes of a sum, and may stand after it.
fn are_extremes(sum: &Figure, least: &Figure, greatest: &Figure) -> bool
    ensures value { result ≡ are_extremes sum.now least.now greatest.now }
    ensures few { result ≡ true → (unsigned_abs least.now.value ≤ 2097120000000000) × (unsigned_abs greatest.now.value ≤ 2097120000000000) }
{
    may_follow(true, sum.item, least.item)
        && may_follow(true, least.item, greatest.item)
        && extreme_follows(sum, least)
        && extreme_follows(least, greatest)
}

// Whether a sum agrees with its extremes, where two figures are these.
fn agrees_with(met: u64, sum: &Figure, least: &Figure, greatest: &Figure) -> bool
    ensures { result ≡ agrees_with met sum.now least.now greatest.now }
{
    if are_extremes(sum, least, greatest) {
        return allows(met, least.value, greatest.value, sum.value);
    }
    true
}

// Whether a sum agrees with the figures after it: it is 0 where no sample is met, and else such as its extremes allow,
// where these may stand there.
fn agrees(met: u64, sum: &Figure, behind: &[Figure]) -> bool
    ensures { result ≡ agrees met sum.now behind.now }
{
    if met == 0 {
        return sum.value == 0;
    }
    match behind {
        [least, greatest, ..] => agrees_with(met, sum, least, greatest),
        _ => true,
    }
}

// Whether a sum may stand after figures and before others.
fn sum_stands(met: u64, before: &[Figure], sum: &Figure, behind: &[Figure]) -> bool
    ensures { result ≡ sum_stands met before.now sum.now behind.now }
{
    is_new(before, sum) && agrees(met, sum, behind)
}

// Whether a figure may stand after others, of which this is the last, and before others.
fn may_stand(met: u64, before: &[Figure], last: &Figure, figure: &Figure, behind: &[Figure]) -> bool
    ensures { result ≡ may_stand met before.now last.now figure.now behind.now }
{
    if !may_follow(0 < met, last.item, figure.item) {
        return false;
    }
    if is_sum(figure.item) {
        sum_stands(met, before, figure, behind)
    } else {
        extreme_follows(last, figure)
    }
}

/// The first place of a figure that may not stand there, where `met` samples are met; the place after all where
/// figures may not end so.
pub(crate) fn figures_flaw(figures: &[Figure], met: u64) -> Option<usize>
    ensures { result ≡ figures_flaw met figures.now }
{
    let [first, behind @ ..] = figures else {
        return Some(0);
    };
    if !may_begin(first.item) || !sum_stands(met, &figures[..0], first, behind) {
        return Some(0);
    }
    for place in 1..figures.len() {
        let (last, figure) = (&figures[place - 1], &figures[place]);
        if !may_stand(met, &figures[..place], last, figure, &figures[place + 1..]) {
            return Some(place);
        }
    }
    if may_end(0 < met, figures[figures.len() - 1].item) {
        None
    } else {
        Some(figures.len())
    }
}
