//! Rewards that vary though no queue does.

ghost use Rattle.std.specs.Prelude.{◌≡◌};
ghost use Rattle.psi_report_reader.specs.Sound.{is_greatest, varies, if_reward, varying_reward, first_of, first_flaw};

use crate::figure_order::figures_flaw;
use psi_report::{Figure, Item};

// Whether it is the greatest of a queue's or a reward's values.
fn is_greatest(item: Item) -> bool
    ensures { result ≡ is_greatest item }
{
    matches!(item, Item::Greatest | Item::RewardGreatest)
}

// Whether values aren't all the same, of which this is the greatest and the least stands before it.
fn varies(last: &Figure, figure: &Figure) -> bool
    ensures { result ≡ varies last.now figure.now }
{
    is_greatest(figure.item) && last.value != figure.value
}

// The place, where the greatest value there is a reward's.
fn if_reward(item: Item, place: usize) -> Option<usize>
    ensures { result ≡ if_reward item place }
{
    match item {
        Item::RewardGreatest => Some(place),
        _ => None,
    }
}

// The first place of a reward's greatest value that isn't its least, though each queue's is.
fn varying_reward(figures: &[Figure]) -> Option<usize>
    ensures { result ≡ varying_reward figures.now }
{
    for place in 1..figures.len() {
        let (last, figure) = (&figures[place - 1], &figures[place]);
        if varies(last, figure) {
            return if_reward(figure.item, place);
        }
    }
    None
}

// The first of two places, where there are any.
fn first_of(place: Option<usize>, other: Option<usize>) -> Option<usize>
    ensures { result ≡ first_of place other }
{
    match (place, other) {
        (Some(one), Some(two)) => Some(one.min(two)),
        (Some(one), None) => Some(one),
        (None, two) => two,
    }
}

/// The first place of a figure that no report of `met` samples that are met has there; the place after all where
/// figures may not end so.
pub(crate) fn first_flaw(figures: &[Figure], met: u64) -> Option<usize>
    ensures { result ≡ first_flaw met figures.now }
{
    first_of(figures_flaw(figures, met), varying_reward(figures))
}
