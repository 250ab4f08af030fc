//! The figures of two lists of samples together.

ghost use Rattle.std.specs.Prelude.{◌≡◌, true, false, IfOk, Some, None, MatchOption, MatchResult};
ghost use Rattle.psi_report.specs.Joined.{paired};
ghost use Rattle.psi_report_reader.specs.Sound.{is_sum, same_sum, is_alike};
ghost use Rattle.psi_report_reader.specs.Merging.{sums_of, difference, joined_value, joined_figure, is_value, large_figure};

use psi_report::{Figure, Item};
use std::alloc::{AllocError, Global};

// The magnitude that no figure of a report has: 10^37.
const LIMIT: u128 = 10_000_000_000_000_000_000_000_000_000_000_000_000;

/// Whether it is a sum, with which the figures of a queue or a reward begin.
pub(crate) fn is_sum(item: Item) -> bool
    ensures { result ≡ is_sum item }
{
    matches!(item, Item::Sum | Item::RewardSum)
}

/// The sums among figures, one for each queue and each reward.
pub(crate) fn sums_of(alloc: Global, figures: &[Figure]) -> Result<Vec<Figure>, AllocError>
    ensures { IfOk result (λ sums. sums.items ≡ sums_of figures.now) }
{
    let mut sums = Vec::new(alloc);
    for figure in figures {
        if is_sum(figure.item) {
            sums.push(*figure)?;
        }
    }
    Ok(sums)
}

/// Whether both are sums of a queue, or both of a reward.
pub(crate) fn same_sum(item: Item, other: Item) -> bool
    ensures { result ≡ same_sum item other }
{
    matches!(
        (item, other),
        (Item::Sum, Item::Sum) | (Item::RewardSum, Item::RewardSum)
    )
}

/// Whether two sums are of the same queue or reward.
pub(crate) fn is_alike(sum: &Figure, other: &Figure) -> bool
    ensures { result ≡ is_alike sum.now other.now }
{
    same_sum(sum.item, other.item) && sum.name.bytes() == other.name.bytes()
}

/// The first place at which sums aren't of the same queue or reward, or one is missing.
pub(crate) fn difference(sums: &[Figure], others: &[Figure]) -> Option<usize>
    ensures { result ≡ difference 0 sums.now others.now }
{
    let both = sums.len().min(others.len());
    for place in 0..both {
        if !is_alike(&sums[place], &others[place]) {
            return Some(place);
        }
    }
    if sums.len() == others.len() {
        return None;
    }
    Some(both)
}

// What an item's two values come to together; none where that hasn't 128 bits.
fn joined_value(item: Item, value: i128, other: i128) -> Option<i128>
    ensures { MatchOption result (is_value (joined_value item value other) ≡ false) (λ both. both ≡ joined_value item value other) }
{
    match item {
        Item::Sum | Item::RewardSum => value.checked_add(other),
        Item::Least | Item::RewardLeast => Some(value.min(other)),
        Item::Greatest | Item::RewardGreatest => Some(value.max(other)),
    }
}

// Whether a figure may have the value: its magnitude is less than 10^37.
fn is_value(value: i128) -> bool
    ensures { result ≡ is_value value }
{
    value.unsigned_abs() < LIMIT
}

// What two figures of an item come to together; none where their value is too large.
fn joined_figure(figure: &Figure, other: &Figure) -> Option<Figure>
    ensures { MatchOption result (is_value (joined_value figure.now.item figure.now.value other.now.value) ≡ false)
        (λ both. (both ≡ joined_figure figure.now other.now) × (is_value both.value ≡ true)) }
{
    match joined_value(figure.item, figure.value, other.value) {
        Some(value) if is_value(value) => Some(Figure {
            item: figure.item,
            name: figure.name,
            value,
        }),
        _ => None,
    }
}

/// The figures joined with others, each with the one at its place; or the first place of one whose value is too large.
pub(crate) fn join_figures(figures: Vec<Figure>, others: &[Figure]) -> Result<Vec<Figure>, usize>
    ensures { MatchResult result (λ both. both.items ≡ paired joined_figure figures.items others.now)
        (λ place. large_figure 0 (paired joined_figure figures.items others.now) ≡ Some place) }
{
    let mut both = figures;
    for place in 0..both.len().min(others.len()) {
        match joined_figure(&both[place], &others[place]) {
            Some(figure) => both[place] = figure,
            None => return Err(place),
        }
    }
    Ok(both)
}

/// The first place of a figure whose value is too large.
pub(crate) fn large_figure(figures: &[Figure]) -> Option<usize>
    ensures { result ≡ large_figure 0 figures.now }
{
    for (place, figure) in figures.iter().enumerate() {
        if !is_value(figure.value) {
            return Some(place);
        }
    }
    None
}
