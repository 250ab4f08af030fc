//! What the rows of a report say.

ghost use Rattle.std.specs.Prelude.{◌≡◌, Some, None, true, false, map, IfOk};
ghost use Rattle.std.specs.List.{slice_split};
ghost use Rattle.psi_report_reader.specs.Reading.{is_comma, item_of, name_in, with_horizon, with_figure, with_fields, with_row, Took};

use crate::numbers::{count_in, integer_of};
use psi_net_model::{Name, OutOfMemory, name_of};
use psi_report::{Figure, HorizonCount, Item, Report};
use std::alloc::{AllocError, Global};

// The item of a figure's row.
#[tactic(auto, unfolding(crate::specs::Reading::item_of))]
fn item_of(word: &[u8]) -> Option<Item>
    ensures { result ≡ item_of word.now }
{
    if word == b"sum".as_slice() {
        return Some(Item::Sum);
    }
    if word == b"least".as_slice() {
        return Some(Item::Least);
    }
    if word == b"greatest".as_slice() {
        return Some(Item::Greatest);
    }
    if word == b"reward-sum".as_slice() {
        return Some(Item::RewardSum);
    }
    if word == b"reward-least".as_slice() {
        return Some(Item::RewardLeast);
    }
    if word == b"reward-greatest".as_slice() {
        return Some(Item::RewardGreatest);
    }
    None
}

// The name that a field is.
fn name_in(word: &[u8]) -> Option<Name>
    ensures { result ≡ name_in word.now }
{
    match std::str::from_utf8(word) {
        Ok(text) => name_of(text),
        Err(_) => None,
    }
}

// Takes a number of samples, where it is one.
fn take_count(field: &mut u64, count: Option<u64>) -> bool
    ensures taken { result ≡ true → count ≡ Some field.new }
    ensures none { result ≡ false → count ≡ None }
{
    match count {
        Some(n) => {
            *field = n;
            true
        }
        None => false,
    }
}

// Takes how many samples have a horizon, where both are numbers.
fn take_horizon(
    report: &mut Report,
    horizon: Option<u64>,
    count: Option<u64>,
) -> Result<bool, OutOfMemory>
    ensures { IfOk result (λ taken. Took taken report.new (with_horizon report.old horizon count)) }
{
    match (horizon, count) {
        (Some(horizon), Some(count)) => {
            report.horizons.push(HorizonCount { horizon, count })?;
            Ok(true)
        }
        _ => Ok(false),
    }
}

// Takes a figure, where it is one.
fn take_figure(
    report: &mut Report,
    item: Option<Item>,
    name: Option<Name>,
    value: Option<i128>,
) -> Result<bool, OutOfMemory>
    ensures { IfOk result (λ taken. Took taken report.new (with_figure report.old item name value)) }
{
    match (item, name, value) {
        (Some(item), Some(name), Some(value)) => {
            report.figures.push(Figure { item, name, value })?;
            Ok(true)
        }
        _ => Ok(false),
    }
}

// Adds the contents of a row to the report; whether it is one.
#[tactic(auto, unfolding(crate::specs::Reading::with_fields))]
fn take_fields(
    report: &mut Report,
    item: &[u8],
    name: &[u8],
    value: &[u8],
) -> Result<bool, OutOfMemory>
    ensures { IfOk result (λ taken. Took taken report.new (with_fields report.old item.now name.now value.now)) }
{
    if item == b"item".as_slice() {
        return Ok(true);
    }
    if item == b"samples".as_slice() {
        return Ok(take_count(&mut report.samples, count_in(value)));
    }
    if item == b"met".as_slice() {
        return Ok(take_count(&mut report.met, count_in(value)));
    }
    if item == b"uncoupled".as_slice() {
        return Ok(true);
    }
    if item == b"horizon".as_slice() {
        return take_horizon(report, count_in(name), count_in(value));
    }
    take_figure(report, item_of(item), name_in(name), integer_of(value))
}

// The fields of a line: two are parted by each comma.
fn fields_of(alloc: Global, line: &[u8]) -> Result<Vec<&[u8]>, AllocError>
    ensures { IfOk result (λ fields. map (λ field. field.now) fields.items ≡ slice_split is_comma line.now) }
{
    line.split(|byte| *byte == b',').collect(alloc)
}

// Adds the contents of the fields of a line; whether they are a row's, or nothing after the last line feed.
#[tactic(auto, unfolding(crate::specs::Reading::with_row))]
fn take_row(report: &mut Report, fields: &[&[u8]]) -> Result<bool, OutOfMemory>
    ensures { IfOk result (λ taken. Took taken report.new (with_row report.old (map (λ field. field.now) fields.now))) }
{
    match fields {
        [item, name, value] => take_fields(report, item, name, value),
        [only] => Ok(only.is_empty()),
        _ => Ok(false),
    }
}

/// Adds the contents of a line; whether it is a row of a report, or nothing after the last line feed.
///
/// # Errors
///
/// [`OutOfMemory`] if an allocation fails.
pub(crate) fn take_line(
    alloc: Global,
    report: &mut Report,
    line: &[u8],
) -> Result<bool, OutOfMemory>
    ensures { IfOk result (λ taken. Took taken report.new (with_row report.old (slice_split is_comma line.now))) }
{
    let fields = fields_of(alloc, line)?;
    take_row(report, fields.as_slice())
}
