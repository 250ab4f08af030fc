//! A table of comma-separated values in memory, written row by row.

ghost use Rattle.std.specs.Prelude.{◌≡◌, ℕ, List, [], ◌∷◌, ◌++◌, map, OnOk, IfOk};
ghost use Rattle.psi_report.specs.Inner.RecordsKept.{Holds};
ghost use Rattle.psi_report.specs.Text.{row, rows_text, samples_row, number_rows, item_text, figure_row, count_row};

use crate::figure::{Figure, HorizonCount, Item};
use csv::Writer;
use itoa::Buffer;
use psi_net_model::OutOfMemory;
use std::alloc::Global;

/// A table of no row.
#[tactic(auto, unfolding(crate::specs::Text::rows_text))]
pub(crate) fn new_table(alloc: Global) -> Writer<Vec<u8>>
    ensures { Holds result [] }
{
    Writer::from_writer(Vec::new(alloc))
}

/// Writes a row: the item, the name of what it is of, and its value.
#[tactic(auto, using(crate::proofs::HoldingLemmas::holds_more))]
pub(crate) fn push_row(
    table: &mut Writer<Vec<u8>>,
    item: &[u8],
    name: &[u8],
    value: &[u8],
) -> Result<(), OutOfMemory>
    ensures { (rows : List (List (List ℕ))) → Holds table.old rows → OnOk result (Holds table.new (rows ++ row item.now name.now value.now ∷ [])) }
{
    table
        .write_fields(&[item, name, value])
        .map_err(|_error| OutOfMemory)
}

/// The text of the rows.
pub(crate) fn into_text(table: Writer<Vec<u8>>) -> Result<Vec<u8>, OutOfMemory>
    ensures { (rows : List (List (List ℕ))) → Holds table rows → IfOk result (λ text. text.items ≡ rows_text rows) }
{
    match table.into_inner() {
        Ok(text) => Ok(text),
        Err(_) => Err(OutOfMemory),
    }
}

// Writes the row of a number of samples.
fn push_samples(table: &mut Writer<Vec<u8>>, item: &[u8], n: u64) -> Result<(), OutOfMemory>
    ensures { (rows : List (List (List ℕ))) → Holds table.old rows → OnOk result (Holds table.new (rows ++ samples_row item.now n ∷ [])) }
{
    let mut digits = Buffer::new();
    push_row(table, item, b"-", digits.format(n).as_bytes())
}

/// Writes the rows of the numbers of samples, of those that are met and of those that aren't.
#[tactic(auto, unfolding(crate::specs::Text::number_rows))]
pub(crate) fn push_numbers(
    table: &mut Writer<Vec<u8>>,
    samples: u64,
    met: u64,
) -> Result<(), OutOfMemory>
    ensures { (rows : List (List (List ℕ))) → Holds table.old rows → OnOk result (Holds table.new (rows ++ number_rows samples met)) }
{
    push_samples(table, b"samples", samples)?;
    push_samples(table, b"met", met)?;
    push_samples(table, b"uncoupled", samples.saturating_sub(met))
}

// Writes the row of a horizon.
#[tactic(auto, unfolding(crate::specs::Text::horizon_row))]
fn push_horizon(table: &mut Writer<Vec<u8>>, count: &HorizonCount) -> Result<(), OutOfMemory>
    ensures { (rows : List (List (List ℕ))) → Holds table.old rows → OnOk result (Holds table.new (rows ++ count_row count.now ∷ [])) }
{
    let mut horizon_digits = Buffer::new();
    let horizon = horizon_digits.format(count.horizon).as_bytes();
    let mut count_digits = Buffer::new();
    push_row(
        table,
        b"horizon",
        horizon,
        count_digits.format(count.count).as_bytes(),
    )
}

/// Writes the rows of horizons.
pub(crate) fn push_horizons(
    table: &mut Writer<Vec<u8>>,
    counts: &[HorizonCount],
) -> Result<(), OutOfMemory>
    ensures { (rows : List (List (List ℕ))) → Holds table.old rows → OnOk result (Holds table.new (rows ++ map count_row counts.now)) }
{
    for count in counts {
        push_horizon(table, count)?;
    }
    Ok(())
}

// What a row of an item is called.
fn item_text(item: Item) -> &'static [u8]
    ensures { result.now ≡ item_text item }
{
    match item {
        Item::Sum => b"sum".as_slice(),
        Item::Least => b"least".as_slice(),
        Item::Greatest => b"greatest".as_slice(),
        Item::RewardSum => b"reward-sum".as_slice(),
        Item::RewardLeast => b"reward-least".as_slice(),
        Item::RewardGreatest => b"reward-greatest".as_slice(),
    }
}

// Writes the row of a figure.
#[tactic(auto, unfolding(crate::specs::Text::figure_row))]
fn push_figure(table: &mut Writer<Vec<u8>>, figure: &Figure) -> Result<(), OutOfMemory>
    ensures { (rows : List (List (List ℕ))) → Holds table.old rows → OnOk result (Holds table.new (rows ++ figure_row figure.now ∷ [])) }
{
    let mut digits = Buffer::new();
    let value = digits.format(figure.value).as_bytes();
    push_row(table, item_text(figure.item), figure.name.bytes(), value)
}

/// Writes the rows of figures.
pub(crate) fn push_figures(
    table: &mut Writer<Vec<u8>>,
    figures: &[Figure],
) -> Result<(), OutOfMemory>
    ensures { (rows : List (List (List ℕ))) → Holds table.old rows → OnOk result (Holds table.new (rows ++ map figure_row figures.now)) }
{
    for figure in figures {
        push_figure(table, figure)?;
    }
    Ok(())
}
