//! The text of a report.

ghost use Rattle.std.specs.Prelude.{◌≡◌, IfOk};
ghost use Rattle.psi_report.specs.Text.{text_of};

use crate::report::Report;
use crate::table::{into_text, new_table, push_figures, push_horizons, push_numbers, push_row};
use psi_net_model::OutOfMemory;
use std::alloc::Global;

impl Report {
    /// Returns the report as comma-separated values (RFC 4180): rows of three fields, each ended by one line feed. A
    /// name has letters, digits, `_` and `-` alone, so that no field is in quotes.
    ///
    /// The rows are, in this order: `item,name,value`; `samples,-,N`, `met,-,N` and `uncoupled,-,N`, the numbers
    /// of samples, of those that are met and of those that aren't; for each horizon `horizon,T,N`, how many samples
    /// have it; and for each figure its item, its name and how much it is: `sum`, `least` and `greatest` of a queue,
    /// `reward-sum`, `reward-least` and `reward-greatest` of a reward.
    ///
    /// # Errors
    ///
    /// [`OutOfMemory`] if an allocation fails.
    pub fn text(&self, alloc: Global) -> Result<Vec<u8>, OutOfMemory>
        ensures { IfOk result (λ text. text.items ≡ text_of self.now) }
    {
        let mut table = new_table(alloc);
        push_row(&mut table, b"item", b"name", b"value")?;
        push_numbers(&mut table, self.samples, self.met)?;
        push_horizons(&mut table, self.horizons.as_slice())?;
        push_figures(&mut table, self.figures.as_slice())?;
        into_text(table)
    }
}
