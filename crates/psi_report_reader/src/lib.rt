//! Reports of samples, read back from their texts.
//!
//! `read` makes a `Report` of the text of one, a table of comma-separated values (RFC 4180). Reading is strict: what is
//! read has this very text, and the text of each report is read as this report. Names have letters, digits, `_` and `-`
//! alone, so no field is in quotes, and a line is parted by its commas. `flaw_of` judges whether a report may be one of
//! samples, and `merged` makes the report of the samples of two.
#![tactic(auto)]

mod counts;
mod error;
mod figure_order;
mod figures;
mod judging;
mod laws;
mod merging;
mod numbers;
mod reading;
mod rows;
mod values;
mod varying;

pub use error::{MergeError, ReadError};
pub use judging::flaw_of;
pub use laws::{
    merged_are_reports, networks_are_told, other_lines_are_none, queue_reports_are_reached,
    report_is_read, report_is_sound, reports_are_merged, reports_are_short, reports_show_networks,
    rows_stand_on_lines, sums_are_reached, text_is_read, worths_are_reached, wrong_lines_are_none,
};
pub use merging::merged;
pub use reading::read;
