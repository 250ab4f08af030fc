//! Laws of tables of samples, each the contract of a function that does nothing.
//!
//! Tables of adjacent ranges of streams are joined to the table of the joined range, and the report of some samples is the
//! one that the rows of their table give.
#![tactic(auto)]

mod laws;

pub use laws::{reports_are_of_tables, tables_are_joined};
