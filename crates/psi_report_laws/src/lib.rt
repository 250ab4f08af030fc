//! Laws on the reports of the networks that there are, each the contract of a function that does nothing.
//!
//! What is proved of reports, that they are read back, judged right and merged, is proved of samples of a network that
//! a file may describe. Here the networks that files do describe, and those that trials make of numbers, are shown to
//! be such, so that all of it holds of their reports, and so of what the program prints for `report`.
#![tactic(auto)]

mod laws;

pub use laws::{networks_are_described, printed_reports_are_read_back, reports_are_read_back};
