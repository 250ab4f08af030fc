//! Reports over many samples of a network: how many are met and where, and the sum, the least and the
//! greatest of each queue's customers and of each reward.
//!
//! A `Report` has the contents of such a report, without its network. Its text is a table of comma-separated values
//! (RFC 4180). A `Tally` makes one: it keeps running totals of the samples that it was given, so its memory
//! doesn't grow with them. Tallies of different samples of one network can be merged, up to 65,536 samples
//! together: the totals are then as if all had been counted in one.
#![tactic(auto)]

mod figure;
mod report;
mod summary;
mod table;
mod tally;
mod text;

pub use figure::{Figure, HorizonCount, Item};
pub use psi_net_model::OutOfMemory;
pub use report::Report;
pub use tally::Tally;
