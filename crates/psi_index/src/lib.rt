//! Tables of values with the least and the greatest value of each stretch of places, and with the places at
//! which the values pass a bound.
//!
//! [`IndexTable`] keeps two sparse tables (Bender and Farach-Colton 2000): the least of each stretch whose
//! length is a power of two, of the values and of what each value leaves of the greatest number of 32 bits.
//! Two such stretches that overlap make any stretch, so an answer takes two look-ups, whatever the stretch's
//! length is. The place at which the values pass a bound is found by halving a stretch, with one such answer
//! each time.
#![tactic(auto)]

mod falls;
mod hulls;
mod kept;
mod level;
mod minima;
mod search;
mod table;

pub use table::IndexTable;

/// An allocation failed: the only way in which a call with this error fails.
pub use std::alloc::AllocError as OutOfMemory;
