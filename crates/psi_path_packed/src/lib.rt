//! Paths of networks whose states fit a few words and whose events are of one piece each.
//!
//! A step is one masked addition a word (`psi_follow_packed`). Sums over the states of a path are found at its end from the changes
//! alone: an event that adds a fixed amount to a quantity when it changes a state adds it at all times from the change on. So for each
//! event the number of these times is summed, and no more (summation by parts, Abel 1826).
#![tactic(auto)]

mod by_words;
mod moves;
mod rises;
mod steps;
mod totals;
mod walk;

pub use by_words::ByWords;
pub use walk::PackedWalk;

/// There was no memory: the only way in which a call with this error fails.
pub use std::alloc::AllocError as OutOfMemory;
