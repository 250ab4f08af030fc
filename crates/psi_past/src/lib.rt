//! The random words that a sampler reads, one for each place.
//!
//! Coupling from the past (Propp and Wilson 1996) runs a network from further and further back,
//! and has to meet the same random word at the same time on each run. A [`Past`] is that fixed
//! choice: one word of 32 bits for each place, where the event of time -t is drawn from the word
//! at place t - 1. [`SeedPast`] has the words of a seed and a stream, [`ListPast`] those of a list,
//! [`Windowed`] those of another past, for who reads them backwards, and [`Kept`] those of another past
//! that were drawn, so that a longer run meets them again.
#![tactic(auto)]

#[cfg(test)]
mod counting;
mod drawing;
mod kept;
mod list;
mod past;
mod seed;
mod windowed;

pub use kept::Kept;
pub use list::ListPast;
pub use past::Past;
pub use seed::SeedPast;
pub use windowed::Windowed;

/// An allocation failed: the only way in which a call with this error fails.
pub use std::alloc::AllocError as OutOfMemory;
