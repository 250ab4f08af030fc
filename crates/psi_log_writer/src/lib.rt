//! The writing of the log of a sample, the text that certifies it: the run is done step by step, and each
//! line is written as soon as its step is done, so that no more than a block of the text is held.
#![tactic(auto)]

mod block;
mod laws;
mod steps;
mod writing;

pub use block::{Block, write_piece};
pub use laws::logs_are_accepted;
pub use writing::{log_fits, write_log};

/// An allocation failed: the only way in which a call with this error fails.
pub use std::alloc::AllocError as OutOfMemory;
