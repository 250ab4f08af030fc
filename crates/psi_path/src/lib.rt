//! The path of a network from a state on: its states step by step, and sums over them.
//!
//! A path that begins in a sample is stationary from its first step on. Its random words stand past those that samples read, in the
//! same stream: so the sample and the path are one run of the network.
#![tactic(auto)]

mod putting;
mod rewards;
mod running;
mod sample_path;
mod turning;
mod walk;
mod walker;

pub use rewards::Rewards;
pub use sample_path::SamplePath;
pub use walk::Walk;
pub use walker::PathWalker;

/// There was no memory: the only way in which a call with this error fails.
pub use std::alloc::AllocError as OutOfMemory;
