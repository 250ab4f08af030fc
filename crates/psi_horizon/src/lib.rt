//! Samples of a network by coupling from the past (Propp and Wilson 1996), by regions of states that are
//! followed through the events (Bušić, Gaujal and Vincent 2008). How the runs of a sample are followed is the
//! matter of a `Follower`, which finds the state with which such a region ends.
#![tactic(auto)]

mod plan;
mod runs;
mod trace;

pub use plan::Plan;

/// An allocation failed: the only way in which a call with this error fails.
pub use std::alloc::AllocError as OutOfMemory;
