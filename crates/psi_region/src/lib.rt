//! Regions of states: sets of states of a queueing network that are followed through its events.
//!
//! A region begins as the box of all states and is followed by the envelopes of the events (Bušić, Gaujal
//! and Vincent 2008). As soon as it has few states it is split, and its states are followed one by one
//! from then on.
//!
//! `Follower` is the contract that each way to follow a run keeps: it finds the state with which the region of
//! all states ends. `Regions` and `Corners` are two that need nothing but the events.
#![tactic(auto)]

mod corners;
mod course;
mod covering;
mod follower;
mod region;
mod regions;

pub use corners::Corners;
pub use course::Course;
pub use covering::covers_image;
pub use follower::{Follower, one_of};
pub use region::Region;
pub use regions::Regions;

/// An allocation failed: the only way in which a call with this error fails.
pub use std::alloc::AllocError as OutOfMemory;
