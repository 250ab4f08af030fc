//! Rewards: a number for each state of a network, and its least and greatest value over a box of states.
//!
//! A reward is a function on the states of a Markov chain (Howard 1971); here it is one of five kinds.
//! `RewardLaw` is the contract of a reward, and `Reward` the one type that keeps it.
#![tactic(auto)]

mod checks;
mod extremes;
mod integers;
mod kinds;
mod law;
mod reward;
mod rows;
mod sums;

pub use integers::Numbers;
pub use kinds::{RewardKind, RewardRefusal};
pub use law::RewardLaw;
pub use reward::Reward;
pub use rows::Grid;

/// An allocation failed: the only way in which a call with this error fails.
pub use std::alloc::AllocError as OutOfMemory;
