//! Guarded events: several queues change at once, where each of them holds a number from its least to
//! its most.
//!
//! A negative customer, a fork and a join are guarded events, and so are resets, clears and jumps. Such
//! an event needn't keep the order of states: `monotone` returns exactly whether it does, `upset` shows
//! two states whose order it breaks, and `envelope` gives the tight box around what it makes of a box
//! (Bušić, Gaujal and Vincent 2008).
#![tactic(auto)]

mod envelope;
mod event;
mod guarded;
mod monotonicity;
mod parts;
mod pieces;

pub use guarded::{GuardRefusal, Guarded};
pub use parts::{Part, Parts};
