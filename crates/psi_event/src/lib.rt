//! What an event of a queueing network is: a function on states, with its envelope and its mark.
//!
//! `EventLaw` is the contract that each kind of event keeps, and what a sample promises is said by it
//! alone; quicker ways to follow a run ask an event for more, by laws of their own that stand on it.
//! Monotone events are those of Propp and Wilson (1996); the envelopes of events that aren't are those
//! of Bušić, Gaujal and Vincent (2008).
//!
//! `PiecewiseLaw` is the law of events that are homogeneous by pieces: what they add to a state depends only
//! on which side of a few bounds its numbers are (Bušić, Durand, Gaujal and Perronnin 2015, on perfect
//! sampling of piecewise homogeneous events).
#![tactic(auto)]

mod idle;
mod law;
mod piecewise;
mod piecewise_law;
mod sides;

pub use idle::Idle;
pub use law::EventLaw;
pub use piecewise::{Piece, Piecewise};
pub use piecewise_law::PiecewiseLaw;
pub use sides::{Side, Sides};
