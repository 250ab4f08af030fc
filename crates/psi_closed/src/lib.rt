//! Samples of a closed network, in which a fixed number of customers moves from queue to queue, by coupling from the
//! past (Propp and Wilson 1996).
//!
//! A set of states with as many customers is followed as the arcs of its states, one for each queue: a decision
//! diagram (Bryant 1986). It holds each state whose arcs it has, the states that it was made of among them. No call
//! lists states.
#![tactic(auto)]

mod arcs;
mod diagram;
mod plan;
mod runs;
mod walking;

pub use diagram::Diagram;
pub use plan::ClosedPlan;

/// There was no memory: the only way in which a call with this error fails.
pub use std::alloc::AllocError as OutOfMemory;
