//! The arcs of a decision diagram over the states of a closed network, as bits of words.
//!
//! A state with a fixed number of customers is a walk: it begins at the first queue with no customer before it,
//! and each queue adds its own. So a set of states is told, up to states that mix their arcs, by the arcs of its
//! walks (decision diagrams: Bryant 1986). A move of one customer is made on the arcs alone.
#![tactic(auto)]

mod arcs;
mod ends;
mod filling;
mod joining;
mod marks;
mod reach;
mod spans;
mod sums;
mod windows;

pub use arcs::Arcs;
pub use ends::Arc;
pub use marks::Reach;

/// There was no memory: the only way in which a call with this error fails.
pub use std::alloc::AllocError as OutOfMemory;
