//! Paths of small networks, walked by a table of what each event makes of each state.
//!
//! A state is numbered by its rank: its numbers of customers are the digits of the rank in a mixed radix (Knuth, The Art of Computer
//! Programming, volume 2, section 4.1). A step looks up the next rank, and counts the pair of the event and the state. The sums over
//! a path are those of values times counts.
#![tactic(auto)]

mod filling;
mod table_walk;
mod visits;

pub use table_walk::TableWalk;

/// There was no memory: the only way in which a call with this error fails.
pub use std::alloc::AllocError as OutOfMemory;
