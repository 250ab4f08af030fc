//! A set of states, kept in one vector of nodes that are linked by index.
//!
//! It is a hash table with chains (Knuth, The Art of Computer Programming, volume 3, section 6.4): a state
//! stands in the bucket of its hash, and the nodes of a bucket are linked. All memory is allocated at the
//! start. The nodes in use are always the first ones, and the free ones are those after them.
#![tactic(auto)]

mod hashing;
mod nodes;
mod pace;
mod pool;
mod state_table;

pub use pace::Pace;
pub use pool::Pool;

/// An allocation failed: the only way in which a call with this error fails.
pub use std::alloc::AllocError as OutOfMemory;
