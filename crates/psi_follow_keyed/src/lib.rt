//! Networks in which customers from outside join the queue with the least key, one at a time, and customers leave queues:
//! the keys of a state's queues are kept beside it, so that an event computes one key again (join the shortest queue and
//! the other index policies).
#![tactic(auto)]

mod board;
mod corners;
mod filling;
mod keyed;
mod marked;
mod step;

pub use corners::KeyedCorners;
pub use keyed::Keyed;
