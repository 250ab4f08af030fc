//! A queueing network: what it is made of, what a sample runs of it, and networks made from a number.
//!
//! A network is `Net`: named queues with their capacities and servers, named events with their rates and
//! kinds, and rewards. It is made of a `Draft`, what was said of it, whose events are expanded over the
//! servers of their sources beforehand (`expand`). `Net::system` gives what a sample runs. `generated` gives a large
//! valid network for trials, made from a number.
#![tactic(auto)]

mod building;
mod entries;
mod expansion;
mod generating;
mod name;
mod net;

pub use building::{accepted_reward, capacities};
pub use entries::{Draft, NamedEvent, Queue, RewardEntry};
pub use expansion::{
    MOST_INDEX_VALUES, expand, index_values, push_expanded, servers_at, source_of,
};
pub use generating::generated;
pub use name::{Name, name_from, name_of};
pub use net::Net;

/// An allocation failed: the only way in which a call with this error fails.
pub use std::alloc::AllocError as OutOfMemory;
