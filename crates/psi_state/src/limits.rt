//! The limits of networks and of their samples.

/// The most queues of a network.
pub const MOST_QUEUES: u32 = 32;

/// The greatest capacity of a queue, in customers.
pub const MOST_CUSTOMERS: u32 = 65_535;

/// The most events of a network.
pub const MOST_EVENTS: u32 = 1_024;

/// The greatest total of the rates of a network's events.
pub const MOST_TOTAL: u32 = 16_777_216;

/// The greatest split number: a region has at most this many states when it becomes a set of them.
pub const MOST_SPLIT: u32 = 4_096;

/// The greatest limit: a sample goes back at most 2 to this power times.
pub const MOST_LIMIT: u32 = 22;
