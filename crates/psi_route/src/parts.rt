//! What a route is made of, and what makes none.

/// A queue whose server moves customers: it serves where the queue holds at least `k` customers.
#[derive(Clone, Copy, PartialEq, Eq, Debug)]
pub struct Source {
    /// The queue, counted from 0.
    pub queue: u8,
    /// The number of the server, from 1 to the queue's capacity: the `k`-th server works where `k`
    /// customers are there.
    pub k: u16,
}

/// What happens to a served customer who finds no room in any target.
#[derive(Clone, Copy, PartialEq, Eq, Debug)]
pub enum Full {
    /// The customer leaves the network.
    Lost,
    /// The customer stays in the source.
    Stay,
}

/// Why there is no such route.
#[derive(Clone, Copy, PartialEq, Eq, Debug)]
pub enum RouteRefusal {
    /// The source is one of the targets.
    SelfTarget,
    /// A queue stands twice among the targets.
    Repeated,
    /// There are tables, and they aren't one for each target, each with as many values as its target has room for.
    TableLength,
    /// The size is 0, or above the capacity of a target, or 2 and more with a source or without a target.
    SizeRange,
}
