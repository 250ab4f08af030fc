//! Where the files that the program reads come from, and where the texts that it writes go to.
//!
//! A [`Shelf`] gives the bytes of a name, whole or piece by piece to a [`Consumer`]; a [`Sink`] takes
//! bytes. Shelves and sinks count their faults, so that a caller can say of every refusal that it came
//! from outside. Each records, for clauses only, which bytes crossed it: a shelf those that its reads
//! answered, a sink those that were accepted. [`MemoryShelf`] and
//! [`MemorySink`] keep everything in memory and fail where they were set to; [`DiskShelf`] and
//! [`StdSink`] are thin adapters to the files and the output of the system.
#![tactic(auto)]

mod consumer;
mod disk_shelf;
mod history;
mod memory_file;
mod memory_shelf;
mod memory_sink;
mod noted;
mod shelf;
mod sink;
mod std_sink;
#[cfg(test)]
mod tests;

pub use consumer::Consumer;
pub use disk_shelf::DiskShelf;
pub use memory_shelf::MemoryShelf;
pub use memory_sink::MemorySink;
pub use noted::Noted;
pub use shelf::{Shelf, ShelfFault};
pub use sink::{Sink, SinkFault, write_all};
pub use std_sink::StdSink;

/// An allocation failed: the only way in which a call with this error fails.
pub use std::alloc::AllocError as OutOfMemory;
