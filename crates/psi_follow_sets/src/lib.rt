//! Sets of packed states that are moved by events of pieces, two states by one operation.
//! `PackedSets` follows the runs of any network so, boxes of many states by their packed corners.
#![tactic(auto)]

mod boxes;
mod gathering;
mod lists;
mod moving;
mod packed_set;
mod sets;

pub use packed_set::PackedSet;
pub use sets::PackedSets;
