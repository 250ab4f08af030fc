//! States packed into a few words of 64 bits, and events of pieces as masks on them: an event tests the bounds of all
//! queues by one addition a word, and changes all queues by another.
//! `PackedCorners` follows the least and the greatest state of a monotone network so.
#![tactic(auto)]

mod bits;
mod boxes;
mod corners;
mod enclosing;
mod filling;
mod layout;
mod moves;
mod pairs;
mod program;
mod unit_events;

pub use corners::PackedCorners;
pub use layout::{Layout, Packed};
pub use moves::{Masks, PackedEvent};
pub use pairs::{PackedPair, Pair};
pub use program::MaskProgram;
pub use unit_events::UnitEvent;
