//! The composed map of all states of a small network, as a table: coupling from the past (Propp and
//! Wilson 1996) followed exactly, state by state, so that what boxes of states lose can be measured.
#![tactic(auto)]

mod alike;
mod answers;
mod following;
mod images;
mod learned;
mod map_table;
mod rank_table;
mod ranks;
mod sizes;
mod spread;

pub use answers::{Meeting, Survey};
pub use following::survey;
pub use map_table::{MOST_STATES, MapRefusal, MapTable};
pub use sizes::Sizes;
