//! Ways to follow the runs of a network: which of them there are, and which one is taken.
//!
//! A monotone network is followed by its least and its greatest state (Propp and Wilson 1996), any other by
//! regions (Bušić, Gaujal and Vincent 2008), each on packed states where the network's fit. A network in which
//! customers join the queue with the least key is followed by its keys.
#![tactic(auto)]

mod by_words;
mod making;
mod monotone;
mod way;

pub use by_words::ByWords;
pub use making::{plan_of, way_of};
pub use way::{CornersByWords, SetsByWords, Way};
