//! Horizons that are just long enough, by coupling from the past (Propp and Wilson 1996): the least one of
//! any length whose region run ends with one state, and the first power of two at which a reward has one
//! value, though the state need not be known.
#![tactic(auto)]

mod answers;
mod least;
mod running;
mod value;

pub use answers::{Coupled, Valued};
pub use least::least_horizon;
pub use value::value_horizon;
