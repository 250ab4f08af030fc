//! States of a queueing network, boxes of states between two corners, and the lists of both.
//!
//! A state says how many customers each queue holds. States are compared componentwise by `State::leq`
//! and lexicographically by `Ord`; a box is the set of the states between two corners, in the
//! componentwise order (Propp and Wilson 1996; Bušić, Gaujal and Vincent 2008 for boxes of states).
#![tactic(auto)]

mod bounds;
mod limits;
mod outcome;
mod queues;
mod state;
mod states;

pub use bounds::Bounds;
pub use limits::{MOST_CUSTOMERS, MOST_EVENTS, MOST_LIMIT, MOST_QUEUES, MOST_SPLIT, MOST_TOTAL};
pub use outcome::{Outcome, Step};
pub use queues::Queues;
pub use state::State;
pub use states::States;
