//! Which event a word picks, and the network that a sample runs.
//!
//! The definitions of coupling from the past stand here too, since each layer above cites them:
//! composition and image (`specs/Composition.antt`), the first horizon among the powers of two
//! (`specs/Doubling.antt`), the least of any length (`specs/Least.antt`), and the outcome
//! (`specs/Outcomes.antt`).
#![tactic(auto)]

mod doubling;
mod event_table;
mod numbers;
mod system;
mod wheel;

pub use doubling::{Answers, first_answer, first_answer_near, outcome_of};
pub use numbers::EventNumbers;
pub use system::System;
pub use wheel::{RateRefusal, Wheel};
