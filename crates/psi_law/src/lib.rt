//! The law of samples by coupling from the past (Propp and Wilson 1996), by counting: how many lists of words
//! give which state. Each function does nothing: its contract is the law, in whole numbers. How words are
//! drawn is no part of it.
#![tactic(auto)]

mod answers;
mod chain;
mod closed;
mod kept;
mod samples;
mod wheel;

pub use answers::{law_of_couplings, law_of_values};
pub use chain::law_of_chains;
pub use closed::{law_of_closed_network, law_of_closed_samples};
pub use samples::{law_of_network, law_of_samples};
pub use wheel::law_of_wheel;
