//! The law of paths that begin in samples, by counting the random words of both. Each function does nothing: its contract is the
//! law, in whole numbers. How words are drawn is no part of it.
#![tactic(auto)]

mod closed;
mod kept;
mod paths;

pub use closed::law_of_closed_network_paths;
pub use paths::{law_of_network_paths, law_of_paths};
