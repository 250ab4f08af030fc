//! The law of what the program prints, each the contract of a function that does nothing.
//!
//! `psi_law` counts the samples of a network, of all lists of random words. Here the network is the one that the bytes of a file
//! describe, and the samples are those that the program prints: the reply to a command is that of the sample that is counted at the
//! random words of its seed and stream. And the commands that give a state of a network under the random words of one seed and
//! stream give the same state.
#![tactic(auto)]

mod laws;

pub use laws::{printed_samples_are_counted, states_agree};
