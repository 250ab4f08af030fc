//! The whole program as one call: from its words, over a shelf of files and two sinks, to its status.
//!
//! `run` reads the network file that the words name, and prints its description, a sample of it, a report
//! over many samples, the least horizon at which it couples, the value of a reward, how the composed map of
//! all states shrinks, or a sample of a closed network, by coupling from the past (Propp and Wilson 1996); it
//! writes the log of a sample, which certifies its state, and checks logs. The words and the statuses are
//! those of `psi_command`, the texts those of `psi_reply`, and what each command replies about a network is that
//! of `psi_reply`. What `run` answers is defined in `specs/Reply.antt`, what a printed text means in
//! `specs/Means.antt`, and what a call is seen to do in `specs/Call.antt`.
#![tactic(auto)]

mod commands;
mod files;
mod laws;
mod program;
mod writing;

pub use files::network_at;
pub use laws::samples_are_right;
pub use program::run;
pub use psi_command::Status;
