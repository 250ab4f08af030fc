//! The frame of a program: what is seen of its files and of its two outputs, its reply, how its work ends, and how that
//! is written.
//!
//! A program is a [`Program`], which [`run_program`] runs for the system. Its work is done before the first byte is written, and
//! ends with a status and one text, which [`finish`] writes. `specs/` has the words for what a call is seen to do.
#![tactic(auto)]

mod starting;
mod writing;

pub use starting::{Program, run_program, start};
pub use writing::{Text, finish};
