//! Programs that print a table with one row for each of many streams: of their samples, or of the paths that begin in them.
//!
//! Such a program is a name and its own arguments; [`run`] does the rest. It reads the network, allocates, and then draws and
//! writes the table row by row.
#![tactic(auto)]

mod drawing;
mod naming;
mod program;
mod table;
mod tabling;
mod walking;
mod work;

pub use program::{Asked, run};
