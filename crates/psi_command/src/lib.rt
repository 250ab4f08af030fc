//! What the programs can be asked for: the commands of `psi`, the words that ask for them, and the statuses of the
//! answers; the words of `psi_states`, which ask for a table of samples, and those of `psi_paths`.
#![tactic(auto)]

mod paths;
mod status;
mod table;
mod words;

pub use paths::{Paths, paths_of};
pub use status::Status;
pub use table::{Table, table_of};
pub use words::{Question, Request, command_of};
