//! The lines of a log's text: those of its header, and those of steps, read in one pass over their bytes where
//! all of it is as it has to be; where it isn't, nothing is said, and a line is read word by word.
#![tactic(auto)]

mod head;
mod header;
mod like;
mod move_line;
mod rows;
mod runs;
mod same;
mod scan;
mod set_line;

pub use head::{has_name, step_at};
pub use header::{greatest_horizon, read_header};
pub use like::read_like_set;
pub use move_line::{read_changes, read_changes_onto};
pub use scan::{has_byte, has_word};
pub use set_line::{LastSet, read_new_set};
