//! The lines of a log's text, the words of a line, and what words are: numbers, states, boxes and sets; with
//! the refusals of each.
#![tactic(auto)]

mod forms;
mod moves;
mod numbers;
mod refusals;
mod regions;
mod words;

pub use forms::{Given, form_of};
pub use moves::{Change, is_change};
pub use numbers::{number_in, piece_in};
pub use refusals::{LogCause, LogError};
pub use regions::{read_given, read_state};
pub use words::{has_pieces, line_of, read_named, read_version, read_words};
