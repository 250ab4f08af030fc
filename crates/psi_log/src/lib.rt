//! Logs, the texts that certify samples: a text is read as the one log that it stands for, or refused at
//! the first line that isn't as the grammar has it.
#![tactic(auto)]

mod cursor;
mod ends;
mod log;
mod reader;
mod slot;
mod steps;

pub use cursor::LogCursor;
pub use log::{Form, Log, read_log};
pub use psi_log_format::{BorrowedRegion, Header, LineBuf, Rows};
pub use psi_log_words::{LogCause, LogError};
pub use reader::LogReader;
