//! The lines of a log, the text that certifies a sample: their grammar, and a buffer that writes them.
//!
//! A log has the header of its sample, the region at which the run begins, one line for each step with the
//! region after it, and the state at time zero. In version 2 a box that follows a box is written by the
//! queues whose ranges changed.
//!
//! A log is kept in lists of states of one length, whose numbers stand one after another in one vector, and in
//! lists of lines, whose boxes stand in a vector of their own.
#![tactic(auto)]

mod digits;
mod header;
mod line_buf;
mod listed_region;
mod pieces;
mod put;
mod region_list;
mod regions;
mod room;
mod row_list;
mod state_list;

pub use header::{Header, MOST_LOG_BYTES};
pub use line_buf::LineBuf;
pub use listed_region::{BorrowedRegion, ListedRegion};
pub use region_list::RegionList;
pub use row_list::Rows;
pub use state_list::StateList;

/// An allocation failed: the only way in which a call with this error fails.
pub use std::alloc::AllocError as OutOfMemory;
