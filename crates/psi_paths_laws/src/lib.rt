//! Laws of tables of paths, each the contract of a function that does nothing.
//!
//! Tables of adjacent ranges of streams are joined to the table of the joined range, and the sums of a path of no step are the values
//! of the sample in which it begins. The sums of a row are those that the law of paths counts.
#![tactic(auto)]

mod laws;

pub use laws::{paths_are_counted, paths_are_joined, short_paths_tell_samples};
