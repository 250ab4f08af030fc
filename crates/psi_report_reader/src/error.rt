//! Why no report is given.

ghost use Rattle.std.specs.Prelude.{◌≡◌};
ghost use Rattle.psi_report_reader.specs.declared.error.ReadError.TheVariants.{OutOfMemory};

use std::alloc::{AllocError, AllocFailed};

/// Why no report is given.
#[derive(Clone, Copy, PartialEq, Eq, Debug)]
pub enum ReadError {
    /// The text is no report.
    Refused {
        /// The first line that is no row of a report, counted from 1; 0 where each line is a row, but the text isn't
        /// that of the report that the rows make up.
        line: u64,
    },
    /// An allocation failed.
    OutOfMemory,
}

impl From<AllocError> for ReadError {
    ghost from_gives = { λ _ error. error ≡ OutOfMemory };

    fn from(_error: AllocError) -> ReadError {
        ReadError::OutOfMemory
    }
}

impl<T: Drop> From<AllocFailed<T>> for ReadError {
    ghost from_gives = { λ _ error. error ≡ OutOfMemory };

    fn from(_error: AllocFailed<T>) -> ReadError {
        ReadError::OutOfMemory
    }
}

/// Why two reports aren't merged.
#[derive(Clone, Copy, PartialEq, Eq, Debug)]
pub enum MergeError {
    /// They aren't of one network: its queues or its rewards are others.
    OtherNetwork {
        /// The line of the second report, counted from 1, of the first sum that isn't of the queue or the reward of
        /// the first report's sum at its place; the line after the last where a sum is missing.
        line: u64,
    },
    /// A number of the report of both would be greater than a report may have.
    TooLarge {
        /// The line of the second report, counted from 1, of the first number with which that is so: 2 of the samples;
        /// 3 of those that are met, also where those of one horizon would be too many; else that of a figure.
        line: u64,
    },
    /// An allocation failed.
    OutOfMemory,
}

impl From<AllocError> for MergeError {
    ghost use Rattle.psi_report_reader.specs.declared.error.MergeError.TheVariants as merging;

    ghost from_gives = { λ _ error. error ≡ merging.OutOfMemory };

    fn from(_error: AllocError) -> MergeError {
        MergeError::OutOfMemory
    }
}
