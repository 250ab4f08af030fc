//! The report that a file has.

ghost use Rattle.std.specs.Prelude.{◌≡◌};
ghost use Rattle.psi_merge.specs.Reports.{unread_at, report_in};
ghost use Rattle.psi_merge.specs.Gives.{refused, Gives};

use psi_report::Report;
use psi_report_reader::{ReadError, flaw_of, read};
use std::alloc::Global;

/// The most bytes that a file may have.
pub(crate) const MOST_BYTES: u32 = 1_048_576;

/// Why a file is no report.
#[derive(Clone, Copy, PartialEq, Eq, Debug)]
pub enum ReportCause {
    /// It has more than 1,048,576 bytes.
    TooLong,
    /// The line is no row of a report.
    Row,
    /// Each line is a row, but the text isn't that of the report that the rows make up.
    Text,
    /// The rows aren't those of samples of a network: counts don't add up, horizons don't ascend or aren't powers of
    /// two, a figure is missing, out of its range or of a name that stood before, or a sum isn't one that its extremes
    /// allow.
    Samples,
}

/// Why no report is given.
#[derive(Clone, Copy, PartialEq, Eq, Debug)]
pub(crate) enum ReportError {
    /// The file is no report.
    Refused {
        /// The line, counted from 1; 0 for the text as a whole.
        line: u64,
        /// The cause.
        cause: ReportCause,
    },
    /// Memory ran out.
    OutOfMemory,
}

// A line that is no row, or a text that isn't that of its rows.
fn unread_at(line: u64) -> ReportError
    ensures { result ≡ refused (unread_at line) }
{
    let cause = if line == 0 {
        ReportCause::Text
    } else {
        ReportCause::Row
    };
    ReportError::Refused { line, cause }
}

/// The report that bytes are, at most 1,048,576 of them.
#[tactic(auto, unfolding(crate::specs::Reports::report_in))]
pub(crate) fn report_in(alloc: Global, bytes: &[u8]) -> Result<Report, ReportError>
    ensures { Gives result (report_in bytes.now) }
{
    if bytes.len() > MOST_BYTES as usize {
        return Err(ReportError::Refused {
            line: 0,
            cause: ReportCause::TooLong,
        });
    }
    match read(alloc, bytes) {
        Ok(report) => match flaw_of(&report) {
            Some(line) => Err(ReportError::Refused {
                line,
                cause: ReportCause::Samples,
            }),
            None => Ok(report),
        },
        Err(ReadError::Refused { line }) => Err(unread_at(line)),
        Err(ReadError::OutOfMemory) => Err(ReportError::OutOfMemory),
    }
}
