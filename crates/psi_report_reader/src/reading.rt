//! Reading a report back from its text.

ghost use Rattle.std.specs.Prelude.{◌≡◌, map, IfOk};
ghost use Rattle.std.specs.List.{slice_split};
ghost use Rattle.psi_report_reader.specs.Reading.{blank, is_feed, read_lines, read, Gives};
ghost use Rattle.psi_report.specs.Text.{text_of};

use crate::error::ReadError;
use crate::rows::take_line;
use psi_report::Report;
use std::alloc::{AllocError, Global};

// The lines of a text: two are parted by each line feed.
fn lines_of(alloc: Global, text: &[u8]) -> Result<Vec<&[u8]>, AllocError>
    ensures { IfOk result (λ lines. map (λ line. line.now) lines.items ≡ slice_split is_feed text.now) }
{
    text.split(|byte| *byte == b'\n').collect(alloc)
}

// A report without contents yet.
fn blank(alloc: Global) -> Report
    ensures { result ≡ blank }
{
    Report {
        samples: 0,
        met: 0,
        horizons: Vec::new(alloc),
        figures: Vec::new(alloc),
    }
}

// The contents of lines, one after another.
#[tactic(auto, using(crate::proofs::LineLemmas::lines_end))]
fn read_lines(alloc: Global, lines: &[&[u8]]) -> Result<Report, ReadError>
    ensures { Gives result (read_lines 1 blank (map (λ line. line.now) lines.now)) }
{
    let mut report = blank(alloc);
    for (place, line) in lines.iter().enumerate() {
        if !take_line(alloc, &mut report, line)? {
            return Err(ReadError::Refused {
                line: place as u64 + 1,
            });
        }
    }
    Ok(report)
}

/// Returns the report whose text this is.
///
/// # Errors
///
/// [`ReadError::Refused`] with the first line that isn't a row of a report: three fields between commas, of which the
/// first is one of a report's items and the others are the numbers or the names that a row of it has; or with line 0
/// where each line is such a row, but the rows don't stand in a report's order, a number isn't written as a decimal
/// number is, or the numbers of samples don't add up. [`ReadError::OutOfMemory`] if an allocation fails,
/// for the report or for its text, which is compared with this one.
#[tactic(auto, unfolding(crate::specs::Reading::read))]
pub fn read(alloc: Global, text: &[u8]) -> Result<Report, ReadError>
    ensures reading { Gives result (read text.now) }
    ensures text { IfOk result (λ report. text_of report ≡ text.now) }
{
    let lines = lines_of(alloc, text)?;
    let report = read_lines(alloc, lines.as_slice())?;
    if report.text(alloc)?.as_slice() == text {
        return Ok(report);
    }
    Err(ReadError::Refused { line: 0 })
}
