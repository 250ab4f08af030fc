//! The report of two lists of samples of one network, from the report of each.

ghost use Rattle.std.specs.Prelude.{◌≡◌, Some, None, IfOk, MatchResult};
ghost use Rattle.psi_report_reader.specs.Merging.{sums_of, difference, line_of_sum, joined_figures, joined, large_figure, fitting, merged, Merges};

use crate::counts::{have_64_bits, join_counts};
use crate::error::MergeError;
use crate::figures::{difference, join_figures, large_figure, sums_of};
use crate::judging::line_at;
use psi_report::{Figure, Report};
use std::alloc::{AllocError, Global};

// The first place at which the sums of two reports aren't of the same queue or reward.
fn difference_of(
    alloc: Global,
    report: &Report,
    other: &Report,
) -> Result<Option<usize>, AllocError>
    ensures { IfOk result (λ place. place ≡ difference 0 (sums_of report.now.figures) (sums_of other.now.figures)) }
{
    let sums = sums_of(alloc, report.figures.as_slice())?;
    let others = sums_of(alloc, other.figures.as_slice())?;
    Ok(difference(sums.as_slice(), others.as_slice()))
}

// The line of a report's sum at a place.
fn line_of_sum(report: &Report, place: usize) -> u64
    ensures { result ≡ line_of_sum report.now place }
{
    let first = (report.horizons.len() as u64).saturating_add(5);
    if report.met == 0 {
        return first.saturating_add(place as u64);
    }
    first.saturating_add((place as u64).saturating_mul(3))
}

// The figures of both reports, those of one alone where no sample of the other is met; or the first place of one whose
// value is too large.
fn joined_figures(
    met: u64,
    others: u64,
    figures: Vec<Figure>,
    other: Vec<Figure>,
) -> Result<Vec<Figure>, usize>
    ensures { MatchResult result (λ both. (both.items ≡ joined_figures met others figures.items other.items) × (large_figure 0 both.items ≡ None))
        (λ place. large_figure 0 (joined_figures met others figures.items other.items) ≡ Some place) }
{
    let both = if met == 0 {
        other
    } else if others == 0 {
        figures
    } else {
        join_figures(figures, other.as_slice())?
    };
    match large_figure(both.as_slice()) {
        Some(place) => Err(place),
        None => Ok(both),
    }
}

// The report of both, where its numbers fit.
fn joined(report: Report, other: Report) -> Result<Report, MergeError>
    ensures { Merges result (fitting other (joined report other)) }
{
    let Report {
        samples,
        met,
        horizons,
        figures,
    } = report;
    let Some(all) = samples.checked_add(other.samples) else {
        return Err(MergeError::TooLarge { line: 2 });
    };
    let Some(both_met) = met.checked_add(other.met) else {
        return Err(MergeError::TooLarge { line: 3 });
    };
    let first = line_at(5, other.horizons.len());
    let mut counts = other.horizons;
    if !join_counts(horizons.as_slice(), &mut counts)? {
        return Err(MergeError::TooLarge { line: 3 });
    }
    have_64_bits(counts.as_slice());
    match joined_figures(met, other.met, figures, other.figures) {
        Ok(both_figures) => Ok(Report {
            samples: all,
            met: both_met,
            horizons: counts,
            figures: both_figures,
        }),
        Err(place) => Err(MergeError::TooLarge {
            line: line_at(first, place),
        }),
    }
}

/// Returns the report of the samples of a report and of those of another, of the same network.
///
/// # Errors
///
/// [`MergeError::OtherNetwork`] where the queues and rewards of the other report aren't those of the first: the
/// sums with which their figures begin differ in a name, in their number, or in whether they are of a queue or of a
/// reward. [`MergeError::TooLarge`] where the report of both would have a count of 2^64 or more, or a sum whose
/// magnitude is 10^37 or more. [`MergeError::OutOfMemory`] if an allocation fails.
pub fn merged(alloc: Global, report: Report, other: Report) -> Result<Report, MergeError>
    ensures { Merges result (merged report other) }
{
    if let Some(place) = difference_of(alloc, &report, &other)? {
        return Err(MergeError::OtherNetwork {
            line: line_of_sum(&other, place),
        });
    }
    joined(report, other)
}
