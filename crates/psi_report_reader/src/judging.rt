//! What the rows of a report keep.

ghost use Rattle.std.specs.Prelude.{◌≡◌, ◌+◌};
ghost use Rattle.psi_report_reader.specs.Sound.{is_horizon, is_above, is_next, horizons_flaw, line_at, flaw_of};

use crate::varying::first_flaw;
use psi_report::{HorizonCount, Report};

// The greatest horizon, in steps: 2^22.
const MOST_STEPS: u64 = 4_194_304;

// Whether it is a horizon of a sample: a power of two, at most 2^22.
fn is_horizon(horizon: u64) -> bool
    ensures { result ≡ is_horizon horizon }
{
    horizon.is_power_of_two() && horizon <= MOST_STEPS
}

// Whether a horizon is above the one before it, where there is one.
fn is_above(last: Option<u64>, horizon: u64) -> bool
    ensures { result ≡ is_above last horizon }
{
    match last {
        Some(before) => before < horizon,
        None => true,
    }
}

// Whether a count may come: its horizon is one and is above the one before, and some of the samples that are left have
// it.
fn is_next(last: Option<u64>, left: u64, count: &HorizonCount) -> bool
    ensures { result ≡ is_next last left count.now }
{
    is_horizon(count.horizon)
        && is_above(last, count.horizon)
        && 0 < count.count
        && count.count <= left
}

// The first place of a count that may not come; the place after all where some of the samples that are met are left.
fn horizons_flaw(counts: &[HorizonCount], met: u64) -> Option<usize>
    ensures { result ≡ horizons_flaw 0 None met counts.now }
{
    let mut last = None;
    let mut left = met;
    for place in 0..counts.len() {
        let count = &counts[place];
        if !is_next(last, left, count) {
            return Some(place);
        }
        last = Some(count.horizon);
        left -= count.count;
    }
    if left == 0 { None } else { Some(counts.len()) }
}

/// A line, which stands still at the greatest number of 64 bits.
pub(crate) fn line_at(first: u64, place: usize) -> u64
    ensures { result ≡ line_at (first + place) }
{
    first.saturating_add(place as u64)
}

/// Returns the first line, counted from 1, that no report of samples has there; none where there is no such line.
///
/// It is line 3 where more samples are met than there are; else that of the first horizon that isn't a power of two of
/// at most 2^22, that isn't above the one before it, that no sample has, or that more samples have than are left of
/// those that are met, or the line after the horizons where some are left; else that of the first figure that may not
/// stand there, or the line after the last where figures are missing. The figures are, of 1 to 32 queues and then of at
/// most 64 rewards, the sum, and where samples are met the least and the greatest value of the same name. A sum may not
/// stand there where a queue, or a reward, before it has its name; where no sample is met and it isn't 0; or where a
/// least and a greatest value that may stand there follow, and it isn't the sum of as many values with these as samples
/// are met. Such a sum is at least that of one greatest value and else least ones, and at most that of one least value
/// and else greatest ones. The least and the greatest of a queue are 0 to 65,535, those of a reward have a magnitude of
/// at most 2,097,120,000,000,000, and the greatest isn't below the least. Where each queue's greatest is its least, the
/// samples that are met are one state, and the first reward's greatest may not stand there that isn't its least.
pub fn flaw_of(report: &Report) -> Option<u64>
    ensures { result ≡ flaw_of report.now }
{
    if report.samples < report.met {
        return Some(3);
    }
    if let Some(place) = horizons_flaw(report.horizons.as_slice(), report.met) {
        return Some(line_at(5, place));
    }
    let first = line_at(5, report.horizons.len());
    match first_flaw(report.figures.as_slice(), report.met) {
        Some(place) => Some(line_at(first, place)),
        None => None,
    }
}
