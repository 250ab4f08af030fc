//! The lines of a header.

ghost use Rattle.std.specs.Prelude.{◌≡◌, ◌-◌, ◌<◌, ◌≤◌, ◌^◌, codes, IfOk};
ghost use Rattle.psi_log_format.specs.Log.{greatest_horizon};
ghost use Rattle.psi_log_words.specs.Refusal.{Gives};
ghost use Rattle.psi_log_scan.specs.Lines.{named_line, read_header};

use psi_log_format::Header;
use psi_log_words::{LogError, line_of, read_named, read_version, read_words};
use psi_state::MOST_QUEUES;

/// Returns the greatest horizon of a version, which is also the greatest number of a step.
pub fn greatest_horizon(version: u8) -> u32
    ensures value { result ≡ greatest_horizon version }
    ensures few { result ≤ 4194304 }
{
    if version == 1 { 1_048_576 } else { 4_194_304 }
}

// The number from `least` to `most` that a line names, and what follows the line.
#[tactic(auto, unfolding(crate::specs::Lines::named_line), using(crate::proofs::CutLemmas::named_cut))]
fn named_line<'t>(
    line: u32,
    name: &[u8],
    least: u64,
    most: u64,
    text: &'t [u8],
    words: &mut Vec<&'t [u8]>,
) -> Result<(u64, &'t [u8]), LogError>
    ensures value { Gives (λ read. (read.0, read.1.now)) result (named_line line name.now least most text.now) }
    ensures range { IfOk result (λ read. (least ≤ read.0) × (read.0 ≤ most)) }
{
    let rest = read_words(line, text, words)?;
    let number = read_named(line, name, least, most, words)?;
    Ok((number, rest))
}

/// Returns the header at the beginning of a text, and what follows its five lines. The vector holds the words of one
/// line after another.
///
/// # Errors
///
/// The first refusal of one of the five lines; `OutOfMemory`.
#[tactic(auto, unfolding(crate::specs::Lines::read_header))]
pub fn read_header<'t>(
    text: &'t [u8],
    words: &mut Vec<&'t [u8]>,
) -> Result<(Header, &'t [u8]), LogError>
    ensures value { Gives (λ read. (read.0, read.1.now)) result (read_header text.now) }
    ensures some { IfOk result (λ read. 1 ≤ read.0.queues) }
    ensures few { IfOk result (λ read. read.0.queues ≤ 32) }
    ensures horizon { IfOk result (λ read. read.0.horizon ≤ 4194304) }
{
    let (first, rest) = line_of(1, text)?;
    let version = read_version(first)?;
    let (queues, rest) = named_line(2, b"queues", 1, MOST_QUEUES as u64, rest, words)?;
    let (seed, rest) = named_line(3, b"seed", 0, u64::MAX, rest, words)?;
    let (stream, rest) = named_line(4, b"stream", 0, u64::MAX, rest, words)?;
    let most = greatest_horizon(version) as u64;
    let (horizon, rest) = named_line(5, b"horizon", 1, most, rest, words)?;
    let header = Header {
        version,
        queues: queues as u8,
        seed,
        stream,
        horizon: horizon as u32,
    };
    Ok((header, rest))
}
