//! How many samples have each horizon, over two lists of samples.

ghost use Rattle.std.specs.Prelude.{◌≡◌, ◌<◌, ◌≤◌, true, false, length, slice_index_or, IfOk, MatchBool};
ghost use Rattle.psi_report.specs.declared.figure.HorizonCount.{HorizonCount};
ghost use Rattle.psi_report_reader.specs.Counts.{with_count, place_of, joined_counts};
ghost use Rattle.psi_report_reader.specs.Merging.{counts_fit};

use psi_report::HorizonCount;
use std::alloc::AllocError;

// The place of the first count whose horizon isn't lower.
fn place_of(counts: &[HorizonCount], horizon: u64) -> usize
    ensures value { result ≡ place_of horizon counts.now }
    ensures within { result ≤ length counts.now }
{
    for (place, count) in counts.iter().enumerate() {
        if horizon <= count.horizon {
            return place;
        }
    }
    counts.len()
}

// Whether a count of the horizon stands at the place.
fn is_at(counts: &[HorizonCount], place: usize, horizon: u64) -> bool
    ensures { MatchBool result ((place < length counts.now) × ((d : HorizonCount) → (slice_index_or counts.now place d).horizon ≡ horizon))
        ((d : HorizonCount) → place < length counts.now → (slice_index_or counts.now place d).horizon ≡ horizon → ⊥) }
{
    place < counts.len() && counts[place].horizon == horizon
}

// Adds one more count: to that of its horizon where there is one, else before the first that is higher. It answers
// whether the sum has 64 bits; where it hasn't, the counts stay as they are.
fn add_count(counts: &mut Vec<HorizonCount>, added: &HorizonCount) -> Result<bool, AllocError>
    ensures { IfOk result (λ fits. MatchBool fits (counts.new.items ≡ with_count added.now counts.old.items) (counts_fit (with_count added.now counts.old.items) ≡ false)) }
{
    let place = place_of(counts.as_slice(), added.horizon);
    if is_at(counts.as_slice(), place, added.horizon) {
        let Some(count) = added.count.checked_add(counts[place].count) else {
            return Ok(false);
        };
        counts[place].count = count;
        return Ok(true);
    }
    counts.insert(place, *added)?;
    Ok(true)
}

/// Adds counts to others, and returns whether each sum has 64 bits.
pub(crate) fn join_counts(
    own: &[HorizonCount],
    counts: &mut Vec<HorizonCount>,
) -> Result<bool, AllocError>
    ensures { IfOk result (λ fits. MatchBool fits (counts.new.items ≡ joined_counts own.now counts.old.items) (counts_fit (joined_counts own.now counts.old.items) ≡ false)) }
{
    for place in 0..own.len() {
        if !add_count(counts, &own[own.len() - 1 - place])? {
            return Ok(false);
        }
    }
    Ok(true)
}

// The number of samples.
fn number_of(count: &HorizonCount) -> u64
    ensures { result ≡ count.now.count }
{
    count.count
}

/// Each count has 64 bits, as its type says: called for its clause.
pub(crate) fn have_64_bits(counts: &[HorizonCount])
    ensures { counts_fit counts.now ≡ true }
{
    for count in counts {
        let _number = number_of(count);
    }
}
