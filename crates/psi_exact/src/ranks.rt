//! Tables of ranks: the rank of a state is its place in the list of all states.

ghost use Rattle.std.specs.Prelude.{◌≡◌, ℕ, ◌<◌, ◌≤◌, true, false, List, length, slice_index, MatchOption, IfOk};
ghost use Rattle.psi_state.specs.State.{all_states};
ghost use Rattle.psi_exact.specs.Mapping.{map_of, sends};
ghost use Rattle.psi_exact.specs.Inner.RankTableKept.{table_of, AreRanks};
ghost use Rattle.psi_exact.specs.Distinct.{distinct_count, AreAll, AreMixed};

use crate::images::write_images;
use psi_event::EventLaw;
use std::alloc::{AllocError, Global};

/// How many ranks are compared before it is asked whether all were the same.
pub(crate) const STRETCH: usize = 512;

/// Returns a list of `count` zeros.
pub(crate) fn zeroed(alloc: Global, count: u32) -> Result<Vec<u16>, AllocError>
    ensures { IfOk result (λ ranks. length ranks.items ≡ count) }
{
    let mut ranks = Vec::with_capacity(alloc, count as usize)?;
    for _rank in 0..count {
        ranks.push_reserved(0);
    }
    Ok(ranks)
}

/// Writes its own rank at each place.
pub(crate) fn number(ranks: &mut [u16])
    requires { length ranks.old ≤ 65536 }
    ensures { (r : ℕ) → r < length ranks.new → slice_index ranks.new r ≡ r }
{
    for rank in 0..ranks.len() {
        ranks[rank] = rank as u16;
    }
}

/// Writes the table of a map after an event: each state is sent to where the old table sends what the event makes of it.
pub(crate) fn write_composed<E: EventLaw>(e: &E, ranks: &[u16], next: &mut [u16])
    requires few { length (all_states (E.capacities e.now)) ≤ 65536 }
    requires own { AreRanks (E.capacities e.now) ranks.now }
    requires room { length next.old ≡ length (all_states (E.capacities e.now)) }
    ensures ranks { AreRanks (E.capacities e.now) next.new }
    ensures map { table_of (E.capacities e.now) next.new ≡ map_of (E.capacities e.now) (λ x. sends (table_of (E.capacities e.now) ranks.now) (E.function e.now x)) }
{
    write_images(e, next);
    look_up(ranks, next);
}

/// Writes for each of these ranks the one that a table has for it.
pub(crate) fn look_up_all(table: &[u16], ranks: &[u16], next: &mut [u16])
    requires small { (r : ℕ) → r < length ranks.now → slice_index ranks.now r < length table.now }
    requires room { length next.old ≡ length ranks.now }
    ensures { (r : ℕ) → r < length next.new → slice_index next.new r ≡ slice_index table.now (slice_index ranks.now r) }
{
    next.copy_from_slice(ranks);
    look_up(table, next);
}

/// Puts in the place of each rank the one that a table has for it.
pub(crate) fn look_up(table: &[u16], ranks: &mut [u16])
    requires { (r : ℕ) → r < length ranks.old → slice_index ranks.old r < length table.now }
    ensures { (r : ℕ) → r < length ranks.new → slice_index ranks.new r ≡ slice_index table.now (slice_index ranks.old r) }
{
    for rank in ranks.iter_mut() {
        *rank = table[*rank as usize];
    }
}

/// The number of different ranks, each of which has a place among the marks.
pub(crate) fn count_distinct(ranks: &[u16], marks: &mut [u16]) -> u32
    requires marked { (r : ℕ) → r < length ranks.now → slice_index ranks.now r < length marks.old }
    requires few { length ranks.now ≤ 65536 }
    ensures { result ≡ distinct_count ranks.now }
{
    clear(marks);
    let mut count = 0;
    for place in (0..ranks.len()).rev() {
        let rank = ranks[place] as usize;
        count += 1 - marks[rank] as u32;
        marks[rank] = 1;
    }
    count
}

// Takes all marks away.
fn clear(marks: &mut [u16])
    ensures { (r : ℕ) → r < length marks.new → slice_index marks.new r ≡ 0 }
{
    for place in 0..marks.len() {
        marks[place] = 0;
    }
}

/// The one rank that stands at all places, if it does. Most often the last one shows that it doesn't.
pub(crate) fn common(ranks: &[u16]) -> Option<u16>
    requires { 1 ≤ length ranks.now }
    ensures { MatchOption result (AreMixed ranks.now) (λ rank. AreAll rank ranks.now) }
{
    let first = ranks[0];
    let last = ranks.len() - 1;
    if !are_same(ranks, last, last + 1, first) {
        return None;
    }
    let mut from = 0;
    while from < ranks.len() {
        let end = from + (ranks.len() - from).min(STRETCH);
        if !are_same(ranks, from, end, first) {
            return None;
        }
        from = end;
    }
    Some(first)
}

// Whether this rank stands at each place from `from` on and below `end`. None of them is left out, so that
// many are compared at once.
fn are_same(ranks: &[u16], from: usize, end: usize, rank: u16) -> bool
    requires { end ≤ length ranks.now }
    ensures same { result ≡ true → (k : ℕ) → from ≤ k → k < end → slice_index ranks.now k ≡ rank }
    ensures other { result ≡ false → (k : ℕ) × (k < length ranks.now) × (slice_index ranks.now k ≡ rank → ⊥) }
{
    let mut same = true;
    for place in from..end {
        same &= ranks[place] == rank;
    }
    same
}
