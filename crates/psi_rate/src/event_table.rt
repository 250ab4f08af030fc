//! The table of a wheel: the events of stretches of numbers.

ghost use Rattle.std.specs.Prelude.{◌≡◌, ℕ, ◌+◌, ◌-◌, ◌*◌, ◌%◌, ◌^◌, ◌<◌, ◌≤◌, ◌++◌, length, replicate, slice_index, vec_capacity, IfOk, EachIndex};
ghost use Rattle.std.specs.Int.{IsPowerOfTwo};
ghost use Rattle.psi_rate.specs.Inner.EventTableKept.{AreFirstAbove, AreMultiples, IsFirstAbove, IsEventTable};

use std::alloc::{AllocError, Global};

// The exponent of the greatest number of entries, 4,096.
const MOST_ENTRIES: u32 = 12;

// The numbers below a power of two, cut into stretches of 2 to the power `shift` numbers: each entry is the event of
// the first number of a stretch. In an exact table all numbers of a stretch have the same event.
#[derive(Drop, Debug)]
pub(crate) struct EventTable {
    entries: Vec<u16>,
    last: u32,
    shift: u32,
    exact: bool,
}

impl EventTable {
    // The table of these running totals over the numbers below the modulus: with the longest stretches that are exact,
    // or, where these would be more than 4,096, with 4,096.
    pub(crate) fn new(alloc: Global, totals: &[u32], modulus: u32) -> Result<EventTable, AllocError>
        requires few { length totals.now ≤ 1024 }
        requires power { IsPowerOfTwo modulus }
        requires bounded { modulus ≤ 2 ^ 31 }
        requires within { EachIndex totals.now (λ k. slice_index totals.now k ≤ modulus) }
        ensures table { IfOk result (λ table. IsEventTable totals.now modulus table.entries.items table.last table.shift table.exact) }
    {
        let common = common_zeros(totals, modulus);
        let least = modulus.trailing_zeros().saturating_sub(MOST_ENTRIES);
        let shift = common.max(least);
        let count = modulus >> shift;
        Ok(EventTable {
            entries: entries(alloc, totals, count as usize, shift)?,
            last: count - 1,
            shift,
            exact: shift == common,
        })
    }

    // The event of a word: the place of the first running total above its number, or the count of the totals where
    // there is none.
    #[inline]
    pub(crate) fn event(&self, totals: &[u32], modulus: u32, word: u32) -> u16
        requires few { length totals.now ≤ 1024 }
        requires table { IsEventTable totals.now modulus self.now.entries.items self.now.last self.now.shift self.now.exact }
        ensures { IsFirstAbove totals.now (word % modulus) result }
    {
        let entry = self.entries[(word >> self.shift & self.last) as usize];
        if self.exact {
            entry
        } else {
            first_above(totals, entry, word & (modulus - 1))
        }
    }
}

// The place of the first running total above a number, where those before `from` are not; their count where there is
// none.
fn first_above(totals: &[u32], from: u16, number: u32) -> u16
    requires few { length totals.now ≤ 1024 }
    requires place { from ≤ length totals.now }
    requires below { (k : ℕ) → k < from → slice_index totals.now k ≤ number }
    ensures { IsFirstAbove totals.now number result }
{
    for event in from as usize..totals.len() {
        if number < totals[event] {
            return event as u16;
        }
    }
    totals.len() as u16
}

// How many low zero bits the modulus and all totals have in common.
fn common_zeros(totals: &[u32], modulus: u32) -> u32
    requires { 1 ≤ modulus }
    ensures bits { result < 32 }
    ensures modulus { modulus % 2 ^ result ≡ 0 }
    ensures totals { AreMultiples totals.now result }
{
    let mut bits = modulus;
    for total in totals {
        bits |= *total;
    }
    bits.trailing_zeros()
}

// The events of the first numbers of `count` stretches.
fn entries(alloc: Global, totals: &[u32], count: usize, shift: u32) -> Result<Vec<u16>, AllocError>
    requires few { length totals.now ≤ 1024 }
    requires shift { shift < 32 }
    requires bounded { count * 2 ^ shift ≤ 2 ^ 31 }
    requires within { EachIndex totals.now (λ k. slice_index totals.now k ≤ count * 2 ^ shift) }
    ensures count { IfOk result (λ entries. length entries.items ≡ count) }
    ensures first { IfOk result (λ entries. AreFirstAbove totals.now shift entries.items) }
{
    let mut entries = Vec::with_capacity(alloc, count)?;
    let last = (1 << shift) - 1;
    for (event, total) in totals.iter().enumerate() {
        let end = (*total + last) >> shift;
        fill(&mut entries, event as u16, end as usize);
    }
    fill(&mut entries, totals.len() as u16, count);
    Ok(entries)
}

// Gives the event to the entries that are missing before the end.
fn fill(entries: &mut Vec<u16>, event: u16, end: usize)
    requires { end ≤ vec_capacity entries.old }
    ensures items { entries.new.items ≡ entries.old.items ++ replicate (end - length entries.old.items) event }
    ensures capacity { vec_capacity entries.new ≡ vec_capacity entries.old }
{
    for _ in entries.len()..end {
        entries.push_reserved(event);
    }
}
