//! A set of arcs.

ghost use Rattle.std.specs.Prelude.{◌≡◌, ◌+◌, ◌*◌, ◌<◌, ◌≤◌, ◌↔◌, ◌⊎◌, ℕ, [], true, IsTrue, IfOk, MatchOption, length};
ghost use Rattle.psi_state.specs.Members.{In};
ghost use Rattle.psi_state.specs.Ascending.{IsDistinct};
ghost use Rattle.psi_closed_arcs.specs.Sums.{has, Leads};
ghost use Rattle.psi_closed_arcs.specs.Held.{Listed, AreRanged, IsSized, IsThis, IsFirst};
ghost use Rattle.psi_closed_arcs.specs.Inner.RowsKept.{keeps, arc_number, arcs_below, AreEmpty};

use crate::OutOfMemory;
use crate::ends::{ARCS, Arc, ENDS, end_of};
use crate::sums::{Sums, no_sums};
use std::alloc::Global;
use std::marker::Model;

/// A set of arcs over 1 to 32 queues, of states with 0 to 256 customers in all: seen as the number of queues, the
/// number of customers, and the list of the arcs, none of them twice.
///
/// For each queue and each number of customers before it there is a row: the set of the sums with the queue's own
/// customers, one bit for each. `reserve` alone allocates.
#[derive(Drop)]
pub struct Arcs {
    rows: Vec<Sums>,
    levels: u8,
    total: u16,
}

impl Model for Arcs {
    ghost use Rattle.psi_closed_arcs.specs.Held.{ArcList};

    ghost Value = { ArcList };

    ghost use Rattle.psi_closed_arcs.specs.Inner.RowsKept.{arcs_of, AreRows};

    ghost view = { λ a. record {
      levels = a.levels;
      total = a.total;
      arcs = arcs_of a.rows.items a.levels a.total;
    } };

    ghost invariant = { λ a. AreRows a.rows.items a.levels a.total };
}

// Whether the rows have the arc of a number, with so many customers in all at most.
#[inline]
fn has_number(rows: &[Sums], total: u16, number: u32) -> bool
    requires inside { number < length rows.now * 257 }
    requires small { total ≤ 256 }
    ensures { result ≡ keeps rows.now total (arc_number number) }
{
    let end = number / ENDS;
    let sum = (end % ENDS + number % ENDS) as u16;
    sum <= total && rows[end as usize].holds(sum)
}

// How many of the arcs with the first numbers the rows have.
fn count_arcs(rows: &[Sums], total: u16, end: u32) -> u32
    requires inside { end ≤ length rows.now * 257 }
    requires small { total ≤ 256 }
    ensures count { result ≡ length (arcs_below rows.now total end) }
    ensures most { result ≤ end }
{
    let mut count = 0;
    for number in 0..end {
        count += has_number(rows, total, number) as u32;
    }
    count
}

// The least number of the set from `first` on that isn't above `last`, if there is one.
fn next_sum(row: &Sums, first: u16, last: u16) -> Option<u16>
    requires { last < 320 }
    ensures { MatchOption result ((t : ℕ) → first ≤ t → t ≤ last → has row.now t ≡ true → ⊥) (λ sum. (first ≤ sum) × ((sum ≤ last) × ((has row.now sum ≡ true)
        × ((t : ℕ) → first ≤ t → t < sum → has row.now t ≡ true → ⊥)))) }
{
    for sum in first..last + 1 {
        if row.holds(sum) {
            return Some(sum);
        }
    }
    None
}

impl Arcs {
    /// No arc, with room for all those of `levels` queues, 1 to 32, and `total` customers, 0 to 256.
    ///
    /// `OutOfMemory` is the answer where there is no memory for it; no clause says when that is.
    pub fn reserve(alloc: Global, levels: u8, total: u16) -> Result<Arcs, OutOfMemory>
        requires some { 1 ≤ levels }
        requires few { levels ≤ 32 }
        requires small { total ≤ 256 }
        ensures { IfOk result (λ arcs. arcs ≡ record { levels = levels; total = total; arcs = [] }) }
    {
        let rows = no_sums(alloc, levels as u32 * ENDS)?;
        Ok(Arcs {
            rows,
            levels,
            total,
        })
    }

    /// The number of queues, 1 to 32.
    ///
    /// Its last clause is how a caller learns that each arc is in range.
    #[inline]
    pub fn levels(&self) -> u8
        ensures value { result ≡ self.now.levels }
        ensures some { 1 ≤ self.now.levels }
        ensures few { self.now.levels ≤ 32 }
        ensures ranged { AreRanged self.now.levels self.now.total self.now.arcs }
    {
        self.levels
    }

    /// The number of customers in all, 0 to 256.
    ///
    /// Its other clauses are how a caller learns how many customers and queues there are at most, and that each arc is
    /// in range.
    #[inline]
    pub fn total(&self) -> u16
        ensures value { result ≡ self.now.total }
        ensures small { self.now.total ≤ 256 }
        ensures few { self.now.levels ≤ 32 }
        ensures ranged { AreRanged self.now.levels self.now.total self.now.arcs }
    {
        self.total
    }

    /// The number of arcs.
    ///
    /// Its other clauses are how a caller learns that no arc stands twice, and that each is in range.
    pub fn len(&self) -> u32
        ensures value { result ≡ length self.now.arcs }
        ensures distinct { IsDistinct self.now.arcs }
        ensures ranged { AreRanged self.now.levels self.now.total self.now.arcs }
    {
        count_arcs(self.rows.as_slice(), self.total, self.levels as u32 * ARCS)
    }

    /// Takes all arcs out; the room stays.
    pub fn clear(&mut self)
        ensures levels { self.new.levels ≡ self.old.levels }
        ensures total { self.new.total ≡ self.old.total }
        ensures arcs { self.new.arcs ≡ [] }
    {
        empty(self.rows.as_mut_slice());
    }

    /// Whether the arc is in the set. It has to be one of the queues, with at most `total` customers in all.
    #[inline]
    pub fn has(&self, arc: Arc) -> bool
        requires level { arc.level < self.now.levels }
        requires sum { arc.before + arc.value ≤ self.now.total }
        ensures { IsTrue result ↔ In arc self.now.arcs }
    {
        self.rows[end_of(arc.level, arc.before)].holds(arc.before + arc.value)
    }

    /// Puts an arc into the set: it stays as it is where the arc is there already. The arc has to be one of the
    /// queues, with at most `total` customers in all.
    ///
    /// Its last clause is how a caller learns how many customers there are at most.
    #[inline]
    pub fn insert(&mut self, arc: Arc)
        requires level { arc.level < self.old.levels }
        requires sum { arc.before + arc.value ≤ self.old.total }
        ensures levels { self.new.levels ≡ self.old.levels }
        ensures total { self.new.total ≡ self.old.total }
        ensures arcs { (l s v : ℕ) → Listed self.new.arcs l s v ↔ (Listed self.old.arcs l s v ⊎ IsThis arc l s v) }
        ensures small { self.new.total ≤ 256 }
    {
        let mut row = self.row(arc.level, arc.before);
        row.insert(arc.before + arc.value);
        self.put(arc.level, arc.before, row);
    }

    /// The customers at queue `level` of an arc that leaves it with `before` customers before it, and whether there is
    /// another such arc; `None` where there is none.
    ///
    /// Its last clause is how a caller learns that each arc is in range.
    pub fn first(&self, level: u8, before: u16) -> Option<(u16, bool)>
        requires level { level < self.now.levels }
        requires before { before ≤ self.now.total }
        ensures value { MatchOption result ((v : ℕ) → Listed self.now.arcs level before v → ⊥) (λ p. IsFirst self.now.arcs level before p.0 p.1) }
        ensures sized { IsSized self.now }
    {
        let total = self.total();
        let row = self.row(level, before);
        match next_sum(&row, before, total) {
            Some(sum) => Some((sum - before, next_sum(&row, sum + 1, total).is_some())),
            None => None,
        }
    }

    /// The sums to which arcs lead that leave queue `level` with `before` customers before it.
    #[inline]
    pub(crate) fn row(&self, level: u8, before: u16) -> Sums
        requires level { level < self.now.levels }
        requires before { before ≤ self.now.total }
        ensures arcs { (v : ℕ) → Leads result before v ↔ Listed self.now.arcs level before v }
        ensures small { self.now.total ≤ 256 }
        ensures ranged { (t : ℕ) → t < 320 → has result t ≡ true → (before ≤ t) × (t ≤ self.now.total) }
    {
        self.rows[end_of(level, before)]
    }

    /// Lets the arcs that leave queue `level` with `before` customers before it lead to these sums.
    #[inline]
    pub(crate) fn put(&mut self, level: u8, before: u16, row: Sums)
        requires level { level < self.old.levels }
        requires before { before ≤ self.old.total }
        requires ranged { (t : ℕ) → t < 320 → has row t ≡ true → (before ≤ t) × (t ≤ self.old.total) }
        ensures levels { self.new.levels ≡ self.old.levels }
        ensures total { self.new.total ≡ self.old.total }
        ensures own { (v : ℕ) → Listed self.new.arcs level before v ↔ Leads row before v }
        ensures others { (l s v : ℕ) → (l ≡ level → s ≡ before → ⊥) → Listed self.new.arcs l s v ↔ Listed self.old.arcs l s v }
    {
        self.rows[end_of(level, before)] = row;
    }
}

// Takes all sums out of the rows.
fn empty(rows: &mut [Sums])
    ensures { AreEmpty rows.new }
{
    for end in 0..rows.len() {
        rows[end] = Sums::none();
    }
}
