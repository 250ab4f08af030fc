//! The table of values.

ghost use Rattle.std.specs.Prelude.{◌≡◌, ℕ, ◌<◌, ◌≤◌, ◌↔◌, IsTrue, IfOk, length, slice_index};
ghost use Rattle.psi_index.specs.Extremes.{IsFront, IsRising, IsValueList, greatest_of, least_of, stretch};

use crate::OutOfMemory;
use crate::kept::Kept;
use std::alloc::Global;
use std::marker::Model;
use std::rc::Rc;

/// A list of 1 to 65,535 values of 32 bits, by their places from 0 on.
///
/// It is seen as the list of the values. Where they don't rise, it keeps beside them their complements, what is left
/// of the greatest number of 32 bits, the least value and complement of each stretch whose length is a power of two of
/// at least 2, and the greatest value up to each place and the least from it on: for 65,535 values some 2.1 million
/// numbers of 4 bytes in all. What it keeps may be shared with other tables ([`IndexTable::share`]).
#[derive(Drop, Debug)]
pub struct IndexTable {
    kept: Rc<Kept>,
}

impl Model for IndexTable {
    ghost use Rattle.std.specs.Prelude.{ℕ, List};

    ghost Value = { List ℕ };

    ghost view = { λ table. table.kept.value };
}

impl IndexTable {
    /// Returns the table of these values: 1 to 65,535 of them.
    ///
    /// Returns `OutOfMemory` if an allocation fails, and drops the values then; no clause
    /// says when that is. No other call allocates.
    pub fn new(alloc: Global, values: Vec<u32>) -> Result<IndexTable, OutOfMemory>
        requires some { 1 ≤ length values.items }
        requires few { length values.items ≤ 65535 }
        ensures { IfOk result (λ table. table ≡ values.items) }
    {
        let kept = Kept::of(alloc, values)?;
        let kept = Rc::new(alloc, kept)?;
        Ok(IndexTable { kept })
    }

    /// Shares the table: the result has all that this one keeps, so it does not allocate.
    ///
    /// # Errors
    ///
    /// [`OutOfMemory`] where too many tables share it to be counted.
    pub fn share(&self) -> Result<IndexTable, OutOfMemory>
        ensures { IfOk result (λ table. table ≡ self.now) }
    {
        let kept = self.kept.clone()?;
        Ok(IndexTable { kept })
    }

    /// Returns the values in the order of their places.
    pub fn values(&self) -> &[u32]
        ensures { result.now ≡ self.now }
    {
        self.kept().values()
    }

    // What the table keeps.
    #[inline]
    pub(crate) fn kept(&self) -> &Kept
        ensures { result.now ≡ self.now }
    {
        self.kept.as_ref()
    }

    /// Returns the number of values, 1 to 65,535.
    ///
    /// Its second clause is how a caller learns what every table keeps: the ranges of its length and of
    /// its values.
    pub fn len(&self) -> u16
        ensures value { result ≡ length self.now }
        ensures valid { IsValueList self.now }
    {
        self.kept().len()
    }

    /// Returns the value at place `i`; places are counted from 0.
    #[inline]
    pub fn at(&self, i: u16) -> u32
        requires { i < length self.now }
        ensures { result ≡ slice_index self.now i }
    {
        self.kept().at(i)
    }

    /// Returns the least of the values at the places from `from` to `to`, both included.
    pub fn least(&self, from: u16, to: u16) -> u32
        requires ordered { from ≤ to }
        requires within { to < length self.now }
        ensures value { result ≡ least_of (stretch self.now from to) }
        ensures below { (k : ℕ) → from ≤ k → k ≤ to → result ≤ slice_index self.now k }
        ensures reached { (k : ℕ) × (from ≤ k) × (k ≤ to) × (slice_index self.now k ≡ result) }
    {
        self.kept().least(from, to)
    }

    /// Returns the greatest of the values at the places from `from` to `to`, both included.
    pub fn greatest(&self, from: u16, to: u16) -> u32
        requires ordered { from ≤ to }
        requires within { to < length self.now }
        ensures value { result ≡ greatest_of (stretch self.now from to) }
        ensures above { (k : ℕ) → from ≤ k → k ≤ to → slice_index self.now k ≤ result }
        ensures reached { (k : ℕ) × (from ≤ k) × (k ≤ to) × (slice_index self.now k ≡ result) }
    {
        self.kept().greatest(from, to)
    }

    /// Returns whether no value is below the one before it.
    pub fn rises(&self) -> bool
        ensures { IsTrue result ↔ IsRising self.now }
    {
        self.kept().rises()
    }

    /// Returns how many values stand before the first that is below the one before it: all where there is none.
    pub fn rising_front(&self) -> u16
        ensures { IsFront self.now result }
    {
        self.kept().rising_front()
    }
}
