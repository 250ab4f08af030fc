//! What a table keeps beside its values.

ghost use Rattle.std.specs.Prelude.{◌≡◌, ℕ, ◌<◌, ◌≤◌, ◌↔◌, IsTrue, IfOk, length, map, slice_index};
ghost use Rattle.psi_index.specs.Extremes.{IsFront, IsRising, IsValueList, complement, greatest_of, least_of, stretch};
ghost use Rattle.psi_index.specs.Inner.BoundsKept.{ArePeaks, AreTroughs};

use crate::OutOfMemory;
use crate::hulls::{peaks_of, troughs_of};
use crate::level::{Level, levels_of};
use crate::minima::least_within;
use std::alloc::{AllocError, Global};
use std::marker::Model;

// The values of a table and, where they don't rise, their levels, their complements and the levels of these, the
// greatest value up to each place and the least from it on; and how many stand before the first that falls. It is
// seen as the list of the values.
#[derive(Drop, Debug)]
pub(crate) struct Kept {
    values: Vec<u32>,
    low: Vec<Level>,
    complements: Vec<u32>,
    high: Vec<Level>,
    peaks: Vec<u32>,
    troughs: Vec<u32>,
    rises: bool,
    front: u16,
}

impl Model for Kept {
    ghost use Rattle.std.specs.Prelude.{ℕ, List};

    ghost Value = { List ℕ };

    ghost use Rattle.psi_index.specs.Extremes.{IsFront};
    ghost use Rattle.psi_index.specs.Inner.LevelsKept.{AreSparseTables};
    ghost use Rattle.psi_index.specs.Inner.BoundsKept.{AreBounds};

    ghost view = { λ kept. kept.values.items };

    ghost invariant = { λ kept. AreSparseTables kept.values.items kept.low.items kept.complements.items kept.high.items kept.rises × AreBounds kept.values.items kept.peaks.items kept.troughs.items kept.rises × IsFront kept.values.items kept.front };
}

impl Kept {
    // What a table of these values keeps.
    pub(crate) fn of(alloc: Global, values: Vec<u32>) -> Result<Kept, OutOfMemory>
        requires some { 1 ≤ length values.items }
        requires few { length values.items ≤ 65535 }
        ensures { IfOk result (λ kept. kept ≡ values.items) }
    {
        let front = rising_front(&values);
        if front == values.len() {
            Ok(Kept::rising(alloc, values))
        } else {
            Kept::sparse(alloc, values, front as u16)
        }
    }

    // Of values that rise.
    fn rising(alloc: Global, values: Vec<u32>) -> Kept
        requires valid { IsValueList values.items }
        requires rises { IsRising values.items }
        ensures { result ≡ values.items }
    {
        let front = values.len() as u16;
        Kept {
            values,
            low: Vec::new(alloc),
            complements: Vec::new(alloc),
            high: Vec::new(alloc),
            peaks: Vec::new(alloc),
            troughs: Vec::new(alloc),
            rises: true,
            front,
        }
    }

    // Of values that don't rise; `front` of them stand before the first that falls.
    fn sparse(alloc: Global, values: Vec<u32>, front: u16) -> Result<Kept, OutOfMemory>
        requires valid { IsValueList values.items }
        requires falls { ¬ IsRising values.items }
        requires front { IsFront values.items front }
        ensures { IfOk result (λ kept. kept ≡ values.items) }
    {
        let low = levels_of(alloc, &values)?;
        let complements = complements(alloc, &values)?;
        let high = levels_of(alloc, &complements)?;
        let peaks = peaks_of(alloc, &values)?;
        let troughs = troughs_of(alloc, &values)?;
        Ok(Kept {
            values,
            low,
            complements,
            high,
            peaks,
            troughs,
            rises: false,
            front,
        })
    }

    // The values in the order of their places.
    pub(crate) fn values(&self) -> &[u32]
        ensures { result.now ≡ self.now }
    {
        self.values.as_slice()
    }

    // The number of values.
    pub(crate) fn len(&self) -> u16
        ensures value { result ≡ length self.now }
        ensures valid { IsValueList self.now }
    {
        self.values.len() as u16
    }

    // The value at a place.
    #[inline]
    pub(crate) fn at(&self, i: u16) -> u32
        requires { i < length self.now }
        ensures { result ≡ slice_index self.now i }
    {
        self.values[i as usize]
    }

    // The least of the values at the places from `from` to `to`, both included.
    pub(crate) fn least(&self, from: u16, to: u16) -> u32
        requires ordered { from ≤ to }
        requires within { to < length self.now }
        ensures value { result ≡ least_of (stretch self.now from to) }
        ensures below { (k : ℕ) → from ≤ k → k ≤ to → result ≤ slice_index self.now k }
        ensures reached { (k : ℕ) × (from ≤ k) × (k ≤ to) × (slice_index self.now k ≡ result) }
    {
        if self.rises {
            return self.at(from);
        }
        least_within(&self.values, &self.low, from, to)
    }

    // The greatest of them.
    pub(crate) fn greatest(&self, from: u16, to: u16) -> u32
        requires ordered { from ≤ to }
        requires within { to < length self.now }
        ensures value { result ≡ greatest_of (stretch self.now from to) }
        ensures above { (k : ℕ) → from ≤ k → k ≤ to → slice_index self.now k ≤ result }
        ensures reached { (k : ℕ) × (from ≤ k) × (k ≤ to) × (slice_index self.now k ≡ result) }
    {
        if self.rises {
            return self.at(to);
        }
        u32::MAX - least_within(&self.complements, &self.high, from, to)
    }

    // For each place a number that no value up to it is above: the greatest of them. The last clause is what every table
    // keeps.
    pub(crate) fn peaks(&self) -> &[u32]
        ensures peaks { ArePeaks self.now result.now }
        ensures valid { IsValueList self.now }
    {
        if self.rises {
            &self.values
        } else {
            &self.peaks
        }
    }

    // For each place a number that no value from it on is below: the least of them.
    pub(crate) fn troughs(&self) -> &[u32]
        ensures { AreTroughs self.now result.now }
    {
        if self.rises {
            &self.values
        } else {
            &self.troughs
        }
    }

    // Whether no value is below the one before it.
    pub(crate) fn rises(&self) -> bool
        ensures { IsTrue result ↔ IsRising self.now }
    {
        self.rises
    }

    // How many values stand before the first that is below the one before it: all where there is none.
    pub(crate) fn rising_front(&self) -> u16
        ensures { IsFront self.now result }
    {
        self.front
    }
}

// The complement of each value.
fn complements(alloc: Global, values: &[u32]) -> Result<Vec<u32>, AllocError>
    ensures { IfOk result (λ made. made.items ≡ map complement values.now) }
{
    values.iter().map(|value| u32::MAX - *value).collect(alloc)
}

// How many values stand before the first that is below the one before it: all where there is none.
fn rising_front(values: &[u32]) -> usize
    ensures { IsFront values.now result }
{
    for i in 1..values.len() {
        if values[i] < values[i - 1] {
            return i;
        }
    }
    values.len()
}
