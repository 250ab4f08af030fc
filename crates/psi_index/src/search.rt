//! Searches for the place at which the values of a table pass a bound.

ghost use Rattle.std.specs.Prelude.{ℕ, ◌-◌, ◌<◌, ◌≤◌, true, false, length, slice_index};

use crate::IndexTable;

// How many places are looked at one after another.
const SOON: u16 = 4;

impl IndexTable {
    /// Returns the first place whose value is at least `bound`, or the number of values where there is none.
    ///
    /// The search begins at the place `near`, from 0 to the number of values; the answer is the same whatever `near`
    /// is. It takes at most 6 look-ups where the answer is `near` or one of the three places after it, and else at
    /// most 39.
    pub fn first_at_least_near(&self, near: u16, bound: u64) -> u16
        requires { near ≤ length self.now }
        ensures within { result ≤ length self.now }
        ensures before { (k : ℕ) → k < result → slice_index self.now k < bound }
        ensures found { result < length self.now → bound ≤ slice_index self.now result }
    {
        if near > 0 && self.greatest(0, near - 1) as u64 >= bound {
            return self.first_at_least_between(0, near, bound);
        }
        let end = near + SOON.min(self.len() - near);
        for place in near..end {
            if self.at(place) as u64 >= bound {
                return place;
            }
        }
        self.first_at_least_between(end, self.len(), bound)
    }

    /// Returns the first place from `first` on and before `past` whose value is at least `bound`, or `past` where there
    /// is none.
    ///
    /// `past` is from `first` to the number of values; where it is `first`, there is no such place. The search takes
    /// one look-up where the answer is `first`, and else at most 33.
    pub fn first_at_least_between(&self, first: u16, past: u16, bound: u64) -> u16
        requires ordered { first ≤ past }
        requires within { past ≤ length self.now }
        ensures from { first ≤ result }
        ensures within { result ≤ past }
        ensures before { (k : ℕ) → first ≤ k → k < result → slice_index self.now k < bound }
        ensures found { result < past → bound ≤ slice_index self.now result }
    {
        if first == past || self.at(first) as u64 >= bound {
            return first;
        }
        first_passing(first + 1, past, |middle| {
            self.greatest(first, middle) as u64 >= bound
        })
    }

    /// One more than the last place from `first` on and before `past` whose value is below `bound`, or `first` where
    /// there is none.
    ///
    /// `past` is from `first` to the number of values; where it is `first`, there is no such place. The search takes
    /// one look-up where the answer is `past`, and else at most 33.
    pub fn past_last_below(&self, first: u16, past: u16, bound: u64) -> u16
        requires ordered { first ≤ past }
        requires within { past ≤ length self.now }
        ensures from { first ≤ result }
        ensures within { result ≤ past }
        ensures after { (k : ℕ) → result ≤ k → k < past → bound ≤ slice_index self.now k }
        ensures found { first < result → slice_index self.now (result - 1) < bound }
    {
        if first == past || (self.at(past - 1) as u64) < bound {
            return past;
        }
        first_passing(first, past - 1, |middle| {
            self.least(middle, past - 1) as u64 >= bound
        })
    }

    /// Returns the first place from `first` on and before `past` whose value is below `bound`, or `past` where there is
    /// none.
    ///
    /// `past` is from `first` to the number of values; where it is `first`, there is no such place. The search takes
    /// at most 2 look-ups where the answer is `past`, and else at most 34.
    pub fn first_below(&self, first: u16, past: u16, bound: u64) -> u16
        requires ordered { first ≤ past }
        requires within { past ≤ length self.now }
        ensures before { (k : ℕ) → first ≤ k → k < result → bound ≤ slice_index self.now k }
        ensures found { result < past → slice_index self.now result < bound }
        ensures from { first ≤ result }
        ensures within { result ≤ past }
    {
        if first < past && self.least(first, past - 1) as u64 >= bound {
            return past;
        }
        first_passing(first, past, |middle| {
            (self.least(first, middle) as u64) < bound
        })
    }
}

// The first place from `low` on and before `high` that passes a test, or `high` where there is none, by halving: a place
// after one that passes has to pass too.
fn first_passing<F: Fn(u16) -> bool>(low: u16, high: u16, passes: F) -> u16
    requires ordered { low ≤ high }
    requires callable { (k : ℕ) → low ≤ k → k < high → F.pre passes k }
    ensures from { low ≤ result }
    ensures within { result ≤ high }
    ensures before { low < result → F.post passes (result - 1) false }
    ensures found { result < high → F.post passes result true }
{
    let mut first = low;
    let mut past = high;
    while first < past {
        let middle = first + (past - first) / 2;
        if passes(middle) {
            past = middle;
        } else {
            first = middle + 1;
        }
    }
    first
}
