//! Where the values of one table fall past those of another.

ghost use Rattle.std.specs.Prelude.{ℕ, ◌+◌, ◌^◌, ◌<◌, ◌≤◌, length, slice_index, MatchOption, IsTrue};
ghost use Rattle.std.specs.Bool.{MatchBool};
ghost use Rattle.psi_index.specs.Falls.{Falls, NeverFalls};

use crate::IndexTable;

impl IndexTable {
    /// The first place of `other` whose value, with `more` added, the values here fall past: one of them is at least as
    /// great, and a later one is less. The number of the other's values where there is none.
    ///
    /// Two places of `other` at a time are passed over by the least value from them on and the greatest up to them; only
    /// where these don't decide, and after the last two, each is looked up.
    // Out of line: where it is inlined, what its caller keeps takes the registers of the loop.
    #[inline(never)]
    pub fn first_passed(&self, other: &IndexTable, more: u32) -> u16
        ensures within { result ≤ length other.now }
        ensures before { (w : ℕ) → w < result → NeverFalls self.now (slice_index other.now w + more) }
        ensures found { result < length other.now → Falls self.now (slice_index other.now result + more) }
    {
        let (peaks, troughs) = (self.kept().peaks(), self.kept().troughs());
        let (others_peaks, others_troughs) = (other.kept().peaks(), other.kept().troughs());
        let count = other.len() as usize;
        let more = more as u64;
        let mut near = 0;
        let mut place = 0;
        while place + 1 < count {
            let low = others_troughs[place] as u64 + more;
            let high = others_peaks[place + 1] as u64 + more;
            near = past_lower(peaks, near, low);
            if !stays_above(troughs, near, high) {
                let passed = self.passed_between(
                    other,
                    place as u16,
                    place as u16 + 2,
                    near as u16,
                    more,
                );
                if let Some(passed) = passed {
                    return passed;
                }
            }
            place += 2;
        }
        match self.passed_between(other, place as u16, count as u16, near as u16, more) {
            Some(passed) => passed,
            None => other.len(),
        }
    }

    // The first place of `other` from `first` on and before `past` whose value, with `more` added, the values here fall
    // past; those that are as great are looked for near the place `near`.
    #[inline(never)]
    fn passed_between(
        &self,
        other: &IndexTable,
        first: u16,
        past: u16,
        near: u16,
        more: u64,
    ) -> Option<u16>
        requires others { past ≤ length other.now }
        requires near { near ≤ length self.now }
        requires more { more < 2 ^ 32 }
        ensures { MatchOption result ((w : ℕ) → first ≤ w → w < past → NeverFalls self.now (slice_index other.now w + more))
            (λ p. (first ≤ p) × (p < past) × ((w : ℕ) → first ≤ w → w < p → NeverFalls self.now (slice_index other.now w + more)) × Falls self.now (slice_index other.now p + more)) }
    {
        for place in first..past {
            if self.falls_past(near, other.at(place) as u64 + more) {
                return Some(place);
            }
        }
        None
    }

    // Whether some value is at least the bound, and a later one is below it; the first that is at least it is looked for
    // near the place `near`.
    fn falls_past(&self, near: u16, bound: u64) -> bool
        requires { near ≤ length self.now }
        ensures { MatchBool result (Falls self.now bound) (NeverFalls self.now bound) }
    {
        let count = self.len();
        let first = self.first_at_least_near(near, bound);
        first < count && (self.least(first, count - 1) as u64) < bound
    }
}

// The first place from `near` on whose peak isn't below the bound, or the number of peaks where there is none.
fn past_lower(peaks: &[u32], near: usize, bound: u64) -> usize
    requires { near ≤ length peaks.now }
    ensures from { near ≤ result }
    ensures within { result ≤ length peaks.now }
    ensures below { (k : ℕ) → near ≤ k → k < result → slice_index peaks.now k < bound }
{
    let mut place = near;
    while place < peaks.len() && (peaks[place] as u64) < bound {
        place += 1;
    }
    place
}

// Whether the trough at the place, if there is one, isn't below the bound.
fn stays_above(troughs: &[u32], near: usize, bound: u64) -> bool
    ensures { IsTrue result → near < length troughs.now → bound ≤ slice_index troughs.now near }
{
    near >= troughs.len() || troughs[near] as u64 >= bound
}
