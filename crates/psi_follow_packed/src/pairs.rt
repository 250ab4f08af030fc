//! Two packed states side by side, so that one operation does both.

ghost use Rattle.std.specs.Prelude.{◌≡◌, ◌↔◌, ◌<◌, ◌+◌, ◌%◌, ◌^◌, ◌-◌, slice_index, IsTrue, nat_eq, bit_and, bit_or, replicate, if◌then◌else◌};
ghost use Rattle.psi_follow_packed.specs.Boxes.{AreGaps};
ghost use Rattle.psi_follow_packed.specs.Views.{words_by, low_word, high_word, low_words, high_words};
ghost use Rattle.psi_follow_packed.specs.Moves.{same_words};

use crate::layout::Packed;
use std::simd::prelude::*;

// The odd number nearest to 2^64 over the golden ratio: products with it differ in their high bits.
const MULTIPLIER: u64 = 11_400_714_819_323_198_485;

/// A word of each of two packed states, the low one's first, in one vector.
#[derive(Clone, Copy)]
pub struct Pair {
    pub(crate) lanes: u64x2,
}

/// Two states, packed, as `K` pairs of words: the low one, and the high one.
#[derive(Clone, Copy)]
pub struct PackedPair<const K: usize> {
    pub(crate) pairs: [Pair; K],
}

impl Pair {
    /// Returns a word of the low state and one of the high state.
    #[inline]
    pub fn of(low: u64, high: u64) -> Pair
        ensures low { low_word result ≡ low }
        ensures high { high_word result ≡ high }
    {
        Pair {
            lanes: u64x2::from_array([low, high]),
        }
    }

    // A word, twice.
    #[inline]
    pub(crate) fn twice(word: u64) -> Pair
        ensures low { low_word result ≡ word }
        ensures high { high_word result ≡ word }
    {
        Pair {
            lanes: u64x2::splat(word),
        }
    }

    /// Returns the word of the low state.
    #[inline]
    pub fn low(self) -> u64
        ensures { result ≡ low_word self }
    {
        self.lanes.to_array()[0]
    }

    /// Returns the word of the high state.
    #[inline]
    pub fn high(self) -> u64
        ensures { result ≡ high_word self }
    {
        self.lanes.to_array()[1]
    }

    /// Returns the sums, modulo 2^64.
    #[inline]
    pub fn plus(self, other: Pair) -> Pair
        ensures low { low_word result ≡ (low_word self + low_word other) % 2 ^ 64 }
        ensures high { high_word result ≡ (high_word self + high_word other) % 2 ^ 64 }
    {
        Pair {
            lanes: self.lanes + other.lanes,
        }
    }

    /// Returns the bits that are one in both.
    #[inline]
    pub fn and(self, other: Pair) -> Pair
        ensures low { low_word result ≡ bit_and (low_word self) (low_word other) }
        ensures high { high_word result ≡ bit_and (high_word self) (high_word other) }
    {
        Pair {
            lanes: self.lanes & other.lanes,
        }
    }

    // The bits that are one in either.
    #[inline]
    pub(crate) fn or(self, other: Pair) -> Pair
        ensures low { low_word result ≡ bit_or (low_word self) (low_word other) }
        ensures high { high_word result ≡ bit_or (high_word self) (high_word other) }
    {
        Pair {
            lanes: self.lanes | other.lanes,
        }
    }

    // All bits one where the words are equal, and none otherwise.
    #[inline]
    pub(crate) fn ones_if_equal(self, other: Pair) -> Pair
        ensures low { low_word result ≡ (if nat_eq (low_word self) (low_word other) then 2 ^ 64 - 1 else 0) }
        ensures high { high_word result ≡ (if nat_eq (high_word self) (high_word other) then 2 ^ 64 - 1 else 0) }
    {
        let are_equal = self.lanes.simd_eq(other.lanes);
        Pair {
            lanes: are_equal.select(u64x2::splat(u64::MAX), u64x2::splat(0)),
        }
    }

    // All bits one where the words are not equal, and none otherwise.
    #[inline]
    fn ones_if_apart(self, other: Pair) -> Pair
        ensures low { low_word result ≡ (if nat_eq (low_word self) (low_word other) then 0 else 2 ^ 64 - 1) }
        ensures high { high_word result ≡ (if nat_eq (high_word self) (high_word other) then 0 else 2 ^ 64 - 1) }
    {
        let are_equal = self.lanes.simd_eq(other.lanes);
        Pair {
            lanes: are_equal.select(u64x2::splat(0), u64x2::splat(u64::MAX)),
        }
    }
}

impl<const K: usize> PackedPair<K> {
    // All bits one for each of the two states of which a word is another than in the second pair, and none otherwise.
    #[inline]
    pub(crate) fn apart(&self, other: &PackedPair<K>) -> Pair
        ensures low { low_word result ≡ (if same_words K (low_words self.now) (low_words other.now) then 0 else 2 ^ 64 - 1) }
        ensures high { high_word result ≡ (if same_words K (high_words self.now) (high_words other.now) then 0 else 2 ^ 64 - 1) }
    {
        let mut apart = Pair::twice(0);
        for at in 0..K {
            apart = apart.or(self.pairs[at].ones_if_apart(other.pairs[at]));
        }
        apart
    }

    /// Two packed states, side by side.
    #[inline]
    pub fn of(low: &Packed<K>, high: &Packed<K>) -> PackedPair<K>
        ensures low { low_words result ≡ low.now.words }
        ensures high { high_words result ≡ high.now.words }
    {
        let mut pairs = [Pair::twice(0); K];
        for at in 0..K {
            pairs[at] = Pair::of(low.words[at], high.words[at]);
        }
        PackedPair { pairs }
    }

    /// Returns the low one.
    #[inline]
    pub fn low(&self) -> Packed<K>
        ensures { result.words ≡ low_words self.now }
    {
        self.side::<0>()
    }

    /// Returns the high one.
    #[inline]
    pub fn high(&self) -> Packed<K>
        ensures { result.words ≡ high_words self.now }
    {
        self.side::<1>()
    }

    // The state in this lane of the pairs.
    #[inline]
    fn side<const LANE: usize>(&self) -> Packed<K>
        requires { LANE < 2 }
        ensures { result.words ≡ words_by (λ p. slice_index p.lanes LANE) self.now }
    {
        let mut words = [0; K];
        for at in 0..K {
            words[at] = self.pairs[at].lanes.to_array()[LANE];
        }
        Packed { words }
    }

    // What the high one's words are above the low one's, modulo 2^64.
    #[inline]
    pub(crate) fn gaps(&self) -> Packed<K>
        ensures { AreGaps K (low_words self.now) (high_words self.now) result.words }
    {
        let mut words = [0; K];
        for at in 0..K {
            words[at] = self.pairs[at].high().wrapping_sub(self.pairs[at].low());
        }
        Packed { words }
    }
}

impl<const K: usize> Packed<K> {
    /// Words of which no bit is one.
    pub fn zero() -> Packed<K>
        ensures { result.words ≡ replicate K 0 }
    {
        Packed { words: [0; K] }
    }

    /// Returns whether the words are the same.
    #[inline]
    pub fn is(&self, other: &Packed<K>) -> bool
        ensures { IsTrue result ↔ (self.now.words ≡ other.now.words) }
    {
        for at in 0..K {
            if self.words[at] != other.words[at] {
                return false;
            }
        }
        true
    }

    /// Returns a hash whose high bits depend on all bits of the words: equal words have equal hashes. It is made by
    /// multiplication (Knuth, The Art of Computer Programming, volume 3, section 6.4). No clause says which it is.
    #[inline]
    pub fn hash(&self) -> u64 {
        let mut product: u64 = 0;
        for at in 0..K {
            product = product
                .wrapping_add(self.words[at])
                .wrapping_mul(MULTIPLIER);
        }
        product
    }

    // The same words twice.
    pub(crate) fn twice(&self) -> PackedPair<K>
        ensures low { low_words result ≡ self.now.words }
        ensures high { high_words result ≡ self.now.words }
    {
        PackedPair::of(self, self)
    }
}
