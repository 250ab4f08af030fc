//! Boxes of states between two packed corners: how many states they have, and runs that follow the corners while these
//! are many.

ghost use Rattle.std.specs.Prelude.{◌≡◌, ◌*◌, ◌^◌, ◌<◌, ◌≤◌, ℕ, List, length, slice_index, EachIndex, false};
ghost use Rattle.psi_follow_packed.specs.Packed.{word_of};
ghost use Rattle.psi_follow_packed.specs.Boxes.{widths, IsCount, GapsTell, TellsFew, FollowsBox};
ghost use Rattle.psi_follow_packed.specs.Views.{low_words, high_words};

use crate::layout::Packed;
use crate::pairs::PackedPair;
use crate::program::MaskProgram;

impl<const K: usize> MaskProgram<K> {
    /// Returns whether the box between the two packed states, of which the low one is nowhere above the high one, has
    /// at most `most` states.
    pub fn box_has_at_most(&self, x: &PackedPair<K>, most: u32) -> bool
        ensures { TellsFew K self.now.packing (low_words x.now) (high_words x.now) most result }
    {
        has_at_most(&x.gaps(), self.layout.bits(), most)
    }

    /// Follows the events of these numbers, the last number's first, as long as the box between the two packed states
    /// has more than `most` states and the next event doesn't halt the run. The answer is how many numbers are left.
    ///
    /// Each event that doesn't halt is monotone, and the low state is nowhere above the high one.
    #[inline(never)]
    pub fn follow_while_many(
        &self,
        numbers: &[u16],
        halts: &[bool],
        most: u32,
        x: &mut PackedPair<K>,
    ) -> usize
        requires numbers { EachIndex numbers.now (λ i. slice_index numbers.now i < length self.now.moves) }
        requires halts { length halts.now ≡ length self.now.moves }
        ensures left { result ≤ length numbers.now }
        ensures run { FollowsBox K self.now numbers.now halts.now most (low_words x.old) (high_words x.old) (low_words x.new) (high_words x.new) result }
    {
        let bits = self.layout.bits();
        // In a variable of its own it stays in registers.
        let mut own = *x;
        let mut tested = own.gaps();
        if has_at_most(&tested, bits, most) {
            return numbers.len();
        }
        for place in (0..numbers.len()).rev() {
            let number = numbers[place];
            let gaps = own.gaps();
            if became_few(&gaps, &tested, bits, most) || halts[number as usize] {
                *x = own;
                return place + 1;
            }
            tested = gaps;
            self.event(number).advance(&mut own);
        }
        *x = own;
        0
    }
}

// Whether boxes of these gaps have at most `most` states, where those of the gaps that were tested have more: most
// events move both corners alike.
#[inline]
fn became_few<const K: usize>(gaps: &Packed<K>, tested: &Packed<K>, bits: u8, most: u32) -> bool
    requires some { 1 ≤ bits }
    requires few { bits ≤ 16 }
    requires many { GapsTell K bits most tested.now.words false }
    ensures { GapsTell K bits most gaps.now.words result }
{
    if gaps.is(tested) {
        return false;
    }
    has_at_most(gaps, bits, most)
}

// Whether the boxes of these gaps have at most `most` states, by fields of `bits` bits.
#[inline]
fn has_at_most<const K: usize>(gaps: &Packed<K>, bits: u8, most: u32) -> bool
    requires some { 1 ≤ bits }
    requires few { bits ≤ 16 }
    ensures { GapsTell K bits most gaps.now.words result }
{
    let mut count = 1;
    for at in 0..K {
        count = times_widths(gaps.words[at], bits, most, count);
    }
    count <= most as u64
}

// The count times one more than each number in the fields of the word, given up once it is above `most`.
#[inline]
fn times_widths(word: u64, bits: u8, most: u32, count: u64) -> u64
    requires some { 1 ≤ bits }
    requires few { bits ≤ 16 }
    ensures { (x : List ℕ) → EachIndex x (λ q. slice_index x q < 2 ^ bits) → word ≡ word_of bits x → IsCount most (count * widths x) result }
{
    let mask = (1 << bits) - 1;
    let mut rest = word;
    let mut product = count;
    while rest != 0 && product <= most as u64 {
        product *= (rest & mask) + 1;
        rest >>= bits;
    }
    product
}
