//! How many bits of some words are one, and the masks that are made of it.

ghost use Rattle.std.specs.Prelude.{◌≡◌, ◌+◌, ℕ, List, slice_index};
ghost use Rattle.psi_follow_packed.specs.Inner.BitsKept.{KnowsBits, ChoosesAlone};

use crate::layout::Packed;

// How many bits of some words are one.
#[derive(Clone, Copy)]
pub(crate) enum Bits {
    Nowhere,
    One,
    Several,
}

/// All bits where none is one, that one where one alone is, and none where several are.
#[inline]
pub(crate) fn alone<const K: usize>(leaving: &Packed<K>) -> Packed<K>
    ensures { ChoosesAlone K leaving.now.words result.words }
{
    match bits_in(leaving) {
        Bits::Nowhere => Packed {
            words: [u64::MAX; K],
        },
        Bits::One => *leaving,
        Bits::Several => Packed::zero(),
    }
}

// How many bits are one.
#[inline]
fn bits_in<const K: usize>(x: &Packed<K>) -> Bits
    ensures { KnowsBits K x.now.words result }
{
    let mut found = Bits::Nowhere;
    for at in 0..K {
        found = and_in(found, x.words[at]);
    }
    found
}

// How many bits are one with those of another word.
#[inline]
fn and_in(found: Bits, word: u64) -> Bits
    ensures { (n : ℕ) (x : List ℕ) → KnowsBits n x found → slice_index x n ≡ word → KnowsBits (n + 1) x result }
{
    if word == 0 {
        return found;
    }
    match found {
        Bits::Nowhere => if word & (word - 1) == 0 {
            Bits::One
        } else {
            Bits::Several
        },
        Bits::One => Bits::Several,
        Bits::Several => Bits::Several,
    }
}
