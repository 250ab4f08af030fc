//! Sets of sums: numbers of customers from 0 to 319, as the bits of five words, so that a set is worked on in five
//! operations.

ghost use Rattle.std.specs.Prelude.{◌≡◌, ℕ, suc, ◌+◌, ◌*◌, ◌<◌, ◌≤◌, ◌↔◌, ◌⊎◌, ◌/◌, ◌%◌, true, false, length, slice_index, IfOk};
ghost use Rattle.std.specs.Int.{bit_at};
ghost use Rattle.psi_closed_arcs.specs.Sums.{has};
ghost use Rattle.psi_closed_arcs.specs.Inner.RowsKept.{AreEmpty};

use std::alloc::{AllocError, Global};

/// A set of numbers from 0 to 319.
#[derive(Clone, Copy)]
pub(crate) struct Sums {
    pub(crate) words: [u64; 5],
}

/// So many numbers a set is of: 0 to 319.
pub(crate) const SUMS: u32 = 320;

/// So many sets without a number.
pub(crate) fn no_sums(alloc: Global, count: u32) -> Result<Vec<Sums>, AllocError>
    ensures count { IfOk result (λ sums. length sums.items ≡ count) }
    ensures none { IfOk result (λ sums. AreEmpty sums.items) }
{
    let mut sums = Vec::with_capacity(alloc, count as usize)?;
    for _place in 0..count {
        sums.push_reserved(Sums::none());
    }
    Ok(sums)
}

// The bits of a word, 64 numbers from 64 times its place on, that stand for numbers from `first` on.
#[inline]
fn ones_from(word: u32, first: u32) -> u64
    requires { word < 5 }
    ensures { (i : ℕ) → i < 64 → (bit_at result i ≡ 1) ↔ (first ≤ word * 64 + i) }
{
    let low = first.saturating_sub(word * 64);
    if low < 64 { u64::MAX << low } else { 0 }
}

// Those that stand for numbers below `end`.
#[inline]
fn ones_below(word: u32, end: u32) -> u64
    requires { word < 5 }
    ensures { (i : ℕ) → i < 64 → (bit_at result i ≡ 1) ↔ (word * 64 + i < end) }
{
    !ones_from(word, end)
}

impl Sums {
    /// No number.
    #[inline]
    pub(crate) fn none() -> Sums
        ensures { (t : ℕ) → t < 320 → has result t ≡ false }
    {
        Sums { words: [0; 5] }
    }

    /// One number.
    #[inline]
    pub(crate) fn of(sum: u16) -> Sums
        requires { sum < 320 }
        ensures { (t : ℕ) → t < 320 → (has result t ≡ true) ↔ (t ≡ sum) }
    {
        let mut sums = Sums::none();
        sums.insert(sum);
        sums
    }

    /// The numbers from 0 to 319.
    #[inline]
    pub(crate) fn all() -> Sums
        ensures { (t : ℕ) → t < 320 → has result t ≡ true }
    {
        Sums {
            words: [u64::MAX; 5],
        }
    }

    /// Whether the number is in the set.
    #[inline]
    pub(crate) fn holds(&self, sum: u16) -> bool
        requires { sum < 320 }
        ensures { result ≡ has self.now sum }
    {
        self.words[sum as usize / 64] >> (sum % 64) & 1 == 1
    }

    /// Puts the number into the set.
    #[inline]
    pub(crate) fn insert(&mut self, sum: u16)
        requires { sum < 320 }
        ensures { (t : ℕ) → t < 320 → (has self.new t ≡ true) ↔ ((t ≡ sum) ⊎ (has self.old t ≡ true)) }
    {
        self.words[sum as usize / 64] |= 1 << (sum % 64);
    }

    /// Puts the number into the set, if it is to be.
    #[inline]
    pub(crate) fn insert_if(&mut self, is_in: bool, sum: u16)
        requires { sum < 320 }
        ensures { (t : ℕ) → t < 320 → (has self.new t ≡ true) ↔ (((is_in ≡ true) × (t ≡ sum)) ⊎ (has self.old t ≡ true)) }
    {
        if is_in {
            self.insert(sum);
        }
    }

    /// The numbers of either set.
    #[inline]
    pub(crate) fn or(&self, other: &Sums) -> Sums
        ensures { (t : ℕ) → t < 320 → (has result t ≡ true) ↔ ((has self.now t ≡ true) ⊎ (has other.now t ≡ true)) }
    {
        let a = self.words;
        let b = other.words;
        Sums {
            words: [
                a[0] | b[0],
                a[1] | b[1],
                a[2] | b[2],
                a[3] | b[3],
                a[4] | b[4],
            ],
        }
    }

    /// The numbers of both sets.
    #[inline]
    pub(crate) fn and(&self, other: &Sums) -> Sums
        ensures { (t : ℕ) → t < 320 → (has result t ≡ true) ↔ ((has self.now t ≡ true) × (has other.now t ≡ true)) }
    {
        let a = self.words;
        let b = other.words;
        Sums {
            words: [
                a[0] & b[0],
                a[1] & b[1],
                a[2] & b[2],
                a[3] & b[3],
                a[4] & b[4],
            ],
        }
    }

    /// Those of its numbers that are `first` or more.
    #[inline]
    pub(crate) fn at_least(&self, first: u32) -> Sums
        ensures { (t : ℕ) → t < 320 → (has result t ≡ true) ↔ ((has self.now t ≡ true) × (first ≤ t)) }
    {
        let a = self.words;
        Sums {
            words: [
                a[0] & ones_from(0, first),
                a[1] & ones_from(1, first),
                a[2] & ones_from(2, first),
                a[3] & ones_from(3, first),
                a[4] & ones_from(4, first),
            ],
        }
    }

    /// Those of its numbers that are below `end`.
    #[inline]
    pub(crate) fn below(&self, end: u32) -> Sums
        ensures { (t : ℕ) → t < 320 → (has result t ≡ true) ↔ ((has self.now t ≡ true) × (t < end)) }
    {
        let a = self.words;
        Sums {
            words: [
                a[0] & ones_below(0, end),
                a[1] & ones_below(1, end),
                a[2] & ones_below(2, end),
                a[3] & ones_below(3, end),
                a[4] & ones_below(4, end),
            ],
        }
    }

    /// Whether it has no number.
    #[inline]
    pub(crate) fn is_none(&self) -> bool
        ensures none { result ≡ true → (t : ℕ) → t < 320 → has self.now t ≡ false }
        ensures some { result ≡ false → (t : ℕ) × (t < 320) × (has self.now t ≡ true) }
    {
        let a = self.words;
        a[0] | a[1] | a[2] | a[3] | a[4] == 0
    }

    /// Each of its numbers one higher; 319 is left out.
    #[inline]
    pub(crate) fn up(&self) -> Sums
        ensures first { has result 0 ≡ false }
        ensures others { (t : ℕ) → suc t < 320 → has result (suc t) ≡ has self.now t }
    {
        let a = self.words;
        Sums {
            words: [
                a[0] << 1,
                a[1] << 1 | a[0] >> 63,
                a[2] << 1 | a[1] >> 63,
                a[3] << 1 | a[2] >> 63,
                a[4] << 1 | a[3] >> 63,
            ],
        }
    }

    /// Each of its numbers one lower; 0 is left out.
    #[inline]
    pub(crate) fn down(&self) -> Sums
        ensures last { has result 319 ≡ false }
        ensures others { (t : ℕ) → suc t < 320 → has result t ≡ has self.now (suc t) }
    {
        let a = self.words;
        Sums {
            words: [
                a[0] >> 1 | a[1] << 63,
                a[1] >> 1 | a[2] << 63,
                a[2] >> 1 | a[3] << 63,
                a[3] >> 1 | a[4] << 63,
                a[4] >> 1,
            ],
        }
    }
}
