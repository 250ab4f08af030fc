//! The sizes of images.

ghost use Rattle.std.specs.Prelude.{◌≡◌, ◌<◌, ◌≤◌, ◌++◌, [], ◌∷◌, length, slice_index};

use std::marker::Model;

/// The numbers of states of images, one for each of the horizons 1, 2, 4, ..: 1 to 13 of them, seen as
/// their list.
#[derive(Clone, Copy, Debug)]
pub struct Sizes {
    values: [u32; 13],
    len: u8,
}

impl Model for Sizes {
    ghost use Rattle.std.specs.Prelude.{◌≡◌, ℕ, ◌-◌, ◌<◌, ◌≤◌, ◌++◌, List, length, take, drop, replicate};

    ghost Value = { List ℕ };

    ghost view = { λ s. take s.len s.values };

    ghost invariant = { λ s. (1 ≤ s.len) × (s.len ≤ 13) × (length s.values ≡ 13) × (drop s.len s.values ≡ replicate (13 - s.len) 0) };

    ghost inverse = { λ xs. record { values = xs ++ replicate (13 - length xs) 0; len = length xs } };

    ghost use Rattle.psi_exact.specs.Inner.ArraysKept.{padded};

    ghost inverse_ok = { λ a h. padded a.values a.len h.1 h.2 h.3 };
}

impl Sizes {
    // The list of one size.
    pub(crate) fn one(size: u32) -> Sizes
        ensures { result ≡ size ∷ [] }
    {
        let mut values = [0; 13];
        values[0] = size;
        Sizes { values, len: 1 }
    }

    // One size more, where there is room.
    pub(crate) fn push(&mut self, size: u32)
        requires { length self.old < 13 }
        ensures { self.new ≡ self.old ++ size ∷ [] }
    {
        self.values[self.len as usize] = size;
        self.len += 1;
    }

    /// Returns the number of sizes, 1 to 13.
    pub fn len(&self) -> u8
        ensures value { result ≡ length self.now }
        ensures some { 1 ≤ result }
        ensures most { result ≤ 13 }
    {
        self.len
    }

    /// Returns the size of the image of the horizon 2 to the power `i`, in states.
    pub fn get(&self, i: u8) -> u32
        requires { i < length self.now }
        ensures { result ≡ slice_index self.now i }
    {
        self.values[i as usize]
    }
}
