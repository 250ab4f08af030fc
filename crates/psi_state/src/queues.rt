//! A short list of queue numbers.

ghost use Rattle.std.specs.Prelude.{◌≡◌, ◌==◌, ◌<◌, [], ◌∷◌, ◌++◌, length, slice_index};
ghost use Rattle.std.proofs.Common.{rules};
ghost use Rattle.std.specs.Cmp.Rules.{comparing};
ghost use Rattle.std.specs.Cmp.Lexicographic.{pointwise};
ghost use Rattle.std.specs.Prelude.{drop, nat_eq};
ghost use Rattle.std.specs.List.{list_any};
ghost use Rattle.psi_state.specs.State.{AreQueueNumbers};
ghost use Rattle.psi_state.specs.Repeats.{repeats};

use std::fmt;
use std::marker::Model;

/// The queues that an event names, in its order: at most 32 queue numbers, seen as a list.
///
/// Queues are counted from 0. A number may stand twice, and none is compared with the number of queues
/// of a network.
#[derive(Clone, Copy)]
pub struct Queues {
    items: [u8; 32],
    len: u8,
}

impl Model for Queues {
    ghost use Rattle.std.specs.Prelude.{◌≡◌, ℕ, ◌-◌, ◌<◌, ◌≤◌, ◌^◌, ◌++◌, List, length, take, drop, replicate, slice_index};

    ghost Value = { List ℕ };

    ghost view = { λ q. take q.len q.items };

    ghost invariant = { λ q. (q.len ≤ 32) × (length q.items ≡ 32) × (drop q.len q.items ≡ replicate (32 - q.len) 0) × ((i : ℕ) → slice_index q.items i < 2 ^ 8) };

    ghost inverse = { λ xs. record { items = xs ++ replicate (32 - length xs) 0; len = length xs } };

    ghost use Rattle.psi_state.specs.Inner.ArraysKept.{padded_queues};

    ghost inverse_ok = { λ a h. padded_queues a.items a.len h.0 h.1 h.2 };
}

impl Queues {
    /// Returns the empty list.
    pub fn empty() -> Queues
        ensures { result ≡ [] }
    {
        Queues {
            items: [0; 32],
            len: 0,
        }
    }

    /// Puts queue `q` at the end of the list.
    pub fn push(&mut self, q: u8)
        requires { length self.old < 32 }
        ensures { self.new ≡ self.old ++ q ∷ [] }
    {
        self.items[self.len as usize] = q;
        self.len += 1;
    }

    /// Returns the number of queues in the list, 0 to 32.
    ///
    /// Its second clause is how a caller learns what every `Queues` keeps.
    pub fn len(&self) -> u8
        ensures value { result ≡ length self.now }
        ensures numbers { AreQueueNumbers self.now }
    {
        self.len
    }

    /// Returns the queue at place `i` of the list; places are counted from 0.
    pub fn get(&self, i: u8) -> u8
        requires { i < length self.now }
        ensures { result ≡ slice_index self.now i }
    {
        self.items[i as usize]
    }

    /// Returns whether queue `q` stands in the list.
    pub fn contains(&self, q: u8) -> bool
        ensures { result ≡ list_any (λ p. nat_eq p q) self.now }
    {
        self.contains_from(0, q)
    }

    /// Returns whether some queue stands twice in the list.
    pub fn repeats(&self) -> bool
        ensures { result ≡ repeats self.now }
    {
        for i in 0..self.len() {
            if self.contains_from(i + 1, self.get(i)) {
                return true;
            }
        }
        false
    }

    // Whether queue `q` stands in the list at a place from `first` on.
    fn contains_from(&self, first: u8, q: u8) -> bool
        ensures { result ≡ list_any (λ p. nat_eq p q) (drop first self.now) }
    {
        for i in first..self.len() {
            if self.get(i) == q {
                return true;
            }
        }
        false
    }

    // The numbers, one after another.
    fn as_slice(&self) -> &[u8]
        ensures { result.now ≡ self.now }
    {
        &self.items[..self.len as usize]
    }
}

impl PartialEq for Queues {
    ghost eq = { pointwise ◌==◌ };

    ghost laws = { Prim.search (comparing, rules) };

    fn eq(&self, other: &Queues) -> bool {
        self.as_slice() == other.as_slice()
    }
}

impl Eq for Queues {
    ghost laws = { Prim.search (comparing, rules) };
}

impl fmt::Debug for Queues {
    fn fmt<W: fmt::Write>(&self, f: &mut fmt::Formatter<W>) -> fmt::Result {
        self.as_slice().fmt(f)
    }
}
