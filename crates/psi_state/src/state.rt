//! A state: how many customers each queue holds.

ghost use Rattle.std.specs.Prelude.{◌≡◌, ◌==◌, ℕ, ◌+◌, ◌*◌, ◌≤◌, ◌<◌, ◌↔◌, IsTrue, length, replicate, slice_index, slice_set};
ghost use Rattle.std.proofs.Common.{rules};
ghost use Rattle.std.specs.Cmp.{partial_order_from_own_ties};
ghost use Rattle.std.specs.Cmp.Rules.{comparing};
ghost use Rattle.std.specs.Cmp.Lexicographic.{pointwise, slice_cmp};
ghost use Rattle.std.specs.Ordering.{nat_cmp, as_partial_cmp};
ghost use Rattle.psi_state.specs.State.{IsVector, IsBelow};
ghost use Rattle.psi_state.specs.Hashing.{quad, number_in, mixed, hash};

use std::cmp::Ordering;
use std::fmt;
use std::marker::Model;

// The odd number nearest to 2^64 over the golden ratio: products with it differ in their high bits
// (multiplicative hashing, Knuth, The Art of Computer Programming, volume 3, section 6.4).
const MULTIPLIER: u64 = 11_400_714_819_323_198_485;

/// How many customers each queue of a network holds: 1 to 32 numbers of 16 bits, one for each queue.
///
/// It is seen as the list of these numbers. `Eq` and `Ord` are those of the list, so the order is the
/// lexicographic one; the componentwise order is `leq`.
#[derive(Clone, Copy)]
pub struct State {
    values: [u16; 32],
    len: u8,
}

impl Model for State {
    ghost use Rattle.std.specs.Prelude.{◌≡◌, ℕ, ◌-◌, ◌<◌, ◌≤◌, ◌^◌, ◌++◌, List, length, take, drop, replicate, slice_index};

    ghost Value = { List ℕ };

    ghost view = { λ s. take s.len s.values };

    ghost invariant = { λ s. (1 ≤ s.len) × (s.len ≤ 32) × (length s.values ≡ 32) × (drop s.len s.values ≡ replicate (32 - s.len) 0) × ((i : ℕ) → slice_index s.values i < 2 ^ 16) };

    ghost inverse = { λ xs. record { values = xs ++ replicate (32 - length xs) 0; len = length xs } };

    ghost use Rattle.psi_state.specs.Inner.ArraysKept.{padded};

    ghost inverse_ok = { λ a h. padded a.values a.len h.1 h.2 h.3 };
}

// The numbers of four places side by side, from place 4 i on.
#[inline]
fn quad_of(numbers: &[u16], i: u8) -> u64
    requires { 4 * i + 3 < length numbers.now }
    ensures { result ≡ quad numbers.now i }
{
    let first = 4 * i as usize;
    let low = numbers[first] as u64 + 65_536 * numbers[first + 1] as u64;
    let high = numbers[first + 2] as u64 + 65_536 * numbers[first + 3] as u64;
    low + 4_294_967_296 * high
}

// The place, counted from 0, of the first numbers in which two quads differ.
#[inline]
fn first_apart(own: u64, others: u64) -> u32
    requires { own ≡ others → ⊥ }
    ensures place { result < 4 }
    ensures before { (k : ℕ) → k < result → number_in own k ≡ number_in others k }
    ensures apart { number_in own result ≡ number_in others result → ⊥ }
{
    (own ^ others).trailing_zeros() / 16
}

// The number at a place of a quad, counted from 0.
#[inline]
fn number_at(quad: u64, place: u32) -> u64
    requires { place < 4 }
    ensures { result ≡ number_in quad place }
{
    (quad >> (16 * place)) % 65_536
}

impl State {
    /// Returns the state of `len` queues that hold no customer.
    pub fn zero(len: u8) -> State
        requires some { 1 ≤ len }
        requires few { len ≤ 32 }
        ensures { result ≡ replicate len 0 }
    {
        State {
            values: [0; 32],
            len,
        }
    }

    /// Returns the number of queues, 1 to 32.
    ///
    /// Its second clause is how a caller learns what every `State` keeps: the range of its length and
    /// of its numbers.
    pub fn len(&self) -> u8
        ensures value { result ≡ length self.now }
        ensures vector { IsVector self.now }
    {
        self.len
    }

    /// Returns the number of customers in queue `i`; queues are counted from 0.
    pub fn get(&self, i: u8) -> u16
        requires { i < length self.now }
        ensures { result ≡ slice_index self.now i }
    {
        self.values[i as usize]
    }

    /// Lets queue `i` hold `v` customers, and leaves the other queues as they are.
    pub fn set(&mut self, i: u8, v: u16)
        requires { i < length self.old }
        ensures { self.new ≡ slice_set self.old i v }
    {
        self.values[i as usize] = v;
    }

    /// Returns whether each queue holds at most as many customers here as it does in `other`: the
    /// componentwise order of states.
    pub fn leq(&self, other: &State) -> bool
        requires { length self.now ≡ length other.now }
        ensures { IsTrue result ↔ IsBelow self.now other.now }
    {
        // Past the last queue both have zeros. All numbers are looked at, so that the compiler compares several at once.
        let (own, most) = (self.values, other.values);
        let mut above = 0;
        for i in 0..32 {
            above |= own[i].saturating_sub(most[i]);
        }
        above == 0
    }

    /// Returns whether these are its numbers, one for each queue.
    #[inline]
    pub fn is_row(&self, row: &[u16]) -> bool
        ensures { IsTrue result ↔ (row.now ≡ self.now) }
    {
        let queues = self.len();
        if row.len() != queues as usize {
            return false;
        }
        let quads = queues / 4;
        self.begins_as(row, quads) && self.ends_as(row, 4 * quads)
    }

    // Whether the first `quads` quads of a row are its own.
    #[inline]
    fn begins_as(&self, row: &[u16], quads: u8) -> bool
        requires few { quads ≤ 8 }
        requires row { 4 * quads ≤ length row.now }
        ensures { IsTrue result ↔ ((i : ℕ) → i < quads → quad row.now i ≡ quad self.now i) }
    {
        for i in 0..quads {
            if quad_of(row, i) != self.quad(i) {
                return false;
            }
        }
        true
    }

    // Whether the numbers of a row from a queue on are its own.
    #[inline]
    fn ends_as(&self, row: &[u16], first: u8) -> bool
        requires { length row.now ≡ length self.now }
        ensures { IsTrue result ↔ ((i : ℕ) → first ≤ i → i < length self.now → slice_index row.now i ≡ slice_index self.now i) }
    {
        for i in first..self.len {
            if row[i as usize] != self.values[i as usize] {
                return false;
            }
        }
        true
    }

    /// Returns a hash of 32 bits for tables of states: equal states have equal hashes. It is made by multiplication
    /// (Knuth, The Art of Computer Programming, volume 3, section 6.4).
    #[tactic(auto, unfolding(crate::specs::Hashing::hash))]
    pub fn hash(&self) -> u32
        ensures { result ≡ hash self.now }
    {
        if self.len() <= 8 {
            return (self.mixed(2) >> 32) as u32;
        }
        (self.mixed(8) >> 32) as u32
    }

    // The product of the first `quads` quads. Callers pass a constant, so that the compiler unrolls the loop.
    #[inline]
    fn mixed(&self, quads: u8) -> u64
        requires { quads ≤ 8 }
        ensures { result ≡ mixed self.now quads }
    {
        let mut product: u64 = 0;
        for i in 0..quads {
            product = product.wrapping_add(self.quad(i)).wrapping_mul(MULTIPLIER);
        }
        product
    }

    // Whether the first `quads` quads are the same. Callers pass a constant, so that the compiler unrolls the loop.
    #[inline]
    fn has_quads_of(&self, other: &State, quads: u8) -> bool
        requires { quads ≤ 8 }
        ensures { IsTrue result ↔ ((i : ℕ) → i < quads → quad self.now i ≡ quad other.now i) }
    {
        for i in 0..quads {
            if self.quad(i) != other.quad(i) {
                return false;
            }
        }
        true
    }

    // The numbers of four queues side by side, from queue 4 i on; past the last queue they are 0.
    fn quad(&self, i: u8) -> u64
        requires { i < 8 }
        ensures { result ≡ quad self.now i }
    {
        quad_of(&self.values, i)
    }

    /// The numbers, one for each queue, and zeros after them.
    #[inline]
    pub(crate) fn padded(&self) -> [u16; 32]
        ensures { (i : ℕ) → slice_index result i ≡ slice_index self.now i }
    {
        self.values
    }

    // The numbers, one for each queue.
    fn as_slice(&self) -> &[u16]
        ensures { result.now ≡ self.now }
    {
        &self.values[..self.len as usize]
    }
}

impl PartialEq for State {
    ghost eq = { pointwise ◌==◌ };

    ghost laws = { Prim.search (comparing, rules) };

    fn eq(&self, other: &State) -> bool {
        if self.len() != other.len() {
            return false;
        }
        if self.len() <= 8 {
            return self.has_quads_of(other, 2);
        }
        self.has_quads_of(other, 8)
    }
}

impl Eq for State {
    ghost laws = { Prim.search (comparing, rules) };
}

impl PartialOrd for State {
    ghost partial_cmp = { as_partial_cmp (slice_cmp nat_cmp) };

    ghost laws = { partial_order_from_own_ties (Prim.search (comparing, rules)) (Prim.search (comparing, rules)) };

    fn partial_cmp(&self, other: &State) -> Option<Ordering> {
        Some(self.cmp(other))
    }
}

impl Ord for State {
    ghost cmp = { slice_cmp nat_cmp };

    ghost total = { Prim.search (comparing, rules) };

    ghost matches_partial_cmp = { Prim.search (comparing, rules) };

    ghost matches_eq = { Prim.search (comparing, rules) };

    fn cmp(&self, other: &State) -> Ordering {
        if self.len() != other.len() {
            return self.as_slice().cmp(other.as_slice());
        }
        for i in 0..8 {
            let (own, others) = (self.quad(i), other.quad(i));
            if own != others {
                let place = first_apart(own, others);
                return number_at(own, place).cmp(&number_at(others, place));
            }
        }
        Ordering::Equal
    }
}

impl fmt::Debug for State {
    fn fmt<W: fmt::Write>(&self, f: &mut fmt::Formatter<W>) -> fmt::Result {
        self.as_slice().fmt(f)
    }
}
