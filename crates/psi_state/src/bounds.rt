//! A box of states: all states between two corners.

ghost use Rattle.std.specs.Prelude.{◌≡◌, ◌==◌, ◌&&◌, if◌then◌else◌, ℕ, ◌+◌, ◌-◌, ◌<◌, ◌≤◌, ◌↔◌, suc, IsTrue, MatchOption, length, slice_get, slice_index, slice_set};
ghost use Rattle.std.specs.Int.{bit_at};
ghost use Rattle.psi_state.specs.State.{IsBelow, box, zeros};
ghost use Rattle.psi_state.specs.Members.{In, AreAmong};

use crate::State;
use std::marker::Model;

/// A box of states, kept as its two corners of one length: the states that are componentwise at least
/// the lower corner and at most the upper one (Bušić, Gaujal and Vincent 2008).
///
/// The lower corner is componentwise at most the upper one, so a box has at least one state.
#[derive(Clone, Copy, PartialEq, Eq, Debug)]
pub struct Bounds {
    lo: State,
    hi: State,
}

impl Model for Bounds {
    ghost use Rattle.psi_state.specs.State.{Corners, IsBelow};

    ghost Value = { Corners };

    ghost view = { λ b. record { lo = b.lo; hi = b.hi } };

    ghost invariant = { λ b. IsBelow b.lo b.hi };

    ghost inverse = { λ c. record { lo = c.lo; hi = c.hi } };
}

impl Bounds {
    /// Returns the box from `lo` to `hi`, both included.
    pub fn new(lo: State, hi: State) -> Bounds
        requires { IsBelow lo hi }
        ensures { result ≡ record { lo = lo; hi = hi } }
    {
        Bounds { lo, hi }
    }

    /// Returns the box of all states of the capacities `caps`: from no customer at all to full queues.
    pub fn whole(caps: &State) -> Bounds
        ensures { result ≡ record { lo = zeros caps.now; hi = caps.now } }
    {
        Bounds {
            lo: State::zero(caps.len()),
            hi: *caps,
        }
    }

    /// Returns the number of queues, 1 to 32.
    ///
    /// Its other clauses are how a caller learns what every `Bounds` keeps.
    pub fn len(&self) -> u8
        ensures value { result ≡ length self.now.lo }
        ensures few { length self.now.lo ≤ 32 }
        ensures some { 1 ≤ length self.now.lo }
        ensures ordered { IsBelow self.now.lo self.now.hi }
    {
        self.lo.len()
    }

    /// Returns the least number of customers that queue `i` holds in the box; queues are counted from 0.
    pub fn least(&self, i: u8) -> u16
        requires { i < length self.now.lo }
        ensures value { result ≡ slice_index self.now.lo i }
        ensures ordered { slice_index self.now.lo i ≤ slice_index self.now.hi i }
    {
        self.lo.get(i)
    }

    /// Returns the greatest number of customers that queue `i` holds in the box; queues are counted from 0.
    pub fn greatest(&self, i: u8) -> u16
        requires { i < length self.now.lo }
        ensures value { result ≡ slice_index self.now.hi i }
        ensures ordered { slice_index self.now.lo i ≤ slice_index self.now.hi i }
    {
        self.hi.get(i)
    }

    /// Lets queue `i` hold from `least` to `greatest` customers, and leaves the other queues as they are.
    pub fn set(&mut self, i: u8, least: u16, greatest: u16)
        requires place { i < length self.old.lo }
        requires ordered { least ≤ greatest }
        ensures { self.new ≡ record { lo = slice_set self.old.lo i least; hi = slice_set self.old.hi i greatest } }
    {
        self.lo.set(i, least);
        self.hi.set(i, greatest);
    }

    /// Returns the lower corner: the least number of customers of each queue.
    pub fn lo(&self) -> State
        ensures value { result ≡ self.now.lo }
        ensures ordered { IsBelow self.now.lo self.now.hi }
    {
        self.lo
    }

    /// Returns the upper corner: the greatest number of customers of each queue.
    pub fn hi(&self) -> State
        ensures value { result ≡ self.now.hi }
        ensures ordered { IsBelow self.now.lo self.now.hi }
    {
        self.hi
    }

    /// Returns whether `x` is one of the states of the box.
    pub fn holds(&self, x: &State) -> bool
        requires { length x.now ≡ length self.now.lo }
        ensures { IsTrue result ↔ In x.now (box self.now.lo self.now.hi) }
    {
        self.lo.leq(x) && x.leq(&self.hi)
    }

    /// Returns whether each state of this box is one of `other`'s.
    pub fn within(&self, other: &Bounds) -> bool
        requires { length self.now.lo ≡ length other.now.lo }
        ensures { IsTrue result ↔ AreAmong (box self.now.lo self.now.hi) (box other.now.lo other.now.hi) }
    {
        other.lo.leq(&self.lo) && self.hi.leq(&other.hi)
    }

    /// Returns the queues whose least or greatest number of customers is another in `other`, as bits: bit `i` is 1
    /// where that of queue `i` is, and all others are 0.
    pub fn apart(&self, other: &Bounds) -> u32
        ensures { (i : ℕ) → bit_at result i ≡ (if slice_index self.now.lo i == slice_index other.now.lo i && slice_index self.now.hi i == slice_index other.now.hi i then 0 else 1) }
    {
        let (lo, hi) = (self.lo.padded(), self.hi.padded());
        let (others_lo, others_hi) = (other.lo.padded(), other.hi.padded());
        // Nothing is left out, so that the compiler compares several numbers at once.
        let mut apart: u32 = 0;
        for i in 0..32 {
            if (lo[i] != others_lo[i]) | (hi[i] != others_hi[i]) {
                apart |= 1 << i;
            }
        }
        apart
    }

    /// Returns the number of states of the box where it is at most `most`, and `None` exactly where it is above.
    ///
    /// It gives up as soon as the number is known to be above `most`, and lists no state.
    pub fn volume_at_most(&self, most: u32) -> Option<u32>
        ensures { MatchOption result (most < length (box self.now.lo self.now.hi)) (λ count. (count ≡ length (box self.now.lo self.now.hi)) × (count ≤ most)) }
    {
        let mut count: u64 = 1;
        for place in 0..self.len() {
            count *= self.width(place) as u64;
            if count > most as u64 {
                return None;
            }
        }
        Some(count as u32)
    }

    /// Returns the place of `x` in the lexicographic list of the states of the box; places are counted from 0.
    pub fn rank(&self, x: &State) -> u32
        requires few { length (box self.now.lo self.now.hi) ≤ 65536 }
        requires member { In x.now (box self.now.lo self.now.hi) }
        ensures within { result < length (box self.now.lo self.now.hi) }
        ensures place { slice_get (box self.now.lo self.now.hi) result ≡ Some x.now }
    {
        let mut rank: u32 = 0;
        for place in 0..self.len() {
            rank = rank * self.width(place) + self.offset(x, place);
        }
        rank
    }

    /// Returns the state at place `r` of the lexicographic list of the states of the box; places are counted
    /// from 0.
    pub fn unrank(&self, r: u32) -> State
        requires { r < length (box self.now.lo self.now.hi) }
        ensures { slice_get (box self.now.lo self.now.hi) r ≡ Some result }
    {
        let lo = self.lo();
        let mut x = lo;
        let mut left = r;
        for place in (0..self.len()).rev() {
            let width = self.width(place);
            x.set(place, lo.get(place) + (left % width) as u16);
            left /= width;
        }
        x
    }

    // How far `x` is above the lower corner at a place.
    fn offset(&self, x: &State, place: u8) -> u32
        requires within { place < length self.now.lo }
        requires member { In x.now (box self.now.lo self.now.hi) }
        ensures { result ≡ slice_index x.now place - slice_index self.now.lo place }
    {
        (x.get(place) - self.lo.get(place)) as u32
    }

    // How many numbers of customers a queue can hold in the box.
    fn width(&self, place: u8) -> u32
        requires { place < length self.now.lo }
        ensures value { result ≡ suc (slice_index self.now.hi place) - slice_index self.now.lo place }
        ensures some { 1 ≤ result }
        ensures few { result ≤ 65536 }
        ensures most { slice_index self.now.hi place < 65536 }
    {
        (self.hi.get(place) - self.lo.get(place)) as u32 + 1
    }
}
