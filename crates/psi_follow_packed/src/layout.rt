//! How states are packed.

ghost use Rattle.std.specs.Prelude.{◌≡◌, ◌-◌, ◌+◌, ◌<◌, ◌≤◌, ◌*◌, ◌^◌, ℕ, List, length, map, slice_index, IfSome, IfNone, EachIndex};
ghost use Rattle.psi_state.specs.State.{AreCapacities, IsBelow};
ghost use Rattle.psi_follow_packed.specs.Packed.{packed, LeavesFree};
ghost use Rattle.psi_follow_packed.specs.Moves.{guard, mark_of, guard_of, wanted_of};

use psi_event::{Side, Sides};
use psi_state::State;
use std::marker::Model;

/// A state as `K` words: the number of each queue stands in a field of its own.
#[derive(Clone, Copy)]
pub struct Packed<const K: usize> {
    pub(crate) words: [u64; K],
}

/// How the states of a network are packed into `K` words: a field has as many bits as the greatest capacity needs
/// and one more, 2 at the least, and each word has as many fields as it holds.
///
/// It is seen as the capacities, the fields of a word and the bits of a field.
#[derive(Drop)]
pub struct Layout<const K: usize> {
    caps: State,
    fields: u8,
    bits: u8,
}

impl<const K: usize> Model for Layout<K> {
    ghost use Rattle.psi_follow_packed.specs.Packed.{Packing, IsPacking};

    ghost Value = { Packing };

    ghost view = { λ l. record { caps = l.caps; fields = l.fields; bits = l.bits } };

    ghost invariant = { λ l. IsPacking K (record { caps = l.caps; fields = l.fields; bits = l.bits }) };
}

impl<const K: usize> Layout<K> {
    ghost use Rattle.psi_follow_packed.specs.Packed.{Packing, IsPacking};

    /// How states of these capacities are packed; `None` where `K` words have too few fields for them, a capacity
    /// is above 32,767, or `K` is above 32: there is no packing then.
    pub fn new(caps: State) -> Option<Layout<K>>
        requires { AreCapacities caps }
        ensures caps { IfSome result (λ layout. layout.caps ≡ caps) }
        ensures valid { IfSome result (λ layout. IsPacking K layout) }
        ensures refused { IfNone result ((p : Packing) → p.caps ≡ caps → IsPacking K p → ⊥) }
    {
        let bits = bits_of(&caps);
        if K > 32 || bits > 16 {
            return None;
        }
        let fields = 64 / bits;
        if caps.len() as usize > K * fields as usize {
            return None;
        }
        Some(Layout { caps, fields, bits })
    }

    /// Returns the state as words. It is within the capacities.
    pub fn pack(&self, x: &State) -> Packed<K>
        requires { IsBelow x.now self.now.caps }
        ensures { result.words ≡ packed K self.now x.now }
    {
        // Called for its clause: the capacities leave the guards free.
        let _caps = self.caps();
        self.pack_numbers(x)
    }

    // Numbers below 2 to the power of a field's bits as words, one for each queue.
    fn pack_numbers(&self, x: &State) -> Packed<K>
        requires length { length x.now ≡ length self.now.caps }
        requires fit { EachIndex x.now (λ q. slice_index x.now q < 2 ^ self.now.bits) }
        ensures { result.words ≡ packed K self.now x.now }
    {
        let mut words = [0; K];
        for at in 0..K {
            words[at] = self.word(x, at);
        }
        Packed { words }
    }

    // The word at this place.
    fn word(&self, x: &State, at: usize) -> u64
        requires place { at < K }
        requires length { length x.now ≡ length self.now.caps }
        requires fit { EachIndex x.now (λ q. slice_index x.now q < 2 ^ self.now.bits) }
        ensures { result ≡ slice_index (packed K self.now x.now) at }
    {
        let first = at * self.fields as usize;
        let mut word = 0;
        for done in 0..self.fields {
            let queue = first + (self.fields - 1 - done) as usize;
            if queue < self.caps.len() as usize {
                word = (word << self.bits) + x.get(queue as u8) as u64;
            }
        }
        word
    }

    /// Returns the state that is packed in the words.
    pub fn unpack(&self, words: &Packed<K>) -> State
        ensures { (x : List ℕ) → IsBelow x self.now.caps → words.now.words ≡ packed K self.now x → result ≡ x }
    {
        let mut x = State::zero(self.caps.len());
        let mut at = 0;
        let mut field = 0;
        for queue in 0..self.caps.len() {
            x.set(queue, self.number(words, at, field));
            field += 1;
            if field == self.fields {
                field = 0;
                at += 1;
            }
        }
        x
    }

    // The number in this field of the word at this place.
    #[inline]
    fn number(&self, words: &Packed<K>, at: usize, field: u8) -> u16
        requires place { at < K }
        requires field { field < self.now.fields }
        ensures { (x : List ℕ) → IsBelow x self.now.caps → words.now.words ≡ packed K self.now x → result ≡ slice_index x (at * self.now.fields + field) }
    {
        let shift = field * self.bits;
        ((words.words[at] >> shift) & ((1 << self.bits) - 1)) as u16
    }

    /// Returns the capacities, in customers.
    pub fn caps(&self) -> State
        ensures value { result ≡ self.now.caps }
        ensures valid { IsPacking K self.now }
    {
        self.caps
    }

    // The bits of a field.
    #[inline]
    pub(crate) fn bits(&self) -> u8
        ensures value { result ≡ self.now.bits }
        ensures valid { IsPacking K self.now }
    {
        self.bits
    }

    // What brings up the guard of each queue that is at its bound or above it.
    pub(crate) fn offsets(&self, bounds: &State) -> Packed<K>
        requires { IsBelow bounds.now self.now.caps }
        ensures { result.words ≡ packed K self.now (map (λ v. guard self.now.bits - v) bounds.now) }
    {
        let guard = self.guard();
        let mut offsets = *bounds;
        for queue in 0..bounds.len() {
            offsets.set(queue, guard - bounds.get(queue));
        }
        self.pack_numbers(&offsets)
    }

    // The guards of the queues that are to be on a side.
    pub(crate) fn guards(&self, sides: &Sides) -> Packed<K>
        requires { length sides.now ≡ length self.now.caps }
        ensures { result.words ≡ packed K self.now (map (guard_of self.now.bits) sides.now) }
    {
        self.marks(sides, self.guard())
    }

    // The guards of the queues that are to be at their bounds or above them.
    pub(crate) fn wanted(&self, sides: &Sides) -> Packed<K>
        requires { length sides.now ≡ length self.now.caps }
        ensures words { result.words ≡ packed K self.now (map (wanted_of self.now.bits) sides.now) }
        ensures valid { IsPacking K self.now }
    {
        self.marks(sides, 0)
    }

    // The guards of the queues that are to be at their bounds or above them, and for those that are to be below them a
    // number up to the guard.
    fn marks(&self, sides: &Sides, below: u16) -> Packed<K>
        requires length { length sides.now ≡ length self.now.caps }
        requires few { below ≤ guard self.now.bits }
        ensures words { result.words ≡ packed K self.now (map (mark_of (guard self.now.bits) below) sides.now) }
        ensures valid { IsPacking K self.now }
    {
        let mut marks = self.caps();
        for queue in 0..sides.len() {
            marks.set(queue, self.mark_of(sides.get(queue), below));
        }
        self.pack_numbers(&marks)
    }

    // The guard where a side asks for it up, and a number where it asks for it down.
    fn mark_of(&self, side: Side, below: u16) -> u16
        ensures { result ≡ mark_of (guard self.now.bits) below side }
    {
        match side {
            Side::Any => 0,
            Side::AtLeast => self.guard(),
            Side::Below => below,
        }
    }

    // The guard of a field.
    fn guard(&self) -> u16
        ensures value { result ≡ guard self.now.bits }
        ensures valid { IsPacking K self.now }
    {
        1 << (self.bits - 1)
    }
}

// How many bits a field has for these capacities, its guard included: as few as leave it free, but no fewer than 2.
fn bits_of(caps: &State) -> u8
    requires { AreCapacities caps.now }
    ensures some { 2 ≤ result }
    ensures few { result ≤ 17 }
    ensures free { LeavesFree caps.now result }
    ensures least { (bits : ℕ) → 2 ≤ bits → LeavesFree caps.now bits → result ≤ bits }
{
    let mut bits = 2;
    for queue in 0..caps.len() {
        let own = 17 - caps.get(queue).leading_zeros() as u8;
        if own > bits {
            bits = own;
        }
    }
    bits
}
