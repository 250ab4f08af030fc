//! The lists of a set of packed states.
//!
//! A list of states with repeats stands for its set as well, so an event moves each state. Repeats
//! are taken out now and then.

ghost use Rattle.std.specs.Prelude.{◌≡◌, ◌*◌, ◌<◌, ◌≤◌, ◌⊎◌, ◌∷◌, [], ℕ, IfOk, MatchOption, length, drop, slice_index, slice_index_or, EachIndex};
ghost use Rattle.psi_state.specs.State.{IsBelow, box};
ghost use Rattle.psi_state.specs.Ascending.{HaveSame};
ghost use Rattle.psi_follow_packed.specs.Packed.{packed};
ghost use Rattle.psi_follow_sets.specs.Inner.HalvesKept.{AreAll, AreTwo};
ghost use Rattle.psi_follow_sets.specs.Room.{held, AreLists};
ghost use Rattle.psi_follow_sets.specs.Inner.HoldingKept.{Holds, AreMoved};

use crate::gathering::{gather, only, pair_up};
use crate::moving::{follow_one, step_first};
use psi_follow_packed::{MaskProgram, Packed, PackedPair};
use psi_pool::Pace;
use psi_state::Bounds;
use std::alloc::{AllocError, Global};

/// Packed states side by side, and room for them one after another.
#[derive(Drop)]
pub(crate) struct Lists<const K: usize> {
    // The pairs in use are the first `used`.
    pub(crate) pairs: Vec<PackedPair<K>>,
    pub(crate) used: usize,
    pub(crate) states: Vec<Packed<K>>,
    // For the high bits of a hash, from the bit `shift` on, where a state that has it may stand.
    pub(crate) seen: Vec<u16>,
    pub(crate) shift: u8,
}

impl<const K: usize> Lists<K> {
    /// Reserves space for `most` states, 1 to 4,096. `AllocError` if an allocation fails, or where a state has more
    /// than 32 words, as no packed state has.
    pub(crate) fn reserve(alloc: Global, most: u16) -> Result<Lists<K>, AllocError>
        requires least { 1 ≤ most }
        requires most { most ≤ 4096 }
        ensures lists { IfOk result (λ lists. AreLists lists) }
        ensures room { IfOk result (λ lists. most ≤ length lists.states.items) }
    {
        if K > 32 {
            return Err(AllocError);
        }
        let bits = bits_for(most);
        let pairs = (most + 1) / 2;
        let zero = Packed::zero();
        Ok(Lists {
            pairs: filled(alloc, PackedPair::of(&zero, &zero), pairs)?,
            used: 0,
            states: filled(alloc, zero, 2 * pairs)?,
            seen: filled(alloc, 0, 1 << bits)?,
            shift: 64 - bits,
        })
    }

    /// Puts the states of the box into the list.
    pub(crate) fn fill(&mut self, program: &MaskProgram<K>, bounds: &Bounds)
        requires lists { AreLists self.old }
        requires room { length (box bounds.now.lo bounds.now.hi) ≤ length self.old.states.items }
        requires within { IsBelow bounds.now.hi program.now.packing.caps }
        ensures lists { AreLists self.new }
        ensures holds { Holds K program.now.packing (held self.new) (box bounds.now.lo bounds.now.hi) }
        ensures room { length self.new.states.items ≡ length self.old.states.items }
        ensures some { 1 ≤ self.new.used }
    {
        let count = program.pack_box(bounds, self.states.as_mut_slice());
        self.used = pair_up(&self.states[..count], self.pairs.as_mut_slice());
    }

    /// Puts what the events of these numbers make of each state in its place: the last number's
    /// event comes first.
    pub(crate) fn follow(&mut self, program: &MaskProgram<K>, numbers: &[u16])
        requires lists { AreLists self.old }
        requires numbers { EachIndex numbers.now (λ i. slice_index numbers.now i < length program.now.moves) }
        requires some { 1 ≤ self.old.used }
        ensures { AreMoved program.now numbers.now self.old self.new }
    {
        let left = self.follow_apart(program, numbers);
        if left > 0 {
            follow_one(program, &numbers[..left], self.pairs.as_mut_slice());
        }
    }

    // As `follow`, until one pair is left. Returns how many numbers are left then: the first ones.
    fn follow_apart(&mut self, program: &MaskProgram<K>, numbers: &[u16]) -> usize
        requires lists { AreLists self.old }
        requires numbers { EachIndex numbers.now (λ i. slice_index numbers.now i < length program.now.moves) }
        requires some { 1 ≤ self.old.used }
        ensures moved { AreMoved program.now (drop result numbers.now) self.old self.new }
        ensures left { result ≤ length numbers.now }
        ensures done { (result ≡ 0) ⊎ (self.new.used ≡ 1) }
    {
        let mut pace = Pace::start();
        let mut left = numbers.len();
        while left > 0 && self.used > 1 {
            left -= 1;
            self.advance(program, numbers[left], &mut pace);
        }
        left
    }

    // Puts what the event of this number makes of each state in its place, and takes repeats out
    // where it is time to.
    fn advance(&mut self, program: &MaskProgram<K>, number: u16, pace: &mut Pace)
        requires lists { AreLists self.old }
        requires number { number < length program.now.moves }
        requires some { 1 ≤ self.old.used }
        ensures { AreMoved program.now (number ∷ []) self.old self.new }
    {
        self.step(program, number);
        if pace.is_due() {
            self.thin(pace);
        }
    }

    // Puts what the event of this number makes of each state in its place.
    fn step(&mut self, program: &MaskProgram<K>, number: u16)
        requires lists { AreLists self.old }
        requires number { number < length program.now.moves }
        requires some { 1 ≤ self.old.used }
        ensures { AreMoved program.now (number ∷ []) self.old self.new }
    {
        step_first(program, number, self.pairs.as_mut_slice(), self.used);
    }

    // Takes states out that are seen to stand twice, and lets the pace know how many pairs there
    // were and are.
    fn thin(&mut self, pace: &mut Pace)
        requires lists { AreLists self.old }
        requires some { 1 ≤ self.old.used }
        ensures lists { AreLists self.new }
        ensures members { HaveSame (held self.new) (held self.old) }
        ensures room { length self.new.states.items ≡ length self.old.states.items }
        ensures some { 1 ≤ self.new.used }
    {
        let before = self.used as u16;
        let count = gather(
            &self.pairs[..self.used],
            self.seen.as_mut_slice(),
            self.shift,
            self.states.as_mut_slice(),
        );
        self.used = pair_up(&self.states[..count], self.pairs.as_mut_slice());
        pace.adapt(before, self.used as u16);
    }

    /// The packed state that all are, where all are one.
    pub(crate) fn only(&self) -> Option<Packed<K>>
        requires lists { AreLists self.now }
        requires some { 1 ≤ self.now.used }
        ensures { MatchOption result (AreTwo (held self.now)) (λ x. AreAll x.words (held self.now)) }
    {
        only(&self.pairs[..self.used])
    }
}

// The bits of a place among at least two slots for each of `most` states.
fn bits_for(most: u16) -> u8
    requires least { 1 ≤ most }
    requires most { most ≤ 4096 }
    ensures some { 1 ≤ result }
    ensures few { result ≤ 13 }
{
    16 - (2 * most - 1).leading_zeros() as u8
}

// As many elements as `count`, each of them this one.
fn filled<T: Copy>(alloc: Global, element: T, count: u16) -> Result<Vec<T>, AllocError>
    ensures count { IfOk result (λ elements. length elements.items ≡ count) }
    ensures each { IfOk result (λ elements. (i : ℕ) → i < count → slice_index_or elements.items i element ≡ element) }
{
    let mut elements = Vec::with_capacity(alloc, count as usize)?;
    for _place in 0..count {
        elements.push_reserved(element);
    }
    Ok(elements)
}
