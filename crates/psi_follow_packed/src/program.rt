//! The events of a network, made ready for packed states.

ghost use Rattle.std.specs.Prelude.{◌≡◌, ◌<◌, ℕ, List, length, map, slice_index, slice_index_or, All, IfOk, IfSome, EachIndex, false};
ghost use Rattle.psi_state.specs.State.{IsBelow};
ghost use Rattle.psi_follow_packed.specs.Packed.{packed};
ghost use Rattle.psi_follow_packed.specs.Moves.{ChangesNothing, IsLowered, no_move};
ghost use Rattle.psi_follow_packed.specs.Programs.{Prepares, Follows, AllFollow};
ghost use Rattle.psi_follow_packed.specs.Views.{low_word, high_word, low_words, high_words, moving_by};

use crate::layout::{Layout, Packed};
use crate::moves::PackedEvent;
use crate::pairs::PackedPair;
use psi_event::PiecewiseLaw;
use psi_state::State;
use std::alloc::{AllocError, Global};
use std::marker::Model;

/// The events of a network whose states fit `K` words and whose events are all of pieces.
pub struct MaskProgram<const K: usize> {
    pub(crate) layout: Layout<K>,
    pub(crate) moves: Vec<PackedEvent<K>>,
    // Where it is true, no second piece changes a state.
    first_alone: bool,
}

impl<const K: usize> Model for MaskProgram<K> {
    ghost use Rattle.std.specs.Prelude.{map};
    ghost use Rattle.psi_follow_packed.specs.Programs.{Prepared, IsTwice};
    ghost use Rattle.psi_follow_packed.specs.Views.{low_word, high_word, moving_by};

    ghost Value = { Prepared };

    ghost view = { λ p. record { packing = p.layout; moves = map (moving_by low_word) p.moves.items } };

    ghost invariant = { λ p. IsTwice K p.layout (map (moving_by low_word) p.moves.items) (map (moving_by high_word) p.moves.items) p.first_alone };
}

// By hand, so that the end of a program is a call where it ends, and not all of its steps.
impl<const K: usize> Drop for MaskProgram<K> {
    fn drop(self) {
        let MaskProgram {
            layout: _,
            moves: _,
            first_alone: _,
        } = self;
    }
}

impl<const K: usize> MaskProgram<K> {
    /// Returns the events on states that are packed so; `None` where an event declares no pieces.
    ///
    /// # Errors
    ///
    /// `AllocError` if an allocation fails; no clause says when that is. No other call allocates.
    pub fn new<E: PiecewiseLaw>(
        alloc: Global,
        layout: Layout<K>,
        events: &[E],
    ) -> Result<Option<MaskProgram<K>>, AllocError>
        requires { All (λ e. E.capacities e ≡ layout.caps) events.now }
        ensures { IfOk result (λ program. IfSome program (λ p. Prepares K layout.entry.caps (map E.function events.now) p)) }
    {
        let mut moves = Vec::with_capacity(alloc, events.len())?;
        let mut first_alone = true;
        for event in events {
            let Some(pieces) = event.piecewise() else {
                return Ok(None);
            };
            let own = PackedEvent::of(&layout, &pieces);
            first_alone &= own.is_of_one_piece();
            moves.push_reserved(own);
        }
        Ok(Some(MaskProgram {
            layout,
            moves,
            first_alone,
        }))
    }

    /// Two states, packed. They are within the capacities.
    pub fn pack(&self, low: &State, high: &State) -> PackedPair<K>
        requires low { IsBelow low.now self.now.packing.caps }
        requires high { IsBelow high.now self.now.packing.caps }
        ensures low { low_words result ≡ packed K self.now.packing low.now }
        ensures high { high_words result ≡ packed K self.now.packing high.now }
    {
        PackedPair::of(&self.layout.pack(low), &self.layout.pack(high))
    }

    /// Returns the two states that are packed.
    pub fn unpack(&self, x: &PackedPair<K>) -> (State, State)
        ensures low { (s : List ℕ) → IsBelow s self.now.packing.caps → low_words x.now ≡ packed K self.now.packing s → result.0 ≡ s }
        ensures high { (s : List ℕ) → IsBelow s self.now.packing.caps → high_words x.now ≡ packed K self.now.packing s → result.1 ≡ s }
    {
        (self.layout.unpack(&x.low()), self.layout.unpack(&x.high()))
    }

    /// Returns a state, packed. It is within the capacities.
    pub fn pack_one(&self, x: &State) -> Packed<K>
        requires { IsBelow x.now self.now.packing.caps }
        ensures { result.words ≡ packed K self.now.packing x.now }
    {
        self.layout.pack(x)
    }

    /// Returns the state that is packed.
    pub fn unpack_one(&self, x: &Packed<K>) -> State
        ensures { (s : List ℕ) → IsBelow s self.now.packing.caps → x.now.words ≡ packed K self.now.packing s → result ≡ s }
    {
        self.layout.unpack(x)
    }

    // The event of a number.
    #[inline]
    pub(crate) fn event(&self, number: u16) -> &PackedEvent<K>
        requires { number < length self.now.moves }
        ensures low { moving_by low_word result.now ≡ slice_index_or self.now.moves number no_move }
        ensures high { moving_by high_word result.now ≡ slice_index_or self.now.moves number no_move }
        ensures lowered { IsLowered K (slice_index_or self.now.moves number no_move) }
    {
        &self.moves.as_slice()[number as usize]
    }

    /// Puts what the event of this number makes of each packed state of the list in its place.
    pub fn step(&self, number: u16, list: &mut [PackedPair<K>])
        requires number { number < length self.now.moves }
        ensures { AllFollow self.now number list.old list.new }
    {
        // Named for what it keeps: a pair has few words.
        let _layout = &self.layout;
        let event = self.event(number);
        if event.is_of_one_piece() {
            event.advance_all::<false>(list);
        } else {
            event.advance_all::<true>(list);
        }
    }

    /// Puts what the events of these numbers make of each of the two packed states in its place: the last number's event
    /// comes first.
    pub fn follow(&self, numbers: &[u16], x: &mut PackedPair<K>)
        requires numbers { EachIndex numbers.now (λ i. slice_index numbers.now i < length self.now.moves) }
        ensures low { Follows K self.now numbers.now (low_words x.old) (low_words x.new) }
        ensures high { Follows K self.now numbers.now (high_words x.old) (high_words x.new) }
    {
        if self.first_alone {
            self.follow_by::<false>(numbers, x);
        } else {
            self.follow_by::<true>(numbers, x);
        }
    }

    // The same by both pieces or, where no second piece changes a state, by the first ones alone. Where the words come from
    // and go to is kept out of the loop: each pair is then one register.
    #[inline(never)]
    fn follow_by<const BOTH: bool>(&self, numbers: &[u16], x: &mut PackedPair<K>)
        requires numbers { EachIndex numbers.now (λ i. slice_index numbers.now i < length self.now.moves) }
        requires alone { BOTH ≡ false → (i : ℕ) → i < length self.now.moves → ChangesNothing K (slice_index_or self.now.moves i no_move).second }
        ensures low { Follows K self.now numbers.now (low_words x.old) (low_words x.new) }
        ensures high { Follows K self.now numbers.now (high_words x.old) (high_words x.new) }
    {
        // Named for what it keeps: a pair has few words.
        let _layout = &self.layout;
        // In a variable of its own it stays in registers.
        let mut own = *x;
        for place in (0..numbers.len()).rev() {
            self.event(numbers[place]).advance_by::<BOTH>(&mut own);
        }
        *x = own;
    }
}
