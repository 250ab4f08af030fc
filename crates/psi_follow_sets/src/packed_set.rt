//! A set of packed states.

ghost use Rattle.std.specs.Prelude.{◌≡◌, ◌<◌, ◌≤◌, ℕ, List, IfOk, length, slice_index, EachIndex};
ghost use Rattle.psi_state.specs.State.{IsBelow, box};
ghost use Rattle.psi_state.specs.Sets.{image, single};
ghost use Rattle.psi_event.specs.Law.{Function};
ghost use Rattle.psi_event.specs.Numbers.{follow_numbers};
ghost use Rattle.psi_follow_packed.specs.Programs.{Prepares};

use crate::lists::Lists;
use psi_follow_packed::MaskProgram;
use psi_state::{Bounds, State};
use std::alloc::{AllocError, Global};
use std::marker::Model;

/// A set of packed states, moved by events of pieces, two states by one operation. It is seen as its room: the number of
/// states that it can take.
///
/// `reserve` allocates all its memory. The work of a step grows with the number of states, not with the room for them:
/// it moves each on. States that became one may stand several times until repeats are taken out, after 4 to 1,024
/// steps, in one pass over the states.
pub struct PackedSet<const K: usize> {
    lists: Lists<K>,
    most: u16,
}

impl<const K: usize> Model for PackedSet<K> {
    ghost use Rattle.std.specs.Prelude.{◌≤◌, length};
    ghost use Rattle.psi_follow_sets.specs.Room.{Room, AreLists};

    ghost Value = { Room };

    ghost view = { λ s. record { most = s.most } };

    ghost invariant = { λ s. AreLists s.lists × (s.most ≤ length s.lists.states.items) };
}

// By hand, so that the end of a set is a call where it ends, and not all of its steps.
impl<const K: usize> Drop for PackedSet<K> {
    fn drop(self) {
        let PackedSet { lists: _, most: _ } = self;
    }
}

impl<const K: usize> PackedSet<K> {
    /// Reserves space for `most` states: 1 to 4,096. No other call allocates.
    ///
    /// # Errors
    ///
    /// `AllocError` if an allocation fails, or a state has more than 32 words, as no packed state has; no clause
    /// says when that is.
    pub fn reserve(alloc: Global, most: u16) -> Result<PackedSet<K>, AllocError>
        requires least { 1 ≤ most }
        requires most { most ≤ 4096 }
        ensures { IfOk result (λ set. set.most ≡ most) }
    {
        let lists = Lists::reserve(alloc, most)?;
        Ok(PackedSet { lists, most })
    }

    /// Returns the one state that the events of these numbers make of all states of the box, the last number's event
    /// first; `None` where they make more than one state of them. What the set held before does not matter.
    ///
    /// Where the numbers are those of the last steps before time zero and the box is that of all states, this is the
    /// test of coalescence of coupling from the past (Propp and Wilson 1996).
    pub fn meeting(
        &mut self,
        program: &MaskProgram<K>,
        numbers: &[u16],
        bounds: &Bounds,
    ) -> Option<State>
        requires room { length (box bounds.now.lo bounds.now.hi) ≤ self.old.most }
        requires within { IsBelow bounds.now.hi program.now.packing.caps }
        requires numbers { EachIndex numbers.now (λ i. slice_index numbers.now i < length program.now.moves) }
        ensures meeting { (caps : List ℕ) (functions : List Function) → Prepares K caps functions program.now
            → result ≡ single (image (follow_numbers functions numbers.now) (box bounds.now.lo bounds.now.hi)) }
        ensures most { self.new.most ≡ self.old.most }
    {
        self.lists.fill(program, bounds);
        self.lists.follow(program, numbers);
        let words = self.lists.only()?;
        Some(program.unpack_one(&words))
    }
}
