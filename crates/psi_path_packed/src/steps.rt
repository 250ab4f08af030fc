//! The steps of a path on packed states, and what is counted of them.

ghost use Rattle.std.specs.Prelude.{◌≡◌, ℕ, ◌+◌, ◌-◌, ◌≤◌, length, map, All, IfOk};
ghost use Rattle.psi_past.specs.Filled.{AreWordsFrom};
ghost use Rattle.psi_state.specs.State.{IsBelow};
ghost use Rattle.psi_follow_packed.specs.Packed.{packed};
ghost use Rattle.psi_follow_packed.specs.Views.{low_word, low_words, high_words, moving_by};
ghost use Rattle.psi_path.specs.Path.{first_place, path_of};
ghost use Rattle.psi_path_packed.specs.Counts.{Course, AreMovesOf, IsByFirst, StepsStand};

use psi_event::EventLaw;
use psi_follow_packed::{Layout, Packed, PackedEvent, PackedPair, Pair};
use psi_past::Past;
use psi_rate::System;
use psi_state::State;
use std::alloc::{AllocError, Global};

// The place of the random word of time 1.
const FIRST_PLACE: u32 = 4_194_304;

// How many random words are drawn at once.
const WINDOW: u32 = 256;

/// The events of a network, idle as the last, with the state in which a path stands, packed twice, and the number of its steps that are
/// left. For each event: how often it was chosen; and in a pair, for how many times of the path it changed the state, those from each
/// change on, and how often it changed the state.
#[derive(Drop)]
pub(crate) struct Steps<const K: usize> {
    pub(crate) moves: Vec<PackedEvent<K>>,
    pub(crate) x: PackedPair<K>,
    pub(crate) left: u32,
    pub(crate) chosen: Vec<u64>,
    pub(crate) changes: Vec<Pair>,
}

impl<const K: usize> Steps<K> {
    /// Returns the steps of these events, of which none is walked.
    pub(crate) fn new(alloc: Global, moves: Vec<PackedEvent<K>>) -> Result<Steps<K>, AllocError>
        ensures moves { IfOk result (λ steps. steps.moves.items ≡ moves.entry.items) }
        ensures chosen { IfOk result (λ steps. length steps.chosen.items ≡ length moves.entry.items) }
        ensures changes { IfOk result (λ steps. length steps.changes.items ≡ length moves.entry.items) }
    {
        let count = moves.len();
        Ok(Steps {
            moves,
            x: PackedPair::of(&Packed::zero(), &Packed::zero()),
            left: 0,
            chosen: vec![in alloc; 0; count]?,
            changes: vec![in alloc; Pair::of(0, 0); count]?,
        })
    }

    /// Walks a path of so many steps from a state on.
    pub(crate) fn walk<E: EventLaw, P: Past>(
        &mut self,
        layout: &Layout<K>,
        system: &System<'_, E>,
        past: &mut P,
        start: &State,
        steps: u32,
    )
        ghost course: { Course }
        requires path { course.path ≡ path_of E.function system.now (P.words past.old) start.now }
        requires steps { course.steps ≡ steps }
        requires packing { course.packing ≡ layout.now }
        requires few { steps ≤ 4290772992 }
        requires within { IsBelow start.now layout.now.caps }
        requires first { All IsByFirst self.old.moves.items }
        requires moves { AreMovesOf K course system.now.rates (map (moving_by low_word) self.old.moves.items) }
        requires chosen { length self.old.chosen.items ≡ length system.now.rates + 1 }
        requires changes { length self.old.changes.items ≡ length system.now.rates + 1 }
        ensures left { self.new.left ≡ 0 }
        ensures stands { StepsStand course self.new }
        ensures moves { self.new.moves ≡ self.old.moves }
        ensures words { P.words past.new ≡ P.words past.old }
    {
        let x = layout.pack(start);
        self.begin(PackedPair::of(&x, &x), steps);
        // Made once: all its places are written for that.
        let mut words = [0; WINDOW as usize];
        while self.left > 0 {
            let drawn = &mut words[..self.left.min(WINDOW) as usize];
            past.fill(FIRST_PLACE + (steps - self.left), drawn);
            self.follow(system, drawn);
        }
    }

    // Begins a path of so many steps in a state, of which none is walked.
    fn begin(&mut self, x: PackedPair<K>, steps: u32)
        requires few { steps ≤ 4290772992 }
        ensures stands { (course : Course) → course.steps ≡ steps → IsBelow course.path.start course.packing.caps
            → low_words x.entry ≡ packed K course.packing course.path.start → high_words x.entry ≡ low_words x.entry
            → length self.old.chosen.items ≡ length course.path.rates + 1 → length self.old.changes.items ≡ length course.path.rates + 1 → StepsStand course self.new }
        ensures left { self.new.left ≡ steps }
        ensures moves { self.new.moves ≡ self.old.moves }
    {
        self.chosen.fill(0);
        self.changes.fill(Pair::of(0, 0));
        self.x = x;
        self.left = steps;
    }

    // Walks a step for each word. What a step reads and writes is named before, so that it stays in registers.
    fn follow<E: EventLaw>(&mut self, system: &System<'_, E>, drawn: &[u32])
        ghost course: { Course }
        requires drawn { AreWordsFrom course.path.words (first_place + (course.steps - self.old.left)) drawn.now }
        requires few { length drawn.now ≤ self.old.left }
        requires first { All IsByFirst self.old.moves.items }
        requires moves { AreMovesOf K course system.now.rates (map (moving_by low_word) self.old.moves.items) }
        requires stands { StepsStand course self.old }
        ensures left { self.new.left + length drawn.now ≡ self.old.left }
        ensures stands { StepsStand course self.new }
        ensures moves { self.new.moves ≡ self.old.moves }
    {
        let wheel = system.wheel();
        let moves = self.moves.as_slice();
        let chosen = self.chosen.as_mut_slice();
        let changes = self.changes.as_mut_slice();
        let mut x = self.x;
        let mut change = Pair::of(self.left as u64, 1);
        for word in drawn {
            let event = wheel.pick(*word) as usize;
            let changed = moves[event].advance_first(&mut x);
            chosen[event] += 1;
            changes[event] = changes[event].plus(changed.and(change));
            change = change.plus(Pair::of(u64::MAX, 0));
        }
        self.x = x;
        self.left -= drawn.len() as u32;
    }
}
