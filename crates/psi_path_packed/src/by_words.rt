//! Walks on packed states, by how many words a state takes.

ghost use Rattle.std.specs.Prelude.{◌≡◌, map, IfOk, IfSome};
ghost use Rattle.psi_path_packed.specs.ByWords.{IsWalkOf};

use crate::OutOfMemory;
use crate::walk::PackedWalk;
use psi_event::{EventLaw, PiecewiseLaw};
use psi_past::Past;
use psi_path::{PathWalker, Rewards, SamplePath, Walk};
use psi_rate::System;
use psi_state::State;
use std::alloc::Global;

/// A walk on packed states of one, two, three or four words.
pub enum ByWords {
    /// On states of one word.
    One(PackedWalk<1>),
    /// On states of two words.
    Two(PackedWalk<2>),
    /// On states of three words.
    Three(PackedWalk<3>),
    /// On states of four words.
    Four(PackedWalk<4>),
}

// By hand, so that the end of a walk is a call where it ends, and not all of its steps.
impl Drop for ByWords {
    fn drop(self) {
        match self {
            ByWords::One(_walk) => {}
            ByWords::Two(_walk) => {}
            ByWords::Three(_walk) => {}
            ByWords::Four(_walk) => {}
        }
    }
}

impl ByWords {
    /// Returns the walk of a network with its rewards on the fewest words, as [`PackedWalk::new`] does; `None` where there is none on up
    /// to four. No clause says which networks have one, or on how many words: only the speed depends on it.
    ///
    /// # Errors
    ///
    /// [`OutOfMemory`] where there is no memory.
    pub fn new<E: PiecewiseLaw, R: Rewards>(
        alloc: Global,
        system: &System<'_, E>,
        rewards: &R,
    ) -> Result<Option<ByWords>, OutOfMemory>
        requires { R.capacities rewards.now ≡ system.now.caps }
        ensures { IfOk result (λ found. IfSome found (IsWalkOf system.now.caps (map E.function system.now.events) (R.worths rewards.now))) }
    {
        if let Some(walk) = PackedWalk::new(alloc, system, rewards)? {
            return Ok(Some(ByWords::One(walk)));
        }
        if let Some(walk) = PackedWalk::new(alloc, system, rewards)? {
            return Ok(Some(ByWords::Two(walk)));
        }
        if let Some(walk) = PackedWalk::new(alloc, system, rewards)? {
            return Ok(Some(ByWords::Three(walk)));
        }
        if let Some(walk) = PackedWalk::new(alloc, system, rewards)? {
            return Ok(Some(ByWords::Four(walk)));
        }
        Ok(None)
    }
}

impl PathWalker for ByWords {
    ghost walks = { λ w caps functions worths. IsWalkOf caps functions worths w };

    fn run<E: EventLaw, P: Past, R: Rewards>(
        &mut self,
        path: &mut SamplePath<'_, E, P, R>,
        walk: &mut Walk,
    ) -> State {
        match self {
            ByWords::One(own) => own.run(path, walk),
            ByWords::Two(own) => own.run(path, walk),
            ByWords::Three(own) => own.run(path, walk),
            ByWords::Four(own) => own.run(path, walk),
        }
    }
}
