//! The walk of a path on packed states, with its sums.

ghost use Rattle.std.specs.Prelude.{◌≡◌, map, IfOk, IfSome};
ghost use Rattle.psi_path_packed.specs.Walker.{IsWalkerOf};

use crate::OutOfMemory;
use crate::moves::moves_of;
use crate::rises::{customer_rises, reward_rises};
use crate::steps::Steps;
use crate::totals::{put_counts, put_customers, put_rewards};
use psi_event::{EventLaw, PiecewiseLaw};
use psi_follow_packed::Layout;
use psi_past::Past;
use psi_path::{PathWalker, Rewards, SamplePath, Walk};
use psi_rate::System;
use psi_state::State;
use std::alloc::Global;
use std::marker::Model;

/// Walks paths of one network, whose states fit `K` words, one after another.
///
/// It is seen as what it holds of the network. It allocates when it is made, and only then.
pub struct PackedWalk<const K: usize> {
    layout: Layout<K>,
    steps: Steps<K>,
    queues: Vec<i64>,
    rewards: Vec<i64>,
}

impl<const K: usize> Model for PackedWalk<K> {
    ghost use Rattle.std.specs.Prelude.{◌≡◌, map, length, All};
    ghost use Rattle.psi_follow_packed.specs.Views.{low_word, moving_by};
    ghost use Rattle.psi_path_packed.specs.Counts.{IsByFirst};
    ghost use Rattle.psi_path_packed.specs.Walker.{Walker};

    ghost Value = { Walker };

    ghost view = { λ w. record { prepared = record { packing = w.layout; moves = map (moving_by low_word) w.steps.moves.items }; queues = w.queues.items; rewards = w.rewards.items } };

    ghost invariant = { λ w. All IsByFirst w.steps.moves.items × (length w.steps.chosen.items ≡ length w.steps.moves.items) × (length w.steps.changes.items ≡ length w.steps.moves.items) };
}

// By hand, so that the end of a walk is a call where it ends, and not all of its steps.
impl<const K: usize> Drop for PackedWalk<K> {
    fn drop(self) {
        let PackedWalk {
            layout: _,
            steps: _,
            queues: _,
            rewards: _,
        } = self;
    }
}

impl<const K: usize> PackedWalk<K> {
    /// Returns the walk of a network with its rewards; `None` where its states don't fit `K` words, an event declares no pieces or its
    /// second piece changes a state, or a reward isn't additive or rises by more than 2^40 with an event. No clause says so: only the
    /// speed depends on it.
    ///
    /// # Errors
    ///
    /// [`OutOfMemory`] where there is no memory: for each event 128 bytes a word, 24 more, and 8 for each queue and each reward.
    pub fn new<E: PiecewiseLaw, R: Rewards>(
        alloc: Global,
        system: &System<'_, E>,
        rewards: &R,
    ) -> Result<Option<PackedWalk<K>>, OutOfMemory>
        requires { R.capacities rewards.now ≡ system.now.caps }
        ensures { IfOk result (λ found. IfSome found (IsWalkerOf K system.now.caps (map E.function system.now.events) (R.worths rewards.now))) }
    {
        let caps = system.caps();
        let events = system.events();
        let Some(layout) = Layout::new(caps) else {
            return Ok(None);
        };
        let Some(moves) = moves_of(alloc, &layout, events)? else {
            return Ok(None);
        };
        let Some(queues) = customer_rises(alloc, &caps, events)? else {
            return Ok(None);
        };
        let Some(rewards) = reward_rises(alloc, rewards, events)? else {
            return Ok(None);
        };
        let steps = Steps::new(alloc, moves)?;
        Ok(Some(PackedWalk {
            layout,
            steps,
            queues,
            rewards,
        }))
    }
}

/// A step takes the same short time whatever it changes. Each path takes time beside for each queue and each reward of each event.
impl<const K: usize> PathWalker for PackedWalk<K> {
    ghost walks = { λ w caps functions worths. IsWalkerOf K caps functions worths w };

    fn run<E: EventLaw, P: Past, R: Rewards>(
        &mut self,
        path: &mut SamplePath<'_, E, P, R>,
        walk: &mut Walk,
    ) -> State {
        // Called for its clause: the parts fit each other.
        let _caps = path.system.caps();
        let (start, steps) = (&path.start, path.steps);
        self.steps
            .walk(&self.layout, path.system, &mut path.past, start, steps);
        let changes = self.steps.changes.as_slice();
        put_customers(self.queues.as_slice(), changes, start, steps, walk);
        put_rewards(
            self.rewards.as_slice(),
            changes,
            path.rewards,
            start,
            steps,
            walk,
        );
        put_counts(self.steps.chosen.as_slice(), changes, walk);
        self.layout.unpack(&self.steps.x.low())
    }
}
