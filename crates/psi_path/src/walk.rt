//! The walk of a path, with its sums.

ghost use Rattle.std.specs.Prelude.{◌≡◌, ℕ, ◌+◌, ◌*◌, ◌^◌, ◌<◌, ◌≤◌, pos, ◌+ℤ◌, ◌*ℤ◌, length, slice_index, slice_index_or, slice_set, IfOk};
ghost use Rattle.std.specs.Int.RustNames.{unsigned_abs};
ghost use Rattle.psi_state.specs.State.{IsBelow};
ghost use Rattle.psi_path.specs.Path.{path_of, state_of};
ghost use Rattle.psi_path.specs.Sums.{HasCounts, ArePathSums, cleared, worth_at};

use crate::OutOfMemory;
use crate::rewards::Rewards;
use crate::running::Running;
use crate::sample_path::SamplePath;
use psi_event::EventLaw;
use psi_past::Past;
use psi_state::State;
use std::alloc::Global;
use std::marker::Model;

/// Walks paths of networks, one after another, and keeps the sums of the last one.
///
/// It is seen as these sums. It allocates when it is made, and no later.
#[derive(Drop)]
pub struct Walk {
    pub(crate) running: Running,
}

impl Model for Walk {
    ghost use Rattle.std.specs.Prelude.{◌≡◌, length};
    ghost use Rattle.psi_path.specs.Sums.{Sums};

    ghost Value = { Sums };

    ghost view = { λ w. record { queues = w.running.queues.items; rewards = w.running.rewards.items; chosen = w.running.chosen.items; changed = w.running.changed.items } };

    ghost invariant = { λ w. length w.running.values.items ≡ length w.running.rewards.items };
}

impl Walk {
    /// A walk for networks of so many queues, 1 to 32, rewards, and events.
    ///
    /// # Errors
    ///
    /// [`OutOfMemory`] where there is no memory for the sums: 8 bytes for each queue, 24 for each reward and 16 for each event.
    pub fn new(alloc: Global, queues: u8, rewards: usize, events: u16) -> Result<Walk, OutOfMemory>
        requires some { 1 ≤ queues }
        requires few { queues ≤ 32 }
        ensures { IfOk result (λ walk. HasCounts queues rewards events walk) }
    {
        Ok(Walk {
            running: Running::new(alloc, queues, rewards, events)?,
        })
    }

    /// Walks the path of a network from a state at time zero, for so many steps, and returns the state in which it ends.
    ///
    /// The event of time k, from 1 on, is that of the random word at place 2^22 + k - 1. There are at most 4,290,772,992 steps,
    /// so that all places are below 2^32. Its sums are those of the states at the times 0, 1, .., `steps`: of the customers of
    /// each queue, and of the values of each reward. For each event it counts at how many of the times 1, 2, .., `steps` it is
    /// chosen, and at how many of these it changes the state.
    ///
    /// A step that changes nothing takes the same time in each network. One that changes the state takes time for each queue and each
    /// reward: what the change adds to their sums over all steps that are left (summation by parts, Abel 1826).
    pub fn run<E: EventLaw, P: Past, R: Rewards>(
        &mut self,
        path: &mut SamplePath<'_, E, P, R>,
    ) -> State
        requires start { IsBelow path.old.start path.old.system.now.caps }
        requires steps { path.old.steps ≤ 4290772992 }
        requires rewards { R.capacities path.old.rewards.now ≡ path.old.system.now.caps }
        requires counts { HasCounts (length path.old.system.now.caps) (length (R.worths path.old.rewards.now)) (length path.old.system.now.events) self.old }
        ensures state { result ≡ state_of (path_of E.function path.old.system.now (P.words path.old.past) path.old.start) path.old.steps }
        ensures within { IsBelow result path.old.system.now.caps }
        ensures sums { ArePathSums (length path.old.system.now.caps) (length (R.worths path.old.rewards.now)) (length path.old.system.now.events) (R.worths path.old.rewards.now)
            (path_of E.function path.old.system.now (P.words path.old.past) path.old.start) path.old.steps self.new }
        ensures counts { HasCounts (length path.old.system.now.caps) (length (R.worths path.old.rewards.now)) (length path.old.system.now.events) self.new }
        ensures words { P.words path.new.past ≡ P.words path.old.past }
        ensures path { path.new ≡ record path.old { past = path.new.past } }
    {
        // Called for its clause: the parts fit each other.
        let _caps = path.system.caps();
        self.running.begin(path.rewards, path.start, path.steps);
        self.running
            .finish(path.system, path.rewards, &mut path.past, path.steps);
        self.running.state
    }

    /// Sets all sums and counts to 0, so that another walker may write those of a path.
    pub fn clear(&mut self)
        ensures { self.new ≡ cleared self.old }
    {
        self.running.clear();
    }

    /// Adds a state `times` times: its customers to the sums of the queues, and its values to those of the rewards.
    ///
    /// The sums before are at most 2^49 customers of each queue, and at most 2^96 of each reward, whatever its sign. Its last clause is
    /// how a caller learns the range of the values.
    pub fn add<R: Rewards>(&mut self, rewards: &R, x: &State, times: u32)
        requires within { IsBelow x.now (R.capacities rewards.now) }
        requires queues { length self.old.queues ≡ length (R.capacities rewards.now) }
        requires rewards { length self.old.rewards ≡ length (R.worths rewards.now) }
        requires few_queues { (q : ℕ) → q < length self.old.queues → slice_index self.old.queues q ≤ 2 ^ 49 }
        requires few_rewards { (r : ℕ) → r < length (R.worths rewards.now) → unsigned_abs (slice_index_or self.old.rewards r (pos 0)) ≤ 2 ^ 96 }
        ensures queues { (q : ℕ) → q < length self.old.queues → slice_index self.new.queues q ≡ slice_index self.old.queues q + times * slice_index x.now q }
        ensures rewards { (r : ℕ) → r < length (R.worths rewards.now)
            → slice_index_or self.new.rewards r (pos 0) ≡ slice_index_or self.old.rewards r (pos 0) +ℤ (pos times *ℤ worth_at (R.worths rewards.now) r x.now) }
        ensures queue_count { length self.new.queues ≡ length self.old.queues }
        ensures reward_count { length self.new.rewards ≡ length self.old.rewards }
        ensures chosen { self.new.chosen ≡ self.old.chosen }
        ensures changed { self.new.changed ≡ self.old.changed }
        ensures small { (r : ℕ) → r < length (R.worths rewards.now) → unsigned_abs (worth_at (R.worths rewards.now) r x.now) ≤ 2 ^ 63 }
    {
        self.running.add(rewards, x, times);
    }

    /// Sets how often event `e` was chosen, and how often it changed the state; events are counted from 0.
    pub fn count(&mut self, e: u16, chosen: u64, changed: u64)
        requires chosen { e < length self.old.chosen }
        requires changed { e < length self.old.changed }
        ensures { self.new ≡ record self.old { chosen = slice_set self.old.chosen e chosen; changed = slice_set self.old.changed e changed } }
    {
        self.running.chosen[e as usize] = chosen;
        self.running.changed[e as usize] = changed;
    }

    /// The customers of queue `q`, summed over the times of the last path; queues are counted from 0.
    pub fn customers(&self, q: u8) -> u64
        requires { q < length self.now.queues }
        ensures { result ≡ slice_index self.now.queues q }
    {
        self.running.queues[q as usize]
    }

    /// The values of reward `r`, summed over the times of the last path; rewards are counted from 0.
    pub fn reward(&self, r: usize) -> i128
        requires { r < length self.now.rewards }
        ensures { result ≡ slice_index_or self.now.rewards r (pos 0) }
    {
        self.running.rewards[r]
    }

    /// How often event `e` was chosen on the last path; events are counted from 0.
    pub fn chosen(&self, e: u16) -> u64
        requires { e < length self.now.chosen }
        ensures { result ≡ slice_index self.now.chosen e }
    {
        self.running.chosen[e as usize]
    }

    /// How often event `e` changed the state on the last path; events are counted from 0.
    pub fn changed(&self, e: u16) -> u64
        requires { e < length self.now.changed }
        ensures { result ≡ slice_index self.now.changed e }
    {
        self.running.changed[e as usize]
    }
}
