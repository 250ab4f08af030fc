//! Sums while a path is walked.

ghost use Rattle.std.specs.Prelude.{◌≡◌, ℕ, ◌+◌, ◌-◌, ◌*◌, ◌^◌, ◌<◌, ◌≤◌, pos, ◌+ℤ◌, ◌*ℤ◌, List, length, replicate, slice_index, slice_index_or, IfOk};
ghost use Rattle.std.specs.Int.RustNames.{unsigned_abs};
ghost use Rattle.psi_past.specs.Filled.{AreWordsFrom};
ghost use Rattle.psi_state.specs.State.{IsBelow, AreCapacities};
ghost use Rattle.psi_path.specs.Path.{Path, Course, first_place, path_of};
ghost use Rattle.psi_path.specs.Sums.{worth_at};
ghost use Rattle.psi_path.specs.Running.{StandsAt};

use crate::rewards::Rewards;
use crate::turning::{turn_queues, turn_rewards};
use psi_event::EventLaw;
use psi_past::Past;
use psi_rate::System;
use psi_state::State;
use std::alloc::{AllocError, Global};

// The place of the random word of time 1.
const FIRST_PLACE: u32 = 4_194_304;

// How many random words are drawn at once.
const WINDOW: u32 = 256;

// The sums of a path if its present state stays as it is for the steps that are left: so a step that changes nothing adds
// nothing to them.
#[derive(Drop)]
pub(crate) struct Running {
    pub(crate) state: State,
    pub(crate) left: u32,
    pub(crate) queues: Vec<u64>,
    pub(crate) rewards: Vec<i128>,
    // What each reward makes of the present state.
    pub(crate) values: Vec<i64>,
    pub(crate) chosen: Vec<u64>,
    pub(crate) changed: Vec<u64>,
}

impl Running {
    // Room for the sums of so many queues, rewards and events.
    pub(crate) fn new(
        alloc: Global,
        queues: u8,
        rewards: usize,
        events: u16,
    ) -> Result<Running, AllocError>
        requires some { 1 ≤ queues }
        requires few { queues ≤ 32 }
        ensures queues { IfOk result (λ running. length running.queues.items ≡ queues) }
        ensures rewards { IfOk result (λ running. length running.rewards.items ≡ rewards) }
        ensures values { IfOk result (λ running. length running.values.items ≡ rewards) }
        ensures chosen { IfOk result (λ running. length running.chosen.items ≡ events) }
        ensures changed { IfOk result (λ running. length running.changed.items ≡ events) }
    {
        Ok(Running {
            state: State::zero(queues),
            left: 0,
            queues: vec![in alloc; 0; queues as usize]?,
            rewards: vec![in alloc; 0; rewards]?,
            values: vec![in alloc; 0; rewards]?,
            chosen: vec![in alloc; 0; events as usize]?,
            changed: vec![in alloc; 0; events as usize]?,
        })
    }

    // Begins a path of so many steps in a state, of which none is walked.
    pub(crate) fn begin<R: Rewards>(&mut self, rewards: &R, start: State, steps: u32)
        requires few { steps + 1 < 2 ^ 32 }
        requires valid { AreCapacities (R.capacities rewards.now) }
        requires start { IsBelow start (R.capacities rewards.now) }
        requires queues { length self.old.queues.items ≡ length (R.capacities rewards.now) }
        requires rewards { length self.old.rewards.items ≡ length (R.worths rewards.now) }
        requires values { length self.old.values.items ≡ length (R.worths rewards.now) }
        ensures stands { (path : Path) → path.start ≡ start → length self.old.chosen.items ≡ length path.rates → length self.old.changed.items ≡ length path.rates
            → StandsAt (R.capacities rewards.now) (R.worths rewards.now) path steps self.new }
        ensures left { self.new.left ≡ steps }
        ensures state { self.new.state ≡ start }
    {
        self.clear();
        self.add(rewards, &start, steps + 1);
        self.state = start;
        self.left = steps;
    }

    // Sets all sums and counts to 0.
    pub(crate) fn clear(&mut self)
        ensures queues { self.new.queues.items ≡ replicate (length self.old.queues.items) 0 }
        ensures rewards { self.new.rewards.items ≡ replicate (length self.old.rewards.items) (pos 0) }
        ensures chosen { self.new.chosen.items ≡ replicate (length self.old.chosen.items) 0 }
        ensures changed { self.new.changed.items ≡ replicate (length self.old.changed.items) 0 }
        ensures values { self.new.values ≡ self.old.values }
    {
        self.queues.fill(0);
        self.rewards.fill(0);
        self.chosen.fill(0);
        self.changed.fill(0);
    }

    // Adds the customers and the values of a state so many times.
    pub(crate) fn add<R: Rewards>(&mut self, rewards: &R, x: &State, times: u32)
        requires within { IsBelow x.now (R.capacities rewards.now) }
        requires queues { length self.old.queues.items ≡ length (R.capacities rewards.now) }
        requires rewards { length self.old.rewards.items ≡ length (R.worths rewards.now) }
        requires values { length self.old.values.items ≡ length (R.worths rewards.now) }
        requires few_queues { (q : ℕ) → q < length self.old.queues.items → slice_index self.old.queues.items q ≤ 2 ^ 49 }
        requires few_rewards { (r : ℕ) → r < length (R.worths rewards.now) → unsigned_abs (slice_index_or self.old.rewards.items r (pos 0)) ≤ 2 ^ 96 }
        ensures queue_count { length self.new.queues.items ≡ length self.old.queues.items }
        ensures queues { (q : ℕ) → q < length self.old.queues.items → slice_index self.new.queues.items q ≡ slice_index self.old.queues.items q + times * slice_index x.now q }
        ensures reward_count { length self.new.rewards.items ≡ length self.old.rewards.items }
        ensures rewards { (r : ℕ) → r < length (R.worths rewards.now) → slice_index_or self.new.rewards.items r (pos 0)
            ≡ slice_index_or self.old.rewards.items r (pos 0) +ℤ (pos times *ℤ worth_at (R.worths rewards.now) r x.now) }
        ensures value_count { length self.new.values.items ≡ length self.old.values.items }
        ensures values { (r : ℕ) → r < length (R.worths rewards.now) → slice_index_or self.new.values.items r (pos 0) ≡ worth_at (R.worths rewards.now) r x.now }
        ensures small { (r : ℕ) → r < length (R.worths rewards.now) → unsigned_abs (worth_at (R.worths rewards.now) r x.now) ≤ 2 ^ 63 }
        ensures chosen { self.new.chosen ≡ self.old.chosen }
        ensures changed { self.new.changed ≡ self.old.changed }
    {
        self.values.fill(0);
        let none = State::zero(x.len());
        turn_queues(&mut self.queues, &none, x, times);
        turn_rewards(&mut self.rewards, &mut self.values, rewards, x, times);
    }

    // Walks one step, by its word.
    #[inline]
    pub(crate) fn step<E: EventLaw, R: Rewards>(
        &mut self,
        system: &System<'_, E>,
        rewards: &R,
        word: u32,
    )
        ghost course: { Course }
        requires word { course.words (first_place + (course.steps - self.old.left)) ≡ word }
        requires caps { R.capacities rewards.now ≡ system.now.caps }
        requires some { 1 ≤ self.old.left }
        requires stands { StandsAt system.now.caps (R.worths rewards.now) (path_of E.function system.now course.words course.start) course.steps self.old }
        ensures left { self.new.left + 1 ≡ self.old.left }
        ensures stands { StandsAt system.now.caps (R.worths rewards.now) (path_of E.function system.now course.words course.start) course.steps self.new }
    {
        // Called for its clause: the events fit the capacities.
        let _caps = system.caps();
        let left = self.left;
        self.left = left - 1;
        let (number, event) = system.pick(word);
        let Some(event) = event else {
            return;
        };
        self.chosen[number as usize] += 1;
        let before = self.state;
        event.apply(&mut self.state);
        if self.state == before {
            return;
        }
        self.changed[number as usize] += 1;
        turn_queues(&mut self.queues, &before, &self.state, left);
        turn_rewards(
            &mut self.rewards,
            &mut self.values,
            rewards,
            &self.state,
            left,
        );
    }

    // Walks a step for each word.
    fn follow<E: EventLaw, R: Rewards>(
        &mut self,
        system: &System<'_, E>,
        rewards: &R,
        drawn: &[u32],
    )
        ghost course: { Course }
        requires drawn { AreWordsFrom course.words (first_place + (course.steps - self.old.left)) drawn.now }
        requires caps { R.capacities rewards.now ≡ system.now.caps }
        requires few { length drawn.now ≤ self.old.left }
        requires stands { StandsAt system.now.caps (R.worths rewards.now) (path_of E.function system.now course.words course.start) course.steps self.old }
        ensures left { self.new.left + length drawn.now ≡ self.old.left }
        ensures stands { StandsAt system.now.caps (R.worths rewards.now) (path_of E.function system.now course.words course.start) course.steps self.new }
    {
        for word in drawn {
            self.step(system, rewards, *word);
        }
    }

    // Walks the steps that are left of a path of so many.
    pub(crate) fn finish<E: EventLaw, P: Past, R: Rewards>(
        &mut self,
        system: &System<'_, E>,
        rewards: &R,
        past: &mut P,
        steps: u32,
    )
        ghost course: { Course }
        requires words { course.words ≡ P.words past.old }
        requires steps { course.steps ≡ steps }
        requires few { steps ≤ 4290772992 }
        requires caps { R.capacities rewards.now ≡ system.now.caps }
        requires stands { StandsAt system.now.caps (R.worths rewards.now) (path_of E.function system.now course.words course.start) course.steps self.old }
        ensures left { self.new.left ≡ 0 }
        ensures stands { StandsAt system.now.caps (R.worths rewards.now) (path_of E.function system.now course.words course.start) course.steps self.new }
        ensures words { P.words past.new ≡ P.words past.old }
    {
        // Made once: all its places are written for that.
        let mut words = [0; WINDOW as usize];
        while self.left > 0 {
            let drawn = &mut words[..self.left.min(WINDOW) as usize];
            past.fill(FIRST_PLACE + (steps - self.left), drawn);
            self.follow(system, rewards, drawn);
        }
    }
}
