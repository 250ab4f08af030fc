//! The steps of a path through a table, with a count of how often each event was chosen in each state.

ghost use Rattle.std.specs.Prelude.{◌≡◌, ℕ, ◌+◌, ◌-◌, ◌*◌, ◌<◌, ◌≤◌, pos, ◌+ℤ◌, ◌*ℤ◌, if◌then◌else◌, length, slice_index, slice_index_or};
ghost use Rattle.psi_past.specs.Filled.{AreWordsFrom};
ghost use Rattle.psi_state.specs.State.{AreCapacities, all_states};
ghost use Rattle.psi_exact.specs.Ranks.{state_at};
ghost use Rattle.psi_path.specs.Path.{first_place};
ghost use Rattle.psi_path.specs.Sums.{HasCounts, worth_at};
ghost use Rattle.psi_path_table.specs.Trail.{Trail, visits_until, left_until, is_same};
ghost use Rattle.psi_path_table.specs.Inner.VisitsKept.{IsTrail, VisitsStand};
ghost use Rattle.psi_path_table.specs.Inner.SumsKept.{sum_below, integers_below, AreSumsBelow, AreTrailSums};

use psi_event::EventLaw;
use psi_past::Past;
use psi_path::{Rewards, Walk};
use psi_rate::{System, Wheel};
use psi_state::{Bounds, State};

// The place of the random word of time 1.
const FIRST_PLACE: u32 = 4_194_304;

// How many random words are drawn at once.
const WINDOW: u32 = 256;

// A path through a table of ranks, which has a row for each event and one for idle, and in a row an entry for each state. Kept are the
// rank of the present state, the number of steps that are left, and how often each entry was looked up.
#[derive(Drop)]
pub(crate) struct Visits {
    pub(crate) rows: u32,
    pub(crate) states: u32,
    pub(crate) next: Vec<u16>,
    pub(crate) counts: Vec<u32>,
    pub(crate) rank: u32,
    pub(crate) left: u32,
}

impl Visits {
    // Begins a path at a rank, with all of its steps left, in a table of so many rows.
    pub(crate) fn begin(&mut self, rows: u32, rank: u32, steps: u32)
        ensures stands { (trail : Trail) → IsTrail trail → steps ≡ trail.steps → rank ≡ trail.first → rows ≡ length trail.rates + 1 → self.old.states ≡ trail.states
            → self.old.next.items ≡ trail.next → length self.old.counts.items ≡ length trail.next → VisitsStand trail self.new }
        ensures rank { self.new.rank ≡ rank }
        ensures left { self.new.left ≡ steps }
        ensures states { self.new.states ≡ self.old.states }
        ensures next { self.new.next ≡ self.old.next }
        ensures counted { length self.new.counts.items ≡ length self.old.counts.items }
    {
        self.counts.fill(0);
        self.rows = rows;
        self.rank = rank;
        self.left = steps;
    }

    // Walks the steps that are left of a path of `steps` steps, and writes the sums of the whole path.
    pub(crate) fn walk<E: EventLaw, P: Past, R: Rewards>(
        &mut self,
        system: &System<'_, E>,
        rewards: &R,
        past: &mut P,
        steps: u32,
        walk: &mut Walk,
    )
        ghost trail: { Trail }
        requires rates { trail.rates ≡ system.now.rates }
        requires words { trail.words ≡ P.words past.old }
        requires steps { trail.steps ≡ steps }
        requires stands { VisitsStand trail self.old }
        requires states { trail.states ≡ length (all_states system.now.caps) }
        requires rewards { R.capacities rewards.now ≡ system.now.caps }
        requires counts { HasCounts (length system.now.caps) (length (R.worths rewards.now)) (length system.now.events) walk.old }
        ensures sums { AreTrailSums system.now.caps (R.worths rewards.now) trail self.new.rank walk.new }
        ensures stands { VisitsStand trail self.new }
        ensures left { self.new.left ≡ 0 }
        ensures counts { HasCounts (length system.now.caps) (length (R.worths rewards.now)) (length system.now.events) walk.new }
        ensures words { P.words past.new ≡ P.words past.old }
        ensures states { self.new.states ≡ self.old.states }
        ensures next { self.new.next ≡ self.old.next }
        ensures counted { length self.new.counts.items ≡ length self.old.counts.items }
    {
        self.finish(system, past, steps);
        walk.clear();
        self.add_states(&system.caps(), rewards, walk);
        self.count_events(walk);
    }

    // Walks the steps that are left of a path of `steps` steps.
    fn finish<E: EventLaw, P: Past>(&mut self, system: &System<'_, E>, past: &mut P, steps: u32)
        ghost trail: { Trail }
        requires rates { trail.rates ≡ system.now.rates }
        requires words { trail.words ≡ P.words past.old }
        requires steps { trail.steps ≡ steps }
        requires stands { VisitsStand trail self.old }
        ensures left { self.new.left ≡ 0 }
        ensures stands { VisitsStand trail self.new }
        ensures words { P.words past.new ≡ P.words past.old }
        ensures states { self.new.states ≡ self.old.states }
        ensures next { self.new.next ≡ self.old.next }
        ensures counted { length self.new.counts.items ≡ length self.old.counts.items }
    {
        let wheel = system.wheel();
        // Made once: all its places are written for that.
        let mut words = [0; WINDOW as usize];
        while self.left > 0 {
            let drawn = &mut words[..self.left.min(WINDOW) as usize];
            past.fill(FIRST_PLACE + (steps - self.left), drawn);
            self.follow(wheel, drawn);
        }
    }

    // Walks a step for each word.
    fn follow(&mut self, wheel: &Wheel, drawn: &[u32])
        ghost trail: { Trail }
        requires rates { trail.rates ≡ wheel.now }
        requires drawn { AreWordsFrom trail.words (first_place + (trail.steps - self.old.left)) drawn.now }
        requires few { length drawn.now ≤ self.old.left }
        requires stands { VisitsStand trail self.old }
        ensures left { self.new.left + length drawn.now ≡ self.old.left }
        ensures stands { VisitsStand trail self.new }
        ensures states { self.new.states ≡ self.old.states }
        ensures next { self.new.next ≡ self.old.next }
        ensures counted { length self.new.counts.items ≡ length self.old.counts.items }
    {
        let states = self.states as usize;
        let next = self.next.as_slice();
        let counts = self.counts.as_mut_slice();
        let mut rank = self.rank as usize;
        for word in drawn {
            let entry = wheel.pick(*word) as usize * states + rank;
            counts[entry] += 1;
            rank = next[entry] as usize;
        }
        self.rank = rank as u32;
        self.left -= drawn.len() as u32;
    }

    // Adds the state of each rank as often as a step began in it, and the last state once.
    fn add_states<R: Rewards>(&self, caps: &State, rewards: &R, walk: &mut Walk)
        ghost trail: { Trail }
        requires stands { VisitsStand trail self.now }
        requires left { self.now.left ≡ 0 }
        requires valid { AreCapacities caps.now }
        requires caps { R.capacities rewards.now ≡ caps.now }
        requires states { trail.states ≡ length (all_states caps.now) }
        requires sums { AreSumsBelow caps.now (R.worths rewards.now) (λ r. left_until trail r trail.steps) 0 walk.old }
        ensures queues { (q : ℕ) → q < length caps.now → slice_index walk.new.queues q
            ≡ sum_below (λ r. left_until trail r trail.steps * slice_index (state_at caps.now r) q) trail.states + slice_index (state_at caps.now self.now.rank) q }
        ensures rewards { (r : ℕ) → r < length (R.worths rewards.now) → slice_index_or walk.new.rewards r (pos 0)
            ≡ integers_below (λ k. pos (left_until trail k trail.steps) *ℤ worth_at (R.worths rewards.now) r (state_at caps.now k)) trail.states +ℤ worth_at (R.worths rewards.now) r (state_at caps.now self.now.rank) }
        ensures queue_count { length walk.new.queues ≡ length walk.old.queues }
        ensures reward_count { length walk.new.rewards ≡ length walk.old.rewards }
        ensures chosen { walk.new.chosen ≡ walk.old.chosen }
        ensures changed { walk.new.changed ≡ walk.old.changed }
    {
        let bounds = Bounds::whole(caps);
        for rank in 0..self.states {
            walk.add(rewards, &bounds.unrank(rank), self.visits_of(rank));
        }
        walk.add(rewards, &bounds.unrank(self.rank), 1);
    }

    // Returns at how many times the state of a rank was that before the step.
    fn visits_of(&self, rank: u32) -> u32
        ghost trail: { Trail }
        requires stands { VisitsStand trail self.now }
        requires left { self.now.left ≡ 0 }
        requires small { rank < trail.states }
        ensures { result ≡ left_until trail rank trail.steps }
    {
        let mut sum: u64 = 0;
        for row in 0..self.rows {
            sum += self.counts[(row * self.states + rank) as usize] as u64;
        }
        sum as u32
    }

    // Writes for each event how often it was chosen, and how often it changed the state.
    fn count_events(&self, walk: &mut Walk)
        ghost trail: { Trail }
        requires stands { VisitsStand trail self.now }
        requires left { self.now.left ≡ 0 }
        requires few { length trail.rates ≤ 1024 }
        requires chosen { length walk.old.chosen ≡ length trail.rates }
        requires changed { length walk.old.changed ≡ length trail.rates }
        ensures chosen { (e : ℕ) → e < length trail.rates → slice_index walk.new.chosen e ≡ sum_below (λ r. visits_until trail e r trail.steps) trail.states }
        ensures changed { (e : ℕ) → e < length trail.rates → slice_index walk.new.changed e ≡ sum_below (λ r. visits_until trail e r trail.steps * (if is_same trail e r then 0 else 1)) trail.states }
        ensures chosen_count { length walk.new.chosen ≡ length walk.old.chosen }
        ensures changed_count { length walk.new.changed ≡ length walk.old.changed }
        ensures queues { walk.new.queues ≡ walk.old.queues }
        ensures rewards { walk.new.rewards ≡ walk.old.rewards }
    {
        for event in 0..self.rows - 1 {
            let (chosen, changed) = self.counts_of(event);
            walk.count(event as u16, chosen, changed);
        }
    }

    // Returns how often an event was chosen, and how often it changed the state.
    fn counts_of(&self, event: u32) -> (u64, u64)
        ghost trail: { Trail }
        requires stands { VisitsStand trail self.now }
        requires left { self.now.left ≡ 0 }
        requires event { event < length trail.rates }
        ensures chosen { result.0 ≡ sum_below (λ r. visits_until trail event r trail.steps) trail.states }
        ensures changed { result.1 ≡ sum_below (λ r. visits_until trail event r trail.steps * (if is_same trail event r then 0 else 1)) trail.states }
    {
        let first = event * self.states;
        let (mut chosen, mut changed) = (0, 0);
        for rank in 0..self.states {
            let entry = (first + rank) as usize;
            let count = self.counts[entry] as u64;
            chosen += count;
            if self.next[entry] as u32 != rank {
                changed += count;
            }
        }
        (chosen, changed)
    }
}
