//! The plan to sample a network.

ghost use Rattle.std.specs.Prelude.{◌≡◌, ◌-◌, ◌+◌, ◌^◌, ◌≤◌, ◌↔◌, ⊤, ℕ, List, true, Some, None, [], length, map, IfOk, IfSome, IsSome};
ghost use Rattle.std.specs.Borrow.{sem, follows_so};
ghost use mathlib.Core.Option.{none};
ghost use Rattle.psi_state.specs.State.{IsBelow, all_states};
ghost use Rattle.psi_state.specs.Members.{In};
ghost use Rattle.psi_state.specs.Sets.{single};
ghost use Rattle.psi_state.specs.Ascending.{IsRising};
ghost use Rattle.psi_rate.specs.Rates.{event_of};
ghost use Rattle.psi_rate.specs.Composition.{system_functions};
ghost use Rattle.psi_rate.specs.Outcomes.{outcome_within, IsOutcome};
ghost use Rattle.psi_rate.specs.System.{IsSystem};
ghost use Rattle.psi_region.specs.Region.{ShowsBox};
ghost use Rattle.psi_region.specs.Followed.{AreEnds};
ghost use Rattle.psi_horizon.specs.Runs.{region_at, ending_at, region_after, AreOrdered, AreExact};
ghost use Rattle.psi_horizon.specs.Sample.{IsSample};
ghost use Rattle.psi_horizon.specs.Planned.{IsOver, onward, network_of};
ghost use Rattle.psi_horizon.specs.contracts.plan.Plan.{the_row};
ghost use mir.Syntax.{named};

use crate::OutOfMemory;
use crate::runs::{keep, run_of};
use crate::trace::{Progress, Trace};
use psi_event::EventLaw;
use psi_past::{Past, Windowed};
use psi_rate::{Answers, EventNumbers, System, first_answer_near, outcome_of};
use psi_region::{Course, Follower, Regions};
use psi_state::{Bounds, Outcome, State, Step};
use std::alloc::Global;
use std::marker::Model;

/// A network with the past that its samples are drawn from, the room for the numbers of the events of the
/// greatest horizon's words and for a split region, and the follower of its runs: regions, unless another is given.
///
/// It is seen as the network, the past, and the run that was begun, if one was.
pub struct Plan<'n, E: EventLaw, P: Past + Drop, F: Follower + Drop = Regions<'n, E>> {
    system: System<'n, E>,
    // Read backwards where a run goes step by step.
    past: Windowed<P>,
    // What samples are drawn with: the numbers of the events of the words, as far as they were picked, the follower of the
    // runs over them, and the exponent of the horizon with which the next sample begins.
    numbers: EventNumbers,
    follower: F,
    guess: u8,
    // The run that goes step by step.
    trace: Trace,
}

impl<'n, E: EventLaw, P: Past + Drop, F: Follower + Drop> Model for Plan<'n, E, P, F> {
    ghost use Rattle.psi_horizon.specs.Planned.{Planned};
    ghost use Rattle.psi_horizon.specs.Inner.PlanKept.{running_of, IsPlan};

    ghost Value = { Planned E P };

    ghost view = { λ p. record { system = p.system; past = p.past; run = running_of p.trace.run } };

    ghost invariant = { λ p. IsPlan E.capacities E.function P.words p.system p.past p.numbers (F.stands_for p.follower) p.trace };
}

// By hand, so that the end of a plan is a call where it ends, and not all of its steps.
impl<'n, E: EventLaw, P: Past + Drop, F: Follower + Drop> Drop for Plan<'n, E, P, F> {
    fn drop(self) {
        let Plan {
            system: _,
            past: _,
            numbers: _,
            follower: _,
            guess: _,
            trace: _,
        } = self;
    }
}

impl<'n, E: EventLaw, P: Past + Drop> Plan<'n, E, P, Regions<'n, E>> {
    /// Makes the plan to sample the network from this past, for events of any kind: its runs are followed by regions,
    /// through the events themselves. It allocates room for the numbers of the events of the greatest horizon, 2 bytes for
    /// each of its 2 to the power `limit` steps, and for two regions of `split` states. No other call allocates.
    ///
    /// Returns `OutOfMemory` if an allocation fails; no clause says when that is.
    pub fn new(alloc: Global, system: System<'n, E>, past: P) -> Result<Plan<'n, E, P>, OutOfMemory>
        ensures { IfOk result (λ plan. plan ≡ record { system = system.entry; past = past; run = None }) }
    {
        let course = Course::new(system.caps(), system.events(), system.split());
        let regions = Regions::reserve(alloc, course)?;
        Plan::following(alloc, system, past, regions)
    }
}

impl<'n, E: EventLaw, P: Past + Drop, F: Follower + Drop> Plan<'n, E, P, F> {
    /// Makes the plan to sample the network from this past, whose runs this follower follows: it stands for the network. It
    /// allocates room for the numbers of the events of the greatest horizon, 2 bytes for each of its 2 to the power `limit`
    /// steps, and for a region of `split` states. No other call allocates.
    ///
    /// Returns `OutOfMemory` if an allocation fails; no clause says when that is.
    pub fn following(
        alloc: Global,
        system: System<'n, E>,
        past: P,
        follower: F,
    ) -> Result<Plan<'n, E, P, F>, OutOfMemory>
        requires { F.stands_for follower ≡ network_of E.function system }
        ensures { IfOk result (λ plan. plan ≡ record { system = system.entry; past = past; run = None }) }
    {
        // Called for its clause: the parts fit each other.
        let _caps = system.caps();
        let most = 1 << system.limit();
        let trace = Trace::reserve(alloc, system.split())?;
        let numbers = EventNumbers::reserve(alloc, most)?;
        Ok(Plan {
            system,
            past: Windowed::new(past),
            numbers,
            follower,
            guess: 0,
            trace,
        })
    }

    /// Returns the sample: the least horizon among 1, 2, 4, .., 2 to the power `limit` whose region run ends with one
    /// state, with that state, which is within the capacities. Every state that starts there or earlier is in
    /// it at time zero. It isn't met exactly where none of these runs ends with one state.
    ///
    /// The run of a horizon begins with the box of all states that many steps before time zero. Before each
    /// step a region of at most `split` states becomes split; then a split region becomes its image under
    /// the event, and an unsplit one the hull of its image. The same words are used for the same time at
    /// each horizon (Propp and Wilson 1996), so a longer run's region is within a shorter run's.
    ///
    /// Where every event is monotone, and also where there are at most `split` states, it is met exactly
    /// where all states have met at one of these horizons, and at the least of them. Under monotone events
    /// all states have met exactly where the least and the greatest state have.
    ///
    /// A plan that has drawn a sample that is met begins the next one with half its horizon, where most
    /// samples take fewer steps: a run that ends with one state does so at each longer horizon, so the
    /// least one may be looked for from any. Afterwards no run is begun.
    pub fn sample(&mut self) -> Outcome
        ensures outcome { let f = system_functions E.function self.old.system (P.words self.old.past) in
            result ≡ outcome_within (ending_at self.old.system.split f self.old.system.caps) self.old.system.limit }
        ensures sample { IsSample self.old.system.caps (map E.function self.old.system.events) self.old.system.rates self.old.system.limit self.old.system.split
            (P.words self.old.past) result }
        ensures exact { let f = system_functions E.function self.old.system (P.words self.old.past) in
            length (all_states self.old.system.caps) ≤ self.old.system.split
            → AreExact self.old.system.split f self.old.system.caps }
        ensures order { let f = system_functions E.function self.old.system (P.words self.old.past) in
            AreOrdered self.old.system.split f self.old.system.caps }
        ensures system { self.new.system ≡ self.old.system }
        ensures words { P.words self.new.past ≡ P.words self.old.past }
        ensures run { self.new.run ≡ None }
    {
        let limit = self.limit();
        let guess = self.guess();
        let outcome = outcome_of(limit, first_answer_near(self, limit, guess));
        self.guess_by(&outcome);
        outcome
    }

    // The exponent of the horizon with which the next sample begins.
    fn guess(&self) -> u8 {
        self.guess
    }

    // The next sample begins with half the horizon of this one, where it is met: most have this
    // horizon, or the one above or below. Below 64 steps it begins with one step: the words of so
    // few places are drawn at once, and drawn again where they are counted in between.
    fn guess_by(&mut self, outcome: &Outcome)
        ensures { self.new ≡ self.old }
    {
        if let Outcome::Met { horizon, .. } = outcome {
            let half = *horizon / 2;
            self.guess = if half < 64 {
                0
            } else {
                half.trailing_zeros() as u8
            };
        }
    }

    /// Returns the one state with which the region run of this horizon, 1 to 2 to the power `limit` steps, ends;
    /// `None` exactly where it ends with more. The state is within the capacities.
    ///
    /// Afterwards no run is begun.
    pub fn ending(&mut self, horizon: u32) -> Option<State>
        requires some { 1 ≤ horizon }
        requires most { horizon ≤ 2 ^ self.old.system.limit }
        ensures ending { let f = system_functions E.function self.old.system (P.words self.old.past) in
            result ≡ ending_at self.old.system.split f self.old.system.caps horizon }
        ensures within { IfSome result (λ s. IsBelow s self.old.system.caps) }
        ensures system { self.new.system ≡ self.old.system }
        ensures words { P.words self.new.past ≡ P.words self.old.past }
        ensures run { self.new.run ≡ None }
    {
        self.trace.run = None;
        keep(&self.system, &mut self.past, &mut self.numbers, horizon);
        let run = run_of(&self.system, &mut self.past, &self.numbers, horizon);
        self.follower.ending(run)
    }

    /// Returns the least and the greatest state with which the region run of this horizon, 1 to 2 to the power `limit`
    /// steps, ends, where the plan's follower finds them as fast as it finds an ending: the run ends with both, and its
    /// other states lie between them. `None` is an answer at any time; no clause says when it comes. The states are
    /// within the capacities.
    ///
    /// Afterwards no run is begun.
    pub fn ends(&mut self, horizon: u32) -> Option<Bounds>
        requires some { 1 ≤ horizon }
        requires most { horizon ≤ 2 ^ self.old.system.limit }
        ensures ends { let f = system_functions E.function self.old.system (P.words self.old.past) in
            IfSome result (λ b. AreEnds b (region_at self.old.system.split f self.old.system.caps horizon).states) }
        ensures within { IfSome result (λ b. IsBelow b.hi self.old.system.caps) }
        ensures system { self.new.system ≡ self.old.system }
        ensures words { P.words self.new.past ≡ P.words self.old.past }
        ensures run { self.new.run ≡ None }
    {
        self.trace.run = None;
        keep(&self.system, &mut self.past, &mut self.numbers, horizon);
        let run = run_of(&self.system, &mut self.past, &self.numbers, horizon);
        self.follower.ends(run)
    }

    /// Returns the exponent of the greatest horizon, 0 to 22.
    ///
    /// Its last clause is how a caller learns what every plan keeps: its network's parts fit each other.
    pub fn limit(&self) -> u8
        ensures value { result ≡ self.now.system.limit }
        ensures bound { result ≤ 22 }
        ensures fit { IsSystem E.capacities self.now.system }
    {
        self.system.limit()
    }

    /// Returns the capacities of the network, in customers.
    pub fn caps(&self) -> State
        ensures { result ≡ self.now.system.caps }
    {
        self.system.caps()
    }

    /// Returns the number of states up to which a region is followed state by state, 1 to 4,096.
    pub fn split(&self) -> u16
        ensures value { result ≡ self.now.system.split }
        ensures some { 1 ≤ result }
        ensures most { result ≤ 4096 }
    {
        self.system.split()
    }

    /// Takes other words for the next calls. The network stays, and no run is begun.
    pub fn replace(&mut self, past: P)
        ensures { self.new ≡ record { system = self.old.system; past = past; run = None } }
    {
        self.trace.run = None;
        self.past.replace(past);
        self.numbers.clear();
    }

    /// Begins the region run of this horizon, 1 to 2 to the power `limit` steps: its region is the box of
    /// all states.
    ///
    /// Once all its steps are done, its region is the one with which the run ends.
    pub fn begin(&mut self, horizon: u32)
        requires some { 1 ≤ horizon }
        requires most { horizon ≤ 2 ^ self.old.system.limit }
        ensures run { self.new.run ≡ Some (record { horizon = horizon; done = 0 }) }
        ensures whole { let f = system_functions E.function self.old.system (P.words self.old.past) in
            region_after self.old.system.split f self.old.system.caps horizon horizon ≡ region_at self.old.system.split f self.old.system.caps horizon }
        ensures system { self.new.system ≡ self.old.system }
        ensures words { P.words self.new.past ≡ P.words self.old.past }
    {
        self.trace.region.start(&self.system.caps());
        self.trace.run = Some(Progress { horizon, done: 0 });
    }

    /// Does the next step of the run that was begun, and returns its time, 1 to 2 to the power `limit` steps
    /// before time zero, and its event's number, which is the number of events where it is idle.
    ///
    /// `None` comes exactly where all steps of the run are done, or no run was begun since the plan was made,
    /// a sample was drawn or the words were replaced; then nothing changes.
    pub fn advance(&mut self) -> Option<Step>
        ensures over { (result ≡ None) ↔ IsOver self.old.run }
        ensures same { result ≡ None → self.new ≡ self.old }
        ensures time { IfSome result (λ step. IfSome self.old.run (λ r. step.number ≡ r.horizon - r.done)) }
        ensures event { IfSome result (λ step. step.event ≡ event_of self.old.system.rates (P.words self.old.past (step.number - 1))) }
        ensures run { IsSome result → self.new ≡ record self.old { run = onward self.old.run } }
        ensures begun { IsSome result → IsSome self.new.run }
        ensures within { IfSome result (λ step. (1 ≤ step.number) × (step.number ≤ 2 ^ self.old.system.limit)) }
        ensures number { IfSome result (λ step. step.event ≤ length self.old.system.events) }
    {
        let progress = self.trace.run?;
        if progress.done == progress.horizon {
            return None;
        }
        let number = progress.horizon - progress.done;
        let word = self.past.word(number - 1);
        let event = self.trace.follow(&self.system, word);
        self.trace.run = Some(Progress {
            horizon: progress.horizon,
            done: progress.done + 1,
        });
        Some(Step { number, event })
    }

    /// Returns the state of the run's region after the steps that are done, where it has exactly one; `None`
    /// exactly where it has more. A run was begun. The state is within the capacities.
    pub fn single(&self) -> Option<State>
        requires { IsSome self.now.run }
        ensures value { let f = system_functions E.function self.now.system (P.words self.now.past) in
            IfSome self.now.run (λ r. result ≡ single (region_after self.now.system.split f self.now.system.caps r.horizon r.done).states) }
        ensures more { let f = system_functions E.function self.now.system (P.words self.now.past) in
            result ≡ None → IfSome self.now.run (λ r. 2 ≤ length (region_after self.now.system.split f self.now.system.caps r.horizon r.done).states) }
        ensures within { IfSome result (λ s. IsBelow s self.now.system.caps) }
    {
        self.trace.region.single()
    }

    /// Returns the box of the run's region after the steps that are done, exactly where it isn't split. A run was
    /// begun. The box is within the capacities.
    pub fn bounds(&self) -> Option<Bounds>
        requires { IsSome self.now.run }
        ensures within { IfSome result (λ b. IsBelow b.hi self.now.system.caps) }
        ensures ordered { IfSome result (λ b. IsBelow b.lo b.hi) }
        ensures shown { let f = system_functions E.function self.now.system (P.words self.now.past) in
            IfSome self.now.run (λ r. ShowsBox (region_after self.now.system.split f self.now.system.caps r.horizon r.done) result) }
    {
        self.trace.region.bounds()
    }

    /// Returns the states of the run's region after the steps that are done, in ascending, that is lexicographic,
    /// order: at least one, at most the split number, all within the capacities. A run was begun, and its
    /// region is split. The run stays as it was.
    pub fn states(&mut self) -> &[State]
        requires begun { IsSome self.old.run }
        requires split { let f = system_functions E.function self.old.system (P.words self.old.past) in
            IfSome self.old.run (λ r. (region_after self.old.system.split f self.old.system.caps r.horizon r.done).is_split ≡ true) }
        ensures states { let f = system_functions E.function self.old.system (P.words self.old.past) in
            IfSome self.old.run (λ r. result.now ≡ (region_after self.old.system.split f self.old.system.caps r.horizon r.done).states) }
        ensures within { (x : List ℕ) → In x result.now → IsBelow x self.old.system.caps }
        ensures rising { IsRising result.now }
        ensures some { 1 ≤ length result.now }
        ensures few { length result.now ≤ self.old.system.split }
        ensures* same { sem 𝓛 (follows_so (the_row (record { mir = named 0; lft = [] }) E.row P.row F.row E.EventLaw P.Past F.Follower) (the_row (record { mir = named 0; lft = [] }) E.row P.row F.row E.EventLaw P.Past F.Follower) self.entry.ghost_name none (λ _ _. ⊤) (λ v. v ≡ self.old)) }
    {
        self.trace.region.states()
    }
}

/// A plan answers the one state with which the region run of a horizon ends, if it ends with one, as
/// [`ending`](Plan::ending) does.
impl<'n, E: EventLaw, P: Past + Drop, F: Follower + Drop> Answers for Plan<'n, E, P, F> {
    ghost use Rattle.std.specs.Prelude.{◌≡◌, ◌≤◌, ◌^◌, None};
    ghost use Rattle.psi_rate.specs.Composition.{system_functions};
    ghost use Rattle.psi_horizon.specs.Runs.{ending_at};
    ghost use Rattle.psi_horizon.specs.Planned.{Drawn};

    type Answer = State;

    ghost Standing = { Drawn E };

    ghost standing = { λ plan. record { system = plan.system; words = P.words plan.past } };

    ghost answer_at = { λ d. ending_at d.system.split (system_functions E.function d.system d.words) d.system.caps };

    ghost Allows = { λ d horizon. (1 ≤ horizon) × (horizon ≤ 2 ^ d.system.limit) };

    ghost IsAsked = { λ plan. plan.run ≡ None };

    fn answer(&mut self, horizon: u32) -> Option<State> {
        self.ending(horizon)
    }
}
