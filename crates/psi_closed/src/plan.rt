//! The plan to sample a closed network.

ghost use Rattle.std.specs.Prelude.{◌≡◌, ◌≤◌, length, IfOk};
ghost use Rattle.psi_state.specs.State.{AreCapacities};
ghost use Rattle.psi_rate.specs.Outcomes.{outcome_within};
ghost use Rattle.psi_closed.specs.Closed.{closed_ending, AreOrdered};
ghost use Rattle.psi_closed.specs.Diagram.{IsTotal};
ghost use Rattle.psi_closed.specs.Planned.{network_functions, AreMoves, IsClosedSample};

use crate::runs::ending;
use crate::{Diagram, OutOfMemory};
use psi_kinds::Move;
use psi_past::Past;
use psi_rate::{Answers, EventNumbers, Wheel, first_answer_near, outcome_of};
use psi_state::{Outcome, State};
use std::alloc::Global;
use std::marker::Model;

/// A closed network, the number of its customers, and the past that its samples are drawn from, with the room for a
/// diagram and for the numbers of the events of the greatest horizon's words.
///
/// It is seen as the network, its number of customers with it, and the past.
pub struct ClosedPlan<'n, P: Past + Drop> {
    diagram: Diagram,
    moves: &'n [Move],
    wheel: &'n Wheel,
    limit: u8,
    past: P,
    // The numbers of the events of the words, as far as they were picked.
    numbers: EventNumbers,
    // The exponent of the horizon with which the next sample begins.
    guess: u8,
}

impl<'n, P: Past + Drop> Model for ClosedPlan<'n, P> {
    ghost use Rattle.psi_closed.specs.Planned.{ClosedPlanned, IsPlan};

    ghost Value = { ClosedPlanned P };

    ghost view = { λ p. record {
      network = record { caps = p.diagram.caps; total = p.diagram.total; moves = p.moves.now; rates = p.wheel.now; limit = p.limit };
      past = p.past;
    } };

    ghost invariant = { λ p. IsPlan p.diagram p.moves.now p.wheel.now p.limit (P.words p.past) p.numbers };
}

// By hand, so that the end of a plan is a call where it ends, and not all of its steps.
impl<'n, P: Past + Drop> Drop for ClosedPlan<'n, P> {
    fn drop(self) {
        let ClosedPlan {
            diagram: _,
            moves: _,
            wheel: _,
            limit: _,
            past: _,
            numbers: _,
            guess: _,
        } = self;
    }
}

// How many customers queues of these capacities have room for.
fn room(caps: &State) -> u32 {
    let mut places = 0u32;
    for queue in 0..caps.len() {
        places = places.saturating_add(u32::from(caps.get(queue)));
    }
    places
}

// The exponent of the horizon with which the first sample begins: about as many steps as there are queues, times the
// customers, or the free places where these are fewer. States may differ by where all of these are, and a step moves one
// from one queue, if any; so most shorter runs end with more states than one.
fn first_guess(caps: &State, total: u16) -> u8 {
    let customers = u32::from(total);
    let free = room(caps).saturating_sub(customers);
    let bits = 8 - caps.len().leading_zeros() + (32 - customers.min(free).leading_zeros());
    bits.saturating_sub(2) as u8
}

impl<'n, P: Past + Drop> ClosedPlan<'n, P> {
    /// The plan to sample the network of these capacities and moves, in the wheel's order, among the states that hold
    /// `total` customers, 0 to 256 and no more than the queues have room for. Each move's queues are two of the
    /// network, and it wants from 1 to its source's capacity of customers there. `limit` is the exponent of the
    /// greatest horizon, 0 to 22.
    ///
    /// It allocates a diagram and the numbers of the events of the greatest horizon, 2 to the power `limit` of 2 bytes
    /// each; `sample` does not allocate.
    ///
    /// # Errors
    ///
    /// `OutOfMemory` if an allocation fails; no clause says when that is.
    pub fn new(
        alloc: Global,
        caps: State,
        moves: &'n [Move],
        wheel: &'n Wheel,
        limit: u8,
        total: u16,
        past: P,
    ) -> Result<ClosedPlan<'n, P>, OutOfMemory>
        requires valid { AreCapacities caps }
        requires fits { IsTotal caps total }
        requires moves { AreMoves caps moves.now }
        requires same_count { length moves.now ≡ length wheel.now }
        requires most_limit { limit ≤ 22 }
        ensures { IfOk result (λ plan. plan ≡ record {
          network = record { caps = caps; total = total; moves = moves.entry.now; rates = wheel.entry.now; limit = limit };
          past = past;
        }) }
    {
        let numbers = EventNumbers::reserve(alloc, 1 << limit)?;
        let diagram = Diagram::reserve(alloc, caps, total)?;
        let guess = first_guess(&caps, total);
        Ok(ClosedPlan {
            diagram,
            moves,
            wheel,
            limit,
            past,
            numbers,
            guess,
        })
    }

    /// Takes other words for the next samples. The network and the number of its customers stay. It does not allocate.
    pub fn replace(&mut self, past: P)
        ensures { self.new ≡ record self.old { past = past } }
    {
        self.past = past;
        self.numbers.clear();
    }

    /// The sample: the least horizon among 1, 2, 4, .., 2 to the power `limit` whose closed run ends with one state,
    /// with that state, which is within the capacities and holds the total. Every state that holds the total and
    /// starts there or earlier is in it at time zero. It isn't met exactly where none of these runs ends with one
    /// state; then all states of the total may still have met.
    ///
    /// The closed run of a horizon begins with all states of the total that many steps before time zero. At each
    /// step, the move of its word makes of the states the arc hull of their image; an idle step changes nothing. The
    /// same words are used for the same time at each horizon (Propp and Wilson 1996), so the states of a longer run
    /// are among those of a shorter one.
    ///
    /// The first sample begins with about as many steps as there are queues, times the customers or the free places,
    /// whichever are fewer. Each other one begins with half the horizon of the one before, or with the greatest where that
    /// isn't met. So most samples take fewer steps: a run that ends with one state does so at each longer horizon, and the
    /// least one may be looked for from any.
    pub fn sample(&mut self) -> Outcome
        ensures outcome { let f = network_functions self.old.network (P.words self.old.past) in
            result ≡ outcome_within (closed_ending self.old.network.caps self.old.network.total f) self.old.network.limit }
        ensures sample { let f = network_functions self.old.network (P.words self.old.past) in
            IsClosedSample self.old.network.caps self.old.network.total f self.old.network.limit result }
        ensures order { let f = network_functions self.old.network (P.words self.old.past) in
            AreOrdered self.old.network.caps self.old.network.total f }
        ensures network { self.new.network ≡ self.old.network }
        ensures words { P.words self.new.past ≡ P.words self.old.past }
    {
        let limit = self.limit;
        let guess = self.guess;
        let outcome = outcome_of(limit, first_answer_near(self, limit, guess));
        self.guess_by(&outcome);
        outcome
    }

    // The next sample begins with half the horizon of this one, since most have this horizon or the one above or
    // below; where this one isn't met, with the greatest horizon, since most of the next ones aren't met either.
    fn guess_by(&mut self, outcome: &Outcome)
        ensures { self.new ≡ self.old }
    {
        self.guess = match outcome {
            Outcome::Met { horizon, .. } => horizon.trailing_zeros().saturating_sub(1) as u8,
            Outcome::NotMet { limit } => *limit,
        };
    }
}

/// A plan answers the one state with which the closed run of a horizon ends, at most 2 to the power `limit` steps
/// before time zero, if it ends with one.
impl<'n, P: Past + Drop> Answers for ClosedPlan<'n, P> {
    ghost use Rattle.std.specs.Prelude.{◌≤◌, ◌^◌};
    ghost use Rattle.psi_closed.specs.Closed.{closed_ending};
    ghost use Rattle.psi_closed.specs.Planned.{ClosedDrawn, network_functions};

    type Answer = State;

    ghost Standing = { ClosedDrawn };

    ghost standing = { λ plan. record { network = plan.network; words = P.words plan.past } };

    ghost answer_at = { λ d. closed_ending d.network.caps d.network.total (network_functions d.network d.words) };

    ghost Allows = { λ d horizon. horizon ≤ 2 ^ d.network.limit };

    fn answer(&mut self, horizon: u32) -> Option<State> {
        ending(
            self.moves,
            self.wheel,
            &mut self.past,
            &mut self.numbers,
            &mut self.diagram,
            horizon,
        )
    }
}
