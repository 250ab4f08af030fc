//! A network by its keys.

ghost use Rattle.std.specs.Prelude.{◌≡◌, ◌<◌, length, map, slice_index, slice_index_or, All, IsTrue, IfOk, IfSome, EachIndex};
ghost use Rattle.psi_state.specs.State.{IsBelow};
ghost use Rattle.psi_follow_keyed.specs.Keyed.{IsKeyed, AreStepsFor, IsStepFor, Follows};
ghost use Rattle.psi_follow_keyed.specs.Keys.{AreRanked, AreKeys, Joins};

use crate::board::Board;
use crate::marked::Marked;
use crate::step::Step;
use psi_route::RouteLaw;
use psi_state::State;
use std::alloc::{AllocError, Global};
use std::marker::Model;

/// A network in which customers from outside join, one at a time, the queue with the least key, and customers leave queues.
pub struct Keyed {
    board: Board,
    steps: Vec<Step>,
}

impl Model for Keyed {
    ghost use Rattle.psi_follow_keyed.specs.Keyed.{Keying, AreSteps};

    ghost Value = { Keying };

    ghost view = { λ k. record { keys = k.board; steps = k.steps.items } };

    ghost invariant = { λ k. AreSteps k.board k.steps.items };
}

// By hand, so that the end of such a network is a call where it ends, and not all of its steps.
impl Drop for Keyed {
    fn drop(self) {
        let Keyed { board: _, steps: _ } = self;
    }
}

impl Keyed {
    /// Returns the network of these events, which are for these capacities; `None` where it is none of those: one event
    /// is a route by which customers from outside join, one at a time, the target with the least key, where no key's
    /// value is above 2^27 - 2, and each other event is a route without a target.
    ///
    /// It takes 4 bytes for each target and each number of customers from 0 to its capacity, or up to twice that, and 8 bytes for
    /// each event.
    ///
    /// # Errors
    ///
    /// `AllocError` if an allocation fails; no clause says when that is. No other call allocates.
    pub fn new<E: RouteLaw>(
        alloc: Global,
        caps: State,
        events: &[E],
    ) -> Result<Option<Keyed>, AllocError>
        requires { All (λ e. E.capacities e ≡ caps) events.now }
        ensures { IfOk result (λ found. IfSome found (λ keyed. IsKeyed caps (map E.function events.now) keyed)) }
    {
        let Some(number) = first_joining(events) else {
            return Ok(None);
        };
        let Some(board) = Board::of(alloc, &events[number])? else {
            return Ok(None);
        };
        let Some(steps) = steps_of(alloc, &board, events, number)? else {
            return Ok(None);
        };
        Ok(Some(Keyed { board, steps }))
    }

    /// Puts what the events of these numbers make of each of the two states in its place: the last number's event
    /// comes first.
    pub fn follow(&self, numbers: &[u16], low: &mut State, high: &mut State)
        requires numbers { EachIndex numbers.now (λ i. slice_index numbers.now i < length self.now.steps) }
        requires low { IsBelow low.old self.now.keys.caps }
        requires high { IsBelow high.old self.now.keys.caps }
        ensures low { Follows self.now numbers.now low.old low.new }
        ensures high { Follows self.now numbers.now high.old high.new }
    {
        let mut least = Marked::of(&self.board, low);
        let mut greatest = Marked::of(&self.board, high);
        self.advance(numbers, &mut least, &mut greatest);
        *low = least.state;
        *high = greatest.state;
    }

    // As `follow`, on states whose keys are kept beside them.
    #[inline(never)]
    fn advance(&self, numbers: &[u16], low: &mut Marked, high: &mut Marked)
        requires numbers { EachIndex numbers.now (λ i. slice_index numbers.now i < length self.now.steps) }
        requires ranked { AreRanked self.now.keys }
        requires low { IsBelow low.old.state self.now.keys.caps }
        requires low_keys { AreKeys self.now.keys low.old.state low.old.keys }
        requires high { IsBelow high.old.state self.now.keys.caps }
        requires high_keys { AreKeys self.now.keys high.old.state high.old.keys }
        ensures low { Follows self.now numbers.now low.old.state low.new.state }
        ensures high { Follows self.now numbers.now high.old.state high.new.state }
    {
        let steps = self.steps.as_slice();
        for place in (0..numbers.len()).rev() {
            let step = steps[numbers[place] as usize];
            low.advance(&self.board, step);
            high.advance(&self.board, step);
        }
    }
}

// The steps of the events, of which the one of this number is the join.
fn steps_of<E: RouteLaw>(
    alloc: Global,
    board: &Board,
    events: &[E],
    number: usize,
) -> Result<Option<Vec<Step>>, AllocError>
    requires caps { All (λ e. E.capacities e ≡ board.now.caps) events.now }
    requires joins { Joins board.now (slice_index_or (map E.function events.now) number (λ x. x)) }
    ensures { IfOk result (λ found. IfSome found (λ steps. AreStepsFor board.now (map E.function events.now) steps.items)) }
{
    let mut steps = Vec::with_capacity(alloc, events.len())?;
    for at in 0..events.len() {
        let Some(step) = step_of(board, &events[at], at == number) else {
            return Ok(None);
        };
        steps.push_reserved(step);
    }
    Ok(Some(steps))
}

// The step of an event, which is the join or has none.
fn step_of<E: RouteLaw>(board: &Board, event: &E, joins: bool) -> Option<Step>
    requires caps { E.capacities event.now ≡ board.now.caps }
    requires joins { IsTrue joins → Joins board.now (E.function event.now) }
    ensures { IfSome result (λ step. IsStepFor board.now (E.function event.now) step) }
{
    if joins {
        return Some(Step::Join);
    }
    Step::leaving(event, &board.targets())
}

// The number of the first event that is a route with targets, if there is one.
fn first_joining<E: RouteLaw>(events: &[E]) -> Option<usize>
    ensures { IfSome result (λ number. number < length events.now) }
{
    for number in 0..events.len() {
        if let Some(route) = events[number].as_route() {
            if route.targets().len() > 0 {
                return Some(number);
            }
        }
    }
    None
}
