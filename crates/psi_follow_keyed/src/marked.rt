//! A state with its keys.

ghost use Rattle.std.specs.Prelude.{◌≡◌, ◌<◌, ◌≤◌, ℕ, List, length, slice_index};
ghost use Rattle.psi_state.specs.State.{IsBelow};
ghost use Rattle.psi_follow_keyed.specs.Keys.{no_key, AreRanked, AreKeys, IsChosen, IsPlaceOf, Joins, left};
ghost use Rattle.psi_follow_keyed.specs.Steps.{IsStep, IsMade};

use crate::board::Board;
use crate::step::Step;
use psi_state::State;

// The key where a target has no room: above all others.
const NO_KEY: u32 = u32::MAX;

/// A state, and beside it the key of the target at each place; past the last place there is the key above all others.
#[derive(Clone, Copy)]
pub(crate) struct Marked {
    pub state: State,
    pub keys: [u32; 32],
}

impl Marked {
    /// Returns a state with its keys.
    pub fn of(board: &Board, state: &State) -> Marked
        requires { IsBelow state.now board.now.caps }
        ensures state { result.state ≡ state.now }
        ensures keys { AreKeys board.now state.now result.keys }
        ensures ranked { AreRanked board.now }
    {
        let mut keys = [NO_KEY; 32];
        let targets = board.targets();
        for place in 0..targets.len() {
            keys[place as usize] = board.key(place, state.get(targets.get(place)));
        }
        Marked {
            state: *state,
            keys,
        }
    }

    /// Puts what the step makes of the state in its place, with its keys.
    #[inline(always)]
    pub fn advance(&mut self, board: &Board, step: Step)
        requires ranked { AreRanked board.now }
        requires step { IsStep board.now step }
        requires within { IsBelow self.old.state board.now.caps }
        requires keys { AreKeys board.now self.old.state self.old.keys }
        ensures made { IsMade board.now step self.old.state self.new.state }
        ensures within { IsBelow self.new.state board.now.caps }
        ensures keys { AreKeys board.now self.new.state self.new.keys }
    {
        match step {
            Step::Still => {}
            Step::Leave {
                queue,
                least,
                place,
            } => self.leave(board, queue, least, place),
            Step::Join => self.join(board),
        }
    }

    // A customer leaves the queue where it holds at least `least`.
    #[inline]
    fn leave(&mut self, board: &Board, queue: u8, least: u16, place: u8)
        requires ranked { AreRanked board.now }
        requires queue { queue < length board.now.caps }
        requires least { 1 ≤ least }
        requires place { IsPlaceOf board.now.targets queue place }
        requires within { IsBelow self.old.state board.now.caps }
        requires keys { AreKeys board.now self.old.state self.old.keys }
        ensures left { self.new.state ≡ left queue least self.old.state }
        ensures within { IsBelow self.new.state board.now.caps }
        ensures keys { AreKeys board.now self.new.state self.new.keys }
    {
        let held = self.state.get(queue);
        let number = held - (held >= least) as u16;
        self.state.set(queue, number);
        if place < 32 {
            self.keys[place as usize] = board.key(place, number);
        }
    }

    // A customer joins the target with the least key, where one has room.
    #[inline]
    fn join(&mut self, board: &Board)
        requires ranked { AreRanked board.now }
        requires within { IsBelow self.old.state board.now.caps }
        requires keys { AreKeys board.now self.old.state self.old.keys }
        ensures joined { (f : List ℕ → List ℕ) → Joins board.now f → self.new.state ≡ f self.old.state }
        ensures within { IsBelow self.new.state board.now.caps }
        ensures keys { AreKeys board.now self.new.state self.new.keys }
    {
        let least = least_of(&self.keys);
        if least == NO_KEY {
            return;
        }
        self.join_chosen(board, least);
    }

    // A customer joins the target whose key is the least of all.
    #[inline]
    fn join_chosen(&mut self, board: &Board, least: u32)
        requires ranked { AreRanked board.now }
        requires within { IsBelow self.old.state board.now.caps }
        requires keys { AreKeys board.now self.old.state self.old.keys }
        requires chosen { IsChosen board.now self.old.state least }
        requires some { least < no_key }
        ensures joined { (f : List ℕ → List ℕ) → Joins board.now f → self.new.state ≡ f self.old.state }
        ensures within { IsBelow self.new.state board.now.caps }
        ensures keys { AreKeys board.now self.new.state self.new.keys }
    {
        let place = (least % 32) as u8;
        let queue = board.queue(place);
        let number = self.state.get(queue) + 1;
        self.state.set(queue, number);
        self.keys[place as usize] = board.key(place, number);
    }
}

// The least of the keys.
#[inline]
fn least_of(keys: &[u32; 32]) -> u32
    ensures below { (i : ℕ) → i < 32 → result ≤ slice_index keys.now i }
    ensures reached { (i : ℕ) × (i < 32) × (slice_index keys.now i ≡ result) }
{
    let mut least = keys[0];
    for i in 1..32 {
        least = least.min(keys[i]);
    }
    least
}
