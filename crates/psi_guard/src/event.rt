//! What a guarded event does to states and boxes of states.

ghost use Rattle.std.specs.Prelude.{◌≡◌, ◌<◌, ◌≤◌, ◌↔◌, IsTrue, length, slice_index, unsigned_abs};
ghost use Rattle.psi_state.specs.State.{AreCapacities, IsBelow, box};
ghost use Rattle.psi_state.specs.Sets.{image};
ghost use Rattle.psi_state.specs.Hull.{corners, IsTight};
ghost use Rattle.psi_event.specs.Law.{IsClosed, IsMonotone, ShowsUpset};
ghost use Rattle.psi_guard.specs.Guarding.{all_allow, guarded, moved, upset_of};
ghost use Rattle.psi_guard.specs.Refusals.{FitsQueue, at};
ghost use Rattle.psi_guard.specs.Inner.RuleLaws.{guarded-closed};

use crate::guarded::Guarded;
use crate::parts::Part;
use psi_event::EventLaw;
use psi_state::{Bounds, State};

impl EventLaw for Guarded {
    ghost capacities = { λ event. event.caps };

    ghost function = { λ event. guarded event.parts };

    ghost upset_pair = { λ event. upset_of event.caps event.parts };

    ghost closed = { λ event. guarded-closed event.caps event.parts event.guards };

    fn caps(&self) -> State {
        self.caps
    }

    fn apply(&self, x: &mut State) {
        if self.count() <= 1 {
            self.apply_one(x);
        } else if self.allows(x) {
            self.move_each(x);
        }
    }

    fn envelope(&self, b: &mut Bounds) {
        self.move_ends(b);
    }

    fn upset(&self) -> Option<(State, State)> {
        if let Some(pair) = self.first_own_above() {
            return Some(pair);
        }
        if let Some(pair) = self.first_other_above() {
            return Some(pair);
        }
        if let Some(pair) = self.first_own_below() {
            return Some(pair);
        }
        self.first_other_below()
    }

    fn monotone(&self) -> bool {
        self.upset().is_none()
    }
}

impl Guarded {
    // The number of parts.
    pub(crate) fn count(&self) -> u8
        ensures { result ≡ length self.now.parts }
    {
        self.parts.len()
    }

    // The part at a place.
    pub(crate) fn part(&self, i: u8) -> Part
        requires { i < length self.now.parts }
        ensures value { result ≡ at self.now.parts i }
        ensures fits { FitsQueue self.now.caps result }
    {
        self.parts.get(i)
    }

    // Moves the queue of the only part, if there is one, where it holds a number from its least to its most. An
    // event that names one queue looks at it once.
    fn apply_one(&self, x: &mut State)
        requires few { length self.now.parts ≤ 1 }
        requires below { IsBelow x.old self.now.caps }
        ensures { x.new ≡ guarded self.now.parts x.old }
    {
        if self.count() == 0 {
            return;
        }
        let part = self.part(0);
        let held = x.get(part.queue);
        if part.least <= held && held <= part.most {
            x.set(part.queue, moved(part, held));
        }
    }

    // Whether every named queue holds a number from its least to its most.
    fn allows(&self, x: &State) -> bool
        requires { IsBelow x.now self.now.caps }
        ensures { result ≡ all_allow self.now.parts x.now }
    {
        for i in 0..self.count() {
            let part = self.part(i);
            let held = x.get(part.queue);
            if held < part.least || part.most < held {
                return false;
            }
        }
        true
    }

    // Moves every named queue.
    fn move_each(&self, x: &mut State)
        requires below { IsBelow x.old self.now.caps }
        requires allowed { IsTrue (all_allow self.now.parts x.old) }
        ensures { x.new ≡ guarded self.now.parts x.old }
    {
        for i in 0..self.count() {
            let part = self.part(i);
            let held = x.get(part.queue);
            x.set(part.queue, moved(part, held));
        }
    }
}

// What a part makes of a number of customers.
pub(crate) fn moved(part: Part, held: u16) -> u16
    requires { unsigned_abs part.shift ≤ 65535 }
    ensures { result ≡ moved part held }
{
    let shifted = held as i32 + part.shift;
    let raised = shifted.max(part.floor as i32);
    raised.min(part.ceiling as i32) as u16
}
