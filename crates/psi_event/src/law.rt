//! The contract of an event.

ghost use Rattle.std.specs.Prelude.{◌≡◌, ℕ, ◌↔◌, List, Option, IsTrue};
ghost use Rattle.psi_state.specs.State.{AreCapacities, IsBelow, box};
ghost use Rattle.psi_state.specs.Sets.{image};
ghost use Rattle.psi_state.specs.Hull.{corners, IsTight};
ghost use Rattle.psi_event.specs.Law.{IsClosed, IsMonotone, ShowsUpset};

use psi_state::{Bounds, State};

/// An event of a network: it stands for the capacities of the network's queues, a function on the states
/// within them, and a pair of states whose order the function doesn't keep, if there is one.
///
/// No call allocates.
pub trait EventLaw {
    // How many customers each queue has room for.
    ghost capacities: { Self → List ℕ };

    // What the event makes of each state.
    ghost function: { Self → List ℕ → List ℕ };

    // Two states whose order the function doesn't keep, if there are such: those that `upset` answers.
    ghost upset_pair: { Self → Option (List ℕ × List ℕ) };

    /// The capacities, in customers: 1 to 32 queues with room for 1 to 65,535 each.
    fn caps(&self) -> State
        ensures value { result ≡ capacities self.now }
        ensures valid { AreCapacities result };

    /// Puts what the event makes of the state in its place; the new state is within the capacities too.
    fn apply(&self, x: &mut State)
        requires { IsBelow x.old (capacities self.now) }
        ensures value { x.new ≡ function self.now x.old }
        ensures within { IsBelow x.new (capacities self.now) };

    /// Puts the envelope of the box in its place: the least box that holds what the event makes of each
    /// state of the old one. Each of its ends is reached by some state of the old box (the tight envelope
    /// of Bušić, Gaujal and Vincent 2008). It stays within the capacities, and where the event is monotone it
    /// goes from what the event makes of the lower corner to what it makes of the upper one.
    fn envelope(&self, b: &mut Bounds)
        requires { IsBelow b.old.hi (capacities self.now) }
        ensures hull { b.new ≡ corners (image (function self.now) (box b.old.lo b.old.hi)) }
        ensures tight { IsTight (image (function self.now) (box b.old.lo b.old.hi)) b.new.lo b.new.hi }
        ensures within { IsBelow b.new.hi (capacities self.now) }
        ensures monotone { IsMonotone (capacities self.now) (function self.now) → b.new ≡ record { lo = function self.now b.old.lo; hi = function self.now b.old.hi } };

    /// Whether the event keeps the componentwise order of all states (Propp and Wilson 1996).
    fn monotone(&self) -> bool
        ensures { IsTrue result ↔ IsMonotone (capacities self.now) (function self.now) };

    /// Two states within the capacities, the first componentwise at most the second, whose images aren't
    /// in that order; `None` exactly where the event is monotone.
    fn upset(&self) -> Option<(State, State)>
        ensures value { result ≡ upset_pair self.now }
        ensures shown { ShowsUpset (capacities self.now) (function self.now) result };

    // The function makes states of states, at each value of the type: so the steps of a run stay within
    // the capacities whatever their words are.
    ghost closed: { (event : Self) → IsClosed (capacities event) (function event) };
}
