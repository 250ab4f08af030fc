//! The contract of a follower.

ghost use Rattle.std.specs.Prelude.{◌≡◌, length, IfSome};
ghost use Rattle.psi_event.specs.Numbers.{AreEvents};
ghost use Rattle.psi_region.specs.Followed.{Followed, AreEnds, IsOne, states_of, ending_of};

use psi_state::{Bounds, State};

/// A way to follow the runs of a network. It stands for the network's capacities, the functions of its events and its
/// split number, and returns with which state a run ends.
///
/// No call allocates.
pub trait Follower {
    // The network whose runs it follows.
    ghost stands_for: { Self → Followed };

    /// The one state with which the region of all states ends after the events of these numbers, the last number's
    /// event first; `None` exactly where it ends with more (coupling from the past, Propp and Wilson 1996, over the
    /// regions of Bušić, Gaujal and Vincent 2008). The numbers count the events from 0.
    ///
    /// Another run may be followed afterwards: it does not depend on this one.
    fn ending(&mut self, numbers: &[u16]) -> Option<State>
        requires numbers { AreEvents (length (stands_for self.old).functions) numbers.now }
        ensures ending { result ≡ ending_of (stands_for self.old) numbers.now }
        ensures same { stands_for self.new ≡ stands_for self.old };

    /// The least and the greatest state with which the region of all states ends after the events of these numbers, the
    /// last number's event first, where the follower finds them as fast as it finds an ending: both are states of the
    /// region, and its other states lie between them. `None` is an answer at any time; no clause says when it comes.
    ///
    /// Another run may be followed afterwards, as after [`ending`](Follower::ending).
    fn ends(&mut self, numbers: &[u16]) -> Option<Bounds>
        requires numbers { AreEvents (length (stands_for self.old).functions) numbers.now }
        ensures ends { IfSome result (λ b. AreEnds b (states_of (stands_for self.old) numbers.now)) }
        ensures same { stands_for self.new ≡ stands_for self.old }
    {
        None
    }
}

/// Returns the state that two states are, exactly where they are one.
pub fn one_of(first: State, second: State) -> Option<State>
    ensures { IsOne first second result }
{
    if first == second { Some(first) } else { None }
}
