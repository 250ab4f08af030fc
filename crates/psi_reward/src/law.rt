//! The contract of a reward.

ghost use Rattle.std.specs.Prelude.{◌≡◌, ℕ, ℤ, List, map};
ghost use Rattle.psi_state.specs.State.{AreCapacities, IsBelow, box};
ghost use Rattle.psi_reward.specs.Ranges.{least, greatest, IsReached};

use psi_state::{Bounds, State};

/// A reward of a network: it stands for the capacities of the network's queues, and a number for each
/// state within them.
///
/// No call allocates.
pub trait RewardLaw {
    // How many customers each queue has room for.
    ghost capacities: { Self → List ℕ };

    // The number of each state.
    ghost worth: { Self → List ℕ → ℤ };

    /// The number of a state within the capacities, in the unit of the reward: that of its weights or entries,
    /// or else customers or queues.
    fn value(&self, x: &State) -> i64
        requires { IsBelow x.now (capacities self.now) }
        ensures { result ≡ worth self.now x.now };

    /// The least and the greatest number of a state of a box within the capacities, in the same unit. Each is
    /// the number of some state there.
    fn range(&self, b: &Bounds) -> (i64, i64)
        requires { IsBelow b.now.hi (capacities self.now) }
        ensures least { result.0 ≡ least (map (worth self.now) (box b.now.lo b.now.hi)) }
        ensures greatest { result.1 ≡ greatest (map (worth self.now) (box b.now.lo b.now.hi)) }
        ensures least_reached { IsReached (worth self.now) (box b.now.lo b.now.hi) result.0 }
        ensures greatest_reached { IsReached (worth self.now) (box b.now.lo b.now.hi) result.1 };

    // Each value of the type stands for capacities: 1 to 32 queues with room for 1 to 65,535 customers each.
    ghost are_capacities: { (reward : Self) → AreCapacities (capacities reward) };
}
