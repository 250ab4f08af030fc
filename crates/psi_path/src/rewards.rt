//! The contract of the rewards that are summed along a path.

ghost use Rattle.std.specs.Prelude.{◌≡◌, ◌<◌, ℕ, List, length, IsTrue};
ghost use Rattle.psi_state.specs.State.{IsBelow};
ghost use Rattle.psi_path.specs.Sums.{Worth, worth_at};
ghost use Rattle.psi_path.specs.Additive.{IsAdditive};

use psi_state::State;

/// The rewards of a network, by their numbers from 0 on: for each a number for every state within the capacities.
///
/// No call allocates.
pub trait Rewards {
    // How many customers each queue has room for.
    ghost capacities: { Self → List ℕ };

    // What each reward makes of each state.
    ghost worths: { Self → List Worth };

    /// The number of rewards.
    fn count(&self) -> usize
        ensures { result ≡ length (worths self.now) };

    /// What reward `r` makes of a state within the capacities, in the unit of the reward.
    fn value(&self, r: usize, x: &State) -> i64
        requires place { r < length (worths self.now) }
        requires within { IsBelow x.now (capacities self.now) }
        ensures { result ≡ worth_at (worths self.now) r x.now };

    /// Whether reward `r` is known to be additive: it rises by as much from one state to another as from a third to a fourth
    /// wherever the customers of each queue do. A sum of weight times number held is.
    fn is_additive(&self, r: usize) -> bool
        requires { r < length (worths self.now) }
        ensures { IsTrue result → IsAdditive (capacities self.now) (worth_at (worths self.now) r) }
    {
        // The trait knows of no reward more than its values.
        let _reward = r;
        false
    }
}
