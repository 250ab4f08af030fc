//! The rewards of a network, as they are summed along a path.

ghost use Rattle.std.specs.Prelude.{◌≡◌, ◌≤◌, length};

use psi_net_model::Net;
use psi_path::Rewards;
use psi_reward::RewardLaw;
use psi_state::State;

/// The rewards of a network, by their numbers in its list.
#[derive(Drop)]
pub struct NetRewards<'n> {
    /// The network.
    pub net: &'n Net,
}

impl<'n> Rewards for NetRewards<'n> {
    ghost use Rattle.psi_net_model.specs.Network.{caps_of};
    ghost use Rattle.psi_table.specs.Paths.{worths_of};

    ghost capacities = { λ r. caps_of r.net.now };

    ghost worths = { λ r. worths_of r.net.now };

    fn count(&self) -> usize {
        self.net.rewards() as usize
    }

    fn value(&self, r: usize, x: &State) -> i64 {
        // Called for its clause: there are at most 64 rewards.
        let _queues = self.net.queues();
        self.net.reward(r as u8).value(x)
    }

    fn is_additive(&self, r: usize) -> bool {
        // Called for its clause: there are at most 64 rewards.
        let _queues = self.net.queues();
        self.net.reward(r as u8).is_linear()
    }
}
