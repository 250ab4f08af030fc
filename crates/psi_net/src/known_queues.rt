//! The queues that the rest of a file may name.

ghost use Rattle.std.specs.Prelude.{◌≡◌, length, map};
ghost use Rattle.psi_state.specs.State.{AreCapacities};
ghost use Rattle.psi_net_model.specs.Valid.{AreListed};

use psi_net_document::KnownNames;
use psi_net_model::Queue;
use psi_state::State;

/// The queues of a file, with their names and capacities. Queues are numbered from 0 in the file's order.
#[derive(Drop)]
pub(crate) struct KnownQueues {
    /// The queues in the order of the file, 1 to 32.
    pub(crate) queues: Vec<Queue>,
    /// Their names in that order.
    pub(crate) names: KnownNames,
    /// Their capacities in that order.
    pub(crate) caps: State,
    ghost listed: { AreListed queues.items },
    ghost named: { names.list.keys ≡ map (λ q. q.name) queues.items },
    ghost held: { caps ≡ map (λ q. q.capacity) queues.items },
    // What follows from these.
    ghost same: { length names.list.keys ≡ length caps },
    ghost valid: { AreCapacities caps },
}
