//! The plan for a network.

ghost use Rattle.std.specs.Prelude.{◌≡◌, ◌≤◌, IfOk};
ghost use Rattle.psi_net_model.specs.Valid.{IsNetwork};
ghost use Rattle.psi_reply.specs.Networks.{IsSystemOf};

use psi_event::EventLaw;
use psi_follow::{Way, plan_of};
use psi_horizon::{OutOfMemory, Plan};
use psi_kinds::Event;
use psi_net_model::Net;
use psi_past::SeedPast;
use std::alloc::Global;

/// The plan for a network, from the past of a seed and a stream.
pub type NetPlan<'n> = Plan<'n, Event, SeedPast, Way<'n, Event>>;

/// Returns the plan for a network under the words of a seed and a stream. The network is one that can be sampled.
pub fn plan_for<'n>(
    alloc: Global,
    net: &'n Net,
    seed: u64,
    stream: u64,
) -> Result<NetPlan<'n>, OutOfMemory>
    ensures system { IfOk result (λ plan. IsSystemOf ⟦<Event as EventLaw>⟧.function net.now plan.system) }
    ensures past { IfOk result (λ plan. plan.past ≡ record { seed = seed; stream = stream }) }
    ensures limit { IfOk result (λ plan. plan.system.limit ≤ 22) }
    ensures kept { IsNetwork net.now }
{
    plan_of(alloc, net.system(), SeedPast::new(seed, stream))
}
