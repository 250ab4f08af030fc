//! The law of paths of a closed network, over the states of its total.

ghost use Rattle.std.specs.Prelude.{◌^◌, All, IsSome};
ghost use Rattle.psi_kinds.specs.Moves.{move_of};
ghost use Rattle.psi_path.specs.Path.{first_place};
ghost use Rattle.psi_closed.specs.Diagram.{IsTotal};
ghost use Rattle.psi_net_model.specs.Network.{caps_of, rates_of, functions_of};
ghost use Rattle.psi_law.specs.Networks.{network_total_chain, network_total_sample};
ghost use Rattle.psi_law_many.specs.Statements.{HasTails};
ghost use Rattle.psi_law_many.specs.Intervals.{HasIntervals};
ghost use Rattle.psi_law_many.specs.Bets.{HasBets};
ghost use Rattle.psi_law_paths.specs.Statements.{PathIsStationary, PathHasMean, PathHas, UnmetAsSamples, IsWalked};

use crate::kept::networks_are_kept;
use psi_net_model::Net;

/// The law of the paths of a network, each of whose events is a move, from the samples that the command `closed` prints of it.
///
/// It is what `law_of_network_paths` says, over the states that hold `total` customers.
pub fn law_of_closed_network_paths(net: &Net, total: u16)
    requires fits { IsTotal (caps_of net.now) total }
    requires moves { All (λ event. IsSome (move_of event.kind)) net.now.events }
    ensures stationary { PathIsStationary (network_total_chain net.now total) (network_total_sample net.now total) first_place }
    ensures mean { PathHasMean (network_total_chain net.now total) (network_total_sample net.now total) first_place }
    ensures tails { PathHas (network_total_chain net.now total) (network_total_sample net.now total) first_place HasTails }
    ensures intervals { PathHas (network_total_chain net.now total) (network_total_sample net.now total) first_place HasIntervals }
    ensures bets { PathHas (network_total_chain net.now total) (network_total_sample net.now total) first_place HasBets }
    ensures unmet { UnmetAsSamples (network_total_chain net.now total) (network_total_sample net.now total) first_place (2 ^ net.now.limit) }
    ensures walked { IsWalked (network_total_chain net.now total) (network_total_sample net.now total) first_place
        (λ words start. record { functions = functions_of net.now; rates = rates_of net.now; words = words; start = start }) }
{
    networks_are_kept(net);
}
