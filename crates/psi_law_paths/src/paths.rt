//! The law of paths of a network, over all its states.

ghost use Rattle.std.specs.Prelude.{◌^◌};
ghost use Rattle.psi_path.specs.Path.{first_place, path_of};
ghost use Rattle.psi_net_model.specs.Network.{rates_of, functions_of};
ghost use Rattle.psi_law.specs.Networks.{chain_of, sample_of, network_chain, network_sample};
ghost use Rattle.psi_law_many.specs.Statements.{HasTails};
ghost use Rattle.psi_law_many.specs.Intervals.{HasIntervals};
ghost use Rattle.psi_law_many.specs.Bets.{HasBets};
ghost use Rattle.psi_law_paths.specs.Statements.{PathIsStationary, PathHasMean, PathHas, UnmetAsSamples, IsWalked};

use crate::kept::networks_are_kept;
use psi_event::EventLaw;
use psi_net_model::Net;
use psi_rate::System;

/// The law of the paths that `Walk::run` walks from the samples that `Plan::sample` returns of a system.
///
/// Over all lists of 2 to the power 22 random words and as many more as the path has steps, with weights of the states that
/// balance and a value of each state from low to high:
///
/// - at each time of the path its state has the stationary distribution, as the sample has (`stationary`);
/// - the sum of the value along the path has its stationary mean, as often as the path has states (`mean`);
/// - over the lists of k such paths, totals are seldom large (`tails`), and intervals for the mean that are made of the paths' sums
///   seldom miss it (`intervals`, `bets`), as for samples;
/// - the share of the paths whose sample did not coalesce is that of such samples (`unmet`);
/// - the states of the path are those that are walked under the same words (`walked`).
pub fn law_of_paths<E: EventLaw>(system: &System<'_, E>)
    ensures stationary { PathIsStationary (chain_of E.function system.now) (sample_of E.function system.now) first_place }
    ensures mean { PathHasMean (chain_of E.function system.now) (sample_of E.function system.now) first_place }
    ensures tails { PathHas (chain_of E.function system.now) (sample_of E.function system.now) first_place HasTails }
    ensures intervals { PathHas (chain_of E.function system.now) (sample_of E.function system.now) first_place HasIntervals }
    ensures bets { PathHas (chain_of E.function system.now) (sample_of E.function system.now) first_place HasBets }
    ensures unmet { UnmetAsSamples (chain_of E.function system.now) (sample_of E.function system.now) first_place (2 ^ system.now.limit) }
    ensures walked { IsWalked (chain_of E.function system.now) (sample_of E.function system.now) first_place (path_of E.function system.now) }
{
    // Called for its clause: the parts fit each other.
    let _caps = system.caps();
}

/// As `law_of_paths`, for a network, whose events do what their kinds say, and the samples that the command `sample` prints of it.
pub fn law_of_network_paths(net: &Net)
    ensures stationary { PathIsStationary (network_chain net.now) (network_sample net.now) first_place }
    ensures mean { PathHasMean (network_chain net.now) (network_sample net.now) first_place }
    ensures tails { PathHas (network_chain net.now) (network_sample net.now) first_place HasTails }
    ensures intervals { PathHas (network_chain net.now) (network_sample net.now) first_place HasIntervals }
    ensures bets { PathHas (network_chain net.now) (network_sample net.now) first_place HasBets }
    ensures unmet { UnmetAsSamples (network_chain net.now) (network_sample net.now) first_place (2 ^ net.now.limit) }
    ensures walked { IsWalked (network_chain net.now) (network_sample net.now) first_place
        (λ words start. record { functions = functions_of net.now; rates = rates_of net.now; words = words; start = start }) }
{
    networks_are_kept(net);
}
