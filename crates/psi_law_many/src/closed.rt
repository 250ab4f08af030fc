//! The law of many samples of a closed network, over the states of its total.

ghost use Rattle.std.specs.Prelude.{◌≡◌, ◌^◌, length, All, IsSome};
ghost use Rattle.psi_kinds.specs.Moves.{move_of};
ghost use Rattle.psi_closed.specs.Diagram.{IsTotal};
ghost use Rattle.psi_closed.specs.Planned.{AreMoves};
ghost use Rattle.psi_net_model.specs.Network.{caps_of};
ghost use Rattle.psi_law.specs.Networks.{closed_chain, closed_sample, network_total_chain, network_total_sample};
ghost use Rattle.psi_law_many.specs.Intervals.{HasIntervals};
ghost use Rattle.psi_law_many.specs.Bets.{HasBets};
ghost use Rattle.psi_law_many.specs.Statements.{HasTails, StationaryIsMeasured, BalanceIsNear, BalanceHas, BalanceHasQuantiles, UnmetAdds};

use psi_kinds::Move;
use psi_law::{law_of_closed_network, law_of_closed_samples};
use psi_net_model::Net;
use psi_rate::Wheel;
use psi_state::State;

/// The law of k samples that `ClosedPlan::sample` returns, of what a closed plan is made of.
///
/// It is what `law_of_many_samples` says of a system, over the states that hold `total` customers.
pub fn law_of_many_closed_samples(caps: State, moves: &[Move], wheel: &Wheel, limit: u8, total: u16)
    requires fits { IsTotal caps total }
    requires moves { AreMoves caps moves.now }
    requires same_count { length moves.now ≡ length wheel.now }
    ensures stationary { StationaryIsMeasured (closed_chain caps total moves.now wheel.now) (closed_sample caps total moves.now wheel.now limit) (2 ^ limit) }
    ensures near { BalanceIsNear (closed_chain caps total moves.now wheel.now) (closed_sample caps total moves.now wheel.now limit) (2 ^ limit) }
    ensures tails { BalanceHas (closed_chain caps total moves.now wheel.now) (closed_sample caps total moves.now wheel.now limit) (2 ^ limit) HasTails }
    ensures intervals { BalanceHas (closed_chain caps total moves.now wheel.now) (closed_sample caps total moves.now wheel.now limit) (2 ^ limit) HasIntervals }
    ensures bets { BalanceHas (closed_chain caps total moves.now wheel.now) (closed_sample caps total moves.now wheel.now limit) (2 ^ limit) HasBets }
    ensures quantiles { BalanceHasQuantiles (closed_chain caps total moves.now wheel.now) (closed_sample caps total moves.now wheel.now limit) (2 ^ limit) }
    ensures unmet { UnmetAdds (closed_chain caps total moves.now wheel.now) (closed_sample caps total moves.now wheel.now limit) (2 ^ limit) }
{
    law_of_closed_samples(caps, moves, wheel, limit, total);
}

/// As `law_of_many_closed_samples`, for the samples that the command `closed` prints of a network, each of whose events is a move.
pub fn law_of_many_closed_network(net: &Net, total: u16)
    requires fits { IsTotal (caps_of net.now) total }
    requires moves { All (λ event. IsSome (move_of event.kind)) net.now.events }
    ensures stationary { StationaryIsMeasured (network_total_chain net.now total) (network_total_sample net.now total) (2 ^ net.now.limit) }
    ensures near { BalanceIsNear (network_total_chain net.now total) (network_total_sample net.now total) (2 ^ net.now.limit) }
    ensures tails { BalanceHas (network_total_chain net.now total) (network_total_sample net.now total) (2 ^ net.now.limit) HasTails }
    ensures intervals { BalanceHas (network_total_chain net.now total) (network_total_sample net.now total) (2 ^ net.now.limit) HasIntervals }
    ensures bets { BalanceHas (network_total_chain net.now total) (network_total_sample net.now total) (2 ^ net.now.limit) HasBets }
    ensures quantiles { BalanceHasQuantiles (network_total_chain net.now total) (network_total_sample net.now total) (2 ^ net.now.limit) }
    ensures unmet { UnmetAdds (network_total_chain net.now total) (network_total_sample net.now total) (2 ^ net.now.limit) }
{
    law_of_closed_network(net, total);
}
