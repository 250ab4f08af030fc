//! The law of samples of a closed network, over the states of its total.

ghost use Rattle.std.specs.Prelude.{◌≡◌, ◌^◌, ◌↔◌, length, All, IsSome};
ghost use Rattle.psi_state.specs.declared.Outcome.{Outcome};
ghost use Rattle.psi_kinds.specs.Moves.{move_of};
ghost use Rattle.psi_rate.specs.Composition.{function_at};
ghost use Rattle.psi_closed.specs.Diagram.{IsTotal};
ghost use Rattle.psi_closed.specs.Planned.{AreMoves, IsClosedSample};
ghost use Rattle.psi_closed.specs.Planned.{closed_functions as moves_by_time};
ghost use Rattle.psi_net_model.specs.Network.{caps_of, rates_of, functions_of};
ghost use Rattle.psi_law.specs.Counting.{Words};
ghost use Rattle.psi_law.specs.Chains.{IsChain};
ghost use Rattle.psi_law.specs.Samples.{Reaches, HasStationaryLaw};
ghost use Rattle.psi_law.specs.Networks.{closed_chain, moves_ending, closed_sample, network_total_chain, network_total_ending, network_total_sample};
ghost use Rattle.psi_law.specs.Statements.{BalanceStays, BalanceIsLaw, BalanceIsOne, BalanceIsMean, BalanceIsSignedMean, ApartFalls, MixesAsCoupled, UncoalescedFalls, UnmetIsUncoalesced, LimitSquares, LooksAtFirst};

use crate::kept::{networks_are_kept, wheels_have_rates};
use psi_kinds::Move;
use psi_net_model::Net;
use psi_rate::Wheel;
use psi_state::State;

/// The law of the samples that `ClosedPlan::sample` answers, for the parts that a closed plan is made of.
///
/// It is that of `law_of_samples`, over the states that hold `total` customers instead of all states.
pub fn law_of_closed_samples(caps: State, moves: &[Move], wheel: &Wheel, limit: u8, total: u16)
    requires fits { IsTotal caps total }
    requires moves { AreMoves caps moves.now }
    requires same_count { length moves.now ≡ length wheel.now }
    ensures chain { IsChain (closed_chain caps total moves.now wheel.now) }
    ensures reaches { Reaches (closed_chain caps total moves.now wheel.now) (closed_sample caps total moves.now wheel.now limit) (2 ^ limit) }
    ensures balance { BalanceStays (closed_chain caps total moves.now wheel.now) }
    ensures law { BalanceIsLaw (closed_chain caps total moves.now wheel.now) (closed_sample caps total moves.now wheel.now limit) (2 ^ limit) }
    ensures stationary { HasStationaryLaw (closed_sample caps total moves.now wheel.now limit) (2 ^ limit) (closed_chain caps total moves.now wheel.now) }
    ensures falls { ApartFalls (closed_chain caps total moves.now wheel.now) }
    ensures mixing { MixesAsCoupled (closed_chain caps total moves.now wheel.now) }
    ensures one { BalanceIsOne (closed_chain caps total moves.now wheel.now) }
    ensures mean { BalanceIsMean (closed_chain caps total moves.now wheel.now) (closed_sample caps total moves.now wheel.now limit) (2 ^ limit) }
    ensures signed_mean { BalanceIsSignedMean (closed_chain caps total moves.now wheel.now) (closed_sample caps total moves.now wheel.now limit) (2 ^ limit) }
    ensures runs { UncoalescedFalls (moves_ending caps total moves.now wheel.now) }
    ensures unmet { UnmetIsUncoalesced (moves_ending caps total moves.now wheel.now) }
    ensures square { LimitSquares (moves_ending caps total moves.now wheel.now) }
    ensures sample { (past : Words) (outcome : Outcome) → IsClosedSample caps total (moves_by_time caps moves.now wheel.now past) limit outcome
        ↔ (outcome ≡ closed_sample caps total moves.now wheel.now limit past) }
    ensures words { LooksAtFirst (closed_sample caps total moves.now wheel.now limit) (2 ^ limit) }
{
    wheels_have_rates(wheel);
}

/// As `law_of_closed_samples`, of the samples that the command `closed` prints for a network, each of whose events is a move.
pub fn law_of_closed_network(net: &Net, total: u16)
    requires fits { IsTotal (caps_of net.now) total }
    requires moves { All (λ event. IsSome (move_of event.kind)) net.now.events }
    ensures chain { IsChain (network_total_chain net.now total) }
    ensures reaches { Reaches (network_total_chain net.now total) (network_total_sample net.now total) (2 ^ net.now.limit) }
    ensures balance { BalanceStays (network_total_chain net.now total) }
    ensures law { BalanceIsLaw (network_total_chain net.now total) (network_total_sample net.now total) (2 ^ net.now.limit) }
    ensures stationary { HasStationaryLaw (network_total_sample net.now total) (2 ^ net.now.limit) (network_total_chain net.now total) }
    ensures falls { ApartFalls (network_total_chain net.now total) }
    ensures mixing { MixesAsCoupled (network_total_chain net.now total) }
    ensures one { BalanceIsOne (network_total_chain net.now total) }
    ensures mean { BalanceIsMean (network_total_chain net.now total) (network_total_sample net.now total) (2 ^ net.now.limit) }
    ensures signed_mean { BalanceIsSignedMean (network_total_chain net.now total) (network_total_sample net.now total) (2 ^ net.now.limit) }
    ensures runs { UncoalescedFalls (network_total_ending net.now total) }
    ensures unmet { UnmetIsUncoalesced (network_total_ending net.now total) }
    ensures square { LimitSquares (network_total_ending net.now total) }
    ensures sample { (past : Words) (outcome : Outcome) → IsClosedSample (caps_of net.now) total (function_at (functions_of net.now) (rates_of net.now) past) net.now.limit outcome
        ↔ (outcome ≡ network_total_sample net.now total past) }
    ensures words { LooksAtFirst (network_total_sample net.now total) (2 ^ net.now.limit) }
{
    networks_are_kept(net);
}
