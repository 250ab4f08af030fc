//! The law of the difference of two networks under common random numbers.

ghost use Rattle.std.specs.Prelude.{ℕ, ◌≤◌, ◌^◌, All, IsSome};
ghost use Rattle.psi_kinds.specs.Moves.{move_of};
ghost use Rattle.psi_closed.specs.Diagram.{IsTotal};
ghost use Rattle.psi_net_model.specs.Network.{caps_of};
ghost use Rattle.psi_law.specs.Networks.{network_chain, network_sample, network_total_chain, network_total_sample};
ghost use Rattle.psi_law_many.specs.Near.{HasNear};
ghost use Rattle.psi_law_many.specs.Intervals.{HasIntervals};
ghost use Rattle.psi_law_many.specs.Bets.{HasBets};
ghost use Rattle.psi_law_many.specs.Statements.{HasTails, DifferenceHas};

use psi_law::{law_of_closed_network, law_of_network};
use psi_net_model::Net;

/// The law of the difference of two networks, each sample of which is drawn from the same past.
///
/// Over all lists of k pasts of n random words, where n is large enough for both networks: few lists have a mean difference of
/// a value of the one and a value of the other that is far from the difference of the stationary means (`near`; Chebyshev's
/// inequality), few have a large or a small total of these differences (`tails`), and an interval with certificates misses
/// the difference of the stationary means for few (`intervals`, `bets`). The values may be any of their networks' states.
pub fn law_of_differences(net: &Net, other: &Net)
    ensures near { (n : ℕ) → 2 ^ net.now.limit ≤ n → 2 ^ other.now.limit ≤ n
        → DifferenceHas (network_chain net.now) (network_sample net.now) n HasNear (network_chain other.now) (network_sample other.now) }
    ensures tails { (n : ℕ) → 2 ^ net.now.limit ≤ n → 2 ^ other.now.limit ≤ n
        → DifferenceHas (network_chain net.now) (network_sample net.now) n HasTails (network_chain other.now) (network_sample other.now) }
    ensures intervals { (n : ℕ) → 2 ^ net.now.limit ≤ n → 2 ^ other.now.limit ≤ n
        → DifferenceHas (network_chain net.now) (network_sample net.now) n HasIntervals (network_chain other.now) (network_sample other.now) }
    ensures bets { (n : ℕ) → 2 ^ net.now.limit ≤ n → 2 ^ other.now.limit ≤ n
        → DifferenceHas (network_chain net.now) (network_sample net.now) n HasBets (network_chain other.now) (network_sample other.now) }
{
    law_of_network(net);
    law_of_network(other);
}

/// As `law_of_differences`, for two closed networks, each with a total of its own.
pub fn law_of_closed_differences(net: &Net, total: u16, other: &Net, contrast: u16)
    requires fits { IsTotal (caps_of net.now) total }
    requires moves { All (λ event. IsSome (move_of event.kind)) net.now.events }
    requires also_fits { IsTotal (caps_of other.now) contrast }
    requires also_moves { All (λ event. IsSome (move_of event.kind)) other.now.events }
    ensures near { (n : ℕ) → 2 ^ net.now.limit ≤ n → 2 ^ other.now.limit ≤ n
        → DifferenceHas (network_total_chain net.now total) (network_total_sample net.now total) n HasNear
        (network_total_chain other.now contrast) (network_total_sample other.now contrast) }
    ensures tails { (n : ℕ) → 2 ^ net.now.limit ≤ n → 2 ^ other.now.limit ≤ n
        → DifferenceHas (network_total_chain net.now total) (network_total_sample net.now total) n HasTails
        (network_total_chain other.now contrast) (network_total_sample other.now contrast) }
    ensures intervals { (n : ℕ) → 2 ^ net.now.limit ≤ n → 2 ^ other.now.limit ≤ n
        → DifferenceHas (network_total_chain net.now total) (network_total_sample net.now total) n HasIntervals
        (network_total_chain other.now contrast) (network_total_sample other.now contrast) }
    ensures bets { (n : ℕ) → 2 ^ net.now.limit ≤ n → 2 ^ other.now.limit ≤ n
        → DifferenceHas (network_total_chain net.now total) (network_total_sample net.now total) n HasBets
        (network_total_chain other.now contrast) (network_total_sample other.now contrast) }
{
    law_of_closed_network(net, total);
    law_of_closed_network(other, contrast);
}
