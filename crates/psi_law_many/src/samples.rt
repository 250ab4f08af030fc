//! The law of many samples of a network, over all its states.

ghost use Rattle.std.specs.Prelude.{◌^◌};
ghost use Rattle.psi_law.specs.Networks.{chain_of, sample_of, network_chain, network_sample};
ghost use Rattle.psi_law_many.specs.Intervals.{HasIntervals};
ghost use Rattle.psi_law_many.specs.Bets.{HasBets};
ghost use Rattle.psi_law_many.specs.Reports.{IsReported};
ghost use Rattle.psi_law_many.specs.Statements.{HasTails, StationaryIsMeasured, BalanceIsNear, BalanceHas, BalanceHasQuantiles, UnmetAdds};

use psi_event::EventLaw;
use psi_law::{law_of_network, law_of_samples};
use psi_net_model::Net;
use psi_rate::System;

/// The law of k samples that `Plan::sample` returns of a system.
///
/// Over all lists of k pasts of 2 to the power `limit` random words, with weights of the states that balance and a value of
/// each state from low to high, where a sample that did not coalesce counts as low from below and as high from above:
///
/// - such weights are the stationary distribution that state elimination finds (`stationary`);
/// - few lists have a mean that is far from the mean by the weights (`near`; Chebyshev's inequality);
/// - few have a large or a small total (`tails`; Chernoff 1952, and the binomial distribution for values 0 and 1);
/// - an interval that a rule makes from the total misses the mean for few lists, if a certificate supports each claim of
///   the rule (`intervals`; Clopper and Pearson 1934 for values 0 and 1);
/// - so does an interval that a rule makes from all values, by betting (`bets`; Waudby-Smith and Ramdas 2024);
/// - an interval between two values in order misses a quantile for few lists (`quantiles`);
/// - the share of the lists with a sample that did not coalesce is at most k times the share of such pasts (`unmet`).
pub fn law_of_many_samples<E: EventLaw>(system: &System<'_, E>)
    ensures stationary { StationaryIsMeasured (chain_of E.function system.now) (sample_of E.function system.now) (2 ^ system.now.limit) }
    ensures near { BalanceIsNear (chain_of E.function system.now) (sample_of E.function system.now) (2 ^ system.now.limit) }
    ensures tails { BalanceHas (chain_of E.function system.now) (sample_of E.function system.now) (2 ^ system.now.limit) HasTails }
    ensures intervals { BalanceHas (chain_of E.function system.now) (sample_of E.function system.now) (2 ^ system.now.limit) HasIntervals }
    ensures bets { BalanceHas (chain_of E.function system.now) (sample_of E.function system.now) (2 ^ system.now.limit) HasBets }
    ensures quantiles { BalanceHasQuantiles (chain_of E.function system.now) (sample_of E.function system.now) (2 ^ system.now.limit) }
    ensures unmet { UnmetAdds (chain_of E.function system.now) (sample_of E.function system.now) (2 ^ system.now.limit) }
{
    law_of_samples(system);
}

/// As `law_of_many_samples`, for the samples that the command `sample` prints of a network, whose events do what their kinds say.
///
/// The report of the samples of k pasts has the sums that these means are made of (`report`).
pub fn law_of_many_network(net: &Net)
    ensures stationary { StationaryIsMeasured (network_chain net.now) (network_sample net.now) (2 ^ net.now.limit) }
    ensures near { BalanceIsNear (network_chain net.now) (network_sample net.now) (2 ^ net.now.limit) }
    ensures tails { BalanceHas (network_chain net.now) (network_sample net.now) (2 ^ net.now.limit) HasTails }
    ensures intervals { BalanceHas (network_chain net.now) (network_sample net.now) (2 ^ net.now.limit) HasIntervals }
    ensures bets { BalanceHas (network_chain net.now) (network_sample net.now) (2 ^ net.now.limit) HasBets }
    ensures quantiles { BalanceHasQuantiles (network_chain net.now) (network_sample net.now) (2 ^ net.now.limit) }
    ensures unmet { UnmetAdds (network_chain net.now) (network_sample net.now) (2 ^ net.now.limit) }
    ensures report { IsReported net.now (network_chain net.now) (network_sample net.now) }
{
    law_of_network(net);
}
