//! The law of what the commands `couple` and `reward` print.

ghost use Rattle.std.specs.Prelude.{◌^◌};
ghost use Rattle.psi_reward.specs.declared.kinds.RewardKind.{RewardKind};
ghost use Rattle.psi_reward.specs.Worth.{worth_of};
ghost use Rattle.psi_law.specs.Counting.{Words};
ghost use Rattle.psi_law.specs.Samples.{Reaches, HasStationaryLaw};
ghost use Rattle.psi_law.specs.Networks.{network_chain, network_sample};
ghost use Rattle.psi_law.specs.Couplings.{network_coupling, coupled_outcome, AgreesCoupled};
ghost use Rattle.psi_law.specs.Values.{network_value, ReachesValue, BalanceIsValueLaw, AgreesValued};
ghost use Rattle.psi_law.specs.Statements.{BalanceIsLaw, BalanceIsMean, BalanceIsSignedMean, LooksAtFirst};

use crate::kept::networks_are_kept;
use psi_net_model::Net;

/// The law of the least couplings that the command `couple` prints for a network.
///
/// Under the random words of every past, the coupling has the state of the sample, at a horizon that is at most that of the sample
/// and more than half of it (`agrees`). So the couplings have the law of samples (`reaches`, `law`, `stationary`, `mean`,
/// `signed_mean`), and later words have no part in them (`words`).
pub fn law_of_couplings(net: &Net)
    ensures agrees { (past : Words) → AgreesCoupled (network_coupling net.now past) (network_sample net.now past) }
    ensures reaches { Reaches (network_chain net.now) (λ past. coupled_outcome (network_coupling net.now past)) (2 ^ net.now.limit) }
    ensures law { BalanceIsLaw (network_chain net.now) (λ past. coupled_outcome (network_coupling net.now past)) (2 ^ net.now.limit) }
    ensures stationary { HasStationaryLaw (λ past. coupled_outcome (network_coupling net.now past)) (2 ^ net.now.limit) (network_chain net.now) }
    ensures mean { BalanceIsMean (network_chain net.now) (λ past. coupled_outcome (network_coupling net.now past)) (2 ^ net.now.limit) }
    ensures signed_mean { BalanceIsSignedMean (network_chain net.now) (λ past. coupled_outcome (network_coupling net.now past)) (2 ^ net.now.limit) }
    ensures words { LooksAtFirst (λ past. coupled_outcome (network_coupling net.now past)) (2 ^ net.now.limit) }
{
    networks_are_kept(net);
}

/// The law of the values that the command `reward` prints for a network, of a reward of each kind.
///
/// Under the random words of every past whose sample is met, there is a value, that of the sample's state (`agrees`). Where there is
/// a value, every state that starts early enough ends with it (`reaches`). So of each stationary distribution, the share of the
/// states with a value is at least the share of the lists of random words that give it, and at most this together with the share of
/// those that give none (`law`). Later words have no part in the values (`words`).
pub fn law_of_values(net: &Net)
    ensures agrees { (kind : RewardKind) (past : Words) → AgreesValued (worth_of kind) (network_value net.now kind past) (network_sample net.now past) }
    ensures reaches { (kind : RewardKind) → ReachesValue (network_value net.now kind) (2 ^ net.now.limit) (network_chain net.now) (worth_of kind) }
    ensures law { (kind : RewardKind) → BalanceIsValueLaw (network_value net.now kind) (2 ^ net.now.limit) (network_chain net.now) (worth_of kind) }
    ensures words { (kind : RewardKind) → LooksAtFirst (network_value net.now kind) (2 ^ net.now.limit) }
{
    networks_are_kept(net);
}
