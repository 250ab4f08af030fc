//! The law of samples of a network, over all its states.

ghost use Rattle.std.specs.Prelude.{◌≡◌, ◌≤◌, ◌^◌, ◌↔◌, length, map, All};
ghost use Rattle.psi_state.specs.declared.Outcome.{Outcome};
ghost use Rattle.psi_state.specs.State.{all_states};
ghost use Rattle.psi_event.specs.Law.{IsMonotone};
ghost use Rattle.psi_horizon.specs.Sample.{IsSample};
ghost use Rattle.psi_net_model.specs.Network.{caps_of, rates_of, functions_of};
ghost use Rattle.psi_law.specs.Counting.{Words};
ghost use Rattle.psi_law.specs.Chains.{IsChain};
ghost use Rattle.psi_law.specs.Samples.{Reaches, HasStationaryLaw};
ghost use Rattle.psi_law.specs.Networks.{chain_of, ending_of, sample_of, network_chain, network_ending, network_sample};
ghost use Rattle.psi_law.specs.Statements.{BalanceStays, BalanceIsLaw, BalanceIsOne, BalanceIsMean, BalanceIsSignedMean, ApartFalls, MixesAsCoupled, UnmetIsApart, UncoalescedFalls, UnmetIsUncoalesced, LimitSquares, LooksAtFirst};

use crate::kept::networks_are_kept;
use psi_event::EventLaw;
use psi_net_model::Net;
use psi_rate::System;

/// The law of the samples that `Plan::sample` answers for a system.
///
/// The counts are over all lists of 2 to the power `limit` random words.
///
/// - `chain`: the events and the states are a finite Markov chain. `reaches`: where a sample is met, every state that starts 2 to
///   the power `limit` steps before time zero ends in its state.
/// - `law`: of each stationary distribution, the share of a state is at least the share of the lists whose sample is met in it, and
///   at most this together with the share of the lists whose sample is not met (Propp and Wilson 1996). `mean`: the same for means.
/// - `stationary`: there is a stationary distribution, and so the samples have its law. `balance`: weights that balance stay as
///   they are under the random words of every past.
/// - `one`: where the states of some list of n words have all met, the stationary distribution is unique. `falls`: the share of the
///   lists of n words after which not all states have met falls geometrically with n. `mixing`: it bounds how far the chain is from
///   its stationary distribution after n steps, from any start.
/// - `unmet`: the samples that are not met are those of lists whose longest run has not coalesced. `runs`: the share of the lists
///   of n words whose run has not coalesced falls geometrically too, whatever the events and the split number are. `square`: a
///   `limit` greater by one at most squares the share of the samples that are not met.
/// - `monotone`, `small`: in a monotone network, and in one of at most `split` states, the samples that are not met are those of the
///   lists after which not all states have met.
/// - `sample`: what is counted are the samples with all that is promised of one. `words`: later words have no part in them.
pub fn law_of_samples<E: EventLaw>(system: &System<'_, E>)
    ensures chain { IsChain (chain_of E.function system.now) }
    ensures reaches { Reaches (chain_of E.function system.now) (sample_of E.function system.now) (2 ^ system.now.limit) }
    ensures balance { BalanceStays (chain_of E.function system.now) }
    ensures law { BalanceIsLaw (chain_of E.function system.now) (sample_of E.function system.now) (2 ^ system.now.limit) }
    ensures stationary { HasStationaryLaw (sample_of E.function system.now) (2 ^ system.now.limit) (chain_of E.function system.now) }
    ensures falls { ApartFalls (chain_of E.function system.now) }
    ensures mixing { MixesAsCoupled (chain_of E.function system.now) }
    ensures one { BalanceIsOne (chain_of E.function system.now) }
    ensures mean { BalanceIsMean (chain_of E.function system.now) (sample_of E.function system.now) (2 ^ system.now.limit) }
    ensures signed_mean { BalanceIsSignedMean (chain_of E.function system.now) (sample_of E.function system.now) (2 ^ system.now.limit) }
    ensures runs { UncoalescedFalls (ending_of E.function system.now) }
    ensures unmet { UnmetIsUncoalesced (ending_of E.function system.now) }
    ensures square { LimitSquares (ending_of E.function system.now) }
    ensures monotone { All (IsMonotone system.now.caps) (map E.function system.now.events)
        → UnmetIsApart (chain_of E.function system.now) (sample_of E.function system.now) (2 ^ system.now.limit) }
    ensures small { length (all_states system.now.caps) ≤ system.now.split
        → UnmetIsApart (chain_of E.function system.now) (sample_of E.function system.now) (2 ^ system.now.limit) }
    ensures sample { (past : Words) (outcome : Outcome)
        → IsSample system.now.caps (map E.function system.now.events) system.now.rates system.now.limit system.now.split past outcome
        ↔ (outcome ≡ sample_of E.function system.now past) }
    ensures words { LooksAtFirst (sample_of E.function system.now) (2 ^ system.now.limit) }
{
    // Called for its clause: the parts fit each other.
    let _caps = system.caps();
}

/// As `law_of_samples`, of the samples that the command `sample` prints for a network, whose events do what their kinds say.
pub fn law_of_network(net: &Net)
    ensures chain { IsChain (network_chain net.now) }
    ensures reaches { Reaches (network_chain net.now) (network_sample net.now) (2 ^ net.now.limit) }
    ensures balance { BalanceStays (network_chain net.now) }
    ensures law { BalanceIsLaw (network_chain net.now) (network_sample net.now) (2 ^ net.now.limit) }
    ensures stationary { HasStationaryLaw (network_sample net.now) (2 ^ net.now.limit) (network_chain net.now) }
    ensures falls { ApartFalls (network_chain net.now) }
    ensures mixing { MixesAsCoupled (network_chain net.now) }
    ensures one { BalanceIsOne (network_chain net.now) }
    ensures mean { BalanceIsMean (network_chain net.now) (network_sample net.now) (2 ^ net.now.limit) }
    ensures signed_mean { BalanceIsSignedMean (network_chain net.now) (network_sample net.now) (2 ^ net.now.limit) }
    ensures runs { UncoalescedFalls (network_ending net.now) }
    ensures unmet { UnmetIsUncoalesced (network_ending net.now) }
    ensures square { LimitSquares (network_ending net.now) }
    ensures monotone { All (IsMonotone (caps_of net.now)) (functions_of net.now)
        → UnmetIsApart (network_chain net.now) (network_sample net.now) (2 ^ net.now.limit) }
    ensures small { length (all_states (caps_of net.now)) ≤ net.now.split
        → UnmetIsApart (network_chain net.now) (network_sample net.now) (2 ^ net.now.limit) }
    ensures sample { (past : Words) (outcome : Outcome)
        → IsSample (caps_of net.now) (functions_of net.now) (rates_of net.now) net.now.limit net.now.split past outcome
        ↔ (outcome ≡ network_sample net.now past) }
    ensures words { LooksAtFirst (network_sample net.now) (2 ^ net.now.limit) }
{
    networks_are_kept(net);
}
