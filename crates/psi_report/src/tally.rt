//! Running totals of samples.

ghost use Rattle.std.specs.Prelude.{◌≡◌, ℕ, ◌≤◌, ◌+◌, ◌^◌, List, [], ◌∷◌, ◌++◌, length, slice_index, slice_set, IfOk};
ghost use Rattle.psi_state.specs.declared.Outcome.{Outcome};
ghost use Rattle.psi_state.specs.State.{IsBelow};
ghost use Rattle.psi_net_model.specs.Network.{Network, caps_of};
ghost use Rattle.psi_report.specs.Samples.{IsHorizon, IsSampleOf};
ghost use Rattle.psi_report.specs.Totals.{StandsFor};
ghost use Rattle.psi_report.specs.Joined.{paired, with_reward, AreSmall};

mod reporting;

use crate::summary::{Summary, add_customers, join_all, of_none};
use psi_net_model::{Net, OutOfMemory};
use psi_reward::RewardLaw;
use psi_state::{Outcome, State};
use std::alloc::Global;
use std::marker::Model;

/// Running totals of samples of a network: their numbers, their horizons, and the sum, the least and the
/// greatest of each queue's customers and of each reward's values, over the samples that are met.
///
/// It is seen as these totals. Sums are kept in 128 bits. All its memory is allocated when it is made.
#[derive(Drop)]
pub struct Tally {
    samples: u32,
    met: u32,
    horizons: [u32; 23],
    queues: Vec<Summary>,
    rewards: Vec<Summary>,
}

impl Model for Tally {
    ghost use Rattle.psi_report.specs.Totals.{Totals};
    ghost use Rattle.psi_report.specs.Joined.{AreSmall};

    ghost Value = { Totals };

    ghost view = { λ t. record { samples = t.samples; met = t.met; horizons = t.horizons; queues = t.queues.items; rewards = t.rewards.items } };

    ghost invariant = { λ t. AreSmall t.samples t.queues.items × AreSmall t.samples t.rewards.items };
}

impl Tally {
    /// Returns the totals of no sample.
    ///
    /// # Errors
    ///
    /// [`OutOfMemory`] if an allocation fails.
    pub fn new(alloc: Global, net: &Net) -> Result<Tally, OutOfMemory>
        ensures { IfOk result (λ tally. StandsFor tally net.now []) }
    {
        Ok(Tally {
            samples: 0,
            met: 0,
            horizons: [0; 23],
            queues: of_none(alloc, net.queues())?,
            rewards: of_none(alloc, net.rewards())?,
        })
    }

    /// Counts one more sample of the network. One that isn't met counts as a sample, and as nothing else.
    ///
    /// The totals are of fewer than 65,536 samples. A sample that is met has a state within the network's
    /// capacities, and a horizon that is a power of two of at most 4,194,304 steps.
    pub fn add(&mut self, net: &Net, outcome: &Outcome)
        requires stands { (outcomes : List Outcome) × StandsFor self.old net.now outcomes × (length outcomes + 1 ≤ 65536) }
        requires sample { IsSampleOf net.now outcome.now }
        ensures { (outcomes : List Outcome) → StandsFor self.old net.now outcomes → StandsFor self.new net.now (outcomes ++ outcome.now ∷ []) }
    {
        self.samples += 1;
        let Outcome::Met { horizon, state } = outcome else {
            return;
        };
        count_horizon(&mut self.horizons, *horizon);
        add_customers(&mut self.queues, self.met, state);
        add_rewards(&mut self.rewards, self.met, net, state);
        self.met += 1;
    }

    /// Adds the totals of other samples of the same network, as if each of them had been counted here. The
    /// samples of both together are at most 65,536.
    pub fn merge(&mut self, other: &Tally)
        requires { (net : Network) × (outcomes others : List Outcome) × StandsFor self.old net outcomes × StandsFor other.now net others
            × (length outcomes + length others ≤ 65536) }
        ensures { (net : Network) (outcomes others : List Outcome) → StandsFor self.old net outcomes → StandsFor other.now net others
            → StandsFor self.new net (outcomes ++ others) }
    {
        join_all(&mut self.queues, self.met, &other.queues, other.met);
        join_all(&mut self.rewards, self.met, &other.rewards, other.met);
        join_counts(&mut self.horizons, &other.horizons);
        self.samples += other.samples;
        self.met += other.met;
    }
}

// Counts one more sample at a horizon: a power of two, whose exponent is its place.
#[tactic(auto, using(crate::proofs::CountLemmas::exponent_is))]
fn count_horizon(horizons: &mut [u32; 23], horizon: u32)
    requires power { IsHorizon horizon }
    requires room { (i : ℕ) → slice_index horizons.old i ≤ 65535 }
    ensures { (exponent : ℕ) → horizon ≡ 2 ^ exponent → horizons.new ≡ slice_set horizons.old exponent (slice_index horizons.old exponent + 1) }
{
    horizons[horizon.trailing_zeros() as usize] += 1;
}

// Adds the value of each reward of a network at a state to the reward's summary. Each summary is of `count`
// values.
#[tactic(auto, using(crate::proofs::PairLemmas::paired_none, crate::proofs::PairLemmas::paired_all, crate::proofs::PairLemmas::length_paired))]
fn add_rewards(rewards: &mut Vec<Summary>, count: u32, net: &Net, state: &State)
    requires as_many { length rewards.old.items ≡ length net.now.rewards }
    requires within { IsBelow state.now (caps_of net.now) }
    requires fit { AreSmall (2 ^ 32) rewards.old.items }
    ensures values { rewards.new.items ≡ paired (with_reward count state.now) rewards.old.items net.now.rewards }
    ensures small { (n : ℕ) → AreSmall n rewards.old.items → AreSmall (n + 1) rewards.new.items }
{
    for r in 0..net.rewards() {
        let value = net.reward(r).value(state);
        rewards[r as usize] = rewards[r as usize].with_value(count, value);
    }
}

// Adds other counts to these, each to the one at its place.
#[tactic(auto, using(crate::proofs::PairLemmas::paired_none, crate::proofs::PairLemmas::paired_all, crate::proofs::PairLemmas::length_paired))]
fn join_counts(own: &mut [u32; 23], other: &[u32; 23])
    requires { (i : ℕ) → slice_index own.old i + slice_index other.now i ≤ 65536 }
    ensures { own.new ≡ paired (λ m n. m + n) own.old other.now }
{
    for place in 0..23 {
        own[place] += other[place];
    }
}
