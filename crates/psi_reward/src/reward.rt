//! A reward of one of the five kinds.

ghost use Rattle.std.specs.Prelude.{◌≡◌, ◌<◌, length, All, IfOk, IfErr, Some, None};
ghost use Rattle.psi_state.specs.State.{AreCapacities};
ghost use Rattle.psi_reward.specs.Ranges.{least, greatest};
ghost use Rattle.psi_reward.specs.Refusing.{queues_of, numbers_of, IsSmall, IsValid, refusal_of, has_lengths};
ghost use Rattle.psi_reward.specs.Worth.{worth_of, is_linear};

use crate::checks::has_rows;
use crate::extremes::{count_above, greatest_held, least_held};
use crate::kinds::{RewardKind, RewardRefusal};
use crate::law::RewardLaw;
use crate::sums::{table_range, table_sum, weighted_range, weighted_sum};
use psi_state::{Bounds, Queues, State};

/// A reward of given capacities: what a state is worth by one of the five kinds.
#[derive(Debug, Drop)]
pub struct Reward {
    caps: State,
    kind: RewardKind,
    ghost valid: { IsValid caps kind },
}

impl Reward {
    ghost use Rattle.psi_reward.specs.Rewards.{reward_caps, reward_kind};

    /// Returns a reward for the states within these capacities, in customers.
    ///
    /// The queues that it lists are among those of the capacities, and its weights or entries are from
    /// -1,000,000,000 to 1,000,000,000.
    ///
    /// # Errors
    ///
    /// In this order: [`RewardRefusal::Empty`] where no queue is listed; [`RewardRefusal::Repeated`] where
    /// one is listed twice; [`RewardRefusal::Length`] where the weights aren't as many as the queues, or
    /// the rows aren't, or a row hasn't an entry for each number of customers from 0 to the capacity of
    /// its queue, and no more.
    pub fn new(caps: State, kind: RewardKind) -> Result<Reward, RewardRefusal>
        requires capacities { AreCapacities caps }
        requires queues { All (λ queue. queue < length caps) (queues_of kind) }
        requires numbers { All IsSmall (numbers_of kind) }
        ensures caps { IfOk result (λ reward. reward_caps reward ≡ caps) }
        ensures kind { IfOk result (λ reward. reward_kind reward ≡ kind) }
        ensures accepted { IfOk result (λ _. refusal_of caps kind ≡ None) }
        ensures refused { IfErr result (λ refusal. refusal_of caps kind ≡ Some refusal) }
    {
        let queues = listed(&kind);
        if queues.len() == 0 {
            return Err(RewardRefusal::Empty);
        }
        if queues.repeats() {
            return Err(RewardRefusal::Repeated);
        }
        if !has_lengths(&caps, &kind) {
            return Err(RewardRefusal::Length);
        }
        Ok(Reward { caps, kind })
    }

    /// Returns whether it is the sum of weight times number held, as [`RewardKind::Linear`] says.
    pub fn is_linear(&self) -> bool
        ensures { result ≡ is_linear (reward_kind self.now) }
    {
        match &self.kind {
            RewardKind::Linear { .. } => true,
            _ => false,
        }
    }
}

// The queues that a reward lists.
fn listed(kind: &RewardKind) -> Queues
    ensures { result ≡ queues_of kind.now }
{
    match kind {
        RewardKind::Linear { queues, .. } => *queues,
        RewardKind::Table { queues, .. } => *queues,
        RewardKind::Greatest { queues } => *queues,
        RewardKind::Least { queues } => *queues,
        RewardKind::Above { queues, .. } => *queues,
    }
}

// Whether the weights are as many as the queues, or the rows fit the queues' capacities.
fn has_lengths(caps: &State, kind: &RewardKind) -> bool
    requires { All (λ queue. queue < length caps.now) (queues_of kind.now) }
    ensures { result ≡ has_lengths caps.now kind.now }
{
    match kind {
        RewardKind::Linear { queues, weights } => weights.len() == queues.len() as usize,
        RewardKind::Table { queues, table } => has_rows(caps, queues, table),
        _ => true,
    }
}

impl RewardLaw for Reward {
    ghost use Rattle.psi_reward.specs.Rewards.{reward_caps, reward_kind};

    ghost capacities = { reward_caps };

    ghost worth = { λ reward. worth_of (reward_kind reward) };

    ghost are_capacities = { λ reward. reward.valid.capacities };

    fn value(&self, x: &State) -> i64 {
        match &self.kind {
            RewardKind::Linear { queues, weights } => weighted_sum(queues, weights, x),
            RewardKind::Table { queues, table } => table_sum(queues, table, x),
            RewardKind::Greatest { queues } => greatest_held(queues, x),
            RewardKind::Least { queues } => least_held(queues, x),
            RewardKind::Above { queues, level } => count_above(queues, *level, x),
        }
    }

    // The greatest, the least and the count rise with the state, so their range is that of the corners.
    fn range(&self, b: &Bounds) -> (i64, i64) {
        let (lo, hi) = (b.lo(), b.hi());
        match &self.kind {
            RewardKind::Linear { queues, weights } => weighted_range(queues, weights, &lo, &hi),
            RewardKind::Table { queues, table } => table_range(queues, table, &lo, &hi),
            _ => (self.value(&lo), self.value(&hi)),
        }
    }
}
