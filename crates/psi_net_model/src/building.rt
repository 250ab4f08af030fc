//! Making the parts of a network from what was said of it.

ghost use Rattle.std.specs.Prelude.{◌≡◌, map, All, IfOk};
ghost use Rattle.psi_state.specs.State.{AreCapacities};
ghost use Rattle.psi_rate.specs.Rates.{AreRates};
ghost use Rattle.psi_reward.specs.Rewards.{reward_caps, reward_kind};
ghost use Rattle.psi_net_model.specs.Valid.{AreListed, IsAccepted, IsReward};
ghost use Rattle.psi_net_model.specs.Made.{AreMade};

use crate::OutOfMemory;
use crate::entries::{NamedEvent, Queue};
use psi_event::EventLaw;
use psi_kinds::{Event, lower_accepted};
use psi_rate::{RateRefusal, Wheel};
use psi_reward::{Reward, RewardKind};
use psi_state::State;
use std::alloc::{AllocError, Global};

/// Returns the capacities of the queues, in their order: those of the network's states.
#[tactic(auto, using(crate::proofs::QueueLemmas::capacities_kept))]
pub fn capacities(queues: &[Queue]) -> State
    requires { AreListed queues.now }
    ensures value { result ≡ map (λ q. q.capacity) queues.now }
    ensures valid { AreCapacities result }
{
    all_capacities(queues)
}

// The capacities of queues that make a state.
#[tactic(auto, using(crate::proofs::PartsLemmas::set_more))]
fn all_capacities(queues: &[Queue]) -> State
    requires { AreCapacities (map (λ q. q.capacity) queues.now) }
    ensures { result ≡ map (λ q. q.capacity) queues.now }
{
    let mut caps = State::zero(queues.len() as u8);
    for (place, queue) in queues.iter().enumerate() {
        caps.set(place as u8, queue.capacity);
    }
    caps
}

// The events, each as what it makes of states.
#[tactic(auto, using(crate::proofs::PartsLemmas::none_made, crate::proofs::LoweredLemmas::lowered_more, crate::proofs::PartsLemmas::all_made))]
pub(crate) fn all_lowered(
    alloc: Global,
    caps: State,
    events: &[NamedEvent],
) -> Result<Vec<Event>, OutOfMemory>
    requires valid { AreCapacities caps }
    requires kinds { All (λ e. IsAccepted caps e.kind) events.now }
    ensures { IfOk result (λ made. AreMade ⟦<Event as EventLaw>⟧.capacities ⟦<Event as EventLaw>⟧.function ⟦<Event as EventLaw>⟧.upset_pair caps events.now made.items) }
{
    let mut made = Vec::with_capacity(alloc, events.len())?;
    for event in events {
        let one = lower_accepted(alloc, caps, &event.kind)?;
        made.push(one)?;
    }
    Ok(made)
}

// The rates of the events.
pub(crate) fn rates(alloc: Global, events: &[NamedEvent]) -> Result<Vec<u32>, AllocError>
    ensures { IfOk result (λ rates. rates.items ≡ map (λ e. e.rate) events.now) }
{
    let mut rates = Vec::with_capacity(alloc, events.len())?;
    for event in events {
        rates.push(event.rate)?;
    }
    Ok(rates)
}

// The wheel of rates that make one.
#[tactic(auto, using(crate::proofs::PartsLemmas::some_rates, crate::proofs::PartsLemmas::nowhere_passed))]
pub(crate) fn wheel(alloc: Global, rates: &[u32]) -> Result<Wheel, OutOfMemory>
    requires { AreRates rates.now }
    ensures { IfOk result (λ wheel. wheel ≡ rates.now) }
{
    match Wheel::new(alloc, rates) {
        Ok(wheel) => Ok(wheel),
        Err(RateRefusal::OutOfMemory) => Err(OutOfMemory),
        Err(RateRefusal::NoEvents) => unreachable!(),
        Err(RateRefusal::TotalTooLarge { .. }) => unreachable!(),
    }
}

/// Returns the reward of a kind that isn't refused, with these capacities.
#[tactic(auto, using(crate::proofs::RewardLemmas::not_refused))]
pub fn accepted_reward(caps: State, kind: RewardKind) -> Reward
    requires valid { AreCapacities caps }
    requires kind { IsReward caps kind }
    ensures caps { reward_caps result ≡ caps }
    ensures kind { reward_kind result ≡ kind }
{
    match Reward::new(caps, kind) {
        Ok(reward) => reward,
        Err(_) => unreachable!(),
    }
}
