//! A network that can be sampled.

ghost use Rattle.std.specs.Prelude.{◌≡◌, ℕ, ◌<◌, List, length, map, Some, slice_get, option_map, option_and_then, All, IfOk, IfSome};

use crate::OutOfMemory;
use crate::building::{all_lowered, rates, wheel};
use crate::entries::{Draft, NamedEvent, Queue, RewardEntry};
use crate::name::Name;
use psi_event::EventLaw;
use psi_kinds::{Event, Move};
use psi_rate::{System, Wheel};
use psi_reward::Reward;
use psi_state::State;
use std::alloc::Global;
use std::marker::Model;

/// A queueing network, as its file describes it.
///
/// It is seen as its queues in the order of the file, its events in that order and expanded over servers,
/// the exponent of its greatest horizon, its split number and its rewards.
#[derive(Drop)]
pub struct Net {
    queues: Vec<Queue>,
    events: Vec<NamedEvent>,
    caps: State,
    lowered: Vec<Event>,
    wheel: Wheel,
    limit: u8,
    split: u16,
    rewards: Vec<RewardEntry>,
}

impl Model for Net {
    ghost use Rattle.std.specs.Prelude.{◌≡◌, map, All};
    ghost use Rattle.psi_reward.specs.Rewards.{reward_caps};
    ghost use Rattle.psi_net_model.specs.Network.{Network};
    ghost use Rattle.psi_net_model.specs.Draft.{named};
    ghost use Rattle.psi_net_model.specs.Made.{IsMadeOf};

    ghost Value = { Network };

    ghost view = { λ n. record { queues = n.queues.items; events = n.events.items; limit = n.limit; split = n.split; rewards = map named n.rewards.items } };

    ghost invariant = { λ n. IsMadeOf ⟦<Event as EventLaw>⟧.capacities ⟦<Event as EventLaw>⟧.function ⟦<Event as EventLaw>⟧.upset_pair
        (record { queues = n.queues.items; events = n.events.items; limit = n.limit; split = n.split; rewards = map named n.rewards.items }) n.caps n.lowered.items n.wheel
        × All (λ v. reward_caps v.reward ≡ n.caps) n.rewards.items };
}

impl Net {
    ghost use Rattle.psi_reward.specs.Rewards.{reward_caps, reward_kind};
    ghost use Rattle.psi_net_model.specs.Valid.{IsNetwork};
    ghost use Rattle.psi_net_model.specs.Network.{caps_of, rates_of, marks_of};
    ghost use Rattle.psi_net_model.specs.Made.{EachDoes};
    ghost use Rattle.psi_net_model.specs.Draft.{drafted, IsWhole};
    ghost use Rattle.psi_kinds.specs.Kinds.{do_kind};
    ghost use Rattle.psi_kinds.specs.Moves.{moved, IsMove, move_of};

    /// Returns the network of what was said of it, of which nothing is refused.
    ///
    /// # Errors
    ///
    /// [`OutOfMemory`] if an allocation fails.
    #[tactic(auto, using(crate::proofs::QueueLemmas::capacities_kept))]
    pub fn made(alloc: Global, draft: Draft) -> Result<Net, OutOfMemory>
        requires kept { IsNetwork (drafted draft) }
        requires whole { IsWhole draft }
        ensures { IfOk result (λ net. net ≡ drafted draft) }
    {
        let lowered = all_lowered(alloc, draft.caps, draft.events.as_slice())?;
        let rates = rates(alloc, draft.events.as_slice())?;
        let wheel = wheel(alloc, rates.as_slice())?;
        Ok(Net {
            queues: draft.queues,
            events: draft.events,
            caps: draft.caps,
            lowered,
            wheel,
            limit: draft.limit,
            split: draft.split,
            rewards: draft.rewards,
        })
    }

    /// Returns the number of queues, 1 to 32.
    ///
    /// Its second clause is how a caller learns what every network keeps.
    pub fn queues(&self) -> u8
        ensures count { result ≡ length self.now.queues }
        ensures kept { IsNetwork self.now }
    {
        self.queues.len() as u8
    }

    /// Returns the name of queue `i`; queues are counted from 0.
    pub fn name(&self, i: u8) -> Name
        requires { i < length self.now.queues }
        ensures { option_map (λ q. q.name) (slice_get self.now.queues i) ≡ Some result }
    {
        self.queues[i as usize].name
    }

    /// Returns the capacity of queue `i`, in customers, 1 to 65,535; queues are counted from 0.
    pub fn capacity(&self, i: u8) -> u16
        requires { i < length self.now.queues }
        ensures { option_map (λ q. q.capacity) (slice_get self.now.queues i) ≡ Some result }
    {
        self.queues[i as usize].capacity
    }

    /// Returns the number of servers of queue `i`, 1 to 64 and at most its capacity; queues are counted from 0.
    pub fn servers(&self, i: u8) -> u16
        requires { i < length self.now.queues }
        ensures { option_map (λ q. q.servers) (slice_get self.now.queues i) ≡ Some result }
    {
        self.queues[i as usize].servers
    }

    /// Returns the number of events, expanded over servers, 1 to 1,024.
    pub fn events(&self) -> u16
        ensures count { result ≡ length self.now.events }
        ensures kept { IsNetwork self.now }
    {
        self.events.len() as u16
    }

    /// Returns the name of event `e`; expanded events are counted from 0. The servers' events of one table share
    /// its name.
    pub fn event_name(&self, e: u16) -> Name
        requires { e < length self.now.events }
        ensures { option_map (λ v. v.name) (slice_get self.now.events e) ≡ Some result }
    {
        self.events[e as usize].name
    }

    /// Returns the number of the server of event `e`, counted from 1, and 1 for an event without a single source;
    /// expanded events are counted from 0.
    pub fn event_server(&self, e: u16) -> u16
        requires { e < length self.now.events }
        ensures { option_map (λ v. v.server) (slice_get self.now.events e) ≡ Some result }
    {
        self.events[e as usize].server
    }

    /// Returns the rate of event `e`, 1 to 1,048,576; expanded events are counted from 0.
    pub fn event_rate(&self, e: u16) -> u32
        requires { e < length self.now.events }
        ensures { option_map (λ v. v.rate) (slice_get self.now.events e) ≡ Some result }
    {
        self.events[e as usize].rate
    }

    /// Returns the move that event `e` is, if it is one; expanded events are counted from 0.
    ///
    /// An event is a move where it is a service with one queue to go to, and customers stay where that queue
    /// is full: then one customer goes from queue to queue, or nothing changes. The last clause says that
    /// the event does to every state what the move does.
    #[tactic(auto, using(crate::proofs::MoveLemmas::move_read, crate::proofs::MoveLemmas::move_kept))]
    pub fn moves(&self, e: u16) -> Option<Move>
        requires { e < length self.now.events }
        ensures value { option_and_then (λ v. move_of v.kind) (slice_get self.now.events e) ≡ result }
        ensures is { IfSome result (λ m. IsMove (caps_of self.now) m) }
        ensures does { IfSome result (λ m. (x : List ℕ) → option_map (λ v. do_kind (caps_of self.now) v.kind x) (slice_get self.now.events e) ≡ Some (moved (caps_of self.now) m x)) }
    {
        self.event(e).kind.as_move()
    }

    // The event `e`; the second clause says what every network keeps.
    fn event(&self, e: u16) -> &NamedEvent
        requires { e < length self.now.events }
        ensures event { slice_get self.now.events e ≡ Some result.now }
        ensures kept { IsNetwork self.now }
    {
        &self.events[e as usize]
    }

    /// Returns the number of rewards, 0 to 64.
    pub fn rewards(&self) -> u8
        ensures { result ≡ length self.now.rewards }
    {
        self.rewards.len() as u8
    }

    /// Returns the name of reward `r`; rewards are counted from 0.
    #[tactic(auto, using(crate::proofs::PartsLemmas::got_named))]
    pub fn reward_name(&self, r: u8) -> Name
        requires { r < length self.now.rewards }
        ensures { option_map (λ v. v.name) (slice_get self.now.rewards r) ≡ Some result }
    {
        self.rewards[r as usize].name
    }

    /// Returns the reward `r`, with the network's capacities; rewards are counted from 0.
    #[tactic(auto, using(crate::proofs::PartsLemmas::got_named))]
    pub fn reward(&self, r: u8) -> &Reward
        requires { r < length self.now.rewards }
        ensures kind { option_map (λ v. v.kind) (slice_get self.now.rewards r) ≡ Some (reward_kind result.now) }
        ensures caps { reward_caps result.now ≡ caps_of self.now }
    {
        &self.rewards[r as usize].reward
    }

    /// Returns the network as a sample runs it: its capacities, its events in order, the wheel of their rates in
    /// that order, its limit and its split number.
    ///
    /// Its last clause says what every network keeps.
    #[tactic(auto, using(crate::proofs::PartsLemmas::made_count, crate::proofs::QueueLemmas::capacities_kept))]
    pub fn system(&self) -> System<'_, Event>
        ensures caps { result.caps ≡ caps_of self.now }
        ensures functions { EachDoes (caps_of self.now) (map ⟦<Event as EventLaw>⟧.function result.events) self.now.events }
        ensures marks { map ⟦<Event as EventLaw>⟧.upset_pair result.events ≡ marks_of self.now }
        ensures rates { result.rates ≡ rates_of self.now }
        ensures limit { result.limit ≡ self.now.limit }
        ensures split { result.split ≡ self.now.split }
        ensures kept { IsNetwork self.now }
    {
        System::new(
            self.caps,
            self.lowered.as_slice(),
            &self.wheel,
            self.limit,
            self.split,
        )
    }
}
