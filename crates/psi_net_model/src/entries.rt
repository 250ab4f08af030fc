//! What a network is made of.

use crate::name::Name;
use psi_kinds::Kind;
use psi_reward::Reward;
use psi_state::State;

/// A queue of a network.
#[derive(Clone, Copy, Debug)]
pub struct Queue {
    /// The queue's name.
    pub name: Name,
    /// The greatest number of customers that the queue holds, 1 to 65,535.
    pub capacity: u16,
    /// The number of the queue's servers, 1 to 64 and at most the capacity.
    pub servers: u16,
}

/// An event of a network.
#[derive(Drop)]
pub struct NamedEvent {
    /// The event's name.
    pub name: Name,
    /// The number of its server, counted from 1; an event without a single source has 1.
    pub server: u16,
    /// How often it happens beside the other events, 1 to 1,048,576.
    pub rate: u32,
    /// What it does.
    pub kind: Kind,
}

/// A reward of a network.
#[derive(Drop)]
pub struct RewardEntry {
    /// The reward's name.
    pub name: Name,
    /// What it makes of a state.
    pub reward: Reward,
}

/// What was said of a network, before anything is made of it.
#[derive(Drop)]
pub struct Draft {
    /// The queues in their order, 1 to 32.
    pub queues: Vec<Queue>,
    /// Their capacities in that order.
    pub caps: State,
    /// The events in their order, expanded over servers, 1 to 1,024.
    pub events: Vec<NamedEvent>,
    /// The exponent of the greatest horizon, 0 to 22: horizons are at most 2 to this power steps.
    pub limit: u8,
    /// The number of states up to which a region is followed state by state, 1 to 4,096.
    pub split: u16,
    /// The rewards in their order, made with these capacities, at most 64.
    pub rewards: Vec<RewardEntry>,
}
