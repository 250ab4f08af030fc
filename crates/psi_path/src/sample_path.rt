//! A path that is to be walked.

use crate::rewards::Rewards;
use psi_event::EventLaw;
use psi_past::Past;
use psi_rate::System;
use psi_state::State;

/// A sample path of a network: from its state at time zero on, for a number of steps, under the random words of a past.
#[derive(Drop)]
pub struct SamplePath<'p, E: EventLaw, P: Past, R: Rewards> {
    /// The network.
    pub system: &'p System<'p, E>,
    /// The rewards that are summed along the path.
    pub rewards: &'p R,
    /// The random words: the event of time k, from 1 on, is that of the word at place 2^22 + k - 1.
    pub past: P,
    /// The state at time zero.
    pub start: State,
    /// The number of steps, at most 4,290,772,992, so that all places are below 2^32.
    pub steps: u32,
}
