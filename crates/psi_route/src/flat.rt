//! What a route keeps beside its parts, so that a step reads it without a choice or a sum.

ghost use Rattle.std.specs.Prelude.{◌<◌, ◌≤◌, length, slice_index, EachIndex};
ghost use Rattle.psi_route.specs.ServerKept.{AreRooms, IsServer};

use crate::parts::Source;
use psi_state::{Queues, State};

/// A source, or none: where there is none, no customer of queue 0 is wanted or leaves it.
#[derive(Clone, Copy, Debug)]
pub(crate) struct Server {
    /// The queue, counted from 0.
    pub queue: u8,
    /// The least number of customers there with which it serves.
    pub least: u16,
    /// How many customers leave it at a service, 0 or 1.
    pub leaving: u16,
}

impl Server {
    /// Returns the server of this source.
    pub fn of(source: Option<Source>) -> Server
        ensures { IsServer source result }
    {
        match source {
            None => Server {
                queue: 0,
                least: 0,
                leaving: 0,
            },
            Some(source) => Server {
                queue: source.queue,
                least: source.k,
                leaving: 1,
            },
        }
    }
}

/// The greatest number of customers with which each target has room for `size` more, by the targets' places; 0 where
/// it never has, and past the last place.
pub(crate) fn rooms_of(caps: &State, size: u16, targets: &Queues) -> [u16; 32]
    requires { EachIndex targets.now (λ i. slice_index targets.now i < length caps.now) }
    ensures rooms { AreRooms caps.now size targets.now result }
    ensures few { length targets.now ≤ 32 }
{
    let mut rooms = [0; 32];
    for i in 0..targets.len() {
        rooms[i as usize] = caps.get(targets.get(i)).saturating_sub(size);
    }
    rooms
}
