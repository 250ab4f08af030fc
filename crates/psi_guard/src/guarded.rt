//! A guarded event and what it refuses.

ghost use Rattle.std.specs.Prelude.{◌≡◌, IfOk, IfErr, OnOk, Some, None};
ghost use Rattle.psi_state.specs.State.{AreCapacities};
ghost use Rattle.psi_guard.specs.Guarding.{guarded, upset_of};
ghost use Rattle.psi_guard.specs.Refusals.{AreGuards, is_out, refusal_at, refusal_of};

use crate::parts::{Part, Parts};
use psi_event::EventLaw;
use psi_state::State;

/// Why parts make no guarded event.
#[derive(Clone, Copy, PartialEq, Eq, Debug)]
pub enum GuardRefusal {
    /// A part's least is above its most, or its floor above its ceiling.
    Empty,
    /// A part names the queue of an earlier one.
    Repeated,
    /// A part's queue isn't one of the network, its most or its ceiling is above the queue's capacity,
    /// or its shift isn't from -65,535 to 65,535.
    OutOfRange,
}

/// An event that happens only where each queue that it names holds a number from its least to its
/// most, and that moves all these queues at once.
#[derive(Clone, Copy, Debug)]
pub struct Guarded {
    pub(crate) caps: State,
    pub(crate) parts: Parts,
    // Where the part of each queue is looked for first: the place of the part that names the queue.
    pub(crate) places: [u8; 32],
    ghost valid: { AreCapacities caps },
    ghost guards: { AreGuards caps parts },
}

impl Guarded {
    /// Returns the guarded event of these parts in a network of these capacities.
    ///
    /// Where each queue that a part names holds a number from the part's least to its most, each of
    /// these queues is moved by its part; in every other state nothing changes. With no part nothing
    /// changes at all.
    ///
    /// The parts are judged one after another, and the first that is refused gives the refusal: it is
    /// out of range, or else names the queue of an earlier part, or else has an empty guard or no number
    /// between its floor and its ceiling.
    pub fn new(caps: State, parts: &[Part]) -> Result<Guarded, GuardRefusal>
        requires { AreCapacities caps }
        ensures caps { IfOk result (λ event. ⟦<Guarded as EventLaw>⟧.capacities event ≡ caps) }
        ensures function { IfOk result (λ event. ⟦<Guarded as EventLaw>⟧.function event ≡ guarded parts.now) }
        ensures upset_pair { IfOk result (λ event. ⟦<Guarded as EventLaw>⟧.upset_pair event ≡ upset_of caps parts.now) }
        ensures accepted { OnOk result (refusal_of caps parts.now ≡ None) }
        ensures refused { IfErr result (λ refusal. refusal_of caps parts.now ≡ Some refusal) }
    {
        let mut kept = Parts::empty();
        for part in parts {
            if let Some(refusal) = refusal(&caps, &kept, *part) {
                return Err(refusal);
            }
            kept.push(*part);
        }
        Ok(Guarded::accepted(caps, kept))
    }

    /// Returns the guarded event of these parts, of which [`Guarded::new`] refuses none: what it answers for them.
    pub fn accepted(caps: State, parts: Parts) -> Guarded
        requires caps { AreCapacities caps }
        requires accepted { refusal_of caps parts ≡ None }
        ensures caps { ⟦<Guarded as EventLaw>⟧.capacities result ≡ caps }
        ensures function { ⟦<Guarded as EventLaw>⟧.function result ≡ guarded parts }
        ensures upset_pair { ⟦<Guarded as EventLaw>⟧.upset_pair result ≡ upset_of caps parts }
    {
        let places = places_of(&parts);
        Guarded {
            caps,
            parts,
            places,
        }
    }
}

// For each queue that a part names the place of such a part.
fn places_of(parts: &Parts) -> [u8; 32] {
    let mut places = [0; 32];
    for place in 0..parts.len() {
        let queue = parts.get(place).queue as usize;
        if queue < places.len() {
            places[queue] = place;
        }
    }
    places
}

// Why a part can't follow the earlier ones, if it can't.
fn refusal(caps: &State, earlier: &Parts, part: Part) -> Option<GuardRefusal>
    ensures { result ≡ refusal_at caps.now earlier.now part }
{
    if is_out(caps, part) {
        return Some(GuardRefusal::OutOfRange);
    }
    if earlier.names(part.queue) {
        return Some(GuardRefusal::Repeated);
    }
    if part.least > part.most || part.floor > part.ceiling {
        return Some(GuardRefusal::Empty);
    }
    None
}

// Whether a part doesn't fit the network.
fn is_out(caps: &State, part: Part) -> bool
    ensures { result ≡ is_out caps.now part }
{
    if part.queue >= caps.len() {
        return true;
    }
    let cap = caps.get(part.queue);
    part.most > cap || part.ceiling > cap || part.shift.unsigned_abs() > 65_535
}
