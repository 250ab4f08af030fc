//! What a run goes through.

ghost use Rattle.std.specs.Prelude.{◌≡◌, ◌<◌, ◌≤◌, length, map, slice_index_or, All};
ghost use Rattle.psi_state.specs.State.{AreCapacities};
ghost use Rattle.psi_event.specs.Law.{IsClosed};

use psi_event::EventLaw;
use psi_state::State;
use std::marker::Model;

/// What the runs of a network go through: its capacities, its events and its split number, the number of states up to which a
/// region is followed state by state.
///
/// It is seen as these three. No call allocates.
#[derive(Drop)]
pub struct Course<'n, E: EventLaw> {
    caps: State,
    split: u16,
    events: &'n [E],
}

impl<'n, E: EventLaw> Model for Course<'n, E> {
    ghost use Rattle.psi_region.specs.Followed.{Network, IsNetwork};

    ghost Value = { Network E };

    ghost view = { λ c. record { caps = c.caps; events = c.events.now; split = c.split } };

    ghost invariant = { λ c. IsNetwork E.capacities (record { caps = c.caps; events = c.events.now; split = c.split }) };
}

impl<'n, E: EventLaw> Course<'n, E> {
    /// Returns the course of a network of these capacities, in customers, these events and this split number, 1 to
    /// 4,096.
    pub fn new(caps: State, events: &'n [E], split: u16) -> Course<'n, E>
        requires valid { AreCapacities caps }
        requires same_caps { All (λ e. E.capacities e ≡ caps) events.now }
        requires some_split { 1 ≤ split }
        requires most_split { split ≤ 4096 }
        ensures { result ≡ record { caps = caps; events = events.entry.now; split = split } }
    {
        Course {
            caps,
            events,
            split,
        }
    }

    /// Returns a copy of the course. It borrows the same events.
    pub fn again(&self) -> Course<'n, E>
        ensures { result ≡ self.now }
    {
        Course {
            caps: self.caps,
            events: self.events,
            split: self.split,
        }
    }

    /// Returns the capacities, in customers.
    ///
    /// Its last clause is how a caller learns that each event makes states of states.
    pub fn caps(&self) -> State
        ensures value { result ≡ self.now.caps }
        ensures valid { AreCapacities result }
        ensures closed { All (λ f. IsClosed self.now.caps f) (map E.function self.now.events) }
    {
        self.caps
    }

    /// Returns the events.
    pub fn events(&self) -> &'n [E]
        ensures value { result.now ≡ self.now.events }
        ensures same_caps { All (λ e. E.capacities e ≡ self.now.caps) result.now }
    {
        self.events
    }

    /// Returns the event of a number, counted from 0.
    pub fn event(&self, number: u16) -> &'n E
        requires { number < length (map E.function self.now.events) }
        ensures function { slice_index_or (map E.function self.now.events) number (λ x. x) ≡ E.function result.now }
        ensures same_caps { E.capacities result.now ≡ self.now.caps }
    {
        let events = self.events;
        &events[number as usize]
    }

    /// Returns the split number, 1 to 4,096.
    pub fn split(&self) -> u16
        ensures value { result ≡ self.now.split }
        ensures some { 1 ≤ result }
        ensures most { result ≤ 4096 }
    {
        self.split
    }
}
