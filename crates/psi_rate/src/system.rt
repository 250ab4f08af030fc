//! The network that a sample runs.

ghost use Rattle.std.specs.Prelude.{◌≡◌, ◌<◌, ◌≤◌, ◌↔◌, length, All, slice_get, option_map, Some, None};
ghost use Rattle.psi_rate.specs.Rates.{event_of};
ghost use Rattle.psi_rate.specs.System.{IsSystem};

use crate::Wheel;
use psi_event::EventLaw;
use psi_state::State;
use std::marker::Model;

/// The network that a sample runs: its capacities, its events, the wheel of their rates, and two numbers
/// that say how far and how finely it is followed.
///
/// It is seen as these parts, the wheel as the list of the rates.
#[derive(Drop)]
pub struct System<'n, E: EventLaw> {
    caps: State,
    events: &'n [E],
    wheel: &'n Wheel,
    limit: u8,
    split: u16,
}

impl<'n, E: EventLaw> Model for System<'n, E> {
    ghost use Rattle.psi_rate.specs.Composition.{SystemParts};
    ghost use Rattle.psi_rate.specs.System.{IsSystem};

    ghost Value = { SystemParts E };

    ghost view = { λ s. record { caps = s.caps; events = s.events.now; rates = s.wheel.now; limit = s.limit; split = s.split } };

    ghost invariant = { λ s. IsSystem E.capacities (record { caps = s.caps; events = s.events.now; rates = s.wheel.now; limit = s.limit; split = s.split }) };
}

impl<'n, E: EventLaw> System<'n, E> {
    /// Returns the network of these capacities and events, in the wheel's order.
    ///
    /// `limit` is the exponent of the greatest horizon, 0 to 22: a run begins at most 2 to the power
    /// `limit` steps before time zero. `split` is the number of states up to which a region is followed
    /// state by state, 1 to 4,096.
    pub fn new(
        caps: State,
        events: &'n [E],
        wheel: &'n Wheel,
        limit: u8,
        split: u16,
    ) -> System<'n, E>
        requires same_caps { All (λ e. E.capacities e ≡ caps) events.now }
        requires same_count { length wheel.now ≡ length events.now }
        requires most_limit { limit ≤ 22 }
        requires some_split { 1 ≤ split }
        requires most_split { split ≤ 4096 }
        ensures { result ≡ record { caps = caps; events = events.entry.now; rates = wheel.entry.now; limit = limit; split = split } }
    {
        // Called for their clauses: a wheel has a rate, so there is an event, and its capacities are the network's.
        let _events = wheel.events();
        let _caps = events[0].caps();
        System {
            caps,
            events,
            wheel,
            limit,
            split,
        }
    }

    /// Returns the capacities, in customers.
    pub fn caps(&self) -> State
        ensures value { result ≡ self.now.caps }
        ensures fit { IsSystem E.capacities self.now }
    {
        self.caps
    }

    /// Returns the events, in the wheel's order.
    pub fn events(&self) -> &'n [E]
        ensures value { result.now ≡ self.now.events }
        ensures fit { IsSystem E.capacities self.now }
    {
        self.events
    }

    /// Returns the event of a number, counted from 0.
    pub fn event(&self, i: u16) -> &'n E
        requires { i < length self.now.events }
        ensures { slice_get self.now.events i ≡ Some result.now }
    {
        let events = self.events;
        &events[i as usize]
    }

    /// Returns the event of a word, with its number: `None`, and the number of events, exactly where the word is
    /// idle.
    #[inline]
    pub fn pick(&self, word: u32) -> (u16, Option<&'n E>)
        ensures number { result.0 ≡ event_of self.now.rates word }
        ensures most { result.0 ≤ length self.now.events }
        ensures event { option_map (λ e. e.now) result.1 ≡ slice_get self.now.events (event_of self.now.rates word) }
        ensures idle { (result.1 ≡ None) ↔ (event_of self.now.rates word ≡ length self.now.events) }
    {
        let events = self.events;
        let number = self.wheel.pick(word);
        (number, events.get(number as usize))
    }

    /// Returns the wheel of the events' rates.
    pub fn wheel(&self) -> &'n Wheel
        ensures { result.now ≡ self.now.rates }
    {
        self.wheel
    }

    /// Returns the exponent of the greatest horizon, 0 to 22.
    pub fn limit(&self) -> u8
        ensures value { result ≡ self.now.limit }
        ensures bound { result ≤ 22 }
    {
        self.limit
    }

    /// Returns the number of states up to which a region is followed state by state, 1 to 4,096.
    pub fn split(&self) -> u16
        ensures value { result ≡ self.now.split }
        ensures some { 1 ≤ result }
        ensures most { result ≤ 4096 }
    {
        self.split
    }

    /// Returns the same network with another exponent of the greatest horizon, 0 to 22.
    pub fn with_limit(&self, limit: u8) -> System<'n, E>
        requires { limit ≤ 22 }
        ensures { result ≡ record self.now { limit = limit } }
    {
        System {
            caps: self.caps,
            events: self.events,
            wheel: self.wheel,
            limit,
            split: self.split,
        }
    }
}
