//! The route.

ghost use Rattle.std.specs.Prelude.{◌≡◌, ◌+◌, ◌<◌, ◌≤◌, ◌↔◌, IsTrue, length, slice_index, OnOk, IfOk, IfErr, IfSome, EachIndex, Some, None};
ghost use Rattle.psi_state.specs.State.{AreCapacities};
ghost use Rattle.psi_route.specs.Routing.{routed, upset_of, weight};
ghost use Rattle.psi_route.specs.Refusals.{refusal_of};
ghost use Rattle.psi_route.specs.Accepted.{shape, IsSource, IsRouteShape};
ghost use Rattle.psi_route.specs.ServerKept.{AreRooms, IsServer};

use crate::flat::{Server, rooms_of};
use crate::judging::{fit_tables, is_self_target, is_size_off};
use crate::parts::{Full, RouteRefusal, Source};
use psi_event::EventLaw;
use psi_index::IndexTable;
use psi_state::{Queues, State};

/// Customers who come from outside, or one who is served at a source, join one of the targets.
///
/// They join the target with the least key among those that have room for them all. The key of a target is
/// the value of its table at the number of customers there, and where two are equal the place in the list;
/// without tables it is the place alone, so that the first target with room is chosen. Join the shortest
/// queue and the other index policies are routes.
#[derive(Drop, Debug)]
pub struct Route {
    // What a step reads comes first.
    pub(crate) server: Server,
    pub(crate) size: u16,
    pub(crate) full: Full,
    pub(crate) targets: Queues,
    pub(crate) tables: Vec<IndexTable>,
    rooms: [u16; 32],
    pub(crate) caps: State,
    pub(crate) source: Option<Source>,
    ghost valid: { IsRouteShape (shape caps source size targets tables.items full) },
    ghost roomy: { AreRooms caps size targets rooms },
    ghost served: { IsServer source server },
}

impl Route {
    ghost use Rattle.psi_route.specs.Route.{shape_of};

    /// Returns the route of these parts.
    ///
    /// `caps` are capacities. The source and the targets are queues of it, counted from 0, and the source's `k`
    /// is from 1 to its queue's capacity.
    ///
    /// `source` is where a served customer comes from; without one, customers come from outside. `size` is
    /// how many come at once. `tables` has one table for each target, in the targets' order, with a value
    /// for each number of customers at which the target has room for one more; it is empty where the first
    /// target with room is to be chosen. `full` says what a served customer does who finds no room. Where
    /// there is no target, a served customer leaves the network, whatever `full` is, and without a source
    /// nothing changes.
    ///
    /// The refusals come in the order of `RouteRefusal`.
    #[tactic(auto, unfolding(crate::specs::Refusals::refusal_of))]
    pub fn new(
        caps: State,
        source: Option<Source>,
        size: u16,
        targets: Queues,
        tables: Vec<IndexTable>,
        full: Full,
    ) -> Result<Route, RouteRefusal>
        requires caps { AreCapacities caps }
        requires targets { EachIndex targets (λ i. slice_index targets i < length caps) }
        requires source { IfSome source (λ s. IsSource caps s) }
        ensures accepted { OnOk result (refusal_of (shape caps source size targets tables.items full) ≡ None) }
        ensures refused { IfErr result (λ refusal. refusal_of (shape caps source size targets tables.items full) ≡ Some refusal) }
        ensures caps { IfOk result (λ route. ⟦<Route as EventLaw>⟧.capacities route ≡ caps) }
        ensures function { IfOk result (λ route. ⟦<Route as EventLaw>⟧.function route ≡ routed (shape caps source size targets tables.items full)) }
        ensures upset { IfOk result (λ route. ⟦<Route as EventLaw>⟧.upset_pair route ≡ upset_of (shape caps source size targets tables.items full)) }
    {
        if is_self_target(source, &targets) {
            return Err(RouteRefusal::SelfTarget);
        }
        if targets.repeats() {
            return Err(RouteRefusal::Repeated);
        }
        if !fit_tables(&caps, &targets, &tables) {
            return Err(RouteRefusal::TableLength);
        }
        if is_size_off(&caps, source, size, &targets) {
            return Err(RouteRefusal::SizeRange);
        }
        Ok(Route::accepted(caps, source, size, targets, tables, full))
    }

    /// Returns the route of these parts, which are none of those that [`Route::new`] refuses: what it answers for
    /// them.
    pub fn accepted(
        caps: State,
        source: Option<Source>,
        size: u16,
        targets: Queues,
        tables: Vec<IndexTable>,
        full: Full,
    ) -> Route
        requires caps { AreCapacities caps }
        requires targets { EachIndex targets (λ i. slice_index targets i < length caps) }
        requires source { IfSome source (λ s. IsSource caps s) }
        requires accepted { refusal_of (shape caps source size targets tables.items full) ≡ None }
        ensures caps { ⟦<Route as EventLaw>⟧.capacities result ≡ caps }
        ensures function { ⟦<Route as EventLaw>⟧.function result ≡ routed (shape caps source size targets tables.items full) }
        ensures upset { ⟦<Route as EventLaw>⟧.upset_pair result ≡ upset_of (shape caps source size targets tables.items full) }
    {
        let rooms = rooms_of(&caps, size, &targets);
        Route {
            server: Server::of(source),
            size,
            full,
            targets,
            tables,
            rooms,
            caps,
            source,
        }
    }

    /// Where a served customer comes from; `None` where customers come from outside.
    pub fn source(&self) -> Option<Source>
        ensures { let s = shape_of self.now in result ≡ s.source }
    {
        self.source
    }

    /// Returns how many customers come at once.
    pub fn size(&self) -> u16
        ensures { let s = shape_of self.now in result ≡ s.size }
    {
        self.size
    }

    /// Returns whether there are no tables, so that the first target with room is chosen.
    pub fn is_plain(&self) -> bool
        ensures { let s = shape_of self.now in IsTrue result ↔ (length s.tables ≡ 0) }
    {
        self.tables.is_empty()
    }

    /// Returns the targets, in their order.
    ///
    /// Its second clause is how a caller learns what every route keeps.
    pub fn targets(&self) -> Queues
        ensures value { let s = shape_of self.now in result ≡ s.targets }
        ensures valid { IsRouteShape (shape_of self.now) }
    {
        self.targets
    }

    // The number of targets.
    pub(crate) fn places(&self) -> u8
        ensures value { result ≡ length self.now.targets }
        ensures few { result ≤ 32 }
    {
        self.targets.len()
    }

    // The queue of the target at place `i`.
    pub(crate) fn target(&self, i: u8) -> u8
        requires { i < length self.now.targets }
        ensures value { result ≡ slice_index self.now.targets i }
        ensures named { result < length self.now.caps }
    {
        self.targets.get(i)
    }

    // The capacity of the target at place `i`.
    pub(crate) fn cap(&self, i: u8) -> u16
        requires { i < length self.now.targets }
        ensures { result ≡ slice_index self.now.caps (slice_index self.now.targets i) }
    {
        self.caps.get(self.target(i))
    }

    // The greatest number of customers with which the target at place `i` has room for those who come.
    #[inline]
    pub(crate) fn most_with_room(&self, i: u8) -> u16
        requires { i < length self.now.targets }
        ensures { result + self.now.size ≡ slice_index self.now.caps (slice_index self.now.targets i) }
    {
        self.rooms[i as usize]
    }

    // The number of customers at the target at place `i`.
    pub(crate) fn held(&self, x: &State, i: u8) -> u16
        requires place { i < length self.now.targets }
        requires length { length x.now ≡ length self.now.caps }
        ensures { result ≡ slice_index x.now (slice_index self.now.targets i) }
    {
        x.get(self.target(i))
    }

    /// Returns the first part of the key of the target at place `i` with `v` customers: the value of its table there.
    pub fn weight(&self, i: u8, v: u16) -> u32
        requires tables { let s = shape_of self.now in 0 < length s.tables }
        requires place { let s = shape_of self.now in i < length s.targets }
        requires number { let s = shape_of self.now in v < slice_index s.caps (slice_index s.targets i) }
        ensures { result ≡ weight (shape_of self.now) i v }
    {
        self.weight_in(&self.tables, i, v)
    }

    // The same where the tables are at hand.
    pub(crate) fn weight_in(&self, tables: &[IndexTable], i: u8, v: u16) -> u32
        requires tables { 0 < length self.now.tables.items }
        requires own { tables.now ≡ self.now.tables.items }
        requires place { i < length self.now.targets }
        requires number { v < slice_index self.now.caps (slice_index self.now.targets i) }
        ensures { result ≡ weight (shape_of self.now) i v }
    {
        tables[i as usize].at(v)
    }
}
