//! The targets of a network with their keys.

ghost use Rattle.std.specs.Prelude.{◌≡◌, ◌<◌, ◌≤◌, length, slice_index, IfOk, IfSome};
ghost use Rattle.psi_state.specs.State.{IsBelow};
ghost use Rattle.psi_route.specs.Route.{shape_of};
ghost use Rattle.psi_route.specs.Routing.{routed};
ghost use Rattle.psi_follow_keyed.specs.Keys.{AreRanked, IsBoardFor, key_at};

use crate::filling::Rows;
use psi_event::EventLaw;
use psi_route::{Route, RouteLaw};
use psi_state::{Queues, State};
use std::alloc::{AllocError, Global};
use std::marker::Model;

/// The targets that customers from outside join, with the key of each at each number of customers.
///
/// A key is the value of the target's table and, in its lowest five bits, the target's place in the list; where the
/// target is full it is above all keys. They take 4 bytes for each target and each number from 0 to its capacity.
#[derive(Drop)]
pub(crate) struct Board {
    caps: State,
    targets: Queues,
    rows: Rows,
}

impl Model for Board {
    ghost use Rattle.psi_follow_keyed.specs.Keys.{Keys, IsBoard};

    ghost Value = { Keys };

    ghost view = { λ b. record { caps = b.caps; targets = b.targets; bases = b.rows.bases; entries = b.rows.entries.items } };

    ghost invariant = { λ b. IsBoard (record { caps = b.caps; targets = b.targets; bases = b.rows.bases; entries = b.rows.entries.items }) };
}

impl Board {
    /// Returns the board of an event's targets; `None` where the event isn't a route by which customers from outside
    /// join, one at a time, the target with the least key, or where a value of a table is above 2^27 - 2.
    ///
    /// # Errors
    ///
    /// `AllocError` if an allocation fails; no clause says when that is.
    pub fn of<E: RouteLaw>(alloc: Global, event: &E) -> Result<Option<Board>, AllocError>
        ensures { IfOk result (λ found. IfSome found (λ board. IsBoardFor (E.capacities event.now) (E.function event.now) board)) }
    {
        let Some(route) = event.as_route() else {
            return Ok(None);
        };
        Board::of_route(alloc, route)
    }

    // As `of`, of an event that is known to be this route.
    fn of_route(alloc: Global, route: &Route) -> Result<Option<Board>, AllocError>
        ensures { IfOk result (λ found. IfSome found (λ board. IsBoardFor (⟦<Route as EventLaw>⟧.capacities route.now) (⟦<Route as EventLaw>⟧.function route.now) board)) }
    {
        if route.is_plain() || route.size() != 1 || route.source().is_some() {
            return Ok(None);
        }
        let Some(rows) = Rows::of(alloc, route)? else {
            return Ok(None);
        };
        Ok(Some(Board {
            caps: route.caps(),
            targets: route.targets(),
            rows,
        }))
    }

    /// Returns the targets, in their order.
    ///
    /// Its second clause is how a caller learns what every board keeps.
    pub fn targets(&self) -> Queues
        ensures value { result ≡ self.now.targets }
        ensures ranked { AreRanked self.now }
    {
        self.targets
    }

    /// Returns the queue of the target at a place.
    #[inline]
    pub fn queue(&self, place: u8) -> u8
        requires { place < length self.now.targets }
        ensures { result ≡ slice_index self.now.targets place }
    {
        self.targets.get(place)
    }

    /// Returns the key of the target at a place where it holds `held` customers.
    #[inline]
    pub fn key(&self, place: u8, held: u16) -> u32
        requires place { place < length self.now.targets }
        requires held { held ≤ slice_index self.now.caps (slice_index self.now.targets place) }
        ensures { result ≡ key_at self.now place held }
    {
        self.rows.at(place, held)
    }
}
