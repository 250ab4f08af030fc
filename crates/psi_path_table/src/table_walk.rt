//! The walk of a path by a table, with its sums.

ghost use Rattle.std.specs.Prelude.{◌≡◌, ◌+◌, ◌*◌, ◌<◌, length, map, IfOk, MatchOption};
ghost use Rattle.psi_state.specs.State.{all_states};
ghost use Rattle.psi_path_table.specs.Table.{IsTableOf};

use crate::OutOfMemory;
use crate::filling::{fill, states_in};
use crate::visits::Visits;
use psi_event::EventLaw;
use psi_past::Past;
use psi_path::{PathWalker, Rewards, SamplePath, Walk};
use psi_rate::System;
use psi_state::{Bounds, State};
use std::alloc::Global;
use std::marker::Model;

/// Walks paths of one small network by a table: the rank of what each event makes of each state.
///
/// It is seen as that table. Only `new` allocates.
#[derive(Drop)]
pub struct TableWalk {
    caps: State,
    visits: Visits,
}

impl Model for TableWalk {
    ghost use Rattle.psi_path_table.specs.Table.{Table};

    ghost Value = { Table };

    ghost use Rattle.psi_path_table.specs.Inner.TableKept.{IsKept};

    ghost view = { λ w. record { caps = w.caps; ranks = w.visits.next.items } };

    ghost invariant = { λ w. IsKept w.caps w.visits.states w.visits.next.items w.visits.counts.items };
}

impl TableWalk {
    /// Returns a walk for a network, and `None` exactly where its table would have more than 65,536 entries. An entry takes 6 bytes.
    ///
    /// # Errors
    ///
    /// [`OutOfMemory`] where there is no memory for the table.
    pub fn new<E: EventLaw>(
        alloc: Global,
        system: &System<'_, E>,
    ) -> Result<Option<TableWalk>, OutOfMemory>
        ensures { IfOk result (λ found. MatchOption found (65536 < (length system.now.events + 1) * length (all_states system.now.caps)) (IsTableOf system.now.caps (map E.function system.now.events))) }
    {
        let rows = system.events().len() as u32 + 1;
        let caps = system.caps();
        let Some(states) = states_in(&caps, rows) else {
            return Ok(None);
        };
        let entries = (rows * states) as usize;
        let mut next = Vec::with_capacity(alloc, entries)?;
        fill(system, &mut next);
        let counts = vec![in alloc; 0; entries]?;
        let visits = Visits {
            rows,
            states,
            next,
            counts,
            rank: 0,
            left: 0,
        };
        Ok(Some(TableWalk { caps, visits }))
    }

    /// Returns the number of entries of the table, at most 65,536: one for each state and each event, and one more for each state.
    pub fn entries(&self) -> u32
        ensures { result ≡ length self.now.ranks }
    {
        self.visits.next.len() as u32
    }
}

/// A step is one look-up, whatever it changes. A path takes the time of the whole table in addition, and that of the sums of each
/// state.
impl PathWalker for TableWalk {
    ghost walks = { λ w caps functions worths. IsTableOf caps functions w };

    fn run<E: EventLaw, P: Past, R: Rewards>(
        &mut self,
        path: &mut SamplePath<'_, E, P, R>,
        walk: &mut Walk,
    ) -> State {
        let caps = path.system.caps();
        let bounds = Bounds::whole(&caps);
        let rows = path.system.events().len() as u32 + 1;
        self.visits
            .begin(rows, bounds.rank(&path.start), path.steps);
        self.visits.walk(path.system, path.rewards, &mut path.past, path.steps, walk);
        bounds.unrank(self.visits.rank)
    }
}
