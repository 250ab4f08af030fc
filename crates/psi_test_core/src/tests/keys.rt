//! Which networks are followed by their keys, which no clause says.

ghost use Rattle.std.specs.Prelude.{◌≡◌, ◌<◌, ◌≤◌, ◌∷◌, [], EachIndex, IfOk, IfSome, length, slice_index};
ghost use Rattle.psi_route.specs.Accepted.{IsSource};

use super::states::{queues_of, state_of};
use psi_event::EventLaw;
use psi_follow_keyed::Keyed;
use psi_index::{IndexTable, OutOfMemory};
use psi_route::{Full, Route, RouteRefusal, Source};
use psi_state::Queues;
use std::alloc::Global;
use std::test::Fail;

// A table of these values.
fn table_of(alloc: Global, values: &[u32]) -> Result<IndexTable, OutOfMemory>
    requires some { 1 ≤ length values.now }
    requires few { length values.now ≤ 65535 }
{
    IndexTable::new(alloc, Vec::from_slice(alloc, values)?)
}

// Customers leave a queue that holds at least so many, in a network with room for 2, 3 and 2 customers, or join the least of
// some queues by these tables.
fn routed(
    source: Option<Source>,
    targets: Queues,
    tables: Vec<IndexTable>,
) -> Result<Route, RouteRefusal>
    requires source { IfSome source (λ s. IsSource (2 ∷ 3 ∷ 2 ∷ []) s) }
    requires targets { EachIndex targets (λ i. slice_index targets i < 3) }
    ensures { IfOk result (λ route. ⟦<Route as EventLaw>⟧.capacities route ≡ 2 ∷ 3 ∷ 2 ∷ []) }
{
    let room = state_of(&[2, 3, 2]);
    Route::new(room, source, 1, targets, tables, Full::Lost)
}

// One customer joins the third queue or the first; the greatest value that a key may have is 2^27 - 2.
#[test]
fn a_network_of_one_join_and_services_has_keys(rt: HostRuntime) -> Result<(), Fail> {
    let alloc = rt.alloc();
    let mut tables = Vec::with_capacity(alloc, 2)?;
    tables.push_reserved(table_of(alloc, &[134_217_726, 4])?);
    tables.push_reserved(table_of(alloc, &[1, 2])?);
    let none = Queues::empty();
    let events = [
        routed(None, queues_of(&[2, 0]), tables)?,
        routed(Some(Source { queue: 2, k: 1 }), none, Vec::new(alloc))?,
        routed(Some(Source { queue: 1, k: 2 }), none, Vec::new(alloc))?,
        routed(None, none, Vec::new(alloc))?,
    ];
    assert!(rt; Keyed::new(alloc, state_of(&[2, 3, 2]), &events)?.is_some());
    Ok(())
}
