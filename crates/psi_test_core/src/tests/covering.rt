//! Envelopes where the states are too many to be listed.

use super::states::{queues_of, state_of};
use psi_event::EventLaw;
use psi_guard::{Guarded, Part};
use psi_index::IndexTable;
use psi_route::{Full, Route};
use psi_state::{Bounds, State};
use std::alloc::Global;
use std::test::Fail;

// Twenty queues, of which the first holds `first` customers and the others hold `count`.
fn twenty(first: u16, count: u16) -> State {
    let mut state = state_of(&[count; 20]);
    state.set(0, first);
    state
}

// Customers join the shortest of twenty queues with room for ten each that isn't full.
fn joining_the_shortest(alloc: Global) -> Result<Route, Fail> {
    let mut tables = Vec::new(alloc);
    for _ in 0..20 {
        let values = Vec::from_slice(alloc, &[0, 1, 2, 3, 4, 5, 6, 7, 8, 9])?;
        tables.push(IndexTable::new(alloc, values)?)?;
    }
    let targets = queues_of(&[
        0, 1, 2, 3, 4, 5, 6, 7, 8, 9, 10, 11, 12, 13, 14, 15, 16, 17, 18, 19,
    ]);
    Ok(Route::new(state_of(&[10; 20]), None, 1, targets, tables, Full::Lost)?)
}

// The envelope of all states.
fn around_all<E: EventLaw>(event: &E) -> Bounds {
    let mut around = Bounds::whole(&event.caps());
    event.envelope(&mut around);
    around
}

#[test]
fn the_first_of_twenty_equal_queues_is_never_left_empty(rt: HostRuntime) -> Result<(), Fail> {
    let around = around_all(&joining_the_shortest(rt.alloc())?);
    assert_eq!(rt; (around.lo(), around.hi()), (twenty(1, 0), twenty(10, 10)));
    Ok(())
}

// A part of a queue with room for ten customers.
fn part(queue: u8, least: u16, shift: i32) -> Part {
    Part {
        queue,
        least,
        most: 10,
        shift,
        floor: 0,
        ceiling: 10,
    }
}

#[test]
fn an_envelope_over_twenty_queues_lists_no_state(rt: HostRuntime) -> Result<(), Fail> {
    let event = Guarded::new(state_of(&[10; 20]), &[part(0, 1, -1), part(1, 0, -2)])?;
    let around = around_all(&event);
    assert_eq!(rt; (around.lo(), around.hi()), (twenty(0, 0), twenty(9, 10)));
    Ok(())
}
