//! What makes no route.

ghost use Rattle.std.specs.Prelude.{◌≡◌, ◌<◌, length, slice_index, nat_lt, EachIndex};
ghost use Rattle.std.specs.List.{list_any};
ghost use Rattle.psi_route.specs.Refusals.{is_self_target, fit_tables, is_size_off};

use crate::parts::Source;
use psi_index::IndexTable;
use psi_state::{Queues, State};

/// Returns whether the source is one of the targets: customers would leave and join one queue.
///
/// It is `false` without a source.
pub fn is_self_target(source: Option<Source>, targets: &Queues) -> bool
    ensures { result ≡ is_self_target source targets.now }
{
    match source {
        None => false,
        Some(source) => targets.contains(source.queue),
    }
}

// Whether there is no table, or one for each target with as many values as the target has room for.
pub(crate) fn fit_tables(caps: &State, targets: &Queues, tables: &[IndexTable]) -> bool
    requires { EachIndex targets.now (λ i. slice_index targets.now i < length caps.now) }
    ensures { result ≡ fit_tables caps.now targets.now tables.now }
{
    if tables.is_empty() {
        return true;
    }
    if tables.len() != targets.len() as usize {
        return false;
    }
    for i in 0..targets.len() {
        if tables[i as usize].len() != caps.get(targets.get(i)) {
            return false;
        }
    }
    true
}

/// Returns whether no route moves `size` customers at once: `size` is 0, above the capacity of a target, or 2 and
/// more with a source or without a target.
///
/// `caps` has the capacity of each queue, in customers; the targets are queues of it, counted from 0.
pub fn is_size_off(caps: &State, source: Option<Source>, size: u16, targets: &Queues) -> bool
    requires { EachIndex targets.now (λ i. slice_index targets.now i < length caps.now) }
    ensures { result ≡ is_size_off caps.now source size targets.now }
{
    size == 0
        || is_above_a_target(caps, size, targets)
        || (size >= 2 && (source.is_some() || targets.len() == 0))
}

// Whether the size is above the capacity of a target.
fn is_above_a_target(caps: &State, size: u16, targets: &Queues) -> bool
    requires { EachIndex targets.now (λ i. slice_index targets.now i < length caps.now) }
    ensures { result ≡ list_any (λ q. nat_lt (slice_index caps.now q) size) targets.now }
{
    for i in 0..targets.len() {
        if caps.get(targets.get(i)) < size {
            return true;
        }
    }
    false
}
