//! The event of a kind.

ghost use Rattle.std.specs.Prelude.{◌≡◌, ◌<◌, ◌≤◌, ℕ, [], length, slice_index_or, None, IfOk, IfErr, OnOk, IfSome};
ghost use Rattle.psi_state.specs.State.{AreCapacities};
ghost use Rattle.psi_route.specs.Accepted.{shape};
ghost use Rattle.psi_route.specs.Routing.{routed};
ghost use Rattle.psi_route.specs.Routing.{upset_of as upset_of_shape};
ghost use Rattle.psi_route.specs.Refusals.{refusal_of as shape_refusal};
ghost use Rattle.psi_kinds.specs.Kinds.{AreQueues, IsKindOf, Does};
ghost use Rattle.psi_route.specs.Accepted.{IsSource};
ghost use Rattle.psi_kinds.specs.Forms.{form_of, function_of, pair_of, upset_of};
ghost use Rattle.psi_kinds.specs.Refusals.{IsKindRefusal, IsUnrefused, refusal_of, refusal_of_parts};

use crate::judging::refusal_of;
use crate::parting::{fork_parts, join_parts, negative_parts};
use crate::{Event, Kind, KindRefusal, OutOfMemory, Tables};
use psi_event::EventLaw;
use psi_guard::Guarded;
use psi_index::IndexTable;
use psi_route::{Full, Route, Source};
use psi_state::{Queues, State};
use std::alloc::Global;

/// Returns the event of a kind in a network of these capacities: it does to every state what the kind does.
///
/// `caps` are capacities, 1 to 32 queues with room for 1 to 65,535 customers each. Every queue and source
/// that the kind names is one of these queues, and the number of customers from which a source serves is from
/// 1 to its queue's capacity; the parts of a guarded kind may name any.
///
/// The refusals come in this order: `Empty`, `Repeated`, `SelfTarget`, `TableLength`, `SizeRange`. Then,
/// part by part, come `PartRange`, `Repeated` and `EmptyGuard`. `OutOfMemory` is the answer if an allocation
/// for the event fails; no clause says when that is.
pub fn lower(alloc: Global, caps: State, kind: &Kind) -> Result<Event, KindRefusal>
    requires caps { AreCapacities caps }
    requires named { IsKindOf caps kind.now }
    ensures caps { IfOk result (λ event. ⟦<Event as EventLaw>⟧.capacities event ≡ caps) }
    ensures does { IfOk result (λ event. Does caps (⟦<Event as EventLaw>⟧.function event) kind.now) }
    ensures upset { IfOk result (λ event. ⟦<Event as EventLaw>⟧.upset_pair event ≡ upset_of caps kind.now) }
    ensures accepted { OnOk result (refusal_of caps kind.now ≡ None) }
    ensures refused { IfErr result (λ refusal. IsKindRefusal refusal (refusal_of caps kind.now)) }
{
    match refusal_of(&caps, kind) {
        Some(refusal) => Err(refusal),
        None => Ok(lower_accepted(alloc, caps, kind)?),
    }
}

/// Returns the event of a kind that isn't refused in a network of these capacities: what [`lower`] answers for it.
///
/// `caps` and the kind are such as `lower` takes, and [`refusal_of`](crate::refusal_of) gives no refusal.
///
/// # Errors
///
/// [`OutOfMemory`] if an allocation fails; no clause says when that is. The kinds without
/// tables take none.
pub fn lower_accepted(alloc: Global, caps: State, kind: &Kind) -> Result<Event, OutOfMemory>
    requires caps { AreCapacities caps }
    requires named { IsKindOf caps kind.now }
    requires accepted { refusal_of caps kind.now ≡ None }
    ensures caps { IfOk result (λ event. ⟦<Event as EventLaw>⟧.capacities event ≡ caps) }
    ensures does { IfOk result (λ event. Does caps (⟦<Event as EventLaw>⟧.function event) kind.now) }
    ensures upset { IfOk result (λ event. ⟦<Event as EventLaw>⟧.upset_pair event ≡ upset_of caps kind.now) }
{
    event_of(alloc, caps, kind)
}

// The event of a kind whose lists, numbers and parts aren't refused.
fn event_of(alloc: Global, caps: State, kind: &Kind) -> Result<Event, OutOfMemory>
    requires caps { AreCapacities caps }
    requires named { IsKindOf caps kind.now }
    requires unrefused { IsUnrefused caps kind.now }
    requires parts { refusal_of_parts caps kind.now ≡ None }
    ensures caps { IfOk result (λ event. ⟦<Event as EventLaw>⟧.capacities event ≡ caps) }
    ensures function { IfOk result (λ event. ⟦<Event as EventLaw>⟧.function event ≡ function_of (form_of caps kind.now)) }
    ensures upset { IfOk result (λ event. ⟦<Event as EventLaw>⟧.upset_pair event ≡ pair_of caps (form_of caps kind.now)) }
{
    match kind {
        Kind::Arrival { to } => Ok(listed_route(alloc, caps, None, 1, *to, Full::Lost)),
        Kind::Service { from, to, full } => {
            Ok(listed_route(alloc, caps, Some(*from), 1, *to, *full))
        }
        Kind::Index {
            from,
            to,
            table,
            full,
            size,
        } => {
            let tables = index_tables(alloc, table)?;
            let route = Route::accepted(caps, *from, *size, *to, tables, *full);
            Ok(Event::Route(route))
        }
        Kind::Batch { to, size } => Ok(listed_route(alloc, caps, None, *size, *to, Full::Lost)),
        Kind::Negative { from, on, amount } => {
            let parts = negative_parts(&caps, *from, *on, *amount);
            Ok(Event::Guarded(Guarded::accepted(caps, parts)))
        }
        Kind::Fork { from, to } => {
            let parts = fork_parts(&caps, *from, to);
            Ok(Event::Guarded(Guarded::accepted(caps, parts)))
        }
        Kind::Join { from, to } => {
            let parts = join_parts(&caps, from, *to);
            Ok(Event::Guarded(Guarded::accepted(caps, parts)))
        }
        Kind::Guarded { parts } => Ok(Event::Guarded(Guarded::accepted(caps, *parts))),
    }
}

// The route to the first queue of a list with room.
fn listed_route(
    alloc: Global,
    caps: State,
    source: Option<Source>,
    size: u16,
    targets: Queues,
    full: Full,
) -> Event
    requires caps { AreCapacities caps }
    requires source { IfSome source (λ source. IsSource caps source) }
    requires queues { AreQueues caps targets }
    requires accepted { shape_refusal (shape caps source size targets [] full) ≡ None }
    ensures caps { ⟦<Event as EventLaw>⟧.capacities result ≡ caps }
    ensures function { ⟦<Event as EventLaw>⟧.function result ≡ routed (shape caps source size targets [] full) }
    ensures upset { ⟦<Event as EventLaw>⟧.upset_pair result ≡ upset_of_shape (shape caps source size targets [] full) }
{
    Event::Route(Route::accepted(caps, source, size, targets, Vec::new(alloc), full))
}

// The tables of an index event, each with its least and greatest values at hand.
fn index_tables(alloc: Global, tables: &Tables) -> Result<Vec<IndexTable>, OutOfMemory>
    requires { (i : ℕ) → i < length tables.now → (1 ≤ length (slice_index_or tables.now i [])) × (length (slice_index_or tables.now i []) ≤ 65535) }
    ensures { IfOk result (λ list. list.items ≡ tables.now) }
{
    let mut list = Vec::with_capacity(alloc, tables.len())?;
    for i in 0..tables.len() {
        let table = tables.index(alloc, i)?;
        list.push(table)?;
    }
    Ok(list)
}
