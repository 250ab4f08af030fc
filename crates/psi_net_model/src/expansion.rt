//! Events are expanded over the servers of their sources.

ghost use Rattle.std.specs.Prelude.{◌≡◌, ◌≤◌, ◌<◌, ◌++◌, length, map, MatchOption, IfSome, IfOk, OnOk, option_map};
ghost use Rattle.std.specs.List.{flat_map};
ghost use Rattle.psi_rate.specs.Rates.{total};
ghost use Rattle.psi_net_model.specs.Draft.{drafted, unexpanded, IsWhole};
ghost use Rattle.psi_net_model.specs.Expansion.{source_of, with_server, at_server, servers_at, served_by, expanded, AreSourced, values_in, most_index_values};

use crate::OutOfMemory;
use crate::entries::{Draft, NamedEvent, Queue};
use psi_kinds::{Kind, Tables};
use psi_route::Source;
use std::alloc::Global;

/// The most index values that the expanded events of a network may have together.
pub const MOST_INDEX_VALUES: u32 = 262_144;

/// Returns the single source of a kind: the queue, and its server, from which the event takes a customer. `None` for
/// a kind without one: an arrival, a batch, a join, a guarded event, and where `from` is left out.
pub fn source_of(kind: &Kind) -> Option<Source>
    ensures { result ≡ source_of kind.now }
{
    match kind {
        Kind::Arrival { .. } => None,
        Kind::Service { from, .. } => Some(*from),
        Kind::Index { from, .. } => *from,
        Kind::Batch { .. } => None,
        Kind::Negative { from, .. } => *from,
        Kind::Fork { from, .. } => *from,
        Kind::Join { .. } => None,
        Kind::Guarded { .. } => None,
    }
}

/// Returns how many servers the queue of the source has, and 1 where there is no source: an event becomes as many.
#[tactic(auto, using(crate::proofs::ServersLemmas::servers_read))]
pub fn servers_at(queues: &[Queue], source: Option<Source>) -> u16
    requires { IfSome source (λ source. source.queue < length queues.now) }
    ensures { result ≡ servers_at queues.now source }
{
    match source {
        Some(source) => queues[source.queue as usize].servers,
        None => 1,
    }
}

// The source with another server.
fn with_server(k: u16, source: Option<Source>) -> Option<Source>
    ensures { result ≡ option_map (with_server k) source }
{
    match source {
        Some(source) => Some(Source {
            queue: source.queue,
            k,
        }),
        None => None,
    }
}

// The kind with another server of its source.
fn at_server(alloc: Global, k: u16, kind: &Kind) -> Result<Kind, OutOfMemory>
    ensures { IfOk result (λ copy. copy ≡ at_server k kind.now) }
{
    let kind = match *kind {
        Kind::Arrival { to } => Kind::Arrival { to },
        Kind::Service { from, to, full } => {
            let from = Source { k, ..from };
            Kind::Service { from, to, full }
        }
        Kind::Index {
            from,
            to,
            ref table,
            full,
            size,
        } => Kind::Index {
            from: with_server(k, from),
            to,
            table: table.share(alloc)?,
            full,
            size,
        },
        Kind::Batch { to, size } => Kind::Batch { to, size },
        Kind::Negative { from, on, amount } => {
            let from = with_server(k, from);
            Kind::Negative { from, on, amount }
        }
        Kind::Fork { from, to } => {
            let from = with_server(k, from);
            Kind::Fork { from, to }
        }
        Kind::Join { from, to } => Kind::Join { from, to },
        Kind::Guarded { parts } => Kind::Guarded { parts },
    };
    Ok(kind)
}

/// Appends the event once for each of the first `servers` servers of its source, in their
/// order.
///
/// # Errors
///
/// [`OutOfMemory`] if an allocation fails; some of them may then stand after the others.
#[tactic(auto, using(crate::proofs::CopyLemmas::served_start, crate::proofs::CopyLemmas::served_next))]
pub fn push_expanded(
    alloc: Global,
    events: &mut Vec<NamedEvent>,
    event: &NamedEvent,
    servers: u16,
) -> Result<(), OutOfMemory>
    ensures { OnOk result (events.new.items ≡ events.old.items ++ served_by servers event.now) }
{
    for place in 0..servers {
        let kind = at_server(alloc, place + 1, &event.kind)?;
        events.push(NamedEvent {
            name: event.name,
            server: place + 1,
            rate: event.rate,
            kind,
        })?;
    }
    Ok(())
}

// Puts the least and greatest values of the tables of events at hand; the events stay the same.
fn index_all(alloc: Global, events: &mut [NamedEvent]) -> Result<(), OutOfMemory>
    ensures { OnOk result (events.new ≡ events.old) }
{
    for place in 0..events.len() {
        events[place].kind.index(alloc)?;
    }
    Ok(())
}

// The events one after another, each once for each server of its source.
#[tactic(auto, using(crate::proofs::CopyLemmas::expanded_more))]
fn all_served(
    alloc: Global,
    queues: &[Queue],
    events: &[NamedEvent],
) -> Result<Vec<NamedEvent>, OutOfMemory>
    requires { AreSourced queues.now events.now }
    ensures { IfOk result (λ all. all.items ≡ flat_map (expanded queues.now) events.now) }
{
    let mut all = Vec::with_capacity(alloc, events.len())?;
    for event in events {
        let servers = servers_at(queues, source_of(&event.kind));
        push_expanded(alloc, &mut all, event, servers)?;
    }
    Ok(all)
}

/// Returns what was said of a network whose events aren't expanded yet, with each event once for each server of its
/// source, in their order. The tables of an index event are made once, and its servers share them.
///
/// # Errors
///
/// [`OutOfMemory`] if an allocation fails.
pub fn expand(alloc: Global, draft: Draft) -> Result<Draft, OutOfMemory>
    requires sources { AreSourced draft.queues.items draft.events.items }
    requires whole { IsWhole draft }
    ensures network { IfOk result (λ made. drafted made ≡ unexpanded draft) }
    ensures whole { IfOk result IsWhole }
{
    let mut listed = draft.events;
    index_all(alloc, &mut listed)?;
    let events = all_served(alloc, draft.queues.as_slice(), listed.as_slice())?;
    Ok(Draft {
        queues: draft.queues,
        caps: draft.caps,
        events,
        limit: draft.limit,
        split: draft.split,
        rewards: draft.rewards,
    })
}

// The number of index values of tables, and None exactly where it is above the most that there may be.
#[tactic(auto, using(crate::proofs::ServersLemmas::values_turn, crate::proofs::ServersLemmas::values_past, crate::proofs::ServersLemmas::values_whole))]
fn table_values(tables: &Tables) -> Option<u32>
    ensures { MatchOption result (most_index_values < total (map length tables.now)) (λ values. (values ≡ total (map length tables.now)) × (values ≤ most_index_values)) }
{
    let mut values = 0;
    for place in 0..tables.len() {
        values += tables.row(place).len();
        if values > MOST_INDEX_VALUES as usize {
            return None;
        }
    }
    Some(values as u32)
}

/// Returns the number of index values of a kind, one for each target and number of its customers, and `None` exactly
/// where it is above [`MOST_INDEX_VALUES`]. Only an index has any.
pub fn index_values(kind: &Kind) -> Option<u32>
    ensures { MatchOption result (most_index_values < values_in kind.now) (λ values. (values ≡ values_in kind.now) × (values ≤ most_index_values)) }
{
    match kind {
        Kind::Index { table, .. } => table_values(table),
        _ => Some(0),
    }
}
