//! The keys of each kind of event, in the order in which they are read.

ghost use Rattle.std.specs.Prelude.{◌≡◌, ℕ, ◌≤◌, ◌<◌, ◌+◌, [], true, length, map, codes, None, is_some, nat_le, slice_index, IfOk, OnOk};
ghost use Rattle.std.specs.List.{list_all};
ghost use Rattle.toml.specs.View.{view, table_view};
ghost use Rattle.psi_route.specs.declared.Full.TheVariants.{Lost};
ghost use Rattle.psi_net_document.specs.Refusal.{Gives};
ghost use Rattle.psi_net.specs.Errors.{Reads};
ghost use Rattle.psi_net_document.specs.Values.{seen, required, optional, each};
ghost use Rattle.psi_net_document.specs.References.{targets_in};
ghost use Rattle.psi_net_document.specs.Targets.{are_below};
ghost use Rattle.psi_net.specs.KindTables.{source_in, queue_of_source, full_in, number_step, row_step, table_of, size_fits, arrival_of, service_of, index_of, batch_of, negative_of, fork_of, joined_in, join_of};

use crate::judged;
use crate::known_queues::KnownQueues;
use crate::net_error::NetError;
use psi_kinds::{Kind, Tables};
use psi_net_document::{
    KnownNames, NetCause, NetRefusal, Place, counted_in, find, number_in, number_or, present,
    queue_in, read, required_number, required_queue, required_target, required_targets, target_in,
    targets_in,
};
use psi_route::{Full, Source};
use psi_state::{MOST_CUSTOMERS, Queues, State};
use std::alloc::Global;
use toml::{Table, Value};

// `from`, where it is optional, with its first server.
#[tactic(auto, unfolding(crate::specs::KindTables::source_in))]
fn source(
    place: Place,
    known: &KnownNames,
    value: Option<&Value>,
) -> Result<Option<Source>, NetRefusal>
    ensures { Gives (λ source. source) result (optional None (source_in place known.now.list.keys) (seen value.entry)) }
{
    match value {
        Some(value) => {
            let queue = read!(queue_in(place, "from", known, value));
            Ok(Some(Source { queue, k: 1 }))
        }
        None => Ok(None),
    }
}

// The queue of a source, as a list.
fn queue_of_source(source: Option<Source>) -> Queues
    ensures { result ≡ queue_of_source source }
{
    let mut queues = Queues::empty();
    if let Some(source) = source {
        queues.push(source.queue);
    }
    queues
}

// `full`: "lost" or "stay".
#[tactic(auto, unfolding(crate::specs::KindTables::full_in))]
fn full_in(place: Place, value: &Value) -> Result<Full, NetRefusal>
    ensures { Gives (λ full. full) result (full_in place (view value.now)) }
{
    match value {
        Value::String(text) => {
            let text = text.as_str();
            if text == "lost" {
                Ok(Full::Lost)
            } else if text == "stay" {
                Ok(Full::Stay)
            } else {
                Err(NetCause::OutOfRange.at_key(place, "full"))
            }
        }
        _ => Err(NetCause::WrongType.at_key(place, "full")),
    }
}

// `full`, "lost" by default.
fn full(place: Place, value: Option<&Value>) -> Result<Full, NetRefusal>
    ensures { Gives (λ full. full) result (optional Lost (full_in place) (seen value.entry)) }
{
    match value {
        Some(value) => full_in(place, value),
        None => Ok(Full::Lost),
    }
}

// The greatest index value.
const MOST_INDEX_VALUE: u32 = 1_000_000_000;

// The integers of a row.
// Out of line: where it is inlined, what its caller keeps takes the registers of the loop.
#[inline(never)]
#[tactic(auto, using(psi_net_document::proofs::TurnLemmas::turn, psi_net_document::proofs::TurnLemmas::turn_fails, psi_net_document::proofs::TurnLemmas::turn_ends), unfolding(crate::specs::KindTables::number_step))]
fn all_numbers(alloc: Global, place: Place, values: &[Value]) -> Result<Vec<u32>, NetError>
    ensures { Reads (λ numbers. numbers.items) result (each (number_step place) 1 [] (map view values.now)) }
{
    let mut numbers = Vec::with_capacity(alloc, values.len())?;
    for value in values {
        let number = judged!(number_in(place, "table", 0, MOST_INDEX_VALUE, value));
        numbers.push_reserved(number);
    }
    Ok(numbers)
}

// The row of an index's table for the target at this place, counted from 0, with the rows before it.
#[tactic(auto, using(psi_net_document::proofs::FoundLemmas::below_at), unfolding(crate::specs::KindTables::row_step))]
fn push_row(
    alloc: Global,
    place: Place,
    caps: &State,
    to: &Queues,
    number: u8,
    rows: &mut Tables,
    value: &Value,
) -> Result<(), NetError>
    requires among { are_below (length caps.now) to.now ≡ true }
    requires next { number < length to.now }
    requires count { length rows.old ≡ number }
    ensures value { (n : ℕ) → Reads (λ _. rows.new) result (row_step place caps.now to.now n rows.old (view value.now)) }
    ensures count { OnOk result (length rows.new ≡ number + 1) }
{
    let count = caps.get(to.get(number)) as usize;
    let values = judged!(counted_in(place, "table", count, value));
    let row = read!(all_numbers(alloc, place, values));
    rows.push(row)?;
    Ok(())
}

// `table` of an index: one row for each target.
#[tactic(auto, using(psi_net_document::proofs::TurnLemmas::turn, crate::proofs::ErrorLemmas::turn_errs, psi_net_document::proofs::TurnLemmas::turn_ends), unfolding(crate::specs::KindTables::table_of))]
fn table_of(
    alloc: Global,
    place: Place,
    caps: &State,
    to: &Queues,
    value: Option<&Value>,
) -> Result<Tables, NetError>
    requires { are_below (length caps.now) to.now ≡ true }
    ensures { Reads (λ rows. rows) result (required place (codes "table") (table_of place caps.now to.now) (seen value.entry)) }
{
    let value = judged!(present(place, "table", value));
    let values = judged!(counted_in(place, "table", to.len() as usize, value));
    let mut rows = Tables::new(alloc);
    for number in 0..to.len() {
        let element = &values[number as usize];
        read!(push_row(alloc, place, caps, to, number, &mut rows, element));
    }
    Ok(rows)
}

// Whether each target has a capacity of at least `size`.
#[tactic(auto, using(psi_net_document::proofs::FoundLemmas::below_at, psi_net_document::proofs::FoundLemmas::all_turn, psi_net_document::proofs::FoundLemmas::all_found, psi_net_document::proofs::FoundLemmas::all_ends))]
fn are_roomy(caps: &State, to: &Queues, size: u32) -> bool
    requires { are_below (length caps.now) to.now ≡ true }
    ensures { result ≡ list_all (λ q. nat_le size (slice_index caps.now q)) to.now }
{
    for place in 0..to.len() {
        if size > caps.get(to.get(place)) as u32 {
            return false;
        }
    }
    true
}

// `size`: 1 beside a source, and at most every target's capacity.
#[tactic(auto, unfolding(crate::specs::KindTables::size_fits))]
fn size_fits(
    place: Place,
    caps: &State,
    has_source: bool,
    to: &Queues,
    size: u32,
) -> Result<u16, NetRefusal>
    requires among { are_below (length caps.now) to.now ≡ true }
    requires most { size ≤ 65535 }
    ensures { Gives (λ n. n) result (size_fits place caps.now has_source to.now size) }
{
    if has_source && size != 1 {
        return Err(NetCause::OutOfRange.at_key(place, "size"));
    }
    if !are_roomy(caps, to, size) {
        return Err(NetCause::BatchTooLarge.at_key(place, "size"));
    }
    Ok(size as u16)
}

// An arrival's keys.
#[tactic(auto, unfolding(crate::specs::KindTables::arrival_of))]
pub(crate) fn arrival(place: Place, known: &KnownNames, table: &Table) -> Result<Kind, NetRefusal>
    ensures { Gives (λ kind. kind) result (arrival_of place known.now.list.keys (table_view table.now)) }
{
    let to = read!(required_targets(place, "to", known, &Queues::empty(), find(table, "to")));
    Ok(Kind::Arrival { to })
}

// `to` of a service.
fn optional_targets(
    place: Place,
    known: &KnownNames,
    sources: &Queues,
    value: Option<&Value>,
) -> Result<Queues, NetRefusal>
    ensures { Gives (λ qs. qs) result (optional [] (targets_in place (codes "to") known.now.list.keys sources.now) (seen value.entry)) }
{
    match value {
        Some(value) => targets_in(place, "to", known, sources, value),
        None => Ok(Queues::empty()),
    }
}

// A service's keys.
#[tactic(auto, unfolding(crate::specs::KindTables::service_of))]
pub(crate) fn service(place: Place, known: &KnownNames, table: &Table) -> Result<Kind, NetRefusal>
    ensures { Gives (λ kind. kind) result (service_of place known.now.list.keys (table_view table.now)) }
{
    let queue = read!(required_queue(place, "from", known, find(table, "from")));
    let from = Source { queue, k: 1 };
    let sources = queue_of_source(Some(from));
    let to = read!(optional_targets(place, known, &sources, find(table, "to")));
    let full = read!(full(place, find(table, "full")));
    Ok(Kind::Service { from, to, full })
}

// An index's keys.
#[tactic(auto, unfolding(crate::specs::KindTables::index_of))]
pub(crate) fn index(
    alloc: Global,
    place: Place,
    known: &KnownQueues,
    table: &Table,
) -> Result<Kind, NetError>
    ensures { Reads (λ kind. kind) result (index_of place known.now.names.list.keys known.now.caps (table_view table.now)) }
{
    let from = judged!(source(place, &known.names, find(table, "from")));
    let sources = queue_of_source(from);
    let to = judged!(required_targets(place, "to", &known.names, &sources, find(table, "to")));
    let rows = read!(table_of(alloc, place, &known.caps, &to, find(table, "table")));
    let full = judged!(full(place, find(table, "full")));
    let size = judged!(number_or(place, "size", 1, 1, MOST_CUSTOMERS, find(table, "size")));
    let size = judged!(size_fits(place, &known.caps, from.is_some(), &to, size));
    Ok(Kind::Index {
        from,
        to,
        table: rows,
        full,
        size,
    })
}

// A batch's keys.
#[tactic(auto, unfolding(crate::specs::KindTables::batch_of))]
pub(crate) fn batch(place: Place, known: &KnownQueues, table: &Table) -> Result<Kind, NetRefusal>
    ensures { Gives (λ kind. kind) result (batch_of place known.now.names.list.keys known.now.caps (table_view table.now)) }
{
    let sources = Queues::empty();
    let to = read!(required_targets(place, "to", &known.names, &sources, find(table, "to")));
    let size = read!(required_number(place, "size", 1, MOST_CUSTOMERS, find(table, "size")));
    let size = read!(size_fits(place, &known.caps, false, &to, size));
    Ok(Kind::Batch { to, size })
}

// A negative event's keys.
#[tactic(auto, unfolding(crate::specs::KindTables::negative_of))]
pub(crate) fn negative(place: Place, known: &KnownNames, table: &Table) -> Result<Kind, NetRefusal>
    ensures { Gives (λ kind. kind) result (negative_of place known.now.list.keys (table_view table.now)) }
{
    let from = read!(source(place, known, find(table, "from")));
    let sources = queue_of_source(from);
    let on = read!(required_target(place, "on", known, &sources, find(table, "on")));
    let amount = read!(number_or(place, "amount", 1, 1, MOST_CUSTOMERS, find(table, "amount")));
    Ok(Kind::Negative {
        from,
        on,
        amount: amount as u16,
    })
}

// A fork's keys.
#[tactic(auto, unfolding(crate::specs::KindTables::fork_of))]
pub(crate) fn fork(place: Place, known: &KnownNames, table: &Table) -> Result<Kind, NetRefusal>
    ensures { Gives (λ kind. kind) result (fork_of place known.now.list.keys (table_view table.now)) }
{
    let from = read!(source(place, known, find(table, "from")));
    let found = find(table, "to");
    let to = read!(required_targets(place, "to", known, &queue_of_source(from), found));
    Ok(Kind::Fork { from, to })
}

// `to` of a join.
#[tactic(auto, unfolding(crate::specs::KindTables::joined_in))]
fn joined(
    place: Place,
    known: &KnownNames,
    from: &Queues,
    value: Option<&Value>,
) -> Result<Option<u8>, NetRefusal>
    ensures { Gives (λ to. to) result (optional None (joined_in place known.now.list.keys from.now) (seen value.entry)) }
{
    match value {
        Some(value) => {
            let queue = read!(target_in(place, "to", known, from, value));
            Ok(Some(queue))
        }
        None => Ok(None),
    }
}

// A join's keys.
#[tactic(auto, unfolding(crate::specs::KindTables::join_of))]
pub(crate) fn join(place: Place, known: &KnownNames, table: &Table) -> Result<Kind, NetRefusal>
    ensures { Gives (λ kind. kind) result (join_of place known.now.list.keys (table_view table.now)) }
{
    let from = read!(required_targets(place, "from", known, &Queues::empty(), find(table, "from")));
    let to = read!(joined(place, known, &from, find(table, "to")));
    Ok(Kind::Join { from, to })
}
