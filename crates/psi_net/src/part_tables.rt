//! The array `part` of a guarded event.

ghost use Rattle.std.specs.Prelude.{◌≡◌, ℕ, ◌≤◌, ◌<◌, ◌+◌, [], length, map, codes, IfOk, OnOk};
ghost use Rattle.toml.specs.View.{view, table_view};
ghost use Rattle.psi_net_document.specs.Refusal.{Gives};
ghost use Rattle.psi_net_document.specs.Values.{seen, required, each};
ghost use Rattle.psi_net.specs.PartTables.{part_table, part_queue, part_numbers, unless_empty, part_of, part_step, parts_in, guarded_of};

use crate::known_queues::KnownQueues;
use psi_guard::{Part, Parts};
use psi_kinds::Kind;
use psi_net_document::{
    KnownNames, NetCause, NetRefusal, Place, elements_in, find, integer_or_zero, no_unknown,
    number_or, present, queue_in, read,
};
use psi_state::MOST_CUSTOMERS;
use toml::{Table, Value};

// An element that is a table; another one is refused at the key `part`.
#[tactic(auto, unfolding(crate::specs::PartTables::part_table))]
fn part_table(place: Place, value: &Value) -> Result<&Table, NetRefusal>
    ensures { Gives (λ table. table_view table.now) result (part_table place (view value.now)) }
{
    match value {
        Value::Table(table) => Ok(table),
        _ => Err(NetCause::WrongType.at_key(place, "part")),
    }
}

// The queue of a part, which no earlier part names.
#[tactic(auto, unfolding(crate::specs::PartTables::part_queue))]
fn part_queue(
    place: Place,
    known: &KnownNames,
    earlier: &Parts,
    value: Option<&Value>,
) -> Result<u8, NetRefusal>
    ensures value { Gives (λ q. q) result (required place (codes "queue") (part_queue place known.now.list.keys earlier.now) (seen value.entry)) }
    ensures within { IfOk result (λ q. q < length known.now.list.keys) }
{
    let value = read!(present(place, "queue", value));
    let queue = read!(queue_in(place, "queue", known, value));
    if earlier.names(queue) {
        return Err(NetCause::RepeatedTarget.at_key(place, "queue"));
    }
    Ok(queue)
}

// The numbers of a part of this queue, which holds at most `cap` customers.
#[tactic(auto, unfolding(crate::specs::PartTables::part_numbers))]
fn part_numbers(place: Place, queue: u8, cap: u16, table: &Table) -> Result<Part, NetRefusal>
    ensures { Gives (λ part. part) result (part_numbers place queue cap (table_view table.now)) }
{
    let cap = cap as u32;
    let least = read!(number_or(place, "least", 0, 0, cap, find(table, "least")));
    let most = read!(number_or(place, "most", cap, 0, cap, find(table, "most")));
    let shift = read!(integer_or_zero(place, "shift", MOST_CUSTOMERS, find(table, "shift")));
    let floor = read!(number_or(place, "floor", 0, 0, cap, find(table, "floor")));
    let ceiling = read!(number_or(place, "ceiling", cap, 0, cap, find(table, "ceiling")));
    Ok(Part {
        queue,
        least: least as u16,
        most: most as u16,
        shift,
        floor: floor as u16,
        ceiling: ceiling as u16,
    })
}

// The part, if its guard and its limits leave room.
#[tactic(auto, unfolding(crate::specs::PartTables::unless_empty))]
fn unless_empty(place: Place, part: Part) -> Result<Part, NetRefusal>
    ensures { Gives (λ part. part) result (unless_empty place part) }
{
    if part.least > part.most {
        return Err(NetCause::EmptyGuard.at_key(place, "least"));
    }
    if part.floor > part.ceiling {
        return Err(NetCause::EmptyGuard.at_key(place, "floor"));
    }
    Ok(part)
}

// A part's table, with the parts before it.
#[tactic(auto, unfolding(crate::specs::PartTables::part_of))]
fn part(
    place: Place,
    known: &KnownQueues,
    earlier: &Parts,
    table: &Table,
) -> Result<Part, NetRefusal>
    ensures { Gives (λ part. part) result (part_of place known.now.names.list.keys known.now.caps earlier.now (table_view table.now)) }
{
    let keys = &["queue", "least", "most", "shift", "floor", "ceiling"];
    read!(no_unknown(place, keys, &[], table));
    let queue = read!(part_queue(place, &known.names, earlier, find(table, "queue")));
    let part = read!(part_numbers(place, queue, known.caps.get(queue), table));
    unless_empty(place, part)
}

// One element of the array, with the parts before it.
#[tactic(auto, unfolding(crate::specs::PartTables::part_step))]
fn push_part(
    place: Place,
    known: &KnownQueues,
    parts: &mut Parts,
    value: &Value,
) -> Result<(), NetRefusal>
    requires { length parts.old < 32 }
    ensures value { (n : ℕ) → Gives (λ _. parts.new) result (part_step place known.now.names.list.keys known.now.caps n parts.old (view value.now)) }
    ensures count { OnOk result (length parts.new ≡ length parts.old + 1) }
{
    let table = read!(part_table(place, value));
    let part = read!(part(place, known, parts, table));
    parts.push(part);
    Ok(())
}

// The parts of the array's elements.
#[tactic(auto, using(psi_net_document::proofs::TurnLemmas::turn, psi_net_document::proofs::TurnLemmas::turn_fails, psi_net_document::proofs::TurnLemmas::turn_ends))]
fn all_parts(place: Place, known: &KnownQueues, values: &[Value]) -> Result<Parts, NetRefusal>
    requires { length values.now ≤ 32 }
    ensures { Gives (λ parts. parts) result (each (part_step place known.now.names.list.keys known.now.caps) 1 [] (map view values.now)) }
{
    let mut parts = Parts::empty();
    for value in values {
        read!(push_part(place, known, &mut parts, value));
    }
    Ok(parts)
}

// `part`: an array of 1 to 32 tables.
#[tactic(auto, unfolding(crate::specs::PartTables::parts_in))]
fn parts(place: Place, known: &KnownQueues, value: Option<&Value>) -> Result<Parts, NetRefusal>
    ensures { Gives (λ parts. parts) result (required place (codes "part") (parts_in place known.now.names.list.keys known.now.caps) (seen value.entry)) }
{
    let value = read!(present(place, "part", value));
    let values = read!(elements_in(place, "part", NetCause::OutOfRange, 32, value));
    all_parts(place, known, values)
}

// A guarded event's keys.
#[tactic(auto, unfolding(crate::specs::PartTables::guarded_of))]
pub(crate) fn guarded(place: Place, known: &KnownQueues, table: &Table) -> Result<Kind, NetRefusal>
    ensures { Gives (λ kind. kind) result (guarded_of place known.now.names.list.keys known.now.caps (table_view table.now)) }
{
    let parts = read!(parts(place, known, find(table, "part")));
    Ok(Kind::Guarded { parts })
}
