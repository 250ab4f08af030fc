//! The array `event`.

ghost use Rattle.std.specs.Prelude.{◌≡◌, ◌≤◌, ◌<◌, ◌+◌, ◌++◌, ◌∷◌, [], length, map, codes, None, false, Result, IfSome, IfOk, OnOk};
ghost use Rattle.std.specs.List.{flat_map, list_any};
ghost use Rattle.std.specs.Str.{bytes_eq};
ghost use Rattle.toml.specs.View.{view, table_view};
ghost use Rattle.psi_rate.specs.Rates.{total};
ghost use Rattle.psi_kinds.specs.declared.Kind.{Kind};
ghost use Rattle.psi_net_document.specs.declared.refusals.NetRefusal.{NetRefusal};
ghost use Rattle.psi_net_document.specs.Refusal.{Gives};
ghost use Rattle.psi_net.specs.Errors.{Reads};
ghost use Rattle.psi_net_document.specs.Values.{seen, no_unknown, required, each};
ghost use Rattle.psi_net_model.specs.Expansion.{source_of, servers_at, expanded, AreSourced};
ghost use Rattle.psi_net.specs.EventTables.{kind_named, kind_in, event_keys, kind_of, event_of, are_within, event_step, events_of};
ghost use Rattle.psi_net.specs.Counting.{IsCounted};
ghost use Rattle.psi_net.specs.Listing.{listed};

use crate::judged;
use crate::kind_tables::{arrival, batch, fork, index, join, negative, service};
use crate::known_queues::KnownQueues;
use crate::net_error::NetError;
use crate::part_tables::guarded;
use crate::words::KindWord;
use indexmap::IndexSet;
use psi_kinds::Kind;
use psi_net_document::{
    NetCause, NetRefusal, Place, Section, elements_in, find, no_unknown, present, read,
    required_name, required_number, table_in, text_in, unless_taken,
};
use psi_net_model::{MOST_INDEX_VALUES, Name, NamedEvent, index_values, servers_at, source_of};
use psi_state::{MOST_EVENTS, MOST_TOTAL};
use std::alloc::Global;
use toml::{Table, Value};

// The kind that a text names in a file of this version.
fn kind_named(version: u32, text: &str) -> Option<KindWord>
    ensures { result ≡ kind_named version text.now }
{
    match text {
        "arrival" => Some(KindWord::Arrival),
        "service" => Some(KindWord::Service),
        "index" => Some(KindWord::Index),
        "batch" => Some(KindWord::Batch),
        "negative" => Some(KindWord::Negative),
        "fork" => Some(KindWord::Fork),
        "join" => Some(KindWord::Join),
        "guarded" if version == 2 => Some(KindWord::Guarded),
        _ => None,
    }
}

// `kind`.
#[tactic(auto, unfolding(crate::specs::EventTables::kind_in))]
fn kind_word(place: Place, version: u32, value: Option<&Value>) -> Result<KindWord, NetRefusal>
    ensures { Gives (λ word. word) result (required place (codes "kind") (kind_in place version) (seen value.entry)) }
{
    let value = read!(present(place, "kind", value));
    let text = read!(text_in(place, "kind", value));
    kind_named(version, text).ok_or(NetCause::UnknownKind.at_key(place, "kind"))
}

// The keys of all events.
const ALL: [&str; 3] = ["kind", "name", "rate"];

// The table of an event of this kind has no other keys than the kind's.
fn no_unknown_event_key(place: Place, word: KindWord, table: &Table) -> Result<(), NetRefusal>
    ensures { Gives (λ _. tt) result (no_unknown place (event_keys word) (table_view table.now)) }
{
    match word {
        KindWord::Arrival => no_unknown(place, &ALL, &["to"], table),
        KindWord::Service => no_unknown(place, &ALL, &["from", "to", "full"], table),
        KindWord::Index => no_unknown(place, &ALL, &["from", "to", "table", "full", "size"], table),
        KindWord::Batch => no_unknown(place, &ALL, &["to", "size"], table),
        KindWord::Negative => no_unknown(place, &ALL, &["from", "on", "amount"], table),
        KindWord::Fork => no_unknown(place, &ALL, &["from", "to"], table),
        KindWord::Join => no_unknown(place, &ALL, &["from", "to"], table),
        KindWord::Guarded => no_unknown(place, &ALL, &["part"], table),
    }
}

// A kind that was judged without allocating, as one of those that allocate.
fn as_read(kind: Result<Kind, NetRefusal>) -> Result<Kind, NetError>
    ensures { (reading : Result Kind NetRefusal) → Gives (λ kind. kind) kind reading → Reads (λ kind. kind) result reading }
{
    Ok(judged!(kind))
}

// The keys of its own that a kind has.
#[tactic(auto, unfolding(crate::specs::EventTables::kind_of))]
fn kind_of(
    alloc: Global,
    place: Place,
    word: KindWord,
    known: &KnownQueues,
    table: &Table,
) -> Result<Kind, NetError>
    ensures { Reads (λ kind. kind) result (kind_of place word known.now.names.list.keys known.now.caps (table_view table.now)) }
{
    match word {
        KindWord::Arrival => as_read(arrival(place, &known.names, table)),
        KindWord::Service => as_read(service(place, &known.names, table)),
        KindWord::Index => index(alloc, place, known, table),
        KindWord::Batch => as_read(batch(place, known, table)),
        KindWord::Negative => as_read(negative(place, &known.names, table)),
        KindWord::Fork => as_read(fork(place, &known.names, table)),
        KindWord::Join => as_read(join(place, &known.names, table)),
        KindWord::Guarded => as_read(guarded(place, known, table)),
    }
}

// An event's table, with its place and the names of the events before it; the first server of its source
// stands for all.
#[tactic(auto, unfolding(crate::specs::EventTables::event_of))]
fn event(
    alloc: Global,
    place: Place,
    version: u32,
    earlier: &IndexSet<Name>,
    known: &KnownQueues,
    table: &Table,
) -> Result<NamedEvent, NetError>
    ensures value { Reads (λ event. event) result (event_of place version earlier.now.keys known.now.names.list.keys known.now.caps (table_view table.now)) }
    ensures fresh { IfOk result (λ event. list_any (bytes_eq event.name) earlier.now.keys ≡ false) }
    ensures rate { IfOk result (λ event. event.rate ≤ 1048576) }
{
    let word = judged!(kind_word(place, version, find(table, "kind")));
    judged!(no_unknown_event_key(place, word, table));
    let name = judged!(required_name(place, "name", find(table, "name")));
    judged!(unless_taken(place, earlier, name));
    let rate = judged!(required_number(place, "rate", 1, 1_048_576, find(table, "rate")));
    let kind = read!(kind_of(alloc, place, word, known, table));
    Ok(NamedEvent {
        name,
        server: 1,
        rate,
        kind,
    })
}

// The events of the tables read so far, the names of these, and what the events come to once they are expanded over
// servers: their number, their index values and their total rate.
#[derive(Drop)]
pub(crate) struct EventList {
    pub(crate) names: IndexSet<Name>,
    pub(crate) events: Vec<NamedEvent>,
    pub(crate) count: u32,
    pub(crate) values: u32,
    pub(crate) rates: u32,
}

// A number of events, their index values and their total rate.
#[derive(Drop)]
struct Counts {
    count: u32,
    values: u32,
    rates: u32,
}

// What the events so far and those of this one come to, which is within the limits.
#[tactic(auto, using(psi_net_model::proofs::CopyLemmas::length_more, psi_net_model::proofs::CopyLemmas::values_more, psi_net_model::proofs::CopyLemmas::rates_more, psi_net_model::proofs::CopyLemmas::too_many, psi_net_model::proofs::QueueLemmas::servers_most), unfolding(crate::specs::EventTables::are_within, crate::specs::EventTables::within_limits))]
fn counted(
    place: Place,
    known: &KnownQueues,
    list: &EventList,
    event: &NamedEvent,
) -> Result<Counts, NetRefusal>
    requires counted { IsCounted (flat_map (expanded known.now.queues.items) list.now.events.items) list.now.count list.now.values list.now.rates }
    requires source { IfSome (source_of event.now.kind) (λ source. source.queue < length known.now.queues.items) }
    requires rate { event.now.rate ≤ 1048576 }
    ensures value { Gives (λ _. tt) result (are_within place event.now (flat_map (expanded known.now.queues.items) list.now.events.items ++ expanded known.now.queues.items event.now)) }
    ensures counted { IfOk result (λ counts. IsCounted (flat_map (expanded known.now.queues.items) list.now.events.items ++ expanded known.now.queues.items event.now) counts.count counts.values counts.rates) }
{
    let servers = servers_at(known.queues.as_slice(), source_of(&event.kind));
    let count = list.count + servers as u32;
    if count > MOST_EVENTS as u32 {
        let key = if source_of(&event.kind).is_some() {
            "from"
        } else {
            "kind"
        };
        return Err(NetCause::TooMany.at_key(place, key));
    }
    let Some(own) = index_values(&event.kind) else {
        return Err(NetCause::TooMany.at_key(place, "table"));
    };
    let values = list.values + servers as u32 * own;
    if values > MOST_INDEX_VALUES {
        return Err(NetCause::TooMany.at_key(place, "table"));
    }
    let rates = list.rates + servers as u32 * event.rate;
    if rates > MOST_TOTAL {
        return Err(NetCause::TotalTooLarge.at_key(place, "rate"));
    }
    Ok(Counts {
        count,
        values,
        rates,
    })
}

// One element of the array, with its number and what was read before it.
#[tactic(auto, using(psi_net_model::proofs::CopyLemmas::expanded_push), unfolding(crate::specs::EventTables::event_step))]
fn push_event(
    alloc: Global,
    version: u32,
    number: u32,
    known: &KnownQueues,
    list: &mut EventList,
    value: &Value,
) -> Result<(), NetError>
    requires counted { IsCounted (flat_map (expanded known.now.queues.items) list.old.events.items) list.old.count list.old.values list.old.rates }
    requires sources { AreSourced known.now.queues.items list.old.events.items }
    ensures value { Reads (λ _. listed known.now.queues.items list.new) result (event_step version known.now.queues.items number (listed known.now.queues.items list.old) (view value.now)) }
    ensures counted { OnOk result (IsCounted (flat_map (expanded known.now.queues.items) list.new.events.items) list.new.count list.new.values list.new.rates) }
    ensures sources { OnOk result (AreSourced known.now.queues.items list.new.events.items) }
{
    let place = Place {
        section: Section::Event,
        number,
    };
    let table = judged!(table_in(place, value));
    let event = read!(event(alloc, place, version, &list.names, known, table));
    let counts = judged!(counted(place, known, list, &event));
    list.names.insert(event.name)?;
    list.events.push(event)?;
    list.count = counts.count;
    list.values = counts.values;
    list.rates = counts.rates;
    Ok(())
}

// The events of the array's elements.
#[tactic(auto, using(psi_net_document::proofs::TurnLemmas::turn, crate::proofs::ErrorLemmas::turn_errs, psi_net_document::proofs::TurnLemmas::turn_ends, crate::proofs::KeptEventsLemmas::none_sourced))]
fn all_events(
    alloc: Global,
    version: u32,
    known: &KnownQueues,
    values: &[Value],
) -> Result<EventList, NetError>
    requires { length values.now ≤ 1024 }
    ensures value { Reads (listed known.now.queues.items) result (each (event_step version known.now.queues.items) 1 (record { names = []; events = [] }) (map view values.now)) }
    ensures sources { IfOk result (λ list. AreSourced known.now.queues.items list.events.items) }
{
    let mut list = EventList {
        names: IndexSet::new(alloc),
        events: Vec::new(alloc),
        count: 0,
        values: 0,
        rates: 0,
    };
    for (index, value) in values.iter().enumerate() {
        let number = index as u32 + 1;
        read!(push_event(alloc, version, number, known, &mut list, value));
    }
    Ok(list)
}

// `event`: an array of 1 to 1,024 tables. Their events aren't expanded yet.
#[tactic(auto, unfolding(crate::specs::EventTables::events_in))]
pub(crate) fn events(
    alloc: Global,
    version: u32,
    known: &KnownQueues,
    value: Option<&Value>,
) -> Result<Vec<NamedEvent>, NetError>
    ensures value { Reads (λ events. flat_map (expanded known.now.queues.items) events.items) result (events_of version known.now.queues.items (seen value.entry)) }
    ensures sources { IfOk result (λ events. AreSourced known.now.queues.items events.items) }
{
    match value {
        Some(value) => {
            let values = judged!(elements_in(
                Place::TOP,
                "event",
                NetCause::NoEvents,
                MOST_EVENTS as usize,
                value
            ));
            let list = read!(all_events(alloc, version, known, values));
            Ok(list.events)
        }
        None => Err(NetError::Refused(NetCause::NoEvents.at_key(Place::TOP, "event"))),
    }
}
