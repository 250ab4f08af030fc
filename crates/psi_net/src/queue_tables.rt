//! The array `queue`.

ghost use Rattle.std.specs.Prelude.{◌≡◌, ◌≤◌, [], length, map, false, IfOk, OnOk};
ghost use Rattle.std.specs.List.{list_any};
ghost use Rattle.std.specs.Str.{bytes_eq};
ghost use Rattle.toml.specs.View.{view, table_view};
ghost use Rattle.psi_net_document.specs.Refusal.{Gives};
ghost use Rattle.psi_net.specs.Errors.{Reads};
ghost use Rattle.psi_net_document.specs.Values.{seen, each};
ghost use Rattle.psi_net.specs.QueueTables.{queue_of, queue_step, queues_in, queues_of};

use crate::judged;
use crate::known_queues::KnownQueues;
use crate::net_error::NetError;
use indexmap::IndexSet;
use psi_net_document::{
    KnownNames, NetCause, NetRefusal, Place, Section, elements_in, find, no_unknown, number_or,
    present, read, required_name, required_number, table_in, unless_taken,
};
use psi_net_model::{Name, Queue, capacities};
use psi_state::{MOST_CUSTOMERS, MOST_QUEUES};
use std::alloc::Global;
use toml::{Table, Value};

// The queues of a file, and their names.
#[derive(Drop)]
struct QueueList {
    names: IndexSet<Name>,
    queues: Vec<Queue>,
}

// A queue's table, with its place and the names of the queues before it.
#[tactic(auto, unfolding(crate::specs::QueueTables::queue_of))]
fn queue(place: Place, earlier: &IndexSet<Name>, table: &Table) -> Result<Queue, NetRefusal>
    ensures value { Gives (λ queue. queue) result (queue_of place earlier.now.keys (table_view table.now)) }
    ensures fresh { IfOk result (λ queue. list_any (bytes_eq queue.name) earlier.now.keys ≡ false) }
{
    read!(no_unknown(place, &["name", "capacity", "servers"], &[], table));
    let name = read!(required_name(place, "name", find(table, "name")));
    read!(unless_taken(place, earlier, name));
    let found = find(table, "capacity");
    let capacity = read!(required_number(place, "capacity", 1, MOST_CUSTOMERS, found));
    let most = 64.min(capacity);
    let servers = read!(number_or(place, "servers", 1, 1, most, find(table, "servers")));
    Ok(Queue {
        name,
        capacity: capacity as u16,
        servers: servers as u16,
    })
}

// One element of the array, with its number and the queues before it.
#[tactic(auto, unfolding(crate::specs::QueueTables::queue_step))]
fn push_queue(
    number: u32,
    names: &mut IndexSet<Name>,
    queues: &mut Vec<Queue>,
    value: &Value,
) -> Result<(), NetError>
    requires { names.old.keys ≡ map (λ q. q.name) queues.old.items }
    ensures value { Reads (λ _. queues.new.items) result (queue_step number queues.old.items (view value.now)) }
    ensures names { OnOk result (names.new.keys ≡ map (λ q. q.name) queues.new.items) }
{
    let place = Place {
        section: Section::Queue,
        number,
    };
    let table = judged!(table_in(place, value));
    let queue = judged!(queue(place, names, table));
    names.insert(queue.name)?;
    queues.push(queue)?;
    Ok(())
}

// The queues of the array's elements.
#[tactic(auto, using(psi_net_document::proofs::TurnLemmas::turn, crate::proofs::ErrorLemmas::turn_errs, psi_net_document::proofs::TurnLemmas::turn_ends))]
fn all_queues(alloc: Global, values: &[Value]) -> Result<QueueList, NetError>
    requires { length values.now ≤ 32 }
    ensures value { Reads (λ list. list.queues.items) result (each queue_step 1 [] (map view values.now)) }
    ensures names { IfOk result (λ list. list.names.keys ≡ map (λ q. q.name) list.queues.items) }
{
    let mut names = IndexSet::new(alloc);
    let mut queues = Vec::with_capacity(alloc, values.len())?;
    for (index, value) in values.iter().enumerate() {
        read!(push_queue(index as u32 + 1, &mut names, &mut queues, value));
    }
    Ok(QueueList { names, queues })
}

// `queue`: an array of 1 to 32 tables.
#[tactic(auto, unfolding(crate::specs::QueueTables::queues_in))]
fn listed_queues(alloc: Global, value: Option<&Value>) -> Result<QueueList, NetError>
    ensures value { Reads (λ list. list.queues.items) result (queues_of (seen value.entry)) }
    ensures names { IfOk result (λ list. list.names.keys ≡ map (λ q. q.name) list.queues.items) }
{
    let value = judged!(present(Place::TOP, "queue", value));
    let values = judged!(elements_in(
        Place::TOP,
        "queue",
        NetCause::MissingKey,
        MOST_QUEUES as usize,
        value
    ));
    all_queues(alloc, values)
}

// The same queues, as the rest of the file may name them.
pub(crate) fn queues(alloc: Global, value: Option<&Value>) -> Result<KnownQueues, NetError>
    ensures { Reads (λ known. known.queues.items) result (queues_of (seen value.entry)) }
{
    let list = read!(listed_queues(alloc, value));
    let caps = capacities(list.queues.as_slice());
    Ok(KnownQueues {
        queues: list.queues,
        names: KnownNames::new(list.names),
        caps,
    })
}
