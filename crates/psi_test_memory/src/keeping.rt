//! What takes the room for all that it is to hold when it is made: words, index tables, sets of states, regions,
//! sinks.

ghost use Rattle.std.specs.Prelude.{◌≡◌, [], length};

use psi_event::{EventLaw, Idle};
use psi_index::IndexTable;
use psi_io::{MemorySink, Sink, StdSink, write_all};
use psi_net::Net;
use psi_past::{Kept, ListPast, Past, SeedPast, Windowed};
use psi_pool::Pool;
use psi_region::Region;
use std::alloc::Global;

/// Makes each of these, and calls it or not; `None` where memory is wanting.
pub(crate) fn make(alloc: Global, calls: bool, net: &Net) -> Option<()> {
    let idle = Idle::new(net.system().caps());
    make_words(alloc, calls)?;
    make_table(alloc, calls)?;
    make_sets(alloc, calls, &idle)?;
    make_sinks(alloc, calls)
}

// The words of a seed, of a list and of another past, by windows and kept.
fn make_words(alloc: Global, calls: bool) -> Option<()> {
    let words = [3, 1, 4].to_vec(alloc).ok()?;
    let mut list = ListPast::new(words);
    let mut past = Windowed::new(SeedPast::new(0, 0));
    let mut kept = Kept::reserve(alloc, SeedPast::new(0, 0), 8).ok()?;
    if calls {
        kept.extend_to(5);
        let _word = kept.at(4);
        kept.replace(SeedPast::new(1, 1));
        kept.extend_to(8);
        read(&mut list);
        read(&mut past);
        past.replace(SeedPast::new(1, 1));
        read(&mut past);
    }
    Some(())
}

fn read<P: Past>(past: &mut P) {
    let _words = (past.word(2), past.word(3));
    past.fill(0, &mut [0; 100]);
}

// A table of eight values.
fn make_table(alloc: Global, calls: bool) -> Option<()> {
    let values = [3, 1, 4, 1, 5, 9, 2, 6].to_vec(alloc).ok()?;
    let table = IndexTable::new(alloc, values).ok()?;
    if calls {
        let _value = table.at(3);
        let _ends = (table.least(1, 6), table.greatest(1, 6));
        let _marks = (table.len(), table.rises(), table.values().len());
        let _above = (
            table.first_at_least_near(2, 6),
            table.first_at_least_between(1, 6, 6),
        );
        let _below = (table.past_last_below(1, 6, 4), table.first_below(1, 6, 4));
        let _passed = (table.first_passed(&table, 1), table.rising_front());
        let _shared = table.share().is_ok();
    }
    Some(())
}

// An empty set with room for eight states, and a region that is split where it has as few.
fn make_sets<E: EventLaw>(alloc: Global, calls: bool, event: &E) -> Option<()> {
    let mut pool = Pool::reserve(alloc, 8).ok()?;
    let mut region = Region::reserve(alloc, 8).ok()?;
    if calls {
        call_pool(&mut pool, event);
        call_region(&mut region, event);
    }
    Some(())
}

#[tactic(auto, using(crate::proofs::WithinLemmas::one_below))]
fn call_pool<E: EventLaw>(pool: &mut Pool, event: &E)
    requires most { pool.old.most ≡ 8 }
    requires empty { pool.old.states ≡ [] }
{
    let full = event.caps();
    let _new = pool.insert(full);
    pool.step(event);
    let _there = pool.contains(&full);
    let _states = pool.walk();
    let _single = (pool.len(), pool.most(), pool.only());
    pool.clear();
    pool.add(full);
}

fn call_region<E: EventLaw>(region: &mut Region, event: &E) {
    region.start(&event.caps());
    region.advance(event);
    region.rest();
    let _shown = (region.single(), region.bounds());
}

// A sink in memory, and one over a list that has room.
fn make_sinks(alloc: Global, calls: bool) -> Option<()> {
    let mut sink = MemorySink::new(alloc, 8, 8, Vec::new(alloc)).ok()?;
    let list: Vec<u8> = Vec::with_capacity(alloc, 8).ok()?;
    if calls {
        let _written = write_all(&mut sink, b"text");
        let _held = (sink.bytes().len(), sink.count());
        let mut over = StdSink::new(list);
        let _count = over.write(b"text");
    }
    Some(())
}
