//! The program `psi_test_sweep`: compares what each event of small networks makes of all states and of all boxes with
//! tables of it.
//!
//! Its arguments are the paths of table files; `table` says how these are written. It runs in the folder of the network
//! files that they name. Of each event of such a network it is compared
//!
//! - whether the event makes of every state the image that the table has;
//! - whether the envelope of every box is the least box around the table's images of its states;
//! - whether the event's mark is right: it is monotone exactly where the table's images of each two states that are in
//!   order are in order too, and else it shows two states by which it isn't.
//!
//! A line is printed for each thing that differs, and for each table a line that says how many events, states,
//! boxes and marks agree; an event agrees where nothing of it differs. A table that can't be read, or whose network
//! can't, gets a line too. The last line counts the tables of which nothing differs. It ends with 0 where
//! those are all tables, and else with 1.
//!
//! The files lie in `data/`, where generate/images.py writes them: what the tables say comes from oracle/plain.py, a plain
//! program that shares nothing with this one.
//!
//! | Table | What it has |
//! |---|---|
//! | `wrong-*.table` | tables that are wrong in one place each, which must be reported |
//! | `two-queues.table`, `three-*.table` | events of every kind on networks of twelve states, some by several servers |
//! | `four-queues.table` | events that name three or four queues |
//! | `drawn-routes.table` | routes by tables that are drawn, on seventy states |
//! | `worked-*.table` | a few events of one and two queues that are worked out by hand |
//! | `kinds-*.table` | every kind of event on one to three small queues, by each source and many lists of targets |
#![tactic(auto)]

mod compare;
mod sweep;
mod table;

use crate::compare::{Counts, compare_all};
use crate::table::Table;
use anyhow::Context;
use psi_net::net_of;
use std::alloc::Global;
use std::process::ExitCode;
use std::rt::{Env, Files};
use std::{env, fs};

// The bytes of a file.
fn bytes_of(rt: &(impl Files + Alloc<A = Global>), name: &str) -> anyhow::Result<Vec<u8>> {
    fs::read(rt, name)
        .ok()
        .context(format_args!("no file {name}"))
}

// Compares a table with the network that it names.
fn try_table(rt: &(impl Files + Print + Alloc<A = Global>), name: &str) -> anyhow::Result<Counts> {
    let text = bytes_of(rt, name)?;
    let table = Table::read(rt.alloc(), text.as_slice())?;
    let file = bytes_of(rt, table.network.as_str())?;
    let net = net_of(rt.alloc(), file.as_slice())
        .ok()
        .context("a network that is refused")?;
    compare_all(rt, name, &table, &net)
}

// Compares a table with its network, prints what differs and how much agrees, and returns whether all agrees.
fn agrees(rt: &(impl Files + Print + Alloc<A = Global>), name: &str) -> anyhow::Result<bool> {
    match try_table(rt, name) {
        Ok(counts) => {
            println!(rt; "{name}: {counts} agree")?;
            Ok(counts.differing == 0)
        }
        Err(error) => {
            println!(rt; "{name}: can't be read: {error:#}")?;
            Ok(false)
        }
    }
}

// Compares all tables that the arguments name, and returns whether all agrees.
fn try_tables(rt: &(impl Env + Files + Print + Alloc<A = Global>)) -> anyhow::Result<bool> {
    let mut agreeing: u64 = 0;
    let mut all = true;
    for name in env::args(rt)?.skip(1) {
        if agrees(rt, name.as_str())? {
            agreeing = agreeing.saturating_add(1);
        } else {
            all = false;
        }
    }
    println!(rt; "{agreeing} tables agree")?;
    Ok(all)
}

fn main(rt: HostRuntime) -> anyhow::Result<ExitCode> {
    let all = try_tables(&rt)?;
    Ok(ExitCode::from(if all { 0 } else { 1 }))
}
