//! The program `psi_test_memory`: whether a call that is to take no memory takes some.
//!
//! It makes four networks and, group by group, what the calls are made on; with the word `each` it does each call
//! that is to take no memory, with the word `none` it does none; then it asks for one byte again and again, until
//! that is refused, and prints how often it was given. Where the allocation of one fixed number is refused, this
//! tells how many came before it. So it has to print the same with both words, and prints fewer where a call takes
//! memory.
#![tactic(auto)]

mod closed;
mod keeping;
mod lists;
mod logs;
mod maps;
mod networks;
mod paths;
mod sampling;
mod tallies;

use psi_io::{DiskShelf, Shelf};
use psi_net::{Net, net_of};
use std::alloc::Global;
use std::{env, io};

/// The most bytes that are asked for, one at a time.
const MOST: u32 = 2_000;

// Whether the one word is `each`; `None` where it is neither that nor `none`.
fn are_called(rt: &HostRuntime) -> Option<bool> {
    match env::args(rt).ok()?.nth(1)?.as_str() {
        "each" => Some(true),
        "none" => Some(false),
        _ => None,
    }
}

// The network of the file, where it is there and one.
fn net_of_file(rt: &HostRuntime, name: &str) -> Option<Net> {
    let text = DiskShelf::new(rt).read(rt.alloc(), name, 65_535).ok()?;
    net_of(rt.alloc(), text.as_slice()).ok()
}

// How often one byte is given before it is refused.
fn given(alloc: Global) -> u32 {
    for count in 0..MOST {
        if Vec::<u8>::with_capacity(alloc, 1).is_err() {
            return count;
        }
    }
    MOST
}

// Makes what is called, group by group, calls it or not, and counts what is given then; `None` where the word, a network
// or memory is wanting.
fn counted(rt: &HostRuntime) -> Option<u32> {
    let alloc = rt.alloc();
    let calls = are_called(rt)?;
    let net = net_of_file(rt, "net.toml")?;
    let pair = net_of_file(rt, "pair.toml")?;
    let ring = net_of_file(rt, "ring.toml")?;
    let fork = net_of_file(rt, "fork.toml")?;
    if calls {
        let _shelf = DiskShelf::new(rt);
    }
    networks::make(calls, &net);
    lists::make(alloc, calls)?;
    keeping::make(alloc, calls, &net)?;
    sampling::make(alloc, calls, &net)?;
    sampling::make(alloc, calls, &fork)?;
    paths::make(alloc, calls, &net)?;
    tallies::make(alloc, calls, &net)?;
    logs::make(alloc, calls, &net, &pair, &ring)?;
    maps::make(alloc, calls, &net)?;
    closed::make(alloc, calls)?;
    Some(given(alloc))
}

fn main(rt: HostRuntime) -> io::Result<()> {
    match counted(&rt) {
        Some(MOST) => println!(rt; "none is refused"),
        Some(count) => println!(rt; "{count} are given"),
        None => println!(rt; "no word, no network or no memory for what is called"),
    }
}
