//! Paths, and the rows of tables of samples and of paths.

ghost use Rattle.std.specs.Prelude.{◌≡◌, length};
ghost use Rattle.psi_net_model.specs.Network.{caps_of};
ghost use Rattle.psi_path.specs.Sums.{HasCounts};

use psi_event::EventLaw;
use psi_io::MemorySink;
use psi_net::Net;
use psi_past::SeedPast;
use psi_path::{Rewards, SamplePath, Walk};
use psi_rate::System;
use psi_state::{Outcome, State};
use psi_table::{NetRewards, Rows, Walked};
use std::alloc::Global;

/// How many steps a path has: more than the random words that are drawn at once.
const STEPS: u32 = 1_000;

/// How many rows a table has: more than a block holds.
const ROWS: u64 = 4_000;

/// How many bytes a sink has room for: a table of this many rows.
const ROOM: usize = 800_000;

/// Makes a walk, and a table of each kind, and calls them or not; `None` where memory is wanting.
pub(crate) fn make(alloc: Global, calls: bool, net: &Net) -> Option<()> {
    make_walk(alloc, calls, &net.system(), &NetRewards { net })?;
    make_samples(alloc, calls, net)?;
    make_paths(alloc, calls, net)
}

fn make_walk<E: EventLaw, R: Rewards>(
    alloc: Global,
    calls: bool,
    system: &System<'_, E>,
    rewards: &R,
) -> Option<()>
    requires { R.capacities rewards.now ≡ system.now.caps }
{
    let queues = system.caps().len();
    let mut walk = Walk::new(alloc, queues, rewards.count(), system.wheel().events()).ok()?;
    if calls {
        call_walk(&mut walk, system, rewards);
    }
    Some(())
}

#[tactic(auto, using(crate::proofs::WithinLemmas::same_below))]
fn call_walk<E: EventLaw, R: Rewards>(walk: &mut Walk, system: &System<'_, E>, rewards: &R)
    requires capacities { R.capacities rewards.now ≡ system.now.caps }
    requires counts { HasCounts (length system.now.caps) (length (R.worths rewards.now)) (length system.now.events) walk.old }
{
    let mut path = SamplePath {
        system,
        rewards,
        past: SeedPast::new(0, 0),
        start: system.caps(),
        steps: STEPS,
    };
    let _end = walk.run(&mut path);
}

fn make_samples(alloc: Global, calls: bool, net: &Net) -> Option<()> {
    let mut rows = Rows::begin(alloc, net).ok()?;
    let mut sink = MemorySink::new(alloc, ROOM, ROOM, Vec::new(alloc)).ok()?;
    if calls {
        call_samples(&mut rows, net, &net.system().caps(), &mut sink);
    }
    Some(())
}

#[tactic(auto, using(crate::proofs::WithinLemmas::full_sample))]
fn call_samples(rows: &mut Rows, net: &Net, caps: &State, sink: &mut MemorySink)
    requires { caps.now ≡ caps_of net.now }
{
    let met = Outcome::Met {
        horizon: 1,
        state: *caps,
    };
    let _unmet = rows.put(net, 0, &Outcome::NotMet { limit: 1 }, sink);
    for stream in 1..ROWS {
        let _met = rows.put(net, stream, &met, sink);
    }
    let _flushed = rows.flush(sink);
}

// The sums of the rows are those of a walk that was not run, so they are 0.
fn make_paths(alloc: Global, calls: bool, net: &Net) -> Option<()> {
    let queues = net.queues();
    let walk = Walk::new(alloc, queues, net.rewards() as usize, net.events()).ok()?;
    let mut rows = Rows::begin_paths(alloc, net).ok()?;
    let mut sink = MemorySink::new(alloc, ROOM, ROOM, Vec::new(alloc)).ok()?;
    if calls {
        let walked = Walked {
            steps: STEPS,
            walk: &walk,
        };
        let met = Outcome::Met {
            horizon: 1,
            state: net.system().caps(),
        };
        let unmet = Outcome::NotMet { limit: 1 };
        let _unmet = rows.put_path(net, 0, &unmet, &walked, &mut sink);
        for stream in 1..ROWS {
            let _met = rows.put_path(net, stream, &met, &walked, &mut sink);
        }
        let _flushed = rows.flush(&mut sink);
    }
    Some(())
}
