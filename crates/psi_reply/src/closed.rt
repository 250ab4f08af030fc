//! `closed NET SEED STREAM TOTAL`: a sample of a closed network among the states of TOTAL customers.

ghost use Rattle.std.specs.Prelude.{◌≡◌, ◌<◌, ◌≤◌, ◌↔◌, IsTrue, IfOk, IfErr};
ghost use Rattle.psi_closed_arcs.specs.Walks.{customers};
ghost use Rattle.psi_closed.specs.Diagram.{IsTotal};
ghost use Rattle.psi_net_model.specs.Network.{caps_of};
ghost use Rattle.psi_reply.specs.Texts.{IsWithinLimit};
ghost use Rattle.psi_report.specs.Samples.{IsSampleOf};
ghost use Rattle.psi_reply.specs.Closed.{first_other, AreMovesOf, IsClosedNet, closed_sampled};
ghost use Rattle.psi_reply.specs.Reply.{Reply, moves_reply, total_reply, closed_reply};
ghost use Rattle.psi_reply.specs.Ending.{EndsWith};
ghost use Rattle.psi_reply.specs.Ended.{ending_of};

use crate::ending::Ending;
use crate::sample::outcome_status;
use crate::texts::outcome_text;
use psi_closed::{ClosedPlan, OutOfMemory};
use psi_kinds::Move;
use psi_net_model::Net;
use psi_past::SeedPast;
use psi_state::Outcome;
use std::alloc::Global;

// The number of customers that the queues hold where each of them is full.
fn room(net: &Net) -> u32
    ensures { result ≡ customers (caps_of net.now) }
{
    let mut room = 0;
    for i in 0..net.queues() {
        room += net.capacity(i) as u32;
    }
    room
}

/// Returns the moves that the events are, in their order. Where there are none, the work ends the same for every number
/// of customers and whatever is asked: an event isn't a move, or an allocation failed.
pub fn moves_of<'w>(alloc: Global, net: &Net) -> Result<Vec<Move>, Ending<'w>>
    ensures moves { IfOk result (λ moves. AreMovesOf net.now.events moves.items) }
    ensures none { IfErr result (λ ending. (reply : Reply) → EndsWith (ending_of ending) (moves_reply (first_other net.now) reply)) }
{
    let Ok(mut moves) = Vec::with_capacity(alloc, net.events() as usize) else {
        return Err(Ending::OutOfMemory);
    };
    for e in 0..net.events() {
        let Some(one) = net.moves(e) else {
            return Err(Ending::NotClosed(e));
        };
        let Ok(()) = moves.push(one) else {
            return Err(Ending::OutOfMemory);
        };
    }
    Ok(moves)
}

/// Returns whether the queues can hold `total` customers.
pub fn has_room(net: &Net, total: u16) -> bool
    ensures { IsTrue result ↔ (total ≤ customers (caps_of net.now)) }
{
    total as u32 <= room(net)
}

/// Returns the plan for the closed network of these moves, those of the network's events, with `total` customers, at
/// most 256 and no more than its queues can hold.
pub fn closed_plan<'n>(
    alloc: Global,
    net: &'n Net,
    moves: &'n [Move],
    past: SeedPast,
    total: u16,
) -> Result<ClosedPlan<'n, SeedPast>, OutOfMemory>
    requires moves { AreMovesOf net.now.events moves.now }
    requires fits { IsTotal (caps_of net.now) total }
    ensures network { IfOk result (λ plan. IsClosedNet net.now total plan.network) }
{
    let system = net.system();
    ClosedPlan::new(
        alloc,
        system.caps(),
        moves,
        system.wheel(),
        system.limit(),
        total,
        past,
    )
}

/// Returns the sample of a stream, by the plan for the closed network, whose words it replaces. It does not allocate.
pub fn next_closed<'n>(
    plan: &mut ClosedPlan<'n, SeedPast>,
    net: &Net,
    seed: u64,
    stream: u64,
) -> Outcome
    requires { IsClosedNet net.now plan.old.network.total plan.old.network }
    ensures value { result ≡ closed_sampled net.now seed stream plan.old.network.total }
    ensures sample { IsSampleOf net.now result }
    ensures limit { IsWithinLimit result }
    ensures network { plan.new.network ≡ plan.old.network }
{
    // Called for its clause: the network is one that can be sampled.
    let _queues = net.queues();
    plan.replace(SeedPast::new(seed, stream));
    plan.sample()
}

// The work where each event is a move.
fn work_on_moves<'w>(
    alloc: Global,
    net: &Net,
    moves: &[Move],
    seed: u64,
    stream: u64,
    total: u16,
) -> Ending<'w>
    requires moves { AreMovesOf net.now.events moves.now }
    requires most { total ≤ 256 }
    ensures { EndsWith (ending_of result) (total_reply net.now seed stream total) }
{
    if !has_room(net, total) {
        return Ending::NoSuchTotal;
    }
    let past = SeedPast::new(seed, stream);
    let Ok(mut plan) = closed_plan(alloc, net, moves, past, total) else {
        return Ending::OutOfMemory;
    };
    let outcome = next_closed(&mut plan, net, seed, stream);
    drop(plan);
    Ending::printed(outcome_status(&outcome), outcome_text(alloc, &outcome))
}

/// Does the work for `closed`: the sample that a seed and a stream draw of the closed network among its states with
/// `total` customers, 0 to 256; status `Done` where it is met, `NotCoupled` where it isn't met within the network's
/// limit. `NotClosed` has the first event that isn't a move of one customer, counted from 0; `NoSuchTotal` that each is
/// one and the queues hold fewer customers; else an allocation failed.
pub fn closed_ending<'w>(alloc: Global, net: &Net, seed: u64, stream: u64, total: u16) -> Ending<'w>
    requires { total ≤ 256 }
    ensures { EndsWith (ending_of result) (closed_reply net.now seed stream total (first_other net.now)) }
{
    match moves_of(alloc, net) {
        Ok(moves) => work_on_moves(alloc, net, moves.as_slice(), seed, stream, total),
        Err(ending) => ending,
    }
}
