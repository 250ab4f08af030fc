//! Large valid networks made from a number, for trials.

ghost use Rattle.std.specs.Prelude.{◌≡◌, ◌+◌, ◌-◌, ◌≤◌, ◌<◌, ◌++◌, [], ◌∷◌, length, map, decimal, replicate, pos, true, All, IfSome, IfOk, OnOk};
ghost use Rattle.std.specs.List.{flat_map};
ghost use Rattle.psi_reward.specs.Rewards.{reward_caps};
ghost use Rattle.psi_state.specs.State.{AreCapacities, numbers_from};
ghost use Rattle.psi_net_model.specs.Name.{is_name};
ghost use Rattle.psi_net_model.specs.Expansion.{source_of, expanded};
ghost use Rattle.psi_net_model.specs.Draft.{named};
ghost use Rattle.psi_net_model.specs.Generated.{queue_count, nth_queue, generated_queues, server_of, arrival_event, full_behind, service_event, passing_event, bulk_event, negative_event, odd_events, generated_events, total_reward, generated_network};

use crate::OutOfMemory;
use crate::building::{accepted_reward, capacities};
use crate::entries::{Draft, NamedEvent, Queue, RewardEntry};
use crate::expansion::{push_expanded, servers_at, source_of};
use crate::name::{Name, name_from};
use crate::net::Net;
use psi_kinds::Kind;
use psi_reward::{Numbers, RewardKind};
use psi_route::{Full, Source};
use psi_state::{Queues, State};
use std::alloc::Global;

// The number of queues, 4 to 16.
#[tactic(auto, using(crate::proofs::MakingLemmas::count_range))]
fn queue_count(number: u16) -> u8
    ensures value { result ≡ queue_count number }
    ensures least { 4 ≤ result }
    ensures most { result ≤ 16 }
{
    4 + (number % 13) as u8
}

// The name that is a letter and a number after it.
fn numbered(alloc: Global, letter: &str, i: u8) -> Result<Name, OutOfMemory>
    requires { is_name (letter.now ++ decimal i) ≡ true }
    ensures { IfOk result (λ name. name ≡ letter.now ++ decimal i) }
{
    let text = format!(in alloc; "{letter}{i}")?;
    Ok(name_from(text.as_str().as_bytes()))
}

// The i-th queue, counted from 1.
#[tactic(auto, using(crate::proofs::MakingLemmas::queue_name))]
fn nth_queue(alloc: Global, number: u16, i: u8) -> Result<Queue, OutOfMemory>
    requires { i ≤ 16 }
    ensures { IfOk result (λ queue. queue ≡ nth_queue number i) }
{
    let name = numbered(alloc, "q", i)?;
    let capacity = 8 + (5 * i as u32 + number as u32) % 25;
    let servers = 1 + (i as u32 + number as u32) % 3;
    Ok(Queue {
        name,
        capacity: capacity as u16,
        servers: servers as u16,
    })
}

// All queues, `q1` first.
#[tactic(auto, using(crate::proofs::MakingLemmas::queues_more), unfolding(crate::specs::Generated::generated_queues))]
fn all_queues(alloc: Global, number: u16) -> Result<Vec<Queue>, OutOfMemory>
    ensures { IfOk result (λ queues. queues.items ≡ generated_queues number) }
{
    let mut queues = Vec::new(alloc);
    for place in 0..queue_count(number) {
        let queue = nth_queue(alloc, number, place + 1)?;
        queues.push(queue)?;
    }
    Ok(queues)
}

// The first server of the i-th queue.
fn server_of(i: u8) -> Source
    requires { 1 ≤ i }
    ensures { result ≡ server_of i }
{
    Source { queue: i - 1, k: 1 }
}

// Customers join the first queue, or the second where it is full.
#[tactic(auto, unfolding(crate::specs::Name::is_name))]
fn arrival_event() -> NamedEvent
    ensures { result ≡ arrival_event }
{
    let mut to = Queues::empty();
    to.push(0);
    to.push(1);
    NamedEvent {
        name: name_from(b"in"),
        server: 1,
        rate: 8,
        kind: Kind::Arrival { to },
    }
}

// What becomes of a customer for whom the next queue has no room.
fn full_behind(i: u8) -> Full
    ensures { result ≡ full_behind i }
{
    if i % 2 == 1 { Full::Stay } else { Full::Lost }
}

// The service of the i-th queue at a rate: customers go on to these queues.
#[tactic(auto, using(crate::proofs::MakingLemmas::service_name))]
fn service_event(
    alloc: Global,
    i: u8,
    rate: u32,
    to: Queues,
    full: Full,
) -> Result<NamedEvent, OutOfMemory>
    requires some { 1 ≤ i }
    requires few { i ≤ 16 }
    ensures { IfOk result (λ event. event ≡ service_event i rate to full) }
{
    let name = numbered(alloc, "s", i)?;
    let from = server_of(i);
    Ok(NamedEvent {
        name,
        server: 1,
        rate,
        kind: Kind::Service { from, to, full },
    })
}

// Three customers at once join the first queue.
#[tactic(auto, unfolding(crate::specs::Name::is_name))]
fn bulk_event() -> NamedEvent
    ensures { result ≡ bulk_event }
{
    let mut to = Queues::empty();
    to.push(0);
    NamedEvent {
        name: name_from(b"bulk"),
        server: 1,
        rate: 1,
        kind: Kind::Batch { to, size: 3 },
    }
}

// A customer of the second queue takes one from the last queue.
#[tactic(auto, unfolding(crate::specs::Name::is_name))]
fn negative_event(last: u8) -> NamedEvent
    requires { 1 ≤ last }
    ensures { result ≡ negative_event last }
{
    NamedEvent {
        name: name_from(b"neg"),
        server: 1,
        rate: 1,
        kind: Kind::Negative {
            from: Some(server_of(2)),
            on: last - 1,
            amount: 1,
        },
    }
}

// Appends an event, expanded over the servers of its source.
fn push_event(
    alloc: Global,
    queues: &[Queue],
    events: &mut Vec<NamedEvent>,
    event: &NamedEvent,
) -> Result<(), OutOfMemory>
    requires { IfSome (source_of event.now.kind) (λ source. source.queue < length queues.now) }
    ensures { OnOk result (events.new.items ≡ events.old.items ++ expanded queues.now event.now) }
{
    let servers = servers_at(queues, source_of(&event.kind));
    push_expanded(alloc, events, event, servers)
}

// Appends the services of `count` queues to the events.
#[tactic(auto, using(crate::proofs::MakingLemmas::none_passing, crate::proofs::MakingLemmas::passing_more))]
fn push_passing(
    alloc: Global,
    queues: &[Queue],
    events: &mut Vec<NamedEvent>,
    count: u8,
) -> Result<(), OutOfMemory>
    requires some { count < length queues.now }
    requires few { length queues.now ≤ 16 }
    ensures { OnOk result (events.new.items ≡ events.old.items ++ flat_map (expanded queues.now) (map passing_event (numbers_from 1 count))) }
{
    for place in 0..count {
        let next = place + 1;
        let mut to = Queues::empty();
        to.push(next);
        let event = service_event(alloc, next, 10, to, full_behind(next))?;
        push_event(alloc, queues, events, &event)?;
    }
    Ok(())
}

// Appends the events of an odd number.
#[tactic(auto, using(crate::proofs::MakingLemmas::odd_more, crate::proofs::MakingLemmas::even_more))]
fn push_odd(
    alloc: Global,
    number: u16,
    queues: &[Queue],
    events: &mut Vec<NamedEvent>,
) -> Result<(), OutOfMemory>
    requires { length queues.now ≡ queue_count number }
    ensures { OnOk result (events.new.items ≡ events.old.items ++ flat_map (expanded queues.now) (odd_events number)) }
{
    if number % 2 == 1 {
        push_event(alloc, queues, events, &bulk_event())?;
        push_event(alloc, queues, events, &negative_event(queue_count(number)))?;
    }
    Ok(())
}

// All events in the order of the table of `generated`, each expanded over the servers of its source.
#[tactic(auto, using(crate::proofs::MakingLemmas::queues_count, crate::proofs::MakingLemmas::all_joined))]
fn all_events(alloc: Global, number: u16, queues: &[Queue]) -> Result<Vec<NamedEvent>, OutOfMemory>
    requires { queues.now ≡ generated_queues number }
    ensures { IfOk result (λ events. events.items ≡ generated_events number) }
{
    let last = queue_count(number);
    let mut events = Vec::new(alloc);
    push_event(alloc, queues, &mut events, &arrival_event())?;
    push_passing(alloc, queues, &mut events, last - 1)?;
    let leaving = service_event(alloc, last, 12, Queues::empty(), Full::Lost)?;
    push_event(alloc, queues, &mut events, &leaving)?;
    push_odd(alloc, number, queues, &mut events)?;
    Ok(events)
}

// The first `count` queues.
#[tactic(auto, using(crate::proofs::MakingLemmas::numbers_next, crate::proofs::MakingLemmas::numbers_room))]
fn first_queues(count: u8) -> Queues
    requires { count ≤ 32 }
    ensures { result ≡ numbers_from 0 count }
{
    let mut queues = Queues::empty();
    for queue in 0..count {
        queues.push(queue);
    }
    queues
}

// `count` weights of 1.
fn ones(alloc: Global, count: u8) -> Result<Numbers, OutOfMemory>
    ensures { IfOk result (λ weights. weights ≡ replicate count (pos 1)) }
{
    let mut weights = Numbers::new(alloc);
    for _place in 0..count {
        weights.push(1)?;
    }
    Ok(weights)
}

// The number of customers in the network.
#[tactic(auto, unfolding(crate::specs::Generated::total_reward, crate::specs::Name::is_name))]
fn total_reward(alloc: Global, number: u16, caps: State) -> Result<RewardEntry, OutOfMemory>
    requires valid { AreCapacities caps }
    requires count { length caps ≡ queue_count number }
    ensures reward { IfOk result (λ value. named value ≡ total_reward number) }
    ensures caps { IfOk result (λ value. reward_caps value.reward ≡ caps) }
{
    let count = queue_count(number);
    let weights = ones(alloc, count)?;
    let kind = RewardKind::Linear {
        queues: first_queues(count),
        weights,
    };
    Ok(RewardEntry {
        name: name_from(b"total"),
        reward: accepted_reward(caps, kind),
    })
}

// The list of the one reward, `total`.
fn all_rewards(alloc: Global, number: u16, caps: State) -> Result<Vec<RewardEntry>, OutOfMemory>
    requires valid { AreCapacities caps }
    requires count { length caps ≡ queue_count number }
    ensures rewards { IfOk result (λ rewards. map named rewards.items ≡ total_reward number ∷ []) }
    ensures caps { IfOk result (λ rewards. All (λ v. reward_caps v.reward ≡ caps) rewards.items) }
{
    let mut rewards = Vec::new(alloc);
    let total = total_reward(alloc, number, caps)?;
    rewards.push(total)?;
    Ok(rewards)
}

/// Returns the network of a number: a large valid network, for trials.
///
/// It has `q`, 4 plus the number modulo 13, queues `q1`, `q2`, .., of which the i-th, i from 1, has
/// capacity 8 plus `5 i + number` modulo 25, in customers, and 1 plus `i + number` modulo 3 servers. Its
/// events are, in this order:
///
/// | Name | Event | Rate |
/// |---|---|---|
/// | `in` | arrival at `q1`, or where it is full at `q2` | 8 |
/// | `s1` to the last but one | service of the i-th queue to the next one; a customer that finds it full stays for odd i, and is lost for even i | 10 |
/// | `s` and q | service of the last queue, that leaves | 12 |
/// | `bulk`, for odd numbers | a batch of 3 at `q1` | 1 |
/// | `neg`, for odd numbers | a negative customer from `q2`, that takes one from the last queue | 1 |
///
/// Events with a source are expanded over its servers. The limit is 18 and the split number 64; the one
/// reward, `total`, is the number of customers in the network.
///
/// # Errors
///
/// [`OutOfMemory`] if an allocation fails.
#[tactic(auto, using(crate::proofs::KeptGeneratedLemmas::queues_kept, crate::proofs::KeptGeneratedLemmas::capacities_count, crate::proofs::KeptGeneratedLemmas::generated_kept), unfolding(crate::specs::Generated::generated_network))]
pub fn generated(alloc: Global, number: u16) -> Result<Net, OutOfMemory>
    ensures { IfOk result (λ net. net ≡ generated_network number) }
{
    let queues = all_queues(alloc, number)?;
    let caps = capacities(queues.as_slice());
    let events = all_events(alloc, number, queues.as_slice())?;
    let rewards = all_rewards(alloc, number, caps)?;
    let draft = Draft {
        queues,
        caps,
        events,
        limit: 18,
        split: 64,
        rewards,
    };
    Net::made(alloc, draft)
}
