//! A network: what it tells, its system, its wheel, its events and its rewards.

ghost use Rattle.std.specs.Prelude.{◌≡◌};
ghost use Rattle.psi_reward.specs.Rewards.{reward_caps};

use psi_event::{EventLaw, Idle};
use psi_kinds::Event;
use psi_net::Net;
use psi_rate::{System, Wheel};
use psi_reward::{Reward, RewardLaw};
use psi_state::{Bounds, State};

/// Calls the network, which is made, or doesn't.
pub(crate) fn make(calls: bool, net: &Net) {
    if calls {
        call_queues(net);
        call_events(net);
        call_rewards(net);
        call_system(&net.system());
    }
}

fn call_queues(net: &Net) {
    for i in 0..net.queues() {
        let _queue = (net.name(i), net.capacity(i), net.servers(i));
    }
}

fn call_events(net: &Net) {
    for e in 0..net.events() {
        let _event = (net.event_name(e), net.event_server(e), net.event_rate(e));
        let _move = net.moves(e);
    }
}

fn call_rewards(net: &Net) {
    for r in 0..net.rewards() {
        let _name = net.reward_name(r);
        call_reward(net.reward(r), &net.system().caps());
    }
}

fn call_reward(reward: &Reward, caps: &State)
    requires { reward_caps reward.now ≡ caps.now }
{
    let whole = Bounds::whole(caps);
    // Called for its clause: the corners are in order.
    let _queues = whole.len();
    let _range = reward.range(&whole);
    let _value = reward.value(&whole.lo());
}

fn call_system(system: &System<'_, Event>) {
    let short = system.with_limit(2);
    let _numbers = (short.limit(), short.split());
    let _picked = short.pick(7);
    call_wheel(short.wheel());
    for e in 0..short.wheel().events() {
        call_event(short.event(e));
    }
    call_event(&Event::Idle(Idle::new(short.caps())));
}

fn call_wheel(wheel: &Wheel) {
    let _picked = wheel.pick(7);
    let _counts = (wheel.modulus(), wheel.idle(), wheel.events());
}

#[tactic(auto, using(crate::proofs::WithinLemmas::same_below))]
fn call_event<E: EventLaw>(event: &E) {
    let mut state = event.caps();
    let mut bounds = Bounds::whole(&state);
    event.envelope(&mut bounds);
    event.apply(&mut state);
    let _marks = (event.monotone(), event.upset());
}
