//! The line of a stream.

ghost use Rattle.std.specs.Prelude.{◌≡◌, ◌+◌, ◌*◌, ◌^◌, ◌<◌, ◌≤◌, ◌++◌, slice_index, vec_len, vec_capacity, ℕ, All};
ghost use Rattle.std.specs.Int.RustNames.{unsigned_abs};
ghost use Rattle.psi_state.specs.State.{IsBelow};
ghost use Rattle.psi_state.specs.declared.Outcome.TheVariants.{Met, NotMet};
ghost use Rattle.psi_reward.specs.Worth.{worth_of};
ghost use Rattle.psi_net_model.specs.Network.{caps_of};
ghost use Rattle.psi_report.specs.Samples.{IsSampleOf};
ghost use Rattle.psi_table.specs.Lines.{stream_line, customers_fields, rewards_fields};

use crate::number::{put_counted, put_empty, put_number, put_value};
use psi_net_model::Net;
use psi_reward::RewardLaw;
use psi_state::{Outcome, State};

// Appends the number of customers of each queue, a comma before each. Each is a number of 16 bits.
fn put_queues(line: &mut Vec<u8>, state: &State)
    requires { vec_len line.old + 672 ≤ vec_capacity line.old }
    ensures text { line.new.items ≡ line.old.items ++ customers_fields state.now }
    ensures small { (i : ℕ) → slice_index state.now i < 2 ^ 16 }
    ensures count { vec_len line.new ≤ vec_len line.old + 672 }
    ensures room { vec_capacity line.old ≤ vec_capacity line.new }
{
    let queues = state.len();
    for queue in 0..queues {
        put_counted(line, state.get(queue) as u64);
    }
}

// Appends the value of each reward, a comma before each. Each is an integer of 64 bits.
fn put_rewards(line: &mut Vec<u8>, net: &Net, state: &State)
    requires room { vec_len line.old + 1408 ≤ vec_capacity line.old }
    requires within { IsBelow state.now (caps_of net.now) }
    ensures text { line.new.items ≡ line.old.items ++ rewards_fields state.now net.now.rewards }
    ensures small { All (λ r. unsigned_abs (worth_of r.kind state.now) ≤ 2 ^ 63) net.now.rewards }
    ensures count { vec_len line.new ≤ vec_len line.old + 1408 }
    ensures room { vec_capacity line.old ≤ vec_capacity line.new }
{
    // Called for its clause: there are at most 64 rewards.
    let _queues = net.queues();
    for reward in 0..net.rewards() {
        put_value(line, net.reward(reward).value(state));
    }
}

// Appends the line of a stream whose sample is met.
fn put_met(line: &mut Vec<u8>, net: &Net, stream: u64, horizon: u32, state: &State)
    requires room { vec_len line.old + 2200 ≤ vec_capacity line.old }
    requires within { IsBelow state.now (caps_of net.now) }
    ensures text { line.new.items ≡ line.old.items ++ stream_line net.now stream (Met horizon state.now) }
    ensures count { vec_len line.new ≤ vec_len line.old + 2200 }
    ensures room { vec_capacity line.old ≤ vec_capacity line.new }
{
    put_number(line, stream);
    line.push_reserved(b',');
    put_number(line, horizon as u64);
    put_queues(line, state);
    put_rewards(line, net, state);
    line.push_reserved(b'\n');
}

// Appends the line of a stream whose sample isn't met.
fn put_unmet(line: &mut Vec<u8>, net: &Net, stream: u64)
    requires { vec_len line.old + 2200 ≤ vec_capacity line.old }
    ensures text { (limit : ℕ) → line.new.items ≡ line.old.items ++ stream_line net.now stream (NotMet limit) }
    ensures count { vec_len line.new ≤ vec_len line.old + 2200 }
    ensures room { vec_capacity line.old ≤ vec_capacity line.new }
{
    put_number(line, stream);
    put_empty(line, net.queues() as u16 + net.rewards() as u16 + 1);
    line.push_reserved(b'\n');
}

/// Appends the line of a stream and its sample.
pub(crate) fn put_line(line: &mut Vec<u8>, net: &Net, stream: u64, outcome: &Outcome)
    requires room { vec_len line.old + 2200 ≤ vec_capacity line.old }
    requires sample { IsSampleOf net.now outcome.now }
    ensures text { line.new.items ≡ line.old.items ++ stream_line net.now stream outcome.now }
    ensures count { vec_len line.new ≤ vec_len line.old + 2200 }
    ensures room { vec_capacity line.old ≤ vec_capacity line.new }
{
    match outcome {
        Outcome::Met { horizon, state } => put_met(line, net, stream, *horizon, state),
        Outcome::NotMet { .. } => put_unmet(line, net, stream),
    }
}
