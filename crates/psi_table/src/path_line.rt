//! The line of the path of a stream.

ghost use Rattle.std.specs.Prelude.{◌≡◌, ℕ, ◌+◌, ◌*◌, ◌^◌, ◌<◌, ◌≤◌, ◌++◌, List, pos, length, slice_index, slice_index_or, vec_len, vec_capacity};
ghost use Rattle.std.specs.Int.RustNames.{unsigned_abs};
ghost use Rattle.psi_state.specs.declared.Outcome.TheVariants.{Met, NotMet};
ghost use Rattle.psi_table.specs.Paths.{stream_path, AreSumsFor, AreSumsOf, AreOfStream};
ghost use Rattle.psi_table.specs.PathLines.{path_line, pieces, customers_piece, reward_piece, event_piece};

use crate::number::{put_counted, put_empty, put_number, put_sum};
use psi_net_model::Net;
use psi_path::Walk;
use psi_state::Outcome;

/// More bytes than a line has, of a path or of a sample: a stream, a horizon and a number of steps of at most 20 digits each, 32 sums
/// of customers of at most 20 digits, 64 sums of values of at most 40 bytes, 2 counts of at most 20 digits for each of 1,024 events, a
/// comma before each field but the first, and a line feed.
pub(crate) const LONGEST: usize = 46_400;

/// A path that was walked.
#[derive(Drop)]
pub struct Walked<'w> {
    /// The number of its steps.
    pub steps: u32,
    /// The walk that holds its sums and counts.
    pub walk: &'w Walk,
}

// Appends the sum of the customers of each of the first `count` queues, a comma before each. Each is a number of 64 bits.
fn put_queues(line: &mut Vec<u8>, walk: &Walk, count: u8)
    requires room { vec_len line.old + 672 ≤ vec_capacity line.old }
    requires few { count ≤ 32 }
    requires all { count ≤ length walk.now.queues }
    ensures text { line.new.items ≡ line.old.items ++ pieces (customers_piece walk.now) count }
    ensures small { (q : ℕ) → q < count → slice_index walk.now.queues q < 2 ^ 64 }
    ensures count { vec_len line.new ≤ vec_len line.old + 672 }
    ensures room { vec_capacity line.old ≤ vec_capacity line.new }
{
    for q in 0..count {
        put_counted(line, walk.customers(q));
    }
}

// Appends the sum of the values of each of the first `count` rewards, a comma before each. Each is an integer of 128 bits.
fn put_rewards(line: &mut Vec<u8>, walk: &Walk, count: u8)
    requires room { vec_len line.old + 2624 ≤ vec_capacity line.old }
    requires few { count ≤ 64 }
    requires all { count ≤ length walk.now.rewards }
    ensures text { line.new.items ≡ line.old.items ++ pieces (reward_piece walk.now) count }
    ensures small { (r : ℕ) → r < count → unsigned_abs (slice_index_or walk.now.rewards r (pos 0)) ≤ 2 ^ 127 }
    ensures count { vec_len line.new ≤ vec_len line.old + 2624 }
    ensures room { vec_capacity line.old ≤ vec_capacity line.new }
{
    for r in 0..count {
        put_sum(line, walk.reward(r as usize));
    }
}

// Appends the two counts of each of the first `count` events, a comma before each. Each is a number of 64 bits.
fn put_events(line: &mut Vec<u8>, walk: &Walk, count: u16)
    requires room { vec_len line.old + 43008 ≤ vec_capacity line.old }
    requires few { count ≤ 1024 }
    requires chosen { count ≤ length walk.now.chosen }
    requires changed { count ≤ length walk.now.changed }
    ensures text { line.new.items ≡ line.old.items ++ pieces (event_piece walk.now) count }
    ensures small { (e : ℕ) → e < count → slice_index walk.now.chosen e < 2 ^ 64 }
    ensures also_small { (e : ℕ) → e < count → slice_index walk.now.changed e < 2 ^ 64 }
    ensures count { vec_len line.new ≤ vec_len line.old + 43008 }
    ensures room { vec_capacity line.old ≤ vec_capacity line.new }
{
    for e in 0..count {
        put_counted(line, walk.chosen(e));
        put_counted(line, walk.changed(e));
    }
}

// Appends the line of a stream whose sample is met.
fn put_met(line: &mut Vec<u8>, net: &Net, stream: u64, horizon: u32, walked: &Walked<'_>)
    requires room { vec_len line.old + 46400 ≤ vec_capacity line.old }
    requires sums { AreSumsFor net.now walked.now.walk.now }
    ensures text { (seed : ℕ) (state : List ℕ) → AreSumsOf net.now (stream_path net.now seed stream state) walked.now.steps walked.now.walk.now
        → line.new.items ≡ line.old.items ++ path_line net.now seed walked.now.steps stream (Met horizon state) }
    ensures room { vec_capacity line.old ≤ vec_capacity line.new }
{
    put_number(line, stream);
    put_counted(line, horizon as u64);
    put_counted(line, walked.steps as u64);
    put_queues(line, walked.walk, net.queues());
    put_rewards(line, walked.walk, net.rewards());
    put_events(line, walked.walk, net.events());
    line.push_reserved(b'\n');
}

// Appends the line of a stream whose sample isn't met.
fn put_unmet(line: &mut Vec<u8>, net: &Net, stream: u64)
    requires { vec_len line.old + 46400 ≤ vec_capacity line.old }
    ensures text { (seed steps limit : ℕ) → line.new.items ≡ line.old.items ++ path_line net.now seed steps stream (NotMet limit) }
    ensures room { vec_capacity line.old ≤ vec_capacity line.new }
{
    let fields = net.queues() as u16 + net.rewards() as u16 + 2 * net.events() + 2;
    put_number(line, stream);
    put_empty(line, fields);
    line.push_reserved(b'\n');
}

/// Appends the line of a stream and of the path that begins in its sample.
pub(crate) fn put_path_line(
    line: &mut Vec<u8>,
    net: &Net,
    stream: u64,
    outcome: &Outcome,
    walked: &Walked<'_>,
)
    requires room { vec_len line.old + 46400 ≤ vec_capacity line.old }
    requires sums { AreSumsFor net.now walked.now.walk.now }
    ensures text { (seed : ℕ) → AreOfStream net.now seed walked.now.steps stream outcome.now walked.now.walk.now
        → line.new.items ≡ line.old.items ++ path_line net.now seed walked.now.steps stream outcome.now }
    ensures room { vec_capacity line.old ≤ vec_capacity line.new }
{
    match outcome {
        Outcome::Met { horizon, .. } => put_met(line, net, stream, *horizon, walked),
        Outcome::NotMet { .. } => put_unmet(line, net, stream),
    }
}
