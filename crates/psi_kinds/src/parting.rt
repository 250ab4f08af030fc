//! The parts of the guarded events that kinds are lowered to.

ghost use Rattle.std.specs.Prelude.{◌≡◌, ◌<◌, ◌≤◌, length, slice_index, IfSome};
ghost use Rattle.psi_state.specs.State.{AreCapacities};
ghost use Rattle.psi_kinds.specs.Kinds.{AreQueues};
ghost use Rattle.psi_route.specs.Accepted.{IsSource};
ghost use Rattle.psi_kinds.specs.Forms.{losing_part, gaining_part, source_parts, negative_parts, fork_parts, join_parts};

use psi_guard::{Part, Parts};
use psi_route::Source;
use psi_state::{Queues, State};

// A queue that loses customers, or all where it holds fewer, from some number on.
fn losing(caps: &State, least: u16, queue: u8, amount: u16) -> Part
    requires { queue < length caps.now }
    ensures { result ≡ losing_part caps.now least queue amount }
{
    let most = caps.get(queue);
    Part {
        queue,
        least,
        most,
        shift: -(amount as i32),
        floor: 0,
        ceiling: most,
    }
}

// A queue that gains a customer where it has room.
fn gaining(caps: &State, queue: u8) -> Part
    requires queue { queue < length caps.now }
    requires some { 1 ≤ slice_index caps.now queue }
    ensures { result ≡ gaining_part caps.now queue }
{
    let most = caps.get(queue);
    Part {
        queue,
        least: 0,
        most: most - 1,
        shift: 1,
        floor: 0,
        ceiling: most,
    }
}

// The source, if there is one, loses a customer.
fn source_parts(caps: &State, from: Option<Source>) -> Parts
    requires { IfSome from (λ source. IsSource caps.now source) }
    ensures parts { result ≡ source_parts caps.now from }
    ensures few { length result ≤ 1 }
{
    let mut parts = Parts::empty();
    if let Some(source) = from {
        parts.push(losing(caps, source.k, source.queue, 1));
    }
    parts
}

// The parts of a negative customer.
pub(crate) fn negative_parts(caps: &State, from: Option<Source>, on: u8, amount: u16) -> Parts
    requires source { IfSome from (λ source. IsSource caps.now source) }
    requires queue { on < length caps.now }
    ensures { result ≡ negative_parts caps.now from on amount }
{
    let mut parts = source_parts(caps, from);
    parts.push(losing(caps, 0, on, amount));
    parts
}

// The parts of a fork: as many as a list of parts takes.
pub(crate) fn fork_parts(caps: &State, from: Option<Source>, to: &Queues) -> Parts
    requires valid { AreCapacities caps.now }
    requires source { IfSome from (λ source. IsSource caps.now source) }
    requires queues { AreQueues caps.now to.now }
    requires few { length (fork_parts caps.now from to.now) ≤ 32 }
    ensures { result ≡ fork_parts caps.now from to.now }
{
    let mut parts = source_parts(caps, from);
    for i in 0..to.len() {
        parts.push(gaining(caps, to.get(i)));
    }
    parts
}

// The parts of a join: as many as a list of parts takes.
pub(crate) fn join_parts(caps: &State, from: &Queues, to: Option<u8>) -> Parts
    requires valid { AreCapacities caps.now }
    requires queues { AreQueues caps.now from.now }
    requires target { IfSome to (λ queue. queue < length caps.now) }
    requires few { length (join_parts caps.now from.now to) ≤ 32 }
    ensures { result ≡ join_parts caps.now from.now to }
{
    let mut parts = Parts::empty();
    for i in 0..from.len() {
        parts.push(losing(caps, 1, from.get(i), 1));
    }
    if let Some(queue) = to {
        parts.push(gaining(caps, queue));
    }
    parts
}
