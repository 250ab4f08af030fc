//! Which kinds are refused, and why.

ghost use Rattle.std.specs.Prelude.{◌≡◌, ◌∷◌, [], ◌&&◌, ◌||◌, not, false, None};
ghost use Rattle.psi_state.specs.State.{AreCapacities};
ghost use Rattle.psi_route.specs.Refusals.{is_self_target, are_tables};
ghost use Rattle.psi_kinds.specs.Kinds.{IsKindOf, AreQueues};
ghost use Rattle.psi_kinds.specs.Refusals.{is_empty, has_given, queues_of, lacks_tables, is_out_of_size, listed_refusal, refusal_of_guards, refusal_of_parts, refusal_of};

use crate::{Kind, KindRefusal, Tables};
use psi_guard::{Guarded, Parts};
use psi_route::{Source, is_self_target, is_size_off};
use psi_state::{Queues, State};

/// Why a kind makes no event in a network of these capacities, if it makes none: the refusal of
/// [`lower`](crate::lower), none of which is `OutOfMemory`.
///
/// `caps` and the kind are such as `lower` takes.
pub fn refusal_of(caps: &State, kind: &Kind) -> Option<KindRefusal>
    requires caps { AreCapacities caps.now }
    requires named { IsKindOf caps.now kind.now }
    ensures { result ≡ refusal_of caps.now kind.now }
{
    match listed_refusal(caps, kind) {
        Some(refusal) => Some(refusal),
        None => refusal_of_parts(caps, kind),
    }
}

// The queues that a kind names.
#[derive(Clone, Copy)]
pub(crate) struct KindQueues {
    // The queue that is served, if there is one.
    pub source: Option<Source>,
    // The queues that customers join, or leave.
    pub list: Queues,
    // Whether the list may be empty.
    pub may_be_empty: bool,
    // The queue that customers of the list join, if there is one.
    pub other: Option<u8>,
}

// The queues that a kind names; parts are judged by themselves.
fn queues_of(kind: &Kind) -> KindQueues
    ensures { result ≡ queues_of kind.now }
{
    match kind {
        Kind::Arrival { to } => joined(None, *to),
        Kind::Service { from, to, .. } => KindQueues {
            source: Some(*from),
            list: *to,
            may_be_empty: true,
            other: None,
        },
        Kind::Index { from, to, .. } => joined(*from, *to),
        Kind::Batch { to, .. } => joined(None, *to),
        Kind::Negative { from, on, .. } => joined(*from, only(*on)),
        Kind::Fork { from, to } => joined(*from, *to),
        Kind::Join { from, to } => KindQueues {
            source: None,
            list: *from,
            may_be_empty: false,
            other: *to,
        },
        Kind::Guarded { .. } => KindQueues {
            source: None,
            list: Queues::empty(),
            may_be_empty: true,
            other: None,
        },
    }
}

// A source and a list that may not be empty.
fn joined(source: Option<Source>, list: Queues) -> KindQueues
    ensures source { result.source ≡ source }
    ensures list { result.list ≡ list }
    ensures some { result.may_be_empty ≡ false }
    ensures alone { result.other ≡ None }
{
    KindQueues {
        source,
        list,
        may_be_empty: false,
        other: None,
    }
}

// The list of one queue.
fn only(queue: u8) -> Queues
    ensures { result ≡ queue ∷ [] }
{
    let mut queues = Queues::empty();
    queues.push(queue);
    queues
}

// The first cause for which the lists and numbers of a kind are refused.
fn listed_refusal(caps: &State, kind: &Kind) -> Option<KindRefusal>
    requires { IsKindOf caps.now kind.now }
    ensures { result ≡ listed_refusal caps.now kind.now }
{
    let queues = queues_of(kind);
    if !queues.may_be_empty && queues.list.len() == 0 {
        return Some(KindRefusal::Empty);
    }
    if queues.list.repeats() {
        return Some(KindRefusal::Repeated);
    }
    if has_given(&queues.list, queues.other) || is_self_target(queues.source, &queues.list) {
        return Some(KindRefusal::SelfTarget);
    }
    if lacks_tables(caps, kind) {
        return Some(KindRefusal::TableLength);
    }
    if is_out_of_size(caps, kind) {
        return Some(KindRefusal::SizeRange);
    }
    None
}

// Whether the list has this queue, if there is one.
fn has_given(list: &Queues, queue: Option<u8>) -> bool
    ensures { result ≡ has_given list.now queue }
{
    match queue {
        None => false,
        Some(queue) => list.contains(queue),
    }
}

// Whether the tables of an index event don't fit its list.
fn lacks_tables(caps: &State, kind: &Kind) -> bool
    requires { IsKindOf caps.now kind.now }
    ensures { result ≡ lacks_tables caps.now kind.now }
{
    match kind {
        Kind::Index { to, table, .. } => !are_tables(caps, to, table),
        _ => false,
    }
}

// Whether a size or an amount is out of its range.
fn is_out_of_size(caps: &State, kind: &Kind) -> bool
    requires { IsKindOf caps.now kind.now }
    ensures { result ≡ is_out_of_size caps.now kind.now }
{
    match kind {
        Kind::Index { from, to, size, .. } => is_size_off(caps, *from, *size, to),
        Kind::Batch { to, size } => is_size_off(caps, None, *size, to),
        Kind::Negative { amount, .. } => *amount == 0,
        _ => false,
    }
}

// Whether there is a table for each queue of the list, as long as the queue's capacity.
fn are_tables(caps: &State, queues: &Queues, tables: &Tables) -> bool
    requires { AreQueues caps.now queues.now }
    ensures { result ≡ are_tables caps.now queues.now tables.now }
{
    if tables.len() != queues.len() as usize {
        return false;
    }
    for i in 0..queues.len() {
        if tables.row(i as usize).len() != caps.get(queues.get(i)) as usize {
            return false;
        }
    }
    true
}

// Why the parts of a kind are refused, if they are.
fn refusal_of_parts(caps: &State, kind: &Kind) -> Option<KindRefusal>
    requires { AreCapacities caps.now }
    ensures { result ≡ refusal_of_parts caps.now kind.now }
{
    match kind {
        Kind::Guarded { parts } => refusal_of_guards(caps, parts),
        _ => None,
    }
}

// Why these parts of a guarded kind are refused, if they are.
fn refusal_of_guards(caps: &State, parts: &Parts) -> Option<KindRefusal>
    requires { AreCapacities caps.now }
    ensures { result ≡ refusal_of_guards caps.now parts.now }
{
    if parts.len() == 0 {
        return Some(KindRefusal::Empty);
    }
    match Guarded::new(*caps, parts.as_slice()) {
        Ok(_) => None,
        Err(refusal) => Some(KindRefusal::of_parts(refusal)),
    }
}
