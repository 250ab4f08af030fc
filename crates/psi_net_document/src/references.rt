//! References to queues: by one name, or by a list of names.

ghost use Rattle.std.specs.Prelude.{◌≡◌, ◌<◌, ℕ, [], length, map, Some, IfSome, IfOk, IsTrue, OnOk};
ghost use Rattle.toml.specs.View.{view};
ghost use Rattle.psi_net_model.specs.Name.{name_of};
ghost use Rattle.psi_net_document.specs.Refusal.{Gives};
ghost use Rattle.psi_net_document.specs.Values.{seen, required, each};
ghost use Rattle.psi_net_document.specs.References.{number_of, is_in, queue_in, target_in, target_step, targets_in, some_targets_in};
ghost use Rattle.psi_net_document.specs.Targets.{AreTargets};
ghost use Rattle.psi_net_document.specs.Inner.MarksKept.{AreMarked};

use crate::digests::{fingerprint, slot};
use crate::keys::{array_in, present, text_in};
use crate::known_names::KnownNames;
use crate::read;
use crate::refusals::{NetCause, NetRefusal, Place};
use psi_net_model::name_of;
use psi_state::Queues;
use toml::Value;

// Whether queue `number` has the fingerprint that the text has, and is named by it.
fn is_named(known: &KnownNames, number: usize, wanted: u64, text: &str) -> bool
    ensures { IsTrue result → number_of known.now.list.keys (name_of text.now) ≡ Some number }
{
    let names = known.list.as_slice();
    if number < names.len() && known.fingerprints[number] == wanted {
        names[number].bytes() == text.as_bytes()
    } else {
        false
    }
}

// The number of the queue whose fingerprint the text has and which it names, if there is one: first the queue of the
// fingerprint's slot is looked at, which few texts miss, then each one.
fn number_by_fingerprint(known: &KnownNames, text: &str) -> Option<usize>
    ensures { IfSome result (λ number. number_of known.now.list.keys (name_of text.now) ≡ Some number) }
{
    let wanted = fingerprint(text.as_bytes());
    let first = known.slots[slot(wanted)] as usize;
    if is_named(known, first, wanted, text) {
        return Some(first);
    }
    for number in 0..known.list.len() {
        if is_named(known, number, wanted, text) {
            return Some(number);
        }
    }
    None
}

// The number of the queue that a text names.
fn number_of(known: &KnownNames, text: &str) -> Option<usize>
    ensures { result ≡ number_of known.now.list.keys (name_of text.now) }
{
    if let Some(number) = number_by_fingerprint(known, text) {
        return Some(number);
    }
    match name_of(text) {
        Some(name) => known.list.get_index_of(&name),
        None => None,
    }
}

/// Reads the number of the queue that a value names, counted from 0.
///
/// # Errors
///
/// At the key, `WrongType` where the value is no string, and `UnknownQueue` where it is no queue's name.
#[tactic(auto, unfolding(crate::specs::References::queue_in))]
pub fn queue_in(
    place: Place,
    key: &str,
    known: &KnownNames,
    value: &Value,
) -> Result<u8, NetRefusal>
    ensures value { Gives (λ q. q) result (queue_in place key.now known.now.list.keys (view value.now)) }
    ensures within { IfOk result (λ q. q < length known.now.list.keys) }
{
    let text = read!(text_in(place, key, value));
    match number_of(known, text) {
        Some(number) => Ok(number as u8),
        None => Err(NetCause::UnknownQueue.at_key(place, key)),
    }
}

/// Reads the number of the queue that the value of a required key names, counted from 0.
///
/// # Errors
///
/// Those of [`present`](crate::present) and [`queue_in`].
pub fn required_queue(
    place: Place,
    key: &str,
    known: &KnownNames,
    value: Option<&Value>,
) -> Result<u8, NetRefusal>
    ensures { Gives (λ q. q) result (required place key.now (queue_in place key.now known.now.list.keys) (seen value.entry)) }
{
    let value = read!(present(place, key, value));
    queue_in(place, key, known, value)
}

/// Reads the number of the queue that a value names and that is none of the event's sources, counted from 0.
///
/// # Errors
///
/// Those of [`queue_in`], and `SelfTarget` at the key where it is a source.
#[tactic(auto, unfolding(crate::specs::References::target_in))]
pub fn target_in(
    place: Place,
    key: &str,
    known: &KnownNames,
    sources: &Queues,
    value: &Value,
) -> Result<u8, NetRefusal>
    ensures value { Gives (λ q. q) result (target_in place key.now known.now.list.keys sources.now (view value.now)) }
    ensures within { IfOk result (λ q. q < length known.now.list.keys) }
{
    let queue = read!(queue_in(place, key, known, value));
    if sources.contains(queue) {
        return Err(NetCause::SelfTarget.at_key(place, key));
    }
    Ok(queue)
}

/// Reads the number of the queue that the value of a required key names and that is none of the event's sources.
///
/// # Errors
///
/// Those of [`present`](crate::present) and [`target_in`].
pub fn required_target(
    place: Place,
    key: &str,
    known: &KnownNames,
    sources: &Queues,
    value: Option<&Value>,
) -> Result<u8, NetRefusal>
    ensures { Gives (λ q. q) result (required place key.now (target_in place key.now known.now.list.keys sources.now) (seen value.entry)) }
{
    let value = read!(present(place, key, value));
    target_in(place, key, known, sources, value)
}

// Whether the queues that a list names so far have this one among them.
fn is_marked(marks: &[u8; 32], queue: u8, earlier: &Queues) -> bool
    requires marked { AreMarked earlier.now marks.now }
    requires few { queue < 32 }
    ensures { result ≡ is_in queue earlier.now }
{
    marks[queue as usize] != 0
}

// One element of a list: the name of a queue that the list doesn't name before it, and that is none of the
// event's sources. Each queue that the list names is marked.
#[tactic(auto, using(crate::proofs::PigeonLemmas::room_for_more, crate::proofs::PigeonLemmas::targets_more), unfolding(crate::specs::References::target_step))]
fn push_target(
    place: Place,
    key: &str,
    known: &KnownNames,
    sources: &Queues,
    earlier: &mut Queues,
    marks: &mut [u8; 32],
    value: &Value,
) -> Result<(), NetRefusal>
    requires valid { AreTargets (length known.now.list.keys) sources.now earlier.old }
    requires marked { AreMarked earlier.old marks.old }
    ensures marked { OnOk result (AreMarked earlier.new marks.new) }
    ensures value { (n : ℕ) → Gives (λ _. earlier.new) result (target_step place key.now known.now.list.keys sources.now n earlier.old (view value.now)) }
    ensures valid { OnOk result (AreTargets (length known.now.list.keys) sources.now earlier.new) }
{
    let queue = read!(queue_in(place, key, known, value));
    if is_marked(marks, queue, earlier) {
        return Err(NetCause::RepeatedTarget.at_key(place, key));
    }
    if sources.contains(queue) {
        return Err(NetCause::SelfTarget.at_key(place, key));
    }
    earlier.push(queue);
    marks[queue as usize] = 1;
    Ok(())
}

// The queues that the elements of an array name.
#[tactic(auto, using(crate::proofs::TurnLemmas::turn, crate::proofs::TurnLemmas::turn_fails, crate::proofs::TurnLemmas::turn_ends, crate::proofs::PigeonLemmas::no_targets))]
fn all_targets(
    place: Place,
    key: &str,
    known: &KnownNames,
    sources: &Queues,
    values: &[Value],
) -> Result<Queues, NetRefusal>
    ensures value { Gives (λ qs. qs) result (each (target_step place key.now known.now.list.keys sources.now) 1 [] (map view values.now)) }
    ensures valid { IfOk result (AreTargets (length known.now.list.keys) sources.now) }
{
    let mut queues = Queues::empty();
    let mut marks = [0; 32];
    for value in values {
        read!(push_target(place, key, known, sources, &mut queues, &mut marks, value));
    }
    Ok(queues)
}

/// Reads the queues that the elements of an array name, in their order: each one once, and none of the event's
/// sources.
///
/// # Errors
///
/// At the key, `WrongType` where the value is no array, and else at the first element that is no such queue:
/// `WrongType` or `UnknownQueue` as of [`queue_in`], `RepeatedTarget` where the list names it before, and
/// `SelfTarget` where it is a source.
#[tactic(auto, unfolding(crate::specs::References::targets_in))]
pub fn targets_in(
    place: Place,
    key: &str,
    known: &KnownNames,
    sources: &Queues,
    value: &Value,
) -> Result<Queues, NetRefusal>
    ensures value { Gives (λ qs. qs) result (targets_in place key.now known.now.list.keys sources.now (view value.now)) }
    ensures valid { IfOk result (AreTargets (length known.now.list.keys) sources.now) }
{
    let values = read!(array_in(place, key, value));
    all_targets(place, key, known, sources, values)
}

/// Reads the queues that a list of at least one name names, as [`targets_in`] has them.
///
/// # Errors
///
/// Those of [`targets_in`], and `OutOfRange` at the key where the list is empty.
#[tactic(auto, unfolding(crate::specs::References::some_targets_in))]
pub fn some_targets_in(
    place: Place,
    key: &str,
    known: &KnownNames,
    sources: &Queues,
    value: &Value,
) -> Result<Queues, NetRefusal>
    ensures value { Gives (λ qs. qs) result (some_targets_in place key.now known.now.list.keys sources.now (view value.now)) }
    ensures valid { IfOk result (AreTargets (length known.now.list.keys) sources.now) }
{
    let values = read!(array_in(place, key, value));
    if values.is_empty() {
        return Err(NetCause::OutOfRange.at_key(place, key));
    }
    all_targets(place, key, known, sources, values)
}

/// Reads the queues that the list at a required key names, at least one, as [`targets_in`] has them.
///
/// # Errors
///
/// Those of [`present`](crate::present) and [`some_targets_in`].
pub fn required_targets(
    place: Place,
    key: &str,
    known: &KnownNames,
    sources: &Queues,
    value: Option<&Value>,
) -> Result<Queues, NetRefusal>
    ensures value { Gives (λ qs. qs) result (required place key.now (some_targets_in place key.now known.now.list.keys sources.now) (seen value.entry)) }
    ensures valid { IfOk result (AreTargets (length known.now.list.keys) sources.now) }
{
    let value = read!(present(place, key, value));
    some_targets_in(place, key, known, sources, value)
}
