//! The arcs of states, put into a set of arcs and looked for in it.

ghost use Rattle.std.specs.Prelude.{◌≡◌, ℕ, ◌+◌, ◌<◌, ◌≤◌, ◌↔◌, ◌⊎◌, List, [], IsTrue, Some, None, MatchOption, length};
ghost use Rattle.psi_state.specs.Members.{In};
ghost use Rattle.psi_state.specs.Sets.{single};
ghost use Rattle.psi_closed_arcs.specs.Walks.{Held, IsArc};
ghost use Rattle.psi_closed_arcs.specs.Held.{Listed};
ghost use Rattle.psi_closed.specs.Closed.{IsOfTotal, total_states, all_arcs, held_states};
ghost use Rattle.psi_closed.specs.Diagram.{AreWhole, AreArcsOf, HasRoom, IsLeft, IsOnly, IsForked};

use psi_closed_arcs::{Arc, Arcs, Reach};
use psi_state::State;

// The arcs of all states of the total.
pub(crate) fn put_all(held: &mut Arcs, reach: &mut Reach, caps: &State)
    requires levels { held.old.levels ≡ length caps.now }
    ensures levels { held.new.levels ≡ length caps.now }
    ensures total { held.new.total ≡ held.old.total }
    ensures arcs { AreArcsOf caps.now held.old.total held.new.arcs (total_states caps.now held.old.total) }
{
    held.fill(caps);
    held.keep_useful(reach);
}

// Puts in the arcs of these states, where there is none yet.
pub(crate) fn put_states(arcs: &mut Arcs, states: &[State])
    requires empty { arcs.old.arcs ≡ [] }
    requires each { (x : List ℕ) → In x states.now → HasRoom arcs.old.levels arcs.old.total x }
    ensures levels { arcs.new.levels ≡ arcs.old.levels }
    ensures total { arcs.new.total ≡ arcs.old.total }
    ensures arcs { (l s v : ℕ) → Listed arcs.new.arcs l s v ↔ Listed (all_arcs states.now) l s v }
{
    for state in states {
        put_state(arcs, state);
    }
}

// Adds the arcs of a state.
fn put_state(arcs: &mut Arcs, state: &State)
    requires { HasRoom arcs.old.levels arcs.old.total state.now }
    ensures levels { arcs.new.levels ≡ arcs.old.levels }
    ensures total { arcs.new.total ≡ arcs.old.total }
    ensures arcs { (l s v : ℕ) → Listed arcs.new.arcs l s v ↔ (Listed arcs.old.arcs l s v ⊎ IsArc state.now l s v) }
{
    let mut before = 0;
    for level in 0..state.len() {
        let value = state.get(level);
        arcs.insert(Arc {
            level,
            before,
            value,
        });
        before += value;
    }
}

// Whether the state is a walk along the arcs, to their number of customers.
pub(crate) fn is_walk(arcs: &Arcs, state: &State) -> bool
    requires { length state.now ≡ arcs.now.levels }
    ensures { IsTrue result ↔ Held (Listed arcs.now.arcs) arcs.now.levels arcs.now.total state.now }
{
    let total = arcs.total();
    let mut before = 0;
    for level in 0..state.len() {
        let value = state.get(level);
        if !has_arc(arcs, level, before, value) {
            return false;
        }
        before += value;
    }
    before == total
}

// Whether there is this arc, with any number of customers.
fn has_arc(arcs: &Arcs, level: u8, before: u16, value: u16) -> bool
    requires level { level < arcs.now.levels }
    requires before { before ≤ arcs.now.total }
    ensures { IsTrue result ↔ Listed arcs.now.arcs level before value }
{
    value <= arcs.total() - before
        && arcs.has(Arc {
            level,
            before,
            value,
        })
}

// The one state that is held, if there are no more. At least one is, and each arc is one of a held state.
pub(crate) fn only_state(arcs: &Arcs, caps: &State) -> Option<State>
    requires levels { arcs.now.levels ≡ length caps.now }
    requires whole { AreWhole caps.now arcs.now.total arcs.now.arcs }
    requires some { (x : List ℕ) × In x (held_states caps.now arcs.now.total arcs.now.arcs) }
    ensures value { result ≡ single (held_states caps.now arcs.now.total arcs.now.arcs) }
    ensures more { result ≡ None → 2 ≤ length (held_states caps.now arcs.now.total arcs.now.arcs) }
{
    let mut state = *caps;
    let mut before = 0;
    for level in 0..caps.len() {
        let value = only_value(arcs, level, before)?;
        state.set(level, value);
        before += value;
    }
    Some(state)
}

// The customers at a queue of the one arc that leaves it with `before` customers before it, if there are no more. At
// least one does.
fn only_value(arcs: &Arcs, level: u8, before: u16) -> Option<u16>
    requires level { level < arcs.now.levels }
    requires before { before ≤ arcs.now.total }
    requires some { IsLeft arcs.now.arcs level before }
    ensures value { MatchOption result (IsForked arcs.now.arcs level before) (λ v. IsOnly arcs.now.arcs level before v) }
    ensures sum { MatchOption result (Unit {0}) (λ v. before + v ≤ arcs.now.total) }
    ensures small { arcs.now.total ≤ 256 }
{
    let (value, other) = arcs.first(level, before)?;
    if other { None } else { Some(value) }
}
