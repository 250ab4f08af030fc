//! Nodes in one vector, linked by index into the chains of a hash table.
//!
//! The nodes in use are the first ones, at most 4,096. A link is the place of a node, or 4096 where there is
//! none. It leads to the last node of a bucket before some place, so links fall along a chain, and every chain
//! ends.

ghost use Rattle.std.specs.Prelude.{◌≡◌, ℕ, ◌+◌, ◌<◌, ◌≤◌, ◌↔◌, List, ◌∷◌, ◌++◌, IsTrue, IfOk, MatchOption, length, map, slice_index, vec_capacity};
ghost use Rattle.std.specs.declared.cmp.Ordering.TheVariants.{Less, Equal, Greater};
ghost use Rattle.psi_state.specs.State.{IsBelow};
ghost use Rattle.psi_state.specs.Members.{In};
ghost use Rattle.psi_state.specs.Sets.{state_cmp, ascending, single};
ghost use Rattle.psi_state.specs.Ascending.{IsRising, IsDistinct, HaveSame};
ghost use Rattle.psi_pool.specs.Inner.BucketsKept.{bucket};
ghost use Rattle.psi_pool.specs.Inner.NodesKept.{node_at, states, IsLinked, IsNew, HoldSet};

use crate::hashing::bucket_of;
use psi_event::EventLaw;
use psi_state::State;
use std::alloc::{AllocError, Global};
use std::cmp::Ordering;

/// The link to no node: the most nodes there can be, so that none stands at this place.
pub(crate) const NONE: u16 = 4096;

/// A state, and the link to the node before it in its bucket.
#[derive(Clone, Copy)]
pub(crate) struct Node {
    pub(crate) state: State,
    pub(crate) next: u16,
}

/// Makes `most` nodes, all of them free.
pub(crate) fn free_nodes(alloc: Global, most: u16) -> Result<Vec<Node>, AllocError>
    ensures { IfOk result (λ nodes. length nodes.items ≡ most) }
{
    let mut nodes = Vec::with_capacity(alloc, most as usize)?;
    for _place in 0..most {
        nodes.push_reserved(Node {
            state: State::zero(1),
            next: NONE,
        });
    }
    Ok(nodes)
}

/// Makes the heads of `count` buckets, all of them empty.
pub(crate) fn free_heads(alloc: Global, count: u16) -> Result<Vec<u16>, AllocError>
    ensures count { IfOk result (λ heads. length heads.items ≡ count) }
    ensures none { IfOk result (λ heads. (b : ℕ) → b < count → slice_index heads.items b ≡ 4096) }
{
    let mut heads = Vec::with_capacity(alloc, count as usize)?;
    for _bucket in 0..count {
        heads.push_reserved(NONE);
    }
    Ok(heads)
}

/// Empties all buckets.
pub(crate) fn empty(heads: &mut [u16])
    ensures { (b : ℕ) → b < length heads.new → slice_index heads.new b ≡ 4096 }
{
    for bucket in 0..heads.len() {
        heads[bucket] = NONE;
    }
}

/// Whether one of the nodes has the state `x`, whose bucket is given: all nodes are in use.
#[inline]
pub(crate) fn has(nodes: &[Node], heads: &[u16], home: usize, x: &State) -> bool
    requires small { length nodes.now ≤ 4096 }
    requires linked { IsLinked (length heads.now) nodes.now heads.now (length nodes.now) }
    requires own { home ≡ bucket (length heads.now) x.now }
    requires within { home < length heads.now }
    ensures { IsTrue result ↔ In x.now (states nodes.now (length nodes.now)) }
{
    let mut link = heads[home] as usize;
    while link < nodes.len() {
        let node = &nodes[link];
        if node.state == *x {
            return true;
        }
        link = node.next as usize;
    }
    false
}

// Links the node at a place into its bucket where its state is new, and returns whether it is.
#[inline]
fn link(nodes: &mut [Node], heads: &mut [u16], place: usize) -> bool
    requires place { place < length nodes.old }
    requires few { place < 4096 }
    requires some { 1 ≤ length heads.old }
    requires buckets { length heads.old ≤ 16385 }
    requires linked { IsLinked (length heads.old) nodes.old heads.old place }
    ensures fresh { IsTrue result → In (node_at nodes.old place).state (states nodes.old place) → ⊥ }
    ensures linked { IsTrue result → IsLinked (length heads.new) nodes.new heads.new (place + 1) }
    ensures there { (IsTrue result → ⊥) → In (node_at nodes.old place).state (states nodes.old place) }
    ensures still { (IsTrue result → ⊥) → IsLinked (length heads.new) nodes.new heads.new place }
    ensures states { (i : ℕ) → (node_at nodes.new i).state ≡ (node_at nodes.old i).state }
{
    let Some(home) = home_if_new(nodes, heads, place) else {
        return false;
    };
    nodes[place].next = heads[home];
    heads[home] = place as u16;
    true
}

// The bucket of the node at a place where its state is new: no node before it has that state.
#[inline]
fn home_if_new(nodes: &[Node], heads: &[u16], place: usize) -> Option<usize>
    requires place { place < length nodes.now }
    requires few { place < 4096 }
    requires some { 1 ≤ length heads.now }
    requires buckets { length heads.now ≤ 16385 }
    requires linked { IsLinked (length heads.now) nodes.now heads.now place }
    ensures { MatchOption result (In (node_at nodes.now place).state (states nodes.now place)) (λ home. IsNew (length heads.now) nodes.now place home) }
{
    let x = &nodes[place].state;
    let home = bucket_of(x, heads.len());
    if has(&nodes[..place], heads, home, x) {
        return None;
    }
    Some(home)
}

/// Whether one of the nodes has the state `x`, however they are linked.
pub(crate) fn stands_in(nodes: &[Node], x: &State) -> bool
    ensures { IsTrue result ↔ In x.now (states nodes.now (length nodes.now)) }
{
    for node in nodes {
        if node.state == *x {
            return true;
        }
    }
    false
}

/// The number of different states in the nodes. Its work grows with the square of the nodes.
pub(crate) fn count_states(nodes: &[Node]) -> u16
    requires { length nodes.now ≤ 4096 }
    ensures { result ≡ length (ascending (states nodes.now (length nodes.now))) }
{
    let mut count = 0;
    for place in 0..nodes.len() {
        if !stands_in(&nodes[..place], &nodes[place].state) {
            count += 1;
        }
    }
    count
}

/// The state of the nodes where all have the same one; `None` where there is no node or not one state.
pub(crate) fn one_state(nodes: &[Node]) -> Option<State>
    ensures { result ≡ single (ascending (states nodes.now (length nodes.now))) }
{
    if nodes.is_empty() {
        return None;
    }
    let first = nodes[0].state;
    for node in nodes {
        if node.state != first {
            return None;
        }
    }
    Some(first)
}

/// Moves the states of the first `len` nodes on by the event. Their links are as they were.
#[inline]
pub(crate) fn move_first<E: EventLaw>(nodes: &mut [Node], len: usize, e: &E)
    requires len { len ≤ length nodes.old }
    requires below { (x : List ℕ) → In x (states nodes.old len) → IsBelow x (E.capacities e.now) }
    ensures { states nodes.new len ≡ map (E.function e.now) (states nodes.old len) }
{
    move_on(&mut nodes[..len], e);
}

/// Links the first `len` nodes again, into the first `used` buckets. Returns how many nodes are in use from then on.
pub(crate) fn relink(nodes: &mut [Node], heads: &mut [u16], used: usize, len: usize) -> usize
    requires some { 1 ≤ used }
    requires few { used ≤ 16385 }
    requires used { used ≤ length heads.old }
    requires small { len ≤ 4096 }
    requires len { len ≤ length nodes.old }
    ensures holds { HoldSet used nodes.new heads.new result (states nodes.old len) }
    ensures fewer { result ≤ len }
{
    empty(&mut heads[..used]);
    link_all(&mut nodes[..len], &mut heads[..used])
}

// Moves the state of each node on by the event.
fn move_on<E: EventLaw>(nodes: &mut [Node], e: &E)
    requires { (x : List ℕ) → In x (states nodes.old (length nodes.old)) → IsBelow x (E.capacities e.now) }
    ensures { (i : ℕ) → i < length nodes.old → (node_at nodes.new i).state ≡ E.function e.now (node_at nodes.old i).state }
{
    for node in nodes.iter_mut() {
        e.apply(&mut node.state);
    }
}

// Links the nodes, where all buckets are in use and empty. A node whose state is there already is free again: the
// last node that waits comes to its place. It is one for all events, and has the registers to itself.
#[inline(never)]
fn link_all(nodes: &mut [Node], heads: &mut [u16]) -> usize
    requires some { 1 ≤ length heads.old }
    requires few { length heads.old ≤ 16385 }
    requires none { (b : ℕ) → b < length heads.old → slice_index heads.old b ≡ 4096 }
    requires small { length nodes.old ≤ 4096 }
    ensures holds { HoldSet (length heads.new) nodes.new heads.new result (states nodes.old (length nodes.old)) }
    ensures fewer { result ≤ length nodes.old }
{
    let mut place = 0;
    let mut left = nodes.len();
    while place < left {
        if link(nodes, heads, place) {
            place += 1;
        } else {
            left -= 1;
            nodes[place].state = nodes[left].state;
        }
    }
    left
}

/// Lists the states of the first `len` nodes in ascending order where the nodes are in it, and returns 0 then. Else
/// some states aren't listed, and the answer is how many nodes have one of these: the listed ones and these are put
/// into the first nodes, in their order where these are ascending by themselves.
pub(crate) fn list_first(nodes: &mut [Node], len: usize, out: &mut Vec<State>) -> usize
    requires len { len ≤ length nodes.old }
    requires room { len ≤ vec_capacity out.old }
    ensures members { HaveSame (states nodes.new (length out.new.items + result)) (states nodes.old len) }
    ensures listed { result ≡ 0 → out.new.items ≡ ascending (states nodes.old len) }
    ensures fewer { length out.new.items + result ≤ len }
    ensures capacity { vec_capacity out.new ≡ vec_capacity out.old }
{
    list_or_merge(&mut nodes[..len], out)
}

// As above, for all the nodes.
fn list_or_merge(nodes: &mut [Node], out: &mut Vec<State>) -> usize
    requires { length nodes.old ≤ vec_capacity out.old }
    ensures members { HaveSame (states nodes.new (length out.new.items + result)) (states nodes.old (length nodes.old)) }
    ensures listed { result ≡ 0 → out.new.items ≡ ascending (states nodes.old (length nodes.old)) }
    ensures fewer { length out.new.items + result ≤ length nodes.old }
    ensures capacity { vec_capacity out.new ≡ vec_capacity out.old }
{
    let aside = list_ascending(nodes, out);
    if out.len() == nodes.len() {
        return aside;
    }
    merge(nodes, out.as_slice(), aside);
    aside
}

/// Lists the states of the first `len` nodes in ascending order, and puts them into the first nodes in that order. No
/// state stands in two of them.
pub(crate) fn sort_first(nodes: &mut [Node], len: usize, out: &mut Vec<State>)
    requires len { len ≤ length nodes.old }
    requires room { len ≤ vec_capacity out.old }
    requires distinct { IsDistinct (states nodes.old len) }
    ensures members { HaveSame (states nodes.new (length out.new.items)) (states nodes.old len) }
    ensures listed { out.new.items ≡ ascending (states nodes.old len) }
    ensures fewer { length out.new.items ≤ len }
    ensures capacity { vec_capacity out.new ≡ vec_capacity out.old }
{
    gather(&nodes[..len], out);
    out.sort_unstable();
    merge(nodes, out.as_slice(), 0);
}

// Lists the states of the nodes that come in ascending order, each once. A state that is below one before it is set
// aside: these states are those of the first nodes, in the order in which they came, and the answer is their number.
fn list_ascending(nodes: &mut [Node], out: &mut Vec<State>) -> usize
    requires { length nodes.old ≤ vec_capacity out.old }
    ensures rising { IsRising out.new.items }
    ensures members { HaveSame (out.new.items ++ states nodes.new result) (states nodes.old (length nodes.old)) }
    ensures fewer { length out.new.items + result ≤ length nodes.old }
    ensures still { result ≡ 0 → nodes.new ≡ nodes.old }
    ensures capacity { vec_capacity out.new ≡ vec_capacity out.old }
{
    out.clear();
    let mut aside = 0;
    for place in 0..nodes.len() {
        if !extend(out, &nodes[place].state) {
            nodes[aside].state = nodes[place].state;
            aside += 1;
        }
    }
    aside
}

// Puts a state after ascending ones that it is above. The answer is whether it is among them then.
#[inline]
fn extend(out: &mut Vec<State>, x: &State) -> bool
    requires rising { IsRising out.old.items }
    requires room { length out.old.items < vec_capacity out.old }
    ensures rising { IsRising out.new.items }
    ensures listed { IsTrue result → HaveSame out.new.items (x.now ∷ out.old.items) }
    ensures unlisted { (IsTrue result → ⊥) → out.new.items ≡ out.old.items }
    ensures longer { length out.new.items ≤ length out.old.items + 1 }
    ensures capacity { vec_capacity out.new ≡ vec_capacity out.old }
{
    match against_last(out.as_slice(), x) {
        Ordering::Greater => {
            out.push_reserved(*x);
            true
        }
        Ordering::Equal => true,
        Ordering::Less => false,
    }
}

// How a state compares with the last of ascending ones; it is above none.
#[inline]
fn against_last(out: &[State], x: &State) -> Ordering
    requires { IsRising out.now }
    ensures above { result ≡ Greater → (z : List ℕ) → In z out.now → state_cmp z x.now ≡ Less }
    ensures there { result ≡ Equal → In x.now out.now }
{
    if out.is_empty() {
        return Ordering::Greater;
    }
    x.cmp(&out[out.len() - 1])
}

// Puts the states of a list and those of the first `aside` nodes into the first nodes, as many as they are. Where both are
// ascending, so are these, which no clause promises.
fn merge(nodes: &mut [Node], out: &[State], aside: usize)
    requires { length out.now + aside ≤ length nodes.old }
    ensures { HaveSame (states nodes.new (length out.now + aside)) (out.now ++ states nodes.old aside) }
{
    let mut listed = out.len();
    let mut aside = aside;
    while listed > 0 {
        let place = listed + aside - 1;
        if ends_above(nodes, aside, &out[listed - 1]) {
            aside -= 1;
            nodes[place].state = nodes[aside].state;
        } else {
            listed -= 1;
            nodes[place].state = out[listed];
        }
    }
}

// Whether the last of the first `aside` nodes has a state above `x`.
#[inline]
fn ends_above(nodes: &[Node], aside: usize, x: &State) -> bool
    requires { aside ≤ length nodes.now }
    ensures { IsTrue result → 1 ≤ aside }
{
    aside > 0 && nodes[aside - 1].state > *x
}

// Lists the states of the nodes.
fn gather(nodes: &[Node], out: &mut Vec<State>)
    requires { length nodes.now ≤ vec_capacity out.old }
    ensures items { out.new.items ≡ states nodes.now (length nodes.now) }
    ensures capacity { vec_capacity out.new ≡ vec_capacity out.old }
{
    out.clear();
    for node in nodes {
        out.push_reserved(node.state);
    }
}
