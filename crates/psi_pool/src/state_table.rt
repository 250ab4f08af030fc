//! The nodes of a set with the buckets that they are linked into.
//!
//! A list of states with repeats stands for its set as well, so an event moves the nodes alone. The links are
//! rebuilt now and then, and repeats fall away.

ghost use Rattle.std.specs.Prelude.{◌≡◌, ℕ, ◌*◌, ◌+◌, ◌<◌, ◌≤◌, ◌↔◌, ◌⊎◌, true, List, ◌∷◌, IsTrue, IfOk, length, map, vec_capacity};
ghost use Rattle.psi_state.specs.State.{IsBelow};
ghost use Rattle.psi_state.specs.Members.{In};
ghost use Rattle.psi_state.specs.Sets.{ascending};
ghost use Rattle.psi_state.specs.Ascending.{HaveSame};
ghost use Rattle.psi_pool.specs.Inner.StateTablesKept.{held, IsStateTable};

use crate::hashing::bucket_of;
use crate::nodes::{
    NONE, Node, count_states, empty, free_heads, free_nodes, has, list_first, move_first, relink,
    sort_first, stands_in,
};
use psi_event::EventLaw;
use psi_state::State;
use std::alloc::{AllocError, Global};

/// Nodes, of which the first hold the states of a set, and the buckets of a hash table.
#[derive(Drop)]
pub(crate) struct StateTable {
    // The nodes in use are the first `len`.
    pub(crate) nodes: Vec<Node>,
    // The buckets in use are the first `used`.
    pub(crate) heads: Vec<u16>,
    pub(crate) used: u16,
    pub(crate) len: u16,
    // Whether the nodes in use are linked, each state once. Else a state may stand in several of them.
    pub(crate) is_linked: bool,
}

// The number of buckets for `states` states: four for each keep the chains short where the hash spreads the
// states, which no clause promises.
fn buckets_for(states: u16) -> u16
    requires { states ≤ 4096 }
    ensures { result ≡ 4 * states + 1 }
{
    4 * states + 1
}

impl StateTable {
    /// Room for `most` states; none is there.
    pub(crate) fn reserve(alloc: Global, most: u16) -> Result<StateTable, AllocError>
        requires { most ≤ 4096 }
        ensures table { IfOk result (λ table. IsStateTable table) }
        ensures none { IfOk result (λ table. table.len ≡ 0) }
        ensures room { IfOk result (λ table. length table.nodes.items ≡ most) }
    {
        let used = buckets_for(most);
        let nodes = free_nodes(alloc, most)?;
        let heads = free_heads(alloc, used)?;
        Ok(StateTable {
            nodes,
            heads,
            used,
            len: 0,
            is_linked: true,
        })
    }

    /// Takes all states out.
    pub(crate) fn clear(&mut self)
        requires { IsStateTable self.old }
        ensures table { IsStateTable self.new }
        ensures none { self.new.len ≡ 0 }
        ensures room { length self.new.nodes.items ≡ length self.old.nodes.items }
    {
        empty(self.heads.as_mut_slice());
        self.used = buckets_for(self.nodes.len() as u16);
        self.len = 0;
        self.is_linked = true;
    }

    /// The number of states. Where the nodes aren't linked, the work grows with the square of the nodes.
    pub(crate) fn count(&self) -> u16
        requires { IsStateTable self.now }
        ensures { result ≡ length (ascending (held self.now)) }
    {
        if self.is_linked {
            return self.len;
        }
        count_states(&self.nodes[..self.len as usize])
    }

    /// Whether one of the states is `x`.
    pub(crate) fn has(&self, x: &State) -> bool
        requires { IsStateTable self.now }
        ensures { IsTrue result ↔ In x.now (held self.now) }
    {
        let nodes = &self.nodes[..self.len as usize];
        if !self.is_linked {
            return stands_in(nodes, x);
        }
        let home = bucket_of(x, self.used as usize);
        let heads = &self.heads[..self.used as usize];
        has(nodes, heads, home, x)
    }

    /// Puts the state in where it isn't there, and returns whether it was not. The nodes are linked.
    pub(crate) fn put(&mut self, x: State) -> bool
        requires table { IsStateTable self.old }
        requires linked { self.old.is_linked ≡ true }
        requires room { (self.old.len < length self.old.nodes.items) ⊎ In x (held self.old) }
        ensures table { IsStateTable self.new }
        ensures members { HaveSame (held self.new) (x ∷ held self.old) }
        ensures room { length self.new.nodes.items ≡ length self.old.nodes.items }
        ensures linked { self.new.is_linked ≡ true }
        ensures fresh { IsTrue result ↔ (In x (held self.old) → ⊥) }
    {
        let home = bucket_of(&x, self.used as usize);
        let nodes = &self.nodes[..self.len as usize];
        let heads = &self.heads[..self.used as usize];
        if has(nodes, heads, home, &x) {
            return false;
        }
        self.nodes[self.len as usize] = Node {
            state: x,
            next: self.heads[home],
        };
        self.heads[home] = self.len;
        self.len += 1;
        true
    }

    /// Puts the state in, whether it is there or not. The nodes aren't linked from then on.
    #[inline]
    pub(crate) fn push(&mut self, x: State)
        requires table { IsStateTable self.old }
        requires room { length (ascending (held self.old)) < length self.old.nodes.items }
        ensures table { IsStateTable self.new }
        ensures members { HaveSame (held self.new) (x ∷ held self.old) }
        ensures room { length self.new.nodes.items ≡ length self.old.nodes.items }
    {
        self.make_room();
        self.nodes[self.len as usize] = Node {
            state: x,
            next: NONE,
        };
        self.len += 1;
        self.is_linked = false;
    }

    // Lets a node be free: where all are in use, some states stand in several.
    #[inline]
    fn make_room(&mut self)
        requires table { IsStateTable self.old }
        requires room { length (ascending (held self.old)) < length self.old.nodes.items }
        ensures table { IsStateTable self.new }
        ensures free { self.new.len < length self.new.nodes.items }
        ensures members { HaveSame (held self.new) (held self.old) }
        ensures room { length self.new.nodes.items ≡ length self.old.nodes.items }
    {
        if self.len as usize == self.nodes.len() {
            self.link();
        }
    }

    /// Moves each state on by the event. The nodes aren't linked from then on.
    pub(crate) fn move_on<E: EventLaw>(&mut self, e: &E)
        requires table { IsStateTable self.old }
        requires below { (x : List ℕ) → In x (held self.old) → IsBelow x (E.capacities e.now) }
        ensures table { IsStateTable self.new }
        ensures states { held self.new ≡ map (E.function e.now) (held self.old) }
        ensures room { length self.new.nodes.items ≡ length self.old.nodes.items }
    {
        self.is_linked = false;
        move_first(self.nodes.as_mut_slice(), self.len as usize, e);
    }

    /// Lists the states in ascending order where the nodes are in it. Else it puts the nodes into an order that is nearer
    /// to it: into that order where they are two ascending lists, one among the other. The answer is whether the states
    /// are listed. The nodes aren't linked from then on.
    pub(crate) fn list(&mut self, out: &mut Vec<State>) -> bool
        requires table { IsStateTable self.old }
        requires listed { length self.old.nodes.items ≤ vec_capacity out.old }
        ensures table { IsStateTable self.new }
        ensures members { HaveSame (held self.new) (held self.old) }
        ensures room { length self.new.nodes.items ≡ length self.old.nodes.items }
        ensures states { IsTrue result → out.new.items ≡ ascending (held self.old) }
        ensures count { IsTrue result → self.new.len ≡ length out.new.items }
        ensures capacity { vec_capacity out.new ≡ vec_capacity out.old }
    {
        let aside = list_first(self.nodes.as_mut_slice(), self.len as usize, out);
        self.len = (out.len() + aside) as u16;
        self.is_linked = false;
        aside == 0
    }

    /// Lists the states in ascending order, and puts the nodes into it. They aren't linked from then on.
    pub(crate) fn sort(&mut self, out: &mut Vec<State>)
        requires table { IsStateTable self.old }
        requires listed { length self.old.nodes.items ≤ vec_capacity out.old }
        ensures table { IsStateTable self.new }
        ensures members { HaveSame (held self.new) (held self.old) }
        ensures room { length self.new.nodes.items ≡ length self.old.nodes.items }
        ensures states { out.new.items ≡ ascending (held self.old) }
        ensures count { self.new.len ≡ length out.new.items }
        ensures capacity { vec_capacity out.new ≡ vec_capacity out.old }
    {
        self.link();
        sort_first(self.nodes.as_mut_slice(), self.len as usize, out);
        self.len = out.len() as u16;
        self.is_linked = false;
    }

    /// Links the nodes where they aren't linked: from then on each state stands in one of them.
    pub(crate) fn link(&mut self)
        requires { IsStateTable self.old }
        ensures table { IsStateTable self.new }
        ensures linked { self.new.is_linked ≡ true }
        ensures members { HaveSame (held self.new) (held self.old) }
        ensures room { length self.new.nodes.items ≡ length self.old.nodes.items }
    {
        if !self.is_linked {
            self.link_anew();
        }
    }

    // Links the nodes again. It stays out of the way of a step.
    #[inline(never)]
    fn link_anew(&mut self)
        requires { IsStateTable self.old }
        ensures table { IsStateTable self.new }
        ensures linked { self.new.is_linked ≡ true }
        ensures members { HaveSame (held self.new) (held self.old) }
        ensures room { length self.new.nodes.items ≡ length self.old.nodes.items }
    {
        self.used = buckets_for(self.len);
        self.len = relink(
            self.nodes.as_mut_slice(),
            self.heads.as_mut_slice(),
            self.used as usize,
            self.len as usize,
        ) as u16;
        self.is_linked = true;
    }
}
