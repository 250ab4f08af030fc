//! The diagram of a set of states.

ghost use Rattle.std.specs.Prelude.{◌≡◌, ◌≤◌, ◌↔◌, ℕ, List, IsTrue, IfOk, IfSome, None, length};
ghost use Rattle.psi_state.specs.State.{AreCapacities, IsBelow};
ghost use Rattle.psi_state.specs.Members.{In};
ghost use Rattle.psi_state.specs.Sets.{image, single};
ghost use Rattle.psi_kinds.specs.Moves.{moved, IsMove};
ghost use Rattle.psi_closed.specs.Closed.{IsOfTotal, total_states, arc_hull, arc_count};
ghost use Rattle.psi_closed.specs.Diagram.{IsTotal};

use crate::OutOfMemory;
use crate::arcs::{is_walk, only_state, put_all, put_states};
use psi_closed_arcs::{Arcs, Reach};
use psi_kinds::Move;
use psi_state::State;
use std::alloc::Global;
use std::marker::Model;

/// A set of states that hold the same number of customers, by its arcs: those of a state are, for each queue, the
/// number of customers before it and its own. A state is held exactly where each of its arcs is there.
///
/// It is seen as the capacities, the number of customers and the list of the held states. At least one is held, and
/// each arc is one of a held state. `reserve` alone allocates.
#[derive(Drop)]
pub struct Diagram {
    caps: State,
    // The arcs of the held states.
    held: Arcs,
    reach: Reach,
}

impl Model for Diagram {
    ghost use Rattle.psi_closed.specs.Closed.{held_states};
    ghost use Rattle.psi_closed.specs.Diagram.{Shown, IsDiagram};

    ghost Value = { Shown };

    ghost view = { λ d. record { caps = d.caps; total = d.held.total; states = held_states d.caps d.held.total d.held.arcs } };

    ghost invariant = { λ d. IsDiagram d.caps d.held };
}

impl Diagram {
    /// The diagram of all states of these capacities that hold `total` customers, 0 to 256 and no more than the
    /// queues have room for. It takes the room for the arcs of any such states.
    ///
    /// `OutOfMemory` is the answer where there is no memory for it; no clause says when that is.
    pub fn reserve(alloc: Global, caps: State, total: u16) -> Result<Diagram, OutOfMemory>
        requires valid { AreCapacities caps }
        requires fits { IsTotal caps total }
        ensures { IfOk result (λ diagram. diagram ≡ record { caps = caps; total = total; states = total_states caps total }) }
    {
        let levels = caps.len();
        let mut held = Arcs::reserve(alloc, levels, total)?;
        let mut reach = Reach::reserve(alloc)?;
        put_all(&mut held, &mut reach, &caps);
        Ok(Diagram { caps, held, reach })
    }

    /// The capacities of the network, in customers.
    pub(crate) fn caps(&self) -> State
        ensures { result ≡ self.now.caps }
    {
        self.caps
    }

    /// Holds all states of the total.
    pub fn start(&mut self)
        ensures { self.new ≡ record self.old { states = total_states self.old.caps self.old.total } }
    {
        put_all(&mut self.held, &mut self.reach, &self.caps);
    }

    /// Holds the arc hull of these states: the states of the total each of whose arcs is an arc of one of them. At
    /// least one is given, each within the capacities and with the number of customers.
    pub fn fit(&mut self, states: &[State])
        requires some { 1 ≤ length states.now }
        requires each { (x : List ℕ) → In x states.now → IsOfTotal self.old.caps self.old.total x }
        ensures { self.new ≡ record self.old { states = arc_hull self.old.caps self.old.total states.now } }
    {
        self.held.clear();
        put_states(&mut self.held, states);
    }

    /// Makes a move: holds the arc hull of what the move makes of the held states. The move's queues are two of the
    /// network, and it wants from 1 to its source's capacity of customers there.
    ///
    /// The arcs of the states that the move changes are shifted by it; those of the states whose source holds too
    /// few and of those whose target is full stay.
    pub fn advance(&mut self, m: &Move)
        requires { IsMove self.old.caps m.now }
        ensures { self.new ≡ record self.old { states = arc_hull self.old.caps self.old.total (image (moved self.old.caps m.now) self.old.states) } }
    {
        let room = self.caps.get(m.to);
        self.held.step(m.from, m.k, m.to, room, &mut self.reach);
    }

    /// Whether the state is held. It is within the capacities; one with another number of customers isn't held.
    pub fn holds(&self, x: &State) -> bool
        requires { IsBelow x.now self.now.caps }
        ensures { IsTrue result ↔ In x.now self.now.states }
    {
        is_walk(&self.held, x)
    }

    /// The number of different arcs of the held states.
    pub fn arcs(&self) -> u32
        ensures { result ≡ arc_count self.now.states }
    {
        self.held.len()
    }

    /// The held state, where it is one; `None` exactly where there are more. It is within the capacities and has the
    /// number of customers.
    pub fn single(&self) -> Option<State>
        ensures value { result ≡ single self.now.states }
        ensures more { result ≡ None → 2 ≤ length self.now.states }
        ensures within { IfSome result (λ s. IsOfTotal self.now.caps self.now.total s) }
    {
        only_state(&self.held, &self.caps)
    }
}
