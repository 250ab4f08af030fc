//! The set of states.

ghost use Rattle.std.specs.Prelude.{◌≡◌, ◌<◌, ◌≤◌, ◌↔◌, ◌⊎◌, ℕ, List, [], IsTrue, IfOk, length, vec_capacity};
ghost use Rattle.std.specs.Prelude.{⊤};
ghost use Rattle.std.specs.Borrow.{sem, follows_so};
ghost use mathlib.Core.Option.{none};
ghost use Rattle.psi_state.specs.State.{IsBelow};
ghost use Rattle.psi_state.specs.Members.{In};
ghost use Rattle.psi_state.specs.Sets.{insert_state, ascending, image, single};
ghost use Rattle.psi_state.specs.Ascending.{IsRising, HaveSame};
ghost use Rattle.psi_pool.specs.Inner.StateTablesKept.{held, IsStateTable};
ghost use Rattle.psi_pool.specs.Paced.{counts_of, begun, IsPace, CountsStep};
ghost use Rattle.psi_pool.specs.contracts.pool.Pool.{the_row};

use crate::OutOfMemory;
use crate::nodes::one_state;
use crate::pace::Pace;
use crate::state_table::StateTable;
use psi_event::EventLaw;
use psi_state::State;
use std::alloc::Global;
use std::marker::Model;

// After how many merges of its nodes a set that isn't in order yet is sorted.
const MERGES: u8 = 3;

/// A set of at most `most` states, seen as the lexicographically ascending list of them, and the count of the steps
/// after which nodes are given back.
///
/// `reserve` allocates all its memory: one vector of nodes, linked by index, the heads of the buckets, and
/// room for the list of the states. No other call allocates. The work of a step grows with the number of
/// states, not with the room for them: it moves each on. States that became one may stand in several nodes until
/// the next links, which come after 4 to 1,024 steps: these pass over four buckets for each state, and look for
/// each among those of its bucket. Where all steps of the count are left, each state stands in one node. The hash is fixed, so a network can be made whose states share one bucket,
/// and then the work of the links grows with the square of their number.
#[derive(Drop)]
pub struct Pool {
    table: StateTable,
    pace: Pace,
    most: u16,
    order: Vec<State>,
}

impl Model for Pool {
    ghost use Rattle.std.specs.Prelude.{vec_capacity};
    ghost use Rattle.psi_state.specs.Sets.{ascending};
    ghost use Rattle.psi_pool.specs.Inner.StateTablesKept.{held, IsPool};
    ghost use Rattle.psi_pool.specs.Pooled.{Pooled};

    ghost Value = { Pooled };

    ghost view = { λ p. record { most = p.most; states = ascending (held p.table); pace = p.pace } };

    ghost invariant = { λ p. IsPool p.table p.most (vec_capacity p.order) p.pace };
}

impl Pool {
    /// Returns the empty set, with room for `most` states: 1 to 4,096.
    ///
    /// Returns `OutOfMemory` if an allocation fails; no clause says when that is.
    pub fn reserve(alloc: Global, most: u16) -> Result<Pool, OutOfMemory>
        requires least { 1 ≤ most }
        requires most { most ≤ 4096 }
        ensures { IfOk result (λ pool. pool ≡ record { most = most; states = []; pace = counts_of 4 }) }
    {
        let table = StateTable::reserve(alloc, most)?;
        let order = Vec::with_capacity(alloc, most as usize)?;
        Ok(Pool {
            table,
            pace: Pace::start(),
            most,
            order,
        })
    }

    /// Returns the number of states.
    ///
    /// The work may grow with the square of their number where another call than `contains` or `most` came after the
    /// last `insert`. Its other clauses are those of `most`.
    pub fn len(&self) -> u16
        ensures value { result ≡ length self.now.states }
        ensures few { length self.now.states ≤ self.now.most }
        ensures rising { IsRising self.now.states }
    {
        self.table.count()
    }

    /// Returns the number of states that there is room for.
    ///
    /// Its other clauses are how a caller learns what every `Pool` keeps: there are no more states than
    /// there is room for, and their list is ascending without repeats.
    pub fn most(&self) -> u16
        ensures value { result ≡ self.now.most }
        ensures few { length self.now.states ≤ self.now.most }
        ensures rising { IsRising self.now.states }
    {
        self.most
    }

    /// Takes all states out; the room stays.
    pub fn clear(&mut self)
        ensures { self.new ≡ record { most = self.old.most; states = []; pace = counts_of 4 } }
    {
        self.table.clear();
        self.pace = Pace::start();
    }

    /// Returns whether `x` is in the set.
    pub fn contains(&self, x: &State) -> bool
        ensures { IsTrue result ↔ In x.now self.now.states }
    {
        self.table.has(x)
    }

    /// Puts `x` into the set, and returns whether it was not there. There has to be room for it, or it is
    /// there already.
    pub fn insert(&mut self, x: State) -> bool
        requires room { (length self.old.states < self.old.most) ⊎ In x self.old.states }
        ensures states { self.new.states ≡ insert_state x self.old.states }
        ensures most { self.new.most ≡ self.old.most }
        ensures fresh { IsTrue result ↔ (In x self.old.states → ⊥) }
        ensures pace { self.new.pace ≡ self.old.pace }
    {
        self.table.link();
        self.table.put(x)
    }

    /// Puts `x` into the set, whether it was there or not: cheaper than `insert`, which returns which. There has to be
    /// space for a state more.
    #[inline]
    pub fn add(&mut self, x: State)
        requires room { length self.old.states < self.old.most }
        ensures states { self.new.states ≡ insert_state x self.old.states }
        ensures most { self.new.most ≡ self.old.most }
        ensures pace { self.new.pace ≡ begun self.old.pace }
    {
        self.table.push(x);
        self.pace.begin();
    }

    /// Moves each state on by the event: the set becomes its image. States that the event makes one are
    /// one from then on. All states have to be within the event's capacities.
    ///
    /// The step is counted. Once no step of the count is left, it gives back the nodes of states that became one, and
    /// the count begins again with 4 to 1,024 steps.
    pub fn step<E: EventLaw>(&mut self, e: &E)
        requires below { (x : List ℕ) → In x self.old.states → IsBelow x (E.capacities e.now) }
        ensures states { self.new.states ≡ image (E.function e.now) self.old.states }
        ensures most { self.new.most ≡ self.old.most }
        ensures pace { CountsStep self.old.pace self.new.pace }
    {
        self.table.move_on(e);
        link_when_due(&mut self.table, &mut self.pace);
    }

    /// Returns the states in ascending order. The set stays as it is.
    pub fn walk(&mut self) -> &[State]
        ensures states { result.now ≡ self.old.states }
        ensures* same { sem 𝓛 (follows_so the_row the_row self.entry.ghost_name none (λ _ _. ⊤) (λ v. v ≡ self.old)) }
    {
        list_all(&mut self.table, &mut self.order);
        self.order.as_slice()
    }

    /// Returns the state of a set that has one, and `None` where it has none or several.
    pub fn only(&self) -> Option<State>
        ensures { result ≡ single self.now.states }
    {
        one_state(&self.table.nodes[..self.table.len as usize])
    }
}

// Lists the states in ascending order, and puts the nodes into it. Where they were in it before a step by an event that
// moves some states alike and leaves the others, they are two ascending lists then, one among the other, and one merge
// does. They are sorted where some merges don't do.
fn list_all(table: &mut StateTable, order: &mut Vec<State>)
    requires table { IsStateTable table.old }
    requires listed { length table.old.nodes.items ≤ vec_capacity order.old }
    ensures states { order.new.items ≡ ascending (held table.old) }
    ensures capacity { vec_capacity order.new ≡ vec_capacity order.old }
    ensures table { IsStateTable table.new }
    ensures members { HaveSame (held table.new) (held table.old) }
    ensures room { length table.new.nodes.items ≡ length table.old.nodes.items }
    ensures count { table.new.len ≡ length order.new.items }
{
    for _merge in 0..MERGES {
        if table.list(order) {
            return;
        }
    }
    table.sort(order);
}

// Links the nodes again when it is time to: from then on each state stands in one of them.
fn link_when_due(table: &mut StateTable, pace: &mut Pace)
    requires table { IsStateTable table.old }
    requires pace { IsPace pace.old }
    ensures table { IsStateTable table.new }
    ensures members { HaveSame (held table.new) (held table.old) }
    ensures room { length table.new.nodes.items ≡ length table.old.nodes.items }
    ensures counted { CountsStep pace.old pace.new }
    ensures pace { IsPace pace.new }
    ensures once { pace.new.left ≡ pace.new.every → table.new.len ≡ length (ascending (held table.new)) }
{
    if pace.is_due() {
        let before = table.len;
        table.link();
        pace.adapt(before, table.len);
    }
}
