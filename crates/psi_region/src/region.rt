//! A region that is followed step by step.

ghost use Rattle.std.specs.Prelude.{◌≡◌, ℕ, ◌≤◌, ⊤, true, None, [], ◌∷◌, List, length, IfOk, IfSome};
ghost use Rattle.std.specs.Borrow.{sem, follows_so};
ghost use mathlib.Core.Option.{none};
ghost use Rattle.psi_state.specs.Members.{In};
ghost use Rattle.psi_state.specs.State.{IsBelow, box};
ghost use Rattle.psi_state.specs.Sets.{single};
ghost use Rattle.psi_state.specs.Ascending.{IsRising};
ghost use Rattle.psi_region.specs.Region.{start, settled, step, ShowsBox};
ghost use Rattle.psi_region.specs.contracts.region.Region.{the_row};

use crate::OutOfMemory;
use crate::follower::one_of;
use psi_event::EventLaw;
use psi_pool::Pool;
use psi_state::{Bounds, State};
use std::alloc::Global;
use std::marker::Model;

/// A set of states that is followed through the events of a run: a box at first, and a list of states once
/// it is split.
///
/// It is seen as its split number, whether it is split, and the ascending list of its states, of which
/// there is at least one. Only `reserve` allocates.
#[derive(Drop)]
pub struct Region {
    split: u16,
    is_split: bool,
    // The states while it isn't split.
    bounds: Bounds,
    // The states once it is split, and none before.
    pool: Pool,
}

impl Model for Region {
    ghost use Rattle.psi_region.specs.Region.{Regional};
    ghost use Rattle.psi_region.specs.Inner.RegionKept.{area_of, IsHeld};

    ghost Value = { Regional };

    ghost view = { λ r. record { split = r.split; area = area_of r.is_split r.bounds r.pool.states } };

    ghost invariant = { λ r. IsHeld r.split r.is_split r.bounds r.pool };
}

impl Region {
    /// Allocates room for a region that is split as soon as it has at most `split` states, 1 to 4,096. It is
    /// the box of one queue with capacity 1, unsplit.
    ///
    /// Returns `OutOfMemory` if an allocation fails; no clause says when that is.
    pub fn reserve(alloc: Global, split: u16) -> Result<Region, OutOfMemory>
        requires some { 1 ≤ split }
        requires few { split ≤ 4096 }
        ensures { IfOk result (λ region. region ≡ record { split = split; area = start (1 ∷ []) }) }
    {
        let pool = Pool::reserve(alloc, split)?;
        let mut one = State::zero(1);
        one.set(0, 1);
        Ok(Region {
            split,
            is_split: false,
            bounds: Bounds::whole(&one),
            pool,
        })
    }

    /// Makes the region the box of all states of the capacities `caps`, unsplit.
    pub fn start(&mut self, caps: &State)
        ensures area { self.new.area ≡ start caps.now }
        ensures split { self.new.split ≡ self.old.split }
    {
        if self.is_split {
            self.pool.clear();
            self.is_split = false;
        }
        self.bounds = Bounds::whole(caps);
    }

    /// Follows the region through one event, within whose capacities all its states are.
    ///
    /// First a region of at most the split number of states becomes split, keeping its states. Then a split
    /// region becomes the set of what the event makes of each of its states, and an unsplit one the
    /// envelope of its box. A split region is never made a box again.
    pub fn advance<E: EventLaw>(&mut self, e: &E)
        requires { (x : List ℕ) → In x self.old.area.states → IsBelow x (E.capacities e.now) }
        ensures area { self.new.area ≡ step self.old.split (E.function e.now) self.old.area }
        ensures split { self.new.split ≡ self.old.split }
    {
        self.settle();
        if self.is_split {
            self.pool.step(e);
        } else {
            e.envelope(&mut self.bounds);
        }
    }

    /// Follows the region through a step in which nothing happens: a region of at most the split number of
    /// states becomes split, and its states stay.
    pub fn rest(&mut self)
        ensures area { self.new.area ≡ step self.old.split (λ (x : List ℕ). x) self.old.area }
        ensures split { self.new.split ≡ self.old.split }
    {
        // Nothing else happens.
        self.settle();
    }

    /// Returns the state of the region where it has exactly one, and `None` exactly where it has more.
    pub fn single(&self) -> Option<State>
        ensures value { result ≡ single self.now.area.states }
        ensures more { result ≡ None → 2 ≤ length self.now.area.states }
    {
        if self.is_split {
            return self.pool.only();
        }
        one_of(self.bounds.lo(), self.bounds.hi())
    }

    /// Returns the box, exactly where the region isn't split.
    pub fn bounds(&self) -> Option<Bounds>
        ensures shown { ShowsBox self.now.area result }
        ensures ordered { IfSome result (λ b. IsBelow b.lo b.hi) }
    {
        if self.is_split {
            return None;
        }
        Some(self.bounds)
    }

    /// Returns the states of a split region in ascending, that is lexicographic, order: at least one, and at most
    /// the split number. The region stays as it was.
    pub fn states(&mut self) -> &[State]
        requires { self.old.area.is_split ≡ true }
        ensures states { result.now ≡ self.old.area.states }
        ensures rising { IsRising result.now }
        ensures some { 1 ≤ length result.now }
        ensures few { length result.now ≤ self.old.split }
        ensures* same { sem 𝓛 (follows_so the_row the_row self.entry.ghost_name none (λ _ _. ⊤) (λ v. v ≡ self.old)) }
    {
        // Called for its clause: the set has room for its states.
        let _room = self.pool.most();
        self.pool.walk()
    }

    // A region of at most the split number of states becomes split, keeping its states.
    #[inline]
    fn settle(&mut self)
        ensures area { self.new.area ≡ settled self.old.split self.old.area }
        ensures rested { settled self.old.split self.old.area ≡ step self.old.split (λ (x : List ℕ). x) self.old.area }
        ensures split { self.new.split ≡ self.old.split }
    {
        if !self.is_split && self.bounds.volume_at_most(u32::from(self.split)).is_some() {
            fill(&self.bounds, &mut self.pool);
            self.is_split = true;
        }
    }
}

// Puts the states of the box into the set, which holds none. It is done once a run at most, so it stays out of
// the step's way.
#[inline(never)]
fn fill(bounds: &Bounds, pool: &mut Pool)
    requires empty { pool.old.states ≡ [] }
    requires room { length (box bounds.now.lo bounds.now.hi) ≤ pool.old.most }
    ensures states { pool.new.states ≡ box bounds.now.lo bounds.now.hi }
    ensures most { pool.new.most ≡ pool.old.most }
{
    for x in bounds.states() {
        pool.add(x);
    }
}
