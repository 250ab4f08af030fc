//! The table of a map of all states.

ghost use Rattle.std.specs.Prelude.{◌≡◌, ◌≤◌, ℕ, List, length, IfOk, IfErr, IfSome, OnOk};
ghost use Rattle.psi_state.specs.State.{IsBelow, all_states};
ghost use Rattle.psi_state.specs.Sets.{image, single};

use crate::learned::LearnedImages;
use crate::rank_table::RankTable;
use psi_event::EventLaw;
use psi_state::{Bounds, State};
use std::alloc::{AllocError, Global};
use std::marker::Model;

/// The greatest number of states of a table.
pub const MOST_STATES: u32 = 65_536;

/// Why there is no table.
#[derive(Clone, Copy, PartialEq, Eq, Debug)]
pub enum MapRefusal {
    /// There are more than 65,536 states.
    TooManyStates,
    /// An allocation for the table failed.
    OutOfMemory,
}

impl From<AllocError> for MapRefusal {
    ghost use Rattle.psi_exact.specs.declared.map_table.MapRefusal.TheVariants.{OutOfMemory};

    ghost from_gives = { λ _ refusal. refusal ≡ OutOfMemory };

    fn from(_error: AllocError) -> MapRefusal {
        MapRefusal::OutOfMemory
    }
}

/// A map of all states within given capacities: for each of them the state that it is sent to.
///
/// It is seen as the capacities and the map. It keeps the rank of each image, which is its place in the
/// lexicographic list of all states, and has room for what events make of all states. All its memory, 4.5
/// megabytes at most, is taken by `reserve`.
#[derive(Drop)]
pub struct MapTable {
    pub(crate) table: RankTable,
    pub(crate) images: LearnedImages,
}

impl Model for MapTable {
    ghost use Rattle.std.specs.Prelude.{length};
    ghost use Rattle.psi_state.specs.State.{all_states};
    ghost use Rattle.psi_exact.specs.Mapping.{Mapped};
    ghost use Rattle.psi_exact.specs.Inner.ImagesKept.{AreImages};

    ghost Value = { Mapped };

    ghost view = { λ t. t.table };

    ghost invariant = { λ t. AreImages (length (all_states t.table.caps)) t.images };
}

impl MapTable {
    ghost use Rattle.psi_exact.specs.Mapping.{map_of, sends, IsMapOf};
    ghost use Rattle.psi_exact.specs.Refusal.{IsMapRefusal};

    /// Returns the table of the map that sends each state to itself. No other call allocates.
    ///
    /// `TooManyStates` is the answer exactly where there are more than 65,536 states within these
    /// capacities, and `OutOfMemory` if an allocation fails; no clause says when that is.
    pub fn reserve(alloc: Global, caps: State) -> Result<MapTable, MapRefusal>
        ensures itself { IfOk result (λ table. table ≡ map_of caps (λ x. x)) }
        ensures every { IfOk result (λ table. IsMapOf table (λ x. x)) }
        ensures few { OnOk result (length (all_states caps) ≤ 65536) }
        ensures refused { IfErr result (λ refusal. IsMapRefusal refusal caps) }
    {
        let Some(states) = Bounds::whole(&caps).volume_at_most(MOST_STATES) else {
            return Err(MapRefusal::TooManyStates);
        };
        let table = RankTable::reserve(alloc, caps, states)?;
        let images = LearnedImages::reserve(alloc, states)?;
        Ok(MapTable { table, images })
    }

    /// Lets the map send each state to itself again.
    pub fn reset(&mut self)
        ensures itself { self.new ≡ map_of self.old.caps (λ x. x) }
        ensures every { IsMapOf self.new (λ x. x) }
    {
        self.table.reset();
    }

    /// Puts the event before the map: each state is sent to where the old map sends what the event makes
    /// of it. So the map of the last steps becomes that of one step more, where the event is that of the
    /// step before them.
    ///
    /// The event is one of the table's capacities. The last clause says what the map is on every state: where it
    /// was that of a function, it is that of the event with the function after it. So from the map that sends each
    /// state to itself, the events of the last T steps, the newest first, lead to their composition.
    pub fn older<E: EventLaw>(&mut self, e: &E)
        requires { E.capacities e.now ≡ self.old.caps }
        ensures map { self.new ≡ map_of self.old.caps (λ x. sends self.old (E.function e.now x)) }
        ensures every { (f : List ℕ → List ℕ) → IsMapOf self.old f → IsMapOf self.new (λ x. f (E.function e.now x)) }
    {
        self.table.older(e);
    }

    /// Returns the state that `x` is sent to, which is within the capacities as `x` has to be.
    pub fn at(&self, x: &State) -> State
        requires { IsBelow x.now self.now.caps }
        ensures value { result ≡ sends self.now x.now }
        ensures within { IsBelow result self.now.caps }
    {
        self.table.at(x)
    }

    /// Returns the number of different states that are sent to. The map stays.
    pub fn image_size(&mut self) -> u32
        ensures size { result ≡ length (image (sends self.old) (all_states self.old.caps)) }
        ensures same { self.new ≡ self.old }
    {
        self.table.image_size()
    }

    /// Returns the one state that all states are sent to, and `None` exactly where they are sent to two or more. It is
    /// within the capacities.
    pub fn constant(&self) -> Option<State>
        ensures value { result ≡ single (image (sends self.now) (all_states self.now.caps)) }
        ensures within { IfSome result (λ x. IsBelow x self.now.caps) }
    {
        self.table.constant()
    }
}
