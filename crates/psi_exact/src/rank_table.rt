//! Maps of all states, kept as ranks.

ghost use Rattle.std.specs.Prelude.{◌≡◌, ◌<◌, ◌≤◌, ℕ, List, true, false, length, IfOk, IfSome};
ghost use Rattle.psi_event.specs.Law.{IsClosed};
ghost use Rattle.psi_state.specs.State.{IsBelow, all_states};
ghost use Rattle.psi_state.specs.Sets.{image, single};

use crate::images::write_images;
use crate::learned::LearnedImages;
use crate::ranks::{common, count_distinct, look_up_all, number, write_composed, zeroed};
use psi_event::EventLaw;
use psi_state::{Bounds, State};
use std::alloc::{AllocError, Global};
use std::marker::Model;

/// A map of all states within given capacities, kept as the rank of the state that each is sent to, with
/// room for as many ranks again.
#[derive(Drop)]
pub(crate) struct RankTable {
    caps: State,
    ranks: Vec<u16>,
    spare: Vec<u16>,
}

impl Model for RankTable {
    ghost use Rattle.psi_exact.specs.Mapping.{Mapped};
    ghost use Rattle.psi_exact.specs.Inner.RankTableKept.{table_of, IsRankTable};

    ghost Value = { Mapped };

    ghost view = { λ t. table_of t.caps t.ranks.items };

    ghost invariant = { λ t. IsRankTable t.caps t.ranks.items t.spare.items };
}

impl RankTable {
    ghost use Rattle.psi_exact.specs.Mapping.{map_of, sends};
    ghost use Rattle.psi_exact.specs.Ranks.{AreRanksOf};
    ghost use Rattle.psi_exact.specs.Inner.RankTableKept.{AreRanks};
    ghost use Rattle.psi_exact.specs.Inner.ImagesKept.{AreImages, IsSameImages, IsOneMore};

    /// Makes the table of the map that sends each of all states to itself; `states` is their number.
    pub(crate) fn reserve(alloc: Global, caps: State, states: u32) -> Result<RankTable, AllocError>
        requires all { states ≡ length (all_states caps) }
        requires few { states ≤ 65536 }
        ensures { IfOk result (λ table. table ≡ map_of caps (λ x. x)) }
    {
        let mut ranks = zeroed(alloc, states)?;
        let spare = zeroed(alloc, states)?;
        number(ranks.as_mut_slice());
        Ok(RankTable { caps, ranks, spare })
    }

    /// Lets the map send each state to itself again.
    pub(crate) fn reset(&mut self)
        ensures { self.new ≡ map_of self.old.caps (λ x. x) }
    {
        number(self.ranks.as_mut_slice());
    }

    /// Puts the event before the map: each state is sent to where the old map sends what the event makes of
    /// it.
    pub(crate) fn older<E: EventLaw>(&mut self, e: &E)
        requires { E.capacities e.now ≡ self.old.caps }
        ensures { self.new ≡ map_of self.old.caps (λ x. sends self.old (E.function e.now x)) }
    {
        write_composed(e, self.ranks.as_slice(), self.spare.as_mut_slice());
        std::mem::swap(&mut self.ranks, &mut self.spare);
    }

    /// Adds the ranks of what the event makes of each state to those of others, if there is room, and returns
    /// whether there was. The map stays.
    pub(crate) fn add_images<E: EventLaw>(&mut self, e: &E, images: &mut LearnedImages) -> bool
        requires same_caps { E.capacities e.now ≡ self.old.caps }
        requires valid { AreImages (length (all_states self.old.caps)) images.old }
        requires few { images.old.known < 1024 }
        ensures same { self.new ≡ self.old }
        ensures valid { AreImages (length (all_states self.old.caps)) images.new }
        ensures full { result ≡ false → IsSameImages images.old images.new }
        ensures learned { result ≡ true → IsOneMore self.old.caps (E.function e.now) images.old images.new }
    {
        write_images(e, self.spare.as_mut_slice());
        images.push(self.spare.as_slice())
    }

    /// Puts an event before the map, by the ranks of what it makes of each state.
    pub(crate) fn follow(&mut self, images: &[u16])
        requires { AreRanks self.old.caps images.now }
        ensures { (f : List ℕ → List ℕ) → IsClosed self.old.caps f → AreRanksOf self.old.caps f images.now
            → self.new ≡ map_of self.old.caps (λ x. sends self.old (f x)) }
    {
        look_up_all(self.ranks.as_slice(), images, self.spare.as_mut_slice());
        std::mem::swap(&mut self.ranks, &mut self.spare);
    }

    /// The state that `x` is sent to, which is within the capacities as `x` has to be.
    pub(crate) fn at(&self, x: &State) -> State
        requires { IsBelow x.now self.now.caps }
        ensures value { result ≡ sends self.now x.now }
        ensures within { IsBelow result self.now.caps }
    {
        let states = Bounds::whole(&self.caps);
        let rank = self.ranks[states.rank(x) as usize];
        states.unrank(rank as u32)
    }

    /// The number of different states that are sent to. The map stays.
    pub(crate) fn image_size(&mut self) -> u32
        ensures size { result ≡ length (image (sends self.old) (all_states self.old.caps)) }
        ensures same { self.new ≡ self.old }
    {
        count_distinct(self.ranks.as_slice(), self.spare.as_mut_slice())
    }

    /// The one state that all states are sent to, and `None` exactly where they are sent to two or more. It is within
    /// the capacities.
    pub(crate) fn constant(&self) -> Option<State>
        ensures value { result ≡ single (image (sends self.now) (all_states self.now.caps)) }
        ensures within { IfSome result (λ x. IsBelow x self.now.caps) }
    {
        let rank = common(self.ranks.as_slice())?;
        Some(Bounds::whole(&self.caps).unrank(rank as u32))
    }
}
