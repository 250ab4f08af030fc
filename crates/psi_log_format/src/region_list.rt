//! The regions of a log, one after another.

ghost use Rattle.std.specs.Prelude.{◌≡◌, ◌∷◌, [], ◌++◌, ◌<◌, ◌≤◌, length, take, Some, IfOk, OnOk, OnErr};
ghost use Rattle.std.specs.List.{slice_get};
ghost use Rattle.psi_log_format.specs.Listed.{shown, HasWidth, placed_region, IsPlaced};

use crate::listed_region::BorrowedRegion;
use crate::room::make_room;
use crate::state_list::StateList;
use psi_state::Bounds;
use std::alloc::{AllocError, Global};
use std::marker::Model;

// A region by its place: a box in a list of boxes, or `count` states of a list, from the place `first` on.
#[derive(Clone, Copy, Debug)]
enum RegionPlace {
    Box { place: usize },
    Set { first: usize, count: usize },
}

/// A list of regions, whose states all have the same number of queues, 1 to 32; it is seen as the number of queues and
/// the regions. A region takes 24 bytes, and 132 more where it is a box, and another one than the last box before it,
/// or two for each number of its states; of each the list has room for up to an eighth more.
#[derive(Drop)]
pub struct RegionList {
    places: Vec<RegionPlace>,
    boxes: Vec<Bounds>,
    states: StateList,
}

impl Model for RegionList {
    ghost use Rattle.std.specs.Prelude.{map};
    ghost use Rattle.std.specs.List.{All};
    ghost use Rattle.psi_log_format.specs.Listed.{Regions, placed_region, IsPlaced};

    ghost Value = { Regions };

    ghost view = { λ l. record { queues = l.states.queues; regions = map (placed_region l.boxes.items l.states.states) l.places.items } };

    ghost invariant = { λ l. All (IsPlaced l.boxes.items l.states.states) l.places.items };
}

// The place of a box in a list, after which it is put where it isn't the last one.
#[tactic(auto, using(crate::proofs::RegionsLemmas::last_place, crate::proofs::RegionsLemmas::next_place))]
fn box_place(boxes: &mut Vec<Bounds>, bounds: &Bounds) -> Result<usize, AllocError>
    ensures front { take (length boxes.old.items) boxes.new.items ≡ boxes.old.items }
    ensures there { IfOk result (λ place. slice_get boxes.new.items place ≡ Some bounds.now) }
{
    let count = boxes.len();
    if count > 0 && boxes[count - 1] == *bounds {
        return Ok(count - 1);
    }
    make_room(boxes, 1)?;
    boxes.push_reserved(*bounds);
    Ok(count)
}

// The place of a region, whose box or states are put after those of the lists.
#[tactic(auto, using(crate::proofs::RegionsLemmas::box_there, crate::proofs::RegionsLemmas::box_placed, crate::proofs::RegionsLemmas::set_there, crate::proofs::RegionsLemmas::set_placed, crate::proofs::RegionsLemmas::front_kept))]
fn place_of(
    boxes: &mut Vec<Bounds>,
    states: &mut StateList,
    region: &BorrowedRegion<'_>,
) -> Result<RegionPlace, AllocError>
    requires { HasWidth states.old.queues region.now }
    ensures queues { states.new.queues ≡ states.old.queues }
    ensures boxes { take (length boxes.old.items) boxes.new.items ≡ boxes.old.items }
    ensures states { take (length states.old.states) states.new.states ≡ states.old.states }
    ensures region { IfOk result (λ place. placed_region boxes.new.items states.new.states place ≡ shown region.now) }
    ensures placed { IfOk result (λ place. IsPlaced boxes.new.items states.new.states place) }
{
    match region {
        BorrowedRegion::Box(bounds) => {
            let place = box_place(boxes, bounds)?;
            Ok(RegionPlace::Box { place })
        }
        BorrowedRegion::Set(rows) => {
            let first = states.len();
            states.push_states(rows)?;
            Ok(RegionPlace::Set {
                first,
                count: rows.len(),
            })
        }
    }
}

impl RegionList {
    /// Makes the empty list, for states of `queues` queues, 1 to 32. It does not allocate yet.
    pub fn new(alloc: Global, queues: u8) -> RegionList
        requires some { 1 ≤ queues }
        requires few { queues ≤ 32 }
        ensures { result ≡ record { queues = queues; regions = [] } }
    {
        RegionList {
            places: Vec::new(alloc),
            boxes: Vec::new(alloc),
            states: StateList::new(alloc, queues),
        }
    }

    /// Appends a region.
    ///
    /// # Errors
    ///
    /// `AllocError` if an allocation fails; no clause says when that is; the list is then as it was.
    pub fn push(&mut self, region: &BorrowedRegion<'_>) -> Result<(), AllocError>
        requires { HasWidth self.old.queues region.now }
        ensures queues { self.new.queues ≡ self.old.queues }
        ensures regions { OnOk result (self.new.regions ≡ self.old.regions ++ shown region.now ∷ []) }
        ensures kept { OnErr result (self.new.regions ≡ self.old.regions) }
    {
        let place = place_of(&mut self.boxes, &mut self.states, region)?;
        make_room(&mut self.places, 1)?;
        self.places.push_reserved(place);
        Ok(())
    }

    /// Returns the region at a place, counted from 0, borrowed. Nothing is copied.
    #[tactic(auto, using(crate::proofs::RegionsLemmas::region_there, crate::proofs::RegionsLemmas::is_there))]
    pub fn get(&self, i: usize) -> BorrowedRegion<'_>
        requires { i < length self.now.regions }
        ensures { slice_get self.entry.now.regions i ≡ Some (shown result) }
    {
        match self.places[i] {
            RegionPlace::Box { place } => BorrowedRegion::Box(&self.boxes[place]),
            RegionPlace::Set { first, count } => {
                BorrowedRegion::Set(self.states.all().part(first, count))
            }
        }
    }
}
