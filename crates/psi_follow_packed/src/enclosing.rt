//! The tight box around what an event of single customers makes of a box, worked out on the packed corners
//! (Bušić, Gaujal and Vincent 2008).

ghost use Rattle.std.specs.Prelude.{◌≡◌, ◌↔◌, ◌<◌, length, slice_index, slice_index_or, IsTrue, IfSome};
ghost use Rattle.psi_event.specs.Law.{Function};
ghost use Rattle.psi_event.specs.declared.sides.Side.TheVariants.{Any};
ghost use Rattle.psi_event.specs.Piecewise.{IsPiecewise};
ghost use Rattle.psi_follow_packed.specs.Packed.{Packing};
ghost use Rattle.psi_follow_packed.specs.Views.{low_words, high_words};
ghost use Rattle.psi_follow_packed.specs.UnitEvents.{IsUnitAt, IsUnit, IsUnitFor, Encloses, unit_masks};

use crate::bits::alone;
use crate::moves::difference;
use crate::pairs::PackedPair;
use crate::program::MaskProgram;
use crate::unit_events::UnitEvent;
use psi_event::{Piecewise, PiecewiseLaw, Side};
use psi_state::State;

impl<const K: usize> MaskProgram<K> {
    /// Returns the event on packed corners, where it is one of single customers and declares its pieces.
    pub fn unit_event<E: PiecewiseLaw>(&self, event: &E) -> Option<UnitEvent<K>>
        requires { E.capacities event.now ≡ self.now.packing.caps }
        ensures { IfSome result (λ unit. IsUnitFor K self.now.packing (E.function event.now) (unit_masks unit)) }
    {
        let pieces = event.piecewise()?;
        if !is_unit(&pieces, &self.layout.caps()) {
            return None;
        }
        Some(UnitEvent {
            offsets: self.layout.offsets(&pieces.bounds),
            ups: self.layout.pack(&pieces.first.ups),
            downs: self.layout.pack(&pieces.first.downs),
            shift: self.layout.bits() - 1,
        })
    }
}

impl<const K: usize> UnitEvent<K> {
    /// Replaces the corners of a box by those of the tight box around what the event makes of it: nothing
    /// changes where it happens in no state of the box, and a queue may keep its number where another one stops the event.
    #[inline]
    pub fn enclose(&self, x: &mut PackedPair<K>)
        ensures { (p : Packing) (f : Function) → IsUnitFor K p f (unit_masks self.now) → Encloses K p f (low_words x.old) (high_words x.old) (low_words x.new) (high_words x.new) }
    {
        let low = x.low();
        let high = x.high();
        if self.misses(
            &self.up_in(&low, &self.ups),
            &self.up_in(&high, &self.downs),
        ) {
            return;
        }
        let full = self.up_in(&high, &self.ups);
        let busy = self.up_in(&low, &self.downs);
        let alone = alone(&full.plus(&difference(&self.downs, &busy)));
        let kept = full.plus(&self.downs.and(&alone));
        let low_after = difference(&low.plus(&self.ups.and(&alone)), &busy);
        let high_after = difference(&high.plus(&self.ups), &kept);
        *x = PackedPair::of(&low_after, &high_after);
    }
}

// Whether the pieces are those of an event of single customers.
fn is_unit(pieces: &Piecewise, caps: &State) -> bool
    requires { IsPiecewise caps.now pieces.now }
    ensures { IsTrue result ↔ IsUnit caps.now pieces.now }
{
    for queue in 0..caps.len() {
        if !is_unit_at(pieces, caps, queue) {
            return false;
        }
    }
    true
}

// Whether they are so for this queue.
fn is_unit_at(pieces: &Piecewise, caps: &State, queue: u8) -> bool
    requires pieces { IsPiecewise caps.now pieces.now }
    requires queue { queue < length caps.now }
    ensures { IsTrue result ↔ (IsUnitAt (slice_index_or pieces.now.first.sides queue Any) (slice_index pieces.now.bounds queue) (slice_index caps.now queue) (slice_index pieces.now.first.ups queue) (slice_index pieces.now.first.downs queue)
        × ((slice_index pieces.now.second.ups queue ≡ 0) × (slice_index pieces.now.second.downs queue ≡ 0))) }
{
    let bound = pieces.bounds.get(queue);
    let up = pieces.first.ups.get(queue);
    let down = pieces.first.downs.get(queue);
    let fits = match pieces.first.sides.get(queue) {
        Side::Any => up == 0 && down == 0,
        Side::AtLeast => bound == 1 && up == 0 && down == 1,
        Side::Below => bound == caps.get(queue) && up == 1 && down == 0,
    };
    fits && pieces.second.ups.get(queue) == 0 && pieces.second.downs.get(queue) == 0
}
