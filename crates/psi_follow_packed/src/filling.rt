//! The states of a box, packed one after another.
//!
//! Where one queue has a customer more, the words are those of before and a constant. So the states
//! that differ in the last queues alone stand first, and for each queue before these what stands
//! there is repeated with the queue's constant added.

ghost use Rattle.std.specs.Prelude.{◌≡◌, ◌-◌, ◌+◌, ◌*◌, ◌<◌, ◌≤◌, suc, length, map, take, replicate, slice_index, slice_set};
ghost use Rattle.psi_state.specs.State.{IsBelow, box};
ghost use Rattle.psi_follow_packed.specs.Packed.{packed};
ghost use Rattle.psi_follow_packed.specs.Inner.FillingKept.{AreSums, AreBehind, AreRepeated};

use crate::layout::Packed;
use crate::program::MaskProgram;
use psi_state::{Bounds, State};

impl<const K: usize> MaskProgram<K> {
    /// Packs the states of the box, one after another in lexicographic order, and returns how many
    /// there are, 1 or more. They are within the capacities.
    pub fn pack_box(&self, bounds: &Bounds, out: &mut [Packed<K>]) -> usize
        requires room { length (box bounds.now.lo bounds.now.hi) ≤ length out.old }
        requires within { IsBelow bounds.now.hi self.now.packing.caps }
        ensures words { map (λ (x : Packed K). x.words) (take result out.new) ≡ map (packed K self.now.packing) (box bounds.now.lo bounds.now.hi) }
        ensures count { result ≡ length (box bounds.now.lo bounds.now.hi) }
        ensures some { 1 ≤ result }
        ensures room { length out.new ≡ length out.old }
    {
        out[0] = self.pack_one(&bounds.lo());
        let mut count = 1;
        for queue in (0..bounds.len()).rev() {
            count = self.spread(bounds, queue, count, out);
        }
        count
    }

    // Behind the states that have this queue's least number, puts them again for each number more of
    // it. Returns how many there are then.
    fn spread(&self, bounds: &Bounds, queue: u8, count: usize, out: &mut [Packed<K>]) -> usize
        requires queue { queue < length bounds.now.lo }
        requires within { IsBelow bounds.now.hi self.now.packing.caps }
        requires behind { AreBehind self.now.packing bounds.now.lo bounds.now.hi (suc queue) count out.old }
        requires room { (suc (slice_index bounds.now.hi queue) - slice_index bounds.now.lo queue) * count ≤ length out.old }
        ensures behind { AreBehind self.now.packing bounds.now.lo bounds.now.hi queue result out.new }
        ensures room { length out.new ≡ length out.old }
    {
        // Looked at for what it keeps: the capacities leave the guards free.
        let _ = &self.layout;
        let queues = bounds.len();
        let more = bounds.greatest(queue) - bounds.least(queue);
        if more == 0 {
            return count;
        }
        let one = self.pack_one(&one_customer(queues, queue));
        let whole = (more as usize + 1) * count;
        repeat_with(&one, count, whole, out);
        whole
    }
}

impl<const K: usize> Packed<K> {
    // The sums of the words, modulo 2^64.
    #[inline]
    pub(crate) fn plus(&self, other: &Packed<K>) -> Packed<K>
        ensures { AreSums K self.now.words other.now.words result.words }
    {
        let mut words = [0; K];
        for at in 0..K {
            words[at] = self.words[at].wrapping_add(other.words[at]);
        }
        Packed { words }
    }
}

// Fills the places after the first `count` packed states, up to `whole` in all, with what stands
// `count` places before each, and this added.
#[inline(never)]
fn repeat_with<const K: usize>(added: &Packed<K>, count: usize, whole: usize, out: &mut [Packed<K>])
    requires some { 1 ≤ count }
    requires room { whole ≤ length out.old }
    ensures first { take count out.new ≡ take count out.old }
    ensures repeated { AreRepeated added.now.words count whole out.new }
    ensures room { length out.new ≡ length out.old }
{
    for at in count..whole {
        out[at] = out[at - count].plus(added);
    }
}

// One customer in this queue, and none in the others.
fn one_customer(queues: u8, queue: u8) -> State
    requires few { queues ≤ 32 }
    requires queue { queue < queues }
    ensures { result ≡ slice_set (replicate queues 0) queue 1 }
{
    let mut x = State::zero(queues);
    x.set(queue, 1);
    x
}
