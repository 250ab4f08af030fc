//! Events that bring one customer to some queues and take one from others, all at once or not at all, as masks on packed
//! states.

ghost use Rattle.std.specs.Prelude.{◌≡◌, ◌↔◌, ◌+◌, ◌/◌, ◌%◌, ◌^◌, ◌<◌, ℕ, length, slice_index, bit_and, replicate, IsTrue};

use crate::layout::Packed;

/// An event that brings one customer to each queue of some and takes one from each of others where all of the first have
/// room and all of the others a customer, and else changes nothing: a fork, or a join.
///
/// It holds what brings up the guards of these queues that are full, or have a customer, and a one in the field of each
/// queue that gains a customer, and of each that loses one.
#[derive(Clone, Copy)]
pub struct UnitEvent<const K: usize> {
    pub(crate) offsets: Packed<K>,
    pub(crate) ups: Packed<K>,
    pub(crate) downs: Packed<K>,
    // The bits of a field below its guard.
    pub(crate) shift: u8,
    ghost few: { shift < 64 },
}

impl<const K: usize> UnitEvent<K> {
    // Which of the queues with a one in `units` have a number at their bound or above it.
    #[inline]
    pub(crate) fn up_in(&self, x: &Packed<K>, units: &Packed<K>) -> Packed<K>
        ensures long { length result.words ≡ K }
        ensures each { (w : ℕ) → w < K → slice_index result.words w ≡ bit_and ((slice_index x.now.words w + slice_index self.now.offsets.words w) % 2 ^ 64 / 2 ^ self.now.shift) (slice_index units.now.words w) }
    {
        let mut words = [0; K];
        for at in 0..K {
            let raised = x.words[at].wrapping_add(self.offsets.words[at]);
            words[at] = (raised >> self.shift) & units.words[at];
        }
        Packed { words }
    }

    // Whether a queue that is to gain a customer is full, or one that is to lose one has none.
    #[inline]
    pub(crate) fn misses(&self, full: &Packed<K>, busy: &Packed<K>) -> bool
        ensures { IsTrue result ↔ ((full.now.words ≡ replicate K 0) × (busy.now.words ≡ self.now.downs.words) → ⊥) }
    {
        !full.is(&Packed::zero()) || !busy.is(&self.downs)
    }
}

impl<const K: usize> Packed<K> {
    // The bits that are one in both.
    #[inline]
    pub(crate) fn and(&self, other: &Packed<K>) -> Packed<K>
        ensures { (w : ℕ) → w < K → slice_index result.words w ≡ bit_and (slice_index self.now.words w) (slice_index other.now.words w) }
    {
        let mut words = [0; K];
        for at in 0..K {
            words[at] = self.words[at] & other.words[at];
        }
        Packed { words }
    }
}
