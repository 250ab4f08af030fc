//! Events of pieces as masks on packed states.

ghost use Rattle.std.specs.Prelude.{◌≡◌, ◌<◌, ◌+◌, ◌-◌, ◌%◌, ◌^◌, ◌↔◌, ℕ, false, IsTrue, length, slice_index, nat_eq, bit_and, if◌then◌else◌};
ghost use Rattle.psi_follow_packed.specs.Views.{low_words, high_words, low_word, high_word, masks_by, moving_by};
ghost use Rattle.psi_event.specs.Piecewise.{IsPiece, IsPiecewise};
ghost use Rattle.psi_follow_packed.specs.Moves.{holds, same_words, AreMasksOf, IsMoveOf, IsMoved, IsLowered, IsOfFirst, ChangesNothing};
ghost use Rattle.psi_follow_packed.specs.Views.{pair_at};

use crate::layout::{Layout, Packed};
use crate::pairs::{PackedPair, Pair};
use psi_event::{Piece, Piecewise};

/// The masks of a piece, each twice: which guards are looked at, which of these are to be up, and what is added then.
#[derive(Clone, Copy)]
pub struct Masks<const K: usize> {
    pub(crate) guards: PackedPair<K>,
    pub(crate) wanted: PackedPair<K>,
    pub(crate) change: PackedPair<K>,
}

/// An event of pieces on two packed states: what is added to bring up the guards of the queues that are at their bounds or
/// above them, the same less the guards that the first piece wants up, and the masks of the two pieces. Each is there twice,
/// once for each state.
#[derive(Clone, Copy)]
pub struct PackedEvent<const K: usize> {
    pub(crate) offsets: PackedPair<K>,
    pub(crate) lowered: PackedPair<K>,
    pub(crate) first: Masks<K>,
    pub(crate) second: Masks<K>,
}

impl<const K: usize> Masks<K> {
    // The masks of a piece.
    fn of(layout: &Layout<K>, piece: &Piece) -> Masks<K>
        requires { IsPiece layout.now.caps piece.now }
        ensures masks { AreMasksOf K layout.now piece.now (masks_by low_word result) }
        ensures twice { masks_by high_word result ≡ masks_by low_word result }
    {
        let ups = layout.pack(&piece.ups);
        let downs = layout.pack(&piece.downs);
        Masks {
            guards: layout.guards(&piece.sides).twice(),
            wanted: layout.wanted(&piece.sides).twice(),
            change: difference(&ups, &downs).twice(),
        }
    }

    // Whether no state is changed by them.
    fn changes_nothing(&self) -> bool
        ensures { IsTrue result ↔ ChangesNothing K (masks_by low_word self.now) }
    {
        for at in 0..K {
            if self.change.pairs[at].low() != 0 {
                return false;
            }
        }
        true
    }

    // All bits one where, in this place, the guards that are looked at are up as they are to be, and none otherwise.
    #[inline]
    fn held_at(&self, at: usize, raised: Pair) -> Pair
        requires { at < K }
        ensures low { low_word result ≡ (if nat_eq (bit_and (low_word raised) (slice_index (low_words self.now.guards) at)) (slice_index (low_words self.now.wanted) at) then 2 ^ 64 - 1 else 0) }
        ensures high { high_word result ≡ (if nat_eq (bit_and (high_word raised) (slice_index (high_words self.now.guards) at)) (slice_index (high_words self.now.wanted) at) then 2 ^ 64 - 1 else 0) }
    {
        raised
            .and(self.guards.pairs[at])
            .ones_if_equal(self.wanted.pairs[at])
    }
}

impl<const K: usize> PackedEvent<K> {
    /// Returns the event of these pieces, on states that are packed so.
    pub fn of(layout: &Layout<K>, pieces: &Piecewise) -> PackedEvent<K>
        requires { IsPiecewise layout.now.caps pieces.now }
        ensures pieces { IsMoveOf K layout.now pieces.now (moving_by low_word result) }
        ensures twice { moving_by high_word result ≡ moving_by low_word result }
        ensures lowered { IsLowered K (moving_by low_word result) }
    {
        let offsets = layout.offsets(&pieces.bounds);
        let wanted = layout.wanted(&pieces.first.sides);
        PackedEvent {
            offsets: offsets.twice(),
            lowered: difference(&offsets, &wanted).twice(),
            first: Masks::of(layout, &pieces.first),
            second: Masks::of(layout, &pieces.second),
        }
    }

    /// Returns whether the second piece changes no state.
    pub fn is_of_one_piece(&self) -> bool
        ensures { IsTrue result ↔ ChangesNothing K (masks_by low_word self.now.second) }
    {
        self.second.changes_nothing()
    }

    /// Puts what the event makes of each of the two packed states in its place.
    #[inline]
    pub fn advance(&self, x: &mut PackedPair<K>)
        ensures low { IsMoved K (moving_by low_word self.now) (low_words x.old) (low_words x.new) }
        ensures high { IsMoved K (moving_by high_word self.now) (high_words x.old) (high_words x.new) }
    {
        self.advance_by::<true>(x);
    }

    /// Puts what the event makes of each of the two packed states in its place, where its second piece changes no state. Returns for
    /// each of them all bits one where some of its words changed, and none otherwise.
    #[inline]
    pub fn advance_first(&self, x: &mut PackedPair<K>) -> Pair
        requires low { IsOfFirst K (moving_by low_word self.now) }
        requires high { IsOfFirst K (moving_by high_word self.now) }
        ensures low { IsMoved K (moving_by low_word self.now) (low_words x.old) (low_words x.new) }
        ensures high { IsMoved K (moving_by high_word self.now) (high_words x.old) (high_words x.new) }
        ensures low_changed { low_word result ≡ (if same_words K (low_words x.new) (low_words x.old) then 0 else 2 ^ 64 - 1) }
        ensures high_changed { high_word result ≡ (if same_words K (high_words x.new) (high_words x.old) then 0 else 2 ^ 64 - 1) }
    {
        let before = *x;
        self.advance_by::<false>(x);
        x.apart(&before)
    }

    // The same, by both pieces or, where the second changes no state, by the first alone.
    #[inline]
    pub(crate) fn advance_by<const BOTH: bool>(&self, x: &mut PackedPair<K>)
        requires low { BOTH ≡ false → IsOfFirst K (moving_by low_word self.now) }
        requires high { BOTH ≡ false → IsOfFirst K (moving_by high_word self.now) }
        ensures low { IsMoved K (moving_by low_word self.now) (low_words x.old) (low_words x.new) }
        ensures high { IsMoved K (moving_by high_word self.now) (high_words x.old) (high_words x.new) }
    {
        let first = self.first_held::<BOTH>(x);
        let second = self.held(&self.second, x);
        for at in 0..K {
            x.pairs[at] = self.changed_at::<BOTH>(at, x.pairs[at], first, second);
        }
    }

    // All bits one where the first piece applies, and none otherwise.
    #[inline]
    fn first_held<const BOTH: bool>(&self, x: &PackedPair<K>) -> Pair
        requires low { BOTH ≡ false → IsOfFirst K (moving_by low_word self.now) }
        requires high { BOTH ≡ false → IsOfFirst K (moving_by high_word self.now) }
        ensures low { low_word result ≡ (if holds K (low_words self.now.offsets) (masks_by low_word self.now.first) (low_words x.now) then 2 ^ 64 - 1 else 0) }
        ensures high { high_word result ≡ (if holds K (high_words self.now.offsets) (masks_by high_word self.now.first) (high_words x.now) then 2 ^ 64 - 1 else 0) }
    {
        if BOTH {
            return self.held(&self.first, x);
        }
        self.none_up(x)
    }

    // All bits one where a piece of these masks applies, and none otherwise.
    #[inline]
    fn held(&self, masks: &Masks<K>, x: &PackedPair<K>) -> Pair
        ensures low { low_word result ≡ (if holds K (low_words self.now.offsets) (masks_by low_word masks.now) (low_words x.now) then 2 ^ 64 - 1 else 0) }
        ensures high { high_word result ≡ (if holds K (high_words self.now.offsets) (masks_by high_word masks.now) (high_words x.now) then 2 ^ 64 - 1 else 0) }
    {
        let mut held = Pair::twice(u64::MAX);
        for at in 0..K {
            let raised = x.pairs[at].plus(self.offsets.pairs[at]);
            held = held.and(masks.held_at(at, raised));
        }
        held
    }

    // As the one above, for the first piece, by the lowered offsets: with these none of the guards that it looks at is to be up, so one
    // comparison decides it for all words.
    #[inline]
    fn none_up(&self, x: &PackedPair<K>) -> Pair
        requires low { IsLowered K (moving_by low_word self.now) }
        requires high { IsLowered K (moving_by high_word self.now) }
        ensures low { low_word result ≡ (if holds K (low_words self.now.offsets) (masks_by low_word self.now.first) (low_words x.now) then 2 ^ 64 - 1 else 0) }
        ensures high { high_word result ≡ (if holds K (high_words self.now.offsets) (masks_by high_word self.now.first) (high_words x.now) then 2 ^ 64 - 1 else 0) }
    {
        let mut up = Pair::twice(0);
        for at in 0..K {
            let raised = x.pairs[at].plus(self.lowered.pairs[at]);
            up = up.or(raised.and(self.first.guards.pairs[at]));
        }
        up.ones_if_equal(Pair::twice(0))
    }

    // What the words in this place become by the masks of the pieces that apply, or by the first's alone.
    #[inline]
    fn changed_at<const BOTH: bool>(
        &self,
        at: usize,
        words: Pair,
        first: Pair,
        second: Pair,
    ) -> Pair
        requires place { at < K }
        requires low { BOTH ≡ false → slice_index (low_words self.now.second.change) at ≡ 0 }
        requires high { BOTH ≡ false → slice_index (high_words self.now.second.change) at ≡ 0 }
        ensures low { low_word result ≡ ((low_word words + bit_and (low_word first) (slice_index (low_words self.now.first.change) at)) % 2 ^ 64 + bit_and (low_word second) (slice_index (low_words self.now.second.change) at)) % 2 ^ 64 }
        ensures high { high_word result ≡ ((high_word words + bit_and (high_word first) (slice_index (high_words self.now.first.change) at)) % 2 ^ 64 + bit_and (high_word second) (slice_index (high_words self.now.second.change) at)) % 2 ^ 64 }
    {
        let changed = words.plus(first.and(self.first.change.pairs[at]));
        if BOTH {
            return changed.plus(second.and(self.second.change.pairs[at]));
        }
        changed
    }

    // Puts what the event makes of each packed state of the list in its place. The masks are copied first, so that they stay
    // in registers.
    #[inline(never)]
    pub(crate) fn advance_all<const BOTH: bool>(&self, list: &mut [PackedPair<K>])
        requires low { BOTH ≡ false → IsOfFirst K (moving_by low_word self.now) }
        requires high { BOTH ≡ false → IsOfFirst K (moving_by high_word self.now) }
        ensures count { length list.new ≡ length list.old }
        ensures low { (i : ℕ) → i < length list.old → IsMoved K (moving_by low_word self.now) (low_words (pair_at list.old i)) (low_words (pair_at list.new i)) }
        ensures high { (i : ℕ) → i < length list.old → IsMoved K (moving_by high_word self.now) (high_words (pair_at list.old i)) (high_words (pair_at list.new i)) }
    {
        let own = *self;
        for x in list.iter_mut() {
            own.advance_by::<BOTH>(x);
        }
    }
}

// What comes less what leaves, or offsets less guards, word by word.
pub(crate) fn difference<const K: usize>(ups: &Packed<K>, downs: &Packed<K>) -> Packed<K>
    ensures long { length result.words ≡ K }
    ensures each { (at : ℕ) → at < K → slice_index result.words at ≡ (slice_index ups.now.words at + (2 ^ 64 - slice_index downs.now.words at)) % 2 ^ 64 }
{
    let mut words = [0; K];
    for at in 0..K {
        words[at] = ups.words[at].wrapping_sub(downs.words[at]);
    }
    Packed { words }
}
