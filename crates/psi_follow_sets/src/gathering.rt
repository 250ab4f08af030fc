//! Packed states one after another, and packed states two side by side: a list of each kind stands for the set of its states.

ghost use Rattle.std.specs.Prelude.{◌≡◌, ◌+◌, ◌*◌, ◌/◌, ◌<◌, ◌≤◌, ◌∷◌, MatchOption, length, take, slice_index, EachIndex};
ghost use Rattle.psi_state.specs.Ascending.{HaveSame};
ghost use Rattle.psi_follow_sets.specs.Inner.HalvesKept.{halves, words_of_first, AreAll, AreTwo};

use psi_follow_packed::{Packed, PackedPair};

/// Puts the packed states of the pairs one after another, those that are seen to be there already left out. Returns how
/// many there are.
///
/// The place of a state is looked up in `seen` by its hash (Knuth, The Art of Computer Programming, volume 3, section 6.4).
/// What stands there may be of a former list, or of another state: then a repeat stays, and the set is the same.
#[inline(never)]
pub(crate) fn gather<const K: usize>(
    list: &[PackedPair<K>],
    seen: &mut [u16],
    shift: u8,
    out: &mut [Packed<K>],
) -> usize
    requires slots { 1 ≤ length seen.old }
    requires shift { shift < 64 }
    requires small { length out.old ≤ 4096 }
    requires room { 2 * length list.now ≤ length out.old }
    requires places { EachIndex seen.old (λ i. slice_index seen.old i < length out.old) }
    ensures members { HaveSame (words_of_first result out.new) (halves list.now) }
    ensures fewer { result ≤ 2 * length list.now }
    ensures room { length out.new ≡ length out.old }
    ensures slots { length seen.new ≡ length seen.old }
    ensures places { EachIndex seen.new (λ i. slice_index seen.new i < length out.new) }
{
    let mut count = 0;
    for pair in list {
        count = keep(&pair.low(), seen, shift, out, count);
        count = keep(&pair.high(), seen, shift, out, count);
    }
    count
}

// Puts the state after the first ones where it isn't seen to be one of them. Returns how many there are then.
#[inline]
fn keep<const K: usize>(
    x: &Packed<K>,
    seen: &mut [u16],
    shift: u8,
    out: &mut [Packed<K>],
    count: usize,
) -> usize
    requires slots { 1 ≤ length seen.old }
    requires shift { shift < 64 }
    requires small { length out.old ≤ 4096 }
    requires room { count < length out.old }
    requires places { EachIndex seen.old (λ i. slice_index seen.old i < length out.old) }
    ensures members { HaveSame (words_of_first result out.new) (x.now.words ∷ words_of_first count out.old) }
    ensures fewer { result ≤ count + 1 }
    ensures room { length out.new ≡ length out.old }
    ensures slots { length seen.new ≡ length seen.old }
    ensures places { EachIndex seen.new (λ i. slice_index seen.new i < length out.new) }
{
    let slot = (x.hash() >> shift) as usize & (seen.len() - 1);
    let place = seen[slot] as usize;
    let is_there = (place < count) & out[place].is(x);
    out[count] = *x;
    seen[slot] = if is_there { place } else { count } as u16;
    count + !is_there as usize
}

/// Puts packed states side by side, the last one twice where their number is odd. Returns how many pairs there are.
pub(crate) fn pair_up<const K: usize>(states: &[Packed<K>], list: &mut [PackedPair<K>]) -> usize
    requires room { length states.now ≤ 2 * length list.old }
    ensures members { HaveSame (halves (take result list.new)) (words_of_first (length states.now) states.now) }
    ensures count { result ≡ (length states.now + 1) / 2 }
    ensures room { length list.new ≡ length list.old }
{
    let whole = states.len() / 2;
    pair_whole(states, list);
    if 2 * whole == states.len() {
        return whole;
    }
    let last = &states[2 * whole];
    list[whole] = PackedPair::of(last, last);
    whole + 1
}

// Puts packed states side by side, but for the last one where their number is odd.
#[inline(never)]
fn pair_whole<const K: usize>(states: &[Packed<K>], list: &mut [PackedPair<K>])
    requires room { length states.now ≤ 2 * length list.old }
    ensures members { halves (take (length states.now / 2) list.new) ≡ words_of_first (2 * (length states.now / 2)) states.now }
    ensures room { length list.new ≡ length list.old }
{
    for at in 0..states.len() / 2 {
        list[at] = PackedPair::of(&states[2 * at], &states[2 * at + 1]);
    }
}

/// The packed state that all are, where all are one.
pub(crate) fn only<const K: usize>(list: &[PackedPair<K>]) -> Option<Packed<K>>
    requires { 1 ≤ length list.now }
    ensures { MatchOption result (AreTwo (halves list.now)) (λ x. AreAll x.words (halves list.now)) }
{
    let first = list[0].low();
    for pair in list {
        if !(pair.low().is(&first) & pair.high().is(&first)) {
            return None;
        }
    }
    Some(first)
}
