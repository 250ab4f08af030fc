//! Events on the first packed states of a list.

ghost use Rattle.std.specs.Prelude.{◌≡◌, ◌<◌, ◌≤◌, length, take, slice_index, EachIndex};
ghost use Rattle.psi_follow_packed.specs.Programs.{AllFollow};
ghost use Rattle.psi_follow_sets.specs.Inner.HalvesKept.{halves};
ghost use Rattle.psi_follow_sets.specs.Inner.HoldingKept.{SetFollows};

use psi_follow_packed::{MaskProgram, PackedPair};

/// Puts what the event of this number makes of each of the first states in its place.
#[inline]
pub(crate) fn step_first<const K: usize>(
    program: &MaskProgram<K>,
    number: u16,
    list: &mut [PackedPair<K>],
    used: usize,
)
    requires number { number < length program.now.moves }
    requires used { used ≤ length list.old }
    ensures each { AllFollow program.now number (take used list.old) (take used list.new) }
    ensures room { length list.new ≡ length list.old }
{
    program.step(number, &mut list[..used]);
}

/// Puts what the events of these numbers make of the first pair in its place: the last number's
/// event comes first.
pub(crate) fn follow_one<const K: usize>(
    program: &MaskProgram<K>,
    numbers: &[u16],
    list: &mut [PackedPair<K>],
)
    requires numbers { EachIndex numbers.now (λ i. slice_index numbers.now i < length program.now.moves) }
    requires some { 1 ≤ length list.old }
    ensures follows { SetFollows K program.now numbers.now (halves (take 1 list.old)) (halves (take 1 list.new)) }
    ensures room { length list.new ≡ length list.old }
{
    let mut pair = list[0];
    program.follow(numbers, &mut pair);
    list[0] = pair;
}
