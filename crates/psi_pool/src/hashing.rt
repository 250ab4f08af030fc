//! Which bucket a state belongs to.

ghost use Rattle.std.specs.Prelude.{◌≡◌, ◌<◌, ◌≤◌};
ghost use Rattle.psi_pool.specs.Inner.BucketsKept.{bucket};

use psi_state::State;

/// Returns the bucket of a state among `used` buckets.
#[inline]
#[tactic(auto, unfolding(crate::specs::Inner::BucketsKept::bucket))]
pub(crate) fn bucket_of(x: &State, used: usize) -> usize
    requires enough { 1 ≤ used }
    requires few { used ≤ 16385 }
    ensures value { result ≡ bucket used x.now }
    ensures within { result < used }
{
    ((x.hash() as u64 * used as u64) >> 32) as usize
}
