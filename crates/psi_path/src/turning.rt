//! What a change of the state adds to sums over the steps that are left.

ghost use Rattle.std.specs.Prelude.{◌≡◌, ℕ, ◌+◌, ◌*◌, ◌^◌, ◌<◌, ◌≤◌, pos, ◌+ℤ◌, ◌-ℤ◌, ◌*ℤ◌, length, slice_index, slice_index_or};
ghost use Rattle.std.specs.Int.RustNames.{unsigned_abs};
ghost use Rattle.psi_state.specs.State.{IsBelow};
ghost use Rattle.psi_path.specs.Sums.{worth_at};

use crate::rewards::Rewards;
use psi_state::State;

// Each sum has the customers of its queue in the first state as often as there are steps left: it gets those in the second
// state instead.
pub(crate) fn turn_queues(sums: &mut Vec<u64>, before: &State, state: &State, left: u32)
    requires before { length before.now ≡ length sums.old.items }
    requires state { length state.now ≡ length sums.old.items }
    requires enough { (q : ℕ) → q < length sums.old.items → left * slice_index before.now q ≤ slice_index sums.old.items q }
    requires few { (q : ℕ) → q < length sums.old.items → slice_index sums.old.items q ≤ 2 ^ 49 }
    ensures count { length sums.new.items ≡ length sums.old.items }
    ensures sums { (q : ℕ) → q < length sums.old.items
        → slice_index sums.new.items q + left * slice_index before.now q ≡ slice_index sums.old.items q + left * slice_index state.now q }
{
    for q in 0..state.len() {
        sums[q as usize] = turned(sums[q as usize], before.get(q), state.get(q), left);
    }
}

// A sum with the second number instead of the first, each as often as there are steps left.
fn turned(sum: u64, before: u16, number: u16, left: u32) -> u64
    requires enough { left * before ≤ sum }
    requires few { sum ≤ 2 ^ 49 }
    ensures { result + left * before ≡ sum + left * number }
{
    let left = left as u64;
    sum - left * before as u64 + left * number as u64
}

// Each sum has the value of its reward as often as there are steps left: it gets that in a new state instead, and so do the
// values.
pub(crate) fn turn_rewards<R: Rewards>(
    sums: &mut Vec<i128>,
    values: &mut Vec<i64>,
    rewards: &R,
    state: &State,
    left: u32,
)
    requires within { IsBelow state.now (R.capacities rewards.now) }
    requires sums { length sums.old.items ≡ length (R.worths rewards.now) }
    requires values { length values.old.items ≡ length (R.worths rewards.now) }
    requires few { (r : ℕ) → r < length (R.worths rewards.now) → unsigned_abs (slice_index_or sums.old.items r (pos 0)) ≤ 2 ^ 96 }
    ensures count { length sums.new.items ≡ length sums.old.items }
    ensures value_count { length values.new.items ≡ length values.old.items }
    ensures sums { (r : ℕ) → r < length (R.worths rewards.now) → slice_index_or sums.new.items r (pos 0)
        ≡ slice_index_or sums.old.items r (pos 0) +ℤ (pos left *ℤ (worth_at (R.worths rewards.now) r state.now -ℤ slice_index_or values.old.items r (pos 0))) }
    ensures values { (r : ℕ) → r < length (R.worths rewards.now) → slice_index_or values.new.items r (pos 0) ≡ worth_at (R.worths rewards.now) r state.now }
    ensures small { (r : ℕ) → r < length (R.worths rewards.now) → unsigned_abs (worth_at (R.worths rewards.now) r state.now) ≤ 2 ^ 63 }
{
    for r in 0..rewards.count() {
        let value = rewards.value(r, state);
        sums[r] = sums[r] + rise(values[r], value, left);
        values[r] = value;
    }
}

// By how much the second value is above the first, as often as there are steps left.
fn rise(before: i64, value: i64, left: u32) -> i128
    ensures value { result ≡ pos left *ℤ (value -ℤ before) }
    ensures few { unsigned_abs result ≤ 2 ^ 96 }
{
    left as i128 * (value as i128 - before as i128)
}
