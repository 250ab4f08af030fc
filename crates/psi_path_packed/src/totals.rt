//! Sums over the times of a path, by the changes along it.

ghost use Rattle.std.specs.Prelude.{◌≡◌, ℕ, ◌+◌, ◌-◌, ◌*◌, ◌^◌, ◌<◌, ◌≤◌, pos, ◌*ℤ◌, length, map, slice_index, slice_index_or};
ghost use Rattle.std.specs.Int.RustNames.{unsigned_abs};
ghost use Rattle.psi_state.specs.State.{IsBelow};
ghost use Rattle.psi_follow_packed.specs.Views.{low_word, high_word};
ghost use Rattle.psi_path.specs.Sums.{worth_at};
ghost use Rattle.psi_path_packed.specs.Rises.{total_of, sum_below, IsNumber};
ghost use Rattle.psi_path_packed.specs.Walker.{rise_of, AreSmallRises};

use psi_follow_packed::Pair;
use psi_path::{Rewards, Walk};
use psi_state::State;

/// Writes the sums of the customers of each queue, over a path of so many steps.
pub(crate) fn put_customers(
    rises: &[i64],
    changes: &[Pair],
    start: &State,
    steps: u32,
    walk: &mut Walk,
)
    requires few { steps ≤ 4290772992 }
    requires some { 1 ≤ length changes.now }
    requires bounded { length changes.now ≤ 65536 }
    requires rises { AreSmallRises (length changes.now - 1) (length start.now) rises.now }
    requires queues { length walk.old.queues ≡ length start.now }
    requires sums { (q : ℕ) → q < length start.now
        → IsNumber (total_of (pos (slice_index start.now q)) steps (rise_of rises.now (length start.now) q) (slice_index (map low_word changes.now)) (length changes.now - 1)) }
    ensures count { length walk.new.queues ≡ length walk.old.queues }
    ensures queues { (q : ℕ) → q < length start.now → pos (slice_index walk.new.queues q)
        ≡ total_of (pos (slice_index start.now q)) steps (rise_of rises.now (length start.now) q) (slice_index (map low_word changes.now)) (length changes.now - 1) }
    ensures rewards { walk.new.rewards ≡ walk.old.rewards }
    ensures chosen { walk.new.chosen ≡ walk.old.chosen }
    ensures changed { walk.new.changed ≡ walk.old.changed }
{
    let count = start.len();
    for q in 0..count {
        let first = at_all_times(start.get(q) as i64, steps);
        let sum = first + risen(rises, count as usize, q as usize, changes);
        walk.put_customers(q, sum as u64);
    }
}

/// Writes the sums of each reward, over a path of so many steps.
pub(crate) fn put_rewards<R: Rewards>(
    rises: &[i64],
    changes: &[Pair],
    rewards: &R,
    start: &State,
    steps: u32,
    walk: &mut Walk,
)
    requires few { steps ≤ 4290772992 }
    requires some { 1 ≤ length changes.now }
    requires bounded { length changes.now ≤ 65536 }
    requires rises { AreSmallRises (length changes.now - 1) (length (R.worths rewards.now)) rises.now }
    requires rewards { length walk.old.rewards ≡ length (R.worths rewards.now) }
    requires start { IsBelow start.now (R.capacities rewards.now) }
    ensures count { length walk.new.rewards ≡ length walk.old.rewards }
    ensures rewards { (r : ℕ) → r < length (R.worths rewards.now) → slice_index_or walk.new.rewards r (pos 0)
        ≡ total_of (worth_at (R.worths rewards.now) r start.now) steps (rise_of rises.now (length (R.worths rewards.now)) r) (slice_index (map low_word changes.now)) (length changes.now - 1) }
    ensures queues { walk.new.queues ≡ walk.old.queues }
    ensures chosen { walk.new.chosen ≡ walk.old.chosen }
    ensures changed { walk.new.changed ≡ walk.old.changed }
{
    let count = rewards.count();
    for r in 0..count {
        let first = at_all_times(rewards.value(r, start), steps);
        let sum = first + risen(rises, count, r, changes);
        walk.put_reward(r, sum);
    }
}

/// Writes how often each event was chosen, and how often it changed the state.
pub(crate) fn put_counts(chosen: &[u64], changes: &[Pair], walk: &mut Walk)
    requires some { 1 ≤ length changes.now }
    requires bounded { length changes.now ≤ 65536 }
    requires same { length chosen.now ≡ length changes.now }
    requires chosen { length walk.old.chosen ≡ length changes.now - 1 }
    requires changed { length walk.old.changed ≡ length changes.now - 1 }
    ensures chosen_count { length walk.new.chosen ≡ length walk.old.chosen }
    ensures changed_count { length walk.new.changed ≡ length walk.old.changed }
    ensures chosen { (e : ℕ) → e < length changes.now - 1 → slice_index walk.new.chosen e ≡ slice_index chosen.now e }
    ensures changed { (e : ℕ) → e < length changes.now - 1 → slice_index walk.new.changed e ≡ slice_index (map high_word changes.now) e }
    ensures queues { walk.new.queues ≡ walk.old.queues }
    ensures rewards { walk.new.rewards ≡ walk.old.rewards }
{
    for e in 0..(changes.len() - 1) as u16 {
        walk.count(e, chosen[e as usize], changes[e as usize].high());
    }
}

// What the changes by all events but the last, idle, add to the quantity at a place of so many.
fn risen(rises: &[i64], count: usize, place: usize, changes: &[Pair]) -> i128
    requires some { 1 ≤ length changes.now }
    requires bounded { length changes.now ≤ 65536 }
    requires place { place < count }
    requires rises { AreSmallRises (length changes.now - 1) count rises.now }
    ensures value { result ≡ sum_below (λ e. pos (slice_index (map low_word changes.now) e) *ℤ rise_of rises.now count place e) (length changes.now - 1) }
    ensures few { unsigned_abs result ≤ 2 ^ 120 }
{
    let mut sum = 0;
    for event in 0..changes.len() - 1 {
        sum += at_times(rises[event * count + place], changes[event].low());
    }
    sum
}

// A value at all times of a path of so many steps.
fn at_all_times(first: i64, steps: u32) -> i128
    requires { steps ≤ 4290772992 }
    ensures value { result ≡ pos (steps + 1) *ℤ first }
    ensures few { unsigned_abs result ≤ 2 ^ 96 }
{
    (steps as i128 + 1) * first as i128
}

// A small rise at so many times.
fn at_times(rise: i64, times: u64) -> i128
    requires { unsigned_abs rise ≤ 2 ^ 40 }
    ensures value { result ≡ pos times *ℤ rise }
    ensures few { unsigned_abs result ≤ 2 ^ 104 }
{
    times as i128 * rise as i128
}
