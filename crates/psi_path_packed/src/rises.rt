//! By how much each event changes the numbers of customers and the rewards.

ghost use Rattle.std.specs.Prelude.{◌≡◌, ℕ, ◌<◌, ◌≤◌, ◌^◌, pos, ◌-ℤ◌, All, length, map, slice_index, IfOk, IfSome, IsTrue, OnOk};
ghost use Rattle.std.specs.Int.RustNames.{unsigned_abs};
ghost use Rattle.psi_state.specs.State.{IsBelow};
ghost use Rattle.psi_path.specs.Additive.{IsAdditive};
ghost use Rattle.psi_path.specs.Sums.{worth_at};
ghost use Rattle.psi_path_packed.specs.Rises.{IsChange, AreRises};
ghost use Rattle.psi_path_packed.specs.Inner.RisesKept.{IsLonger};
ghost use Rattle.psi_path_packed.specs.Walker.{rise_of, AreSmallRises};

use psi_event::PiecewiseLaw;
use psi_path::Rewards;
use psi_state::State;
use std::alloc::{AllocError, Global};

// The greatest rise of a reward that is kept, 2^40.
const MOST_RISE: i64 = 1_099_511_627_776;

// How many customers an event brings to each queue and takes from it when it changes a state.
#[derive(Drop)]
struct Change {
    ups: State,
    downs: State,
}

/// Returns by how much each event changes the number of customers of each queue: event by event, and for each of them queue by queue.
/// `None` where an event declares no pieces, or its second piece changes a state.
pub(crate) fn customer_rises<E: PiecewiseLaw>(
    alloc: Global,
    caps: &State,
    events: &[E],
) -> Result<Option<Vec<i64>>, AllocError>
    requires caps { All (λ e. E.capacities e ≡ caps.now) events.now }
    ensures small { IfOk result (λ found. IfSome found (λ rises. AreSmallRises (length events.now) (length caps.now) rises.items)) }
    ensures rises { IfOk result (λ found. IfSome found (λ rises. (q : ℕ) → q < length caps.now
        → AreRises caps.now (map E.function events.now) (λ x. pos (slice_index x q)) (rise_of rises.items (length caps.now) q))) }
{
    // Called for its clause: capacities are numbers of 16 bits.
    let _queues = caps.len();
    let mut rises = Vec::new(alloc);
    for event in events {
        let Some(change) = change_of(event) else {
            return Ok(None);
        };
        push_customers(&mut rises, &change)?;
    }
    Ok(Some(rises))
}

/// Returns by how much each event changes each reward: event by event, and for each of them reward by reward. `None` also where a
/// reward isn't additive, or an event changes one by more than 2^40.
pub(crate) fn reward_rises<E: PiecewiseLaw, R: Rewards>(
    alloc: Global,
    rewards: &R,
    events: &[E],
) -> Result<Option<Vec<i64>>, AllocError>
    requires caps { All (λ e. E.capacities e ≡ R.capacities rewards.now) events.now }
    ensures small { IfOk result (λ found. IfSome found (λ rises. AreSmallRises (length events.now) (length (R.worths rewards.now)) rises.items)) }
    ensures rises { IfOk result (λ found. IfSome found (λ rises. (r : ℕ) → r < length (R.worths rewards.now)
        → AreRises (R.capacities rewards.now) (map E.function events.now) (worth_at (R.worths rewards.now) r) (rise_of rises.items (length (R.worths rewards.now)) r))) }
{
    let mut rises = Vec::new(alloc);
    for event in events {
        let Some(change) = change_of(event) else {
            return Ok(None);
        };
        if !push_values(&mut rises, rewards, &change)? {
            return Ok(None);
        }
    }
    Ok(Some(rises))
}

// What an event brings and takes; `None` where it declares no pieces, or its second piece changes a state.
fn change_of<E: PiecewiseLaw>(event: &E) -> Option<Change>
    ensures { IfSome result (λ change. IsChange (E.capacities event.now) (E.function event.now) change.ups change.downs) }
{
    let pieces = event.piecewise()?;
    if pieces.second.ups == pieces.second.downs {
        return Some(Change {
            ups: pieces.first.ups,
            downs: pieces.first.downs,
        });
    }
    None
}

// Puts the rises of the numbers of customers after those that are there.
fn push_customers(rises: &mut Vec<i64>, change: &Change) -> Result<(), AllocError>
    requires same { length change.now.downs ≡ length change.now.ups }
    ensures { OnOk result (IsLonger rises.old.items (length change.now.ups) (λ q. pos (slice_index change.now.ups q) -ℤ pos (slice_index change.now.downs q)) rises.new.items) }
{
    for q in 0..change.ups.len() {
        rises.push(change.ups.get(q) as i64 - change.downs.get(q) as i64)?;
    }
    Ok(())
}

// Puts the rises of additive rewards after those that are there; `false` where a reward isn't additive, or a rise too great.
fn push_values<R: Rewards>(
    rises: &mut Vec<i64>,
    rewards: &R,
    change: &Change,
) -> Result<bool, AllocError>
    requires ups { IsBelow change.now.ups (R.capacities rewards.now) }
    requires downs { IsBelow change.now.downs (R.capacities rewards.now) }
    ensures longer { IfOk result (λ all. IsTrue all → IsLonger rises.old.items (length (R.worths rewards.now))
        (λ r. worth_at (R.worths rewards.now) r change.now.ups -ℤ worth_at (R.worths rewards.now) r change.now.downs) rises.new.items) }
    ensures additive { IfOk result (λ all. IsTrue all → (r : ℕ) → r < length (R.worths rewards.now) → IsAdditive (R.capacities rewards.now) (worth_at (R.worths rewards.now) r)) }
    ensures small { IfOk result (λ all. IsTrue all → (r : ℕ) → r < length (R.worths rewards.now)
        → unsigned_abs (worth_at (R.worths rewards.now) r change.now.ups -ℤ worth_at (R.worths rewards.now) r change.now.downs) ≤ 2 ^ 40) }
{
    for r in 0..rewards.count() {
        let Some(rise) = rise_by(rewards, r, change) else {
            return Ok(false);
        };
        rises.push(rise)?;
    }
    Ok(true)
}

// By how much a change changes an additive reward; `None` where it isn't known to be additive, or the rise is too great.
fn rise_by<R: Rewards>(rewards: &R, r: usize, change: &Change) -> Option<i64>
    requires place { r < length (R.worths rewards.now) }
    requires ups { IsBelow change.now.ups (R.capacities rewards.now) }
    requires downs { IsBelow change.now.downs (R.capacities rewards.now) }
    ensures rise { IfSome result (λ rise. rise ≡ worth_at (R.worths rewards.now) r change.now.ups -ℤ worth_at (R.worths rewards.now) r change.now.downs) }
    ensures additive { IfSome result (λ rise. IsAdditive (R.capacities rewards.now) (worth_at (R.worths rewards.now) r)) }
    ensures small { IfSome result (λ rise. unsigned_abs rise ≤ 2 ^ 40) }
{
    if !rewards.is_additive(r) {
        return None;
    }
    let up = rewards.value(r, &change.ups);
    let rise = up.checked_sub(rewards.value(r, &change.downs))?;
    if rise < -MOST_RISE || rise > MOST_RISE {
        return None;
    }
    Some(rise)
}
