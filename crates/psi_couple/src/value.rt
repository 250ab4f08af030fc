//! The first horizon at which a reward has one value.

ghost use Rattle.std.specs.Prelude.{◌≡◌, ◌^◌, ◌≤◌, ℕ, List, Some, IfSome, IsSome, length};
ghost use Rattle.psi_state.specs.State.{IsBelow, box};
ghost use Rattle.psi_state.specs.Members.{In};
ghost use Rattle.psi_rate.specs.Composition.{system_functions};
ghost use Rattle.psi_reward.specs.Rewards.{reward_caps, reward_kind};
ghost use Rattle.psi_reward.specs.Worth.{worth_of};
ghost use Rattle.psi_region.specs.Followed.{AreEnds};
ghost use Rattle.psi_horizon.specs.Planned.{IsOver};
ghost use Rattle.psi_couple.specs.Valuing.{common_value, value_at, valued_within, IsValued, ReachesValued, DecidesValues};

use crate::answers::Valued;
use crate::running::run_whole;
use psi_event::EventLaw;
use psi_horizon::Plan;
use psi_past::Past;
use psi_region::Follower;
use psi_reward::{Reward, RewardLaw};
use psi_state::{Bounds, State};

// Runs of fewer steps cost next to nothing.
const SHORT: u32 = 64;

/// Returns the least horizon among 1, 2, 4, .., 2 to the power `limit` at which all states with which the region
/// run ends have one value of the reward, with that value, in the reward's unit. Every state within the
/// capacities that starts there or earlier has it at time zero, though these states need not have met, and
/// every longer run ends with states of this value. `NotAt` comes exactly where there is no such horizon, and
/// has the system's limit; then no run of up to 2 to the power `limit` steps ends with states of one value.
///
/// The reward is one of the system's capacities.
///
/// The horizons are doubled as those of a sample are (Propp and Wilson 1996). Where the plan's follower finds the least and
/// the greatest state of a run's end, these two decide: the value is one where the reward's least and greatest number
/// between them are equal, and it isn't where the two have different values. Where they leave it open, and with any other
/// follower, the run's region is followed: on a box the value is one where the reward's least and greatest number there are
/// equal; a set's states are compared one by one.
///
/// The plan's system and its past's words stay as they were. Afterwards [`Plan::advance`] answers `None`
/// until the next run is begun. The call does not allocate.
pub fn value_horizon<E: EventLaw, P: Past + Drop, F: Follower + Drop>(
    plan: &mut Plan<'_, E, P, F>,
    reward: &Reward,
) -> Valued
    requires { reward_caps reward.now ≡ plan.old.system.caps }
    ensures answer { let f = system_functions E.function plan.old.system (P.words plan.old.past) in
        result ≡ valued_within (value_at (worth_of (reward_kind reward.now)) plan.old.system.split f plan.old.system.caps) plan.old.system.limit }
    ensures first { let f = system_functions E.function plan.old.system (P.words plan.old.past) in
        IsValued (value_at (worth_of (reward_kind reward.now)) plan.old.system.split f plan.old.system.caps) plan.old.system.limit result }
    ensures reached { let f = system_functions E.function plan.old.system (P.words plan.old.past) in
        ReachesValued (worth_of (reward_kind reward.now)) f plan.old.system.caps result }
    ensures later { let f = system_functions E.function plan.old.system (P.words plan.old.past) in
        DecidesValues (worth_of (reward_kind reward.now)) plan.old.system.split f plan.old.system.caps plan.old.system.limit result }
    ensures system { plan.new.system ≡ plan.old.system }
    ensures words { P.words plan.new.past ≡ P.words plan.old.past }
    ensures over { IsOver plan.new.run }
{
    let limit = plan.limit();
    let mut by_ends = true;
    for exponent in 0..limit + 1 {
        let horizon = 1 << exponent;
        if let Some(value) = value_after(plan, reward, horizon, &mut by_ends) {
            return Valued::At { horizon, value };
        }
    }
    Valued::NotAt { limit }
}

// The value that all states have with which the run of a horizon ends, if they have one: by the run's ends as long as
// these decide, and else by its region.
fn value_after<E: EventLaw, P: Past + Drop, F: Follower + Drop>(
    plan: &mut Plan<'_, E, P, F>,
    reward: &Reward,
    horizon: u32,
    by_ends: &mut bool,
) -> Option<i64>
    requires caps { reward_caps reward.now ≡ plan.old.system.caps }
    requires some { 1 ≤ horizon }
    requires most { horizon ≤ 2 ^ plan.old.system.limit }
    ensures value { let f = system_functions E.function plan.old.system (P.words plan.old.past) in
        result ≡ value_at (worth_of (reward_kind reward.now)) plan.old.system.split f plan.old.system.caps horizon }
    ensures system { plan.new.system ≡ plan.old.system }
    ensures words { P.words plan.new.past ≡ P.words plan.old.past }
    ensures over { IsOver plan.new.run }
{
    if let Some(found) = value_by_ends(plan, reward, horizon, by_ends) {
        return found;
    }
    run_whole(plan, horizon);
    match plan.bounds() {
        Some(bounds) => value_on_box(reward, &bounds),
        None => value_on_set(reward, plan.states()),
    }
}

// As `value_after`, by the least and the greatest state with which the run ends, where the plan's follower finds them and they
// decide. Where they didn't for a run of some length they aren't asked again: the region is followed anyway.
fn value_by_ends<E: EventLaw, P: Past + Drop, F: Follower + Drop>(
    plan: &mut Plan<'_, E, P, F>,
    reward: &Reward,
    horizon: u32,
    by_ends: &mut bool,
) -> Option<Option<i64>>
    requires caps { reward_caps reward.now ≡ plan.old.system.caps }
    requires some { 1 ≤ horizon }
    requires most { horizon ≤ 2 ^ plan.old.system.limit }
    ensures value { let f = system_functions E.function plan.old.system (P.words plan.old.past) in
        IfSome result (λ found. found ≡ value_at (worth_of (reward_kind reward.now)) plan.old.system.split f plan.old.system.caps horizon) }
    ensures system { plan.new.system ≡ plan.old.system }
    ensures words { P.words plan.new.past ≡ P.words plan.old.past }
    ensures over { IsSome result → IsOver plan.new.run }
{
    if !*by_ends {
        return None;
    }
    let ends = plan.ends(horizon);
    let found = value_between(reward, ends);
    *by_ends = found.is_some() || horizon < SHORT;
    found
}

// The value that all states of a list have, if they have one, where its ends decide: `None` where they don't, or there are
// none.
fn value_between(reward: &Reward, ends: Option<Bounds>) -> Option<Option<i64>>
    requires { IfSome ends (λ b. IsBelow b.hi (reward_caps reward.now)) }
    ensures { (states : List (List ℕ)) → IfSome ends (λ b. AreEnds b states) → IfSome result (λ found. found ≡ common_value (worth_of (reward_kind reward.now)) states) }
{
    let ends = ends?;
    if let Some(value) = value_on_box(reward, &ends) {
        return Some(Some(value));
    }
    let lo = ends.lo();
    let hi = ends.hi();
    if reward.value(&lo) != reward.value(&hi) {
        return Some(None);
    }
    None
}

// The value that all states of a box have, if they have one.
fn value_on_box(reward: &Reward, bounds: &Bounds) -> Option<i64>
    requires { IsBelow bounds.now.hi (reward_caps reward.now) }
    ensures { result ≡ common_value (worth_of (reward_kind reward.now)) (box bounds.now.lo bounds.now.hi) }
{
    let (least, greatest) = reward.range(bounds);
    if least != greatest {
        return None;
    }
    Some(least)
}

// The value that all these states have, if they have one.
fn value_on_set(reward: &Reward, states: &[State]) -> Option<i64>
    requires some { 1 ≤ length states.now }
    requires within { (x : List ℕ) → In x states.now → IsBelow x (reward_caps reward.now) }
    ensures { result ≡ common_value (worth_of (reward_kind reward.now)) states.now }
{
    let value = reward.value(&states[0]);
    for state in states {
        if reward.value(state) != value {
            return None;
        }
    }
    Some(value)
}
