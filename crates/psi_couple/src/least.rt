//! The least horizon of any length whose run ends with one state.

ghost use Rattle.std.specs.Prelude.{◌≡◌, ◌/◌, ◌^◌, ◌≤◌, suc, Some};
ghost use Rattle.psi_rate.specs.Composition.{system_functions};
ghost use Rattle.psi_rate.specs.Least.{HasNoneBelow, IsLeast};
ghost use Rattle.psi_rate.specs.System.{IsSystem};
ghost use Rattle.psi_horizon.specs.Runs.{ending_at};
ghost use Rattle.psi_horizon.specs.Planned.{IsOver};
ghost use Rattle.psi_couple.specs.Coupling.{coupled_within, IsCoupled, ReachesCoupled, DecidesCoupled, CouplesWithin};

use crate::answers::Coupled;
use psi_event::EventLaw;
use psi_horizon::Plan;
use psi_past::Past;
use psi_region::Follower;
use psi_state::{Outcome, State};

/// Returns the least horizon from 1 to 2 to the power `limit` whose region run ends with one state, with that
/// state, which is within the capacities. Every state that starts there or earlier is in it at time zero
/// (Propp and Wilson 1996), and every longer run ends with it alone. `NotAt` comes exactly where no such run
/// ends with one state, and returns the system's limit.
///
/// The sample finds the first power of two whose run ends with one state. A longer run's region is within
/// a shorter run's, so once a run ends with one state each longer run ends with it too, and the least
/// horizon is found by halving the stretch between that power and the one before it. So beyond the
/// sample's runs there are at most as many as `limit`, each shorter than that power.
///
/// The plan's system and its past's words stay as they were. Afterwards [`Plan::advance`] answers `None`
/// until the next run is begun. The call does not allocate.
pub fn least_horizon<E: EventLaw, P: Past + Drop, F: Follower + Drop>(
    plan: &mut Plan<'_, E, P, F>,
) -> Coupled
    ensures answer { let f = system_functions E.function plan.old.system (P.words plan.old.past) in
        result ≡ coupled_within (ending_at plan.old.system.split f plan.old.system.caps) plan.old.system.limit }
    ensures least { let f = system_functions E.function plan.old.system (P.words plan.old.past) in
        IsCoupled (ending_at plan.old.system.split f plan.old.system.caps) plan.old.system.limit result }
    ensures reached { ReachesCoupled (system_functions E.function plan.old.system (P.words plan.old.past)) plan.old.system.caps result }
    ensures later { let f = system_functions E.function plan.old.system (P.words plan.old.past) in
        DecidesCoupled plan.old.system.split f plan.old.system.caps plan.old.system.limit result }
    ensures within { CouplesWithin plan.old.system.caps result }
    ensures system { plan.new.system ≡ plan.old.system }
    ensures words { P.words plan.new.past ≡ P.words plan.old.past }
    ensures over { IsOver plan.new.run }
{
    let limit = plan.limit();
    match plan.sample() {
        Outcome::Met { horizon, state } => Coupled::At {
            horizon: least_up_to(plan, horizon, state),
            state,
        },
        Outcome::NotMet { .. } => Coupled::NotAt { limit },
    }
}

// The least horizon whose run ends with one state, where the run of `met` ends with this one and no run of
// a horizon up to half of it ends with one state.
fn least_up_to<E: EventLaw, P: Past + Drop, F: Follower + Drop>(
    plan: &mut Plan<'_, E, P, F>,
    met: u32,
    state: State,
) -> u32
    requires fit { IsSystem E.capacities plan.old.system }
    requires some { 1 ≤ met }
    requires most { met ≤ 2 ^ plan.old.system.limit }
    requires met { let f = system_functions E.function plan.old.system (P.words plan.old.past) in
        ending_at plan.old.system.split f plan.old.system.caps met ≡ Some state }
    requires half { let f = system_functions E.function plan.old.system (P.words plan.old.past) in
        HasNoneBelow (ending_at plan.old.system.split f plan.old.system.caps) (suc (met / 2)) }
    requires over { IsOver plan.old.run }
    ensures least { let f = system_functions E.function plan.old.system (P.words plan.old.past) in
        IsLeast (ending_at plan.old.system.split f plan.old.system.caps) (2 ^ plan.old.system.limit) result state }
    ensures system { plan.new.system ≡ plan.old.system }
    ensures words { P.words plan.new.past ≡ P.words plan.old.past }
    ensures over { IsOver plan.new.run }
{
    let mut low = met / 2;
    let mut high = met;
    while high - low > 1 {
        let middle = low + (high - low) / 2;
        if plan.ending(middle).is_some() {
            high = middle;
        } else {
            low = middle;
        }
    }
    high
}
