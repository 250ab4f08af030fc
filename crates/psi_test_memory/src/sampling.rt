//! Plans: samples, runs step by step, and the horizons at which all states or a reward's values are one.

ghost use Rattle.std.specs.Prelude.{◌≡◌};
ghost use Rattle.psi_net_model.specs.Network.{caps_of};

use psi_couple::{least_horizon, value_horizon};
use psi_event::EventLaw;
use psi_follow::plan_of;
use psi_horizon::Plan;
use psi_kinds::Event;
use psi_net::Net;
use psi_past::{Past, SeedPast};
use psi_region::Follower;
use std::alloc::Global;

/// Makes a plan, and calls it or not; `None` where memory is wanting.
pub(crate) fn make(alloc: Global, calls: bool, net: &Net) -> Option<()> {
    let mut plan = plan_of(alloc, net.system(), SeedPast::new(0, 0)).ok()?;
    if calls {
        call_plan(&mut plan);
        plan.replace(SeedPast::new(1, 1));
        call_couple(&mut plan, net);
    }
    Some(())
}

// A sample, the state with which a run ends, and a run of one step with its region.
fn call_plan<E: EventLaw, P: Past + Drop, F: Follower + Drop>(plan: &mut Plan<'_, E, P, F>)
    ensures { plan.new.system ≡ plan.old.system }
{
    let _outcome = plan.sample();
    let _ending = plan.ending(1);
    plan.begin(1);
    let Some(_step) = plan.advance() else {
        return;
    };
    let _shown = (plan.single(), plan.limit());
    match plan.bounds() {
        Some(_bounds) => {}
        None => {
            let _states = plan.states();
        }
    }
}

// The least horizon, and the first at which each reward has one value.
fn call_couple<P: Past + Drop, F: Follower + Drop>(plan: &mut Plan<'_, Event, P, F>, net: &Net)
    requires { plan.old.system.caps ≡ caps_of net.now }
{
    let _coupled = least_horizon(plan);
    for place in 0..net.rewards() {
        let _valued = value_horizon(plan, net.reward(place));
    }
}
