//! The whole run of a horizon.

ghost use Rattle.std.specs.Prelude.{◌≡◌, ◌^◌, ◌≤◌, Some};

use psi_event::EventLaw;
use psi_horizon::Plan;
use psi_past::Past;
use psi_region::Follower;

// Does all steps of the run of a horizon.
pub(crate) fn run_whole<E: EventLaw, P: Past + Drop, F: Follower + Drop>(
    plan: &mut Plan<'_, E, P, F>,
    horizon: u32,
)
    requires some { 1 ≤ horizon }
    requires most { horizon ≤ 2 ^ plan.old.system.limit }
    ensures run { plan.new.run ≡ Some (record { horizon = horizon; done = horizon }) }
    ensures system { plan.new.system ≡ plan.old.system }
    ensures words { P.words plan.new.past ≡ P.words plan.old.past }
{
    plan.begin(horizon);
    for _ in 0..horizon {
        let _step = plan.advance();
    }
}
