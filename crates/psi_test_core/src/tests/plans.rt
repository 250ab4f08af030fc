//! Samples and a run of a network of one queue, by the words of lists, worked out by hand.

ghost use Rattle.std.specs.Prelude.{◌≡◌};

use super::states::{queues_of, state_of};
use psi_follow::plan_of;
use psi_horizon::Plan;
use psi_kinds::{Event, Kind, lower};
use psi_past::ListPast;
use psi_rate::{System, Wheel};
use psi_region::Follower;
use psi_route::{Full, Source};
use psi_state::{Outcome, Queues};
use std::alloc::Global;
use std::process::Abort;
use std::test::Fail;

// The outcome of a sample that is met.
fn met(horizon: u32, count: u16) -> Outcome {
    Outcome::Met {
        horizon,
        state: state_of(&[count]),
    }
}

// What a plan answers by the words that it has and by others.
fn assert_answers<F: Follower + Drop>(
    rt: &impl Abort,
    alloc: Global,
    plan: &mut Plan<'_, Event, ListPast, F>,
) -> Result<(), Fail>
    requires { plan.old.system.limit ≡ 2 }
{
    assert_eq!(rt; plan.advance(), None);
    assert_eq!(rt; plan.sample(), met(4, 1));
    assert_eq!(rt; plan.advance(), None);
    plan.replace(ListPast::new([0, 0].to_vec(alloc)?));
    assert_eq!(rt; plan.sample(), met(2, 2));
    plan.replace(ListPast::new([3, 3, 3, 3].to_vec(alloc)?));
    assert_eq!(rt; plan.sample(), Outcome::NotMet { limit: 2 });
    plan.begin(4);
    assert_eq!(rt; (plan.limit(), plan.single()), (2, None));
    Ok(())
}

// One customer joins the queue or leaves it; a plan follows whole regions, or what `plan_of` chooses.
#[test]
fn other_words_serve_the_same_plan(rt: HostRuntime) -> Result<(), Fail> {
    let alloc = rt.alloc();
    let caps = state_of(&[2]);
    let arrival = Kind::Arrival {
        to: queues_of(&[0]),
    };
    let service = Kind::Service {
        from: Source { queue: 0, k: 1 },
        to: Queues::empty(),
        full: Full::Lost,
    };
    let events = [lower(alloc, caps, &arrival)?, lower(alloc, caps, &service)?];
    let wheel = Wheel::new(alloc, &[1, 2])?;
    let words = [2, 0, 0, 3];
    let system = System::new(caps, &events, &wheel, 2, 2);
    let mut regions = Plan::new(alloc, system, ListPast::new(words.to_vec(alloc)?))?;
    assert_answers(&rt, alloc, &mut regions)?;
    let system = System::new(caps, &events, &wheel, 2, 2);
    let mut chosen = plan_of(alloc, system, ListPast::new(words.to_vec(alloc)?))?;
    assert_answers(&rt, alloc, &mut chosen)
}
