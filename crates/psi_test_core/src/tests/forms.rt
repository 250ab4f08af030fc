//! Which events declare the pieces that they are made of, so that states are packed; no clause says so.

ghost use Rattle.std.specs.Prelude.{◌∷◌, []};
ghost use Rattle.psi_kinds.specs.Kinds.{IsKindOf};

use super::states::{queues_of, state_of};
use psi_event::PiecewiseLaw;
use psi_follow_packed::{Layout, MaskProgram};
use psi_guard::{Guarded, Part};
use psi_kinds::{Kind, KindRefusal, lower};
use psi_route::{Full, Source};
use std::alloc::Global;
use std::process::Abort;
use std::test::Fail;

// Whether the event of a kind, for two queues with room for two customers each, declares its pieces.
fn is_told(alloc: Global, kind: Kind) -> Result<bool, KindRefusal>
    requires { IsKindOf (2 ∷ 2 ∷ []) kind }
{
    let event = lower(alloc, state_of(&[2, 2]), &kind)?;
    Ok(event.piecewise().is_some())
}

#[test]
fn events_of_single_customers_tell_their_pieces(rt: HostRuntime) -> Result<(), Fail> {
    let alloc = rt.alloc();
    let (both, second) = (queues_of(&[0, 1]), queues_of(&[1]));
    let from = Some(Source { queue: 0, k: 2 });
    assert!(rt; is_told(alloc, Kind::Arrival { to: both })?);
    assert!(rt; is_told(alloc, Kind::Fork { from, to: second })?);
    let join = Kind::Join {
        from: both,
        to: None,
    };
    assert!(rt; is_told(alloc, join)?);
    for amount in 1..3 {
        let negative = Kind::Negative {
            from,
            on: 1,
            amount,
        };
        assert_eq!(rt; is_told(alloc, negative)?, amount == 1);
    }
    Ok(())
}

#[test]
fn events_that_tell_their_pieces_make_a_program(rt: HostRuntime) -> Result<(), Fail> {
    let alloc = rt.alloc();
    let caps = state_of(&[2, 2]);
    let arrival = Kind::Arrival {
        to: queues_of(&[0, 1]),
    };
    let service = Kind::Service {
        from: Source { queue: 0, k: 1 },
        to: queues_of(&[1]),
        full: Full::Stay,
    };
    let events = [lower(alloc, caps, &arrival)?, lower(alloc, caps, &service)?];
    let layout = Layout::<1>::new(caps).ok_or("one word for two queues")?;
    assert!(rt; MaskProgram::new(alloc, layout, &events)?.is_some());
    Ok(())
}

// Whether the event of one queue with room for three customers, with this part, declares its pieces.
fn is_part_told(rt: &impl Abort, guard: (u16, u16), shift: i32, limits: (u16, u16)) -> bool {
    let part = Part {
        queue: 0,
        least: guard.0,
        most: guard.1,
        shift,
        floor: limits.0,
        ceiling: limits.1,
    };
    let event = Guarded::new(state_of(&[3]), &[part]).expect(rt, "an event of one queue");
    event.piecewise().is_some()
}

#[test]
fn a_part_is_told_by_its_open_side_or_by_one_customer(rt: HostRuntime) {
    // Where the shift is the whole change, and where one customer leaves or comes.
    assert!(rt; is_part_told(&rt, (2, 3), -2, (0, 3)));
    assert!(rt; is_part_told(&rt, (0, 1), 2, (0, 3)));
    assert!(rt; is_part_told(&rt, (0, 3), -1, (0, 2)));
    assert!(rt; is_part_told(&rt, (0, 3), 1, (1, 3)));
}
