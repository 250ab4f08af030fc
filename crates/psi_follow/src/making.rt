//! Which way a network's runs are followed.

ghost use Rattle.std.specs.Prelude.{◌≡◌, All, map, None, IfOk, IfSome};
ghost use Rattle.psi_event.specs.Law.{IsMonotone};
ghost use Rattle.psi_region.specs.Followed.{followed};
ghost use Rattle.psi_horizon.specs.Planned.{network_of};

use crate::by_words::{ByWords, words_needed};
use crate::monotone::are_monotone;
use crate::way::{CornersByWords, SetsByWords, Way};
use psi_event::{EventLaw, PiecewiseLaw};
use psi_follow_keyed::KeyedCorners;
use psi_follow_packed::PackedCorners;
use psi_follow_sets::PackedSets;
use psi_horizon::{OutOfMemory, Plan};
use psi_past::Past;
use psi_rate::System;
use psi_region::{Corners, Course, Follower, Regions};
use psi_route::RouteLaw;
use std::alloc::Global;

// Returns the follower on states of this many words, where one was made.
macro_rules! return_found {
    ($words:ident, $made:expr) => {
        if let Some(follower) = $made? {
            return Ok(Some(ByWords::$words(follower)));
        }
    };
}

// Returns the follower of this kind on states of the fewest words that the network's fit, where one was made.
macro_rules! return_packed {
    ($kind:ident, $alloc:ident, $course:ident) => {
        match words_needed($course.caps()) {
            1 => return_found!(One, $kind::new($alloc, $course)),
            2 => return_found!(Two, $kind::new($alloc, $course)),
            3 => return_found!(Three, $kind::new($alloc, $course)),
            4 => return_found!(Four, $kind::new($alloc, $course)),
            _ => {}
        }
    };
}

/// Returns the plan to sample the network from this past. It allocates room for the numbers of the events of the 2 to
/// the power `limit` steps of the greatest horizon, of 2 bytes each, for a region of `split` states, and for the events
/// on packed states; where some event isn't monotone, also for `split` packed states. In a network whose customers join
/// the queue with the least key, the keys take the place of the events on packed states: 4 bytes for each target and
/// each number of customers from 0 to its capacity, or up to twice that, and 8 bytes for each event. Where some event
/// isn't monotone and the states can't be packed, it allocates room for a second region. No other call allocates.
///
/// Returns `OutOfMemory` if an allocation fails; no clause says when that is.
pub fn plan_of<'n, E: PiecewiseLaw + RouteLaw, P: Past + Drop>(
    alloc: Global,
    system: System<'n, E>,
    past: P,
) -> Result<Plan<'n, E, P, Way<'n, E>>, OutOfMemory>
    ensures { IfOk result (λ plan. plan ≡ record { system = system.entry; past = past; run = None }) }
{
    let way = way_of(alloc, &system)?;
    Plan::following(alloc, system, past, way)
}

/// Returns the way to follow the network's runs: by the corners where each event is monotone, and otherwise by regions,
/// each on packed states, of the fewest words that the network's fit, where they fit and each event declares its
/// pieces. Where customers join the queue with the least key, it is by the keys.
///
/// Returns `OutOfMemory` if an allocation fails; no clause says when that is.
pub fn way_of<'n, E: PiecewiseLaw + RouteLaw>(
    alloc: Global,
    system: &System<'n, E>,
) -> Result<Way<'n, E>, OutOfMemory>
    ensures { IfOk result (λ way. ⟦<Way<'n, E> as Follower>⟧.stands_for way ≡ network_of E.function system.now) }
{
    let course = Course::new(system.caps(), system.events(), system.split());
    if are_monotone(&course) {
        corners_of(alloc, course)
    } else {
        sets_of(alloc, course)
    }
}

// The way of a network whose events are monotone.
fn corners_of<'n, E: PiecewiseLaw + RouteLaw>(
    alloc: Global,
    course: Course<'n, E>,
) -> Result<Way<'n, E>, OutOfMemory>
    requires { All (λ f. IsMonotone course.caps f) (map E.function course.events) }
    ensures { IfOk result (λ way. ⟦<Way<'n, E> as Follower>⟧.stands_for way ≡ followed E.function course.entry) }
{
    if let Some(keyed) = KeyedCorners::new(alloc, &course)? {
        return Ok(Way::Keyed(keyed));
    }
    match packed_corners(alloc, &course)? {
        Some(corners) => Ok(Way::PackedCorners(corners)),
        None => Ok(Way::Corners(Corners::new(course))),
    }
}

// The corners of a network whose events are monotone, packed into the fewest words that they fit.
fn packed_corners<'n, E: PiecewiseLaw>(
    alloc: Global,
    course: &Course<'n, E>,
) -> Result<Option<CornersByWords<'n, E>>, OutOfMemory>
    requires { All (λ f. IsMonotone course.now.caps f) (map E.function course.now.events) }
    ensures { IfOk result (λ found. IfSome found (λ corners. ⟦<CornersByWords<'n, E> as Follower>⟧.stands_for corners ≡ followed E.function course.now)) }
{
    return_packed!(PackedCorners, alloc, course);
    Ok(None)
}

// The way of any other network.
fn sets_of<'n, E: PiecewiseLaw>(
    alloc: Global,
    course: Course<'n, E>,
) -> Result<Way<'n, E>, OutOfMemory>
    ensures { IfOk result (λ way. ⟦<Way<'n, E> as Follower>⟧.stands_for way ≡ followed E.function course.entry) }
{
    match packed_sets(alloc, &course)? {
        Some(sets) => Ok(Way::PackedSets(sets)),
        None => Ok(Way::Regions(Regions::reserve(alloc, course)?)),
    }
}

// The sets of any network, of states that are packed into the fewest words that they fit.
fn packed_sets<'n, E: PiecewiseLaw>(
    alloc: Global,
    course: &Course<'n, E>,
) -> Result<Option<SetsByWords<'n, E>>, OutOfMemory>
    ensures { IfOk result (λ found. IfSome found (λ sets. ⟦<SetsByWords<'n, E> as Follower>⟧.stands_for sets ≡ followed E.function course.now)) }
{
    return_packed!(PackedSets, alloc, course);
    Ok(None)
}
