//! Routes: customers who come from outside, or one who is served, join one of several queues.
//!
//! A [`Route`] chooses the target with the least key among those with room: the first of a list, or the
//! least of an index, as in join the shortest queue. It is an event of a network: a function on states,
//! with the tight envelope of each box (Bušić, Gaujal and Vincent 2008), and with an exact test for
//! whether it keeps the componentwise order of states (Propp and Wilson 1996).
#![tactic(auto)]

mod as_route;
mod envelope;
mod event;
mod flat;
mod index_envelope;
mod judging;
mod keys;
mod list_envelope;
mod monotonicity;
mod offers;
mod parts;
mod pieces;
mod route;
mod routing;
mod target_ends;

pub use as_route::RouteLaw;
pub use judging::{is_self_target, is_size_off};
pub use parts::{Full, RouteRefusal, Source};
pub use route::Route;
