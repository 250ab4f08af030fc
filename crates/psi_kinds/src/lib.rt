//! The kinds of events of a queueing network, and the event that each of them is.
//!
//! A `Kind` says in the terms of queueing what an event does: an arrival, a service, a choice by index, a
//! batch, a negative customer, a fork, a join or a guarded event. `lower` makes of it an event of one of
//! two forms, a route or a guarded event, that does the same to every state.
#![tactic(auto)]

mod as_route;
mod event;
mod judging;
mod kinds;
mod lowering;
mod moves;
mod parting;
mod refusals;
mod rows;
mod tables;

pub use event::Event;
pub use judging::refusal_of;
pub use kinds::Kind;
pub use lowering::{lower, lower_accepted};
pub use moves::Move;
pub use refusals::KindRefusal;
pub use tables::Tables;

/// An allocation failed: the only way in which a call with this error fails.
pub use std::alloc::AllocError as OutOfMemory;
