//! Events that declare of which pieces they are.

ghost use Rattle.std.specs.Prelude.{IfSome};
ghost use Rattle.psi_event.specs.Piecewise.{Does};

use crate::idle::Idle;
use crate::law::EventLaw;
use crate::piecewise::Piecewise;

/// An event that may declare its pieces. One that declares none needs no more than `impl PiecewiseLaw for
/// It {}`.
///
/// No call allocates.
pub trait PiecewiseLaw: EventLaw {
    /// The pieces that do to each state within the capacities what the event does, where the event declares them.
    fn piecewise(&self) -> Option<Piecewise>
        ensures { IfSome result (λ pieces. Does (Self.capacities self.now) pieces (Self.function self.now)) }
    {
        None
    }
}

impl PiecewiseLaw for Idle {}
