//! The pieces of a route.

ghost use Rattle.std.specs.Prelude.{◌≡◌, ◌<◌, IfSome, MatchBool, length};
ghost use Rattle.psi_event.specs.Piecewise.{Does};

use crate::parts::Full;
use crate::route::Route;
use psi_event::{Piece, Piecewise, PiecewiseLaw, Side, Sides};
use psi_state::State;

impl PiecewiseLaw for Route {
    fn piecewise(&self) -> Option<Piecewise> {
        if !self.is_plain() {
            return None;
        }
        match self.places() {
            0 => Some(self.leaving()),
            1 => Some(self.joining()),
            2 if self.stays() => Some(self.choosing()),
            _ => None,
        }
    }
}

impl Route {
    ghost use Rattle.psi_route.specs.Pieces.{for_source, for_target, serving, on_side, bound_of, leaving, joining, choosing, Stays};
    ghost use Rattle.psi_route.specs.Route.{shape_of};

    // The pieces where there is no target.
    fn leaving(&self) -> Piecewise
        requires { length self.now.targets ≡ 0 }
        ensures { result ≡ leaving (shape_of self.now) }
    {
        let one = self.for_source(1);
        Piecewise {
            bounds: self.for_source(self.server.least),
            first: Piece {
                sides: self.serving(),
                ups: State::zero(one.len()),
                downs: one,
            },
            second: Piece::empty(one.len()),
        }
    }

    // The pieces where there is one target.
    fn joining(&self) -> Piecewise
        requires { length self.now.targets ≡ 1 }
        ensures { result ≡ joining (shape_of self.now) }
    {
        let one = self.for_source(1);
        let zero = State::zero(one.len());
        let serving = self.serving();
        Piecewise {
            bounds: self.for_target(0, self.for_source(self.server.least), self.bound(0)),
            first: Piece {
                sides: self.on_side(0, serving, Side::Below),
                ups: self.for_target(0, zero, self.size),
                downs: one,
            },
            second: Piece {
                sides: self.on_side(0, serving, Side::AtLeast),
                ups: zero,
                downs: if self.full == Full::Lost { one } else { zero },
            },
        }
    }

    // Whether nothing changes where no target has room.
    fn stays(&self) -> bool
        ensures { MatchBool result (Stays (shape_of self.now)) (Stays (shape_of self.now) → ⊥) }
    {
        self.source.is_none() || self.full == Full::Stay
    }

    // The pieces where there are two targets, and nothing changes where neither has room.
    fn choosing(&self) -> Piecewise
        requires { length self.now.targets ≡ 2 }
        ensures { result ≡ choosing (shape_of self.now) }
    {
        let one = self.for_source(1);
        let zero = State::zero(one.len());
        let least = self.for_target(0, self.for_source(self.server.least), self.bound(0));
        let serving = self.serving();
        let full = self.on_side(0, serving, Side::AtLeast);
        Piecewise {
            bounds: self.for_target(1, least, self.bound(1)),
            first: Piece {
                sides: self.on_side(0, serving, Side::Below),
                ups: self.for_target(0, zero, self.size),
                downs: one,
            },
            second: Piece {
                sides: self.on_side(1, full, Side::Below),
                ups: self.for_target(1, zero, self.size),
                downs: one,
            },
        }
    }

    // A number for the source, if there is one, and none for the other queues.
    fn for_source(&self, number: u16) -> State
        ensures value { result ≡ for_source (shape_of self.now) number }
        ensures length { length result ≡ length self.now.caps }
    {
        let mut list = State::zero(self.caps.len());
        if let Some(source) = self.source {
            list.set(source.queue, number);
        }
        list
    }

    // A number for the target at place `i`, and those of a list for the other queues.
    fn for_target(&self, i: u8, list: State, number: u16) -> State
        requires place { i < length self.now.targets }
        requires length { length list ≡ length self.now.caps }
        ensures value { result ≡ for_target (shape_of self.now) i list number }
        ensures length { length result ≡ length self.now.caps }
    {
        let mut changed = list;
        changed.set(self.target(i), number);
        changed
    }

    // The sides where the source serves, if there is one: at its bound or above it.
    fn serving(&self) -> Sides
        ensures value { result ≡ serving (shape_of self.now) }
        ensures length { length result ≡ length self.now.caps }
    {
        let mut sides = Sides::any(self.caps.len());
        if let Some(source) = self.source {
            sides.set(source.queue, Side::AtLeast);
        }
        sides
    }

    // A side for the target at place `i`, and those of a list for the other queues.
    fn on_side(&self, i: u8, sides: Sides, side: Side) -> Sides
        requires place { i < length self.now.targets }
        requires length { length sides ≡ length self.now.caps }
        ensures length { length result ≡ length self.now.caps }
        ensures value { result ≡ on_side (shape_of self.now) i sides side }
    {
        let mut changed = sides;
        changed.set(self.target(i), side);
        changed
    }

    // The number from which on the target at place `i` has no room.
    fn bound(&self, i: u8) -> u16
        requires { i < length self.now.targets }
        ensures { result ≡ bound_of (shape_of self.now) i }
    {
        self.cap(i) - (self.size - 1)
    }
}
