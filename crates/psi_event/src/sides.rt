//! On which side of their bounds the numbers of queues have to be.

ghost use Rattle.std.specs.Prelude.{◌≡◌, ◌<◌, ◌≤◌, length, replicate, slice_index_or, slice_set};
ghost use Rattle.psi_event.specs.declared.sides.Side.TheVariants.{Any};

use std::fmt;
use std::marker::Model;

/// On which side of a bound a number has to be.
#[derive(Clone, Copy, PartialEq, Eq, Debug)]
pub enum Side {
    /// Any number will do.
    Any,
    /// At the bound or above it.
    AtLeast,
    /// Below the bound.
    Below,
}

/// The side for each queue of a network: at most 32 of them, seen as a list.
#[derive(Clone, Copy)]
pub struct Sides {
    items: [Side; 32],
    len: u8,
}

impl Model for Sides {
    ghost use Rattle.std.specs.Prelude.{◌≡◌, ◌-◌, ◌≤◌, ◌++◌, List, length, take, drop, replicate};
    ghost use Rattle.psi_event.specs.declared.sides.Side.{Side};
    ghost use Rattle.psi_event.specs.declared.sides.Side.TheVariants.{Any};
    ghost use Rattle.psi_event.specs.Inner.SidesKept.{padded};

    ghost Value = { List Side };

    ghost view = { λ s. take s.len s.items };

    ghost invariant = { λ s. (s.len ≤ 32) × (length s.items ≡ 32) × (drop s.len s.items ≡ replicate (32 - s.len) Any) };

    ghost inverse = { λ xs. record { items = xs ++ replicate (32 - length xs) Any; len = length xs } };

    ghost inverse_ok = { λ a h. padded a.items a.len h.0 h.1 h.2 };
}

impl Sides {
    /// `Any` for each of `queues` queues, at most 32.
    pub fn any(queues: u8) -> Sides
        requires { queues ≤ 32 }
        ensures { result ≡ replicate queues Any }
    {
        Sides {
            items: [Side::Any; 32],
            len: queues,
        }
    }

    /// Returns the number of queues.
    ///
    /// Its second clause is how a caller learns what every `Sides` keeps.
    pub fn len(&self) -> u8
        ensures value { result ≡ length self.now }
        ensures few { length self.now ≤ 32 }
    {
        self.len
    }

    /// Returns the side of queue `i`; queues are counted from 0.
    pub fn get(&self, i: u8) -> Side
        requires { i < length self.now }
        ensures { result ≡ slice_index_or self.now i Any }
    {
        self.items[i as usize]
    }

    /// Lets queue `i` have this side, and leaves those of the others as they are.
    pub fn set(&mut self, i: u8, side: Side)
        requires { i < length self.old }
        ensures { self.new ≡ slice_set self.old i side }
    {
        self.items[i as usize] = side;
    }
}

impl fmt::Debug for Sides {
    fn fmt<W: fmt::Write>(&self, f: &mut fmt::Formatter<W>) -> fmt::Result {
        self.items[..self.len as usize].fmt(f)
    }
}
