//! What a guarded event asks of a queue that it names, and what it does to it.

ghost use Rattle.std.specs.Prelude.{◌≡◌, ◌<◌, ◌≤◌, [], ◌∷◌, ◌++◌, length, slice_get, Some};

use std::fmt;
use std::marker::Model;

/// What a guarded event asks of one queue, and what it does to it.
///
/// The event happens only in states in which the queue holds from `least` to `most` customers. There
/// the queue's number becomes the number with the shift added, raised to the floor if it is below it,
/// and lowered to the ceiling if it is above it.
#[derive(Clone, Copy, PartialEq, Eq, Debug)]
pub struct Part {
    /// The queue, counted from 0.
    pub queue: u8,
    /// The least number of customers with which the event happens.
    pub least: u16,
    /// The greatest number of customers with which the event happens.
    pub most: u16,
    /// How many customers come to the queue, or leave it where this is below 0: from -65,535 to 65,535.
    pub shift: i32,
    /// The least number of customers that the queue holds afterwards.
    pub floor: u16,
    /// The greatest number of customers that the queue holds afterwards.
    pub ceiling: u16,
}

/// The parts of a guarded event, in their order: at most 32, seen as a list.
#[derive(Clone, Copy)]
pub struct Parts {
    items: [Part; 32],
    len: u8,
}

impl Model for Parts {
    ghost use Rattle.std.specs.Prelude.{◌≡◌, ◌-◌, ◌≤◌, ◌++◌, List, length, take, drop, replicate};
    ghost use Rattle.psi_guard.specs.Inner.PartsKept.{no_part};
    ghost use Rattle.psi_guard.specs.Inner.PartsKeptLaws.{padded};
    ghost use Rattle.psi_guard.specs.declared.parts.Part.{Part};

    ghost Value = { List Part };

    ghost view = { λ p. take p.len p.items };

    ghost invariant = { λ p. (p.len ≤ 32) × (length p.items ≡ 32) × (drop p.len p.items ≡ replicate (32 - p.len) no_part) };

    ghost inverse = { λ xs. record { items = xs ++ replicate (32 - length xs) no_part; len = length xs } };

    ghost inverse_ok = { λ a h. padded a.items a.len h.0 h.1 h.2 };
}

impl Parts {
    ghost use Rattle.psi_guard.specs.Refusals.{names};

    /// Returns the list of no part.
    pub fn empty() -> Parts
        ensures { result ≡ [] }
    {
        let none = Part {
            queue: 0,
            least: 0,
            most: 0,
            shift: 0,
            floor: 0,
            ceiling: 0,
        };
        Parts {
            items: [none; 32],
            len: 0,
        }
    }

    /// Puts a part at the end of the list.
    pub fn push(&mut self, p: Part)
        requires { length self.old < 32 }
        ensures { self.new ≡ self.old ++ p ∷ [] }
    {
        self.items[self.len as usize] = p;
        self.len += 1;
    }

    /// Returns the number of parts in the list, 0 to 32.
    ///
    /// Its second clause is how a caller learns what every `Parts` keeps.
    pub fn len(&self) -> u8
        ensures value { result ≡ length self.now }
        ensures few { length self.now ≤ 32 }
    {
        self.len
    }

    /// Returns the part at place `i` of the list; places are counted from 0.
    pub fn get(&self, i: u8) -> Part
        requires { i < length self.now }
        ensures { slice_get self.now i ≡ Some result }
    {
        self.items[i as usize]
    }

    /// Returns the parts, one after another.
    pub fn as_slice(&self) -> &[Part]
        ensures { result.now ≡ self.now }
    {
        &self.items[..self.len as usize]
    }

    /// Returns whether one of the parts names the queue.
    pub fn names(&self, queue: u8) -> bool
        ensures { result ≡ names self.now queue }
    {
        self.as_slice().iter().any(|part| part.queue == queue)
    }
}

impl fmt::Debug for Parts {
    fn fmt<W: fmt::Write>(&self, f: &mut fmt::Formatter<W>) -> fmt::Result {
        self.as_slice().fmt(f)
    }
}
